// What an operation answers: done or a refusal, and what is returned besides.
ghost use Rattle.std.specs.Prelude.{◌≡◌};
ghost use Rattle.halfedges.specs.Refusals.{Said, told};

use climbing::rows::Cells;
use halfedges::refusal::Refusal;
use halfedges::table::Levels;
use reading::Reading;
use tables::check::Checked;
use why::Why;

// An answer with values of a kind.
pub trait Tells<T> {
    ghost said: { Self → Said T };

    // Done or the refusal, and the values.
    fn tell(self) -> (Result<(), Refusal>, T)
        ensures verdict { told result.0 ≡ (said self).verdict }
        ensures values { result.1 ≡ (said self).values };
}

// Done or any refusal, with any values beside it.
impl<T> Tells<T> for (Result<(), Refusal>, T) {
    ghost said = { λ p. record { verdict = told p.0; values = p.1 } };

    fn tell(self) -> (Result<(), Refusal>, T) {
        self
    }
}

// H, E, F, V and B; of a refusal zeros.
impl Tells<[usize; 5]> for Result<Checked, Refusal> {
    ghost use Rattle.tables.specs.Check.{checked};

    ghost said = { checked };

    fn tell(self) -> (Result<(), Refusal>, [usize; 5]) {
        match self {
            Ok(checked) => (
                Ok(()),
                [
                    checked.halfedges,
                    checked.edges,
                    checked.triangles,
                    checked.vertices,
                    checked.borders,
                ],
            ),
            Err(refusal) => (Err(refusal), [0; 5]),
        }
    }
}

// The three corners; of a refusal zeros.
impl Tells<[u32; 3]> for Result<[u32; 3], Refusal> {
    ghost use Rattle.halfedges.specs.Corners.{cornered};

    ghost said = { cornered };

    fn tell(self) -> (Result<(), Refusal>, [u32; 3]) {
        match self {
            Ok(corners) => (Ok(()), corners),
            Err(refusal) => (Err(refusal), [0; 3]),
        }
    }
}

// Form, H, V, E and weight; of a refusal zeros.
impl Tells<[usize; 5]> for Result<Reading, Refusal> {
    ghost use Rattle.reading.specs.Reading.{reported};

    ghost said = { reported };

    fn tell(self) -> (Result<(), Refusal>, [usize; 5]) {
        match self {
            Ok(read) => (
                Ok(()),
                [
                    u32::from(read.form) as usize,
                    read.halfedges,
                    read.vertices,
                    read.edges,
                    u32::from(read.weight) as usize,
                ],
            ),
            Err(refusal) => (Err(refusal), [0; 5]),
        }
    }
}

// A file's length; of a refusal zero.
impl Tells<usize> for Result<usize, Refusal> {
    ghost use Rattle.writing.specs.Writing.{wrote};

    ghost said = { wrote };

    fn tell(self) -> (Result<(), Refusal>, usize) {
        match self {
            Ok(length) => (Ok(()), length),
            Err(refusal) => (Err(refusal), 0),
        }
    }
}

// The clause with its three numbers; zeros where there is none.
impl Tells<[u32; 4]> for Result<(), Why> {
    ghost use Rattle.clauses.specs.Shown.{numbers};
    ghost use Rattle.why.specs.Why.{explains};

    ghost said = { λ why. record { verdict = (explains why).verdict; values = numbers (explains why).values } };

    fn tell(self) -> (Result<(), Refusal>, [u32; 4]) {
        match self {
            Ok(_) => (Ok(()), [0; 4]),
            Err(why) => (Err(why.refusal()), why.numbers()),
        }
    }
}

// TWIN, VERT and EDGE; of a refusal zeros.
impl Tells<Cells> for Result<Cells, Refusal> {
    ghost use Rattle.climbing.specs.Halfedge.{asked};

    ghost said = { asked };

    fn tell(self) -> (Result<(), Refusal>, Cells) {
        match self {
            Ok(cells) => (Ok(()), cells),
            Err(refusal) => (Err(refusal), Cells::none()),
        }
    }
}

// H, E and V of the seven levels, and the three rooms; of a refusal zeros.
impl Tells<Levels> for Result<Levels, Refusal> {
    ghost use Rattle.halfedges.specs.Counts.{counted};

    ghost said = { counted };

    fn tell(self) -> (Result<(), Refusal>, Levels) {
        match self {
            Ok(levels) => (Ok(()), levels),
            Err(refusal) => (Err(refusal), Levels::none()),
        }
    }
}
