// The refusals, their numbers and places, and those of any answer.
ghost use Rattle.std.specs.Prelude.{◌≡◌};
ghost use Rattle.halfedges.specs.Refusals.{refused, told};

// Why something is refused, with the place where there is one.
#[derive(Clone, Copy, Debug, PartialEq, Eq)]
pub enum Refusal {
    Shape,
    Limit,
    Twin(usize),
    Vertex(usize),
    Unused(usize),
    Edge(usize),
    Fan(usize),
    Point(usize),
    Room(usize),
    Short(usize),
    Field(usize),
    Extra(usize),
    Doubled(usize),
    Valence(usize),
    Crease(usize),
    NotOld,
    NoSuchHalfedge(usize),
}

impl Refusal {
    pub fn number(self) -> usize
        ensures { result ≡ (refused self).number }
    {
        match self {
            Refusal::Shape => 1,
            Refusal::Limit => 2,
            Refusal::Twin(_) => 3,
            Refusal::Vertex(_) => 4,
            Refusal::Unused(_) => 5,
            Refusal::Edge(_) => 6,
            Refusal::Fan(_) => 7,
            Refusal::Point(_) => 8,
            Refusal::Room(_) => 9,
            Refusal::Short(_) => 10,
            Refusal::Field(_) => 11,
            Refusal::Extra(_) => 12,
            Refusal::Doubled(_) => 13,
            Refusal::Valence(_) => 14,
            Refusal::Crease(_) => 15,
            Refusal::NotOld => 16,
            Refusal::NoSuchHalfedge(_) => 17,
        }
    }

    pub fn place(self) -> usize
        ensures { result ≡ (refused self).place }
    {
        match self {
            Refusal::Shape => 0,
            Refusal::Limit => 0,
            Refusal::Twin(halfedge) => halfedge,
            Refusal::Vertex(halfedge) => halfedge,
            Refusal::Unused(vertex) => vertex,
            Refusal::Edge(halfedge) => halfedge,
            Refusal::Fan(vertex) => vertex,
            Refusal::Point(index) => index,
            Refusal::Room(table) => table,
            Refusal::Short(offset) => offset,
            Refusal::Field(offset) => offset,
            Refusal::Extra(offset) => offset,
            Refusal::Doubled(halfedge) => halfedge,
            Refusal::Valence(vertex) => vertex,
            Refusal::Crease(edge) => edge,
            Refusal::NotOld => 0,
            Refusal::NoSuchHalfedge(halfedge) => halfedge,
        }
    }
}

// An answer's number; 0 where it is done.
pub fn number<T>(answer: &Result<T, Refusal>) -> usize
    ensures { result ≡ (told answer.now).number }
{
    answer.as_ref().err().map_or(0, |refusal| refusal.number())
}

// An answer's place; 0 where it is done.
pub fn place<T>(answer: &Result<T, Refusal>) -> usize
    ensures { result ≡ (told answer.now).place }
{
    answer.as_ref().err().map_or(0, |refusal| refusal.place())
}
