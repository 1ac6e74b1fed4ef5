// Why any cage is sent back: the check's refusal, with the clause of the rule that is broken.
#![tactic(auto)]

ghost use Rattle.std.specs.Prelude.{◌≡◌};
ghost use Rattle.halfedges.specs.Refusals.{refused};
ghost use Rattle.tables.specs.Tables.{held};
ghost use Rattle.clauses.specs.Shown.{numbers};
ghost use Rattle.why.specs.Why.{why_cage, reason, explains};

use cage::Cage;
use clauses::Clause;
use halfedges::refusal::Refusal;

// Why a cage is sent back: a clause that is broken at a place, or a refusal that has no clauses.
#[derive(Clone, Copy, Debug, PartialEq, Eq)]
pub enum Why {
    Broken { clause: Clause, place: usize },
    Refused(Refusal),
}

impl Why {
    // The check's refusal.
    pub fn refusal(self) -> Refusal
        ensures { refused result ≡ (reason self).verdict }
    {
        match self {
            Why::Broken { clause, place } => clause.refusal(place),
            Why::Refused(refusal) => refusal,
        }
    }

    // The clause's number in its rule, and the three numbers shown; 0 where there is no clause.
    pub fn numbers(self) -> [u32; 4]
        ensures { result ≡ numbers (reason self).values }
    {
        match self {
            Why::Broken { clause, .. } => clause.numbers(),
            Why::Refused(_) => [0; 4],
        }
    }
}

// Whether the cage in any tables is accepted, or why it is sent back.
pub fn explain(cage: &Cage) -> Result<(), Why>
    ensures { explains result ≡ why_cage (held cage.now.tables) cage.now.creases.now cage.now.points.now }
{
    let refusal = match cage.check() {
        Ok(_) => return Ok(()),
        Err(refusal) => refusal,
    };
    match clauses::clause_at(&cage.tables, cage.vertices(), Err(refusal)) {
        Some(clause) => {
            let place = refusal.place();
            Err(Why::Broken { clause, place })
        }
        None => Err(Why::Refused(refusal)),
    }
}
