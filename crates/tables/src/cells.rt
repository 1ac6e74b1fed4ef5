// Cells of the table of twins.
ghost use Rattle.std.specs.Prelude.{◌≡◌, ◌<◌};
ghost use Rattle.tables.specs.Internal.Above.{is_above};

use halfedges::table::HalfedgeTable;

// h > t, where a missing twin t counts as lower than every halfedge.
#[tactic(auto, using(std::proofs::lemmas::Bool::Decides::nat_tests))]
pub fn is_above(twin: u32, halfedge: usize) -> bool
    ensures { result ≡ is_above twin halfedge }
{
    twin == HalfedgeTable::NO_TWIN || halfedge > twin as usize
}
