// Rule 14: with the paper's weight no inner vertex has more than 32 corners.
#![tactic(auto)]

ghost use Rattle.std.specs.Prelude.{◌≡◌, ◌<◌, length};
ghost use Rattle.halfedges.specs.Refusals.{VALENCE, told, given_at, first};
ghost use Rattle.points.specs.Operations.{many_corners, valence_checks};
ghost use Rattle.valences.specs.Internal.Inside.{ForValences, ClearedAt, Cleared, CountedInside};

use halfedges::refusal::Refusal;
use halfedges::table::HalfedgeTable;
use points::weights::{MOST_VALENCE, Weight};
use tables::rules::count_numbers;

// Rule 14 by the weight chosen, where rules 1 to 4 are kept.
pub fn check_valences(
    weight: Weight,
    twin: &[u32],
    vert: &[u32],
    vertices: usize,
) -> Result<(), Refusal>
    requires { ForValences twin.now vert.now vertices }
    ensures { told result ≡ first (valence_checks weight twin.now vert.now vertices) }
{
    match weight {
        Weight::Short => Ok(()),
        Weight::Paper => check_inside(twin, vert, vertices),
    }
}

// Rule 14 with the paper's weight.
fn check_inside(twin: &[u32], vert: &[u32], vertices: usize) -> Result<(), Refusal>
    requires { ForValences twin.now vert.now vertices }
    ensures { told result ≡ given_at vertices (many_corners twin.now vert.now) VALENCE }
{
    let mut corners = [0u32; HalfedgeTable::MOST_VERTICES];
    count_numbers(vert, &mut corners);
    clear_borders(twin, vert, &mut corners);
    first_of_many(&corners, twin, vert, vertices)
}

// Vertices on a border no longer count as having corners.
fn clear_borders(twin: &[u32], vert: &[u32], corners: &mut [u32])
    requires { ForValences twin.now vert.now (length corners.old) }
    ensures { Cleared twin.now vert.now (length vert.now) corners.old
        corners.new }
{
    for halfedge in 0..vert.len() {
        clear_ends(twin, vert, corners, halfedge);
    }
}

// Both ends of a halfedge without twin lie on a border.
fn clear_ends(twin: &[u32], vert: &[u32], corners: &mut [u32], halfedge: usize)
    requires { ForValences twin.now vert.now (length corners.old) × (halfedge < length vert.now) }
    ensures { ClearedAt twin.now vert.now halfedge corners.old corners.new }
{
    if twin[halfedge] != HalfedgeTable::NO_TWIN {
        return;
    }
    let from = vert[halfedge] as usize;
    let to = vert[HalfedgeTable::next(halfedge)] as usize;
    corners[from] = 0;
    corners[to] = 0;
}

// Rule 14, by a tally of the corners of each vertex inside.
fn first_of_many(
    corners: &[u32],
    twin: &[u32],
    vert: &[u32],
    vertices: usize,
) -> Result<(), Refusal>
    requires { CountedInside twin.now vert.now vertices corners.now }
    ensures { told result ≡ given_at vertices (many_corners twin.now vert.now) VALENCE }
{
    for vertex in 0..vertices {
        if MOST_VALENCE < corners[vertex] {
            return Err(Refusal::Valence(vertex));
        }
    }
    Ok(())
}
