// Rule 7. Of each vertex the fan of one corner is walked: it is all of them where it has as many halfedges as the vertex has
// corners.
ghost use Rattle.std.specs.Prelude.{◌≡◌, ℕ, ◌≤◌, ◌<◌, length};
ghost use Rattle.halfedges.specs.Cage.{marker, most_halfedges, most_vertices, cell};
ghost use Rattle.halfedges.specs.Refusals.{FAN, told, given_at};
ghost use Rattle.tables.specs.Fans.{link, not_one_fan};
ghost use Rattle.tables.specs.Internal.Walks.{Walkable, fan_size, Kept};
ghost use Rattle.tables.specs.Internal.Relied.{ForFans, Marked};

use crate::rules::count_numbers;
use halfedges::refusal::Refusal;
use halfedges::table::HalfedgeTable;

// Rule 7, where rules 3 to 5 are kept.
pub fn check_fans(twin: &[u32], vert: &[u32], vertices: usize) -> Result<(), Refusal>
    requires { ForFans twin.now vert.now vertices × (vertices ≤ most_vertices) }
    ensures { told result ≡ given_at vertices (not_one_fan twin.now vert.now) FAN }
{
    let mut kept = [0u32; HalfedgeTable::MOST_VERTICES];
    keep_corners(vert, &mut kept);
    let mut corners = [0u32; HalfedgeTable::MOST_VERTICES];
    count_numbers(vert, &mut corners);
    first_not_one_fan(&kept, &corners, twin, vert, vertices)
}

// One corner of each vertex, the last in the table.
fn keep_corners(vert: &[u32], kept: &mut [u32])
    requires { (length vert.now ≤ most_halfedges) × ((h : ℕ) → h < length vert.now → cell vert.now h < length kept.old) }
    ensures { Kept vert.now (length vert.now) kept.new }
{
    for halfedge in 0..vert.len() {
        let vertex = vert[halfedge] as usize;
        kept[vertex] = halfedge as u32;
    }
}

// Rule 7, by one corner of each vertex and a tally of all.
fn first_not_one_fan(
    kept: &[u32],
    corners: &[u32],
    twin: &[u32],
    vert: &[u32],
    vertices: usize,
) -> Result<(), Refusal>
    requires { ForFans twin.now vert.now vertices × Marked vert.now vertices kept.now corners.now }
    ensures { told result ≡ given_at vertices (not_one_fan twin.now vert.now) FAN }
{
    for vertex in 0..vertices {
        let corner = kept[vertex] as usize;
        let size = fan_size(twin, corner);
        if size != corners[vertex] as usize {
            return Err(Refusal::Fan(vertex));
        }
    }
    Ok(())
}

// How many halfedges are joined with one: the walk goes against the links until it is round. Where it ends at a border
// instead, the fan is walked from there, since more may lie on the other side.
fn fan_size(twin: &[u32], halfedge: usize) -> usize
    requires { (Walkable twin.now) × (halfedge < length twin.now) }
    ensures { result ≡ fan_size twin.now halfedge }
{
    let mut corner = halfedge;
    let mut size = 1;
    let mut other = twin[corner];
    while other != HalfedgeTable::NO_TWIN {
        corner = HalfedgeTable::next(other as usize);
        if corner == halfedge {
            return size;
        }
        size += 1;
        other = twin[corner];
    }
    open_fan_size(twin, corner)
}

// How many halfedges are joined with one that has no twin: the walk goes along the links to the other border.
fn open_fan_size(twin: &[u32], first: usize) -> usize
    requires { (Walkable twin.now) × (first < length twin.now) × (cell twin.now first ≡ marker) }
    ensures { result ≡ fan_size twin.now first }
{
    let mut size = 1;
    let mut other = linked_with(twin, first);
    while other != HalfedgeTable::NO_TWIN {
        other = linked_with(twin, other as usize);
        size += 1;
    }
    size
}

// TWIN(PREV(h)): the halfedge that h is linked with, or the marker.
fn linked_with(twin: &[u32], halfedge: usize) -> u32
    requires { (Walkable twin.now) × (halfedge < length twin.now) }
    ensures { result ≡ link twin.now halfedge }
{
    let previous = HalfedgeTable::previous(halfedge);
    twin[previous]
}
