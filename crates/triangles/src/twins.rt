// TWIN from VERT, where no directed pair of vertices is on two halfedges. Each halfedge that leaves a vertex is marked by the vertex where
// it ends, and each one that comes to it looks there for one that runs back.
ghost use Rattle.std.specs.Prelude.{◌≤◌, ◌<◌, ◌≡◌, IfErr, OnOk, length, set};
ghost use Rattle.laws.specs.Below.{lowest};
ghost use Rattle.laws.specs.Parts.{in_front};
ghost use Rattle.alike.specs.Internal.Alike.{bound, Ready, Chain, Marked};
ghost use Rattle.alike.specs.Internal.Narrowed.{Small};
ghost use Rattle.halfedges.specs.Cage.{PREV, cell};
ghost use Rattle.triangles.specs.Plain.{doubled, twin_table};
ghost use Rattle.triangles.specs.Internal.Joining.{Whole, Twinning, Ended, end_table, crossing, Lower, Joined};

use alike;
use alike::numbers;
use halfedges::table::HalfedgeTable;

// TWIN in front of a table, or else the lower halfedge of the first pair that is on two.
pub fn build_twins(vert: &[u32], twin: &mut [u32]) -> Result<(), usize>
    requires { Whole vert.now × (length vert.now ≤ length twin.old) }
    ensures err { IfErr result (λ place. (place < length vert.now) × (place ≡ lowest (length vert.now) (doubled vert.now))) }
    ensures ok { OnOk result ((lowest (length vert.now) (doubled vert.now) ≡ length vert.now)
        × (twin.new ≡ in_front (twin_table vert.now) twin.old)) }
{
    let place = find_twins(vert, twin);
    if place < vert.len() {
        return Err(place);
    }
    Ok(())
}

// The same by the lowest place so far, which is carried on: H where there is none.
fn find_twins(vert: &[u32], twin: &mut [u32]) -> usize
    requires { Whole vert.now × (length vert.now ≤ length twin.old) }
    ensures { Twinning vert.now twin.old result twin.new }
{
    if numbers::are_small(vert) {
        return join(vert, twin);
    }
    let mut small = [0u32; HalfedgeTable::MOST_HALFEDGES];
    numbers::narrow(vert, &mut small);
    join(&small[..vert.len()], twin)
}

// The same of corners that have small numbers.
fn join(vert: &[u32], twin: &mut [u32]) -> usize
    requires { Whole vert.now × Small vert.now × (length vert.now ≤ length twin.old) }
    ensures { Twinning vert.now twin.old result twin.new }
{
    let mut ends = [0u32; HalfedgeTable::MOST_HALFEDGES];
    list_ends(vert, &mut ends);
    join_ends(vert, &ends[..vert.len()], twin)
}

// The vertex where each halfedge ends.
fn list_ends(vert: &[u32], ends: &mut [u32])
    requires { Whole vert.now × (length vert.now ≤ length ends.old) }
    ensures { ends.new ≡ in_front (end_table vert.now) ends.old }
{
    for halfedge in 0..vert.len() {
        let next = HalfedgeTable::next(halfedge);
        ends[halfedge] = vert[next];
    }
}

// The same by the vertices where the halfedges start and end.
fn join_ends(vert: &[u32], ends: &[u32], twin: &mut [u32]) -> usize
    requires { Ended vert.now ends.now × (length vert.now ≤ length twin.old) }
    ensures { Twinning vert.now twin.old result twin.new }
{
    let mut heads = [0u32; alike::BOUND];
    let mut before = [0u32; HalfedgeTable::MOST_HALFEDGES];
    alike::chain(vert, ends, &mut heads, &mut before);
    let mut marks = [0u32; alike::BOUND];
    join_vertices(vert, ends, &heads, &before, &mut marks, twin)
}

// One vertex after the other.
fn join_vertices(
    vert: &[u32],
    ends: &[u32],
    heads: &[u32],
    before: &[u32],
    marks: &mut [u32],
    twin: &mut [u32],
) -> usize
    requires ended { Ended vert.now ends.now × Ready vert.now ends.now heads.now before.now }
    requires bound_in_bounds { (bound ≤ length marks.old) × (length vert.now ≤ length twin.old) }
    ensures { Twinning vert.now twin.old result twin.new }
{
    let mut place = vert.len();
    for vertex in 0..heads.len() {
        let head = heads[vertex] as usize;
        alike::mark(vert, ends, before, vertex, head, marks);
        place = join_corners(vert, ends, before, vertex, head, marks, place, twin);
    }
    place
}

// The corners of one vertex, down their chain.
fn join_corners(
    vert: &[u32],
    ends: &[u32],
    before: &[u32],
    vertex: usize,
    head: usize,
    marks: &[u32],
    place: usize,
    twin: &mut [u32],
) -> usize
    requires ended { Ended vert.now ends.now × Chain vert.now ends.now before.now vertex head
        × Marked vert.now ends.now vertex marks.now }
    requires bound_in_bounds { (bound ≤ length marks.now) × (length vert.now ≤ length twin.old) }
    ensures { Joined vert.now ends.now vertex 0 place twin.old result twin.new }
{
    let mut lowest = place;
    // A walk along links, which no range counts.
    let mut end = head;
    while end != 0 {
        let halfedge = end - 1;
        lowest = join_corner(vert, ends, halfedge, marks, lowest, twin);
        end = before[halfedge] as usize;
    }
    lowest
}

// One corner: its own halfedge may be doubled, and the one that comes to it gets its twin.
fn join_corner(
    vert: &[u32],
    ends: &[u32],
    halfedge: usize,
    marks: &[u32],
    place: usize,
    twin: &mut [u32],
) -> usize
    requires ended { Ended vert.now ends.now × (halfedge < length vert.now) }
    requires bound_in_bounds { (bound ≤ length marks.now) × (length vert.now ≤ length twin.old) }
    ensures lower { Lower (cell marks.now (cell ends.now halfedge)) halfedge place result }
    ensures twin_after { twin.new ≡ set twin.old (PREV halfedge)
        (crossing vert.now (PREV halfedge) (cell marks.now (cell vert.now (PREV halfedge)))) }
{
    let previous = HalfedgeTable::previous(halfedge);
    let start = vert[previous] as usize;
    twin[previous] = twin_of(vert, ends, previous, marks[start]);
    let end = ends[halfedge] as usize;
    lower_place(marks[end] as usize, halfedge, place)
}

// The other halfedge where it is this one's twin. One that starts where it ends finds itself, and has no twin.
fn twin_of(vert: &[u32], ends: &[u32], halfedge: usize, other: u32) -> u32
    requires { Ended vert.now ends.now × (halfedge < length vert.now) }
    ensures { result ≡ crossing vert.now halfedge other }
{
    let found = other as usize;
    if vert.len() <= found {
        return HalfedgeTable::NO_TWIN;
    }
    if found == halfedge {
        return HalfedgeTable::NO_TWIN;
    }
    if vert[found] != ends[halfedge] {
        return HalfedgeTable::NO_TWIN;
    }
    if ends[found] != vert[halfedge] {
        return HalfedgeTable::NO_TWIN;
    }
    other
}

// The lower of a place and of a halfedge's first, where that is another halfedge.
fn lower_place(first: usize, halfedge: usize, place: usize) -> usize
    ensures { Lower first halfedge place result }
{
    if first == halfedge {
        return place;
    }
    if first < place {
        return first;
    }
    place
}
