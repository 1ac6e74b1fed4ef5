// Rule 7 at a vertex: what is joined with its lowest corner is marked, and the lowest corner without a mark is found.
ghost use Rattle.std.specs.Prelude.{◌≡◌, true, ℕ, ◌≤◌, ◌<◌, length, get_or};
ghost use Rattle.halfedges.specs.Refusals.{FAN};
ghost use Rattle.tables.specs.Fans.{not_one_fan};
ghost use Rattle.tables.specs.Internal.Walks.{Walkable};
ghost use Rattle.clauses.specs.Clauses.{lowest_corner, apart, lowest_apart, fan_clause};
ghost use Rattle.clauses.specs.Shown.{named, broken};
ghost use Rattle.clauses.specs.Internal.Marks.{step as Marks-step, Marked, Joins};

use crate::Clause;
use halfedges::table::HalfedgeTable;

// Rule 7, where rule 3 is kept.
pub fn fan_clause(twin: &[u32], vert: &[u32], vertex: usize) -> Clause
    requires { (Walkable twin.now) × (length vert.now ≡ length twin.now) × (not_one_fan twin.now vert.now vertex ≡ true) }
    ensures value { named result ≡ fan_clause twin.now vert.now vertex }
    ensures rule { broken result vertex ≡ FAN vertex }
{
    let corner = lowest_corner(vert, vertex);
    let mut marks = [0u32; HalfedgeTable::MOST_HALFEDGES];
    mark_joined(twin, &mut marks, corner);
    let other = lowest_apart(&marks, twin, vert, vertex, corner);
    Clause::Apart {
        corner: corner as u32,
        other: other as u32,
    }
}

// The lowest corner at a vertex; H where there is none, a number that the definitions of the clauses take as it is.
fn lowest_corner(vert: &[u32], vertex: usize) -> usize
    ensures { result ≡ lowest_corner vert.now vertex }
{
    vert.iter()
        .position(|corner| *corner as usize == vertex)
        .unwrap_or(vert.len())
}

// The lowest corner at a vertex without a mark; H where there is none, as before.
fn lowest_apart(marks: &[u32], twin: &[u32], vert: &[u32], vertex: usize, corner: usize) -> usize
    requires { (Joins twin.now corner marks.now) × (length vert.now ≡ length twin.now) × (length vert.now ≤ length marks.now) }
    ensures { result ≡ lowest_apart twin.now vert.now vertex corner }
{
    for halfedge in 0..vert.len() {
        if vert[halfedge] as usize == vertex && marks[halfedge] == 0 {
            return halfedge;
        }
    }
    vert.len()
}

// Marks all that is joined with a corner: first along the links, then against them.
fn mark_joined(twin: &[u32], marks: &mut [u32], corner: usize)
    requires walkable { (Walkable twin.now) × (corner < length twin.now) × (length twin.now ≤ length marks.old) }
    requires by_index { (h : ℕ) → h < length twin.now → get_or marks.old h 0 ≡ 0 }
    ensures { Joins twin.now corner marks.new }
{
    mark(twin, marks, corner, true);
    mark(twin, marks, corner, false);
}

// Marks what the walk from a corner meets, until it ends at a border or is round.
// The way is a flag, since one definition says what is met both ways.
fn mark(twin: &[u32], marks: &mut [u32], corner: usize, along: bool)
    requires { (Walkable twin.now) × (corner < length twin.now) × (length twin.now ≤ length marks.old) }
    ensures { Marked twin.now along corner marks.old marks.new }
{
    let mut at = corner;
    for _turn in 0..=twin.len() {
        marks[at] = 1;
        let other = step(twin, at, along);
        if other == HalfedgeTable::NO_TWIN {
            return;
        }
        at = other as usize;
        if at == corner {
            return;
        }
    }
}

// The halfedge that one is linked with, or the one that is linked with it; else the marker.
fn step(twin: &[u32], halfedge: usize, along: bool) -> u32
    requires { (Walkable twin.now) × (halfedge < length twin.now) }
    ensures { result ≡ Marks-step twin.now along halfedge }
{
    if along {
        let previous = HalfedgeTable::previous(halfedge);
        return twin[previous];
    }
    let t = twin[halfedge];
    if t == HalfedgeTable::NO_TWIN {
        return t;
    }
    HalfedgeTable::next(t as usize) as u32
}
