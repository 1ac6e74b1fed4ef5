// What the halves of one halfedge have, and the numbers of the halfedges across.
ghost use Rattle.std.specs.Prelude.{◌≡◌, ◌+◌, ◌*◌, ◌<◌, ◌≤◌};
ghost use Rattle.halfedges.specs.Cage.{NEXT};
ghost use Rattle.splitting.specs.Internal.InPlace.{most_small, twin_halves, edge_halves, KnownNext, SmallTwin, SmallEdge};

use halfedges::table::HalfedgeTable;

// What a table has for a triangle's three halfedges.
#[derive(Clone, Copy)]
pub struct Three(pub u32, pub u32, pub u32);

// What a table has for a halfedge's two halves: the one from its vertex on, and the one after that.
#[derive(Clone, Copy)]
pub struct Halves(pub u32, pub u32);

// The twins of a halfedge's two halves, 3h and 3·NEXT(h)+2, from its own twin t: 3·NEXT(t)+2 and 3·t.
pub fn known_halves(twin: usize, next: usize) -> Halves
    requires { (twin < most_small) × (next ≡ NEXT twin) }
    ensures { result ≡ twin_halves twin }
{
    Halves((3 * next + 2) as u32, (3 * twin) as u32)
}

// The twins of a halfedge's two halves, where its twin may be missing.
pub fn twin_halves(old: u32, next: usize) -> Halves
    requires { KnownNext old next }
    ensures { result ≡ twin_halves old }
{
    if old == HalfedgeTable::NO_TWIN {
        return Halves(HalfedgeTable::NO_TWIN, HalfedgeTable::NO_TWIN);
    }
    known_halves(old as usize, next)
}

// The twins of a halfedge's two halves, where its twin may be missing and any of its triangle's three.
pub fn any_halves(old: u32) -> Halves
    requires { SmallTwin old }
    ensures { result ≡ twin_halves old }
{
    twin_halves(old, HalfedgeTable::next(old as usize))
}

// The edges of a halfedge's two halves: an edge's halves are numbered along the higher of its halfedges.
pub fn edge_halves(edge: u32, above: bool) -> Halves
    requires { SmallEdge edge }
    ensures { result ≡ edge_halves edge above }
{
    if above {
        return Halves(2 * edge, 2 * edge + 1);
    }
    Halves(2 * edge + 1, 2 * edge)
}

// The vertex on an edge: V+EDGE(h).
pub fn on_edge(edge: u32, vertices: usize) -> u32
    requires { (SmallEdge edge) × (vertices ≤ most_small) }
    ensures { result ≡ vertices + edge }
{
    (vertices + edge as usize) as u32
}

// Three numbers, each a step after the one before it.
pub fn count_up(from: usize, step: usize) -> Three
    requires { (from ≤ 4 * most_small) × (step ≤ 3) }
    ensures { result ≡ (from, from + step, from + 2 * step) }
{
    Three(from as u32, (from + step) as u32, (from + 2 * step) as u32)
}
