// The second pass above the cage: the spokes of the four triangles that one was split into are added at once.
ghost use Rattle.std.specs.Prelude.{◌≡◌, ◌+◌, ◌*◌, ◌/◌, ◌≤◌, ◌<◌, nat_abs, ◌+ℤ◌, length};
ghost use Rattle.laws.specs.Internal.Steps.{steps};
ghost use Rattle.halfedges.specs.Cage.{cell};
ghost use Rattle.points.specs.Operations.{most_coordinate};
ghost use Rattle.points.specs.Internal.Relied.{Fourfold};
ghost use Rattle.spokes.specs.Internal.Sums.{Gathers};
ghost use Rattle.spokes.specs.Internal.Fours.{NearThree, sum_of, add_corner, AddsCorner, add_four, AddsFour, four_of, four_spokes};

use crate::sums::add_to;
use points::cells::point_of;

// The vertices of the four triangles of one: its corners u, v, w, and on the edges after them a, b, c.
#[derive(Clone, Copy)]
struct Four {
    u: usize,
    v: usize,
    w: usize,
    a: usize,
    b: usize,
    c: usize,
}

// The sum of three coordinates in range.
fn sum_three(x: i32, y: i32, z: i32) -> i32
    requires { (nat_abs x ≤ most_coordinate) × (nat_abs y ≤ most_coordinate) × (nat_abs z ≤ most_coordinate) }
    ensures { result ≡ x +ℤ y +ℤ z }
{
    x + y + z
}

// The sum of three points.
fn sum_points(p: [i32; 3], q: [i32; 3], r: [i32; 3]) -> [i32; 3]
    requires { NearThree p q r }
    ensures { result ≡ sum_of p q r }
{
    let sum = |k: usize| sum_three(p[k], q[k], r[k]);
    [sum(0), sum(1), sum(2)]
}

// A third of the twelve spokes: from a corner x, at p, to the vertex after it, at q; and from the one before it to both of those
// and to the one across, at r.
fn add_corner(
    points: &mut [i32],
    vertices: usize,
    x: usize,
    before: usize,
    p: [i32; 3],
    q: [i32; 3],
    r: [i32; 3],
)
    requires { AddsCorner vertices x before p q r points.old }
    ensures { points.new ≡ add_corner vertices x before p q r points.old }
{
    add_to(points, vertices, x, q);
    let sum = sum_points(p, q, r);
    add_to(points, vertices, before, sum);
}

// The twelve spokes of four triangles, by points that are read before the first is added.
fn add_four(points: &mut [i32], vertices: usize, four: Four)
    requires { AddsFour vertices four points.old }
    ensures { points.new ≡ add_four vertices four points.old }
{
    let at_u = point_of(points, four.u);
    let at_v = point_of(points, four.v);
    let at_w = point_of(points, four.w);
    let at_a = point_of(points, four.a);
    let at_b = point_of(points, four.b);
    let at_c = point_of(points, four.c);
    add_corner(points, vertices, four.u, four.c, at_u, at_a, at_b);
    add_corner(points, vertices, four.v, four.a, at_v, at_b, at_c);
    add_corner(points, vertices, four.w, four.b, at_w, at_c, at_a);
}

// The vertex that a halfedge starts at.
fn vertex_at(vert: &[u32], halfedge: usize) -> usize
    requires { halfedge < length vert.now }
    ensures { result ≡ cell vert.now halfedge }
{
    vert[halfedge] as usize
}

// The vertices of the four triangles of a triangle of the level before, from the three that stand at its corners.
fn four_of(vert: &[u32], triangle: usize) -> Four
    requires { 9 * triangle + 8 < length vert.now }
    ensures { result ≡ four_of vert.now triangle }
{
    let first = 9 * triangle;
    let u = vertex_at(vert, first);
    let v = vertex_at(vert, first + 3);
    let w = vertex_at(vert, first + 6);
    let a = vertex_at(vert, first + 1);
    let b = vertex_at(vert, first + 4);
    let c = vertex_at(vert, first + 7);
    Four { u, v, w, a, b, c }
}

// The spokes above the cage, by the triangles of the level before.
pub fn add_fours(vert: &[u32], points: &mut [i32], vertices: usize, before: usize)
    requires { (Gathers vert.now vertices points.old) × (Fourfold before vert.now) }
    ensures { points.new ≡ steps (before / 3) (four_spokes vert.now vertices) points.old }
{
    for triangle in 0..before / 3 {
        let four = four_of(vert, triangle);
        add_four(points, vertices, four);
    }
}
