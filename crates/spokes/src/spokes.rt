// The second pass over a level: the sums over every vertex's spokes.
ghost use Rattle.std.specs.Prelude.{◌≡◌, ◌≢◌, length};
ghost use Rattle.laws.specs.Internal.Steps.{steps};
ghost use Rattle.points.specs.Internal.Relied.{Fourfold};
ghost use Rattle.spokes.specs.Internal.Sums.{Gathers};
ghost use Rattle.spokes.specs.Internal.Spokes.{add_point, Adds, add_triangle, AddsTriangle, spoke, gathered};

use crate::fours::add_fours;
use crate::sums::add_to;
use halfedges::corners::corners_of;
use points::cells::point_of;

// The point of vertex b is added to the sums of vertex a.
fn add_point(points: &mut [i32], vertices: usize, a: usize, b: usize)
    requires { Adds vertices a b points.old }
    ensures { points.new ≡ add_point vertices a b points.old }
{
    let at_b = point_of(points, b);
    add_to(points, vertices, a, at_b);
}

// A triangle's three spokes, from each corner to the next.
fn add_triangle(points: &mut [i32], vertices: usize, corners: [u32; 3])
    requires { AddsTriangle vertices corners points.old }
    ensures { points.new ≡ add_triangle vertices corners points.old }
{
    let a = corners[0] as usize;
    let b = corners[1] as usize;
    let c = corners[2] as usize;
    add_point(points, vertices, a, b);
    add_point(points, vertices, b, c);
    add_point(points, vertices, c, a);
}

// The spokes of every halfedge, triangle by triangle.
fn add_spokes(vert: &[u32], points: &mut [i32], vertices: usize)
    requires { Gathers vert.now vertices points.old }
    ensures { points.new ≡ steps (length vert.now) (spoke vert.now vertices) points.old }
{
    for triangle in 0..vert.len() / 3 {
        let corners = corners_of(vert, triangle);
        add_triangle(points, vertices, corners);
    }
}

// All spokes of a level, where the level before had so many halfedges, 0 for the cage.
pub fn gather(vert: &[u32], points: &mut [i32], vertices: usize, before: usize)
    requires { (Gathers vert.now vertices points.old) × (before ≢ 0 → Fourfold before vert.now) }
    ensures { points.new ≡ gathered vert.now vertices before points.old }
{
    if before == 0 {
        add_spokes(vert, points, vertices);
        return;
    }
    add_fours(vert, points, vertices, before);
}
