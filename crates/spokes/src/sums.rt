// The first pass over a level, which clears the cells of the sums; and a point added to a vertex's sums.
ghost use Rattle.std.specs.Prelude.{◌≡◌, ◌*◌, ◌≤◌, length};
ghost use Rattle.laws.specs.Internal.Steps.{steps};
ghost use Rattle.spokes.specs.Internal.Sums.{clear_cell, add_to, AddsTo};

use points::cells::change_point;

// The cells of the sums are made 0.
pub fn clear_sums(points: &mut [i32], vertices: usize)
    requires { 6 * vertices ≤ length points.old }
    ensures { points.new ≡ steps (3 * vertices) (clear_cell vertices) points.old }
{
    points[3 * vertices..6 * vertices].fill(0);
}

// A point is added to the sums of a vertex.
pub fn add_to(points: &mut [i32], vertices: usize, vertex: usize, p: [i32; 3])
    requires { AddsTo vertices vertex p points.old }
    ensures { points.new ≡ add_to vertices vertex p points.old }
{
    let to = 3 * vertices + 3 * vertex;
    change_point(points, to, |now, k| now + p[k]);
}
