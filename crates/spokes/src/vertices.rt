// The third pass over a level: every vertex's sums become its new place inside. Where it lies on a border, the last pass puts
// another there.
ghost use Rattle.std.specs.Prelude.{◌≡◌, ℕ, ℤ, ◌+◌, ◌*◌, ◌<◌, ◌≤◌, length, set};
ghost use Rattle.laws.specs.Internal.Steps.{steps};
ghost use Rattle.points.specs.Internal.Cells.{value};
ghost use Rattle.spokes.specs.Internal.Vertices.{settle, SettlesAt};

use points::rules::{added_vertex, inner_vertex};
use points::weights::Weight;

// Cell i of the new places, where a rule makes it of the vertex's own cell and of the sum.
fn settle_cell<F: Fn(i32, i32) -> i32>(points: &mut [i32], start: usize, i: usize, rule: F)
    requires room { start + i < length points.old }
    requires callable { F.pre rule (value points.old i) (value points.old (start + i)) }
    ensures { (z : ℤ) × (F.post rule (value points.old i) (value points.old (start + i)) z) × (points.new ≡ set points.old (start + i) z) }
{
    points[start + i] = rule(points[i], points[start + i]);
}

// Every vertex's new place: the cage's own by their listed corners and the weight chosen, and those added since by six.
pub fn settle_vertices(weight: Weight, own: &[u32], points: &mut [i32], vertices: usize)
    requires { (length own.now ≤ vertices) × (6 * vertices ≤ length points.old)
        × ((i : ℕ) → i < 3 * vertices → SettlesAt own.now vertices i points.old) }
    ensures { points.new ≡ steps (3 * vertices) (settle weight own.now vertices) points.old }
{
    let cells = 3 * vertices;
    let own_cells = 3 * own.len();
    for i in 0..own_cells {
        let corners = own[i / 3];
        settle_cell(
            points,
            cells,
            i,
            |place, sum| inner_vertex(weight, corners, place, sum),
        );
    }
    for i in own_cells..cells {
        settle_cell(points, cells, i, added_vertex);
    }
}
