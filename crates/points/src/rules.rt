// The four point rules, for one coordinate.
ghost use Rattle.std.specs.Prelude.{◌≡◌, ◌*◌, ◌≤◌, nat_abs};
ghost use Rattle.points.specs.declared.weights.Weight.{Weight as Any-as-Weight};
ghost use Rattle.points.specs.PointRules.{E1, V3};
ghost use Rattle.points.specs.Operations.{most_coordinate};
ghost use Rattle.points.specs.Internal.Parts.{started, finished, met, AsksInside};

use crate::weights::Weight;
use rounding::rounded;

// The largest coordinate of a cage.
pub const MOST_COORDINATE: i32 = 1048576;

// The smallest coordinate of a cage.
pub const LEAST_COORDINATE: i32 = -MOST_COORDINATE;

// What is added to V.2's numerator till its second neighbour is known, so that it is no coordinate.
const MARK: i32 = 1073741824;

// E.1: the point of a border edge with ends a, b.
pub fn border_edge(a: i32, b: i32) -> i32
    requires { (nat_abs a ≤ most_coordinate) × (nat_abs b ≤ most_coordinate) }
    ensures { result ≡ E1 a b }
{
    let numerator = a as i64 + b as i64;
    rounded(numerator, 2)
}

// What E.2's numerator has from the lower of an edge's halfedges, with ends a, b and opposite corner c.
pub fn started_edge(a: i32, b: i32, c: i32) -> i32
    requires { (nat_abs a ≤ most_coordinate) × (nat_abs b ≤ most_coordinate) × (nat_abs c ≤ most_coordinate) }
    ensures { result ≡ started a b c }
{
    3 * a + 3 * b + c
}

// E.2: the point of an inner edge, from what its lower halfedge started and the opposite corner d of the higher one.
pub fn finished_edge(sum: i32, d: i32) -> i32
    requires { (nat_abs sum ≤ most_coordinate * 7) × (nat_abs d ≤ most_coordinate) }
    ensures { result ≡ finished sum d }
{
    let numerator = (sum + d) as i64;
    rounded(numerator, 8)
}

// A border vertex meets a neighbour: V.2 once it has met both.
pub fn border_vertex(now: i32, vertex: i32, neighbour: i32) -> i32
    requires { (nat_abs vertex ≤ most_coordinate) × (nat_abs neighbour ≤ most_coordinate) }
    ensures { result ≡ met now vertex neighbour }
{
    if now <= MOST_COORDINATE {
        return 6 * vertex + neighbour + MARK;
    }
    let numerator = (now - MARK + neighbour) as i64;
    rounded(numerator, 8)
}

// V.3 with six corners, (10v+s)/16 by either weight.
pub fn added_vertex(vertex: i32, sum: i32) -> i32
    requires { (nat_abs vertex ≤ most_coordinate) × (nat_abs sum ≤ most_coordinate * 6) }
    ensures { (w : Any-as-Weight) → result ≡ V3 w 6 vertex sum }
{
    let numerator = (10 * vertex + sum) as i64;
    rounded(numerator, 16)
}

// V.3: the new place of an inner vertex, with its number of corners and the sum over its spokes' far ends.
pub fn inner_vertex(weight: Weight, corners: u32, vertex: i32, sum: i32) -> i32
    requires { AsksInside corners vertex sum }
    ensures { result ≡ V3 weight corners vertex sum }
{
    let share = weight.share(corners);
    let part = share.part;
    let whole = share.whole;
    let rest = whole - corners * part;
    let numerator = rest as i64 * vertex as i64 + part as i64 * sum as i64;
    rounded(numerator, whole as i64)
}
