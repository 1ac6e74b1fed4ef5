// The fourth pass over a level: every edge's point, by a part from each of its two halfedges, and the border's vertices.
ghost use Rattle.std.specs.Prelude.{◌≡◌, ℕ, ◌+◌, ◌*◌, ◌<◌, length};
ghost use Rattle.laws.specs.Internal.Steps.{steps};
ghost use Rattle.halfedges.specs.Cage.{cell};
ghost use Rattle.tables.specs.Tables.{held};
ghost use Rattle.points.specs.Internal.Cells.{put, Near};
ghost use Rattle.edgepoints.specs.Internal.Edges.{Spanned, AsksFinish, AsksMeet, AsksInner, Asks, Readable, AskedInTurn, Edged, Started};
ghost use Rattle.edgepoints.specs.Internal.Edges.{middle, start, finish, meeting, meet, border_edge, inner_edge, step_edge, in_turn, put_edge};
ghost use Rattle.edgepoints.specs.Internal.Edges.{corner_of, between, triangle_of, border_among};

use halfedges::table::HalfedgeTable;
use points::cells::{change_point, point_of};
use points::rules::{border_edge, border_vertex, finished_edge, started_edge};
use tables::Tables;

// A corner of a triangle: its vertex, and where that is.
#[derive(Clone, Copy)]
pub struct Corner {
    pub vertex: u32,
    pub point: [i32; 3],
}

// What the pass takes of one halfedge: its number, its cells of TWIN and EDGE, its two ends and the corner opposite to it.
#[derive(Clone, Copy)]
struct Halfedge {
    number: usize,
    twin: u32,
    edge: u32,
    from: Corner,
    to: Corner,
    opposite: Corner,
}

// The three halfedges of a triangle.
#[derive(Clone, Copy)]
struct Triangle {
    first: Halfedge,
    second: Halfedge,
    third: Halfedge,
}

// The part of the lower halfedge in the point of an inner edge.
fn start_edge(points: &mut [i32], to: usize, halfedge: Halfedge)
    requires { (Spanned halfedge) × (to + 2 < length points.old) }
    ensures { points.new ≡ put to (start halfedge) points.old }
{
    let a = halfedge.from.point;
    let b = halfedge.to.point;
    let c = halfedge.opposite.point;
    change_point(points, to, |_, k| started_edge(a[k], b[k], c[k]));
}

// The part of the higher halfedge in the point of an inner edge, which it makes of what the lower one left.
fn finish_edge(points: &mut [i32], to: usize, halfedge: Halfedge)
    requires { AsksFinish halfedge to points.old }
    ensures { points.new ≡ put to (finish halfedge points.old to) points.old }
{
    let d = halfedge.opposite.point;
    change_point(points, to, |sum, k| finished_edge(sum, d[k]));
}

// The middle between a corner and its neighbour: the point of a border edge, and of any crease.
pub fn put_middle(points: &mut [i32], to: usize, corner: Corner, neighbour: Corner)
    requires { AsksMeet corner neighbour to points.old }
    ensures { points.new ≡ put to (middle corner neighbour) points.old }
{
    let a = corner.point;
    let b = neighbour.point;
    change_point(points, to, |_, k| border_edge(a[k], b[k]));
}

// A vertex with two creases, as those on a border, meets a neighbour along one of them.
pub fn meet_one(points: &mut [i32], vertices: usize, corner: Corner, neighbour: Corner)
    requires { AsksMeet corner neighbour (3 * vertices + 3 * corner.vertex) points.old }
    ensures { points.new ≡ meet vertices corner neighbour points.old }
{
    let to = 3 * vertices + 3 * corner.vertex as usize;
    let v = corner.point;
    let a = neighbour.point;
    change_point(points, to, |now, k| border_vertex(now, v[k], a[k]));
}

// The part of a halfedge without twin.
fn put_border(points: &mut [i32], vertices: usize, halfedge: Halfedge)
    requires { Asks vertices halfedge points.old }
    ensures { points.new ≡ border_edge vertices halfedge points.old }
{
    let a = halfedge.from;
    let b = halfedge.to;
    put_middle(points, 6 * vertices + 3 * halfedge.edge as usize, a, b);
    meet_one(points, vertices, a, b);
    meet_one(points, vertices, b, a);
}

// The part of a halfedge that has a twin.
fn step_inner(points: &mut [i32], vertices: usize, halfedge: Halfedge)
    requires { AsksInner vertices halfedge points.old }
    ensures { points.new ≡ inner_edge vertices halfedge points.old }
{
    let to = 6 * vertices + 3 * halfedge.edge as usize;
    if (halfedge.twin as usize) < halfedge.number {
        finish_edge(points, to, halfedge);
        return;
    }
    start_edge(points, to, halfedge);
}

// The part of any halfedge.
fn step_edge(points: &mut [i32], vertices: usize, halfedge: Halfedge)
    requires { Asks vertices halfedge points.old }
    ensures { points.new ≡ step_edge vertices halfedge points.old }
{
    if halfedge.twin == HalfedgeTable::NO_TWIN {
        put_border(points, vertices, halfedge);
        return;
    }
    step_inner(points, vertices, halfedge);
}

// The corner that a halfedge leaves.
pub fn read_corner(vert: &[u32], points: &[i32], halfedge: usize) -> Corner
    requires { (halfedge < length vert.now) × (3 * cell vert.now halfedge + 2 < length points.now) }
    ensures { result ≡ corner_of vert.now points.now halfedge }
{
    let vertex = vert[halfedge];
    let point = point_of(points, vertex as usize);
    Corner { vertex, point }
}

// A halfedge between two corners of its triangle, opposite to the third.
fn read_halfedge(
    level: &Tables,
    number: usize,
    from: Corner,
    to: Corner,
    opposite: Corner,
) -> Halfedge
    requires { (number < length level.now.twin.now) × (number < length level.now.edge.now) }
    ensures { result ≡ between level.now.twin.now level.now.edge.now number from to opposite }
{
    Halfedge {
        number,
        twin: level.twin[number],
        edge: level.edge[number],
        from,
        to,
        opposite,
    }
}

// What a triangle has of the tables, and its corners' points.
fn read_triangle(level: &Tables, points: &[i32], triangle: usize) -> Triangle
    requires { let c = held level.now in Readable c.twin c.vert c.edge points.now triangle }
    ensures { let c = held level.now in result ≡ triangle_of c.twin c.vert c.edge points.now triangle }
{
    let one = 3 * triangle;
    let two = one + 1;
    let three = one + 2;
    let a = read_corner(level.vert, points, one);
    let b = read_corner(level.vert, points, two);
    let c = read_corner(level.vert, points, three);
    let first = read_halfedge(level, one, a, b, c);
    let second = read_halfedge(level, two, b, c, a);
    let third = read_halfedge(level, three, c, a, b);
    Triangle {
        first,
        second,
        third,
    }
}

// A triangle's part in the points of its edges, of which some may be borders.
// This and the next are two, since one that took the step would have to say what each call leaves behind `points`, at more length.
fn write_any(points: &mut [i32], vertices: usize, triangle: Triangle)
    requires { AskedInTurn (Asks vertices) (step_edge vertices) triangle points.old }
    ensures { points.new ≡ in_turn (step_edge vertices) triangle points.old }
{
    step_edge(points, vertices, triangle.first);
    step_edge(points, vertices, triangle.second);
    step_edge(points, vertices, triangle.third);
}

// A triangle's part in the points of its edges, where none of them is a border.
fn write_inner(points: &mut [i32], vertices: usize, triangle: Triangle)
    requires { AskedInTurn (AsksInner vertices) (inner_edge vertices) triangle points.old }
    ensures { points.new ≡ in_turn (inner_edge vertices) triangle points.old }
{
    step_inner(points, vertices, triangle.first);
    step_inner(points, vertices, triangle.second);
    step_inner(points, vertices, triangle.third);
}

// Whether one of a triangle's halfedges has no twin.
fn border_among(triangle: Triangle) -> bool
    ensures { result ≡ border_among triangle }
{
    triangle.first.twin == HalfedgeTable::NO_TWIN
        || triangle.second.twin == HalfedgeTable::NO_TWIN
        || triangle.third.twin == HalfedgeTable::NO_TWIN
}

// A triangle's part in the points of its edges. Few triangles lie on a border: the rest go by shorter code, of which the compiler
// makes one loop without a call.
fn write_triangle(level: &Tables, points: &mut [i32], vertices: usize, triangle: usize)
    requires { let c = held level.now in (Readable c.twin c.vert c.edge points.old triangle)
        × (AskedInTurn (Asks vertices) (step_edge vertices) (triangle_of c.twin c.vert c.edge points.old triangle) points.old) }
    ensures { let c = held level.now in points.new
        ≡ in_turn (step_edge vertices) (triangle_of c.twin c.vert c.edge points.old triangle) points.old }
{
    let read = read_triangle(level, points, triangle);
    if border_among(read) {
        write_any(points, vertices, read);
        return;
    }
    write_inner(points, vertices, read);
}

// The points of all edges, and V.2 at the border: the part of every halfedge, triangle by triangle.
pub fn write_edges(level: &Tables, points: &mut [i32], vertices: usize)
    requires { let c = held level.now in (Edged c.twin c.vert c.edge vertices points.old)
        × ((h : ℕ) → h < length c.vert → Started c.twin c.edge vertices h
        (steps h (put_edge c.twin c.vert c.edge vertices points.old) points.old)) }
    ensures { let c = held level.now in points.new
        ≡ steps (length c.vert) (put_edge c.twin c.vert c.edge vertices points.old) points.old }
{
    for triangle in 0..level.vert.len() / 3 {
        write_triangle(level, points, vertices, triangle);
    }
}
