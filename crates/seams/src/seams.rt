// The fifth pass over a level: the points of the edges that stay sharp, and the places of their ends. The passes before it leave what
// there is without them.
ghost use Rattle.std.specs.Prelude.{◌≡◌, ◌*◌, ◌+◌, ◌^◌, ◌<◌, length};
ghost use Rattle.laws.specs.Internal.Steps.{steps};
ghost use Rattle.halfedges.specs.Cage.{cell};
ghost use Rattle.tables.specs.Tables.{held};
ghost use Rattle.points.specs.Internal.Cells.{Near};
ghost use Rattle.points.specs.Internal.Creased.{known_creases};
ghost use Rattle.edgepoints.specs.Internal.Edges.{AsksMeet};
ghost use Rattle.seams.specs.Internal.Seams.{stay, draw_end, draw_seam, AsksSeam, draw_at, seam, Seamed, Limited};

use crate::sharp::stays_sharp;
use edgepoints::edges::{Corner, meet_one, put_middle, read_corner};
use halfedges::table::HalfedgeTable;
use points::cells::put_point;
use tables::Tables;

// The cage's creases at a level: the number of each of its edges, the level's number, and how many creases each of its vertices has
// there.
#[derive(Clone, Copy)]
pub struct Creases<'a> {
    pub numbers: &'a [u8],
    pub level: usize,
    pub counts: &'a [u32],
}

// How many creases a vertex has that an inner crease leaves: those of the cage's vertices are counted, and an added one has two.
fn known_creases(counts: &[u32], vertex: u32) -> u32
    ensures { result ≡ known_creases counts.now vertex }
{
    counts.get(vertex as usize).copied().unwrap_or(2)
}

// A vertex stays put.
fn stay_put(points: &mut [i32], vertices: usize, corner: Corner)
    requires { (3 * vertices + 3 * corner.vertex + 2 < length points.old) × (Near corner.point) }
    ensures { points.new ≡ stay vertices corner points.old }
{
    let to = 3 * vertices + 3 * corner.vertex as usize;
    let point = corner.point;
    put_point(points, to, point[0], point[1], point[2]);
}

// The new place of a vertex with so many creases, of which one goes to a neighbour. With fewer than two it is smooth, as the passes
// before left it.
fn draw_end(points: &mut [i32], vertices: usize, creases: u32, corner: Corner, neighbour: Corner)
    requires { AsksMeet corner neighbour (3 * vertices + 3 * corner.vertex) points.old }
    ensures { points.new ≡ draw_end vertices creases corner neighbour points.old }
{
    if creases < 2 {
        return;
    }
    if creases == 2 {
        meet_one(points, vertices, corner, neighbour);
        return;
    }
    stay_put(points, vertices, corner);
}

// An inner crease between two corners.
fn draw_seam(
    points: &mut [i32],
    vertices: usize,
    edge: usize,
    creases: u32,
    corner: Corner,
    neighbour: Corner,
)
    requires { AsksSeam vertices edge corner neighbour points.old }
    ensures { points.new ≡ draw_seam vertices edge creases corner neighbour points.old }
{
    put_middle(points, 6 * vertices + 3 * edge, corner, neighbour);
    draw_end(points, vertices, creases, corner, neighbour);
}

// A halfedge whose edge is an inner crease.
fn draw_at(counts: &[u32], level: &Tables, points: &mut [i32], vertices: usize, halfedge: usize)
    requires { let c = held level.now in (Seamed c.vert c.edge vertices points.old) × (halfedge < length c.vert) }
    ensures { let c = held level.now in points.new
        ≡ draw_at counts.now c.vert c.edge vertices points.old halfedge points.old }
{
    let a = read_corner(level.vert, points, halfedge);
    let b = read_corner(level.vert, points, HalfedgeTable::next(halfedge));
    let creases = known_creases(counts, a.vertex);
    draw_seam(
        points,
        vertices,
        level.edge[halfedge] as usize,
        creases,
        a,
        b,
    );
}

// A halfedge whose edge comes of an edge of the cage.
fn draw_part(
    creases: &Creases,
    level: &Tables,
    points: &mut [i32],
    vertices: usize,
    halfedge: usize,
)
    requires { let c = held level.now in (Limited creases.now.numbers.now creases.now.level)
        × (Seamed c.vert c.edge vertices points.old) × (halfedge < length c.vert)
        × (cell c.edge halfedge < length creases.now.numbers.now * 2 ^ creases.now.level) }
    ensures { let c = held level.now in points.new
        ≡ seam creases.now.numbers.now creases.now.level creases.now.counts.now c.vert c.edge vertices
        points.old halfedge points.old }
{
    let part = (level.edge[halfedge] as usize) >> creases.level;
    if stays_sharp(creases.numbers, creases.level, part) {
        draw_at(creases.counts, level, points, vertices, halfedge);
    }
}

// Any halfedge. The edges that come of the cage's are the first ones of the level, and few above the cage.
fn draw_any(
    creases: &Creases,
    outline: usize,
    level: &Tables,
    points: &mut [i32],
    vertices: usize,
    halfedge: usize,
)
    requires { let c = held level.now in (Limited creases.now.numbers.now creases.now.level)
        × (Seamed c.vert c.edge vertices points.old) × (halfedge < length c.vert)
        × (outline ≡ length creases.now.numbers.now * 2 ^ creases.now.level) }
    ensures { let c = held level.now in points.new
        ≡ seam creases.now.numbers.now creases.now.level creases.now.counts.now c.vert c.edge vertices
        points.old halfedge points.old }
{
    if (level.edge[halfedge] as usize) < outline {
        draw_part(creases, level, points, vertices, halfedge);
    }
}

// The points of the inner creases, and the places of their ends: the part of every halfedge.
pub fn draw_seams(creases: &Creases, level: &Tables, points: &mut [i32], vertices: usize)
    requires { let c = held level.now in (Limited creases.now.numbers.now creases.now.level)
        × (Seamed c.vert c.edge vertices points.old) }
    ensures { let c = held level.now in points.new ≡ steps (length c.vert)
        (seam creases.now.numbers.now creases.now.level creases.now.counts.now c.vert c.edge vertices points.old)
        points.old }
{
    let outline = creases.numbers.len() << creases.level;
    for halfedge in 0..level.edge.len() {
        draw_any(creases, outline, level, points, vertices, halfedge);
    }
}
