// The points of all levels, end to end after the cage's.
ghost use Rattle.std.specs.Prelude.{◌≡◌, []};
ghost use Rattle.tables.specs.Tables.{held};
ghost use Rattle.creases.specs.Creases.{creases_at};
ghost use Rattle.points.specs.Internal.Creased.{listed_after};
ghost use Rattle.passes.specs.Internal.Levels.{ReadyLevel, with_next_at, ReadySeams, with_seams, ReadyCount, cage_of, ReadyCreased};
ghost use Rattle.passes.specs.Internal.Levels.{ReadyLevels, cage_corners, with_levels};

use crate::level::{Level, next_points};
use halfedges::table::HalfedgeTable;
use points::weights::Weight;
use seams::seams::{Creases, draw_seams};
use seams::sharp::any_sharp;
use seams::tally::count_creases;
use tables::Tables;
use tables::rules::count_numbers;

// What every level takes of the cage: the weight chosen, the corners of each vertex, the counts, and the number of each edge.
#[derive(Clone, Copy)]
struct Base<'a> {
    weight: Weight,
    own: &'a [u32],
    counts: HalfedgeTable,
    creases: &'a [u8],
}

// The next level's points, from tables that hold all levels, of a level without creases inside.
fn smooth_level(weight: Weight, own: &[u32], level: Level, tables: &Tables, points: &mut [i32])
    requires { ReadyLevel own.now level (held tables.now) points.old }
    ensures { points.new ≡ with_next_at weight level (held tables.now) [] points.old }
{
    let start = level.start;
    let end = start + level.counts.halfedges;
    let at = level.at;
    next_points(
        weight,
        own,
        level,
        &Tables {
            twin: &tables.twin[start..end],
            vert: &tables.vert[start..end],
            edge: &tables.edge[start..end],
        },
        &mut points[at..],
    );
}

// The creases inside a level, from tables that hold all levels and the number of creases of each of the cage's vertices.
fn draw_level(creases: &[u8], counts: &[u32], level: Level, tables: &Tables, points: &mut [i32])
    requires { ReadySeams creases.now level (held tables.now) points.old }
    ensures { points.new ≡ with_seams creases.now counts.now level (held tables.now) points.old }
{
    let start = level.start;
    let end = start + level.counts.halfedges;
    let at = level.at;
    draw_seams(
        &Creases {
            numbers: creases,
            level: level.number,
            counts,
        },
        &Tables {
            twin: &tables.twin[start..end],
            vert: &tables.vert[start..end],
            edge: &tables.edge[start..end],
        },
        &mut points[at..],
        level.counts.vertices,
    );
}

// The creases inside a level, where the creases of the cage's vertices are counted first.
fn count_and_draw(cage: &Base, level: Level, tables: &Tables, points: &mut [i32])
    requires { (ReadyCount cage.now.counts cage.now.creases.now (held tables.now))
        × (ReadySeams cage.now.creases.now level (held tables.now) points.old) }
    ensures { points.new ≡ with_seams cage.now.creases.now
        (listed_after level.number (cage_of cage.now.counts (held tables.now))
        cage.now.creases.now cage.now.counts.vertices) level (held tables.now) points.old }
{
    let halfedges = cage.counts.halfedges;
    let mut counts = [0u32; HalfedgeTable::MOST_HALFEDGES];
    count_creases(
        &Tables {
            twin: &tables.twin[..halfedges],
            vert: &tables.vert[..halfedges],
            edge: &tables.edge[..halfedges],
        },
        cage.creases,
        level.number,
        &mut counts,
    );
    draw_level(
        cage.creases,
        &counts[..cage.counts.vertices],
        level,
        tables,
        points,
    );
}

// The next level's points, from tables that hold all levels. Where none of the cage's creases is left inside, nothing looks for them.
fn refine_level(cage: &Base, level: Level, tables: &Tables, points: &mut [i32])
    requires { ReadyCreased cage.now.own.now cage.now.counts cage.now.creases.now level (held tables.now) points.old }
    ensures { points.new ≡ with_next_at cage.now.weight level (held tables.now)
        (creases_at cage.now.counts cage.now.creases.now level.number) points.old }
{
    smooth_level(cage.weight, cage.own, level, tables, points);
    if any_sharp(cage.creases, level.number) {
        count_and_draw(cage, level, tables, points);
    }
}

// The points of all levels after the cage, in a table that starts with the cage's, from tables that hold all levels.
fn climb(cage: &Base, depth: usize, tables: &Tables, points: &mut [i32])
    requires { (ReadyLevels cage.now.counts depth (held tables.now) cage.now.creases.now points.old)
        × (cage.now.own.now ≡ cage_corners cage.now.counts (held tables.now)) }
    ensures { points.new ≡ with_levels cage.now.weight cage.now.counts depth
        (held tables.now) cage.now.creases.now points.old }
{
    let mut level = Level {
        number: 0,
        left: depth,
        counts: cage.counts,
        before: 0,
        start: 0,
        at: 0,
    };
    for _ in 0..depth {
        refine_level(cage, level, tables, points);
        level = level.next();
    }
}

// The points of levels 1 to the depth, after those of the cage, with its creases; the corners of its vertices are counted first.
pub fn refine_points(
    weight: Weight,
    table: HalfedgeTable,
    depth: usize,
    creases: &[u8],
    tables: &Tables,
    points: &mut [i32],
)
    requires { ReadyLevels table depth (held tables.now) creases.now points.old }
    ensures { points.new ≡ with_levels weight table depth (held tables.now) creases.now points.old }
{
    let mut corners = [0u32; HalfedgeTable::MOST_HALFEDGES];
    count_numbers(&tables.vert[..table.halfedges], &mut corners);
    climb(
        &Base {
            weight,
            own: &corners[..table.vertices],
            counts: table,
            creases,
        },
        depth,
        tables,
        points,
    );
}
