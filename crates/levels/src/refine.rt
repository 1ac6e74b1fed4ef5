// The levels of a cage's tables, end to end.
ghost use Rattle.std.specs.Prelude.{◌≡◌, ◌≤◌, length};
ghost use Rattle.laws.specs.Parts.{in_front};
ghost use Rattle.halfedges.specs.Cage.{most_halfedges, most_depth};
ghost use Rattle.halfedges.specs.Refusals.{told, first};
ghost use Rattle.halfedges.specs.Internal.Counts.{AtMost};
ghost use Rattle.halfedges.specs.Counts.{room_h, counted};
ghost use Rattle.tables.specs.Tables.{tables, held, counts_from};
ghost use Rattle.levels.specs.Refining.{short_tables, levels_end_to_end, refine_tables_verdict, refine_tables};
ghost use Rattle.splitting.specs.Internal.InPlace.{level_at};
ghost use Rattle.levels.specs.Internal.Filling.{Refinable, tables_in_front};

use halfedges::refusal::Refusal;
use halfedges::table::{HalfedgeTable, Levels};
use splitting::level;
use tables::{Tables, rules};

// Fills in levels 1 to depth after the cage, which stands in front of the tables.
pub fn fill_levels(
    twin: &mut [u32],
    vert: &mut [u32],
    edge: &mut [u32],
    cage: HalfedgeTable,
    depth: usize,
)
    requires { Refinable cage depth (level_at cage 0 (tables twin.old vert.old edge.old))
        (tables twin.old vert.old edge.old) }
    ensures { tables twin.new vert.new edge.new
        ≡ tables_in_front
        (levels_end_to_end cage (level_at cage 0 (tables twin.old vert.old edge.old)) depth)
        (tables twin.old vert.old edge.old) }
{
    let mut table = cage;
    let mut at = 0;
    for _level in 0..depth {
        level::next_level(twin, vert, edge, at, table);
        at += table.halfedges;
        table = table.finer();
    }
}

// Refines a cage's tables into three lent tables: levels 0 to depth, end to end.
pub fn refine_tables(
    cage: &Tables,
    vertices: usize,
    depth: usize,
    twin: &mut [u32],
    vert: &mut [u32],
    edge: &mut [u32],
) -> Result<Levels, Refusal>
    ensures result_value { counted result ≡ (refine_tables (held cage.now)
        vertices depth (tables twin.old vert.old edge.old)).answer }
    ensures edge_after { tables twin.new vert.new edge.new
        ≡ (refine_tables (held cage.now)
        vertices depth (tables twin.old vert.old edge.old)).lent }
{
    plan(cage, vertices, depth, &Tables { twin, vert, edge })?;
    let counts = counts_of(cage.twin, vertices);
    fill(cage, counts, depth, twin, vert, edge);
    Ok(counts.levels(depth))
}

// H, E and V of a cage's tables.
pub fn counts_of(twin: &[u32], vertices: usize) -> HalfedgeTable
    ensures { result ≡ counts_from twin.now vertices }
{
    HalfedgeTable {
        halfedges: twin.len(),
        edges: rules::count_edges(twin),
        vertices,
    }
}

// Checks 1 to 7 of any tables, and then the room of the lent ones.
fn plan(cage: &Tables, vertices: usize, depth: usize, lent: &Tables) -> Result<(), Refusal>
    ensures { told result ≡ refine_tables_verdict (held cage.now)
        vertices depth (held lent.now) }
{
    cage.check_for_depth(vertices, depth)?;
    short_levels(counts_of(cage.twin, vertices), depth, lent)
}

// The first of three lent tables that is shorter than a cage's levels 0 to depth, end to end.
pub fn short_levels(cage: HalfedgeTable, depth: usize, lent: &Tables) -> Result<(), Refusal>
    requires { (AtMost most_halfedges cage) × (depth ≤ most_depth) }
    ensures { told result ≡ first (short_tables (room_h cage depth) (held lent.now)) }
{
    let levels = cage.levels(depth);
    short_table(levels.halfedge_room, lent)
}

// The first of three lent tables that is shorter than the room.
#[tactic(auto, unfolding(crate::specs::Refining::short_tables, halfedges::specs::Refusals::short, halfedges::specs::Refusals::given, halfedges::specs::Refusals::first))]
fn short_table(room: usize, lent: &Tables) -> Result<(), Refusal>
    ensures { told result ≡ first (short_tables room (held lent.now)) }
{
    if lent.twin.len() < room {
        return Err(Refusal::Room(1));
    }
    if lent.vert.len() < room {
        return Err(Refusal::Room(2));
    }
    if lent.edge.len() < room {
        return Err(Refusal::Room(3));
    }
    Ok(())
}

// Copies a cage's tables to the front of the lent ones, and fills in its levels after it.
pub fn fill(
    cage: &Tables,
    counts: HalfedgeTable,
    depth: usize,
    twin: &mut [u32],
    vert: &mut [u32],
    edge: &mut [u32],
)
    requires { Refinable counts depth (held cage.now)
        (tables twin.old vert.old edge.old) }
    ensures { tables twin.new vert.new edge.new
        ≡ tables_in_front
        (levels_end_to_end counts (held cage.now) depth)
        (tables twin.old vert.old edge.old) }
{
    copy(cage.twin, twin);
    copy(cage.vert, vert);
    copy(cage.edge, edge);
    fill_levels(twin, vert, edge, counts, depth);
}

// Copies a table to the front of another.
pub fn copy<T: Copy>(from: &[T], to: &mut [T])
    requires { length from.now ≤ length to.old }
    ensures { to.new ≡ in_front from.now to.old }
{
    for place in 0..from.len() {
        to[place] = from[place];
    }
}
