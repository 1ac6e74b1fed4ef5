// Refining a cage: levels 0 to the depth end to end in five lent tables.
#![tactic(auto)]

ghost use Rattle.std.specs.Prelude.{◌≡◌};
ghost use Rattle.halfedges.specs.Refusals.{told};
ghost use Rattle.halfedges.specs.Counts.{counted};
ghost use Rattle.tables.specs.Tables.{tables, held};
ghost use Rattle.points.specs.Operations.{refine_verdict, refine_cage};

use cage::Cage;
use creases::levels::write_creases;
use halfedges::refusal::Refusal;
use halfedges::table::Levels;
use levels::refine::{copy, counts_of, fill, short_levels};
use passes::refine::refine_points;
use points::weights::Weight;
use tables::Tables;

// Refines a cage into five lent tables by the weight chosen: all checks first, then the tables and the creases, then the points above
// them.
pub fn refine(
    cage: &Cage,
    depth: usize,
    weight: Weight,
    twin: &mut [u32],
    vert: &mut [u32],
    edge: &mut [u32],
    points: &mut [i32],
    creases: &mut [u8],
) -> Result<Levels, Refusal>
    ensures { let after = refine_cage weight (held cage.now.tables) cage.now.creases.now cage.now.points.now depth
        (tables twin.old vert.old edge.old) points.old creases.old in
        (counted result ≡ after.answer) × (tables twin.new vert.new edge.new ≡ after.lent)
        × (points.new ≡ after.points) × (creases.new ≡ after.creases) }
{
    plan(
        cage,
        depth,
        weight,
        &Tables { twin, vert, edge },
        points,
        creases,
    )?;
    let counts = counts_of(cage.tables.twin, cage.vertices());
    fill(&cage.tables, counts, depth, twin, vert, edge);
    write_creases(cage.creases, counts, depth, creases);
    copy(cage.points, points);
    let tables = Tables { twin, vert, edge };
    refine_points(weight, counts, depth, cage.creases, &tables, points);
    Ok(counts.levels(depth))
}

// Checks 1 to 8 and 15 of any cage, 14 by the weight chosen, and then the room of the lent tables.
fn plan(
    cage: &Cage,
    depth: usize,
    weight: Weight,
    lent: &Tables,
    points: &[i32],
    creases: &[u8],
) -> Result<(), Refusal>
    ensures { told result ≡ refine_verdict weight (held cage.now.tables) cage.now.creases.now cage.now.points.now depth
        (held lent.now) points.now creases.now }
{
    cage.check_for_refining(depth, weight)?;
    let counts = counts_of(cage.tables.twin, cage.vertices());
    short_levels(counts, depth, lent)?;
    let levels = counts.levels(depth);
    if points.len() < 3 * levels.vertex_room {
        return Err(Refusal::Room(4));
    }
    if creases.len() < levels.edge_room {
        return Err(Refusal::Room(7));
    }
    Ok(())
}
