// Cages that come as plain triangles: the missing tables, from VERT and the points.
#![tactic(auto)]

ghost use Rattle.std.specs.Prelude.{◌≡◌, [], ◌∷◌, ◌≤◌, OnOk, length};
ghost use Rattle.laws.specs.Parts.{in_front};
ghost use Rattle.halfedges.specs.Cage.{most_halfedges};
ghost use Rattle.halfedges.specs.Refusals.{told, short, first};
ghost use Rattle.tables.specs.Check.{returned, numbers, checked};
ghost use Rattle.points.specs.Operations.{vertices};
ghost use Rattle.triangles.specs.Plain.{twin_table, edge_table};
ghost use Rattle.building.specs.Building.{build_checks, build_verdict, build_cage};
ghost use Rattle.building.specs.Internal.Relied.{Twinned, Writable, built_checks};

use halfedges::refusal::Refusal;
use halfedges::table::HalfedgeTable;
use levels::refine::copy;
use tables::check::Checked;
use tables::fans::check_fans;
use tables::{check, rules};
use triangles::edges::write_edges;
use triangles::twins::build_twins;

// Builds TWIN and EDGE in front of two lent tables.
pub fn build(
    vert: &[u32],
    points: &[i32],
    twin: &mut [u32],
    edge: &mut [u32],
) -> Result<Checked, Refusal>
    ensures { let after = build_cage vert.now points.now twin.old edge.old in
        (checked result ≡ after.answer) × (twin.new ≡ after.twin) × (edge.new ≡ after.edge) }
{
    let mut twins = [0u32; HalfedgeTable::MOST_HALFEDGES];
    build_with(&mut twins, vert, points, twin, edge)
}

// The same with a table apart, where TWIN stands until nothing is left to refuse.
fn build_with(
    twins: &mut [u32],
    vert: &[u32],
    points: &[i32],
    twin: &mut [u32],
    edge: &mut [u32],
) -> Result<Checked, Refusal>
    requires { most_halfedges ≤ length twins.old }
    ensures { let after = build_cage vert.now points.now twin.old edge.old in
        (checked result ≡ after.answer) × (twin.new ≡ after.twin) × (edge.new ≡ after.edge) }
{
    plan(twins, vert, points, twin, edge)?;
    Ok(write_built(&twins[..vert.len()], points.len() / 3, twin, edge))
}

// Writes TWIN and the EDGE of it in front of two lent tables.
fn write_built(built: &[u32], vertices: usize, twin: &mut [u32], edge: &mut [u32]) -> Checked
    requires { Writable built.now twin.old edge.old }
    ensures result_value { numbers result ≡ returned built.now vertices }
    ensures twin_after { twin.new ≡ in_front built.now twin.old }
    ensures edge_after { edge.new ≡ in_front (edge_table built.now) edge.old }
{
    copy(built, twin);
    write_edges(built, edge);
    check::found(built, vertices)
}

// All checks: of the cage, and then of the room of both lent tables.
fn plan(
    twins: &mut [u32],
    vert: &[u32],
    points: &[i32],
    twin: &[u32],
    edge: &[u32],
) -> Result<(), Refusal>
    requires { most_halfedges ≤ length twins.old }
    ensures result_value { told result ≡ build_verdict vert.now points.now twin.now edge.now }
    ensures twins_after { OnOk result (twins.new ≡ in_front (twin_table vert.now) twins.old) }
{
    check_plain(twins, vert, points)?;
    short_table(vert.len(), twin, edge)
}

// The first of the lent tables TWIN and EDGE that is shorter than the room.
fn short_table(room: usize, twin: &[u32], edge: &[u32]) -> Result<(), Refusal>
    ensures { told result ≡ first (short 1 room (length twin.now) ∷ short 3 room (length edge.now) ∷ []) }
{
    if twin.len() < room {
        return Err(Refusal::Room(1));
    }
    if edge.len() < room {
        return Err(Refusal::Room(3));
    }
    Ok(())
}

// 1, 2 and 13 of any corners and points, then 4, 5, 7 and 8. Where none is given, TWIN stands in front of the table.
fn check_plain(twins: &mut [u32], vert: &[u32], points: &[i32]) -> Result<(), Refusal>
    requires { most_halfedges ≤ length twins.old }
    ensures result_value { told result ≡ first (build_checks vert.now points.now) }
    ensures twins_after { OnOk result (twins.new ≡ in_front (twin_table vert.now) twins.old) }
{
    if cage::unshaped(vert, points) {
        return Err(Refusal::Shape);
    }
    let table = HalfedgeTable {
        halfedges: vert.len(),
        edges: 0,
        vertices: points.len() / 3,
    };
    if table.above_limit(0) {
        return Err(Refusal::Limit);
    }
    build_twins(vert, twins).map_err(Refusal::Doubled)?;
    check_built(&twins[..vert.len()], vert, points)
}

// 4, 5, 7 and 8 of a cage with TWIN as it is built, which keeps 3 and 6.
fn check_built(twin: &[u32], vert: &[u32], points: &[i32]) -> Result<(), Refusal>
    requires { Twinned twin.now vert.now (vertices points.now) }
    ensures { told result ≡ first (built_checks vert.now points.now) }
{
    let vertices = points.len() / 3;
    rules::check_vertices(twin, vert, vertices)?;
    rules::check_uses(vert, vertices)?;
    check_fans(twin, vert, vertices)?;
    cage::check_points(points)
}
