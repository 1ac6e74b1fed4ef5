// TWIN, VERT and EDGE of one halfedge of a level, from the cage's tables alone.
#![tactic(auto)]

ghost use Rattle.std.specs.Prelude.{◌≡◌, ◌<◌};
ghost use Rattle.halfedges.specs.Refusals.{told, first};
ghost use Rattle.halfedges.specs.Counts.{Hs};
ghost use Rattle.tables.specs.Tables.{held};
ghost use Rattle.splitting.specs.NextLevel.{level as next_level_level};
ghost use Rattle.climbing.specs.Halfedge.{cells_of, halfedge_checks, halfedge_question, asked};
ghost use Rattle.climbing.specs.Internal.Climbing.{InTables, Climbable};

pub mod rows;

use crate::rows::Cells;
use halfedges::refusal::Refusal;
use halfedges::table::HalfedgeTable;
use levels::refine;
use tables::Tables;

// TWIN, VERT and EDGE of a halfedge at a depth, of any tables and any numbers.
pub fn ask(cage: &Tables, vertices: usize, depth: usize, halfedge: usize) -> Result<Cells, Refusal>
    ensures { asked result ≡ halfedge_question (held cage.now) vertices depth halfedge }
{
    check_asked(cage, vertices, depth, halfedge)?;
    let counts = refine::counts_of(cage.twin, vertices);
    Ok(climb(cage, counts, depth, halfedge))
}

// Checks 1 to 7 of any tables, and then whether the level has the halfedge.
fn check_asked(cage: &Tables, vertices: usize, depth: usize, halfedge: usize) -> Result<(), Refusal>
    ensures { told result
        ≡ first (halfedge_checks (held cage.now) vertices depth halfedge) }
{
    cage.check_for_depth(vertices, depth)?;
    let counts = HalfedgeTable {
        halfedges: cage.twin.len(),
        edges: 0,
        vertices,
    };
    let level = counts.at(depth);
    if level.halfedges <= halfedge {
        return Err(Refusal::NoSuchHalfedge(halfedge));
    }
    Ok(())
}

// What the tables of the level at a depth hold for a halfedge: up to its ancestor in the level before, and from there down again by
// the row that it stands in.
fn climb(cage: &Tables, counts: HalfedgeTable, depth: usize, halfedge: usize) -> Cells
    requires { (Climbable counts depth (held cage.now)) × (halfedge < Hs counts depth) }
    ensures { result ≡ cells_of (next_level_level counts (held cage.now) depth) halfedge }
{
    if depth == 0 {
        return cells_at(cage, halfedge);
    }
    let level = counts.at(depth - 1);
    let ancestor = rows::ancestor(halfedge, level.halfedges);
    let old = climb(cage, counts, depth - 1, ancestor);
    rows::child(old, ancestor, halfedge, level)
}

// What the tables hold for a halfedge.
fn cells_at(cage: &Tables, halfedge: usize) -> Cells
    requires { InTables halfedge (held cage.now) }
    ensures { result ≡ cells_of (held cage.now) halfedge }
{
    Cells {
        twin: cage.twin[halfedge],
        vert: cage.vert[halfedge],
        edge: cage.edge[halfedge],
    }
}
