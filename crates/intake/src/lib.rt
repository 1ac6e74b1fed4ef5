// A cage file of either form taken in: read into tables that have room for any cage, and checked.
#![tactic(auto)]

ghost use Rattle.std.specs.Prelude.{◌≡◌, IfOk, replicate};
ghost use Rattle.halfedges.specs.Cage.{most_halfedges};
ghost use Rattle.tables.specs.Tables.{tables, held};
ghost use Rattle.tables.specs.Check.{checked as check_checked};
ghost use Rattle.reading.specs.Internal.Fronts.{Ample};
ghost use Rattle.intake.specs.Intake.{check_file};
ghost use Rattle.intake.specs.Internal.Steps.{Held, front_checked, Taken};

use cage::Cage;
use halfedges::refusal::Refusal;
use halfedges::table::HalfedgeTable;
use reading::Reading;
use tables::check::Checked;
use tables::{Tables, rules};

// The check of the cage in a file. Where it is accepted, it stands at the fronts of the tables.
pub fn check_file(
    file: &[u8],
    twin: &mut [u32],
    vert: &mut [u32],
    edge: &mut [u32],
    points: &mut [i32],
) -> Result<Checked, Refusal>
    requires { Ample (tables twin.old vert.old edge.old) points.old (replicate most_halfedges 0) }
    ensures result_value { check_checked result ≡ check_file file.now }
    ensures taken { IfOk result (λ c. Taken file.now c vert.new points.new) }
{
    let mut creases = [0u8; HalfedgeTable::MOST_HALFEDGES];
    let reading = reading::read(
        file,
        &mut *twin,
        &mut *vert,
        &mut *edge,
        &mut *points,
        &mut creases,
    )?;
    let tables = Tables {
        twin: &*twin,
        vert: &*vert,
        edge: &*edge,
    };
    check_read(reading, &tables, &*points, &creases)
}

// The check of the cage that stands at the fronts of the tables. Form 1 has no creases, and as many zeros stand for them as there are
// edges.
fn check_read(
    reading: Reading,
    tables: &Tables,
    points: &[i32],
    creases: &[u8],
) -> Result<Checked, Refusal>
    requires { Held reading (held tables.now) points.now creases.now }
    ensures { check_checked result
        ≡ front_checked reading (held tables.now) points.now creases.now }
{
    let halfedges = reading.halfedges;
    let twin = &tables.twin[..halfedges];
    let edges = rules::count_edges(twin);
    let cage = Cage {
        tables: Tables {
            twin,
            vert: &tables.vert[..halfedges],
            edge: &tables.edge[..halfedges],
        },
        points: &points[..3 * reading.vertices],
        creases: &creases[..edges],
    };
    cage.check()
}
