// The reply to a file's bytes: read, checked, and accepted or refused with the reason.
ghost use Rattle.std.specs.Prelude.{◌≡◌, ◌≤◌, length};
ghost use Rattle.io.specs.Counts.{IsPrefixLen};
ghost use Rattle.halfedges.specs.Refusals.{refused};
ghost use Rattle.tables.specs.Check.{checked as check_checked};
ghost use Rattle.text.specs.Replies.{Says};
ghost use Rattle.text.specs.Internal.Put.{Replied};
ghost use Rattle.clauses.specs.Shown.{shown};
ghost use Rattle.intake.specs.Intake.{check_file};
ghost use Rattle.explainer.specs.Explaining.{file_clause, refused_for, explaining};

use clauses::Clause;
use halfedges::refusal::Refusal;
use halfedges::table::HalfedgeTable;
use tables::Tables;
use tables::check::Checked;
use text::replies;
use text::replies::{Status, Written};

// The reply to any bytes, its text at the front of out.
pub fn explain(file: &[u8], out: &mut [u8; 2048]) -> Written
    ensures says { Says (explaining file.now) out.old out.new result }
    ensures prefix_len { IsPrefixLen result.length out.new }
{
    match check(file) {
        Ok(checked) => Written {
            status: Status::Answered,
            length: sentences::put_accepted(&mut *out, checked),
        },
        Err(refusal) => put_refused(&mut *out, refusal, find_clause(file, refusal)),
    }
}

// The check of a file, which is read into tables that have room for any cage.
fn check(file: &[u8]) -> Result<Checked, Refusal>
    ensures { check_checked result ≡ check_file file.now }
{
    let mut twin = [0u32; HalfedgeTable::MOST_HALFEDGES];
    let mut vert = [0u32; HalfedgeTable::MOST_HALFEDGES];
    let mut edge = [0u32; HalfedgeTable::MOST_HALFEDGES];
    let mut points = [0i32; 3 * HalfedgeTable::MOST_VERTICES];
    intake::check_file(file, &mut twin, &mut vert, &mut edge, &mut points)
}

// The clause of what a file is refused by, where its rule has clauses.
fn find_clause(file: &[u8], refusal: Refusal) -> Option<Clause>
    requires { refused refusal ≡ (check_file file.now).verdict }
    ensures { shown result ≡ file_clause file.now }
{
    match refusal {
        Refusal::Twin(_)
        | Refusal::Vertex(_)
        | Refusal::Unused(_)
        | Refusal::Edge(_)
        | Refusal::Fan(_) => clause_in(file, refusal),
        _ => None,
    }
}

// The clause by the tables in a file, which are whole where it is refused by one of rules 3 to 7.
fn clause_in(file: &[u8], refusal: Refusal) -> Option<Clause>
    requires told { refused refusal ≡ (check_file file.now).verdict }
    requires of_rules { (3 ≤ (refused refusal).number) × ((refused refusal).number ≤ 7) }
    ensures { shown result ≡ file_clause file.now }
{
    let mut twin = [0u32; HalfedgeTable::MOST_HALFEDGES];
    let mut vert = [0u32; HalfedgeTable::MOST_HALFEDGES];
    let mut edge = [0u32; HalfedgeTable::MOST_HALFEDGES];
    reading::copy_tables(file, &mut twin, &mut vert, &mut edge);
    let halfedges = filechecks::halfedges_in(file);
    let vertices = filechecks::vertices_in(file);
    let tables = Tables {
        twin: &twin[..halfedges],
        vert: &vert[..halfedges],
        edge: &edge[..halfedges],
    };
    clauses::clause_at(&tables, vertices, Err(refusal))
}

// The reply to a file that is refused, with its clause where there is one.
fn put_refused(out: &mut [u8], refusal: Refusal, clause: Option<Clause>) -> Written
    requires { 2048 ≤ length out.old }
    ensures { Replied out.old 2048 (refused_for (refused refusal) (shown clause)) out.new result }
{
    match clause {
        Some(clause) => Written {
            status: Status::Refused,
            length: sentences::put_because(&mut *out, Err(refusal), clause.numbers()),
        },
        None => replies::put_refusal(&mut *out, Err(refusal)),
    }
}
