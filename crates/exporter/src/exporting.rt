// What is put out for a file's bytes: the head of its cage's STL, with the tables that the facets are made from; or the refusal.
ghost use Rattle.std.specs.Prelude.{◌≡◌, ◌*◌, ◌≤◌, IfOk, length};
ghost use Rattle.halfedges.specs.Cage.{most_halfedges, most_vertices};
ghost use Rattle.tables.specs.Check.{checked as check_checked};
ghost use Rattle.intake.specs.Intake.{check_file};
ghost use Rattle.intake.specs.Internal.Steps.{Taken};
ghost use Rattle.exporter.specs.Exporting.{Opens};
ghost use Rattle.exporter.specs.Internal.Steps.{Small, Opening, Within};

use halfedges::refusal::Refusal;
use halfedges::table::HalfedgeTable;
use stl::file;
use tables::check::Checked;
use text::replies;
use text::replies::{Status, Written};

// What an accepted cage's STL is made from: the status that its reply ends with, the length of its head, and how many cells of VERT
// and of the points the facets are made from.
#[derive(Clone, Copy)]
pub struct Opened {
    pub status: Status,
    pub length: usize,
    pub halfedges: usize,
    pub coordinates: usize,
}

// The opening for any bytes, at the front of out; VERT and points of the facets at the fronts of two tables.
pub fn open(
    file: &[u8],
    vert: &mut [u32; HalfedgeTable::MOST_HALFEDGES],
    points: &mut [i32; 3 * HalfedgeTable::MOST_VERTICES],
    out: &mut [u8; 1024],
) -> Result<Opened, Written>
    ensures opens { Opens file.now out.old out.new vert.new points.new result }
    ensures within { Within result out.new vert.new points.new }
{
    match check_file(file, vert, points) {
        Ok(checked) => Ok(put_opening(&mut *out, checked)),
        Err(refusal) => Err(replies::put_refusal(&mut *out, Err(refusal))),
    }
}

// The check of the cage in a file. Where it is accepted, VERT and points stand at the fronts of their tables.
fn check_file(file: &[u8], vert: &mut [u32], points: &mut [i32]) -> Result<Checked, Refusal>
    requires { (length vert.old ≡ most_halfedges) × (length points.old ≡ 3 * most_vertices) }
    ensures result_value { check_checked result ≡ check_file file.now }
    ensures taken { IfOk result (λ c. Taken file.now c vert.new points.new) }
{
    let mut twin = [0u32; HalfedgeTable::MOST_HALFEDGES];
    let mut edge = [0u32; HalfedgeTable::MOST_HALFEDGES];
    intake::check_file(file, &mut twin, &mut *vert, &mut edge, &mut *points)
}

// The head of an accepted cage's STL.
fn put_opening(out: &mut [u8], checked: Checked) -> Opened
    requires { Small checked × (1024 ≤ length out.old) }
    ensures { Opening checked out.old out.new result }
{
    file::put_head(&mut *out, checked.triangles as u32);
    Opened {
        status: Status::Answered,
        length: file::FACETS,
        halfedges: checked.halfedges,
        coordinates: 3 * checked.vertices,
    }
}
