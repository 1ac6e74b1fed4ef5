// The file's bytes: its head, and facet after facet.
ghost use Rattle.std.specs.Prelude.{◌≡◌, ◌+◌, ◌*◌, ◌≤◌, length};
ghost use Rattle.laws.specs.Below.{end_to_end};
ghost use Rattle.laws.specs.Parts.{in_front};
ghost use Rattle.halfedges.specs.Cage.{F};
ghost use Rattle.stl.specs.File.{facet_at, stl_head, stl_file};
ghost use Rattle.stl.specs.Internal.Facets.{Ready};

use crate::facets;
use cagefile::numbers;
use halfedges::corners;

// Where the count stands, after the zeros, and the first facet after it.
const COUNT: usize = 80;

pub const FACETS: usize = 84;

// The head of a file of so many facets.
pub fn put_head(file: &mut [u8], facets: u32)
    requires { 84 ≤ length file.old }
    ensures { file.new ≡ in_front (stl_head facets) file.old }
{
    file[..COUNT].fill(0);
    numbers::put_word(&mut *file, COUNT, facets);
}

// The facets of all triangles, one after the other. Each is filled before the one before it is put, so that reading runs ahead of writing.
fn put_facets(part: &mut [u8], vert: &[u32], points: &[i32])
    requires { (Ready vert.now points.now) × (50 * F (length vert.now) ≤ length part.old) }
    ensures { part.new ≡ in_front (end_to_end (F (length vert.now)) (facet_at vert.now points.now))
        part.old }
{
    let last = vert.len() / 3 - 1;
    let mut facet = facets::facet_of(points, corners::corners_of(vert, 0));
    for triangle in 0..last {
        let next = facets::facet_of(points, corners::corners_of(vert, triangle + 1));
        let at = facets::FACET * triangle;
        facets::put_facet(&mut part[at..], facet);
        facet = next;
    }
    let at = facets::FACET * last;
    facets::put_facet(&mut part[at..], facet);
}

// The file of a table and points that pass the checks, into a lent file with room for it. Answers the file's length.
pub fn put_file(file: &mut [u8], vert: &[u32], points: &[i32]) -> usize
    requires { (Ready vert.now points.now) × (84 + 50 * F (length vert.now) ≤ length file.old) }
    ensures { let written = stl_file vert.now points.now in
        (result ≡ length written) × (file.new ≡ in_front written file.old) }
{
    let count = vert.len() / 3;
    put_head(&mut *file, count as u32);
    let at = FACETS;
    put_facets(&mut file[at..], vert, points);
    at + facets::FACET * count
}
