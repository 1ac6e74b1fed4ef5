// STL for the mill: one cage file on standard input, its level 0 as binary STL on standard output.
#![tactic(auto)]

ghost use Rattle.std.specs.Prelude.{◌<◌, length};
ghost use Rattle.intake.specs.Internal.Buffer.{longest};
ghost use Rattle.stl.specs.Internal.Facets.{Drawn};

mod exporting;

use halfedges::table::HalfedgeTable;
use stl::facets;
use text::streams;

fn main(rt: HostRuntime) {
    // one byte more than the longest file that reads
    let mut file = [0u8; 46112];
    export_input(&rt, &mut file);
}

// Exports what standard input holds, as much as the buffer takes: past the longest file that reads more bytes change nothing
// (`front_replied`).
fn export_input(rt: &HostRuntime, file: &mut [u8])
    requires { longest < length file.old }
{
    // its reply is put out in parts, so `streams::answer` does not do
    if let Ok(length) = streams::read(rt, &mut *file) {
        export(rt, &file[..length]);
    }
}

// Puts out the opening for a file's bytes, then its facets, then the status; or says the refusal.
fn export(rt: &HostRuntime, file: &[u8]) {
    let mut vert = [0u32; HalfedgeTable::MOST_HALFEDGES];
    let mut points = [0i32; 3 * HalfedgeTable::MOST_VERTICES];
    let mut out = [0u8; 1024];
    match exporting::open(file, &mut vert, &mut points, &mut out) {
        Ok(opened) => {
            if streams::put(rt, &out[..opened.length])
                && put_facets(rt, &vert[..opened.halfedges], &points[..opened.coordinates])
            {
                streams::end(rt, opened.status);
            }
        }
        Err(refused) => streams::say(rt, &out[..refused.length], refused.status),
    }
}

// Puts the facets of all triangles out, a facet at a time.
fn put_facets(rt: &HostRuntime, vert: &[u32], points: &[i32]) -> bool
    requires { Drawn vert.now points.now }
{
    let mut facet = [0u8; facets::FACET];
    for triangle in 0..vert.len() / 3 {
        facets::put_triangle(&mut facet, vert, points, triangle);
        if !streams::put(rt, &facet) {
            return false;
        }
    }
    true
}
