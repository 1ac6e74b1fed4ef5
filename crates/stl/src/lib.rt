// Binary STL for the mill: a level's triangles from its VERT table and its points.
#![tactic(auto)]

ghost use Rattle.std.specs.Prelude.{◌≡◌};
ghost use Rattle.writing.specs.Writing.{wrote};
ghost use Rattle.stl.specs.Writing.{write_stl};

use halfedges::refusal::Refusal;

mod checks;
pub mod facets;
pub mod file;

// Writes any level's STL into a lent file: all checks first, then the bytes. Answers the file's length.
pub fn write_stl(vert: &[u32], points: &[i32], file: &mut [u8]) -> Result<usize, Refusal>
    ensures { let after = write_stl vert.now points.now file.old in
        (wrote result ≡ after.answer) × (file.new ≡ after.file) }
{
    checks::check(vert, points, file)?;
    Ok(file::put_file(file, vert, points))
}
