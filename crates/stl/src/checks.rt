// Refusals 1, 2, 4, 8 and 9.
ghost use Rattle.std.specs.Prelude.{◌≡◌, ℕ, ◌≤◌, ◌<◌, length};
ghost use Rattle.halfedges.specs.Cage.{cell};
ghost use Rattle.halfedges.specs.Refusals.{VERTEX, told, given_at, first};
ghost use Rattle.stl.specs.Writing.{past_points, stl_checks, stl_verdict};

use crate::{facets, file};
use halfedges::refusal::Refusal;

// What a table has at most: the halfedges of the largest cage at the deepest level.
const LONGEST: usize = 12582912;

// A number that no corner is above: the highest of them, found without a branch.
fn highest(vert: &[u32]) -> u32
    ensures { (h : ℕ) → h < length vert.now → cell vert.now h ≤ result }
{
    let mut most: u32 = 0;
    for corner in vert {
        most = most.max(*corner);
    }
    most
}

// Refusal 4, where some corner is past the points: the lowest halfedge that has one.
fn find_past(vert: &[u32], vertices: usize) -> Result<(), Refusal>
    ensures { told result ≡ given_at (length vert.now) (past_points vert.now vertices) VERTEX }
{
    for halfedge in 0..vert.len() {
        if vertices <= vert[halfedge] as usize {
            return Err(Refusal::Vertex(halfedge));
        }
    }
    Ok(())
}

// Refusal 4. Most tables are passed by their highest corner alone.
fn check_corners(vert: &[u32], vertices: usize) -> Result<(), Refusal>
    ensures { told result ≡ given_at (length vert.now) (past_points vert.now vertices) VERTEX }
{
    if (highest(vert) as usize) < vertices {
        return Ok(());
    }
    find_past(vert, vertices)
}

// Refusals 1, 2, 4 and 8, or done.
fn check_level(vert: &[u32], points: &[i32]) -> Result<(), Refusal>
    ensures { told result ≡ first (stl_checks vert.now points.now) }
{
    if cage::unshaped(vert, points) {
        return Err(Refusal::Shape);
    }
    if LONGEST < vert.len() {
        return Err(Refusal::Limit);
    }
    check_corners(vert, points.len() / 3)?;
    cage::check_points(points)
}

// Refusals 1, 2, 4, 8 and then 9, or done.
pub fn check(vert: &[u32], points: &[i32], file: &[u8]) -> Result<(), Refusal>
    ensures { told result ≡ stl_verdict vert.now points.now file.now }
{
    check_level(vert, points)?;
    if file.len() < file::FACETS + facets::FACET * (vert.len() / 3) {
        return Err(Refusal::Room(6));
    }
    Ok(())
}
