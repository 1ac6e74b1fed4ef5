// The corner question.
ghost use Rattle.std.specs.Prelude.{◌≡◌, ◌+◌, ◌*◌, ◌<◌, length};
ghost use Rattle.halfedges.specs.Corners.{corners as corners_corners, corner_shape, corner_question, cornered};

use crate::refusal::Refusal;

// A triangle's three corner numbers together, as stored.
pub fn corners_of(vert: &[u32], triangle: usize) -> [u32; 3]
    requires { 3 * triangle + 2 < length vert.now }
    ensures { result ≡ corners_corners vert.now triangle }
{
    let first = 3 * triangle;
    [vert[first], vert[first + 1], vert[first + 2]]
}

// The corner question: a VERT table and a triangle number, both of any kind.
pub fn corner_question(vert: &[u32], triangle: usize) -> Result<[u32; 3], Refusal>
    ensures { cornered result ≡ corner_question vert.now triangle }
{
    if misplaced(vert, triangle) {
        return Err(Refusal::Shape);
    }
    Ok(corners_of(vert, triangle))
}

// The table has no such triangle: refusal 1 of the corner question.
#[tactic(auto, using(std::proofs::lemmas::Bool::Decides::nat_tests), unfolding(crate::specs::Corners::corner_shape))]
fn misplaced(vert: &[u32], triangle: usize) -> bool
    ensures { result ≡ corner_shape vert.now triangle }
{
    vert.len() == 0 || vert.len() % 3 != 0 || vert.len() / 3 <= triangle
}
