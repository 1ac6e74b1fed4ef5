// The checks of reading: the file, then the room.
ghost use Rattle.std.specs.Prelude.{◌≡◌};
ghost use Rattle.halfedges.specs.Refusals.{told, short};
ghost use Rattle.tables.specs.Tables.{tables};
ghost use Rattle.reading.specs.Reading.{read_verdict};

use halfedges::refusal::Refusal;

// The length of a lent table, by its number, against what the file needs.
#[tactic(auto, unfolding(halfedges::specs::Refusals::short, halfedges::specs::Refusals::given))]
fn check_length(table: usize, needed: usize, lent: usize) -> Result<(), Refusal>
    ensures { told result ≡ short table needed lent }
{
    if lent < needed {
        return Err(Refusal::Room(table));
    }
    Ok(())
}

// The file, and then the lent tables in the order of their numbers.
pub fn check_reading(
    file: &[u8],
    twin: &[u32],
    vert: &[u32],
    edge: &[u32],
    points: &[i32],
    creases: &[u8],
) -> Result<(), Refusal>
    ensures { told result ≡ read_verdict file.now (tables twin.now vert.now edge.now)
        points.now creases.now }
{
    filechecks::check_file(file)?;
    let halfedges = filechecks::halfedges_in(file);
    let vertices = filechecks::vertices_in(file);
    let edges = filechecks::edges_in(file);
    check_length(1, halfedges, twin.len())?;
    check_length(2, halfedges, vert.len())?;
    check_length(3, halfedges, edge.len())?;
    check_length(4, 3 * vertices, points.len())?;
    check_length(7, edges, creases.len())
}
