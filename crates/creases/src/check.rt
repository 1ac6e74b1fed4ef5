// The checks of the tables with their creases: 1 to 7 in number order, the crease table's length after 3, and 15 after 6.
ghost use Rattle.std.specs.Prelude.{◌≡◌, not, ◌&&◌, ◌||◌, ◌≤◌, ◌<◌, eqb, ltb, length};
ghost use Rattle.halfedges.specs.Cage.{E};
ghost use Rattle.halfedges.specs.Refusals.{CREASE, told, given_at, first};
ghost use Rattle.tables.specs.Tables.{held};
ghost use Rattle.creases.specs.Creases.{most_crease, bad_crease};
ghost use Rattle.creases.specs.Check.{creased_table_checks};
ghost use Rattle.creases.specs.Internal.Borders.{ForCreases, Markable, MarkedAt, MarkedTo, Marked};

use halfedges::refusal::Refusal;
use halfedges::table::HalfedgeTable;
use tables::{Tables, fans, rules};

// The most levels for which an edge stays sharp.
pub const MOST_CREASE: u8 = 10;

// Checks 1 to 7 and 15 of any tables, where the depth's limit counts too.
pub fn check_for_depth(
    cage: &Tables,
    creases: &[u8],
    vertices: usize,
    depth: usize,
) -> Result<(), Refusal>
    ensures { told result ≡ first (creased_table_checks (held cage.now)
        creases.now vertices depth) }
{
    cage.check_pairs(vertices, depth)?;
    if creases.len() != rules::count_edges(cage.twin) {
        return Err(Refusal::Shape);
    }
    cage.check_places(vertices)?;
    check_creases(cage.twin, cage.edge, creases)?;
    fans::check_fans(cage.twin, cage.vert, vertices)
}

// Rule 15, where rules 1 to 3 and 6 are kept.
fn check_creases(twin: &[u32], edge: &[u32], creases: &[u8]) -> Result<(), Refusal>
    requires { ForCreases twin.now edge.now creases.now }
    ensures { told result ≡ given_at (E twin.now) (bad_crease twin.now edge.now creases.now) CREASE }
{
    let mut borders = [false; HalfedgeTable::MOST_HALFEDGES];
    mark_borders(twin, edge, &mut borders);
    first_bad_crease(&borders, twin, edge, creases)
}

// Marks the edges on a border, where no edge is marked yet.
fn mark_borders(twin: &[u32], edge: &[u32], borders: &mut [bool])
    requires { Markable twin.now edge.now borders.old × MarkedTo twin.now edge.now 0 borders.old }
    ensures { Marked twin.now edge.now borders.new }
{
    for halfedge in 0..edge.len() {
        mark_edge(twin, edge, borders, halfedge);
    }
}

// Marks the edge of a halfedge without twin.
fn mark_edge(twin: &[u32], edge: &[u32], borders: &mut [bool], halfedge: usize)
    requires { Markable twin.now edge.now borders.old × (halfedge < length edge.now) }
    ensures { MarkedAt twin.now edge.now halfedge borders.old borders.new }
{
    if twin[halfedge] != HalfedgeTable::NO_TWIN {
        return;
    }
    let number = edge[halfedge] as usize;
    borders[number] = true;
}

// Rule 15, by marks of the edges on a border.
fn first_bad_crease(
    borders: &[bool],
    twin: &[u32],
    edge: &[u32],
    creases: &[u8],
) -> Result<(), Refusal>
    requires { Marked twin.now edge.now borders.now × (length creases.now ≤ length borders.now) }
    ensures { told result ≡ given_at (length creases.now)
        (bad_crease twin.now edge.now creases.now) CREASE }
{
    for number in 0..creases.len() {
        if bad_crease(creases[number], borders[number]) {
            return Err(Refusal::Crease(number));
        }
    }
    Ok(())
}

// An edge's number is out of range, or not 0 on a border.
#[tactic(auto, using(std::proofs::lemmas::Bool::Decides::nat_tests))]
fn bad_crease(crease: u8, on_border: bool) -> bool
    ensures { result ≡ (ltb most_crease crease || on_border && not (eqb crease 0)) }
{
    crease > MOST_CREASE || on_border && crease != 0
}
