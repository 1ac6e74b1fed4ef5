// Reading a cage file of either form into lent tables: all checks first, then the copies.
#![tactic(auto)]

ghost use Rattle.std.specs.Prelude.{◌≡◌, [], ◌∷◌, ◌+◌, ◌*◌, ◌≤◌, length};
ghost use Rattle.laws.specs.Parts.{in_front};
ghost use Rattle.tables.specs.Tables.{tables};
ghost use Rattle.points.specs.Weights.{weight_number};
ghost use Rattle.cagefile.specs.Fields.{number};
ghost use Rattle.filechecks.specs.Contents.{HIn, VIn, EIn, form_of, twins_in, verts_in, edges_in, creases_read, points_in, weight_in};
ghost use Rattle.filechecks.specs.Internal.Sound.{Sound};
ghost use Rattle.reading.specs.Reading.{read_file, numbers, reported};

use cagefile::fields;
use cagefile::fields::Form;
use filechecks::twins;
use halfedges::refusal::Refusal;
use points::weights::Weight;

mod checks;
mod copies;

// What reading finds of a file that reads: the form, H, V, E and the weight. Of form 1 E is zero and the weight short.
#[derive(Clone, Copy)]
pub struct Reading {
    pub form: Form,
    pub halfedges: usize,
    pub vertices: usize,
    pub edges: usize,
    pub weight: Weight,
}

impl Reading {
    // The numbers of a file that reads, and its weight.
    fn of(file: &[u8], weight: Weight) -> Reading
        requires { Sound file.now }
        ensures { let f = file.now in
            numbers result ≡ number (form_of f) ∷ HIn f ∷ VIn f ∷ EIn f ∷ weight_number weight ∷ [] }
    {
        Reading {
            form: filechecks::form_of(file),
            halfedges: filechecks::halfedges_in(file),
            vertices: filechecks::vertices_in(file),
            edges: filechecks::edges_in(file),
            weight,
        }
    }
}

// The payloads of the three tables.
pub fn copy_tables(file: &[u8], twin: &mut [u32], vert: &mut [u32], edge: &mut [u32])
    requires { (18 + 6 * HIn file.now ≤ length file.now) × (HIn file.now ≤ length twin.old)
        × (HIn file.now ≤ length vert.old) × (HIn file.now ≤ length edge.old) }
    ensures { let f = file.now in
        (twin.new ≡ in_front (twins_in f) twin.old) × (vert.new ≡ in_front (verts_in f) vert.old)
        × (edge.new ≡ in_front (edges_in f) edge.old) }
{
    let halfedges = filechecks::halfedges_in(file);
    let table = 2 * halfedges;
    twins::copy_twins(file, twins::TWIN_AT, twin, halfedges);
    let vert_at = twins::TWIN_AT + table + fields::HEAD;
    copies::copy_numbers(file, vert_at, vert, halfedges);
    let edge_at = vert_at + table + fields::HEAD;
    copies::copy_numbers(file, edge_at, edge, halfedges);
}

// The payloads of points and creases, and the weight: in form 2 the creases come first, in form 1 there are only points.
fn copy_rest(file: &[u8], points: &mut [i32], creases: &mut [u8]) -> Weight
    requires { Sound file.now × (3 * VIn file.now ≤ length points.old) × (EIn file.now ≤ length creases.old) }
    ensures { let f = file.now in
        (result ≡ weight_in f) × (points.new ≡ in_front (points_in f) points.old)
        × (creases.new ≡ in_front (creases_read f) creases.old) }
{
    let coordinates = 3 * filechecks::vertices_in(file);
    let at = filechecks::after_tables(filechecks::halfedges_in(file)) + fields::HEAD;
    match filechecks::form_of(file) {
        Form::One => {
            copies::copy_points(file, at, points, coordinates);
            Weight::Short
        }
        Form::Two => {
            let edges = filechecks::edges_in(file);
            copies::copy_creases(file, at, creases, edges);
            let points_at = at + edges + fields::HEAD;
            copies::copy_points(file, points_at, points, coordinates);
            Weight::from(u32::from(file[points_at + 4 * coordinates + fields::HEAD]))
        }
    }
}

// Reads any bytes into lent tables of any length.
pub fn read(
    file: &[u8],
    twin: &mut [u32],
    vert: &mut [u32],
    edge: &mut [u32],
    points: &mut [i32],
    creases: &mut [u8],
) -> Result<Reading, Refusal>
    ensures { let after = read_file file.now (tables twin.old vert.old edge.old)
        points.old creases.old in
        (reported result ≡ after.answer) × (tables twin.new vert.new edge.new ≡ after.lent)
        × (points.new ≡ after.points) × (creases.new ≡ after.creases) }
{
    checks::check_reading(file, twin, vert, edge, points, creases)?;
    copy_tables(file, twin, vert, edge);
    let weight = copy_rest(file, points, creases);
    Ok(Reading::of(file, weight))
}
