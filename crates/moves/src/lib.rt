// The moves between the forms of a cage file: a file is read into tables on the stack, and its cage written in the other form.
#![tactic(auto)]

ghost use Rattle.std.specs.Prelude.{◌≡◌, [], ◌∷◌, ◌++◌, length, IfOk};
ghost use Rattle.cagefile.specs.declared.fields.Form.TheVariants.{One, Two};
ghost use Rattle.halfedges.specs.Cage.{E};
ghost use Rattle.halfedges.specs.Refusals.{told, first};
ghost use Rattle.tables.specs.Tables.{tables};
ghost use Rattle.cagefile.specs.Fields.{file as fields_file};
ghost use Rattle.filechecks.specs.FileChecks.{file_checks};
ghost use Rattle.reading.specs.Internal.Fronts.{Ample, Fronts};
ghost use Rattle.writing.specs.Writing.{weighted, wrote, written};
ghost use Rattle.moves.specs.Moves.{numbered, cage_moves, move_room, move};

use cage::Cage;
use cagefile::fields::Form;
use halfedges::refusal::Refusal;
use halfedges::table::HalfedgeTable;
use points::weights::Weight;
use reading::Reading;
use seams::sharp;
use tables::{Tables, rules};

// The move of a file of form 1 to form 2, with zeros for creases and the short weight.
pub fn to_form_2(file: &[u8], lent: &mut [u8]) -> Result<usize, Refusal>
    ensures { let after = move One Two file.now lent.old in
        (wrote result ≡ after.answer) × (lent.new ≡ after.file) }
{
    move_file(file, Form::One, Form::Two, lent)
}

// The move back, of a file of form 2 whose crease numbers and weight are all 0.
pub fn to_form_1(file: &[u8], lent: &mut [u8]) -> Result<usize, Refusal>
    ensures { let after = move Two One file.now lent.old in
        (wrote result ≡ after.answer) × (lent.new ≡ after.file) }
{
    move_file(file, Form::Two, Form::One, lent)
}

// The move of a file from a form to a form. Answers the length of the file that it writes.
pub fn move_file(file: &[u8], from: Form, to: Form, lent: &mut [u8]) -> Result<usize, Refusal>
    ensures { let after = move from to file.now lent.old in
        (wrote result ≡ after.answer) × (lent.new ≡ after.file) }
{
    let mut twin = [0u32; HalfedgeTable::MOST_HALFEDGES];
    let mut vert = [0u32; HalfedgeTable::MOST_HALFEDGES];
    let mut edge = [0u32; HalfedgeTable::MOST_HALFEDGES];
    let mut points = [0i32; 3 * HalfedgeTable::MOST_VERTICES];
    let mut creases = [0u8; HalfedgeTable::MOST_HALFEDGES];
    let read = read_form(
        file,
        from,
        &mut twin,
        &mut vert,
        &mut edge,
        &mut points,
        &mut creases,
    )?;
    let halfedges = read.halfedges;
    let coordinates = 3 * read.vertices;
    // of form 1 the creases are still zeros, of which the cage has one for each edge
    let edges = rules::count_edges(&twin[..halfedges]);
    let tables = Tables {
        twin: &twin[..halfedges],
        vert: &vert[..halfedges],
        edge: &edge[..halfedges],
    };
    let cage = Cage {
        tables,
        points: &points[..coordinates],
        creases: &creases[..edges],
    };
    write_form(to, &cage, read.weight, lent)
}

// Reads a file that is to have a form into tables that have room for any cage.
fn read_form(
    file: &[u8],
    form: Form,
    twin: &mut [u32],
    vert: &mut [u32],
    edge: &mut [u32],
    points: &mut [i32],
    creases: &mut [u8],
) -> Result<Reading, Refusal>
    requires { Ample (tables twin.old vert.old edge.old) points.old creases.old }
    ensures answer_value { told result ≡ first (file_checks (form ∷ []) file.now) }
    ensures fronts { let now = tables twin.new vert.new edge.new in
        IfOk result (λ read. Fronts file.now read now points.new creases.old creases.new) }
{
    filechecks::check_form(file, form)?;
    reading::read(file, twin, vert, edge, points, creases)
}

// Writes the file of a cage in a form, for form 1 where crease numbers and weight are all 0. Then the check without creases answers as the
// one with them, so that no cage is checked twice.
fn write_form(form: Form, cage: &Cage, weight: Weight, lent: &mut [u8]) -> Result<usize, Refusal>
    requires { length cage.now.creases.now ≡ E cage.now.tables.twin.now }
    ensures { let w = weighted cage.now weight in
        let after = written (first (cage_moves form w ++ move_room form w lent.old)) (fields_file form w) lent.old in
        (wrote result ≡ after.answer) × (lent.new ≡ after.file) }
{
    match form {
        Form::One => {
            if !is_numbered(cage.creases, weight) {
                return writing::write(&cage.tables, cage.points, lent);
            }
            cage.check_for_refining(0, Weight::Short)?;
            Err(Refusal::NotOld)
        }
        Form::Two => writing::write_form_2(cage, weight, lent),
    }
}

// Whether a crease number or the weight is not 0.
fn is_numbered(creases: &[u8], weight: Weight) -> bool
    ensures { result ≡ numbered creases.now weight }
{
    u32::from(weight) != 0 || sharp::any_sharp(creases, 0)
}
