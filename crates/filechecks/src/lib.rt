// The checks of a cage file, from front to back.
#![tactic(auto)]

ghost use Rattle.std.specs.Prelude.{◌≡◌, cond, Some, None, [], ◌∷◌, ◌++◌, ◌+◌, ◌*◌, ◌≤◌, ◌<◌, length, IfOk};
ghost use Rattle.cagefile.specs.declared.fields.Form.TheVariants.{One, Two};
ghost use Rattle.cagefile.specs.Fields.{opening, table_heads, later_heads};
ghost use Rattle.halfedges.specs.Cage.{E, most_halfedges, most_vertices};
ghost use Rattle.halfedges.specs.Refusals.{FIELD, told, given, first};
ghost use Rattle.filechecks.specs.Contents.{form_in, HIn, VIn, EIn, form_of, twins_in, past};
ghost use Rattle.filechecks.specs.FileChecks.{field_checks, other_form, nothing, opening_asked, twins_asked, weight_asked, fields_checks, front_to_back, both, file_checks};
ghost use Rattle.filechecks.specs.Internal.Sound.{front_checks, TablesWhole, Sound};

use cagefile::fields::Form;
use cagefile::{fields, numbers};
use halfedges::refusal::Refusal;
use halfedges::table::HalfedgeTable;
use tables::rules;

pub mod twins;

// ---- a field

// A field whose head is expected at an offset: its head, its tag and length, its payload.
fn check_field(file: &[u8], at: usize, tag: u8, size: usize) -> Result<(), Refusal>
    requires { at + size ≤ 65536 }
    ensures { told result ≡ first (field_checks file.now at (record { tag = tag; size = size })) }
{
    if file.len() < at + fields::HEAD {
        return Err(Refusal::Short(at));
    }
    if file[at] != tag {
        return Err(Refusal::Field(at));
    }
    if numbers::number_at(file, at + 1) as usize != size {
        return Err(Refusal::Field(at));
    }
    if file.len() < at + fields::HEAD + size {
        return Err(Refusal::Short(at));
    }
    Ok(())
}

// ---- the first field

// The form's number as the first payload has it.
pub fn form_in(file: &[u8]) -> u32
    requires { 9 ≤ length file.now }
    ensures { result ≡ form_in file.now }
{
    numbers::number_at(file, 3)
}

// H as the first payload has it.
pub fn halfedges_in(file: &[u8]) -> usize
    requires { 9 ≤ length file.now }
    ensures { (result ≡ HIn file.now) × (result < 65536) }
{
    numbers::number_at(file, 5) as usize
}

// V as the first payload has it.
pub fn vertices_in(file: &[u8]) -> usize
    requires { 9 ≤ length file.now }
    ensures { (result ≡ VIn file.now) × (result < 65536) }
{
    numbers::number_at(file, 7) as usize
}

// The first field, which is to have the number of a form.
pub fn check_form(file: &[u8], form: Form) -> Result<(), Refusal>
    ensures { let f = file.now in
        told result ≡ first (field_checks f 0 opening ++ (given (other_form (form ∷ []) f) (FIELD 0) ∷ [])) }
{
    check_field(file, 0, fields::OPENING, fields::COUNTS)?;
    if form_in(file) != u32::from(form) {
        return Err(Refusal::Field(0));
    }
    Ok(())
}

// The form, H and V of the first payload; where they pass, which form it is.
fn check_opening(file: &[u8]) -> Result<Form, Refusal>
    requires { 9 ≤ length file.now }
    ensures checked { told result ≡ first (opening_asked both file.now 0) }
    ensures known { IfOk result (λ form. form ≡ form_of file.now) }
{
    let Ok(form) = Form::try_from(form_in(file)) else {
        return Err(Refusal::Field(0));
    };
    let halfedges = halfedges_in(file);
    let vertices = vertices_in(file);
    if halfedges == 0 {
        return Err(Refusal::Shape);
    }
    if halfedges % 3 != 0 {
        return Err(Refusal::Shape);
    }
    // the limits are the table's; how many edges it has is not known here
    let table = HalfedgeTable {
        halfedges,
        edges: 0,
        vertices,
    };
    if table.above_limit(0) {
        return Err(Refusal::Limit);
    }
    Ok(form)
}

// ---- the fields after it

// Where the field after the tables has its head.
pub fn after_tables(halfedges: usize) -> usize
    requires { halfedges ≤ most_halfedges }
    ensures { result ≡ 18 + 6 * halfedges }
{
    fields::HEAD + fields::COUNTS + 3 * (fields::HEAD + 2 * halfedges)
}

// The fields of TWIN, VERT and EDGE.
fn check_tables(file: &[u8], halfedges: usize) -> Result<(), Refusal>
    requires { halfedges ≤ most_halfedges }
    ensures { told result ≡ first (front_checks file.now (past 0 opening) (table_heads halfedges)) }
{
    let table = 2 * halfedges;
    let twin_at = fields::HEAD + fields::COUNTS;
    check_field(file, twin_at, fields::TWIN, table)?;
    let vert_at = twin_at + fields::HEAD + table;
    check_field(file, vert_at, fields::VERT, table)?;
    let edge_at = vert_at + fields::HEAD + table;
    check_field(file, edge_at, fields::EDGE, table)
}

// The end field; past it nothing may stand.
fn check_end(file: &[u8], at: usize) -> Result<(), Refusal>
    requires { at ≤ 65536 }
    ensures { told result ≡ first (fields_checks file.now at (record { tag = 0x7F; size = 0 } ∷ [])) }
{
    check_field(file, at, fields::END, 0)?;
    let extra_at = at + fields::HEAD;
    if extra_at < file.len() {
        return Err(Refusal::Extra(extra_at));
    }
    Ok(())
}

// What follows the tables in form 1.
fn check_plain(file: &[u8], halfedges: usize, vertices: usize) -> Result<(), Refusal>
    requires { (halfedges ≤ most_halfedges) × (vertices ≤ most_vertices) }
    ensures { told result ≡ first (fields_checks file.now (18 + 6 * halfedges) (later_heads One 0 vertices)) }
{
    let at = after_tables(halfedges);
    check_field(file, at, fields::POINTS, 12 * vertices)?;
    check_end(file, at + fields::HEAD + 12 * vertices)
}

// The field of the weight, and its byte.
fn check_weight(file: &[u8], at: usize) -> Result<(), Refusal>
    requires { at ≤ 65535 }
    ensures { let f = file.now in
        told result ≡ first (field_checks f at (record { tag = 0x31; size = 1 }) ++ weight_asked f at) }
{
    check_field(file, at, fields::WEIGHT, 1)?;
    if 1 < file[at + fields::HEAD] {
        return Err(Refusal::Field(at));
    }
    Ok(())
}

// The fields that follow the tables in form 2.
fn check_later(file: &[u8], halfedges: usize, edges: usize, vertices: usize) -> Result<(), Refusal>
    requires { (halfedges ≤ most_halfedges) × (edges ≤ most_halfedges) × (vertices ≤ most_vertices) }
    ensures { let f = file.now in
        told result
        ≡ first (front_to_back f (18 + 6 * halfedges) (nothing ∷ nothing ∷ weight_asked f ∷ []) (later_heads Two edges vertices)) }
{
    let creases_at = after_tables(halfedges);
    check_field(file, creases_at, fields::CREASES, edges)?;
    let points_at = creases_at + fields::HEAD + edges;
    check_field(file, points_at, fields::POINTS, 12 * vertices)?;
    let weight_at = points_at + fields::HEAD + 12 * vertices;
    check_weight(file, weight_at)?;
    check_end(file, weight_at + fields::HEAD + 1)
}

// What follows the tables in form 2: check 3, and with as many creases as there are edges the fields.
fn check_creased(file: &[u8], halfedges: usize, vertices: usize) -> Result<(), Refusal>
    requires { TablesWhole file.now halfedges vertices }
    ensures { let f = file.now in
        told result
        ≡ first (twins_asked f 0
        ++ front_to_back f (18 + 6 * halfedges) (nothing ∷ nothing ∷ weight_asked f ∷ []) (later_heads Two (E (twins_in f)) vertices)) }
{
    let mut twin = [0u32; HalfedgeTable::MOST_HALFEDGES];
    twins::copy_twins(file, twins::TWIN_AT, &mut twin, halfedges);
    rules::check_twins(&twin[..halfedges])?;
    let edges = rules::count_edges(&twin[..halfedges]);
    check_later(file, halfedges, edges, vertices)
}

// ---- the file

// The file from front to back, of either form.
pub fn check_file(file: &[u8]) -> Result<(), Refusal>
    ensures { told result ≡ first (file_checks both file.now) }
{
    check_field(file, 0, fields::OPENING, fields::COUNTS)?;
    let form = check_opening(file)?;
    let halfedges = halfedges_in(file);
    let vertices = vertices_in(file);
    check_tables(file, halfedges)?;
    match form {
        Form::One => check_plain(file, halfedges, vertices),
        Form::Two => check_creased(file, halfedges, vertices),
    }
}

// Which form a file that reads has.
#[tactic(auto, unfolding(crate::specs::Contents::form_of))]
pub fn form_of(file: &[u8]) -> Form
    requires { 9 ≤ length file.now }
    ensures { result ≡ form_of file.now }
{
    match form_in(file) {
        2 => Form::Two,
        _ => Form::One,
    }
}

// How many creases a file that reads has: the length in their field's head.
pub fn edges_in(file: &[u8]) -> usize
    requires { Sound file.now }
    ensures { (result ≡ EIn file.now) × (result ≤ most_halfedges) }
{
    match form_of(file) {
        Form::One => 0,
        Form::Two => {
            let head = after_tables(halfedges_in(file));
            numbers::number_at(file, head + 1) as usize
        }
    }
}
