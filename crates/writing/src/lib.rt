// Writing a cage's file of either form: field by field, each payload straight into the part of the lent file after its head.
#![tactic(auto)]

ghost use Rattle.std.specs.Prelude.{◌≡◌, ◌+◌, ◌*◌, ◌≤◌, ◌<◌, length};
ghost use mathlib.Core.List.{[], ◌∷◌, map, flat_map};
ghost use Rattle.laws.specs.Parts.{in_front};
ghost use Rattle.laws.specs.Internal.Parts.{splice};
ghost use Rattle.halfedges.specs.Cage.{most_halfedges};
ghost use Rattle.halfedges.specs.Refusals.{DONE, told};
ghost use Rattle.tables.specs.Tables.{held};
ghost use Rattle.cagefile.specs.declared.fields.Form.TheVariants.{One, Two};
ghost use Rattle.cagefile.specs.Numbers.{u16, u32, twos};
ghost use Rattle.cagefile.specs.Fields.{number, opening, table_heads, table_payloads, field, fields as fields_fields, file as fields_file};
ghost use Rattle.writing.specs.Writing.{plain, weighted, write_verdict, write_file, wrote};

use cage::Cage;
use cagefile::fields::Form;
use cagefile::{fields, numbers};
use halfedges::refusal::Refusal;
use points::weights::Weight;
use tables::Tables;

// A field's head: its tag, and how many bytes follow it.
fn put_head(file: &mut [u8], at: usize, tag: u8, size: u32)
    requires { at + 3 ≤ length file.old }
    ensures { file.new ≡ splice file.old at (tag ∷ u16 size) }
{
    file[at] = tag;
    numbers::put_number(&mut *file, at + 1, size);
}

// The first payload: the form, H and V.
fn put_counts(part: &mut [u8], form: Form, halfedges: u32, vertices: u32)
    requires { 6 ≤ length part.old }
    ensures { part.new ≡ in_front (flat_map u16 (number form ∷ halfedges ∷ vertices ∷ [])) part.old }
{
    numbers::put_number(&mut *part, 0, u32::from(form));
    numbers::put_number(&mut *part, 2, halfedges);
    numbers::put_number(&mut *part, 4, vertices);
}

// A table's payload: the last two bytes of each number. The marker's are 65535, which is how the file says no twin.
fn put_numbers(part: &mut [u8], table: &[u32])
    requires { 2 * length table.now ≤ length part.old }
    ensures { part.new ≡ in_front (flat_map u16 table.now) part.old }
{
    // one function for this and `put_points` would ask more of the way that a number is put than both loops say
    for halfedge in 0..table.len() {
        numbers::put_number(&mut *part, 2 * halfedge, table[halfedge]);
    }
}

// The points' payload.
fn put_points(part: &mut [u8], points: &[i32])
    requires { 4 * length points.now ≤ length part.old }
    ensures { part.new ≡ in_front (flat_map u32 (map twos points.now)) part.old }
{
    // as in `put_numbers`
    for index in 0..points.len() {
        numbers::put_coordinate(&mut *part, 4 * index, points[index]);
    }
}

// A payload of bytes.
fn put_bytes(part: &mut [u8], bytes: &[u8])
    requires { length bytes.now ≤ length part.old }
    ensures { part.new ≡ in_front bytes.now part.old }
{
    numbers::copy_each(part, bytes.len(), |place| bytes[place]);
}

// The first field. Answers where the next head goes.
fn write_opening(file: &mut [u8], form: Form, halfedges: u32, vertices: u32) -> usize
    requires { 9 ≤ length file.old }
    ensures { (result ≡ 9)
        × (file.new ≡ in_front (field opening (flat_map u16 (number form ∷ halfedges ∷ vertices ∷ []))) file.old) }
{
    put_head(&mut *file, 0, fields::OPENING, fields::COUNTS as u32);
    let payload = fields::HEAD;
    put_counts(&mut file[payload..], form, halfedges, vertices);
    payload + fields::COUNTS
}

// The field of TWIN, VERT or EDGE. Answers where the next head goes.
fn write_table(file: &mut [u8], at: usize, tag: u8, table: &[u32]) -> usize
    requires { (at + 3 + 2 * length table.now ≤ length file.old) × (length table.now < 65536) }
    ensures { let size = 2 * length table.now in
        (result ≡ at + 3 + size)
        × (file.new ≡ splice file.old at
        (field (record { tag = tag; size = size }) (flat_map u16 table.now))) }
{
    let size = 2 * table.len();
    put_head(&mut *file, at, tag, size as u32);
    let payload = at + fields::HEAD;
    put_numbers(&mut file[payload..], table);
    payload + size
}

// The field of the points. Answers where the next head goes.
fn write_points(file: &mut [u8], at: usize, points: &[i32]) -> usize
    requires { (at + 3 + 4 * length points.now ≤ length file.old) × (length points.now < 65536) }
    ensures { let size = 4 * length points.now in
        (result ≡ at + 3 + size)
        × (file.new ≡ splice file.old at
        (field (record { tag = 0x30; size = size }) (flat_map u32 (map twos points.now)))) }
{
    let size = 4 * points.len();
    put_head(&mut *file, at, fields::POINTS, size as u32);
    let payload = at + fields::HEAD;
    put_points(&mut file[payload..], points);
    payload + size
}

// A field of bytes. Answers where the next head goes.
fn write_bytes(file: &mut [u8], at: usize, tag: u8, bytes: &[u8]) -> usize
    requires { (at + 3 + length bytes.now ≤ length file.old) × (length bytes.now < 65536) }
    ensures { let size = length bytes.now in
        (result ≡ at + 3 + size)
        × (file.new ≡ splice file.old at (field (record { tag = tag; size = size }) bytes.now)) }
{
    let size = bytes.len();
    put_head(&mut *file, at, tag, size as u32);
    let payload = at + fields::HEAD;
    put_bytes(&mut file[payload..], bytes);
    payload + size
}

// The first field and the three tables'. Answers where the next head goes.
fn write_tables(file: &mut [u8], form: Form, tables: &Tables, vertices: usize) -> usize
    requires { let c = held tables.now in
        (18 + 6 * length c.twin ≤ length file.old) × (length c.twin ≤ most_halfedges) × (vertices < 65536)
        × (length c.vert ≡ length c.twin) × (length c.edge ≡ length c.twin) }
    ensures { let c = held tables.now in
        let H = length c.twin in
        (result ≡ 18 + 6 * H)
        × (file.new ≡ in_front (fields_fields (opening ∷ table_heads H) (table_payloads form c vertices)) file.old) }
{
    let halfedges = tables.twin.len() as u32;
    let twin_at = write_opening(&mut *file, form, halfedges, vertices as u32);
    let vert_at = write_table(&mut *file, twin_at, fields::TWIN, tables.twin);
    let edge_at = write_table(&mut *file, vert_at, fields::VERT, tables.vert);
    write_table(&mut *file, edge_at, fields::EDGE, tables.edge)
}

// The end field. Answers the file's length.
fn write_end(file: &mut [u8], at: usize) -> usize
    requires { at + 3 ≤ length file.old }
    ensures { (result ≡ at + 3) × (file.new ≡ splice file.old at (0x7F ∷ u16 0)) }
{
    put_head(&mut *file, at, fields::END, 0);
    at + fields::HEAD
}

// The file of form 1 of a cage that the check accepts, into a lent file with room for it. Answers the file's length.
fn write_plain(file: &mut [u8], tables: &Tables, points: &[i32]) -> usize
    requires { write_verdict One (plain (held tables.now) points.now) file.old ≡ DONE }
    ensures { let written = fields_file One (plain (held tables.now) points.now) in
        (result ≡ length written) × (file.new ≡ in_front written file.old) }
{
    let points_at = write_tables(&mut *file, Form::One, tables, points.len() / 3);
    let end_at = write_points(&mut *file, points_at, points);
    write_end(&mut *file, end_at)
}

// Of form 2.
fn write_creased(file: &mut [u8], cage: &Cage, weight: Weight) -> usize
    requires { write_verdict Two (weighted cage.now weight) file.old ≡ DONE }
    ensures { let written = fields_file Two (weighted cage.now weight) in
        (result ≡ length written) × (file.new ≡ in_front written file.old) }
{
    let creases_at = write_tables(&mut *file, Form::Two, &cage.tables, cage.vertices());
    let points_at = write_bytes(&mut *file, creases_at, fields::CREASES, cage.creases);
    let weight_at = write_points(&mut *file, points_at, cage.points);
    let byte = [u32::from(weight) as u8];
    let end_at = write_bytes(&mut *file, weight_at, fields::WEIGHT, &byte);
    write_end(&mut *file, end_at)
}

// Checks 1 to 8 of a cage for form 1, and then the room.
fn check_plain(tables: &Tables, points: &[i32], file: &[u8]) -> Result<(), Refusal>
    ensures { told result ≡ write_verdict One (plain (held tables.now) points.now)
        file.now }
{
    cage::check_plain(tables, points)?;
    if file.len() < 24 + 6 * tables.twin.len() + 12 * (points.len() / 3) {
        return Err(Refusal::Room(5));
    }
    Ok(())
}

// Checks 1 to 8 and 15 of a cage for form 2, and then the room.
fn check_creased(cage: &Cage, weight: Weight, file: &[u8]) -> Result<(), Refusal>
    ensures { told result ≡ write_verdict Two (weighted cage.now weight) file.now }
{
    cage.check_for_refining(0, Weight::Short)?;
    if file.len() < 31 + 6 * cage.tables.twin.len() + 12 * cage.vertices() + cage.creases.len() {
        return Err(Refusal::Room(5));
    }
    Ok(())
}

// Writes a cage's file of form 1 into a lent file: all checks first, then the fields. Answers the file's length.
pub fn write(tables: &Tables, points: &[i32], file: &mut [u8]) -> Result<usize, Refusal>
    ensures { let after = write_file One (plain (held tables.now) points.now) file.old in
        (wrote result ≡ after.answer) × (file.new ≡ after.file) }
{
    check_plain(tables, points, file)?;
    Ok(write_plain(file, tables, points))
}

// Of form 2, with creases and a weight.
pub fn write_form_2(cage: &Cage, weight: Weight, file: &mut [u8]) -> Result<usize, Refusal>
    ensures { let after = write_file Two (weighted cage.now weight) file.old in
        (wrote result ≡ after.answer) × (file.new ≡ after.file) }
{
    check_creased(cage, weight, file)?;
    Ok(write_creased(file, cage, weight))
}
