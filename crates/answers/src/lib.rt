// The answers of the operations as cells of 32 bits, of one halfedge of 64 bits, which any language can lend.
#![tactic(auto)]

ghost use Rattle.std.specs.Prelude.{◌≡◌, ◌<◌, [], ◌∷◌, length};
ghost use Rattle.halfedges.specs.Refusals.{told};
ghost use Rattle.answers.specs.Cells.{cells, length_cells, number_cell, stl_cells, level_numbers, level_cells, halfedge_cells};
ghost use Rattle.answers.specs.Internal.Fitting.{Fitting, Sevens};

use crate::telling::Tells;
use climbing::rows::Cells;
use halfedges::refusal;
use halfedges::refusal::Refusal;
use halfedges::table::Levels;

pub mod telling;

// Number, place, H, E, F, V and B.
pub fn of_check<C: Tells<[usize; 5]>>(checked: C) -> [u32; 7]
    requires { Fitting (cells (C.said checked)) }
    ensures { result ≡ cells (C.said checked) }
{
    let (verdict, numbers) = checked.tell();
    of_five(verdict, numbers)
}

// Number, place and the three corners.
pub fn of_corners<C: Tells<[u32; 3]>>(corners: C) -> [u32; 5]
    requires { Fitting (cells (record { verdict = (C.said corners).verdict; values = [] }))
        × (length (C.said corners).values ≡ 3) }
    ensures { result ≡ cells (C.said corners) }
{
    let (verdict, numbers) = corners.tell();
    let [first, second, third] = numbers;
    let number = number_of(verdict);
    let place = refusal::place(&verdict) as u32;
    [number, place, first, second, third]
}

// Number, place, form, H, V, E and weight.
pub fn of_reading<R: Tells<[usize; 5]>>(read: R) -> [u32; 7]
    requires { Fitting (cells (R.said read)) }
    ensures { result ≡ cells (R.said read) }
{
    let (verdict, numbers) = read.tell();
    of_five(verdict, numbers)
}

// Number, place and the file's length.
pub fn of_writing<W: Tells<usize>>(written: W) -> [u32; 3]
    requires { Fitting (length_cells (W.said written)) }
    ensures { result ≡ length_cells (W.said written) }
{
    let (verdict, length) = written.tell();
    [
        number_of(verdict),
        refusal::place(&verdict) as u32,
        length as u32,
    ]
}

// Number, place, and the clause with its three numbers.
pub fn of_why<W: Tells<[u32; 4]>>(why: W) -> [u32; 6]
    requires { Fitting (cells (record { verdict = (W.said why).verdict; values = [] })) }
    ensures { result ≡ cells (W.said why) }
{
    let (verdict, numbers) = why.tell();
    let [clause, first, second, third] = numbers;
    let number = number_of(verdict);
    let place = refusal::place(&verdict) as u32;
    [number, place, clause, first, second, third]
}

// Number, place, TWIN, VERT and EDGE, in cells of 64 bits, which a place of any halfedge fits.
pub fn of_halfedge<A: Tells<Cells>>(asked: A) -> [u64; 5]
    ensures { result ≡ halfedge_cells (A.said asked) }
{
    let (verdict, cells) = asked.tell();
    [
        number_of(verdict) as u64,
        refusal::place(&verdict) as u64,
        cells.twin as u64,
        cells.vert as u64,
        cells.edge as u64,
    ]
}

// The number of what is told, 0 of done: none is too large for a cell.
fn number_of(verdict: Result<(), Refusal>) -> u32
    ensures { result ≡ (told verdict).number }
{
    match verdict {
        Ok(_) => 0,
        Err(refusal) => refusal.number() as u32,
    }
}

// Number, place and five numbers.
fn of_five(verdict: Result<(), Refusal>, numbers: [usize; 5]) -> [u32; 7]
    requires { Fitting (cells (record { verdict = told verdict; values = numbers })) }
    ensures { result ≡ cells (record { verdict = told verdict; values = numbers }) }
{
    let [first, second, third, fourth, fifth] = numbers;
    [
        number_of(verdict),
        refusal::place(&verdict) as u32,
        first as u32,
        second as u32,
        third as u32,
        fourth as u32,
        fifth as u32,
    ]
}

// A number as a cell: one that does not fit is told as the largest that does.
pub fn number_cell(number: usize) -> u32
    ensures { result ≡ number_cell number }
{
    if number < 4294967296 {
        return number as u32;
    }
    4294967295
}

// Number, place and the length of an STL file.
pub fn of_stl<W: Tells<usize>>(written: W) -> [u32; 3]
    requires { (W.said written).values < 4294967296 }
    ensures { result ≡ stl_cells (W.said written) }
{
    let (verdict, bytes) = written.tell();
    [
        number_of(verdict),
        number_cell(refusal::place(&verdict)),
        bytes as u32,
    ]
}

// Seven numbers as cells.
fn of_seven(numbers: [usize; 7]) -> [u32; 7]
    requires { Fitting numbers × (length numbers ≡ 7) }
    ensures { result ≡ numbers }
{
    [
        numbers[0] as u32,
        numbers[1] as u32,
        numbers[2] as u32,
        numbers[3] as u32,
        numbers[4] as u32,
        numbers[5] as u32,
        numbers[6] as u32,
    ]
}

// Number, place, H, E and V of the seven levels, and the three rooms.
pub fn of_counts<C: Tells<Levels>>(counted: C) -> [u32; 26]
    requires { Sevens (C.said counted).values × Fitting (level_cells (C.said counted)) }
    ensures { result ≡ level_cells (C.said counted) }
{
    let (verdict, levels) = counted.tell();
    of_levels(number_of(verdict), refusal::place(&verdict) as u32, levels)
}

// The same of a number, a place and levels.
fn of_levels(number: u32, place: u32, levels: Levels) -> [u32; 26]
    requires { Sevens levels × Fitting (level_numbers levels) }
    ensures { result ≡ number ∷ place ∷ level_numbers levels }
{
    let h = of_seven(levels.halfedges);
    let e = of_seven(levels.edges);
    let v = of_seven(levels.vertices);
    let halfedge_room = levels.halfedge_room as u32;
    let vertex_room = levels.vertex_room as u32;
    let edge_room = levels.edge_room as u32;
    [
        number,
        place,
        h[0],
        h[1],
        h[2],
        h[3],
        h[4],
        h[5],
        h[6],
        e[0],
        e[1],
        e[2],
        e[3],
        e[4],
        e[5],
        e[6],
        v[0],
        v[1],
        v[2],
        v[3],
        v[4],
        v[5],
        v[6],
        halfedge_room,
        vertex_room,
        edge_room,
    ]
}
