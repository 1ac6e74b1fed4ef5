// The library for programs in C, C++ and Rust: each operation on numbers, slices and one lent answer.
#![tactic(auto)]

ghost use Rattle.std.specs.Prelude.{◌≡◌, [], ◌∷◌};
ghost use Rattle.halfedges.specs.Cage.{E};
ghost use Rattle.halfedges.specs.Counts.{count_question};
ghost use Rattle.halfedges.specs.Corners.{corner_question};
ghost use Rattle.tables.specs.Tables.{tables};
ghost use Rattle.points.specs.Weights.{weight_of};
ghost use Rattle.points.specs.Operations.{check_creased, refine_cage};
ghost use Rattle.why.specs.Why.{why_cage};
ghost use Rattle.climbing.specs.Halfedge.{halfedge_question};
ghost use Rattle.building.specs.Building.{build_cage};
ghost use Rattle.reading.specs.Reading.{read_file};
ghost use Rattle.cagefile.specs.declared.fields.Form.TheVariants.{One, Two};
ghost use Rattle.writing.specs.Writing.{plain, write_file};
ghost use Rattle.moves.specs.Moves.{move};
ghost use Rattle.stl.specs.Writing.{write_stl};
ghost use Rattle.answers.specs.Cells.{cells as cells_cells, length_cells, number_cell, stl_cells, level_cells, clause_cells, halfedge_cells};

use answers;
use building;
use cage::Cage;
use climbing;
use halfedges::corners;
use halfedges::table::HalfedgeTable;
use moves;
use points::weights::Weight;
use reading;
use refining;
use stl;
use tables::{Tables, rules};
use why;
use writing;

// The cage check 1 to 8 and 15.
#[unsafe(no_mangle)]
pub extern "C" fn ryebadger_check(
    twin: &[u32],
    vert: &[u32],
    edge: &[u32],
    points: &[i32],
    creases: &[u8],
    answer: &mut [u32; 7],
)
    ensures { answer.new
        ≡ cells_cells (check_creased (tables twin.now vert.now edge.now) creases.now
        points.now) }
{
    let tables = Tables { twin, vert, edge };
    let cage = Cage {
        tables,
        points,
        creases,
    };
    *answer = answers::of_check(cage.check());
}

// Why a cage is sent back: number and place of the check, and the clause of the rule that is broken.
#[unsafe(no_mangle)]
pub extern "C" fn ryebadger_why(
    twin: &[u32],
    vert: &[u32],
    edge: &[u32],
    points: &[i32],
    creases: &[u8],
    answer: &mut [u32; 6],
)
    ensures { answer.new
        ≡ clause_cells (why_cage (tables twin.now vert.now edge.now) creases.now
        points.now) }
{
    let tables = Tables { twin, vert, edge };
    let cage = Cage {
        tables,
        points,
        creases,
    };
    *answer = answers::of_why(why::explain(&cage));
}

// How many edges a twin table has, which is how long its crease table has to be.
#[unsafe(no_mangle)]
pub extern "C" fn ryebadger_edges(twin: &[u32], answer: &mut [u32; 1])
    ensures { answer.new ≡ number_cell (E twin.now) ∷ [] }
{
    let edges = rules::count_edges(twin);
    *answer = [answers::number_cell(edges)];
}

// Building TWIN and EDGE from VERT and the points, in front of two lent tables.
#[unsafe(no_mangle)]
pub extern "C" fn ryebadger_build(
    vert: &[u32],
    points: &[i32],
    twin: &mut [u32],
    edge: &mut [u32],
    answer: &mut [u32; 7],
)
    ensures { let after = build_cage vert.now points.now twin.old edge.old in
        (answer.new ≡ cells_cells after.answer) × (twin.new ≡ after.twin) × (edge.new ≡ after.edge) }
{
    let checked = building::build(vert, points, twin, edge);
    *answer = answers::of_check(checked);
}

// The count question.
#[unsafe(no_mangle)]
pub extern "C" fn ryebadger_counts(
    halfedges: usize,
    edges: usize,
    vertices: usize,
    depth: usize,
    answer: &mut [u32; 26],
)
    ensures { answer.new
        ≡ level_cells (count_question (record { halfedges = halfedges; edges = edges; vertices = vertices }) depth) }
{
    let table = HalfedgeTable {
        halfedges,
        edges,
        vertices,
    };
    let counted = table.count(depth);
    *answer = answers::of_counts(counted);
}

// Refining: levels 0 to the depth end to end in five lent tables, by the weight whose number is given.
#[unsafe(no_mangle)]
pub extern "C" fn ryebadger_refine(
    twin: &[u32],
    vert: &[u32],
    edge: &[u32],
    points: &[i32],
    creases: &[u8],
    depth: usize,
    weight: u32,
    twins: &mut [u32],
    verts: &mut [u32],
    edges: &mut [u32],
    places: &mut [i32],
    seams: &mut [u8],
    answer: &mut [u32; 26],
)
    ensures { let after = refine_cage (weight_of weight) (tables twin.now vert.now edge.now)
        creases.now points.now depth (tables twins.old verts.old edges.old)
        places.old seams.old in
        (answer.new ≡ level_cells after.answer)
        × (tables twins.new verts.new edges.new ≡ after.lent)
        × (places.new ≡ after.points) × (seams.new ≡ after.creases) }
{
    let tables = Tables { twin, vert, edge };
    let cage = Cage {
        tables,
        points,
        creases,
    };
    let chosen = Weight::from(weight);
    let counted = refining::refine(&cage, depth, chosen, twins, verts, edges, places, seams);
    *answer = answers::of_counts(counted);
}

// The corner question.
#[unsafe(no_mangle)]
pub extern "C" fn ryebadger_corners(vert: &[u32], triangle: usize, answer: &mut [u32; 5])
    ensures { answer.new ≡ cells_cells (corner_question vert.now triangle) }
{
    let corners = corners::corner_question(vert, triangle);
    *answer = answers::of_corners(corners);
}

// One halfedge of a level, from the cage's tables and V alone.
#[unsafe(no_mangle)]
pub extern "C" fn ryebadger_halfedge(
    twin: &[u32],
    vert: &[u32],
    edge: &[u32],
    vertices: usize,
    depth: usize,
    halfedge: usize,
    answer: &mut [u64; 5],
)
    ensures { answer.new
        ≡ halfedge_cells (halfedge_question (tables twin.now vert.now edge.now) vertices depth halfedge) }
{
    let cage = Tables { twin, vert, edge };
    let asked = climbing::ask(&cage, vertices, depth, halfedge);
    *answer = answers::of_halfedge(asked);
}

// Reading a cage file of either form into five lent tables.
#[unsafe(no_mangle)]
pub extern "C" fn ryebadger_read(
    file: &[u8],
    twin: &mut [u32],
    vert: &mut [u32],
    edge: &mut [u32],
    points: &mut [i32],
    creases: &mut [u8],
    answer: &mut [u32; 7],
)
    ensures { let after = read_file file.now (tables twin.old vert.old edge.old)
        points.old creases.old in
        (answer.new ≡ cells_cells after.answer)
        × (tables twin.new vert.new edge.new ≡ after.lent)
        × (points.new ≡ after.points) × (creases.new ≡ after.creases) }
{
    let reading = reading::read(file, twin, vert, edge, points, creases);
    *answer = answers::of_reading(reading);
}

// Writing a cage's file of form 1 into a lent file.
#[unsafe(no_mangle)]
pub extern "C" fn ryebadger_write(
    twin: &[u32],
    vert: &[u32],
    edge: &[u32],
    points: &[i32],
    file: &mut [u8],
    answer: &mut [u32; 3],
)
    ensures { let c = tables twin.now vert.now edge.now in
        let after = write_file One (plain c points.now) file.old in
        (answer.new ≡ length_cells after.answer) × (file.new ≡ after.file) }
{
    let tables = Tables { twin, vert, edge };
    let writing = writing::write(&tables, points, file);
    *answer = answers::of_writing(writing);
}

// Of form 2, with creases and the weight whose number is given.
#[unsafe(no_mangle)]
pub extern "C" fn ryebadger_write_form_2(
    twin: &[u32],
    vert: &[u32],
    edge: &[u32],
    points: &[i32],
    creases: &[u8],
    weight: u32,
    file: &mut [u8],
    answer: &mut [u32; 3],
)
    ensures { let c = tables twin.now vert.now edge.now in
        let after = write_file Two
        (record { connectivity = c; points = points.now; creases = creases.now; weight = weight_of weight })
        file.old in
        (answer.new ≡ length_cells after.answer) × (file.new ≡ after.file) }
{
    let tables = Tables { twin, vert, edge };
    let cage = Cage {
        tables,
        points,
        creases,
    };
    let told = Weight::from(weight);
    let writing = writing::write_form_2(&cage, told, file);
    *answer = answers::of_writing(writing);
}

// The move of a file of form 1 to form 2, into a lent file.
#[unsafe(no_mangle)]
pub extern "C" fn ryebadger_to_form_2(file: &[u8], lent: &mut [u8], answer: &mut [u32; 3])
    ensures { let after = move One Two file.now lent.old in
        (answer.new ≡ length_cells after.answer) × (lent.new ≡ after.file) }
{
    let writing = moves::to_form_2(file, lent);
    *answer = answers::of_writing(writing);
}

// The move back.
#[unsafe(no_mangle)]
pub extern "C" fn ryebadger_to_form_1(file: &[u8], lent: &mut [u8], answer: &mut [u32; 3])
    ensures { let after = move Two One file.now lent.old in
        (answer.new ≡ length_cells after.answer) × (lent.new ≡ after.file) }
{
    let writing = moves::to_form_1(file, lent);
    *answer = answers::of_writing(writing);
}

// Writing any level's STL into a lent file.
#[unsafe(no_mangle)]
pub extern "C" fn ryebadger_write_stl(
    vert: &[u32],
    points: &[i32],
    file: &mut [u8],
    answer: &mut [u32; 3],
)
    ensures { let after = write_stl vert.now points.now file.old in
        (answer.new ≡ stl_cells after.answer) × (file.new ≡ after.file) }
{
    let writing = stl::write_stl(vert, points, file);
    *answer = answers::of_stl(writing);
}
