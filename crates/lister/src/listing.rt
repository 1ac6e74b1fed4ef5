// The listing of a file's bytes: read, checked and listed, or the refusal.
ghost use Rattle.std.specs.Prelude.{◌≡◌, [], ◌∷◌, ◌++◌, ◌+◌, ◌*◌, ◌≤◌, IfOk, Ok, length};
ghost use Rattle.io.specs.Counts.{IsPrefixLen};
ghost use Rattle.laws.specs.Below.{end_to_end};
ghost use Rattle.halfedges.specs.Cage.{most_halfedges};
ghost use Rattle.text.specs.Lines.{decimal, line};
ghost use Rattle.text.specs.Replies.{Says};
ghost use Rattle.text.specs.Internal.Put.{Put, Replied};
ghost use Rattle.text.specs.Internal.LevelWords.{words_of};
ghost use Rattle.lister.specs.Listing.{level_line, level_lines, listing};
ghost use Rattle.lister.specs.Internal.Doubling.{doubled};
ghost use Rattle.lister.specs.Internal.Steps.{Small, checked_listing};

use halfedges::refusal::Refusal;
use halfedges::table::{HalfedgeTable, Levels};
use tables::check::Checked;
use text::lines::LevelCounts;
use text::replies::{Status, Written};
use text::{lines, replies};

// The reply to any bytes, its text at the front of out.
pub fn list(file: &[u8], out: &mut [u8; 1024]) -> Written
    ensures says { Says (listing file.now) out.old out.new result }
    ensures prefix_len { IsPrefixLen result.length out.new }
{
    match check_file(file) {
        Ok(checked) => put_listing(&mut *out, checked),
        Err(refusal) => replies::put_refusal(&mut *out, Err(refusal)),
    }
}

// The check of the cage in a file, read into tables that have room for any.
fn check_file(file: &[u8]) -> Result<Checked, Refusal>
    ensures small { IfOk result Small }
    ensures listed { checked_listing result ≡ listing file.now }
{
    let mut twin = [0u32; HalfedgeTable::MOST_HALFEDGES];
    let mut vert = [0u32; HalfedgeTable::MOST_HALFEDGES];
    let mut edge = [0u32; HalfedgeTable::MOST_HALFEDGES];
    let mut points = [0i32; 3 * HalfedgeTable::MOST_VERTICES];
    intake::check_file(file, &mut twin, &mut vert, &mut edge, &mut points)
}

// The listing of a cage that was accepted.
fn put_listing(out: &mut [u8], checked: Checked) -> Written
    requires { Small checked × (1024 ≤ length out.old) }
    ensures { Replied out.old 1024 (checked_listing (Ok checked)) out.new result }
{
    let table = HalfedgeTable {
        halfedges: checked.halfedges,
        edges: checked.edges,
        vertices: checked.vertices,
    };
    let length = put_levels(
        &mut *out,
        table.levels(HalfedgeTable::MOST_DEPTH),
        checked.borders,
    );
    Written {
        status: Status::Answered,
        length,
    }
}

// The seven levels' lines, and the room.
fn put_levels(out: &mut [u8], levels: Levels, borders: usize) -> usize
    requires { (borders ≤ most_halfedges) × (1024 ≤ length out.old) }
    ensures { Put out.old 0 1024 (level_lines levels (doubled borders)) out.new result }
{
    let next = put_lines(&mut *out, levels, borders);
    lines::put_room(&mut *out, next, levels)
}

// The seven levels' lines; the border edges double from one to the next.
fn put_lines(out: &mut [u8], levels: Levels, borders: usize) -> usize
    requires { (borders ≤ most_halfedges) × (1024 ≤ length out.old) }
    ensures { Put out.old 0 882 (end_to_end 7 (level_line levels (doubled borders))) out.new result }
{
    let mut at = 0;
    let mut level_borders = borders;
    for level in 0..=HalfedgeTable::MOST_DEPTH {
        at = put_level(
            &mut *out,
            at,
            lines::counts_of(levels, level),
            level_borders,
        );
        level_borders = 2 * level_borders;
    }
    at
}

// The line of a level: its number, H, E, F, V and B.
fn put_level(out: &mut [u8], at: usize, counts: LevelCounts, borders: usize) -> usize
    requires { at + 126 ≤ length out.old }
    ensures { Put out.old at 126 (line (words_of counts ++ (decimal borders ∷ []))) out.new result }
{
    let next = lines::put_counts(&mut *out, at, counts, lines::SPACE);
    lines::put_number(&mut *out, next, borders, lines::NEWLINE)
}
