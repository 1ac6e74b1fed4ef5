// The levels of the crease table, end to end.
ghost use Rattle.std.specs.Prelude.{◌≡◌, suc, ◌-◌, ◌*◌, ◌^◌, ◌≤◌, length};
ghost use Rattle.laws.specs.Below.{tabulate, end_to_end};
ghost use Rattle.laws.specs.Parts.{in_front};
ghost use Rattle.laws.specs.Internal.Parts.{splice};
ghost use Rattle.halfedges.specs.Cage.{most_depth};
ghost use Rattle.creases.specs.Creases.{creases_at};
ghost use Rattle.creases.specs.Internal.Writing.{left_at, Writable, Fitting};

use halfedges::table::HalfedgeTable;

// Writes levels 0 to depth of a cage's crease table, end to end. Each is written straight from the cage's: the number of an
// edge of the cage goes to the edges that it was halved into, less one for each level.
pub fn write_creases(creases: &[u8], cage: HalfedgeTable, depth: usize, lent: &mut [u8])
    requires { Writable cage depth creases.now lent.old }
    ensures { lent.new ≡ in_front (end_to_end (suc depth) (creases_at cage creases.now)) lent.old }
{
    let mut table = cage;
    let mut at = 0;
    for level in 0..=depth {
        write_level(creases, level, at, table.edges, lent);
        at += table.edges;
        table = table.finer();
    }
}

// Writes a level of so many edges from a place on: those that come of the cage's edges, and then those across a triangle.
fn write_level(creases: &[u8], level: usize, at: usize, edges: usize, lent: &mut [u8])
    requires { Fitting creases.now level at edges lent.old }
    ensures { lent.new ≡ splice lent.old at (tabulate edges (left_at creases.now level)) }
{
    let across = at + (creases.len() << level);
    let end = at + edges;
    write_halves(creases, level, &mut lent[at..across]);
    lent[across..end].fill(0);
}

// Writes what is left of each number to the edges that its edge was halved into.
fn write_halves(creases: &[u8], level: usize, halves: &mut [u8])
    requires { (length halves.old ≡ length creases.now * 2 ^ level) × (level ≤ most_depth) }
    ensures { halves.new ≡ tabulate (length halves.old) (left_at creases.now level) }
{
    for half in 0..halves.len() {
        halves[half] = left_over(creases[half >> level], level);
    }
}

// A number less one for each level, never below 0.
fn left_over(number: u8, level: usize) -> u8
    ensures { result ≡ number - level }
{
    (number as usize).saturating_sub(level) as u8
}
