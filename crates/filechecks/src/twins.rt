// The TWIN payload of a file.
ghost use Rattle.std.specs.Prelude.{◌≡◌, ◌+◌, ◌*◌, ◌≤◌, length};
ghost use Rattle.laws.specs.Below.{tabulate};
ghost use Rattle.laws.specs.Parts.{in_front};
ghost use Rattle.cagefile.specs.Numbers.{u16_at, as_twin};

use cagefile::{fields, numbers};
use halfedges::table::HalfedgeTable;

// Where the TWIN payload stands, after the first field and its own head.
pub const TWIN_AT: usize = 12;

// A number of the TWIN payload as a twin: only 65535 becomes the marker.
fn as_twin(number: u32) -> u32
    ensures { result ≡ as_twin number }
{
    if number == fields::NO_TWIN {
        HalfedgeTable::NO_TWIN
    } else {
        number
    }
}

// The TWIN payload into the first cells of a table.
pub fn copy_twins(file: &[u8], at: usize, twin: &mut [u32], count: usize)
    requires { (at + 2 * count ≤ length file.now) × (count ≤ length twin.old) }
    ensures { twin.new ≡ in_front (tabulate count (λ h. as_twin (u16_at file.now (at + 2 * h)))) twin.old }
{
    numbers::copy_each(twin, count, |h| {
        as_twin(numbers::number_at(file, at + 2 * h))
    });
}
