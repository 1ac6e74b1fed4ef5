// The other payloads of a file into the first cells of their tables.
ghost use Rattle.std.specs.Prelude.{◌≡◌, ◌+◌, ◌*◌, ◌≤◌, ◌<◌, length, get_or};
ghost use Rattle.laws.specs.Below.{tabulate};
ghost use Rattle.laws.specs.Parts.{in_front};
ghost use Rattle.cagefile.specs.Numbers.{u16_at, u32_at, signed};

use cagefile::numbers;

// The VERT or the EDGE payload, taken as it stands.
pub fn copy_numbers(file: &[u8], at: usize, table: &mut [u32], count: usize)
    requires { (at + 2 * count ≤ length file.now) × (count ≤ length table.old) }
    ensures { table.new ≡ in_front (tabulate count (λ h. u16_at file.now (at + 2 * h))) table.old }
{
    numbers::copy_each(table, count, |h| numbers::number_at(file, at + 2 * h));
}

// The points' payload.
pub fn copy_points(file: &[u8], at: usize, points: &mut [i32], count: usize)
    requires { (at + 4 * count ≤ length file.now) × (count ≤ length points.old) }
    ensures { points.new ≡ in_front (tabulate count (λ i. signed (u32_at file.now (at + 4 * i))))
        points.old }
{
    numbers::copy_each(points, count, |i| numbers::coordinate_at(file, at + 4 * i));
}

// The creases' payload, a byte for each edge.
pub fn copy_creases(file: &[u8], at: usize, creases: &mut [u8], count: usize)
    requires { (at + count ≤ length file.now) × (count ≤ length creases.old) }
    ensures { creases.new ≡ in_front (tabulate count (λ e. get_or file.now (at + e) 0)) creases.old }
{
    numbers::copy_each(creases, count, |e| file[at + e]);
}
