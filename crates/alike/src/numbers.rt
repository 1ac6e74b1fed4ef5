// Small numbers in place of any: alike exactly where those are, so that items can be grouped by them.
ghost use Rattle.std.specs.Prelude.{ℕ, ◌/◌, ◌%◌, ◌≤◌, ◌<◌, ◌≡◌, true, length, get_or};
ghost use Rattle.alike.specs.Internal.Alike.{bound};
ghost use Rattle.alike.specs.Internal.Narrowed.{Small, Halved, Narrowed};

use crate::{BOUND, find_firsts};

// The bound as a number of a table: a digit is below it.
const DIGIT: u32 = 4096;

// Whether numbers can be groups and labels as they are.
pub fn are_small(numbers: &[u32]) -> bool
    ensures { result ≡ true → Small numbers.now }
{
    numbers.iter().all(|&number| number < DIGIT)
}

// Of each number the first place where it stands: a number below the bound. It is found by three digits, two at a time.
pub fn narrow(numbers: &[u32], small: &mut [u32])
    requires { (length numbers.now ≤ bound) × (length numbers.now ≤ length small.old) }
    ensures { Narrowed numbers.now small.new }
{
    let mut upper = [0u32; BOUND];
    let mut low = [0u32; BOUND];
    split(numbers, &mut upper, &mut low);
    let mut first = [0u32; BOUND];
    narrow_upper(&upper[..numbers.len()], &mut first);
    find_firsts(&first[..numbers.len()], &low[..numbers.len()], small);
}

// The same of numbers of two digits.
fn narrow_upper(numbers: &[u32], small: &mut [u32])
    requires numbers_len_bound { (length numbers.now ≤ bound) × (length numbers.now ≤ length small.old) }
    requires by_index { (k : ℕ) → k < length numbers.now → get_or numbers.now k 0 / bound < bound }
    ensures { Narrowed numbers.now small.new }
{
    let mut high = [0u32; BOUND];
    let mut low = [0u32; BOUND];
    split(numbers, &mut high, &mut low);
    find_firsts(&high[..numbers.len()], &low[..numbers.len()], small);
}

// The last digit of each number, and what stands before it.
fn split(numbers: &[u32], upper: &mut [u32], low: &mut [u32])
    requires { (length numbers.now ≤ length upper.old) × (length numbers.now ≤ length low.old) }
    ensures { Halved numbers.now (length numbers.now) upper.new low.new }
{
    for place in 0..numbers.len() {
        let number = numbers[place];
        upper[place] = number / DIGIT;
        low[place] = number % DIGIT;
    }
}
