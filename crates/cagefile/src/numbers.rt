// Numbers in bytes: little-endian, and two's complement for coordinates; and a table filled with what is read.
ghost use Rattle.std.specs.Prelude.{◌≡◌, ℕ, ◌+◌, ◌≤◌, ◌<◌, length};
ghost use Rattle.laws.specs.Below.{tabulate};
ghost use Rattle.laws.specs.Parts.{in_front};
ghost use Rattle.laws.specs.Internal.Parts.{splice};
ghost use Rattle.cagefile.specs.Numbers.{u16, u32, twos, u16_at, u32_at, signed as reading_signed};

// The number in two bytes.
pub fn number_at(file: &[u8], at: usize) -> u32
    requires { at + 2 ≤ length file.now }
    ensures { (result ≡ u16_at file.now at) × (result < 65536) }
{
    u16::from_le_bytes([file[at], file[at + 1]]) as u32
}

// A number into two bytes; of a larger number, its last two.
pub fn put_number(part: &mut [u8], at: usize, number: u32)
    requires { at + 2 ≤ length part.old }
    ensures { part.new ≡ splice part.old at (u16 number) }
{
    let bytes = number.to_le_bytes();
    part[at..at + 2].copy_from_slice(&bytes[..2]);
}

// The coordinate in four bytes.
pub fn coordinate_at(file: &[u8], at: usize) -> i32
    requires { at + 4 ≤ length file.now }
    ensures { result ≡ reading_signed (u32_at file.now at) }
{
    i32::from_le_bytes([file[at], file[at + 1], file[at + 2], file[at + 3]])
}

// A number into four bytes.
pub fn put_word(part: &mut [u8], at: usize, word: u32)
    requires { at + 4 ≤ length part.old }
    ensures { part.new ≡ splice part.old at (u32 word) }
{
    part[at..at + 4].copy_from_slice(&word.to_le_bytes());
}

// A coordinate into four bytes.
pub fn put_coordinate(part: &mut [u8], at: usize, coordinate: i32)
    requires { at + 4 ≤ length part.old }
    ensures { part.new ≡ splice part.old at (u32 (twos coordinate)) }
{
    put_word(&mut *part, at, coordinate.cast_unsigned());
}

// The first cells of a table, each as `read` gives it.
pub fn copy_each<T: Copy, F: Fn(usize) -> T>(table: &mut [T], count: usize, read: F)
    requires fits { count ≤ length table.old }
    requires reads { (i : ℕ) → i < count → F.pre read i }
    ensures { (cell : ℕ → T) → ((i : ℕ) (x : T) → i < count → F.post read i x → x ≡ cell i)
        → table.new ≡ in_front (tabulate count cell) table.old }
{
    for index in 0..count {
        table[index] = read(index);
    }
}
