// Decimal numbers in a text.
ghost use Rattle.std.specs.Prelude.{◌≡◌, true, ℕ, ◌-◌, ◌^◌, ◌≤◌, ◌<◌, length, get_or, SomeIff};
ghost use Rattle.text.specs.Numbers.{is_digit, digit_count, worth, number_in, number_at};

// The most digits that a number has.
const MOST_DIGITS: usize = 20;

// A number of 64 bits, and where the text goes on after it.
#[derive(Clone, Copy)]
pub struct Number {
    pub value: usize,
    pub next: usize,
}

// The number of at most twenty digits that stands from a place on, with a certain byte after it; or none.
pub fn number_at(text: &[u8], at: usize, after: u8) -> Option<Number>
    ensures { result ≡ number_at text.now at after }
{
    let number = number_in(text.get(at..)?, after)?;
    Some(Number {
        value: number.value,
        next: at + number.next,
    })
}

// The number of at most twenty digits at the front of a text, with a certain byte after it.
fn number_in(text: &[u8], after: u8) -> Option<Number>
    ensures { result ≡ number_in text.now after }
{
    let digits = digit_count(text);
    if digits == 0 || MOST_DIGITS < digits || digits == text.len() || text[digits] != after {
        return None;
    }
    let value = worth(&text[..digits])?;
    Some(Number {
        value,
        next: digits + 1,
    })
}

// How many digits a text starts with.
fn digit_count(text: &[u8]) -> usize
    ensures { result ≡ digit_count text.now }
{
    text.iter()
        .position(|byte| !byte.is_ascii_digit())
        .unwrap_or(text.len())
}

// The number that some digits make, where it fits.
fn worth(digits: &[u8]) -> Option<usize>
    requires { (k : ℕ) → k < length digits.now → is_digit (get_or digits.now k 0) ≡ true }
    ensures { SomeIff result (worth 0 digits.now < 2 ^ 64) (worth 0 digits.now) }
{
    let mut value: usize = 0;
    for byte in digits {
        let digit = (byte - b'0') as usize;
        value = value.checked_mul(10)?.checked_add(digit)?;
    }
    Some(value)
}
