// The forms of the file, and its fields: their tags, and what their heads take.
ghost use Rattle.std.specs.Prelude.{◌≡◌, ◌≢◌, MatchResult};
ghost use Rattle.cagefile.specs.Fields.{number as fields_number};

// Form 1, and form 2, which has creases and a weight besides.
#[derive(Clone, Copy)]
pub enum Form {
    One,
    Two,
}

// What is said of a number that no form has.
#[derive(Clone, Copy)]
pub struct UnknownForm;

// The number that stands in the first field.
impl From<Form> for u32 {
    ghost from_gives = { λ form number. number ≡ fields_number form };

    fn from(form: Form) -> u32 {
        match form {
            Form::One => 1,
            Form::Two => 2,
        }
    }
}

// The form that has a number, if there is one.
impl TryFrom<u32> for Form {
    type Error = UnknownForm;

    ghost try_from_gives = { λ number answer. MatchResult answer (λ form. number ≡ fields_number form) (λ _. (form : _) → number ≢ fields_number form) };

    fn try_from(number: u32) -> Result<Form, UnknownForm> {
        match number {
            1 => Ok(Form::One),
            2 => Ok(Form::Two),
            _ => Err(UnknownForm),
        }
    }
}

// The tags, in the file's order.
pub const OPENING: u8 = 0x10;

pub const TWIN: u8 = 0x20;

pub const VERT: u8 = 0x21;

pub const EDGE: u8 = 0x22;

pub const CREASES: u8 = 0x23;

pub const POINTS: u8 = 0x30;

pub const WEIGHT: u8 = 0x31;

pub const END: u8 = 0x7F;

// What a head takes: the tag and the length.
pub const HEAD: usize = 3;

// What the first payload takes: the form, H and V.
pub const COUNTS: usize = 6;

// What stands in the TWIN payload where there is no twin.
pub const NO_TWIN: u32 = 65535;
