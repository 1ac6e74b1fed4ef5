// The weight of one spoke of an inner vertex.
ghost use Rattle.std.specs.Prelude.{◌≡◌, ◌≤◌};
ghost use Rattle.points.specs.Weights.{entry as weights_entry, share as weights_share, weight_of, weight_number};
ghost use Rattle.points.specs.Internal.Relied.{most_corners};

// Which weight is chosen: document 01's, or that of the paper's rule V.3.
#[derive(Clone, Copy)]
pub enum Weight {
    Short,
    Paper,
}

// What one spoke has: a part of a whole.
#[derive(Clone, Copy)]
pub struct Share {
    pub part: u32,
    pub whole: u32,
}

// The most corners that an inner vertex has where the paper's weight is chosen.
pub const MOST_VALENCE: u32 = 32;

// The paper's weight is a part of 2^24.
const WHOLE: u32 = 16777216;

// Its parts at valences 2 to 32.
const ENTRIES: [u32; 31] = [
    5111808, 3145728, 2031616, 1410850, 1048576, 822502, 672226, 566819, 489521, 430729, 384646,
    347611, 317220, 291840, 270323, 251848, 235807, 221745, 209313, 198239, 188310, 179354, 171233,
    163834, 157062, 150842, 145105, 139799, 134874, 130292, 126016,
];

// The weight of a number: 0 for the short one, and any other for the paper's.
impl From<u32> for Weight {
    ghost from_gives = { λ number weight. weight ≡ weight_of number };

    fn from(number: u32) -> Weight {
        if number == 0 {
            return Weight::Short;
        }
        Weight::Paper
    }
}

// Its number in a file.
impl From<Weight> for u32 {
    ghost from_gives = { λ weight number. number ≡ weight_number weight };

    fn from(weight: Weight) -> u32 {
        match weight {
            Weight::Short => 0,
            Weight::Paper => 1,
        }
    }
}

impl Weight {
    // What one spoke of a vertex with so many corners has.
    pub fn share(self, corners: u32) -> Share
        requires { corners ≤ most_corners }
        ensures { result ≡ weights_share self corners }
    {
        match self {
            Weight::Short => Share {
                part: 3,
                whole: 8 * corners,
            },
            Weight::Paper => Share {
                part: entry(corners),
                whole: WHOLE,
            },
        }
    }
}

// The paper's weight: the valences where it is exact, those of the table, and the rest, which has none. Inside, that is refused.
fn entry(corners: u32) -> u32
    ensures { result ≡ weights_entry corners }
{
    match corners {
        2 => 5111808,
        3 => 3145728,
        4 => 2031616,
        6 => 1048576,
        2..=MOST_VALENCE => ENTRIES[corners as usize - 2],
        _ => 0,
    }
}
