// The picture of a numeric field: how many digits it has, and how many of them are decimals.
ghost use Rattle.std.specs.Prelude.{◌≡◌, ◌≤◌, is_some, IfSome};
ghost use Rattle.numbers.specs.Limits.{is_picture, widest};

// The digits of the widest numeric field.
pub const WIDEST: u8 = 9;

// Only sound pictures exist: `new` is the way to one.
#[derive(Clone, Copy, PartialEq, Eq, Debug)]
pub struct Picture {
    pub digits: u8,
    pub decimals: u8,
    ghost some: { 1 ≤ digits },
    ghost few: { digits ≤ widest },
    ghost inside: { decimals ≤ digits },
}

impl Picture {
    // The picture of a field, unless it has no digit, too many, or more decimals than digits.
    pub fn new(digits: u8, decimals: u8) -> Option<Picture>
        ensures made { is_some result ≡ is_picture digits decimals }
        ensures parts { IfSome result (λ p. (p.digits ≡ digits) × (p.decimals ≡ decimals)) }
    {
        // As `then`, its closure would need the test once more, as a `requires`: tried, and no shorter.
        if (1..=WIDEST).contains(&digits) && decimals <= digits {
            Some(Picture { digits, decimals })
        } else {
            None
        }
    }
}
