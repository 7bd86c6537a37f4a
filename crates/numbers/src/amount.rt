// An amount: a whole count of the last decimal place of its picture.
ghost use Rattle.std.specs.Prelude.{◌≡◌, ◌^◌, ◌<◌, pos, is_some, IfSome, nat_lt, unsigned_abs};
ghost use Rattle.numbers.specs.Limits.{widest};
ghost use Rattle.numbers.specs.Signs.{negative};

use crate::picture::Picture;
use crate::powers::ten;

// A count is below ten to the power of its digits in size. Zero has no sign.
#[derive(Clone, Copy, PartialEq, Eq, Debug)]
pub struct Amount {
    pub count: i64,
    pub picture: Picture,
    ghost fits: { unsigned_abs count < 10 ^ picture.digits },
}

impl Amount {
    // The amount of a count, unless it has more digits than the picture.
    pub fn new(count: i64, picture: Picture) -> Option<Amount>
        ensures made { is_some result ≡ nat_lt (unsigned_abs count) (10 ^ picture.digits) }
        ensures parts { IfSome result (λ a. (a.count ≡ count) × (a.picture ≡ picture)) }
    {
        // As `then`, its closure would need the test once more, as a `requires`: tried, and no shorter.
        if count.unsigned_abs() < ten(picture.digits) {
            Some(Amount { count, picture })
        } else {
            None
        }
    }

    // The amount that counts nothing.
    pub fn zero(picture: Picture) -> Amount
        ensures count { result.count ≡ pos 0 }
        ensures picture { result.picture ≡ picture }
    {
        Amount { count: 0, picture }
    }

    // The count without its sign.
    pub fn size(self) -> u64
        ensures value { result ≡ unsigned_abs self.count }
        ensures small { result < 10 ^ widest }
    {
        self.count.unsigned_abs()
    }

    // Whether the amount is below zero.
    pub fn is_negative(self) -> bool
        ensures { result ≡ negative self.count }
    {
        self.count.is_negative()
    }
}
