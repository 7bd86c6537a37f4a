// Powers of ten, up to the size of a product of two counts. From a table: `pow` took 2 to 16 times as long.
ghost use Rattle.std.specs.Prelude.{◌≡◌, ◌+◌, ◌^◌, ◌≤◌};
ghost use Rattle.numbers.specs.Limits.{widest};

const POWERS: usize = 19;

const TENS: [u64; POWERS] = [
    1,
    10,
    100,
    1_000,
    10_000,
    100_000,
    1_000_000,
    10_000_000,
    100_000_000,
    1_000_000_000,
    10_000_000_000,
    100_000_000_000,
    1_000_000_000_000,
    10_000_000_000_000,
    100_000_000_000_000,
    1_000_000_000_000_000,
    10_000_000_000_000_000,
    100_000_000_000_000_000,
    1_000_000_000_000_000_000,
];

// Ten to the power of k.
pub(crate) fn ten(k: u8) -> u64
    requires { k ≤ widest + widest }
    ensures value { result ≡ 10 ^ k }
    ensures some { 1 ≤ result }
    ensures small { result ≤ 10 ^ (widest + widest) }
{
    TENS[k as usize]
}
