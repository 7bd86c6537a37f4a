ghost use Rattle.std.specs.Prelude.{◌≡◌};
ghost use Rattle.devices.specs.Refusals.{number_of};
ghost use Rattle.devices.specs.declared.refusal.Refusal.TheVariants.{NoMemory};

use std::alloc::AllocError;

// Why a device was not made, or did not do what it was asked to.
#[derive(Clone, Copy, PartialEq, Eq, Debug)]
pub enum Refusal {
    // The printer would be too small for a line: it has no place, or too few bytes for the longest.
    Small,
    // The printer cannot take a line now.
    NoRoom,
    // The printer holds no line to tear off.
    NoLine,
    // There is no memory for the device.
    NoMemory,
}

impl Refusal {
    // The fixed number of the answer; want of memory has none. The numbers are told and never change.
    pub fn number(self) -> Option<u8>
        ensures { result ≡ number_of self }
    {
        match self {
            Refusal::Small => Some(10),
            Refusal::NoRoom => Some(20),
            Refusal::NoLine => Some(26),
            Refusal::NoMemory => None,
        }
    }
}

impl From<AllocError> for Refusal {
    ghost from_gives = { λ _ e. e ≡ NoMemory };

    fn from(_: AllocError) -> Refusal {
        Self::NoMemory
    }
}
