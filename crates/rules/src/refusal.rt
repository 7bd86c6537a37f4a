ghost use Rattle.std.specs.Prelude.{◌≡◌};
ghost use Rattle.rules.specs.Refusals.{number_of};

// Why a deck is refused. Each reason has a fixed number and word.
#[derive(Clone, Copy, PartialEq, Eq, Debug)]
pub enum Refusal {
    CutDeck,
    Order,
    Punch,
    Unknown,
    Double,
    Kind,
    TableFull,
}

// A breach on a card: the refusal and the column that it tells.
pub type Breach = (Refusal, u8);

impl Refusal {
    // The refusal's number. The numbers are told and never change, so each stands beside its reason.
    pub fn number(self) -> u8
        ensures { result ≡ number_of self }
    {
        match self {
            Refusal::CutDeck => 1,
            Refusal::Order => 2,
            Refusal::Punch => 3,
            Refusal::Unknown => 4,
            Refusal::Double => 5,
            Refusal::Kind => 6,
            Refusal::TableFull => 7,
        }
    }
}
