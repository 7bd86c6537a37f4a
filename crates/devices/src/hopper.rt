ghost use Rattle.std.specs.Prelude.{◌≡◌, List, Option};
ghost use Rattle.devices.specs.Feeding.{fed_of, rest_of};
ghost use Rattle.devices.specs.declared.card.Card.{Card};

use crate::card::Card;

// A hopper means the cards to come, and its ending: the end, or a fault of the hopper's own kind.
pub trait Hopper {
    type Fault: Drop;

    ghost cards: { Self → List Card };

    ghost ending: { Self → Option Self.Fault };

    // Hands over the first card and removes it. With none to come, answers the ending, and nothing changes.
    fn feed(&mut self) -> Result<Option<Card>, Self::Fault>
        ensures answer { result ≡ fed_of (cards self.old) (ending self.old) }
        ensures rest { cards self.new ≡ rest_of (cards self.old) }
        ensures same { ending self.new ≡ ending self.old };
}
