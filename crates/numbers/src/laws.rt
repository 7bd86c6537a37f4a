// The law of results, a promise of a public function: who calls it has the law for any proof.
ghost use Rattle.numbers.specs.Places.{CountsPlaces};

// A result is the one number that cutting or half-adjusting the exact value gives.
pub fn roundings_stand()
    ensures { CountsPlaces }
{}
