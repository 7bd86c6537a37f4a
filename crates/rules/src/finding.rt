ghost use Rattle.std.specs.Prelude.{◌≡◌, ℕ, ◌<◌, length, IfSome};
ghost use Rattle.rules.specs.Finding.{First, first_of};

// An entry that is found by a key, which is a part of it.
pub trait Keyed<K> {
    ghost key_of: { Self → K };

    fn key(&self) -> &K
        ensures { result.now ≡ key_of self.now };
}

// Every value is the key of itself.
impl<T> Keyed<T> for T {
    ghost key_of = { λ entry. entry };

    fn key(&self) -> &T {
        self
    }
}

// The place of the first entry whose key equals the one sought, for any kind of key that has an equality.
pub fn first_equal<K: PartialEq, T: Keyed<K>>(entries: &[T], sought: &K) -> Option<usize>
    ensures within { IfSome result (λ i. i < length entries.now) }
    ensures first { First (λ y b. b ≡ K.PartialEq.eq (T.key_of y) sought.now) entries.now result }
    ensures place { result ≡ first_of (λ y. K.PartialEq.eq (T.key_of y) sought.now) entries.now }
{
    entries.iter().position(|y| *y.key() == *sought)
}
