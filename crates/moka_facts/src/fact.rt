//! What is so of keys and values.
ghost use Rattle.std.specs.Prelude.{◌≡◌, true};

/// What is so of each key and value of a table or a cache, as its user chooses it. Equal keys are so
/// of the same values.
pub trait Fact<K: Eq, V> {
    ghost holds: { K → V → Type 0 };

    ghost alike: { (a b : K) (value : V) → K.eq a b ≡ true → holds a value → holds b value };
}

/// The fact where none is asked: it is so of each key and value.
pub struct Anything;

impl<K: Eq, V> Fact<K, V> for Anything {
    ghost holds = { λ key value. Unit {0} };

    ghost alike = { λ a b value same so. so };
}
