//! Tests and predicates of records, by number.

ghost use Rattle.std.specs.Prelude.{◌≡◌, ℕ, Bool};

/// Replace tests and predicates that go by their numbers. What one answers of a record depends on the
/// record's key and value alone, and is the same whenever it is asked.
pub trait Tests<K, V> {
    /// What the replace test of each number answers.
    ghost answers: { Self → ℕ → K → V → Bool };
    /// What the predicate of each number answers.
    ghost hides: { Self → ℕ → K → V → Bool };

    /// Whether the replace test of this number holds on the key and the value.
    fn holds(&self, test: u64, key: &K, value: &V) -> bool
        ensures { result ≡ answers self.now test key.now value.now };

    /// Whether the predicate of this number holds on the key and the value.
    fn does_hide(&self, test: u64, key: &K, value: &V) -> bool
        ensures { result ≡ hides self.now test key.now value.now };
}
