//! Streams of ids.

ghost use Rattle.std.specs.Prelude.{◌≡◌, ℕ, suc};

/// A stream of ids. Which ids are to come is settled as the stream is made, so that whoever draws
/// one knows the next.
pub trait Ids {
    /// The ids to come, by number from 0.
    ghost stream: { Self → ℕ → ℕ };

    /// Draws the first of the ids to come, and leaves the others.
    fn next_id(&mut self) -> u128
        ensures first { result ≡ stream self.old 0 }
        ensures others { (n : ℕ) → stream self.new n ≡ stream self.old (suc n) };
}
