//! The id of a predicate.

ghost use Rattle.std.specs.Prelude.{◌≡◌};

use std::marker::Model;

/// An id of 128 bits. Contracts see its number. It stands in four words, the highest first, so that an
/// answer, which may be an id, is no larger and no more aligned than other answers make it.
#[derive(Clone, Copy, PartialEq, Eq, Debug)]
pub struct Id {
    first: u32,
    second: u32,
    third: u32,
    fourth: u32,
}

impl Model for Id {
    ghost use Rattle.std.specs.Prelude.{ℕ, ◌+◌, ◌*◌, ◌^◌, ◌/◌, ◌%◌, ◌<◌};
    ghost use Rattle.std.proofs.Common.{ap, ◌∙◌};
    ghost use Rattle.std.proofs.lemmas.Nat.{div-mul-add, mod-mul-add};

    ghost Value = { ℕ };

    ghost view = { λ i.
        ((i.first * 2 ^ 32 + i.second) * 2 ^ 32 + i.third) * 2 ^ 32 + i.fourth };

    ghost invariant = { λ i. (i.first < 2 ^ 32) × (i.second < 2 ^ 32) × (i.third < 2 ^ 32)
        × (i.fourth < 2 ^ 32) };

    ghost inverse = { λ n. record {
      first = n / 2 ^ 32 / 2 ^ 32 / 2 ^ 32;
      second = n / 2 ^ 32 / 2 ^ 32 % 2 ^ 32;
      third = n / 2 ^ 32 % 2 ^ 32;
      fourth = n % 2 ^ 32;
    } };

    ghost inverse_ok = { λ a h i.
        let word : ℕ = 2 ^ 32 in
        let two : ℕ = a.first * word + a.second in
        let three : ℕ = two * word + a.third in
        let upper = div-mul-add three word a.fourth h.3 in
        let middle = ap (λ n. n / word) upper ∙ div-mul-add two word a.third h.2 in
        record {
          first = (ap (λ n. n / word) middle ∙ div-mul-add a.first word a.second h.1) i;
          second = (ap (λ n. n % word) middle ∙ mod-mul-add a.first word a.second h.1) i;
          third = (ap (λ n. n % word) upper ∙ mod-mul-add two word a.third h.2) i;
          fourth = mod-mul-add three word a.fourth h.3 i;
        } };
}

impl Id {
    /// The id of this number.
    pub fn new(number: u128) -> Self
        ensures { result ≡ number }
    {
        Id {
            first: (number >> 96) as u32,
            second: ((number >> 64) % (1 << 32)) as u32,
            third: ((number >> 32) % (1 << 32)) as u32,
            fourth: (number % (1 << 32)) as u32,
        }
    }

    /// Its number.
    pub fn get(self) -> u128
        ensures { result ≡ self }
    {
        let high = u64::from(self.first) * (1 << 32) + u64::from(self.second);
        let low = u64::from(self.third) * (1 << 32) + u64::from(self.fourth);
        u128::from(high) * (1 << 64) + u128::from(low)
    }
}
