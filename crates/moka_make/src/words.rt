//! The words of `make`.

ghost use Rattle.std.specs.Prelude.{◌≡◌, ◌≤◌, ℕ, decimal, IfNone, IfSome};
ghost use Rattle.moka_make.specs.Words.{AsksFor, IsMake, IsSeed, IsTurns};

use moka_lines::{u32_in, u64_in};
use moka_workload::MOST_TURNS;

/// What a make is to run: so many turns of the workload of this seed.
#[derive(Clone, Copy, PartialEq, Eq, Debug)]
pub struct Wanted {
    pub turns: u32,
    pub seed: u64,
}

/// How many turns the bytes spell: from 1 to 200,000.
fn turns_in(digits: &[u8]) -> Option<u32>
    ensures found { IfSome result (λ turns. IsTurns digits.now turns) }
    ensures none { IfNone result ((turns : ℕ) → ¬ IsTurns digits.now turns) }
{
    let Some(turns) = u32_in(digits) else {
        return None;
    };
    if turns == 0 {
        return None;
    }
    if turns > MOST_TURNS {
        return None;
    }
    Some(turns)
}

/// The seed that the bytes spell.
fn seed_in(digits: &[u8]) -> Option<u64>
    ensures found { IfSome result (λ seed. IsSeed digits.now seed) }
    ensures none { IfNone result ((seed : ℕ) → ¬ IsSeed digits.now seed) }
{
    u64_in(digits)
}

/// So many turns of the workload of this seed, where the bytes spell both.
fn numbers_in(turns: &[u8], seed: &[u8]) -> Option<Wanted>
    ensures turns { IfSome result (λ wanted. IsTurns turns.now wanted.turns) }
    ensures seed { IfSome result (λ wanted. IsSeed seed.now wanted.seed) }
    ensures none { IfNone result ((turns' seed' : ℕ) → IsTurns turns.now turns'
        → ¬ IsSeed seed.now seed') }
{
    let Some(turns) = turns_in(turns) else {
        return None;
    };
    let Some(seed) = seed_in(seed) else {
        return None;
    };
    Some(Wanted { turns, seed })
}

/// What the words of a command line ask for, where they are `make`, a number of turns from 1 to
/// 200,000, and a seed of 64 bits, both in decimal without a leading zero.
pub fn wanted_in(words: &[String]) -> Option<Wanted>
    ensures found { IfSome result (λ wanted. AsksFor words.now wanted.turns wanted.seed) }
    ensures none { IfNone result (¬ IsMake words.now) }
{
    let [word, turns, seed] = words else {
        return None;
    };
    if word.as_str() != "make" {
        return None;
    }
    numbers_in(turns.as_bytes(), seed.as_bytes())
}
