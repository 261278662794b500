//! The workload, turn by turn.

ghost use Rattle.std.specs.Prelude.{◌≡◌, ◌<◌, ◌++◌, ◌+◌};

use crate::Turn;
use rand_core::SeedableRng;
use rand_core::utils::NextWord;
use rand_pcg::Lcg128Xsl64;
use std::marker::Model;

/// The most turns that a workload has.
pub const MOST_TURNS: u32 = 200_000;

/// Makes the workload of a seed, turn by turn. Contracts see the seed, and how many turns were made.
#[derive(Drop)]
pub struct Workload {
    seed: u64,
    turns: u32,
    words: Lcg128Xsl64,
    call: u32,
}

impl Model for Workload {
    ghost use Rattle.moka_workload.specs.Made.{GoesBy, Made};

    ghost Value = { Made };

    ghost view = { λ w. record { seed = w.seed; turns = w.turns } };

    ghost invariant = { λ w. GoesBy w.seed w.turns w.words w.call };
}

impl Workload {
    ghost use Rattle.moka_workload.specs.Turns.{events_in};
    ghost use Rattle.moka_workload.specs.Workload.{workload};

    /// The workload of this seed, of which no turn was made. Equal seeds give equal workloads.
    pub fn new(seed: u64) -> Self
        ensures { result ≡ record { seed = seed; turns = 0 } }
    {
        Workload {
            seed,
            turns: 0,
            words: Lcg128Xsl64::seed_from_u64(seed),
            call: 1,
        }
    }

    /// Makes the next turn: its events go on with those of the turns before it. It takes no memory.
    pub fn next_turn(&mut self) -> Turn
        requires { self.old.turns < MOST_TURNS }
        ensures goes_on { workload self.new.turns self.new.seed
            ≡ workload self.old.turns self.old.seed ++ events_in result }
        ensures made { self.new ≡ record self.old { turns = self.old.turns + 1 } }
    {
        let word = self.words.next_word();
        let turn = Turn::by(self.turns + 1, word, self.call);
        self.turns += 1;
        self.call += turn.calls();
        turn
    }
}
