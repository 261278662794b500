//! How a call seals an array.

ghost use Rattle.std.specs.Prelude.{◌≡◌, ◌<◌, ◌++◌, OnOk, OnErr, None, false};
ghost use Rattle.std.specs.Vec.{vec_len, vec_capacity};
ghost use Rattle.moka_words.specs.declared.accesses.Access.TheVariants as access;
ghost use Rattle.moka_words.specs.declared.accesses.Seen.TheVariants as Seen;
ghost use Rattle.std.specs.Option.{option_map, option_to_list};
ghost use Rattle.moka_words.specs.Words.{stored_in};
ghost use Rattle.moka_growth.specs.Calls.{next_at, sealed};
ghost use Rattle.moka_growth.specs.Calls as call;
ghost use Rattle.moka_growth.specs.Growing.{seal_of};
ghost use Rattle.moka_calls.specs.Standing.{IsIn, IsOn, MaySee, course_call, step_of};

use crate::course::{Course, Point, Spot};
use crate::words::{is_sealed, seal_of, stored_in};
use moka_words::{Seen, Word};
use std::alloc::AllocError;

impl Course {
    /// Passes a sealed word, or goes on to seal the word that the call saw. The call takes the
    /// memory for the word's node before.
    pub fn take_found(&mut self, spot: Spot, seen: Seen) -> Result<(), AllocError>
        requires undecided { self.old.decision ≡ None }
        requires inside { IsIn spot }
        requires on { IsOn self.old }
        requires fits { MaySee (access.LoadWord 0 0) seen }
        ensures ok { OnOk result (step_of self.new
            ≡ next_at (course_call self.old)
            (call.Seal spot.array spot.size spot.passed self.old.kept.items) seen) }
        ensures on { IsOn self.new }
        ensures err { OnErr result (step_of self.new ≡ step_of self.old) }
    {
        self.kept.reserve(1)?;
        match seen {
            Seen::Word { word, hash, .. } => {
                self.find(spot, word, hash);
                Ok(())
            }
            _ => unreachable!(),
        }
    }

    fn find(&mut self, spot: Spot, word: Word, hash: u64)
        requires undecided { self.old.decision ≡ None }
        requires inside { IsIn spot }
        requires room { vec_len self.old.kept < vec_capacity self.old.kept }
        ensures step { step_of self.new
            ≡ next_at (course_call self.old)
            (call.Seal spot.array spot.size spot.passed self.old.kept.items)
            (Seen.Word word hash false) }
        ensures on { IsOn self.new }
    {
        if is_sealed(word) {
            self.seal_next(spot, word, hash);
        } else {
            self.go(Point::Close { spot, word, hash });
        }
    }

    /// Passes the word that the call has sealed. Where the exchange met another word, the call
    /// looks at it anew.
    pub fn take_seal(&mut self, spot: Spot, word: Word, hash: u64, seen: Seen)
        requires undecided { self.old.decision ≡ None }
        requires inside { IsIn spot }
        requires room { vec_len self.old.kept < vec_capacity self.old.kept }
        requires fits { MaySee (access.Exchange 0 0 word word) seen }
        ensures step { step_of self.new
            ≡ next_at (course_call self.old)
            (call.Close spot.array spot.size spot.passed word hash self.old.kept.items) seen }
        ensures on { IsOn self.new }
    {
        match seen {
            Seen::Exchanged(met) => match met {
                None => self.seal_next(spot, seal_of(word), hash),
                Some(_) => self.go(Point::Seal { spot }),
            },
            _ => unreachable!(),
        }
    }

    // Keeps the node of a sealed word, and goes on to the next word.
    fn seal_next(&mut self, spot: Spot, word: Word, hash: u64)
        requires undecided { self.old.decision ≡ None }
        requires inside { IsIn spot }
        requires room { vec_len self.old.kept < vec_capacity self.old.kept }
        ensures step { step_of self.new
            ≡ sealed (course_call self.old) spot.array spot.size spot.passed word hash
            self.old.kept.items }
        ensures on { IsOn self.new }
    {
        keep(&mut self.kept, word, hash);
        let passed = spot.passed + 1;
        if passed < spot.size {
            self.go(Point::Seal {
                spot: Spot { passed, ..spot },
            });
        } else {
            self.go(Point::Next {
                array: Some(spot.array),
                size: spot.size,
            });
        }
    }
}

// Keeps the node that is stored in the word, with its hash.
fn keep(kept: &mut Vec<(u64, u64)>, word: Word, hash: u64)
    requires { vec_len kept.old < vec_capacity kept.old }
    ensures { kept.new.items
        ≡ kept.old.items ++ option_to_list (option_map (λ n. (n, hash)) (stored_in word)) }
{
    if let Some(node) = stored_in(word) {
        kept.push_reserved((node, hash));
    }
}
