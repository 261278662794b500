//! Counting replies.

ghost use Rattle.std.specs.Prelude.{◌≡◌, ◌<◌, ◌+◌, ◌^◌, ◌++◌, ◌∷◌, [], ℕ, List};

use moka_hist::Reply;
use std::marker::Model;

/// Counts replies: all of them, one an event, and those of some kinds. Contracts see the counts.
#[derive(Drop)]
pub struct Tally {
    pub(crate) events: u64,
    pub(crate) calls: u64,
    pub(crate) answers: u64,
    pub(crate) asks: u64,
    pub(crate) waits: u64,
    pub(crate) refused: u64,
}

impl Model for Tally {
    ghost use Rattle.moka_summary.specs.Counts.{AreFew, Counts};

    ghost Value = { Counts };

    ghost view = { λ t. record {
      events = t.events;
      calls = t.calls;
      answers = t.answers;
      asks = t.asks;
      waits = t.waits;
      refused = t.refused;
    } };

    ghost invariant = { λ t. AreFew t.events t.calls t.answers t.asks t.waits t.refused };
}

impl Tally {
    ghost use Rattle.moka_hist.specs.declared.replies.Reply.{Reply};
    ghost use Rattle.moka_summary.specs.Counts.{CountsOn, tally};

    /// The counts where no reply has come.
    pub fn new() -> Self
        ensures { result ≡ tally [] }
    {
        Tally {
            events: 0,
            calls: 0,
            answers: 0,
            asks: 0,
            waits: 0,
            refused: 0,
        }
    }

    /// Counts one more reply.
    #[inline]
    pub fn count(&mut self, reply: &Reply<u32, u32, u32>)
        requires { self.old.events + 1 < 2 ^ 64 }
        ensures counts { (replies : List (Reply ℕ ℕ ℕ)) → self.old ≡ tally replies
            → self.new ≡ tally (replies ++ reply.now ∷ []) }
        ensures events { self.new.events ≡ self.old.events + 1 }
    {
        self.count_on(reply);
    }

    #[inline]
    fn count_on(&mut self, reply: &Reply<u32, u32, u32>)
        requires { self.old.events + 1 < 2 ^ 64 }
        ensures { CountsOn self.old reply.now self.new }
    {
        self.events += 1;
        match reply {
            Reply::Call(_) => self.calls += 1,
            Reply::Answer(_) => self.answers += 1,
            Reply::Ask(_) => self.asks += 1,
            Reply::Wait => self.waits += 1,
            Reply::Refused(_) => self.refused += 1,
            Reply::At | Reply::Going | Reply::Item(_, _) | Reply::Told | Reply::Dropped => {}
        }
    }
}
