//! What the states of a cache's calls differ in.
ghost use Rattle.std.specs.Prelude.{◌≡◌, Option, Some, None, IsSome, IfOk, IfErr};
ghost use Rattle.moka_hist.specs.declared.events.Start.{Start};
ghost use Rattle.moka_hist.specs.declared.replies.Answer.{Answer};

use moka_hist::{Answer, Start};
use moka_values::Exact;

/// What a call is begun by: its start, and the key that its state is to keep, if it is to keep one.
#[derive(Drop)]
pub struct Begun<K, V> {
    pub start: Start<K, V>,
    pub named: Option<K>,
}

impl<K, V> Begun<K, V> {
    /// A call of this start, whose state needs no key.
    pub(crate) fn unnamed(start: Start<K, V>) -> Self
        ensures { result ≡ record { start = start; named = None } }
    {
        Begun { start, named: None }
    }

    /// A call of this start, whose state keeps this key.
    pub(crate) fn named(start: Start<K, V>, key: K) -> Self
        ensures { result ≡ record { start = start; named = Some key } }
    {
        Begun {
            start,
            named: Some(key),
        }
    }
}

/// What a state begins its call with, and what it tells of the answer.
pub trait Begin<K: Exact, V, E>: Drop {
    type Output;

    /// How its call starts.
    ghost start: { Self → Start K V };

    /// The key that its state keeps: that of the entry which it answers, where the call's own answer
    /// has none, and that for which a load tells the calls that wait for it how it ended.
    ghost named: { Self → Option K };

    /// What the state answers by that key, where its call answers this. None where its call never
    /// does.
    ghost output: { Option K → Answer K V E → Option Self.Output };

    /// Gives what the call is begun by. Without memory for copies of the key it gives itself back.
    fn start(self) -> Result<Begun<K, V>, Self>
        ensures ok { IfOk result (λ begun. begun.start ≡ start self) }
        ensures key { IfOk result (λ begun. begun.named ≡ named self) }
        ensures err { IfErr result (λ kept. kept ≡ self) };

    /// Tells the answer.
    fn output(key: Option<K>, answer: Answer<K, V, E>) -> Self::Output
        requires { IsSome (output key answer) }
        ensures told { Some result ≡ output key answer };
}
