//! Where the calls of each kind come from.

use crate::calls::Begins;
use crate::heard::HearsAny;
use crate::later::{Later, MayFail, Puts};
use crate::numbers::{Call, Makes, NumberCall, Numbers, numbers};
use crate::ways::{Kind, Way};
use moka_cache::{
    Anything, Asked, Begin, ByCompute, ByInit, ByOptionalInit, ByTryInit, ByUpsert, Nobody,
    ToCompute, ToGet, ToInsert, ToInsertEntry, ToLoad, ToLoadOptionally, ToRemove, ToTryCompute,
    ToTryLoad, ToUpsert,
};
use std::sync::Wait;

/// What a value is loaded by where there may be none, and where that may fail.
pub(crate) type Optional = Later<Option<u64>>;

pub(crate) type Tried = Later<Result<u64, u64>>;

/// The rounds of a thread: a cache, and what its calls are made of.
#[derive(Drop)]
pub(crate) struct Rounds<'a, L> {
    pub(crate) cache: &'a Numbers<L>,
    /// The keys that are lent, and the one that is where there are none.
    lent: &'a [u64],
    other: &'a u64,
    /// How many keys there are, how far each is from the one before, and which is the first.
    keys: u64,
    step: u64,
    first: u64,
    /// Who is asked pends at its first poll.
    pends: bool,
    /// Who is asked fails or finds nothing, and a replace test holds.
    pub(crate) otherwise: bool,
}

impl<'a, L: HearsAny> Rounds<'a, L> {
    /// Rounds of this thread over these keys: each call's is another, far from the one before.
    pub(crate) fn over(cache: &'a Numbers<L>, lent: &'a [u64], thread: u64) -> Self {
        Rounds {
            cache,
            lent,
            other: &0,
            keys: lent.len() as u64,
            step: 7919,
            first: thread,
            pends: false,
            otherwise: false,
        }
    }

    /// Rounds over these keys, one after the other.
    pub(crate) fn in_order(cache: &'a Numbers<L>, lent: &'a [u64]) -> Self {
        let mut rounds = Rounds::over(cache, lent, 0);
        rounds.step = 1;
        rounds
    }

    /// Rounds over the keys below a number, one after the other. None is lent.
    pub(crate) fn below(cache: &'a Numbers<L>, keys: u64) -> Self {
        let mut rounds = Rounds::in_order(cache, &[]);
        rounds.keys = keys;
        rounds
    }

    /// Rounds over these keys, for calls of this kind that are made in this way.
    pub(crate) fn made(&self, kind: Kind, way: Way) -> Self {
        Rounds {
            pends: way.pends(),
            otherwise: kind.is_otherwise(),
            ..*self
        }
    }

    /// The key of a round.
    pub(crate) fn key(&self, round: u64) -> u64 {
        let place = round.wrapping_mul(self.step).wrapping_add(self.first);
        place.checked_rem(self.keys).unwrap_or(0)
    }

    // The key of a round, lent.
    fn lent(&self, round: u64) -> &'a u64 {
        self.lent
            .get(self.key(round) as usize)
            .unwrap_or(self.other)
    }

    /// Who gives the value.
    pub(crate) fn value(&self, value: u64) -> Later<u64> {
        self.later(value)
    }

    // Who gives it, or tells that there is none.
    fn option(&self, value: u64) -> Optional {
        if self.otherwise {
            return self.later(None);
        }
        self.later(Some(value))
    }

    // Who gives it, or fails.
    fn result(&self, value: u64) -> Tried {
        if self.otherwise {
            return self.later(Err(value));
        }
        self.later(Ok(value))
    }

    fn later<T>(&self, output: T) -> Later<T> {
        Later {
            output,
            pends: self.pends,
        }
    }
}

/// Its calls as states.
impl<'a, R, A, Q, L> Begins<R, NumberCall<'a, A, Q, L>> for Rounds<'a, L>
where
    R: Wait,
    A: Begin<u64, u64, u64>,
    Q: Asked<u64, u64, u64, Anything>,
    L: HearsAny,
    Rounds<'a, L>: Makes<'a, A, Q, L>,
{
    fn begin(&self, round: u64) -> NumberCall<'a, A, Q, L> {
        numbers(self.make(round))
    }
}

impl<'a, L: HearsAny> Makes<'a, ToGet<'a, u64>, Nobody, L> for Rounds<'a, L> {
    fn make(&self, round: u64) -> Call<'a, ToGet<'a, u64>, Nobody, L> {
        self.cache.get(self.lent(round))
    }
}

impl<'a, L: HearsAny> Makes<'a, ToInsert<u64, u64>, Nobody, L> for Rounds<'a, L> {
    fn make(&self, round: u64) -> Call<'a, ToInsert<u64, u64>, Nobody, L> {
        self.cache.insert(self.key(round), round)
    }
}

impl<'a, L: HearsAny> Makes<'a, ToRemove<'a, u64>, Nobody, L> for Rounds<'a, L> {
    fn make(&self, round: u64) -> Call<'a, ToRemove<'a, u64>, Nobody, L> {
        self.cache.remove(self.lent(round))
    }
}

impl<'a, L: HearsAny> Makes<'a, ToLoad<'a, u64>, ByInit<Later<u64>>, L> for Rounds<'a, L> {
    fn make(&self, round: u64) -> Call<'a, ToLoad<'a, u64>, ByInit<Later<u64>>, L> {
        let key = self.key(round);
        self.cache.get_with(key, self.value(key))
    }
}

impl<'a, L: HearsAny> Makes<'a, ToLoadOptionally<'a, u64>, ByOptionalInit<Optional>, L>
    for Rounds<'a, L> {
    fn make(&self, round: u64) -> Call<'a, ToLoadOptionally<'a, u64>, ByOptionalInit<Optional>, L> {
        let key = self.key(round);
        self.cache.optionally_get_with(key, self.option(key))
    }
}

impl<'a, L: HearsAny> Makes<'a, ToTryLoad<'a, u64>, ByTryInit<Tried>, L> for Rounds<'a, L> {
    fn make(&self, round: u64) -> Call<'a, ToTryLoad<'a, u64>, ByTryInit<Tried>, L> {
        let key = self.key(round);
        self.cache.try_get_with(key, self.result(key))
    }
}

impl<'a, L: HearsAny> Makes<'a, ToInsertEntry<'a, u64, u64>, Nobody, L> for Rounds<'a, L> {
    fn make(&self, round: u64) -> Call<'a, ToInsertEntry<'a, u64, u64>, Nobody, L> {
        let key = self.key(round);
        self.cache.entry(key).or_insert(key)
    }
}

impl<'a, L: HearsAny> Makes<'a, ToCompute<'a, u64>, ByCompute<Puts>, L> for Rounds<'a, L> {
    fn make(&self, round: u64) -> Call<'a, ToCompute<'a, u64>, ByCompute<Puts>, L> {
        let key = self.key(round);
        self.cache
            .entry(key)
            .and_compute_with(Puts(self.value(key)))
    }
}

impl<'a, L: HearsAny> Makes<'a, ToTryCompute<'a, u64>, ByCompute<MayFail>, L> for Rounds<'a, L> {
    fn make(&self, round: u64) -> Call<'a, ToTryCompute<'a, u64>, ByCompute<MayFail>, L> {
        let key = self.key(round);
        self.cache
            .entry(key)
            .and_try_compute_with(MayFail(self.result(key)))
    }
}

impl<'a, L: HearsAny> Makes<'a, ToUpsert<'a, u64>, ByUpsert<Puts>, L> for Rounds<'a, L> {
    fn make(&self, round: u64) -> Call<'a, ToUpsert<'a, u64>, ByUpsert<Puts>, L> {
        let key = self.key(round);
        self.cache.entry(key).and_upsert_with(Puts(self.value(key)))
    }
}
