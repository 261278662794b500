//! The asks that calls have open, and the answers that they were told.

ghost use Rattle.std.specs.Prelude.{◌≡◌, ℕ, ◌≤◌, ◌==◌, true, false, cond, [], ◌∷◌, Option, Some, None, is_some, IsSome, IfSome, MatchOption, nat_eq, OnOk, OnErr, if◌then◌else◌};
ghost use Rattle.std.specs.Option.{option_map, option_map_or};
ghost use Rattle.moka_hist.specs.Telling.{does_take as takes_answer};
ghost use Rattle.std.specs.HashMap.{get, spare, hash_map_len};

use crate::maps::{put, remove_at, take_at};
use moka_hist::{Takes, Told};
use moka_room::map_room;
use moka_sync::{CallList, WaitPlace};
use std::alloc::{AllocError, Global};
use std::collections::HashMap;

/// An open ask: which answers it takes, and whether its call waits for one.
#[derive(Drop)]
pub(crate) struct OpenAsk {
    pub(crate) takes: Takes,
    pub(crate) place: WaitPlace,
}

/// An answer that its call has not taken yet, and whether that was handed out with it.
#[derive(Drop)]
pub(crate) struct Answer<V, E> {
    pub(crate) told: Told<V, E>,
    pub(crate) woken: bool,
}

/// The open asks, and what was told to those that are closed and not taken yet. Each open ask has
/// the place of its answer, and that of its call on the list of those that wait for it.
#[derive(Drop)]
pub(crate) struct Asks<V, E> {
    alloc: Global,
    pub(crate) open_asks: HashMap<u64, OpenAsk>,
    pub(crate) told: HashMap<u64, Answer<V, E>>,
    ghost answers_have_places: { hash_map_len open_asks ≤ spare told },
    ghost open_are_untold: { (n : ℕ) → is_some (get nat_eq open_asks n) ≡ true
        → get nat_eq told n ≡ None },
}

impl<V: Drop, E: Drop> Asks<V, E> {
    ghost use Rattle.moka_hist.specs.Finite.{put_at};
    ghost use Rattle.moka_desk.specs.Asks.{asker_at, asks_if, is_open, AsksAre, AsksBecome};
    ghost use Rattle.moka_desk.specs.Woken.{all_but, and_calls, is_told};

    /// No ask is open.
    pub(crate) fn new(alloc: Global) -> Self
        ensures none { AsksAre result (record { asks = λ _. None; told = λ _. None }) }
        ensures unwoken { (n : ℕ) → is_told result n ≡ false }
    {
        Asks {
            alloc,
            open_asks: HashMap::new(alloc),
            told: HashMap::new(alloc),
        }
    }

    /// Opens the call's ask, with the place of its answer. An answer that it was told before goes.
    pub(crate) fn open(&mut self, call: u64, takes: Takes) -> Result<(), AllocError>
        ensures ok { OnOk result (AsksBecome self.old
            (λ p. record {
              asks = put_at p.asks call (Some takes);
              told = put_at p.told call None;
            }) self.new) }
        ensures err { OnErr result (AsksBecome self.old (λ p. p) self.new) }
        ensures waits { OnOk result ((n : ℕ)
            → asker_at self.new.open_asks n ≡ cond (call == n) [] (asker_at self.old.open_asks n)) }
        ensures unlisted { OnErr result ((n : ℕ)
            → asker_at self.new.open_asks n ≡ asker_at self.old.open_asks n) }
        ensures back { OnOk result ((n : ℕ) →
            is_told self.new n ≡ all_but call (is_told self.old) n) }
        ensures still { OnErr result ((n : ℕ) → is_told self.new n ≡ is_told self.old n) }
    {
        map_room::reserve(&mut self.told, self.open_asks.len() + 1)?;
        map_room::reserve(&mut self.open_asks, 1)?;
        let place = WaitPlace::new(self.alloc)?;
        put(&mut self.open_asks, call, OpenAsk { takes, place });
        take_at(&mut self.told, call);
        Ok(())
    }

    /// Closes the call's ask by an answer that it takes, and hands the call out, if it waits.
    /// Answers None where none is open that takes it; nothing has changed then.
    pub(crate) fn tell(&mut self, call: u64, answer: Told<V, E>) -> Option<CallList>
        ensures finds { is_some result ≡ option_map_or
            (λ a. takes_answer a.takes answer) (get nat_eq self.old.open_asks call) false }
        ensures woken { IfSome result (λ woken. woken ≡ option_map_or
            (λ a. cond a.place (call ∷ []) []) (get nat_eq self.old.open_asks call) []) }
        ensures makes { AsksBecome self.old (λ p. if is_some result then record {
          asks = put_at p.asks call None;
          told = put_at p.told call (Some answer);
        } else p) self.new }
        ensures waits { MatchOption result (self.new ≡ self.old) (λ woken. (n : ℕ)
            → asker_at self.new.open_asks n ≡ cond (call == n) [] (asker_at self.old.open_asks n)) }
        ensures wakes { IfSome result (λ woken. (n : ℕ)
            → is_told self.new n ≡ and_calls woken (is_told self.old) n) }
    {
        if self.is_asked(call, &answer) {
            Some(self.close(call, answer))
        } else {
            drop(answer);
            None
        }
    }

    // Whether the call has an open ask that takes this answer.
    fn is_asked(&self, call: u64, answer: &Told<V, E>) -> bool
        ensures { result ≡ option_map_or
            (λ a. takes_answer a.takes answer.now) (get nat_eq self.now.open_asks call) false }
    {
        match self.open_asks.get(&call) {
            Some(ask) => does_take(ask.takes, answer),
            None => false,
        }
    }

    /// Takes what the call was told, if anything was. Where its ask is open, the call waits.
    pub(crate) fn take(&mut self, call: u64) -> Option<Told<V, E>>
        ensures finds { result ≡ option_map (λ a. a.told) (get nat_eq self.old.told call) }
        ensures makes { AsksBecome self.old
            (λ p. record p { told = put_at p.told call None }) self.new }
        ensures waits { (n : ℕ) → asker_at self.new.open_asks n
            ≡ asks_if (is_open self.old.open_asks call) call n (asker_at self.old.open_asks n) }
        ensures back { (n : ℕ) → is_told self.new n ≡ all_but call (is_told self.old) n }
    {
        if let Some(answer) = remove_at(&mut self.told, call) {
            return Some(answer.told);
        }
        if let Some(ask) = self.open_asks.get_mut(&call) {
            ask.place.wait();
        }
        None
    }

    /// The call asks nothing any more, and what it was told goes.
    pub(crate) fn leave(&mut self, call: u64)
        ensures makes { AsksBecome self.old (λ p. record {
          asks = put_at p.asks call None;
          told = put_at p.told call None;
        }) self.new }
        ensures waits { (n : ℕ)
            → asker_at self.new.open_asks n ≡ cond (call == n) [] (asker_at self.old.open_asks n) }
        ensures back { (n : ℕ) → is_told self.new n ≡ all_but call (is_told self.old) n }
    {
        take_at(&mut self.open_asks, call);
        take_at(&mut self.told, call);
    }

    /// Whether the call was handed out with an answer that it has not taken.
    pub(crate) fn is_woken(&self, call: u64) -> bool
        ensures { result ≡ is_told self.now call }
    {
        match self.told.get(&call) {
            Some(answer) => answer.woken,
            None => false,
        }
    }

    // Closes an open ask by the answer, and hands its call out, if it waits.
    fn close(&mut self, call: u64, answer: Told<V, E>) -> CallList
        requires { IsSome (get nat_eq self.old.open_asks call) }
        ensures woken { result ≡ option_map_or
            (λ a. cond a.place (call ∷ []) []) (get nat_eq self.old.open_asks call) [] }
        ensures makes { AsksBecome self.old (λ p. record {
          asks = put_at p.asks call None;
          told = put_at p.told call (Some answer);
        }) self.new }
        ensures waits { (n : ℕ)
            → asker_at self.new.open_asks n ≡ cond (call == n) [] (asker_at self.old.open_asks n) }
        ensures wakes { (n : ℕ) → is_told self.new n ≡ and_calls result (is_told self.old) n }
    {
        match self.open_asks.remove(&call) {
            Some(ask) => {
                let woken = ask.place.is_waiting();
                let told = answer;
                put(&mut self.told, call, Answer { told, woken });
                ask.place.take(call)
            }
            None => unreachable!(),
        }
    }
}

// Whether an ask takes answers of this shape.
fn does_take<V, E>(takes: Takes, answer: &Told<V, E>) -> bool
    ensures { result ≡ takes_answer takes answer.now }
{
    match answer {
        Told::Value(_) => matches!(takes, Takes::Value | Takes::Optional | Takes::Try),
        Told::Nothing => matches!(takes, Takes::Optional),
        Told::Err(_) => matches!(takes, Takes::Try | Takes::TryOp),
        Told::Op(_) => matches!(takes, Takes::Op | Takes::TryOp),
        Told::Done => false,
        Told::Off => false,
    }
}
