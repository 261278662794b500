//! The notices to the listener.

ghost use Rattle.std.specs.Prelude.{◌≡◌, ℕ, ◌+◌, ◌≤◌, ◌<◌, ◌==◌, ◌||◌, true, false, not, cond, Option, Some, None, [], ◌∷◌, ◌++◌, is_some, IfSome, IsNone, IsSome, IsTrue, IsFalse, ◌↔◌, nat_eq, vec_len, vec_capacity, OnOk, OnErr, IfOk, if◌then◌else◌};
ghost use Rattle.std.specs.HashMap.{get, hash_map_len, spare};

use crate::maps::put;
use moka_hist::{Cause, Notice, NoticeState};
use moka_room::map_room;
use moka_values::Exact;
use std::alloc::{AllocError, Global};
use std::collections::HashMap;

/// What the listener hears by a running notice: the key and the value of a record that has left,
/// and why.
#[derive(Drop)]
pub(crate) struct Heard<K, V> {
    pub(crate) key: K,
    pub(crate) value: V,
    pub(crate) cause: Cause,
}

/// The running notices by their numbers; with a history what the listener hears by them, those that
/// have ended or were skipped, among which no visit looks, and the order in which all were opened.
/// Each running notice has its place among those of the past then. Beside them, whether the listener
/// is off.
#[derive(Drop)]
pub(crate) struct Notices<K, V> {
    pub(crate) history: bool,
    pub(crate) running: HashMap<u64, Option<Heard<K, V>>>,
    pub(crate) past: HashMap<u64, Notice<K, V>>,
    pub(crate) opened: Vec<u64>,
    pub(crate) off: bool,
    ghost past_has_room: { history ≡ true → hash_map_len running ≤ spare past },
}

impl<K: Drop, V: Drop> Notices<K, V> {
    ghost use Rattle.moka_hist.specs.Finite.{put_at};
    ghost use Rattle.moka_hist.specs.Telling.{with_end, MayEnd};
    ghost use Rattle.moka_hist.specs.declared.notices.NoticeState.TheVariants as notice;
    ghost use Rattle.std.specs.Option.{option_copied, option_map};
    ghost use Rattle.moka_desk.specs.Notices.{either, heard_in, kept_in, HasRoom, NoticePart, NoticesAre, NoticesBecome};

    /// No notice was opened, and the listener is not off; with a history, or without one.
    pub(crate) fn new(alloc: Global, history: bool) -> Self
        ensures none { NoticesAre result (record {
          notices = λ _. None;
          opened = [];
          off = false;
        }) }
        ensures kind { result.history ≡ history }
    {
        Notices {
            history,
            running: HashMap::new(alloc),
            past: HashMap::new(alloc),
            opened: Vec::new(alloc),
            off: false,
        }
    }

    /// Whether the notice of this number runs.
    pub(crate) fn is_running(&self, number: u64) -> bool
        ensures { result ≡ is_some (get nat_eq self.now.running number) }
    {
        self.running.contains_key(&number)
    }

    /// Whether a notice of this number was opened, as far as is remembered: without a history where
    /// it runs.
    pub(crate) fn recalls(&self, number: u64) -> bool
        ensures opened { (p : NoticePart K V) → NoticesAre self.now p → IsTrue result
            → IsSome (p.notices number) }
        ensures exact { self.now.history ≡ true → (p : NoticePart K V) → NoticesAre self.now p
            → IsTrue result ↔ IsSome (p.notices number) }
        ensures quiet { IsFalse result → IsNone (get nat_eq self.now.running number) }
        ensures over { IsFalse result → self.now.history ≡ true
            → IsNone (get nat_eq self.now.past number) }
    {
        match self.history {
            true => self.is_running(number) || self.past.contains_key(&number),
            false => self.is_running(number),
        }
    }

    /// The notice of this number, if one was opened and it is kept what the listener heard by it.
    pub(crate) fn notice(&self, number: u64) -> Result<Option<Notice<K, V>>, AllocError>
    where
        K: Exact,
        V: Exact,
        ensures { IfOk result (λ notice. notice ≡ either
            (heard_in number (get nat_eq self.now.running number))
            (get nat_eq self.now.past number)) }
    {
        if let Some(heard) = self.heard_at(number) {
            return Ok(Some(heard.notice(number)?));
        }
        match self.past.get(&number) {
            Some(notice) => Ok(Some(copy_of(notice)?)),
            None => Ok(None),
        }
    }

    // What the listener hears by the notice of this number, where that runs and it is kept.
    fn heard_at(&self, number: u64) -> Option<&Heard<K, V>>
        ensures { option_copied result ≡ kept_in (get nat_eq self.now.running number) }
    {
        match self.running.get(&number) {
            Some(heard) => heard.as_ref(),
            None => None,
        }
    }

    /// Takes places for the notices of so many calls, if there is a listener.
    pub(crate) fn reserve(&mut self, listener: bool, calls: usize) -> Result<(), AllocError>
        ensures same { NoticesBecome self.old (λ p. p) self.new }
        ensures places { OnOk result (listener ≡ true → calls ≤ spare self.new.running) }
        ensures kind { self.new.history ≡ self.old.history }
    {
        match listener {
            true => map_room::reserve(&mut self.running, calls),
            false => Ok(()),
        }
    }

    /// Opens a notice of a number that has none, and answers whether the listener is to be asked.
    /// Where it is off the notice is skipped.
    pub(crate) fn open(&mut self, number: u64, heard: Heard<K, V>) -> Result<bool, AllocError>
        ensures asked { IfOk result (λ asked. asked ≡ not self.old.off) }
        ensures ok { OnOk result ((p : NoticePart K V) → NoticesAre self.old p →
            p.notices number ≡ None
            → NoticesAre self.new (record p {
              notices = put_at p.notices number (Some (record {
                number = number;
                key = heard.key;
                value = heard.value;
                cause = heard.cause;
                state = cond p.off notice.Skipped notice.Running;
              }));
              opened = p.opened ++ number ∷ [];
            })) }
        ensures err { OnErr result (NoticesBecome self.old (λ p. p) self.new) }
        ensures kind { self.new.history ≡ self.old.history }
    {
        self.make_room()?;
        self.list(number);
        if self.off {
            self.keep(number, heard, NoticeState::Skipped);
            return Ok(false);
        }
        let kept = self.if_kept(heard);
        put(&mut self.running, number, kept);
        Ok(true)
    }

    // What is kept of what the listener hears: all of it, where there is a history.
    fn if_kept(&self, heard: Heard<K, V>) -> Option<Heard<K, V>>
        ensures { result ≡ cond self.now.history (Some heard) None }
    {
        match self.history {
            true => Some(heard),
            false => None,
        }
    }

    /// Opens a notice as `open` does, whatever the listener hears by it, where there is no history.
    /// Memory is wanting only where no place was taken for it.
    pub(crate) fn open_unheard(&mut self, number: u64) -> Result<bool, AllocError>
        requires { self.old.history ≡ false }
        ensures asked { IfOk result (λ asked. asked ≡ not self.old.off) }
        ensures ok { OnOk result ((heard : Heard K V) (p : NoticePart K V) → NoticesAre self.old p
            → p.notices number ≡ None
            → NoticesAre self.new (record p {
              notices = put_at p.notices number (Some (record {
                number = number;
                key = heard.key;
                value = heard.value;
                cause = heard.cause;
                state = cond p.off notice.Skipped notice.Running;
              }));
              opened = p.opened ++ number ∷ [];
            })) }
        ensures err { OnErr result (NoticesBecome self.old (λ p. p) self.new) }
        ensures needs { OnErr result (spare self.old.running ≡ 0) }
        ensures kind { self.new.history ≡ self.old.history }
    {
        if self.off {
            return Ok(false);
        }
        self.running.reserve(1)?;
        put(&mut self.running, number, None);
        Ok(true)
    }

    // Makes room for one more notice.
    fn make_room(&mut self) -> Result<(), AllocError>
        ensures same { NoticesBecome self.old (λ p. p) self.new }
        ensures off { self.new.off ≡ self.old.off }
        ensures kind { self.new.history ≡ self.old.history }
        ensures running { OnOk result (0 < spare self.new.running) }
        ensures room { OnOk result (self.new.history ≡ true → HasRoom self.new) }
    {
        map_room::reserve(&mut self.running, 1)?;
        self.make_room_in_history()
    }

    // Makes room for one more notice in the history, if there is one.
    fn make_room_in_history(&mut self) -> Result<(), AllocError>
        ensures same { NoticesBecome self.old (λ p. p) self.new }
        ensures off { self.new.off ≡ self.old.off }
        ensures kind { self.new.history ≡ self.old.history }
        ensures running { self.new.running ≡ self.old.running }
        ensures room { OnOk result (self.new.history ≡ true → HasRoom self.new) }
    {
        if self.history {
            self.past.reserve(self.running.len() + 1)?;
            self.opened.reserve(1)?;
        }
        Ok(())
    }

    // Lists the number of a notice that is opened, where there is a history.
    fn list(&mut self, number: u64)
        requires { self.old.history ≡ true → HasRoom self.old }
        ensures opened { self.new.history ≡ true
            → self.new.opened.items ≡ self.old.opened.items ++ number ∷ [] }
        ensures running { self.new.running ≡ self.old.running }
        ensures past { self.new.past ≡ self.old.past }
        ensures off { self.new.off ≡ self.old.off }
        ensures kind { self.new.history ≡ self.old.history }
    {
        if self.history {
            self.opened.push_reserved(number);
        }
    }

    // Keeps a notice that has ended, of which this was kept, where there is a history.
    fn keep_ended(&mut self, number: u64, heard: Option<Heard<K, V>>)
        requires { self.old.history ≡ true → hash_map_len self.old.running < spare self.old.past }
        ensures past { self.new.history ≡ true → IfSome heard (λ h. (n : ℕ)
            → get nat_eq self.new.past n ≡ cond (number == n) (Some (record {
              number = number;
              key = h.key;
              value = h.value;
              cause = h.cause;
              state = notice.Ended;
            })) (get nat_eq self.old.past n)) }
        ensures running { self.new.running ≡ self.old.running }
        ensures opened { self.new.opened ≡ self.old.opened }
        ensures off { self.new.off ≡ self.old.off }
        ensures kind { self.new.history ≡ self.old.history }
    {
        match heard {
            Some(heard) => self.keep(number, heard, NoticeState::Ended),
            None => {}
        }
    }

    // Keeps a notice that has ended or was skipped, where there is a history.
    fn keep(&mut self, number: u64, heard: Heard<K, V>, state: NoticeState)
        requires { self.old.history ≡ true → hash_map_len self.old.running < spare self.old.past }
        ensures past { self.new.history ≡ true → (n : ℕ) → get nat_eq self.new.past n
            ≡ cond (number == n) (Some (record {
              number = number;
              key = heard.key;
              value = heard.value;
              cause = heard.cause;
              state = state;
            })) (get nat_eq self.old.past n) }
        ensures running { self.new.running ≡ self.old.running }
        ensures opened { self.new.opened ≡ self.old.opened }
        ensures off { self.new.off ≡ self.old.off }
        ensures kind { self.new.history ≡ self.old.history }
    {
        if self.history {
            put(&mut self.past, number, heard.past(number, state));
        }
    }

    /// Ends the notice of this number, if it runs, and turns the listener off, if `off`.
    pub(crate) fn end(&mut self, number: u64, off: bool)
        ensures makes { (p : NoticePart K V) → NoticesAre self.old p → MayEnd (p.notices number)
            → NoticesAre self.new (record p {
              notices = put_at p.notices number (option_map with_end (p.notices number));
              off = p.off || off;
            }) }
        ensures kind { self.new.history ≡ self.old.history }
    {
        self.silence(off);
        if let Some(heard) = self.running.remove(&number) {
            self.keep_ended(number, heard);
        }
    }

    // Turns the listener off, if `off`.
    fn silence(&mut self, off: bool)
        ensures { self.new ≡ record self.old { off = self.old.off || off } }
    {
        if off {
            self.off = true;
        }
    }
}

impl<K, V> Heard<K, V> {
    // The notice of this number by which the listener heard this, in this state.
    fn past(self, number: u64, state: NoticeState) -> Notice<K, V>
        ensures { result ≡ record {
          number = number;
          key = self.key;
          value = self.value;
          cause = self.cause;
          state = state;
        } }
    {
        Notice {
            number,
            key: self.key,
            value: self.value,
            cause: self.cause,
            state,
        }
    }
}

impl<K: Exact, V: Exact> Heard<K, V> {
    ghost use Rattle.moka_desk.specs.Notices.{running};

    // The running notice of this number by which the listener hears this.
    fn notice(&self, number: u64) -> Result<Notice<K, V>, AllocError>
        ensures { IfOk result (λ notice. notice ≡ running number self.now) }
    {
        let key = exact_copy(&self.key)?;
        let value = exact_copy(&self.value)?;
        Ok(Notice {
            number,
            key,
            value,
            cause: self.cause,
            state: NoticeState::Running,
        })
    }
}

// An equal notice.
fn copy_of<K: Exact, V: Exact>(notice: &Notice<K, V>) -> Result<Notice<K, V>, AllocError>
    ensures { IfOk result (λ copy. copy ≡ notice.now) }
{
    let key = exact_copy(&notice.key)?;
    let value = exact_copy(&notice.value)?;
    Ok(Notice {
        number: notice.number,
        key,
        value,
        cause: notice.cause,
        state: notice.state,
    })
}

// An equal key or value.
fn exact_copy<T: Exact>(original: &T) -> Result<T, AllocError>
    ensures { IfOk result (λ copy. copy ≡ original.now) }
{
    original.clone()
}
