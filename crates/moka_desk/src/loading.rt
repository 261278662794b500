//! The visits that see to loads and asks, and a call that leaves.

ghost use Rattle.std.specs.Prelude.{◌≡◌, ℕ, true, Some, None, ◌++◌, is_some, IsNone, IsSome, IfOk, IfNone, IfSome, MatchOption, OnSome, OnOk, OnErr, if◌then◌else◌, nat_eq};
ghost use Rattle.std.specs.HashMap.{get};
ghost use Rattle.moka_sync.specs.Waiting.{without};

use crate::Desk;
use moka_hist::{Claim, Kind, Load, Owed, Settled, Takes, Told, Write};
use moka_sync::CallList;
use moka_values::Exact;
use std::alloc::AllocError;
use std::hash::{BuildHasher, Hash};

impl<K: Eq + Hash + Exact, V: Drop, E: Drop, S: BuildHasher + Drop> Desk<K, V, E, S> {
    ghost use Rattle.moka_hist.specs.State.{DeskPart};
    ghost use Rattle.std.specs.Option.{option_map};
    ghost use Rattle.moka_hist.specs.Conditions.{MayLeave};
    ghost use Rattle.moka_hist.specs.Visits.{is_running, settlement_for};
    ghost use Rattle.moka_hist.specs.Telling.{heard, is_asked, told as with_told};
    ghost use Rattle.moka_hist.specs.Dropping.{left, owed_with};
    ghost use Rattle.moka_hist.specs.declared.loads.Kind.TheVariants as kind;
    ghost use Rattle.moka_hist.specs.declared.visits.Visit.TheVariants as visit;
    ghost use Rattle.moka_hist.specs.declared.visits.Found.TheVariants as found;
    ghost use Rattle.moka_desk.specs.Waits.{awaited, comes, ended_line, is_heard, leaves, left_line, lock_line, settlement_line, stays, told_line, waits_at, AnswersMove, ClaimMoves, EndedMove, LeftMove, NobodyMoves, SettlementsMove, ToldMove};
    ghost use Rattle.moka_desk.specs.WakeList.{after_leaving, AnswersWake, ClaimWakes, EndedWake, NobodyWakes, SettlementsWake, ToldWake, Wake};
    ghost use Rattle.moka_desk.specs.Woken.{all_but, and_calls};
    ghost use Rattle.moka_desk.specs.Asks.{asks_if, is_open};
    ghost use Rattle.moka_desk.specs.History.{KeepsAsBefore};
    ghost use Rattle.moka_desk.specs.Readers.{is_copied};
    ghost use Rattle.moka_desk.specs.Waits.{joined_to};
    ghost use Rattle.moka_desk.specs.StandsFor.{StandsFor, Can, CanLeave, Finds, Becomes, Makes, Stays};
    ghost use Rattle.moka_desk.specs.ListedMiss.{ListedMiss, MissAfter, MissWith};

    /// Makes the call the owner of a load that nobody owns, or lets it wait for the owner. An owner
    /// gets the place of its settlement; one that waits gets its place on the owner's list, and no
    /// later visit takes one for it. Before that the call owns nothing and waits for nobody.
    pub fn wait_or_own(&mut self, call: u64, load: Load<K>) -> Result<Claim, AllocError>
        requires free { Can K.eq self.old (visit.WaitOrOwn call load.key load.kind) }
        ensures finds { IfOk result (λ claim. Finds K.eq self.old
            (visit.WaitOrOwn call load.key load.kind)
            (found.WaitOrOwn claim)) }
        ensures makes { OnOk result (Makes K.eq self.old
            (visit.WaitOrOwn call load.key load.kind) self.new) }
        ensures err { OnErr result (Stays K.eq self.old self.new) }
        // who waits
        ensures waits { IfOk result (λ claim. ClaimMoves self.old call claim self.new) }
        ensures unlisted { OnErr result (SettlementsMove self.old stays self.new) }
        ensures wakes { IfOk result (λ claim. ClaimWakes self.old call claim self.new) }
        ensures still { OnErr result (NobodyWakes self.old self.new) }
        // who is listed misses that thing
        ensures misses { OnOk result
            (MissAfter K.eq self.old (visit.WaitOrOwn call load.key load.kind) self.new) }
        ensures misses_still { OnErr result (MissWith K.eq self.old (λ w. w) self.new) }
        ensures kept { KeepsAsBefore self.old self.new }
    {
        if let Some(owner) = self.loads.owner_of(&load) {
            drop(load);
            self.join(call, owner)?;
            return Ok(Claim::Waits { owner });
        }
        self.loads.own(call, load)?;
        Ok(Claim::Owner)
    }

    // Lets the call, which waits for nobody, wait for the owner, on its list.
    fn join(&mut self, call: u64, owner: u64) -> Result<(), AllocError>
        requires apart { get nat_eq self.old.loads.joined call ≡ None }
        ensures makes { OnOk result ((w : DeskPart K V E) → StandsFor K.eq self.old w
            → IsSome (w.owning owner) → StandsFor K.eq self.new (joined_to w call owner)) }
        ensures err { OnErr result (Stays K.eq self.old self.new) }
        // who waits
        ensures waits { OnOk result
            (SettlementsMove self.old (waits_at (Some owner) call) self.new) }
        ensures unlisted { OnErr result (SettlementsMove self.old stays self.new) }
        ensures back { OnOk result (SettlementsWake self.old (all_but call) self.new) }
        ensures still { OnErr result (NobodyWakes self.old self.new) }
        // who is listed misses that thing
        ensures misses { OnOk result ((w : DeskPart K V E) → IsNone (w.joined call)
            → IsNone (w.settled owner) → ListedMiss self.old w
            → ListedMiss self.new (joined_to w call owner)) }
        ensures misses_still { OnErr result (MissWith K.eq self.old (λ w. w) self.new) }
        ensures kept { KeepsAsBefore self.old self.new }
    {
        self.loads.make_room_to_join()?;
        self.waits.settlements.wait(owner, call)?;
        self.loads.join(call, owner);
        Ok(())
    }

    /// Makes the call the owner of the key's computes, where no call is. Answers whether another
    /// call is; nothing has changed then. An owner gets the place of its settlement. Before that
    /// the call owns nothing and waits for nobody.
    pub fn owned(&mut self, call: u64, key: K) -> Result<bool, AllocError>
        requires free { Can K.eq self.old (visit.OwnAlone call key) }
        ensures finds { IfOk result (λ owned. Finds K.eq self.old (visit.OwnAlone call key)
            (found.OwnAlone owned)) }
        ensures makes { OnOk result (Makes K.eq self.old (visit.OwnAlone call key) self.new) }
        ensures err { OnErr result (Stays K.eq self.old self.new) }
        ensures needs { OnErr result ((w : DeskPart K V E) → StandsFor K.eq self.old w
            → IsNone (w.owners (record { key = key; kind = kind.Compute }))) }
        ensures quiet { NobodyMoves self.old self.new }
        ensures wakes { NobodyWakes self.old self.new }
        ensures misses { OnOk result (MissAfter K.eq self.old (visit.OwnAlone call key) self.new) }
        ensures misses_still { OnErr result (MissWith K.eq self.old (λ w. w) self.new) }
        ensures kept { KeepsAsBefore self.old self.new }
    {
        let kind = Kind::Compute;
        self.loads.claim_alone(call, Load { key, kind })
    }

    /// Reads how the owner ended that the call waits for, or answers NotYet where it has not ended:
    /// the call is on the owner's list since it joined. A call that has read the end waits no longer,
    /// and the last one takes the end away. Memory is wanted only to copy a value or an error.
    pub fn read_settled(&mut self, call: u64) -> Result<Settled<V, E>, AllocError>
    where
        V: Exact,
        E: Exact,
        requires waits { Can K.eq self.old (visit.ReadSettled call) }
        ensures finds { IfOk result (λ settled. Finds K.eq self.old (visit.ReadSettled call)
            (found.ReadSettled settled)) }
        ensures makes { OnOk result (Makes K.eq self.old (visit.ReadSettled call) self.new) }
        ensures err { OnErr result (Stays K.eq self.old self.new) }
        // who waits
        ensures reads { OnOk result (awaited self.old call ≡ None
            → SettlementsMove self.old (leaves call) self.new) }
        ensures waits { OnOk result ((owner : ℕ) → awaited self.old call ≡ Some owner
            → SettlementsMove self.old (waits_at (Some owner) call) self.new) }
        ensures unlisted { OnErr result (SettlementsMove self.old stays self.new) }
        ensures back { OnOk result (SettlementsWake self.old (all_but call) self.new) }
        ensures still { OnErr result (NobodyWakes self.old self.new) }
        ensures needs { OnErr result ((w : DeskPart K V E) → StandsFor K.eq self.old w
            → is_copied (settlement_for w call) ≡ true) }
        // who is listed misses that thing
        ensures misses { OnOk result (MissAfter K.eq self.old (visit.ReadSettled call) self.new) }
        ensures misses_still { OnErr result (MissWith K.eq self.old (λ w. w) self.new) }
        ensures kept { KeepsAsBefore self.old self.new }
    {
        let Some(settlement) = self.loads.read(call)? else {
            return Ok(Settled::NotYet);
        };
        self.waits.settlements.leave(call);
        Ok(settlement)
    }

    /// Ends the call's ownership of a load, keeps how it ended for the calls that wait for it, and
    /// hands these out.
    pub fn settle(&mut self, call: u64, with: Settled<V, E>) -> CallList
        requires { Can K.eq self.old (visit.Settle call with) }
        ensures makes { Makes K.eq self.old (visit.Settle call with) self.new }
        ensures woken { result ≡ settlement_line self.old call }
        ensures waits { SettlementsMove self.old (comes call) self.new }
        ensures wakes { SettlementsWake self.old (and_calls result) self.new }
        ensures misses { MissAfter K.eq self.old (visit.Settle call with) self.new }
        ensures kept { KeepsAsBefore self.old self.new }
    {
        self.loads.settle(call, with);
        self.waits.settlements.hand_out(call)
    }

    /// Opens the call's ask, with a place for its answer. The call has no other ask.
    pub fn open_ask(&mut self, call: u64, takes: Takes) -> Result<(), AllocError>
        requires { Can K.eq self.old (visit.OpenAsk call takes) }
        ensures makes { OnOk result (Makes K.eq self.old (visit.OpenAsk call takes) self.new) }
        ensures err { OnErr result (Stays K.eq self.old self.new) }
        ensures waits { OnOk result (AnswersMove self.old (comes call) self.new) }
        ensures unlisted { OnErr result (AnswersMove self.old stays self.new) }
        ensures wakes { NobodyWakes self.old self.new }
        ensures misses { OnOk result (MissAfter K.eq self.old (visit.OpenAsk call takes) self.new) }
        ensures misses_still { OnErr result (MissWith K.eq self.old (λ w. w) self.new) }
        ensures kept { KeepsAsBefore self.old self.new }
    {
        self.asks.open(call, takes)
    }

    /// Closes the ask of this number by an answer that it takes, and hands out all calls that wait
    /// for it. What an initializer gives, or a compute is told, is kept for the call; a listener's
    /// answer ends the notice of that number, frees the lock that it keeps, if it keeps one, and
    /// hands out those that wait for that, too. Answers None where no such ask is open; nothing has
    /// changed then.
    pub fn tell(&mut self, number: u64, answer: Told<V, E>) -> Option<CallList>
        ensures finds { (w : DeskPart K V E) → StandsFor K.eq self.old w →
            is_some result ≡ is_asked w number answer }
        ensures makes { Becomes K.eq self.old
            (λ w. if is_some result then with_told w number answer else w) self.new }
        ensures woken { IfSome result (λ woken. woken ≡ told_line self.old number answer) }
        ensures waits { MatchOption result (NobodyMoves self.old self.new)
            (λ woken. ToldMove self.old number answer self.new) }
        ensures wakes { MatchOption result (NobodyWakes self.old self.new)
            (λ woken. ToldWake self.old number answer woken self.new) }
        ensures misses { MissWith K.eq self.old
            (λ w. if is_some result then with_told w number answer else w) self.new }
        ensures kept { KeepsAsBefore self.old self.new }
    {
        match answer {
            Told::Value(value) => self.asks.tell(number, Told::Value(value)),
            Told::Nothing => self.asks.tell(number, Told::Nothing),
            Told::Err(error) => self.asks.tell(number, Told::Err(error)),
            Told::Op(op) => self.asks.tell(number, Told::Op(op)),
            Told::Done => self.hear(number, false),
            Told::Off => self.hear(number, true),
        }
    }

    // Ends the notice of this number, where it runs, and frees the lock that it keeps; turns the
    // listener off, if `off`.
    fn hear(&mut self, number: u64, off: bool) -> Option<CallList>
        ensures finds { (w : DeskPart K V E) → StandsFor K.eq self.old w →
            is_some result ≡ is_running w number }
        ensures makes { Becomes K.eq self.old
            (λ w. if is_some result then heard w number off else w) self.new }
        ensures woken { IfSome result (λ woken. woken ≡ ended_line self.old number) }
        ensures waits { OnSome result (EndedMove self.old number self.new) }
        ensures quiet { IfNone result (NobodyMoves self.old self.new) }
        ensures wakes { MatchOption result (NobodyWakes self.old self.new)
            (λ woken. EndedWake self.old number self.new) }
        ensures misses { MissWith K.eq self.old
            (λ w. if is_some result then heard w number off else w) self.new }
        ensures kept { KeepsAsBefore self.old self.new }
    {
        if !self.notices.is_running(number) {
            return None;
        }
        Some(self.end(number, off))
    }

    /// Takes what the call was told, if its ask is closed.
    pub fn take_told(&mut self, call: u64) -> Option<Told<V, E>>
        requires { Can K.eq self.old (visit.TakeTold call) }
        ensures finds { Finds K.eq self.old (visit.TakeTold call) (found.TakeTold result) }
        ensures makes { Makes K.eq self.old (visit.TakeTold call) self.new }
        ensures waits { AnswersMove self.old
            (asks_if (is_open self.old.asks.open_asks call) call) self.new }
        ensures back { AnswersWake self.old (all_but call) self.new }
        ensures misses { MissAfter K.eq self.old (visit.TakeTold call) self.new }
        ensures kept { KeepsAsBefore self.old self.new }
    {
        self.asks.take(call)
    }

    /// Lets a dropped call leave. The write that it held, and hands in, is owed, with its notice
    /// where that runs. Its ask is closed, it waits for nobody, and the calls that wait for it read
    /// that it was dropped. A listener that it asked is still asked: where its own notice runs that
    /// keeps its lock, and else its lock is free. Hands out the calls that wait for its load, and
    /// then those that wait for its lock, where that is free now.
    pub fn leave(&mut self, call: u64, held: Option<Write>) -> CallList
        requires { CanLeave K.eq self.old call held }
        ensures makes { (w : DeskPart K V E) → StandsFor K.eq self.old w → MayLeave w call held →
            StandsFor K.eq self.new (left w call held) }
        ensures woken { result
            ≡ without call (settlement_line self.old call) ++
            without call (left_line self.old call) }
        ensures waits { LeftMove self.old call self.new }
        ensures wakes { Wake self.old
            (after_leaving call (settlement_line self.old call) (left_line self.old call)) self.new }
        ensures misses { MissWith K.eq self.old (λ w. left w call held) self.new }
        ensures kept { KeepsAsBefore self.old self.new }
    {
        let owed = self.owed_as(held);
        let runs = self.notices.is_running(call);
        self.writes.leave(call, owed);
        self.loads.leave(call);
        self.locks.leave(call, runs);
        self.asks.leave(call);
        self.waits.leave(call, runs)
    }

    // The write that is handed in, if one is, as it is owed: with its notice, where that runs.
    fn owed_as(&self, held: Option<Write>) -> Option<Owed>
        ensures same { option_map (λ o. o.write) result ≡ held }
        ensures notice { (w : DeskPart K V E) → StandsFor K.eq self.now w →
            result ≡ option_map (owed_with w) held }
    {
        let write = held?;
        let number = write.number();
        let notice = self.notices.is_running(number).then_some(number);
        Some(Owed { write, notice })
    }
}
