//! The claims of queries on rules.
ghost use Rattle.std.specs.Prelude.{◌≡◌, ℕ, nat_eq, Bool, true, false, Some, None, IsSome, IfOk, OnOk};
ghost use Rattle.std.specs.HashMap.{get};
ghost use Rattle.moka_hist.specs.Finite.{put_at};
ghost use Rattle.moka_claims.specs.Claims.{IsClaims, IsStanding, looked};
ghost use Rattle.moka_evaluator.specs.Claimed.{Claimed, IsUnawaited, no_claims};
ghost use Rattle.moka_claims.specs.declared.look.Look.TheVariants as look_is;

use crate::look::Look;
use moka_hist::{Start, Told};
use moka_polled::{Outcome, PolledMachine};
use std::alloc::{AllocError, Global};
use std::collections::HashMap;

/// A query's seat: the rule that it seeks, the call that seeks it, and whether a look came to waiting.
#[derive(Clone, Copy)]
pub(crate) struct Seat {
    pub(crate) rule: u32,
    pub(crate) call: u64,
    pub(crate) waits: bool,
}

/// The claims of queries on rules. A query seeks at most one rule at a time, and a rule is held by at
/// most one call, whose query must tell what the rule's value is.
///
/// After want of memory nothing is said of a `Claims`.
#[derive(Drop)]
pub struct Claims {
    cache: PolledMachine<u32, u32, ()>,
    calls: HashMap<u32, u64>,
    seats: HashMap<u64, Seat>,
}

impl Claims {
    /// Makes claims of which there are none, on rules of which none is known.
    pub fn new(alloc: Global) -> Result<Self, AllocError>
        ensures { IfOk result (λ claims. IsClaims claims no_claims) }
    {
        Ok(Claims {
            cache: PolledMachine::new(alloc, None)?,
            calls: HashMap::new(alloc),
            seats: HashMap::new(alloc),
        })
    }

    /// Lets a query that seeks no rule seek this one.
    pub fn seek(&mut self, query: u64, rule: u32) -> Result<(), AllocError>
        requires { IsStanding self.old (λ claimed. claimed.seeks query ≡ None) }
        ensures { OnOk result ((claimed : Claimed) → IsClaims self.old claimed
            → IsClaims self.new (record claimed {
              seeks = put_at claimed.seeks query (Some (rule, false));
            })) }
    {
        let call = self.cache.start(Start::GetWith {
            key: rule,
            replace: None,
        })?;
        let seat = Seat {
            rule,
            call,
            waits: false,
        };
        self.seats.insert(query, seat)?;
        Ok(())
    }

    /// Looks at the rule that a query seeks.
    pub fn look(&mut self, query: u64) -> Result<Look, AllocError>
        requires { IsStanding self.old (λ claimed. IsSome (claimed.seeks query)) }
        ensures { IfOk result (λ look. (claimed : Claimed) (rule : ℕ) (waits : Bool)
            → IsClaims self.old claimed → claimed.seeks query ≡ Some (rule, waits)
            → (look ≡ (looked claimed query rule waits).0)
            × IsClaims self.new (looked claimed query rule waits).1) }
    {
        match self.seats.get(&query).copied() {
            Some(seat) => self.look_at(query, seat),
            None => unreachable!(),
        }
    }

    // Polls the call of the query's seat.
    fn look_at(&mut self, query: u64, seat: Seat) -> Result<Look, AllocError>
        requires { IsStanding self.old (λ claimed. get nat_eq self.old.seats query ≡ Some seat) }
        ensures { IfOk result (λ look. (claimed : Claimed) → IsClaims self.old claimed
            → (look ≡ (looked claimed query seat.rule seat.waits).0)
            × IsClaims self.new (looked claimed query seat.rule seat.waits).1) }
    {
        moka_small::waiters_are_served::<u32, u32, ()>();
        let outcome = self.cache.poll(seat.call)?;
        match outcome {
            Outcome::Loaded { value, .. } => Ok(self.found(query, value)),
            Outcome::Asks => self.hold(query, seat),
            Outcome::Waits => self.wait(query, seat),
            _ => unreachable!(),
        }
    }

    // The rule was known: the query seeks it no longer.
    fn found(&mut self, query: u64, value: u32) -> Look
        ensures look { result ≡ look_is.Value value }
        ensures seats { (q : ℕ) → get nat_eq self.new.seats q
            ≡ put_at (get nat_eq self.old.seats) query None q }
        ensures others { self.new ≡ record self.old { seats = self.new.seats } }
    {
        let _ = self.seats.remove(&query);
        Look::Value { value }
    }

    // The call of the query's seat holds the rule from now on.
    fn hold(&mut self, query: u64, seat: Seat) -> Result<Look, AllocError>
        ensures { IfOk result (λ look. (look ≡ look_is.Holds)
            × ((q : ℕ) → get nat_eq self.new.seats q ≡ put_at (get nat_eq self.old.seats) query None q)
            × ((r : ℕ) → get nat_eq self.new.calls r
            ≡ put_at (get nat_eq self.old.calls) seat.rule (Some seat.call) r)
            × (self.new.cache ≡ self.old.cache)) }
    {
        self.calls.insert(seat.rule, seat.call)?;
        let _ = self.seats.remove(&query);
        Ok(Look::Holds)
    }

    // The query waits for the rule.
    fn wait(&mut self, query: u64, seat: Seat) -> Result<Look, AllocError>
        ensures { IfOk result (λ look. (look ≡ look_is.Waits seat.waits)
            × ((q : ℕ) → get nat_eq self.new.seats q
            ≡ put_at (get nat_eq self.old.seats) query (Some (record seat { waits = true })) q)
            × ((r : ℕ) → get nat_eq self.new.calls r ≡ get nat_eq self.old.calls r)
            × (self.new.cache ≡ self.old.cache)) }
    {
        self.seats.insert(
            query,
            Seat {
                waits: true,
                ..seat
            },
        )?;
        Ok(Look::Waits { before: seat.waits })
    }

    /// Settles a rule that is held: its value is known from now on, and it is no longer held.
    pub fn settle(&mut self, rule: u32, value: u32) -> Result<(), AllocError>
        requires { IsStanding self.old (λ claimed. claimed.held rule ≡ true) }
        ensures { OnOk result ((claimed : Claimed) → IsClaims self.old claimed
            → claimed.held rule ≡ true
            → IsClaims self.new (record claimed {
              known = put_at claimed.known rule (Some value);
              held = put_at claimed.held rule false;
            })) }
    {
        moka_small::waiters_are_served::<u32, u32, ()>();
        match self.calls.remove(&rule) {
            Some(call) => {
                self.cache.tell(call, Told::Value(value))?;
                let _ = self.cache.poll(call)?;
                Ok(())
            }
            None => unreachable!(),
        }
    }

    /// Lets a query seek its rule no longer. It takes no memory.
    pub fn leave(&mut self, query: u64)
        requires { IsStanding self.old (λ claimed. IsSome (claimed.seeks query)) }
        ensures { (claimed : Claimed) → IsClaims self.old claimed → IsSome (claimed.seeks query)
            → IsClaims self.new (record claimed { seeks = put_at claimed.seeks query None }) }
    {
        moka_small::waiters_are_served::<u32, u32, ()>();
        match self.seats.remove(&query) {
            Some(seat) => self.cache.drop_call(seat.call),
            None => unreachable!(),
        }
    }

    /// Frees a rule that is held, and for which no query waits. It takes no memory.
    pub fn free(&mut self, rule: u32)
        requires { IsStanding self.old (λ claimed. (claimed.held rule ≡ true)
            × IsUnawaited claimed rule) }
        ensures { (claimed : Claimed) → IsClaims self.old claimed → claimed.held rule ≡ true
            → IsUnawaited claimed rule
            → IsClaims self.new (record claimed { held = put_at claimed.held rule false }) }
    {
        moka_small::waiters_are_served::<u32, u32, ()>();
        match self.calls.remove(&rule) {
            Some(call) => self.cache.drop_call(call),
            None => unreachable!(),
        }
    }
}
