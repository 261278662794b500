//! The open upstream requests, and the cache on which they stand.

ghost use Rattle.std.specs.Prelude.{◌≡◌, ◌∷◌, ◌++◌, ◌+◌, ℕ, [], drop, map, nat_eq, not, true, false, IfOk, OnOk, Some, None};
ghost use Rattle.std.specs.HashMap.{get};
ghost use Rattle.std.specs.Option.{option_and_then, option_map, option_map_or};
ghost use Rattle.moka_hist.specs.Finite.{put_at};
ghost use Rattle.moka_small.specs.Polled.{polled};
ghost use Rattle.moka_polled.specs.Polled.{IsPolled};
ghost use Rattle.moka_collapsing.specs.declared.answer.Answer.TheVariants as answer;
ghost use Rattle.moka_collapsing.specs.declared.slot.Slot.TheVariants.{Answered, Waits};
ghost use Rattle.moka_collapsing.specs.Settling.{HasAnswer, answer_in};
ghost use Rattle.moka_collapsing.specs.Standing.{Cache as Small, told_by};
ghost use Rattle.moka_collapsing.specs.Upstream.{answer_of, given_to};
ghost use Rattle.moka_collapsing.specs.Waiting.{freed, is_left_empty, less_waiter, with_waiter};
ghost use Rattle.moka_gateway.specs.Fetches.{Ends, IsAnswering, IsEnding, IsListIn, is_of_request};

use moka_collapsing::{
    Answer, Asked, Given, Place, Slot, WaitList, lists_are_answered, requests_come, requests_leave,
};
use moka_hist::{Start, Told};
use moka_polled::{Outcome, PolledMachine};
use std::alloc::{AllocError, Global};
use std::collections::{BTreeMap, HashMap};

/// The cache of a gateway.
type Cache = PolledMachine<u32, u32, u32>;

/// A call that was started and polled: its number, and what the poll came to.
#[derive(Drop)]
struct Begun {
    number: u64,
    outcome: Outcome<u32, u32>,
}

/// The open upstream requests by key, and the cache on which they stand.
///
/// Each request is a `try` call of the cache: one that finds the value answers, one that asks is the
/// upstream request, and the others wait for it.
#[derive(Drop)]
pub(crate) struct Fetches {
    alloc: Global,
    cache: Cache,
    lists: HashMap<u32, WaitList>,
}

impl Fetches {
    ghost use Rattle.moka_collapsing.specs.Upstream.{Upstream, asked, given_at, is_left, left, no_requests, settled};
    ghost use Rattle.moka_collapsing.specs.Standing.{begun};
    ghost use Rattle.moka_collapsing.specs.Waiting.{without_waiter};
    ghost use Rattle.moka_gateway.specs.Fetches.{IsFetches};

    /// Nothing is stored, and no upstream request is open.
    pub(crate) fn new(alloc: Global) -> Result<Fetches, AllocError>
        ensures { IfOk result (λ f. IsFetches f no_requests) }
    {
        Ok(Fetches {
            alloc,
            cache: PolledMachine::new(alloc, None)?,
            lists: HashMap::new(alloc),
        })
    }

    /// A request for the key comes from this place. It is answered where the key is stored; else it
    /// waits for the upstream request of the key, and opens that where nobody did.
    pub(crate) fn ask(&mut self, key: u32, place: Place) -> Result<Asked, AllocError>
        requires { (u : Upstream) × IsFetches self.old u }
        ensures { IfOk result (λ a. (u : Upstream) → IsFetches self.old u
            → (a ≡ (asked u key place).0) × IsFetches self.new (asked u key place).1) }
    {
        requests_come();
        let begun = self.begin(key)?;
        match begun.outcome {
            Outcome::Loaded { value, .. } => Ok(stored(value)),
            Outcome::Asks => self.open(key, begun.number, place),
            Outcome::Waits => self.join(key, begun.number, place),
            _ => unreachable!(),
        }
    }

    // Starts the call of a request for the key, and polls it.
    fn begin(&mut self, key: u32) -> Result<Begun, AllocError>
        requires { (u : Upstream) × IsFetches self.old u }
        ensures begun { IfOk result (λ it. (m : Small) → IsPolled nat_eq self.old.cache m
            → (it.number ≡ m.last + 1) × (it.outcome ≡ (begun m key).0)
            × IsPolled nat_eq self.new.cache (begun m key).1) }
        ensures kind { IfOk result (λ it. is_of_request it.outcome ≡ true) }
        ensures lists { OnOk result (self.new.lists ≡ self.old.lists) }
    {
        let number = self.cache.start(Start::Try { key })?;
        let outcome = self.cache.poll(number)?;
        Ok(Begun { number, outcome })
    }

    // The request opens the upstream request of the key, for which its call asks.
    fn open(&mut self, key: u32, number: u64, place: Place) -> Result<Asked, AllocError>
        ensures { IfOk result (λ a.
            (a ≡ record { slot = Waits key number; fetch = Some key })
            × ((k : ℕ) → get nat_eq self.new.lists k ≡ put_at (get nat_eq self.old.lists) key
            (Some (record { asking = number; requests = (number, place) ∷ [] })) k)
            × (self.new.cache ≡ self.old.cache)) }
    {
        let mut list = WaitList::new(self.alloc, number);
        list.join(number, place)?;
        self.lists.insert(key, list)?;
        Ok(Asked {
            slot: Slot::Waits { key, number },
            fetch: Some(key),
        })
    }

    // The request waits for the upstream request of the key, which is open.
    fn join(&mut self, key: u32, number: u64, place: Place) -> Result<Asked, AllocError>
        ensures { IfOk result (λ a.
            (a ≡ record { slot = Waits key number; fetch = None })
            × ((k : ℕ) → get nat_eq self.new.lists k ≡ put_at (get nat_eq self.old.lists) key
            (option_map (with_waiter number place) (get nat_eq self.old.lists key)) k)
            × (self.new.cache ≡ self.old.cache)) }
    {
        join_list(&mut self.lists, key, number, place)?;
        Ok(Asked {
            slot: Slot::Waits { key, number },
            fetch: None,
        })
    }

    /// The request of this number leaves the list of the key. Its call is handed over or dropped.
    pub(crate) fn leave(&mut self, key: u32, number: u64)
        requires { (u : Upstream) × IsFetches self.old u }
        ensures { (u : Upstream) → IsFetches self.old u
            → IsFetches self.new (left u (Waits key number)) }
    {
        requests_leave();
        match self.take_off(key, number) {
            Some(call) => self.cache.drop_call(call),
            None => {}
        }
    }

    // Takes the request off the list, which ends where it is left empty, and tells the call that
    // nobody needs any more.
    fn take_off(&mut self, key: u32, number: u64) -> Option<u64>
        ensures freed { result ≡ option_and_then (λ w. freed w number)
            (get nat_eq self.old.lists key) }
        ensures list { (k : ℕ) → get nat_eq self.new.lists k
            ≡ put_at (get nat_eq self.old.lists) key
            (option_and_then (without_waiter number) (get nat_eq self.old.lists key)) k }
        ensures cache { self.new.cache ≡ self.old.cache }
    {
        let freed = leave_list(&mut self.lists, key, number);
        if is_left(&self.lists, key) {
            let _ = self.lists.remove(&key);
        }
        freed
    }

    /// Whether an upstream request of the key is open.
    pub(crate) fn is_open(&self, key: u32) -> bool
        ensures { (u : Upstream) → IsFetches self.now u → result ≡ not (is_left u key) }
    {
        self.lists.contains_key(&key)
    }

    /// The upstream request of the key brings this. Lists the requests that waited, each with its
    /// answer; None where no upstream request of the key is open, and nothing changes.
    pub(crate) fn settle(
        &mut self,
        key: u32,
        brought: Result<u32, u32>,
    ) -> Result<Option<Vec<Given>>, AllocError>
        requires { (u : Upstream) × IsFetches self.old u }
        ensures given { IfOk result (λ given. (u : Upstream) → IsFetches self.old u
            → option_map (λ v. v.items) given ≡ given_at (answer_of brought) (u.waiting key)) }
        ensures ended { OnOk result ((u : Upstream) → IsFetches self.old u
            → IsFetches self.new (settled u key (answer_of brought))) }
    {
        lists_are_answered();
        let Some(list) = self.lists.remove(&key) else {
            return Ok(None);
        };
        let given = answer_all(self.alloc, &mut self.cache, list, brought)?;
        Ok(Some(given))
    }
}

// Tells the call that asks what was brought, and polls it and those that wait for it.
fn answer_all(
    alloc: Global,
    cache: &mut Cache,
    mut list: WaitList,
    brought: Result<u32, u32>,
) -> Result<Vec<Given>, AllocError>
    requires { IsListIn cache.old list }
    ensures given { IfOk result (λ given. given.items
        ≡ map (given_to (answer_of brought)) list.requests) }
    ensures ended { OnOk result ((s : IsListIn cache.old list)
        → Ends cache.new s.small s.key list.asking brought []) }
{
    let answer = answer_asking(cache, &list, brought)?;
    let mut given = Vec::new(alloc);
    let Some((_, place)) = list.requests.pop_first() else {
        unreachable!()
    };
    given.push(Given { place, answer })?;
    answer_rest(cache, list.requests, &mut given)?;
    Ok(given)
}

// Tells the call that asks what was brought, and polls it.
fn answer_asking(
    cache: &mut Cache,
    list: &WaitList,
    brought: Result<u32, u32>,
) -> Result<Answer, AllocError>
    requires { IsListIn cache.old list.now }
    ensures { IfOk result (λ a. (s : IsListIn cache.old list.now) → (a ≡ answer_of brought)
        × Ends cache.new s.small s.key list.now.asking brought (drop 1 list.now.requests)) }
{
    lists_are_answered();
    cache.tell(list.asking, told_of(brought))?;
    answered(cache, list.asking)
}

// Polls the calls that wait for one whose load has ended.
fn answer_rest(
    cache: &mut Cache,
    mut rest: BTreeMap<u64, Place>,
    given: &mut Vec<Given>,
) -> Result<(), AllocError>
    requires { IsEnding cache.old rest.entries }
    ensures { OnOk result ((s : IsEnding cache.old rest.entries)
        → (given.new.items ≡ given.old.items ++ map (given_to (answer_of s.brought)) rest.entries)
        × Ends cache.new s.base s.key s.asking s.brought []) }
{
    lists_are_answered();
    moka_small::waiters_are_served::<u32, u32, u32>();
    while let Some((number, place)) = rest.pop_first() {
        let answer = answered(cache, number)?;
        given.push(Given { place, answer })?;
    }
    Ok(())
}

// Polls a call whose load has ended, and tells its answer.
fn answered(cache: &mut Cache, call: u64) -> Result<Answer, AllocError>
    requires { IsAnswering cache.old call }
    ensures { IfOk result (λ a. (m : Small) (x : Answer) (h : HasAnswer call x m)
        → IsPolled nat_eq cache.old m
        → (a ≡ x) × IsPolled nat_eq cache.new (polled nat_eq m call h.stand).1) }
{
    let outcome = cache.poll(call)?;
    match answer_in(outcome) {
        Some(answer) => Ok(answer),
        None => unreachable!(),
    }
}

// The answer of a call that came to this, if its load has ended.
fn answer_in(outcome: Outcome<u32, u32>) -> Option<Answer>
    ensures { result ≡ answer_in outcome }
{
    match outcome {
        Outcome::Loaded { value, .. } => Some(Answer::Value(value)),
        Outcome::Failed(error) => Some(Answer::Error(error)),
        _ => None,
    }
}

// The request joins the list of the key, if there is one.
fn join_list(
    lists: &mut HashMap<u32, WaitList>,
    key: u32,
    number: u64,
    place: Place,
) -> Result<(), AllocError>
    ensures { OnOk result ((k : ℕ) → get nat_eq lists.new k
        ≡ put_at (get nat_eq lists.old) key
        (option_map (with_waiter number place) (get nat_eq lists.old key)) k) }
{
    match lists.get_mut(&key) {
        Some(list) => list.join(number, place),
        None => Ok(()),
    }
}

// The request of this number leaves the list of the key. Tells the call that nobody needs any more.
fn leave_list(lists: &mut HashMap<u32, WaitList>, key: u32, number: u64) -> Option<u64>
    ensures freed { result ≡ option_and_then (λ w. freed w number) (get nat_eq lists.old key) }
    ensures list { (k : ℕ) → get nat_eq lists.new k
        ≡ put_at (get nat_eq lists.old) key
        (option_map (less_waiter number) (get nat_eq lists.old key)) k }
{
    match lists.get_mut(&key) {
        Some(list) => list.leave(number),
        None => None,
    }
}

// Whether nobody is left on the list of the key.
fn is_left(lists: &HashMap<u32, WaitList>, key: u32) -> bool
    ensures { result ≡ option_map_or is_left_empty (get nat_eq lists.now key) false }
{
    match lists.get(&key) {
        Some(list) => list.is_empty(),
        None => false,
    }
}

// What the call that asks is told.
fn told_of(brought: Result<u32, u32>) -> Told<u32, u32>
    ensures { result ≡ told_by brought }
{
    match brought {
        Ok(value) => Told::Value(value),
        Err(error) => Told::Err(error),
    }
}

// A request whose key is stored.
fn stored(value: u32) -> Asked
    ensures { result ≡ record { slot = Answered (answer.Value value); fetch = None } }
{
    Asked {
        slot: Slot::Answered(Answer::Value(value)),
        fetch: None,
    }
}
