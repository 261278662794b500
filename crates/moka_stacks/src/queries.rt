//! The stacks of the live queries.
ghost use Rattle.std.specs.Prelude.{◌≡◌, ◌<◌, ◌≤◌, ℕ, ◌+◌, ◌∷◌, true, cond};
ghost use Rattle.std.specs.Prelude.{Some, None, is_some, IsSome, IfOk, OnOk};
ghost use Rattle.std.specs.HashMap.{keys};
ghost use Rattle.std.specs.Option.{option_map};
ghost use Rattle.moka_hist.specs.Finite.{put_at};
ghost use Rattle.moka_evaluator.specs.Evaluator.{Stack, numbers_to};
ghost use Rattle.moka_evaluator.specs.declared.turns.Turned.TheVariants as turn;
ghost use Rattle.moka_evaluator.specs.Steps.{just, off, seeking};
ghost use Rattle.moka_stacks.specs.Queries.{count_of, kept_if, stack_at, stack_of};

use moka_evaluator::{Frame, Operands, Turned};
use std::alloc::{AllocError, Global};
use std::collections::HashMap;

/// A live query: the top frame of its stack, and those below, the lowest first.
#[derive(Drop)]
pub struct Query {
    pub top: Frame,
    pub below: Vec<Frame>,
}

impl Query {
    // A frame that seeks the rule, on no other.
    fn just(alloc: Global, rule: u32) -> Query
        ensures { stack_of result ≡ just rule }
    {
        Query {
            top: seek(rule),
            below: Vec::new(alloc),
        }
    }

    // Lets the top frame own its rule.
    fn own(&mut self)
        ensures { stack_of self.new
            ≡ (let s = stack_of self.old in record s { top = record s.top { owns = true } }) }
    {
        self.top.owns = true;
    }

    // Puts a frame on that seeks the rule.
    fn seek(&mut self, rule: u32) -> Result<(), AllocError>
        ensures { OnOk result (stack_of self.new ≡ (let s = stack_of self.old in
            record { top = seeking rule; below = s.top ∷ s.below })) }
    {
        self.below.push(self.top)?;
        self.top = seek(rule);
        Ok(())
    }

    // Takes the top frame off and hands its value down, if there is a frame below.
    fn come_off(&mut self, value: u32) -> bool
        ensures left { kept_if result (stack_of self.new) ≡ (off (stack_of self.old).below value).1 }
        ensures reply { (off (stack_of self.old).below value).0
            ≡ cond result turn.Moved (turn.Value value) }
    {
        match self.below.pop() {
            Some(frame) => {
                self.top = Frame {
                    operands: frame.operands.with(value),
                    ..frame
                };
                true
            }
            None => false,
        }
    }
}

// A frame that seeks the rule.
fn seek(rule: u32) -> Frame
    ensures { result ≡ seeking rule }
{
    Frame {
        rule,
        owns: false,
        operands: Operands::Nothing,
    }
}

// The numbers under which queries are kept, in any order.
fn keys_of(alloc: Global, map: &HashMap<u64, Query>) -> Result<Vec<u64>, AllocError>
    ensures { IfOk result (λ numbers. numbers.items ≡ keys map.now) }
{
    let mut numbers = Vec::with_capacity(alloc, map.len())?;
    for number in map.keys() {
        numbers.push(*number)?;
    }
    Ok(numbers)
}

/// The stacks of the live queries.
#[derive(Drop)]
pub struct Queries {
    alloc: Global,
    map: HashMap<u64, Query>,
}

impl Queries {
    /// No query is live.
    pub fn new(alloc: Global) -> Self
        ensures stacks { (q : ℕ) → stack_at result q ≡ None }
        ensures count { count_of result ≡ 0 }
    {
        Queries {
            alloc,
            map: HashMap::new(alloc),
        }
    }

    /// Counts the live queries.
    pub fn count(&self) -> usize
        ensures { result ≡ count_of self.now }
    {
        self.map.len()
    }

    /// Lists the numbers of the live queries, in order.
    pub fn numbers(&self) -> Result<Vec<u64>, AllocError>
        ensures { IfOk result (λ numbers. (last : ℕ)
            → ((q : ℕ) → IsSome (stack_at self.now q) → (0 < q) × (q ≤ last))
            → numbers.items ≡ numbers_to last (λ q. is_some (stack_at self.now q))) }
    {
        let mut numbers = keys_of(self.alloc, &self.map)?;
        numbers.sort_unstable();
        numbers.dedup();
        Ok(numbers)
    }

    /// The top frame of the query, if that is live.
    pub fn top(&self, query: u64) -> Option<Frame>
        ensures { result ≡ option_map (λ s. s.top) (stack_at self.now query) }
    {
        match self.map.get(&query) {
            Some(live) => Some(live.top),
            None => None,
        }
    }

    /// Adds a query that seeks the rule, and nothing else.
    pub fn add(&mut self, query: u64, rule: u32) -> Result<(), AllocError>
        requires { stack_at self.old query ≡ None }
        ensures stacks { OnOk result ((q : ℕ) → stack_at self.new q
            ≡ put_at (stack_at self.old) query (Some (just rule)) q) }
        ensures count { OnOk result (count_of self.new ≡ count_of self.old + 1) }
    {
        self.map.insert(query, Query::just(self.alloc, rule))?;
        Ok(())
    }

    /// Lets the query own the rule of its top frame.
    pub fn own(&mut self, query: u64)
        ensures stacks { (s : Stack) → stack_at self.old query ≡ Some s → (q : ℕ)
            → stack_at self.new q ≡ put_at (stack_at self.old) query
            (Some (record s { top = record s.top { owns = true } })) q }
        ensures count { count_of self.new ≡ count_of self.old }
    {
        if let Some(live) = self.map.get_mut(&query) {
            live.own();
        }
    }

    /// Lets the query seek a rule that the one of its top frame needs.
    pub fn seek(&mut self, query: u64, rule: u32) -> Result<(), AllocError>
        ensures stacks { OnOk result ((s : Stack) → stack_at self.old query ≡ Some s → (q : ℕ)
            → stack_at self.new q ≡ put_at (stack_at self.old) query
            (Some (record { top = seeking rule; below = s.top ∷ s.below })) q) }
        ensures count { OnOk result (count_of self.new ≡ count_of self.old) }
    {
        match self.map.get_mut(&query) {
            Some(live) => live.seek(rule),
            None => Ok(()),
        }
    }

    /// Takes the top frame of a live query off, whose rule has this value. The value goes to the frame
    /// below, or is the query's answer, and the query is no longer live.
    pub fn come_off(&mut self, query: u64, value: u32) -> Turned
        requires { IsSome (stack_at self.old query) }
        ensures reply { (s : Stack) → stack_at self.old query ≡ Some s → result ≡ (off s.below value).0 }
        ensures stacks { (s : Stack) → stack_at self.old query ≡ Some s → (q : ℕ)
            → stack_at self.new q ≡ put_at (stack_at self.old) query (off s.below value).1 q }
        ensures count { (s : Stack) → stack_at self.old query ≡ Some s
            → count_of self.new + cond (is_some (off s.below value).1) 0 1 ≡ count_of self.old }
    {
        let left = match self.map.get_mut(&query) {
            Some(live) => live.come_off(value),
            None => unreachable!(),
        };
        if left {
            return Turned::Moved;
        }
        let _ = self.map.remove(&query);
        Turned::Value { value }
    }

    /// Takes a query out, if it is live.
    pub fn remove(&mut self, query: u64) -> Option<Query>
        ensures removed { option_map stack_of result ≡ stack_at self.old query }
        ensures stacks { (q : ℕ) → stack_at self.new q ≡ put_at (stack_at self.old) query None q }
        ensures count { count_of self.new + cond (is_some result) 1 0 ≡ count_of self.old }
    {
        self.map.remove(&query)
    }
}
