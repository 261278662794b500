//! Who evaluates each rule, and who waits for it.
ghost use Rattle.std.specs.Prelude.{◌≡◌, ℕ, [], ◌∷◌, ◌++◌, drop, Some, None, OnOk, IsSome, IfSome, slice_get};
ghost use Rattle.moka_hist.specs.Finite.{put_at};
ghost use Rattle.moka_evaluator.specs.Evaluator.{without};
ghost use Rattle.moka_stacks.specs.Places.{line_at, owner_at};

use std::alloc::{AllocError, Global};
use std::collections::{HashMap, VecDeque};

/// The place of a rule that a query evaluates: that query, and those that wait.
#[derive(Drop)]
pub struct Place {
    pub owner: u64,
    pub line: VecDeque<u64>,
}

impl Place {
    // Passes the place to the first of the line, if there is one, who leaves the line.
    fn pass(&mut self) -> Option<u64>
        ensures first { result ≡ slice_get self.old.line.items 0 }
        ensures line { self.new.line.items ≡ drop 1 self.old.line.items }
        ensures owner { IfSome result (λ heir. self.new.owner ≡ heir) }
    {
        let heir = self.line.pop_front();
        if let Some(query) = heir {
            self.owner = query;
        }
        heir
    }

    // Takes the query out of the line.
    fn leave(&mut self, query: u64)
        ensures line { self.new.line.items ≡ without query self.old.line.items }
        ensures owner { self.new.owner ≡ self.old.owner }
    {
        self.line.retain(|other| *other != query);
    }
}

/// The places of the rules that queries evaluate. Other rules have none.
#[derive(Drop)]
pub struct Places {
    alloc: Global,
    map: HashMap<u32, Place>,
}

impl Places {
    /// Makes places of which no rule has one.
    pub fn new(alloc: Global) -> Self
        ensures owner { (r : ℕ) → owner_at result r ≡ None }
        ensures line { (r : ℕ) → line_at result r ≡ [] }
    {
        Places {
            alloc,
            map: HashMap::new(alloc),
        }
    }

    /// The query that evaluates the rule.
    pub fn owner(&self, rule: u32) -> Option<u64>
        ensures { result ≡ owner_at self.now rule }
    {
        match self.map.get(&rule) {
            Some(place) => Some(place.owner),
            None => None,
        }
    }

    /// Lets the query evaluate a rule that none does.
    pub fn take(&mut self, rule: u32, query: u64) -> Result<(), AllocError>
        ensures owner { OnOk result ((r : ℕ)
            → owner_at self.new r ≡ put_at (owner_at self.old) rule (Some query) r) }
        ensures line { OnOk result ((r : ℕ)
            → line_at self.new r ≡ put_at (line_at self.old) rule [] r) }
    {
        let place = Place {
            owner: query,
            line: VecDeque::new(self.alloc),
        };
        self.map.insert(rule, place)?;
        Ok(())
    }

    /// Puts the query at the end of the rule's line.
    pub fn wait(&mut self, rule: u32, query: u64) -> Result<(), AllocError>
        requires { IsSome (owner_at self.old rule) }
        ensures owner { OnOk result ((r : ℕ) → owner_at self.new r ≡ owner_at self.old r) }
        ensures line { OnOk result ((r : ℕ) → line_at self.new r
            ≡ put_at (line_at self.old) rule (line_at self.old rule ++ query ∷ []) r) }
    {
        match self.map.get_mut(&rule) {
            Some(place) => {
                place.line.push_back(query)?;
                Ok(())
            }
            None => unreachable!(),
        }
    }

    /// Closes the place of a rule that is known from now on: nobody waits for it any more.
    pub fn close(&mut self, rule: u32)
        ensures owner { (r : ℕ) → owner_at self.new r ≡ put_at (owner_at self.old) rule None r }
        ensures line { (r : ℕ) → line_at self.new r ≡ put_at (line_at self.old) rule [] r }
    {
        let _ = self.map.remove(&rule);
    }

    /// Passes the rule to the first of its line, if there is one, who leaves that.
    pub fn pass(&mut self, rule: u32) -> Option<u64>
        ensures heir { result ≡ slice_get (line_at self.old rule) 0 }
        ensures owner { (r : ℕ) → owner_at self.new r ≡ put_at (owner_at self.old) rule result r }
        ensures line { (r : ℕ)
            → line_at self.new r
            ≡ put_at (line_at self.old) rule (drop 1 (line_at self.old rule)) r }
    {
        let heir = match self.map.get_mut(&rule) {
            Some(place) => place.pass(),
            None => None,
        };
        if heir.is_none() {
            let _ = self.map.remove(&rule);
        }
        heir
    }

    /// Takes the query out of the rule's line.
    pub fn leave(&mut self, rule: u32, query: u64)
        ensures owner { (r : ℕ) → owner_at self.new r ≡ owner_at self.old r }
        ensures line { (r : ℕ)
            → line_at self.new r
            ≡ put_at (line_at self.old) rule (without query (line_at self.old rule)) r }
    {
        if let Some(place) = self.map.get_mut(&rule) {
            place.leave(query);
        }
    }
}
