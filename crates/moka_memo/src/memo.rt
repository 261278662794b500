//! An evaluator of acyclic rules, over a cache.
ghost use Rattle.std.specs.List.{AllByRecursion};
ghost use Rattle.std.specs.Option.{option_map_or};
ghost use Rattle.std.specs.Prelude.{◌≡◌, ◌==◌, ◌≤◌, ◌↔◌, ℕ, ◌+◌, List, [], ◌∷◌, ◌++◌, slice_get};
ghost use Rattle.std.specs.Prelude.{true, false, cond, IsTrue, Some, None, is_some, IsSome, IfSome};
ghost use Rattle.std.specs.Prelude.{IfOk, OnOk, OnErr};
ghost use Rattle.moka_hist.specs.Finite.{put_at};
ghost use Rattle.moka_evaluator.specs.Evaluator.{Evaluator, Stack, fresh, is_owner, known_in, live};
ghost use Rattle.moka_evaluator.specs.Finishing.{IsPlainAnswer, answer_in, finished, round, take_turns};
ghost use Rattle.moka_evaluator.specs.Laws.{IsAskedFor, Keeps};
ghost use Rattle.moka_evaluator.specs.Plain.{IsAcyclic, rule_at};
ghost use Rattle.moka_evaluator.specs.Sound.{LieBelow};
ghost use Rattle.moka_evaluator.specs.Steps.{asked, dropped, just, let_go, line_after, most_live, needs};
ghost use Rattle.moka_evaluator.specs.Steps.{passed, seeks, turned, turned_at, works};
ghost use Rattle.moka_evaluator.specs.declared.frames.Frame.{Frame};
ghost use Rattle.moka_evaluator.specs.declared.turns.Turned.TheVariants as turn_is;
ghost use Rattle.moka_memo.specs.Memo.{AnyEvaluator, HasTop, IsMemo, IsPlainTurn, IsSpent, IsStanding};
ghost use Rattle.moka_memo.specs.Memo.{IsUsable, LoadsOnce, Needs, SeeksItself, Turns};
ghost use Rattle.moka_memo.specs.Passing.{IsLeaving, IsNext, IsPassing};
ghost use Rattle.moka_stacks.specs.Places.{line_at, owner_at};
ghost use Rattle.moka_stacks.specs.Queries.{count_of, nearest_first, stack_at, stack_of};

use moka_claims::{Claims, Look};
use moka_evaluator::{Answer, AnswerList, Frame, Rule, RuleList, Turned};
use moka_stacks::{Places, Queries, Query};
use std::alloc::{AllocError, Global};

/// How many queries are live at most.
const MOST_LIVE: usize = 100;

/// An evaluator of acyclic rules, each of which is evaluated once, whoever asks for it, and in
/// whatever order the queries take their turns.
///
/// Want of memory spends a `Memo`: from then on each call that can answer it does.
#[derive(Drop)]
pub struct Memo {
    alloc: Global,
    rules: RuleList,
    claims: Claims,
    places: Places,
    queries: Queries,
    last: u64,
    known: u64,
    spent: bool,
}

impl Memo {
    /// Makes an evaluator of these rules, of which none is known yet. Each operand is an earlier rule,
    /// which `is_acyclic` tells.
    pub fn new(alloc: Global, rules: RuleList) -> Result<Self, AllocError>
        requires acyclic { IsAcyclic rules.items }
        ensures fresh { IfOk result (λ memo. IsMemo memo (fresh rules.items)) }
        ensures usable { IfOk result (λ memo. IsUsable memo) }
    {
        moka_evaluator::calls_keep_sound();
        moka_evaluator::claims_follow();
        let claims = Claims::new(alloc)?;
        let places = Places::new(alloc);
        let queries = Queries::new(alloc);
        Ok(Memo {
            alloc,
            rules,
            claims,
            places,
            queries,
            last: 0,
            known: 0,
            spent: false,
        })
    }

    /// Asks for the value of a rule, and answers the number of the query, the next one from 1. It
    /// answers None where there is no such rule, or 100 queries are live; then nothing changes. The
    /// end of the numbers counts as want of memory.
    pub fn ask(&mut self, rule: u32) -> Result<Option<u64>, AllocError>
        requires usable { IsUsable self.old }
        ensures asked { IfOk result (λ query. (e : Evaluator) → IsMemo self.old e
            → (query ≡ (asked e rule).0) × IsMemo self.new (asked e rule).1) }
        ensures asks { IfOk result (λ query. IfSome query (λ number. (e : Evaluator)
            → IsMemo self.new e → IsAskedFor e number rule)) }
        // laws
        ensures keeps { OnOk result ((e : Evaluator) → IsMemo self.old e
            → Keeps e (asked e rule).1) }
        ensures once { OnOk result (LoadsOnce self.new) }
        // want of memory
        ensures usable { IsUsable self.new }
        ensures spent { OnErr result (IsSpent self.new) }
        ensures stays { IsSpent self.old → OnOk result ⊥ }
    {
        if self.spent {
            return Err(AllocError);
        }
        match self.ask_unspent(rule) {
            Ok(query) => Ok(query),
            Err(_) => Err(self.spend()),
        }
    }

    /// Lets a query make one move, and tells what that came to: it answers NoQuery where the query is
    /// not live, and then nothing changes.
    pub fn turn(&mut self, query: u64) -> Result<Turned, AllocError>
        requires usable { IsUsable self.old }
        ensures turned { IfOk result (λ turn. (e : Evaluator) → IsMemo self.old e
            → (turn ≡ (turned e query).0) × IsMemo self.new (turned e query).1) }
        // laws
        ensures plain { IfOk result (λ turn. (e : Evaluator) → IsMemo self.old e
            → IsPlainTurn e query turn) }
        ensures keeps { OnOk result ((e : Evaluator) → IsMemo self.old e
            → Keeps e (turned e query).1) }
        ensures once { OnOk result (LoadsOnce self.new) }
        // want of memory
        ensures usable { IsUsable self.new }
        ensures spent { OnErr result (IsSpent self.new) }
        ensures stays { IsSpent self.old → OnOk result ⊥ }
    {
        if self.spent {
            return Err(AllocError);
        }
        match self.turn_unspent(query) {
            Ok(turn) => Ok(turn),
            Err(_) => Err(self.spend()),
        }
    }

    /// Drops a query, if it is live, and answers whether it was. Each rule that the query evaluates
    /// goes to the query that has waited for it longest, if any does. Values that are known stay.
    pub fn drop_query(&mut self, query: u64) -> Result<bool, AllocError>
        requires usable { IsUsable self.old }
        ensures dropped { IfOk result (λ was. (e : Evaluator) → IsMemo self.old e
            → (was ≡ (dropped e query).0) × IsMemo self.new (dropped e query).1) }
        // laws
        ensures keeps { OnOk result ((e : Evaluator) → IsMemo self.old e
            → Keeps e (dropped e query).1) }
        ensures once { OnOk result (LoadsOnce self.new) }
        // want of memory
        ensures usable { IsUsable self.new }
        ensures spent { OnErr result (IsSpent self.new) }
        ensures stays { IsSpent self.old → OnOk result ⊥ }
    {
        if self.spent {
            return Err(AllocError);
        }
        Ok(self.drop_unspent(query))
    }

    /// Lets all live queries take turns in order of number, round after round, until none is live, and
    /// lists each query with the value that it answered, in the order of answering.
    pub fn finish(&mut self) -> Result<AnswerList, AllocError>
        requires usable { IsUsable self.old }
        ensures finished { IfOk result (λ answers. (e : Evaluator) → IsMemo self.old e
            → (answers.items ≡ (finished e).0) × IsMemo self.new (finished e).1) }
        ensures none_live { OnOk result ((e : Evaluator) → IsMemo self.new e → live e ≡ []) }
        // laws
        ensures plain { IfOk result (λ answers. (e : Evaluator) → IsMemo self.old e
            → AllByRecursion (IsPlainAnswer e) answers.items) }
        ensures keeps { OnOk result ((e : Evaluator) → IsMemo self.old e
            → Keeps e (finished e).1) }
        ensures once { OnOk result (LoadsOnce self.new) }
        // want of memory
        ensures usable { IsUsable self.new }
        ensures spent { OnErr result (IsSpent self.new) }
        ensures stays { IsSpent self.old → OnOk result ⊥ }
    {
        if self.spent {
            return Err(AllocError);
        }
        match self.finish_unspent() {
            Ok(answers) => Ok(answers),
            Err(_) => Err(self.spend()),
        }
    }

    /// Counts the rules whose value is known. It takes no memory.
    pub fn known(&self) -> u64
        ensures { (e : Evaluator) → IsMemo self.now e → result ≡ known_in e }
    {
        self.known
    }

    // Asks for the value of a rule.
    fn ask_unspent(&mut self, rule: u32) -> Result<Option<u64>, AllocError>
        requires { IsStanding self.old AnyEvaluator }
        ensures { IfOk result (λ query. (e : Evaluator) → IsMemo self.old e
            → (query ≡ (asked e rule).0) × IsMemo self.new (asked e rule).1) }
    {
        if self.is_full() {
            return Ok(None);
        }
        match self.rule(rule) {
            Some(_found) => self.add(rule),
            None => Ok(None),
        }
    }

    // Whether as many queries are live as may be.
    fn is_full(&self) -> bool
        ensures { IsTrue result ↔ (most_live ≤ count_of self.now.queries) }
    {
        self.queries.count() >= MOST_LIVE
    }

    // Adds a query that seeks the rule.
    fn add(&mut self, rule: u32) -> Result<Option<u64>, AllocError>
        requires { IsStanding self.old (λ e. IsSome (rule_at e.rules rule)) }
        ensures { IfOk result (λ query. (e : Evaluator) → IsMemo self.old e
            → IsSome (rule_at e.rules rule)
            → (query ≡ Some (e.last + 1)) × IsMemo self.new (record e {
              stack = put_at e.stack (e.last + 1) (Some (just rule));
              last = e.last + 1;
            })) }
    {
        let Some(query) = self.last.checked_add(1) else {
            return Err(AllocError);
        };
        self.claims.seek(query, rule)?;
        self.queries.add(query, rule)?;
        self.last = query;
        Ok(Some(query))
    }

    // Lets a query make one move.
    fn turn_unspent(&mut self, query: u64) -> Result<Turned, AllocError>
        requires { IsStanding self.old AnyEvaluator }
        ensures { IfOk result (λ turn. (e : Evaluator) → IsMemo self.old e
            → (turn ≡ (turned e query).0) × IsMemo self.new (turned e query).1) }
    {
        match self.queries.top(query) {
            Some(top) => self.turn_top(query, top),
            None => Ok(Turned::NoQuery),
        }
    }

    // Lets a query with this top frame make one move.
    fn turn_top(&mut self, query: u64, top: Frame) -> Result<Turned, AllocError>
        requires { IsStanding self.old (HasTop query top) }
        ensures { IfOk result (λ turn. (e : Evaluator) (s : Stack) → IsMemo self.old e
            → e.stack query ≡ Some s → s.top ≡ top
            → Turns self.new turn (turned_at e query (Some s))) }
    {
        if top.owns {
            self.work(query, top)
        } else {
            self.seek(query, top)
        }
    }

    // The rule of this number, if there is one.
    fn rule(&self, number: u32) -> Option<Rule>
        ensures { result ≡ rule_at self.now.rules.items number }
    {
        if number == 0 {
            return None;
        }
        self.rules.get(number as usize - 1).copied()
    }

    // Whether the query owns the rule, or was passed it.
    fn owns(&self, query: u64, rule: u32) -> bool
        ensures { result
            ≡ option_map_or (λ owner. owner == query) (owner_at self.now.places rule) false }
    {
        match self.places.owner(rule) {
            Some(owner) => owner == query,
            None => false,
        }
    }

    // The top frame owns its rule: it seeks the operand that it needs, or its value becomes known.
    fn work(&mut self, query: u64, top: Frame) -> Result<Turned, AllocError>
        requires stands { IsStanding self.old (HasTop query top) }
        requires owns { top.owns ≡ true }
        ensures { IfOk result (λ turn. (e : Evaluator) (s : Stack) → IsMemo self.old e
            → e.stack query ≡ Some s → s.top ≡ top
            → Turns self.new turn (works e query s (needs e.rules s.top))) }
    {
        match self.rule(top.rule) {
            Some(rule) => self.work_by(query, top, rule),
            None => unreachable!(),
        }
    }

    // The top frame owns this rule: it seeks the operand that it needs, or its value becomes known.
    fn work_by(&mut self, query: u64, top: Frame, rule: Rule) -> Result<Turned, AllocError>
        requires stands { IsStanding self.old (HasTop query top) }
        requires owns { top.owns ≡ true }
        requires rule { rule_at self.old.rules.items top.rule ≡ Some rule }
        ensures { IfOk result (λ turn. (e : Evaluator) (s : Stack) → IsMemo self.old e
            → e.stack query ≡ Some s → s.top ≡ top
            → Turns self.new turn (works e query s (needs e.rules s.top))) }
    {
        match rule.next_operand(top.operands) {
            Some(operand) => self.put_on(query, operand),
            None => self.make_known(query, top, rule),
        }
    }

    // Puts a frame on the query's stack that seeks the operand.
    fn put_on(&mut self, query: u64, operand: u32) -> Result<Turned, AllocError>
        requires { IsStanding self.old (Needs query operand) }
        ensures { IfOk result (λ turn. (e : Evaluator) (s : Stack) → IsMemo self.old e
            → e.stack query ≡ Some s → s.top.owns ≡ true → needs e.rules s.top ≡ Some operand
            → Turns self.new turn (works e query s (Some operand))) }
    {
        self.claims.seek(query, operand)?;
        self.queries.seek(query, operand)?;
        Ok(Turned::Moved)
    }

    // Makes the value of the top frame's rule known, and takes the frame off.
    fn make_known(&mut self, query: u64, top: Frame, rule: Rule) -> Result<Turned, AllocError>
        requires stands { IsStanding self.old (HasTop query top) }
        requires owns { top.owns ≡ true }
        requires rule { rule_at self.old.rules.items top.rule ≡ Some rule }
        requires needs { needs self.old.rules.items top ≡ None }
        ensures { IfOk result (λ turn. (e : Evaluator) (s : Stack) → IsMemo self.old e
            → e.stack query ≡ Some s → s.top ≡ top
            → Turns self.new turn (works e query s None)) }
    {
        let value = rule.value_from(top.operands);
        self.claims.settle(top.rule, value)?;
        self.places.close(top.rule);
        self.known += 1;
        Ok(self.queries.come_off(query, value))
    }

    // The top frame seeks its rule: the query owns that, where it was passed it, or looks at it.
    fn seek(&mut self, query: u64, top: Frame) -> Result<Turned, AllocError>
        requires stands { IsStanding self.old (HasTop query top) }
        requires seeks { top.owns ≡ false }
        ensures { IfOk result (λ turn. (e : Evaluator) (s : Stack) → IsMemo self.old e
            → e.stack query ≡ Some s → s.top ≡ top
            → Turns self.new turn (seeks e query s (e.known s.top.rule))) }
    {
        if self.owns(query, top.rule) {
            self.queries.own(query);
            return Ok(Turned::Moved);
        }
        self.look(query, top.rule)
    }

    // The query looks at the rule that it seeks by a call of its own.
    fn look(&mut self, query: u64, rule: u32) -> Result<Turned, AllocError>
        requires { IsStanding self.old (SeeksItself query rule) }
        ensures { IfOk result (λ turn. (e : Evaluator) (s : Stack) → IsMemo self.old e
            → e.stack query ≡ Some s → s.top.rule ≡ rule → s.top.owns ≡ false
            → is_owner e query rule ≡ false
            → Turns self.new turn (seeks e query s (e.known s.top.rule))) }
    {
        let seen = self.claims.look(query)?;
        match seen {
            Look::Value { value } => Ok(self.queries.come_off(query, value)),
            Look::Holds => self.take(query, rule),
            Look::Waits { before } => self.wait(query, rule, before),
        }
    }

    // Lets the query own a rule that none did.
    fn take(&mut self, query: u64, rule: u32) -> Result<Turned, AllocError>
        ensures { IfOk result (λ turn. (turn ≡ turn_is.Moved)
            × ((r : ℕ) → owner_at self.new.places r
            ≡ put_at (owner_at self.old.places) rule (Some query) r)
            × ((r : ℕ) → line_at self.new.places r ≡ put_at (line_at self.old.places) rule [] r)
            × ((s : Stack) → stack_at self.old.queries query ≡ Some s → (q : ℕ)
            → stack_at self.new.queries q ≡ put_at (stack_at self.old.queries) query
            (Some (record s { top = record s.top { owns = true } })) q)
            × (count_of self.new.queries ≡ count_of self.old.queries)
            × (self.new
            ≡ record self.old { places = self.new.places; queries = self.new.queries })) }
    {
        self.places.take(rule, query)?;
        self.queries.own(query);
        Ok(Turned::Moved)
    }

    // Lets the query wait for the rule, in whose line it may be already.
    fn wait(&mut self, query: u64, rule: u32, before: bool) -> Result<Turned, AllocError>
        requires { IsSome (owner_at self.old.places rule) }
        ensures { IfOk result (λ turn. (turn ≡ turn_is.Waits rule)
            × ((r : ℕ) → owner_at self.new.places r ≡ owner_at self.old.places r)
            × ((r : ℕ) → line_at self.new.places r ≡ put_at (line_at self.old.places) rule
            (cond before (line_at self.old.places rule)
            (line_at self.old.places rule ++ query ∷ [])) r)
            × (self.new ≡ record self.old { places = self.new.places })) }
    {
        if !before {
            self.places.wait(rule, query)?;
        }
        Ok(Turned::Waits { rule })
    }

    // Lets all live queries take turns until none is live.
    fn finish_unspent(&mut self) -> Result<AnswerList, AllocError>
        requires { IsStanding self.old AnyEvaluator }
        ensures finished { IfOk result (λ answers. (e : Evaluator) → IsMemo self.old e
            → (answers.items ≡ (finished e).0) × IsMemo self.new (finished e).1) }
        ensures none { OnOk result (count_of self.new.queries ≡ 0) }
    {
        moka_evaluator::finish_ends();
        let mut answers = Vec::new(self.alloc);
        'rounds: while self.queries.count() > 0 {
            self.round(&mut answers)?;
        }
        Ok(answers)
    }

    // Lets each live query take a turn, in order of number, and appends the answers.
    fn round(&mut self, answers: &mut AnswerList) -> Result<(), AllocError>
        requires { IsStanding self.old AnyEvaluator }
        ensures { OnOk result ((e : Evaluator) → IsMemo self.old e
            → (answers.new.items ≡ answers.old.items ++ (round e).0) × IsMemo self.new (round e).1) }
    {
        let queries = self.queries.numbers()?;
        self.take_turns(&queries, answers)
    }

    // Lets these queries take a turn each, and appends the answers.
    fn take_turns(&mut self, queries: &[u64], answers: &mut AnswerList) -> Result<(), AllocError>
        requires { IsStanding self.old AnyEvaluator }
        ensures { OnOk result ((e : Evaluator) → IsMemo self.old e
            → (answers.new.items ≡ answers.old.items ++ (take_turns e queries.now).0)
            × IsMemo self.new (take_turns e queries.now).1) }
    {
        for query in queries {
            let turned = self.turn_unspent(*query)?;
            push_answer(answers, *query, turned)?;
        }
        Ok(())
    }

    // Drops a query, if it is live.
    fn drop_unspent(&mut self, query: u64) -> bool
        requires { IsStanding self.old AnyEvaluator }
        ensures { (e : Evaluator) → IsMemo self.old e
            → (result ≡ (dropped e query).0) × IsMemo self.new (dropped e query).1 }
    {
        match self.queries.remove(query) {
            Some(left) => {
                self.let_go(query, left);
                true
            }
            None => false,
        }
    }

    // Lets go what a query had that is no longer live.
    fn let_go(&mut self, query: u64, left: Query)
        requires { (e : Evaluator) × IsLeaving self.old e query (stack_of left) }
        ensures { (e : Evaluator) → IsLeaving self.old e query (stack_of left)
            → IsMemo self.new (let_go e query (passed e query) (line_after e query)) }
    {
        let Query { top, below } = left;
        self.let_go_top(query, top);
        self.pass_all(below);
    }

    // Lets go what the top frame of such a query had: the rule that it owns, or its place in a line.
    fn let_go_top(&mut self, query: u64, top: Frame)
        requires { (e : Evaluator) × (s : Stack) × IsLeaving self.old e query s × (s.top ≡ top) }
        ensures { (e : Evaluator) (s : Stack) → IsLeaving self.old e query s → s.top ≡ top
            → IsPassing self.new e query s.below }
    {
        if self.owns(query, top.rule) {
            self.pass(top.rule);
            return;
        }
        self.claims.leave(query);
        self.places.leave(top.rule, query);
    }

    // Passes the rule of each frame, which the query owned that is no longer live.
    fn pass_all(&mut self, mut frames: Vec<Frame>)
        requires { (e : Evaluator) × (q : ℕ) × (r : ℕ)
            × IsPassing self.old e q (nearest_first frames.items)
            × LieBelow e.rules e.owner q r (nearest_first frames.items) }
        ensures { (e : Evaluator) (q r : ℕ) → IsPassing self.old e q (nearest_first frames.items)
            → LieBelow e.rules e.owner q r (nearest_first frames.items) → IsPassing self.new e q [] }
    {
        'frames: while let Some(frame) = frames.pop() {
            self.pass(frame.rule);
        }
    }

    // Passes a rule to the first of its line, whose own call for it goes, or frees the rule.
    fn pass(&mut self, rule: u32)
        requires { (e : Evaluator) × (q : ℕ) × (f : Frame) × (fs : List Frame)
            × IsNext self.old e q rule f fs }
        ensures { (e : Evaluator) (q : ℕ) (f : Frame) (fs : List Frame)
            → IsNext self.old e q rule f fs → IsPassing self.new e q fs }
    {
        match self.places.pass(rule) {
            Some(heir) => self.claims.leave(heir),
            None => self.claims.free(rule),
        }
    }

    // Spends the value.
    fn spend(&mut self) -> AllocError
        ensures { self.new ≡ record self.old { spent = true } }
    {
        self.spent = true;
        AllocError
    }
}

// Appends the query's answer, if its turn came to one.
fn push_answer(answers: &mut AnswerList, query: u64, turned: Turned) -> Result<(), AllocError>
    ensures { OnOk result (answers.new.items ≡ answers.old.items ++ answer_in query turned) }
{
    if let Turned::Value { value } = turned {
        answers.push(Answer { query, value })?;
    }
    Ok(())
}
