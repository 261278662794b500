//! A plain model of an evaluator of a few rules, over maps of its own.

use moka_evaluator::{Answer, Rule, Turned};
use std::alloc::{AllocError, Global};
use std::collections::BTreeMap;

/// One thing that is done.
#[derive(Clone, Copy, PartialEq, Debug)]
pub enum Act {
    Ask(u32),
    Turn(u64),
    Drop(u64),
    Finish,
}

/// What came of it.
#[derive(PartialEq, Debug, Drop)]
pub enum Came {
    Query(Option<u64>),
    Turned(Turned),
    Dropped(bool),
    Answers(Vec<Answer>),
}

/// A frame: its rule, whether it is owned here, and the operands' values so far.
#[derive(Drop)]
struct Frame {
    rule: u32,
    owns: bool,
    operands: Vec<u32>,
}

/// The rules, what is known of them, who owns each and who waits for it, and the stack of each query.
#[derive(Drop)]
pub struct Model {
    alloc: Global,
    rules: Vec<Rule>,
    known: BTreeMap<u32, u32>,
    owner: BTreeMap<u32, u64>,
    lines: BTreeMap<u32, Vec<u64>>,
    stacks: BTreeMap<u64, Vec<Frame>>,
    last: u64,
}

/// What a rule needs next, or its value where it needs nothing.
enum Need {
    Operand(u32),
    Value(u32),
}

/// What a rule of two operands needs, whose value with both is this.
fn of_two(a: u32, b: u32, operands: &[u32], value: u32) -> Need {
    match operands.len() {
        0 => Need::Operand(a),
        1 => Need::Operand(b),
        _ => Need::Value(value),
    }
}

/// The operand at this place, 0 where there is none yet.
fn operand(operands: &[u32], place: usize) -> u32 {
    match operands.get(place) {
        Some(value) => *value,
        None => 0,
    }
}

/// What the rule needs with these operands.
fn need_of(rule: Rule, operands: &[u32]) -> Need {
    let x = operand(operands, 0);
    let y = operand(operands, 1);
    match rule {
        Rule::Const(value) => Need::Value(value),
        Rule::Add(a, b) => of_two(a, b, operands, x.wrapping_add(y)),
        Rule::Mul(a, b) => of_two(a, b, operands, x.wrapping_mul(y)),
        Rule::Min(a, b) => of_two(a, b, operands, x.min(y)),
        Rule::Max(a, b) => of_two(a, b, operands, x.max(y)),
        Rule::If(a, b, c) => of_two(a, if x == 0 { c } else { b }, operands, y),
    }
}

impl Model {
    /// Nothing is known, and no query was asked.
    pub fn new(alloc: Global, rules: Vec<Rule>) -> Self {
        Model {
            alloc,
            rules,
            known: BTreeMap::new(alloc),
            owner: BTreeMap::new(alloc),
            lines: BTreeMap::new(alloc),
            stacks: BTreeMap::new(alloc),
            last: 0,
        }
    }

    /// How many queries were asked.
    pub fn last(&self) -> u64 {
        self.last
    }

    /// How many rules are known.
    pub fn known(&self) -> u64 {
        self.known.len() as u64
    }

    /// Does it, as `carry_out` does.
    pub fn carry_out(&mut self, act: Act) -> Result<Came, AllocError> {
        match act {
            Act::Ask(rule) => Ok(Came::Query(self.ask(rule)?)),
            Act::Turn(query) => Ok(Came::Turned(self.turn(query)?)),
            Act::Drop(query) => Ok(Came::Dropped(self.drop_query(query)?)),
            Act::Finish => Ok(Came::Answers(self.finish()?)),
        }
    }

    // The rule of this number.
    fn rule(&self, number: u32) -> Option<Rule> {
        if number == 0 {
            return None;
        }
        self.rules.get(number as usize - 1).copied()
    }

    // A frame that seeks the rule.
    fn seeks(&self, rule: u32) -> Frame {
        Frame {
            rule,
            owns: false,
            operands: Vec::new(self.alloc),
        }
    }

    // A new query seeks the rule, unless 100 are live.
    fn ask(&mut self, rule: u32) -> Result<Option<u64>, AllocError> {
        if self.rule(rule).is_none() || self.stacks.len() >= 100 || self.last > 1000 {
            return Ok(None);
        }
        self.last += 1;
        let mut stack = Vec::new(self.alloc);
        stack.push(self.seeks(rule))?;
        self.stacks.insert(self.last, stack)?;
        Ok(Some(self.last))
    }

    // Takes the top frame off, and hands its value down or answers it.
    fn hand_down(
        &mut self,
        query: u64,
        mut stack: Vec<Frame>,
        value: u32,
    ) -> Result<Turned, AllocError> {
        let Some(mut below) = stack.pop() else {
            return Ok(Turned::Value { value });
        };
        below.operands.push(value)?;
        stack.push(below)?;
        self.stacks.insert(query, stack)?;
        Ok(Turned::Moved)
    }

    // Works on a frame that owns its rule, and was taken off the stack.
    fn work(
        &mut self,
        query: u64,
        mut stack: Vec<Frame>,
        top: Frame,
    ) -> Result<Turned, AllocError> {
        let number = top.rule;
        let Some(rule) = self.rule(number) else {
            return Ok(Turned::NoQuery);
        };
        match need_of(rule, &top.operands) {
            Need::Value(value) => {
                self.known.insert(number, value)?;
                let _ = self.owner.remove(&number);
                let _ = self.lines.remove(&number);
                self.hand_down(query, stack, value)
            }
            Need::Operand(operand) => {
                stack.push(top)?;
                stack.push(self.seeks(operand))?;
                self.stacks.insert(query, stack)?;
                Ok(Turned::Moved)
            }
        }
    }

    // Works on a frame that seeks its rule, and was taken off the stack.
    fn seek(
        &mut self,
        query: u64,
        mut stack: Vec<Frame>,
        mut top: Frame,
    ) -> Result<Turned, AllocError> {
        let rule = top.rule;
        if let Some(value) = self.known.get(&rule).copied() {
            return self.hand_down(query, stack, value);
        }
        if self.owner.get(&rule).copied().unwrap_or(query) != query {
            stack.push(top)?;
            self.stacks.insert(query, stack)?;
            return self.wait(rule, query);
        }
        top.owns = true;
        self.owner.insert(rule, query)?;
        stack.push(top)?;
        self.stacks.insert(query, stack)?;
        Ok(Turned::Moved)
    }

    // Puts the query at the end of the line, unless it is in it.
    fn wait(&mut self, rule: u32, query: u64) -> Result<Turned, AllocError> {
        let mut line = match self.lines.remove(&rule) {
            Some(line) => line,
            None => Vec::new(self.alloc),
        };
        if !line.contains(&query) {
            line.push(query)?;
        }
        self.lines.insert(rule, line)?;
        Ok(Turned::Waits { rule })
    }

    // The query makes one move.
    fn turn(&mut self, query: u64) -> Result<Turned, AllocError> {
        let Some(mut stack) = self.stacks.remove(&query) else {
            return Ok(Turned::NoQuery);
        };
        let Some(top) = stack.pop() else {
            return Ok(Turned::NoQuery);
        };
        if top.owns {
            self.work(query, stack, top)
        } else {
            self.seek(query, stack, top)
        }
    }

    // Passes the rule to the first of its line, or frees it.
    fn pass(&mut self, rule: u32) -> Result<(), AllocError> {
        let mut line = match self.lines.remove(&rule) {
            Some(line) => line,
            None => Vec::new(self.alloc),
        };
        if line.is_empty() {
            let _ = self.owner.remove(&rule);
            return Ok(());
        }
        let heir = line.remove(0);
        self.owner.insert(rule, heir)?;
        self.lines.insert(rule, line)?;
        Ok(())
    }

    // The query goes, and passes what it owns.
    fn drop_query(&mut self, query: u64) -> Result<bool, AllocError> {
        let Some(stack) = self.stacks.remove(&query) else {
            return Ok(false);
        };
        for frame in &stack {
            if self.owner.get(&frame.rule).copied() == Some(query) {
                self.pass(frame.rule)?;
            } else if let Some(line) = self.lines.get_mut(&frame.rule) {
                line.retain(|other| *other != query);
            }
        }
        Ok(true)
    }

    // One round: each live query takes a turn, in order of number.
    fn round(&mut self, answers: &mut Vec<Answer>) -> Result<(), AllocError> {
        for before in 0..self.last {
            let query = before + 1;
            if let Turned::Value { value } = self.turn(query)? {
                answers.push(Answer { query, value })?;
            }
        }
        Ok(())
    }

    // Rounds, until none is live.
    fn finish(&mut self) -> Result<Vec<Answer>, AllocError> {
        let mut answers = Vec::new(self.alloc);
        for _ in 0..10_000u32 {
            if self.stacks.is_empty() {
                return Ok(answers);
            }
            self.round(&mut answers)?;
        }
        Ok(answers)
    }
}
