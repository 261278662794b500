//! Random rules, and random orders of asks, turns, drops and finishes, beside the plain model.

use crate::model::{Act, Came, Model};
use crate::runs::run;
use moka_evaluator::{Rule, Turned};
use moka_memo_run::Status;
use rand_core::Rng;
use rand_pcg::Pcg32;
use std::alloc::{AllocError, Global};
use std::test::Fail;

/// How many orders are tried.
const ORDERS: u64 = 500;

/// A number below the bound, which isn't 0.
fn below(random: &mut Pcg32, bound: u32) -> u32 {
    random.next_u32() % bound.max(1)
}

/// A number from 1 to the most, which isn't 0.
fn one_of(random: &mut Pcg32, most: u32) -> u32 {
    random.next_u32() % most.max(1) + 1
}

/// A rule that builds on so many earlier ones.
fn rule(random: &mut Pcg32, earlier: u32) -> Rule {
    let a = one_of(random, earlier);
    let b = one_of(random, earlier);
    let c = one_of(random, earlier);
    match below(random, 7) {
        _ if earlier == 0 => Rule::Const(below(random, 3)),
        0 => Rule::Const(random.next_u32()),
        1 => Rule::Add(a, b),
        2 => Rule::Mul(a, b),
        3 => Rule::Min(a, b),
        4 => Rule::Max(a, b),
        _ => Rule::If(a, b, c),
    }
}

/// What is done next, once so many queries were asked of so many rules.
fn act(random: &mut Pcg32, rules: u32, asked: u64) -> Act {
    let query = u64::from(below(random, 1000)) % (asked.min(999) + 2);
    match below(random, 20) {
        0..=3 => Act::Ask(below(random, rules.min(9) + 2)),
        4 => Act::Drop(query),
        5 if asked > 4 => Act::Finish,
        _ => Act::Turn(query),
    }
}

/// Appends the line of a rule.
fn push_rule(text: &mut String, rule: Rule) -> Result<(), AllocError> {
    match rule {
        Rule::Const(n) => write!(text, "rule const {n}\n"),
        Rule::Add(a, b) => write!(text, "rule add {a} {b}\n"),
        Rule::Mul(a, b) => write!(text, "rule mul {a} {b}\n"),
        Rule::Min(a, b) => write!(text, "rule min {a} {b}\n"),
        Rule::Max(a, b) => write!(text, "rule max {a} {b}\n"),
        Rule::If(a, b, c) => write!(text, "rule if {a} {b} {c}\n"),
    }
}

/// Appends the line of what is done.
fn push_act(text: &mut String, act: Act) -> Result<(), AllocError> {
    match act {
        Act::Ask(rule) => write!(text, "ask {rule}\n"),
        Act::Turn(query) => write!(text, "turn {query}\n"),
        Act::Drop(query) => write!(text, "drop {query}\n"),
        Act::Finish => write!(text, "finish\n"),
    }
}

/// Appends the reply to a turn.
fn push_turned(text: &mut String, turned: Turned) -> Result<(), AllocError> {
    match turned {
        Turned::Moved => write!(text, "moved\n"),
        Turned::Waits { rule } => write!(text, "wait {rule}\n"),
        Turned::Value { value } => write!(text, "value {value}\n"),
        Turned::NoQuery => write!(text, "refused\n"),
    }
}

/// Appends what came of it.
fn push_came(text: &mut String, came: Came) -> Result<(), AllocError> {
    match came {
        Came::Query(Some(query)) => write!(text, "query {query}\n")?,
        Came::Query(None) => write!(text, "refused\n")?,
        Came::Turned(turned) => push_turned(text, turned)?,
        Came::Dropped(true) => write!(text, "dropped\n")?,
        Came::Dropped(false) => write!(text, "refused\n")?,
        Came::Answers(answers) => {
            for answer in &answers {
                write!(text, "answer {} {}\n", answer.query, answer.value)?;
            }
            write!(text, "finished\n")?;
        }
    }
    Ok(())
}

/// Random lines, and what the model replies to them.
fn lines(alloc: Global, random: &mut Pcg32) -> Result<(String, String), AllocError> {
    let mut text = String::new(alloc);
    let mut replies = String::new(alloc);
    let mut rules = Vec::new(alloc);
    let count = one_of(random, 8);
    for earlier in 0..count {
        let next = rule(random, earlier);
        push_rule(&mut text, next)?;
        rules.push(next)?;
    }
    let mut model = Model::new(alloc, rules);
    for _ in 0..60u32 {
        let next = act(random, count, model.last());
        push_act(&mut text, next)?;
        push_came(&mut replies, model.carry_out(next)?)?;
    }
    write!(replies, "known {}\n", model.known())?;
    Ok((text, replies))
}

#[test]
fn random_orders_are_answered_as_the_model_says(rt: HostRuntime) -> Result<(), Fail> {
    for order in 0..ORDERS {
        let mut random = Pcg32::new(order, 53);
        let (text, replies) = lines(rt.alloc(), &mut random)?;
        let ended = run(rt.alloc(), text.as_str())?;
        assert!(rt;
            ended.came_to(Status::Done, replies.as_str()),
            "in order {order}"
        );
    }
    Ok(())
}
