//! An evaluator that is called by hand.
ghost use Rattle.moka_memo.specs.Memo.{IsUsable};

use moka_memo::{Memo, Rule, RuleList, Turned, is_acyclic};
use std::alloc::{AllocError, Global};
use std::test::Fail;

#[test]
fn operands_are_earlier_rules(rt: HostRuntime) -> Result<(), Fail> {
    assert!(rt; is_acyclic(&[]));
    assert!(rt; is_acyclic(&[Rule::Const(0), Rule::Mul(1, 1), Rule::If(1, 2, 1)]));
    assert!(rt; !is_acyclic(&[Rule::Max(1, 1)]));
    assert!(rt; !is_acyclic(&[Rule::Const(1), Rule::Min(1, 0)]));
    assert!(rt; !is_acyclic(&[Rule::Const(1), Rule::Add(2, 1)]));
    assert!(rt; !is_acyclic(&[Rule::Const(1), Rule::If(1, 1, 2), Rule::Const(2)]));
    Ok(())
}

/// Lets a query take turns until it answers, at most twenty.
fn answer(memo: &mut Memo, query: u64) -> Result<Option<u32>, AllocError>
    requires { IsUsable memo.old }
    ensures { IsUsable memo.new }
{
    for _ in 0..20u32 {
        if let Turned::Value { value } = memo.turn(query)? {
            return Ok(Some(value));
        }
    }
    Ok(None)
}

/// Asks for a rule, and lets the query answer.
fn value_of(memo: &mut Memo, rule: u32) -> Result<Option<u32>, AllocError>
    requires { IsUsable memo.old }
    ensures { IsUsable memo.new }
{
    match memo.ask(rule)? {
        Some(query) => answer(memo, query),
        None => Ok(None),
    }
}

/// The values of rules 3 and 2, the second of which is known by then.
fn third_and_second_of(memo: &mut Memo) -> Result<Option<(u32, u32)>, AllocError>
    requires { IsUsable memo.old }
{
    let third = value_of(memo, 3)?;
    let second = value_of(memo, 2)?;
    Ok(third.zip(second))
}

/// The values of rules 3 and 2, the second of which is known by then. None where the rules are not
/// acyclic, or fewer.
fn third_and_second(alloc: Global, rules: RuleList) -> Result<Option<(u32, u32)>, AllocError> {
    if !is_acyclic(&rules) {
        return Ok(None);
    }
    let mut memo = Memo::new(alloc, rules)?;
    let values = third_and_second_of(&mut memo);
    drop(memo);
    values
}

#[test]
fn calls_by_hand_answer_plain_values(rt: HostRuntime) -> Result<(), Fail> {
    let good = vec![in rt.alloc(); Rule::Const(3), Rule::Add(1, 1), Rule::Max(2, 1)]?;
    assert_eq!(rt; third_and_second(rt.alloc(), good)?, Some((6, 6)));
    let bad = vec![in rt.alloc(); Rule::Const(3), Rule::Add(1, 2)]?;
    assert_eq!(rt; third_and_second(rt.alloc(), bad)?, None);
    Ok(())
}
