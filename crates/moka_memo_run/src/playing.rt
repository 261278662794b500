//! The lines of a source, one after the other, on a memo.
ghost use Rattle.std.specs.Prelude.{◌≡◌, ◌++◌, ◌∷◌, [], IfOk, OnOk};
ghost use Rattle.moka_evaluator.specs.Evaluator.{Evaluator};
ghost use Rattle.moka_memo.specs.Memo.{IsMemo, IsUsable};
ghost use Rattle.moka_lines.specs.Lines.{AreInPlace};
ghost use Rattle.moka_memo_run.specs.Lines.{Fits};
ghost use Rattle.moka_memo_run.specs.Playing.{AreAnsweredBy, Replies, memo_text, replied, rules_in};
ghost use Rattle.moka_memo_run.specs.declared.lines.Line.TheVariants as line_is;

use crate::lines::Line;
use crate::places::Lines;
use crate::replies::{push_asked, push_dropped, push_finished, push_known, push_turned};
use moka_evaluator::RuleList;
use moka_lines::LineProgram;
use moka_memo::Memo;
use std::alloc::{AllocError, Global};

/// Appends the rule of the line, if it is one.
fn push_rule(rules: &mut RuleList, line: Line) -> Result<(), AllocError>
    ensures { OnOk result (rules.new.items ≡ rules.old.items ++ rules_in (line ∷ [])) }
{
    match line {
        Line::Rule(rule) => {
            rules.push(rule)?;
            Ok(())
        }
        Line::Ask { .. } => Ok(()),
        Line::Turn { .. } => Ok(()),
        Line::Drop { .. } => Ok(()),
        Line::Finish => Ok(()),
    }
}

/// The rules among the lines, in their order.
fn rules_in(alloc: Global, lines: &[Line]) -> Result<RuleList, AllocError>
    ensures { IfOk result (λ rules. rules.items ≡ rules_in lines.now) }
{
    let mut rules = Vec::new(alloc);
    for line in lines {
        push_rule(&mut rules, *line)?;
    }
    Ok(rules)
}

/// Asks for a rule, and appends the reply.
fn ask(memo: &mut Memo, rule: u32, text: &mut Vec<u8>) -> Result<(), AllocError>
    requires { IsUsable memo.old }
    ensures replied { OnOk result ((e : Evaluator) → IsMemo memo.old e
        → Replies memo.new text.old.items text.new.items (replied e (line_is.Ask rule))) }
    ensures usable { IsUsable memo.new }
{
    let query = memo.ask(rule)?;
    push_asked(text, query)
}

/// Lets a query take a turn, and appends the reply.
fn turn(memo: &mut Memo, query: u64, text: &mut Vec<u8>) -> Result<(), AllocError>
    requires { IsUsable memo.old }
    ensures replied { OnOk result ((e : Evaluator) → IsMemo memo.old e
        → Replies memo.new text.old.items text.new.items (replied e (line_is.Turn query))) }
    ensures usable { IsUsable memo.new }
{
    let turned = memo.turn(query)?;
    push_turned(text, turned)
}

/// Drops a query, and appends the reply.
fn drop_query(memo: &mut Memo, query: u64, text: &mut Vec<u8>) -> Result<(), AllocError>
    requires { IsUsable memo.old }
    ensures replied { OnOk result ((e : Evaluator) → IsMemo memo.old e
        → Replies memo.new text.old.items text.new.items (replied e (line_is.Drop query))) }
    ensures usable { IsUsable memo.new }
{
    let dropped = memo.drop_query(query)?;
    push_dropped(text, dropped)
}

/// Lets all live queries take turns until none is live, and appends the reply.
fn finish(memo: &mut Memo, text: &mut Vec<u8>) -> Result<(), AllocError>
    requires { IsUsable memo.old }
    ensures replied { OnOk result ((e : Evaluator) → IsMemo memo.old e
        → Replies memo.new text.old.items text.new.items (replied e line_is.Finish)) }
    ensures usable { IsUsable memo.new }
{
    let answers = memo.finish()?;
    push_finished(text, &answers)
}

/// Does what the line says, and appends the reply.
fn reply(memo: &mut Memo, line: Line, text: &mut Vec<u8>) -> Result<(), AllocError>
    requires { IsUsable memo.old }
    ensures replied { OnOk result ((e : Evaluator) → IsMemo memo.old e
        → Replies memo.new text.old.items text.new.items (replied e line)) }
    ensures usable { IsUsable memo.new }
{
    match line {
        Line::Rule(_) => Ok(()),
        Line::Ask { rule } => ask(memo, rule, text),
        Line::Turn { query } => turn(memo, query, text),
        Line::Drop { query } => drop_query(memo, query, text),
        Line::Finish => finish(memo, text),
    }
}

/// Does what the lines say, on a memo of their rules, and answers the text of the replies.
fn reply_all(alloc: Global, lines: &[Line]) -> Result<Vec<u8>, AllocError>
    requires { AreInPlace Fits [] lines.now }
    ensures { IfOk result (λ text. text.items ≡ memo_text lines.now) }
{
    let rules = rules_in(alloc, lines)?;
    let mut memo = Memo::new(alloc, rules)?;
    let mut text = Vec::new(alloc);
    for line in lines {
        reply(&mut memo, *line, &mut text)?;
    }
    push_known(&mut text, memo.known())?;
    Ok(text)
}

impl LineProgram<Line, ()> for Lines {
    ghost answers = { AreAnsweredBy };

    fn of_nothing() -> &'static str {
        "known 0\n"
    }

    fn answer(alloc: Global, lines: Vec<Line>, _over: &mut ()) -> Result<Vec<u8>, AllocError>
        requires { AreInPlace Fits [] lines.items }
        ensures { IfOk result (λ text. text.items ≡ memo_text lines.items) }
    {
        reply_all(alloc, &lines)
    }
}
