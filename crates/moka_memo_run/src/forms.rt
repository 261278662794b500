//! What a line spells, wherever it stands.
ghost use Rattle.std.specs.Prelude.{◌≡◌, bytes_eq, codes};
ghost use Rattle.moka_memo_run.specs.Forms.{line_of, pair_of, rule_of, three_of};

use crate::lines::Line;
use moka_evaluator::Rule;
use moka_lines::{after, cut, u32_in, u64_in};

/// Two rules, with one space between them.
#[tactic(auto, unfolding(crate::specs::Forms::pair_of))]
fn pair_of(bytes: &[u8]) -> Option<(u32, u32)>
    ensures { result ≡ pair_of bytes.now }
{
    let (first, second) = cut(bytes, b' ');
    let first = u32_in(first)?;
    let second = u32_in(second)?;
    Some((first, second))
}

/// Three rules, with a space between each two.
#[tactic(auto, unfolding(crate::specs::Forms::three_of))]
fn three_of(bytes: &[u8]) -> Option<(u32, (u32, u32))>
    ensures { result ≡ three_of bytes.now }
{
    let (first, others) = cut(bytes, b' ');
    let first = u32_in(first)?;
    let others = pair_of(others)?;
    Some((first, others))
}

/// The rule that these bytes spell, after the word `rule`.
#[tactic(auto, unfolding(crate::specs::Forms::rule_of))]
fn rule_of(bytes: &[u8]) -> Option<Rule>
    ensures { result ≡ rule_of bytes.now }
{
    if let Some(value) = after(bytes, b"const ") {
        return u32_in(value).map(Rule::Const);
    }
    if let Some(pair) = after(bytes, b"add ") {
        return pair_of(pair).map(|(a, b)| Rule::Add(a, b));
    }
    if let Some(pair) = after(bytes, b"mul ") {
        return pair_of(pair).map(|(a, b)| Rule::Mul(a, b));
    }
    if let Some(pair) = after(bytes, b"min ") {
        return pair_of(pair).map(|(a, b)| Rule::Min(a, b));
    }
    if let Some(pair) = after(bytes, b"max ") {
        return pair_of(pair).map(|(a, b)| Rule::Max(a, b));
    }
    if let Some(three) = after(bytes, b"if ") {
        return three_of(three).map(|(a, (b, c))| Rule::If(a, b, c));
    }
    None
}

/// Whether the line is this word. It is compared whole.
fn is_finish(bytes: &[u8]) -> bool
    ensures { result ≡ bytes_eq bytes.now (codes "finish") }
{
    bytes == b"finish".as_slice()
}

/// The line that these bytes spell, if they spell one.
#[tactic(auto, unfolding(crate::specs::Forms::line_of))]
pub(crate) fn line_of(bytes: &[u8]) -> Option<Line>
    ensures { result ≡ line_of bytes.now }
{
    if let Some(query) = after(bytes, b"turn ") {
        return u64_in(query).map(|query| Line::Turn { query });
    }
    if let Some(rule) = after(bytes, b"rule ") {
        return rule_of(rule).map(Line::Rule);
    }
    if let Some(rule) = after(bytes, b"ask ") {
        return u32_in(rule).map(|rule| Line::Ask { rule });
    }
    if let Some(query) = after(bytes, b"drop ") {
        return u64_in(query).map(|query| Line::Drop { query });
    }
    if is_finish(bytes) {
        return Some(Line::Finish);
    }
    None
}
