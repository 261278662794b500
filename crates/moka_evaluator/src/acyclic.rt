//! Whether each operand is an earlier rule.
ghost use Rattle.std.specs.Prelude.{◌≡◌, ◌↔◌, IsTrue};
ghost use Rattle.moka_evaluator.specs.Plain.{IsAcyclic, are_earlier, is_earlier};

use crate::Rule;

// Whether the operand is one of so many rules.
fn is_earlier(count: usize, operand: u32) -> bool
    ensures { result ≡ is_earlier count operand }
{
    0 < operand && operand as usize <= count
}

impl Rule {
    /// Whether each operand is one of so many rules, which come before this one.
    pub fn has_earlier_operands(&self, count: usize) -> bool
        ensures { result ≡ are_earlier count self.now }
    {
        match self {
            Rule::Const(_) => true,
            Rule::Add(a, b) => is_earlier(count, *a) && is_earlier(count, *b),
            Rule::Mul(a, b) => is_earlier(count, *a) && is_earlier(count, *b),
            Rule::Min(a, b) => is_earlier(count, *a) && is_earlier(count, *b),
            Rule::Max(a, b) => is_earlier(count, *a) && is_earlier(count, *b),
            Rule::If(a, b, c) => {
                is_earlier(count, *a) && is_earlier(count, *b) && is_earlier(count, *c)
            }
        }
    }
}

/// Whether each operand of the rules is an earlier one, as an evaluator of them wants.
pub fn is_acyclic(rules: &[Rule]) -> bool
    ensures { IsTrue result ↔ IsAcyclic rules.now }
{
    for (earlier, rule) in rules.iter().enumerate() {
        if !rule.has_earlier_operands(earlier) {
            return false;
        }
    }
    true
}
