//! What holds of the evaluator.

ghost use Rattle.std.specs.Prelude.{◌≡◌, ◌≤◌, ◌<◌, ◌⊎◌, ℕ, List, [], length, Some};
ghost use Rattle.moka_evaluator.specs.Claimed.{AreClaims, no_claims};
ghost use Rattle.moka_evaluator.specs.Evaluator.{Evaluator, fresh, known_in, live};
ghost use Rattle.moka_evaluator.specs.Finishing.{after_round, finished, moves_left, round};
ghost use Rattle.moka_evaluator.specs.Sound.{IsSound};
ghost use Rattle.moka_evaluator.specs.Steps.{asked, dropped, turned};
ghost use Rattle.moka_evaluator.specs.Plain.{IsAcyclic, plain, rule_at, value_by};
ghost use Rattle.moka_evaluator.specs.declared.rules.Rule.{Rule};

/// The plain value of a rule follows from those of its operands, which are earlier rules.
pub fn plain_values_follow()
    ensures { (rules : List Rule) (r : ℕ) (rule : Rule) → IsAcyclic rules
        → rule_at rules r ≡ Some rule → plain rules r ≡ value_by (plain rules) rule }
{}

/// An evaluator on which nothing was asked is sound, and so is one after each call.
pub fn calls_keep_sound()
    ensures fresh { (rules : List Rule) → IsAcyclic rules → IsSound (fresh rules) }
    ensures asked { (e : Evaluator) (r : ℕ) → IsSound e → IsSound (asked e r).1 }
    ensures turned { (e : Evaluator) (q : ℕ) → IsSound e → IsSound (turned e q).1 }
    ensures dropped { (e : Evaluator) (q : ℕ) → IsSound e → IsSound (dropped e q).1 }
{}

/// An evaluator on which nothing was asked has no claims.
pub fn claims_follow()
    ensures fresh { (rules : List Rule) → AreClaims (fresh rules) no_claims }
{}

/// No more values are known than there are rules.
pub fn known_are_of_rules()
    ensures { (e : Evaluator) → known_in e ≤ length e.rules }
{}

/// All live queries take turns, round after round, until none is live: each round moves some query, and
/// the moves that are left get fewer.
pub fn finish_ends()
    ensures ends { (e : Evaluator) → IsSound e → live (finished e).1 ≡ [] }
    ensures sound { (e : Evaluator) → IsSound e → IsSound (finished e).1 }
    ensures none { (e : Evaluator) → live e ≡ [] → finished e ≡ ([], e) }
    ensures on { (e : Evaluator) → IsSound e → finished e ≡ after_round e }
    ensures moves { (e : Evaluator) → IsSound e
        → (live e ≡ []) ⊎ (moves_left (round e).1 < moves_left e) }
{}
