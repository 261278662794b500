//! What a user of an evaluator is promised.

ghost use Rattle.std.specs.Prelude.{ℕ};
ghost use Rattle.moka_evaluator.specs.Evaluator.{Evaluator};
ghost use Rattle.moka_evaluator.specs.Finishing.{FinishedArePlain, finished};
ghost use Rattle.moka_evaluator.specs.Laws.{AnswersArePlain, InOneFrame, Keeps, KnownStays, OneEvaluates};
ghost use Rattle.moka_evaluator.specs.Laws.{OthersStay, RuleStays};
ghost use Rattle.moka_evaluator.specs.Sound.{IsSound};
ghost use Rattle.moka_evaluator.specs.Steps.{asked, dropped, turned};

/// What a query answers is the plain value of the rule that it was asked for. That is the rule of its
/// lowest frame, which stays until it answers; a turn of another query leaves its stack as it is. So the
/// answers of a finish are plain values too.
pub fn answers_are_plain()
    ensures plain { AnswersArePlain }
    ensures rule { RuleStays }
    ensures others { OthersStay }
    ensures finished { FinishedArePlain }
{}

/// At most one live query evaluates a rule, in one frame of its stack.
pub fn one_evaluates_each()
    ensures one { OneEvaluates }
    ensures frame { InOneFrame }
{}

/// A known value stays as it is, whatever is called, and its rule is never owned anew.
pub fn known_stays()
    ensures { KnownStays }
{}

/// Each call keeps the rules, what is known of them, and for which rule each live query was asked;
/// and after it each rule is evaluated once.
pub fn calls_keep()
    ensures asked { (e : Evaluator) (r : ℕ) → IsSound e → Keeps e (asked e r).1 }
    ensures turned { (e : Evaluator) (q : ℕ) → IsSound e → Keeps e (turned e q).1 }
    ensures dropped { (e : Evaluator) (q : ℕ) → IsSound e → Keeps e (dropped e q).1 }
    ensures finished { (e : Evaluator) → IsSound e → Keeps e (finished e).1 }
{}
