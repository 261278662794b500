//! How a call goes on along its probe.

ghost use Rattle.std.specs.Prelude.{◌≡◌, Some, None};
ghost use Rattle.moka_words.specs.declared.accesses.Access.TheVariants as access;
ghost use Rattle.moka_words.specs.declared.words.Word.{Word};
ghost use Rattle.moka_growth.specs.Calls.{absent, chosen, missed, next_at, past, past_all, present, probed, removed};
ghost use Rattle.moka_growth.specs.Calls as call;
ghost use Rattle.moka_calls.specs.Standing.{IsIn, IsOn, MaySee, course_call, step_of};

use crate::Decision;
use crate::course::{Course, Point, Spot};
use crate::words::{is_sealed, stored_in};
use moka_growth::CallKind;
use moka_words::{Choice, Seen, Word};

impl Course {
    /// Goes on by the word that the call saw in the bucket of its probe.
    pub fn take_word(&mut self, spot: Spot, seen: Seen)
        requires undecided { self.old.decision ≡ None }
        requires inside { IsIn spot }
        requires on { IsOn self.old }
        requires fits { MaySee (access.LoadWord 0 0) seen }
        ensures step { step_of self.new
            ≡ next_at (course_call self.old) (call.Probe spot.array spot.size spot.passed) seen }
        ensures on { IsOn self.new }
    {
        match seen {
            Seen::Word { word, same, .. } => self.probe(spot, word, same),
            _ => unreachable!(),
        }
    }

    fn probe(&mut self, spot: Spot, word: Word, same: bool)
        requires undecided { self.old.decision ≡ None }
        requires inside { IsIn spot }
        requires on { IsOn self.old }
        ensures step { step_of self.new
            ≡ probed (course_call self.old) spot.array spot.size spot.passed word same }
        ensures on { IsOn self.new }
    {
        match word {
            Word::Empty => self.absent(spot, word),
            Word::Live(node) if same => self.present(spot, node),
            Word::Tomb(_) if same => self.absent(spot, word),
            Word::Unset | Word::Live(_) | Word::Tomb(_) => self.pass(spot),
            _ => self.go(Point::Root {
                met: Some(spot.array),
            }),
        }
    }

    // The bucket has another key.
    fn pass(&mut self, spot: Spot)
        requires undecided { self.old.decision ≡ None }
        requires inside { IsIn spot }
        requires on { IsOn self.old }
        ensures step { step_of self.new
            ≡ past (course_call self.old) spot.array spot.size spot.passed }
        ensures on { IsOn self.new }
    {
        let passed = spot.passed + 1;
        if passed < spot.size {
            self.go(Point::Probe {
                spot: Spot { passed, ..spot },
            });
        } else {
            self.pass_all(spot);
        }
    }

    // No bucket is left: an insert grows the array.
    fn pass_all(&mut self, spot: Spot)
        requires undecided { self.old.decision ≡ None }
        requires inside { IsIn spot }
        requires on { IsOn self.old }
        ensures step { step_of self.new
            ≡ past_all self.old.kind (course_call self.old) spot.array spot.size }
        ensures on { IsOn self.new }
    {
        match self.kind {
            CallKind::Insert => self.seal_all(spot.array, spot.size),
            _ => self.decide(Decision::Kept { present: None }),
        }
    }

    // The key is absent; an insert asks what is to be done.
    fn absent(&mut self, spot: Spot, found: Word)
        requires undecided { self.old.decision ≡ None }
        requires inside { IsIn spot }
        requires on { IsOn self.old }
        ensures step { step_of self.new
            ≡ absent self.old.kind (course_call self.old) spot.array spot.size spot.passed found }
        ensures on { IsOn self.new }
    {
        match self.kind {
            CallKind::Insert => self.go(Point::Choose { spot, found }),
            _ => self.decide(Decision::Kept { present: None }),
        }
    }

    // The key is present; an update asks what is to be done.
    fn present(&mut self, spot: Spot, node: u64)
        requires undecided { self.old.decision ≡ None }
        requires inside { IsIn spot }
        requires on { IsOn self.old }
        ensures step { step_of self.new
            ≡ present self.old.kind (course_call self.old) spot.array spot.size spot.passed node }
        ensures on { IsOn self.new }
    {
        match self.kind {
            CallKind::Insert | CallKind::Remove => self.go(Point::Choose {
                spot,
                found: Word::Live(node),
            }),
            _ => self.decide(Decision::Kept {
                present: Some(node),
            }),
        }
    }

    /// Goes on by what the call was told to do.
    pub fn take_choice(&mut self, spot: Spot, found: Word, seen: Seen)
        requires undecided { self.old.decision ≡ None }
        requires inside { IsIn spot }
        requires on { IsOn self.old }
        requires fits { MaySee (access.Choose None) seen }
        ensures step { step_of self.new
            ≡ next_at (course_call self.old) (call.Choose spot.array spot.size spot.passed found) seen }
        ensures on { IsOn self.new }
    {
        match seen {
            Seen::Chosen(choice) => self.choose(spot, found, choice),
            _ => unreachable!(),
        }
    }

    fn choose(&mut self, spot: Spot, found: Word, choice: Choice)
        requires undecided { self.old.decision ≡ None }
        requires inside { IsIn spot }
        requires on { IsOn self.old }
        ensures step { step_of self.new
            ≡ chosen (course_call self.old) spot.array spot.size spot.passed found choice }
        ensures on { IsOn self.new }
    {
        match choice {
            Choice::Keep => self.decide(Decision::Kept {
                present: stored_in(found),
            }),
            Choice::Put { node } => self.go(Point::Change {
                spot,
                from: found,
                to: Word::Live(node),
            }),
            Choice::Remove => self.remove(spot, found),
        }
    }

    // A live node is removed by a tombstone in its place.
    fn remove(&mut self, spot: Spot, found: Word)
        requires undecided { self.old.decision ≡ None }
        requires inside { IsIn spot }
        requires on { IsOn self.old }
        ensures step { step_of self.new
            ≡ removed (course_call self.old) spot.array spot.size spot.passed found }
        ensures on { IsOn self.new }
    {
        match found {
            Word::Live(node) => self.go(Point::Change {
                spot,
                from: found,
                to: Word::Tomb(node),
            }),
            _ => self.decide(Decision::Kept { present: None }),
        }
    }

    /// Ends where the call made its exchange. Where the exchange met another word, the call tries
    /// the bucket anew.
    pub fn take_change(&mut self, spot: Spot, from: Word, seen: Seen)
        requires undecided { self.old.decision ≡ None }
        requires inside { IsIn spot }
        requires on { IsOn self.old }
        requires fits { MaySee (access.Exchange 0 0 from from) seen }
        ensures step { (to : Word) → step_of self.new
            ≡ next_at (course_call self.old) (call.Change spot.array spot.size spot.passed from to)
            seen }
        ensures on { IsOn self.new }
    {
        match seen {
            Seen::Exchanged(met) => match met {
                None => self.decide(Decision::Changed {
                    present: stored_in(from),
                }),
                Some(word) => self.miss(spot, word),
            },
            _ => unreachable!(),
        }
    }

    fn miss(&mut self, spot: Spot, met: Word)
        requires undecided { self.old.decision ≡ None }
        requires inside { IsIn spot }
        requires on { IsOn self.old }
        ensures step { step_of self.new
            ≡ missed (course_call self.old) spot.array spot.size spot.passed met }
        ensures on { IsOn self.new }
    {
        if is_sealed(met) {
            self.go(Point::Root {
                met: Some(spot.array),
            });
        } else {
            self.go(Point::Probe { spot });
        }
    }
}
