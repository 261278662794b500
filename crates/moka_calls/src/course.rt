//! Where a call stands, and what it wants next.

ghost use Rattle.std.specs.Prelude.{◌≡◌, ◌<◌, IfOk, OnOk, OnErr, [], Some, None};
ghost use Rattle.moka_words.specs.declared.words.Word.{Word};
ghost use Rattle.moka_growth.specs.Calls.{Going, Decided, access_of, next_of, goes};
ghost use Rattle.moka_growth.specs.Calls as call;
ghost use Rattle.moka_calls.specs.Standing.{IsIn, IsOn, IsSize, MaySee, MayWant, course_call, ending_of, step_of};

use crate::Decision;
use crate::layout::{bucket_at, next_size};
use crate::words::{seal_of, stored_in};
use moka_growth::CallKind;
use moka_words::{Access, Seen, Word};
use std::alloc::{AllocError, Global};

/// A place in an array: the array, its length, and how many of its words the call has passed.
#[derive(Clone, Copy)]
pub struct Spot {
    pub array: u64,
    pub size: usize,
    pub passed: usize,
}

/// Where a call stands.
#[derive(Clone, Copy)]
pub enum Point {
    /// The call loads the root. It has just met a sealed word in the array `met`, if in any.
    Root {
        met: Option<u64>,
    },
    /// The call loads a bucket of its probe.
    Probe {
        spot: Spot,
    },
    /// The call has found this word, and asks what to do.
    Choose {
        spot: Spot,
        found: Word,
    },
    /// The call exchanges that word.
    Change {
        spot: Spot,
        from: Word,
        to: Word,
    },
    /// The call lists the nodes, word by word.
    Walk {
        spot: Spot,
    },
    /// The call looks whether a word is sealed.
    Seal {
        spot: Spot,
    },
    /// The call seals the word that it found. The word's node has this hash.
    Close {
        spot: Spot,
        word: Word,
        hash: u64,
    },
    /// The call loads the array after a sealed one.
    Next {
        array: Option<u64>,
        size: usize,
    },
    /// The call links a new array there.
    Link {
        array: Option<u64>,
        size: usize,
    },
    /// The call copies the words that it laid out into that array.
    Copy {
        from: Option<u64>,
        array: u64,
        index: usize,
    },
    /// The call makes that array the root.
    Swing {
        from: Option<u64>,
        array: u64,
    },
}

/// A call: its kind, where it stands, and what it has gathered so far.
#[derive(Drop)]
pub struct Course {
    pub alloc: Global,
    pub kind: CallKind,
    pub hash: u64,
    /// Whether the call has grown an array by the hint.
    pub spent: bool,
    pub point: Point,
    /// The nodes that the call has listed so far.
    pub nodes: Vec<u64>,
    /// The nodes of the words that are sealed so far, with their hashes.
    pub kept: Vec<(u64, u64)>,
    /// The words that the array after the sealed one is to have.
    pub laid: Vec<Word>,
    pub decision: Option<Decision>,
}

impl Course {
    /// Answers the next access of the call.
    pub fn access(&self) -> Access
        requires { IsOn self.now }
        ensures { result ≡ access_of (course_call self.now) }
    {
        match self.point {
            Point::Root { .. } => Access::LoadRoot,
            Point::Probe { spot } => Access::LoadWord {
                array: spot.array,
                index: bucket_at(spot.size, self.hash, spot.passed),
            },
            Point::Choose { found, .. } => Access::Choose {
                present: stored_in(found),
            },
            Point::Change { spot, from, to } => Access::Exchange {
                array: spot.array,
                index: bucket_at(spot.size, self.hash, spot.passed),
                from,
                to,
            },
            Point::Walk { spot } => Access::LoadWord {
                array: spot.array,
                index: spot.passed,
            },
            Point::Seal { spot } => Access::LoadWord {
                array: spot.array,
                index: spot.passed,
            },
            Point::Close { spot, word, .. } => Access::Exchange {
                array: spot.array,
                index: spot.passed,
                from: word,
                to: seal_of(word),
            },
            Point::Next { array, .. } => Access::LoadNext { array },
            Point::Link { array, size } => Access::Link {
                array,
                length: next_size(array, size, self.kept.len()),
            },
            Point::Copy { array, index, .. } => Access::Copy {
                array,
                index,
                to: self.laid[index],
            },
            Point::Swing { from, array } => Access::Swing { from, to: array },
        }
    }

    /// Goes on, or ends, by what the access saw. On want of memory the call is as before.
    pub fn take(&mut self, seen: Seen) -> Result<(), AllocError>
        requires undecided { self.old.decision ≡ None }
        requires on { IsOn self.old }
        requires fits { MaySee (access_of (course_call self.old)) seen }
        ensures ok { OnOk result (step_of self.new ≡ next_of (course_call self.old) seen) }
        ensures on { IsOn self.new }
        ensures err { OnErr result ((step_of self.new ≡ step_of self.old)
            × MayWant (access_of (course_call self.old)) seen) }
    {
        match self.point {
            Point::Root { met } => {
                self.take_root(met, seen);
                Ok(())
            }
            Point::Probe { spot } => {
                self.take_word(spot, seen);
                Ok(())
            }
            Point::Choose { spot, found } => {
                self.take_choice(spot, found, seen);
                Ok(())
            }
            Point::Change { spot, from, .. } => {
                self.take_change(spot, from, seen);
                Ok(())
            }
            Point::Walk { spot } => self.take_listed(spot, seen),
            Point::Seal { spot } => self.take_found(spot, seen),
            Point::Close { spot, word, hash } => {
                self.take_seal(spot, word, hash, seen);
                Ok(())
            }
            Point::Next { array, size } => self.take_next(array, size, seen),
            Point::Link { array, size } => self.take_link(array, size, seen),
            Point::Copy { from, array, index } => {
                self.take_copy(from, array, index);
                Ok(())
            }
            Point::Swing { .. } => {
                self.take_swing();
                Ok(())
            }
        }
    }

    /// Ends the call so.
    pub fn decide(&mut self, decision: Decision)
        ensures { self.new ≡ record self.old { decision = Some decision } }
    {
        self.decision = Some(decision);
    }

    /// Goes on at this point.
    pub fn go(&mut self, point: Point)
        ensures { self.new ≡ record self.old { point = point } }
    {
        self.point = point;
    }

    /// Goes on to seal an array, from its first word.
    pub fn seal_all(&mut self, array: u64, size: usize)
        requires undecided { self.old.decision ≡ None }
        requires size { IsSize size }
        ensures step { step_of self.new ≡ goes (course_call self.old) (call.Seal array size 0 []) }
        ensures on { IsOn self.new }
    {
        self.kept.clear();
        self.point = Point::Seal {
            spot: Spot {
                array,
                size,
                passed: 0,
            },
        };
    }
}
