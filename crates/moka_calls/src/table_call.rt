//! A call to a segment.

ghost use Rattle.std.specs.Prelude.{◌≡◌, OnOk, OnErr, IfOk};
ghost use Rattle.std.specs.Option.{option_copied, option_map};
ghost use Rattle.moka_growth.specs.Calls.{Going, call_from};
ghost use Rattle.moka_calls.specs.Standing.{Awaits, IsGoing, Wants, WantsMemory, after, ending_in, ending_of, is_probing, listed_next};

use crate::Decision;
use crate::course::{Course, Point};
use moka_growth::CallKind;
use moka_words::{Access, Seen};
use std::alloc::{AllocError, Global};
use std::marker::Model;

/// A call, one access a step. Contracts see the call of `moka_growth` that it stands for, or how
/// that one ended.
#[derive(Drop)]
pub struct TableCall {
    course: Course,
}

impl Model for TableCall {
    ghost use Rattle.std.specs.Prelude.{◌≡◌, None};
    ghost use Rattle.moka_growth.specs.Calls.{Step};
    ghost use Rattle.moka_calls.specs.Standing.{IsOn, step_of};

    ghost Value = { Step };

    ghost view = { λ t. step_of t.course };

    ghost invariant = { λ t. IsOn t.course };
}

impl TableCall {
    /// Begins a call, under the hash of its key. A call that lists keys ignores the hash. Beginning
    /// a call takes no memory.
    pub fn new(alloc: Global, kind: CallKind, hash: u64) -> TableCall
        ensures { result ≡ Going (call_from kind hash) }
    {
        TableCall {
            course: Course {
                alloc,
                kind,
                hash,
                spent: false,
                point: Point::Root { met: None },
                nodes: Vec::new(alloc),
                kept: Vec::new(alloc),
                laid: Vec::new(alloc),
                decision: None,
            },
        }
    }

    /// Answers the access that the call makes next.
    pub fn want(&self) -> Access
        requires { IsGoing self.now }
        ensures { Wants self.now result }
    {
        self.course.access()
    }

    /// Goes on, or ends, by what the access saw. On want of memory the call is as before.
    pub fn take(&mut self, seen: Seen) -> Result<(), AllocError>
        requires { Awaits self.old seen }
        ensures ok { OnOk result (self.new ≡ after self.old seen) }
        ensures err { OnErr result ((self.new ≡ self.old) × WantsMemory self.old seen) }
    {
        self.course.take(seen)
    }

    /// Answers whether the call loads a bucket of its probe next. No other access leads a call to ask
    /// what is to be done.
    pub fn probes(&self) -> bool
        ensures { result ≡ is_probing self.now }
    {
        if self.course.decision.is_some() {
            return false;
        }
        match self.course.point {
            Point::Probe { .. } => true,
            _ => false,
        }
    }

    /// Answers where the word is that the call lists next, where it lists one: its array, and its
    /// index there. The call lists the node that the word stores, unless it is sealed.
    pub fn lists_next(&self) -> Option<(u64, usize)>
        ensures { result ≡ listed_next self.now }
    {
        if self.course.decision.is_some() {
            return None;
        }
        match self.course.point {
            Point::Walk { spot } => Some((spot.array, spot.passed)),
            _ => None,
        }
    }

    /// Answers how the call ended, or `None` exactly where it goes on.
    pub fn decided(&self) -> Option<&Decision>
        ensures { option_map ending_of (option_copied result) ≡ ending_in self.now }
    {
        self.course.decision.as_ref()
    }
}
