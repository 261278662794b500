//! How a call goes on from the root.

ghost use Rattle.std.specs.Prelude.{◌≡◌, [], Some, None};
ghost use Rattle.moka_calls.specs.declared.course.Point.TheVariants as point;
ghost use Rattle.moka_words.specs.Rehash.{rehash_op};
ghost use Rattle.moka_growth.specs.Calls.{counted, goes, in_root, is_due, next_at, start_of, without_root};
ghost use Rattle.moka_growth.specs.Calls as call;
ghost use Rattle.moka_calls.specs.Standing.{IsOn, IsSize, MaySee, course_call, step_of};
ghost use Rattle.moka_words.specs.declared.accesses.Access.TheVariants as access;

use crate::course::{Course, Point, Spot};
use crate::{Decision, NodeList};
use moka_growth::CallKind;
use moka_words::{RehashOp, Seen};

/// The greatest count that the hint takes.
const MOST: u64 = 1 << 60;

impl Course {
    /// Goes on by the root that the call saw.
    pub fn take_root(&mut self, met: Option<u64>, seen: Seen)
        requires undecided { self.old.decision ≡ None }
        requires fits { MaySee access.LoadRoot seen }
        ensures step { step_of self.new ≡ next_at (course_call self.old) (call.Root met) seen }
        ensures on { IsOn self.new }
    {
        match seen {
            Seen::Root {
                array,
                length,
                tombstones,
                len,
            } => match array {
                None => self.without_root(),
                Some(array) => self.in_root(met, array, length, tombstones, len),
            },
            _ => unreachable!(),
        }
    }

    // An insert links the first array, the others find nothing.
    fn without_root(&mut self)
        requires undecided { self.old.decision ≡ None }
        ensures step { step_of self.new ≡ without_root self.old.kind (course_call self.old) }
        ensures on { IsOn self.new }
    {
        self.kept.clear();
        self.point = Point::Next {
            array: None,
            size: 0,
        };
        match self.kind {
            CallKind::Get => self.decide(Decision::Kept { present: None }),
            CallKind::Insert => {}
            CallKind::Remove => self.decide(Decision::Kept { present: None }),
            CallKind::Keys => self.decide_nodes(),
        }
    }

    fn decide_nodes(&mut self)
        requires undecided { self.old.decision ≡ None }
        requires on { IsOn self.old }
        ensures step { step_of self.new ≡ call.Decided (call.Nodes []) }
        ensures on { IsOn self.new }
    {
        let none = NodeList::from_vec(Vec::new(self.alloc));
        self.decide(Decision::Nodes(none));
    }

    // A call that met a sealed word of the root helps to grow it. An update may do so by the
    // hint.
    fn in_root(&mut self, met: Option<u64>, array: u64, size: usize, tombstones: u64, len: u64)
        requires undecided { self.old.decision ≡ None }
        requires size { IsSize size }
        ensures step { step_of self.new
            ≡ in_root (course_call self.old) met array size tombstones len }
        ensures on { IsOn self.new }
    {
        if met == Some(array) {
            self.seal_all(array, size);
        } else if self.is_due(size, tombstones, len) {
            self.spent = true;
            self.seal_all(array, size);
        } else {
            self.start(array, size);
        }
    }

    // Whether an update is to grow the root by the hint, which it does once.
    fn is_due(&self, size: usize, tombstones: u64, len: u64) -> bool
        ensures { result ≡ is_due self.now.kind self.now.spent size tombstones len }
    {
        match self.kind {
            CallKind::Get => false,
            CallKind::Insert => !self.spent && is_hinted(size as u64, tombstones, len),
            CallKind::Remove => !self.spent && is_hinted(size as u64, tombstones, len),
            CallKind::Keys => false,
        }
    }

    // Begins in the root.
    fn start(&mut self, array: u64, size: usize)
        requires undecided { self.old.decision ≡ None }
        requires size { IsSize size }
        ensures step { step_of self.new
            ≡ goes (course_call self.old) (start_of self.old.kind array size) }
        ensures on { IsOn self.new }
    {
        let spot = Spot {
            array,
            size,
            passed: 0,
        };
        match self.kind {
            CallKind::Get => self.point = Point::Probe { spot },
            CallKind::Insert => self.point = Point::Probe { spot },
            CallKind::Remove => self.point = Point::Probe { spot },
            CallKind::Keys => {
                self.nodes.clear();
                self.point = Point::Walk { spot };
            }
        }
    }
}

fn is_hinted(size: u64, tombstones: u64, len: u64) -> bool
    ensures { result ≡ call.is_due_by (rehash_op (counted size) (counted tombstones)
        (counted len)) }
{
    match RehashOp::new(size.min(MOST), tombstones.min(MOST), len.min(MOST)) {
        RehashOp::Skip => false,
        _ => true,
    }
}
