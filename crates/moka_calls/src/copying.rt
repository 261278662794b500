//! How a call links the next array, copies into it, and makes it the root.

ghost use Rattle.std.specs.Prelude.{◌≡◌, ◌≢◌, ℕ, ◌<◌, OnOk, OnErr, length, None};
ghost use Rattle.std.specs.Prelude.{length as list_length};
ghost use Rattle.moka_words.specs.declared.accesses.Access.TheVariants as access;
ghost use Rattle.moka_words.specs.declared.accesses.Seen.TheVariants as Seen;
ghost use Rattle.moka_growth.specs.Calls.{copies, goes, next_at};
ghost use Rattle.moka_growth.specs.Calls as call;
ghost use Rattle.moka_growth.specs.Growing.{next_size};
ghost use Rattle.moka_calls.specs.Standing.{IsOn, IsReady, IsSize, IsSizeOf, MaySee, MayWant, course_call, step_of};

use crate::course::{Course, Point};
use crate::layout::{lay_out, next_size};
use moka_words::Seen;
use std::alloc::AllocError;

impl Course {
    /// Goes on to copy into the next array that the call saw. Where there is none, the call lays
    /// out the array that it will link.
    pub fn take_next(
        &mut self,
        array: Option<u64>,
        size: usize,
        seen: Seen,
    ) -> Result<(), AllocError>
        requires undecided { self.old.decision ≡ None }
        requires point { self.old.point ≡ Point.Next array size }
        requires size { IsSizeOf array size }
        requires fits { MaySee (access.LoadNext array) seen }
        ensures ok { OnOk result (step_of self.new
            ≡ next_at (course_call self.old) (call.Next array size self.old.kept.items) seen) }
        ensures on { IsOn self.new }
        ensures err { OnErr result (step_of self.new ≡ step_of self.old) }
    {
        match seen {
            Seen::Next {
                array: next,
                length,
            } => match next {
                None => self.prepare(array, size),
                Some(next) => self.copy_all(array, next, length),
            },
            _ => unreachable!(),
        }
    }

    // Lays out the array to link.
    fn prepare(&mut self, array: Option<u64>, size: usize) -> Result<(), AllocError>
        requires undecided { self.old.decision ≡ None }
        requires point { self.old.point ≡ Point.Next array size }
        requires size { IsSizeOf array size }
        ensures ok { OnOk result (step_of self.new
            ≡ goes (course_call self.old) (call.Link array size self.old.kept.items)) }
        ensures on { IsOn self.new }
        ensures err { OnErr result (step_of self.new ≡ step_of self.old) }
    {
        let length = next_size(array, size, self.kept.len());
        self.laid = lay_out(self.alloc, &self.kept, length)?;
        self.go(Point::Link { array, size });
        Ok(())
    }

    /// Goes on to copy into the next array, whether this call linked it or another did.
    pub fn take_link(
        &mut self,
        array: Option<u64>,
        size: usize,
        seen: Seen,
    ) -> Result<(), AllocError>
        requires undecided { self.old.decision ≡ None }
        requires point { self.old.point ≡ Point.Link array size }
        requires ready { IsReady array size self.old.kept.items self.old.laid.items }
        requires fits { MaySee (access.Link array 0) seen }
        ensures ok { OnOk result (step_of self.new
            ≡ next_at (course_call self.old) (call.Link array size self.old.kept.items) seen) }
        ensures on { IsOn self.new }
        ensures err { OnErr result ((step_of self.new ≡ step_of self.old)
            × MayWant (access.Link array (next_size array size (length self.old.kept.items)))
            seen) }
    {
        match seen {
            Seen::Linked {
                array: next,
                length,
            } => self.link(array, size, next, length),
            _ => unreachable!(),
        }
    }

    fn link(
        &mut self,
        array: Option<u64>,
        size: usize,
        next: u64,
        length: usize,
    ) -> Result<(), AllocError>
        requires undecided { self.old.decision ≡ None }
        requires point { self.old.point ≡ Point.Link array size }
        requires ready { IsReady array size self.old.kept.items self.old.laid.items }
        requires long { IsSize length }
        ensures ok { OnOk result (step_of self.new
            ≡ copies (course_call self.old) array next length self.old.kept.items) }
        ensures on { IsOn self.new }
        ensures err { OnErr result ((step_of self.new ≡ step_of self.old)
            × (length ≢ next_size array size (list_length self.old.kept.items))) }
    {
        if length != self.laid.len() {
            return self.copy_all(array, next, length);
        }
        self.go(Point::Copy {
            from: array,
            array: next,
            index: 0,
        });
        Ok(())
    }

    // Lays out the array that stands next, and goes to copy into it.
    fn copy_all(&mut self, from: Option<u64>, array: u64, size: usize) -> Result<(), AllocError>
        requires undecided { self.old.decision ≡ None }
        requires on { IsOn self.old }
        requires size { IsSize size }
        ensures ok { OnOk result (step_of self.new
            ≡ copies (course_call self.old) from array size self.old.kept.items) }
        ensures on { IsOn self.new }
        ensures err { OnErr result (step_of self.new ≡ step_of self.old) }
    {
        self.laid = lay_out(self.alloc, &self.kept, size)?;
        self.go(Point::Copy {
            from,
            array,
            index: 0,
        });
        Ok(())
    }

    /// Goes on to the next word, and after the last word to make the array the root.
    pub fn take_copy(&mut self, from: Option<u64>, array: u64, index: usize)
        requires undecided { self.old.decision ≡ None }
        requires within { index < length self.old.laid.items }
        ensures step { step_of self.new
            ≡ next_at (course_call self.old) (call.Copy from array index self.old.laid.items)
            Seen.Copied }
        ensures on { IsOn self.new }
    {
        let index = index + 1;
        if index < self.laid.len() {
            self.go(Point::Copy { from, array, index });
        } else {
            self.go(Point::Swing { from, array });
        }
    }

    /// Goes on at the root that the segment has now.
    pub fn take_swing(&mut self)
        requires undecided { self.old.decision ≡ None }
        ensures step { step_of self.new ≡ goes (course_call self.old) (call.Root None) }
        ensures on { IsOn self.new }
    {
        self.go(Point::Root { met: None });
    }
}
