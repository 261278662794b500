//! How a call lists the nodes of an array.

ghost use Rattle.std.specs.Prelude.{◌≡◌, ◌++◌, OnOk, OnErr, None, false};
ghost use Rattle.std.specs.Option.{option_to_list};
ghost use Rattle.moka_words.specs.declared.accesses.Access.TheVariants as access;
ghost use Rattle.moka_words.specs.declared.accesses.Seen.TheVariants as Seen;
ghost use Rattle.moka_words.specs.Words.{stored_in};
ghost use Rattle.moka_growth.specs.Calls.{next_at, walked};
ghost use Rattle.moka_growth.specs.Calls as call;
ghost use Rattle.moka_calls.specs.Standing.{IsIn, IsOn, MaySee, course_call, step_of};

use crate::course::{Course, Point, Spot};
use crate::words::{is_sealed, stored_in};
use crate::{Decision, NodeList};
use moka_words::{Seen, Word};
use std::alloc::AllocError;
use std::mem;

impl Course {
    /// Lists the node of the word that the call saw. At a sealed word the call drops its list.
    pub fn take_listed(&mut self, spot: Spot, seen: Seen) -> Result<(), AllocError>
        requires undecided { self.old.decision ≡ None }
        requires inside { IsIn spot }
        requires on { IsOn self.old }
        requires fits { MaySee (access.LoadWord 0 0) seen }
        ensures ok { OnOk result (step_of self.new
            ≡ next_at (course_call self.old)
            (call.Walk spot.array spot.size spot.passed self.old.nodes.items) seen) }
        ensures on { IsOn self.new }
        ensures err { OnErr result (step_of self.new ≡ step_of self.old) }
    {
        match seen {
            Seen::Word { word, .. } => self.list(spot, word),
            _ => unreachable!(),
        }
    }

    fn list(&mut self, spot: Spot, word: Word) -> Result<(), AllocError>
        requires undecided { self.old.decision ≡ None }
        requires inside { IsIn spot }
        requires on { IsOn self.old }
        ensures ok { OnOk result (step_of self.new
            ≡ next_at (course_call self.old)
            (call.Walk spot.array spot.size spot.passed self.old.nodes.items)
            (Seen.Word word 0 false)) }
        ensures on { IsOn self.new }
        ensures err { OnErr result (step_of self.new ≡ step_of self.old) }
    {
        if is_sealed(word) {
            self.go(Point::Root {
                met: Some(spot.array),
            });
            return Ok(());
        }
        add(&mut self.nodes, word)?;
        self.walk(spot);
        Ok(())
    }

    // On to the next word; after the last one it ends with its list.
    fn walk(&mut self, spot: Spot)
        requires undecided { self.old.decision ≡ None }
        requires inside { IsIn spot }
        requires on { IsOn self.old }
        ensures step { step_of self.new
            ≡ walked (course_call self.old) spot.array spot.size spot.passed self.old.nodes.items }
        ensures on { IsOn self.new }
    {
        let passed = spot.passed + 1;
        if passed < spot.size {
            self.go(Point::Walk {
                spot: Spot { passed, ..spot },
            });
        } else {
            let nodes = mem::replace(&mut self.nodes, Vec::new(self.alloc));
            self.decide(Decision::Nodes(NodeList::from_vec(nodes)));
        }
    }
}

// Adds the node that is stored in the word.
fn add(nodes: &mut Vec<u64>, word: Word) -> Result<(), AllocError>
    ensures ok { OnOk result (nodes.new.items
        ≡ nodes.old.items ++ option_to_list (stored_in word)) }
    ensures err { OnErr result (nodes.new.items ≡ nodes.old.items) }
{
    if let Some(node) = stored_in(word) {
        nodes.push(node)?;
    }
    Ok(())
}
