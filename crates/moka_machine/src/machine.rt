//! The machine: a table, a desk and the live calls.
ghost use Rattle.std.specs.Prelude.{◌≡◌, ◌≤◌, Err, IfOk, IfErr, IfNone, IfSome, OnErr};

use crate::calls::Calls;
use crate::serving::unpolled;
use moka_desk::Desk;
use moka_engine::Policy;
use moka_hist::{BuildError, Event, Reply, Rules, Tests};
use moka_ids::PcgIds;
use moka_init::Unfinished;
use moka_layers::Layers;
use moka_table::{PlainCall, PlainTable};
use moka_values::Exact;
use std::alloc::{AllocError, Global};
use std::hash::Hash;

/// The table of a machine, and an operation that was begun on it.
pub(crate) type TheTable<K, V> = PlainTable<K, V>;

pub(crate) type TheCall<K, V> = PlainCall<K, V>;

/// A cache on one thread whose calls are driven event by event.
///
/// Keys, values and errors are `Exact`: a clone equals its original, as contracts see the two. Numbers,
/// `bool`, `char`, `&'static str`, the `ByteStr` and `Bytes` of the crate `bytes` are, and arrays,
/// pairs and `Option`s of these, and by one line a derived struct or enum of one's own; keys have
/// equality and hash too. `String`, `Vec<u8>`, `Box<T>` and `Arc<T>` are not: of a `String` make a
/// `ByteStr` (`ByteStr::from_string`), of a `Vec<u8>` a `Bytes`, and for an `Arc<T>` take `Shared<T>`
/// of `moka_values`. The callers of `moka_uses` show each.
#[derive(Drop)]
pub struct Machine<K: Eq + Hash, V, E, T> {
    pub(crate) layers: Layers<K, V, E, TheTable<K, V>, TheCall<K, V>, T>,
    pub(crate) calls: Calls<K, V, E>,
}

impl<K: Eq + Hash + Exact, V: Exact, E: Exact, T: Tests<K, V> + Drop> Machine<K, V, E, T> {
    ghost use Rattle.moka_hist.specs.State.{State, fresh};
    ghost use Rattle.moka_hist.specs.Settings.{refusal_of};
    ghost use Rattle.moka_machine.specs.Handed.{handed_with};
    ghost use Rattle.moka_machine.specs.Machine.{MachineIs, IsValid, ServesEvent, Stops};
    ghost use Rattle.moka_machine.specs.TheTable.{the_division};
    ghost use Rattle.moka_machine.specs.WantOfMemory.{MayStopServing};

    /// Builds a fresh cache of these rules, with a log of this many writes, 1 to 65536, these tests
    /// and predicates, and the ids of this seed. It is refused where a time is too long, the time to
    /// live first, whatever memory there is; else `Memory` is the only error. A cache of capacity 0
    /// is disabled: it stores nothing.
    pub fn build(
        alloc: Global,
        rules: Rules,
        log: usize,
        seed: u64,
        tests: T,
    ) -> Result<Self, BuildError>
        requires least { 1 ≤ log }
        requires most { log ≤ 65536 }
        ensures fresh { IfOk result (λ m. MachineIs K.eq T.Tests m
            (fresh K V E (the_division K) rules log (handed_with T.Tests tests seed))) }
        ensures valid { IfOk result (λ m. IsValid K.eq T.Tests m) }
        ensures refused { IfSome (refusal_of rules) (λ refusal. result ≡ Err refusal) }
        ensures memory { IfNone (refusal_of rules) (IfErr result (λ e. e ≡ BuildError.Memory)) }
    {
        if let Some(refusal) = rules.refusal() {
            return Err(refusal);
        }
        match Machine::made(alloc, rules, log, seed, tests) {
            Ok(machine) => Ok(machine),
            Err(_) => Err(BuildError::Memory),
        }
    }

    // A fresh cache of these rules, whatever their times are.
    fn made(
        alloc: Global,
        rules: Rules,
        log: usize,
        seed: u64,
        tests: T,
    ) -> Result<Self, AllocError>
        requires least { 1 ≤ log }
        requires most { log ≤ 65536 }
        ensures fresh { IfOk result (λ m. MachineIs K.eq T.Tests m
            (fresh K V E (the_division K) rules log (handed_with T.Tests tests seed))) }
        ensures valid { IfOk result (λ m. IsValid K.eq T.Tests m) }
    {
        let desk = Desk::new(alloc, rules, log)?;
        Ok(Machine {
            layers: Layers {
                table: TheTable::new(alloc),
                desk,
                call: 0,
                begun: None,
                tests,
                ids: PcgIds::new(seed),
            },
            calls: Calls::new(alloc),
        })
    }

    /// Tells the rules that the cache was built with.
    pub fn policy(&self) -> Policy
        ensures { (s : State K V E) → MachineIs K.eq T.Tests self.now s
            → result.rules ≡ s.world.desk.rules }
    {
        Policy {
            rules: self.layers.desk.rules(),
        }
    }

    /// Carries one event out, or refuses it. At want of memory it tells how many steps of a poll
    /// were made; of any other event nothing was done then.
    pub fn serve(&mut self, event: &Event<K, V, E>) -> Result<Reply<K, V, E>, Unfinished>
        requires valid { IsValid K.eq T.Tests self.old }
        ensures serves { IfOk result (λ r. ServesEvent K.eq T.Tests self.old event.now r self.new) }
        ensures stops { IfErr result (λ u. Stops K.eq T.Tests self.old event.now u.steps self.new) }
        ensures needs { OnErr result ((s : State K V E) → MachineIs K.eq T.Tests self.new s
            → MayStopServing s event.now) }
    {
        match event {
            Event::At { moment } => Ok(self.at(*moment)),
            Event::Start { start } => unpolled(self.start(start)),
            Event::Step { call } => unpolled(self.step(*call)),
            Event::Poll { call } => self.poll(*call),
            Event::Tell { call, answer } => unpolled(self.tell_copy(*call, answer)),
            Event::Drop { call } => Ok(self.drop_call(*call)),
        }
    }
}
