//! Calls of caches of numbers, of each kind.

use crate::asks::Asks;
use crate::caches::{Heard, HearsAny};
use crate::inits::{Act, After, Counts, Fails, Tells};
use crate::numbers::numbers;
use crate::replies::Reply;
use crate::tasks::{Alone, Once, Setting, Task};
use moka_cache::EntrySelector;
use std::alloc::AllocGlobal;
use std::io;
use std::random::RandomSource;
use std::sync::Wait;
use std::sync::atomic::AtomicBool;

/// An output that is given once there were so many pending polls.
#[derive(Clone, Copy)]
pub struct Gives<T>(pub u64, pub T);

/// A replace test.
#[derive(Clone, Copy)]
pub enum Test {
    IfEven,
    Always,
}

impl Test {
    // Whether it holds on the value. That is counted.
    fn holds(self, value: u32, asks: &Asks) -> bool {
        asks.count_test();
        match self {
            Test::IfEven => value % 2 == 0,
            Test::Always => true,
        }
    }
}

/// A call of a cache of numbers by a key of its own, or by one that is lent.
#[derive(Clone, Copy)]
pub enum Call {
    Own(u32, Kind),
    Lent(u32, Kind),
}

/// Which method is called, with what it takes.
#[derive(Clone, Copy)]
pub enum Kind {
    OfKey(OfKey),
    Load(Load),
    OfEntry(OfEntry),
    Compute(Compute),
}

/// A call that asks nobody.
#[derive(Clone, Copy)]
pub enum OfKey {
    Get,
    Insert(u32),
    Remove,
    Invalidate,
}

/// A load.
#[derive(Clone, Copy)]
pub enum Load {
    GetWith(Gives<u32>),
    GetWithIf(Gives<u32>, Test),
    OptionallyGetWith(Gives<Option<u32>>),
    TryGetWith(Gives<Result<u32, u32>>),
}

/// A method of an entry that stores, or loads.
#[derive(Clone, Copy)]
pub enum OfEntry {
    OrInsert(u32),
    OrDefault,
    OrInsertWith(Gives<u32>),
    OrInsertWithIf(Gives<u32>, Test),
    OrOptionallyInsertWith(Gives<Option<u32>>),
    OrTryInsertWith(Gives<Result<u32, u32>>),
}

/// A method of an entry that computes.
#[derive(Clone, Copy)]
pub enum Compute {
    ComputeWith(Gives<Act>),
    /// One that fails with this error.
    TryComputeWith(Gives<u32>),
    TryComputeIfNobodyElse(Gives<Act>),
    /// One that counts the key up, after so many polls.
    UpsertWith(u64),
}

impl Call {
    fn key(&self) -> &u32 {
        match self {
            Call::Own(key, _) => key,
            Call::Lent(key, _) => key,
        }
    }

    /// Which method it calls.
    pub fn kind(&self) -> Kind {
        match self {
            Call::Own(_, kind) => *kind,
            Call::Lent(_, kind) => *kind,
        }
    }
}

/// Who makes a call of this cache, and counts how often it asks.
#[derive(Drop)]
pub struct Caller<'a, R, L> {
    pub rt: &'a R,
    pub cache: &'a Heard<L>,
    pub asks: &'a Asks,
}

/// What is told of a call, and of another beside it.
pub type Both = io::Result<(Reply, Reply)>;

impl<R: Wait + RandomSource + AllocGlobal, L: HearsAny> Caller<'_, R, L> {
    /// Runs the call to its end, and tells what it replied.
    pub fn run(&self, call: &Call) -> io::Result<Reply> {
        let (reply, _) = self.make(call, Alone(0))?;
        Ok(reply)
    }

    /// Polls the call once, drops it where that is pending, and tells what it replied.
    pub fn poll_once(&self, call: &Call) -> io::Result<Reply> {
        let (reply, _) = self.make(call, Once)?;
        Ok(reply)
    }

    /// Runs the call to its end, and sets the flag after each poll.
    pub fn run_setting(&self, call: &Call, flag: &AtomicBool) -> io::Result<Reply> {
        let (reply, _) = self.make(call, Setting(flag))?;
        Ok(reply)
    }

    /// Makes the call, and does this with it.
    pub fn make<T: Task<R>>(&self, call: &Call, task: T) -> Both
        requires { T.is_ready task }
    {
        match call.kind() {
            Kind::OfKey(kind) => kind.make(self, call, task),
            Kind::Load(kind) => kind.make(self, call, task),
            Kind::OfEntry(kind) => kind.make(self, call, task),
            Kind::Compute(kind) => kind.make(self, call, task),
        }
    }

    // Who gives an output.
    fn init<T>(&self, gives: Gives<T>) -> After<'_, T> {
        After::polls(gives.0, gives.1, self.asks)
    }

    // The entry of the call's key.
    fn entry<'b>(&'b self, call: &'b Call) -> EntrySelector<'b, u32, u32, u32, L> {
        match call {
            Call::Own(key, _) => self.cache.entry(*key),
            Call::Lent(key, _) => self.cache.entry_by_ref(key),
        }
    }

    fn insert<T: Task<R>>(&self, key: u32, value: u32, task: T) -> Both
        requires { T.is_ready task }
    {
        task.run(self.rt, numbers(self.cache.insert(key, value)))
    }

    fn load<T: Task<R>>(&self, call: &Call, gives: Gives<u32>, task: T) -> Both
        requires { T.is_ready task }
    {
        let init = self.init(gives);
        match call {
            Call::Own(key, _) => task.run(self.rt, numbers(self.cache.get_with(*key, init))),
            Call::Lent(key, _) => task.run(self.rt, numbers(self.cache.get_with_by_ref(key, init))),
        }
    }

    fn load_if<T: Task<R>>(&self, key: u32, gives: Gives<u32>, test: Test, task: T) -> Both
        requires { T.is_ready task }
    {
        let asks = self.asks;
        let load = self.cache.get_with_if(
            key,
            self.init(gives),
            move |value: &u32| test.holds(*value, asks),
        );
        task.run(self.rt, numbers(load))
    }

    fn load_optionally<T: Task<R>>(&self, call: &Call, gives: Gives<Option<u32>>, task: T) -> Both
        requires { T.is_ready task }
    {
        let init = self.init(gives);
        match call {
            Call::Own(key, _) => task.run(
                self.rt,
                numbers(self.cache.optionally_get_with(*key, init)),
            ),
            Call::Lent(key, _) => task.run(
                self.rt,
                numbers(self.cache.optionally_get_with_by_ref(key, init)),
            ),
        }
    }

    fn try_load<T: Task<R>>(&self, call: &Call, gives: Gives<Result<u32, u32>>, task: T) -> Both
        requires { T.is_ready task }
    {
        let init = self.init(gives);
        match call {
            Call::Own(key, _) => task.run(self.rt, numbers(self.cache.try_get_with(*key, init))),
            Call::Lent(key, _) => task.run(
                self.rt,
                numbers(self.cache.try_get_with_by_ref(key, init)),
            ),
        }
    }

    fn or_insert<T: Task<R>>(&self, call: &Call, value: u32, task: T) -> Both
        requires { T.is_ready task }
    {
        task.run(self.rt, numbers(self.entry(call).or_insert(value)))
    }

    fn or_default<T: Task<R>>(&self, call: &Call, task: T) -> Both
        requires { T.is_ready task }
    {
        task.run(self.rt, numbers(self.entry(call).or_default()))
    }

    fn load_entry<T: Task<R>>(&self, call: &Call, gives: Gives<u32>, task: T) -> Both
        requires { T.is_ready task }
    {
        let load = self.entry(call).or_insert_with(self.init(gives));
        task.run(self.rt, numbers(load))
    }

    fn load_entry_if<T: Task<R>>(&self, call: &Call, gives: Gives<u32>, test: Test, task: T) -> Both
        requires { T.is_ready task }
    {
        let asks = self.asks;
        let load = self.entry(call).or_insert_with_if(
            self.init(gives),
            move |value: &u32| test.holds(*value, asks),
        );
        task.run(self.rt, numbers(load))
    }

    fn load_entry_optionally<T: Task<R>>(
        &self,
        call: &Call,
        gives: Gives<Option<u32>>,
        task: T,
    ) -> Both
        requires { T.is_ready task }
    {
        let load = self.entry(call).or_optionally_insert_with(self.init(gives));
        task.run(self.rt, numbers(load))
    }

    fn try_load_entry<T: Task<R>>(
        &self,
        call: &Call,
        gives: Gives<Result<u32, u32>>,
        task: T,
    ) -> Both
        requires { T.is_ready task }
    {
        let load = self.entry(call).or_try_insert_with(self.init(gives));
        task.run(self.rt, numbers(load))
    }

    fn compute<T: Task<R>>(&self, call: &Call, gives: Gives<Act>, task: T) -> Both
        requires { T.is_ready task }
    {
        let compute = Tells::after(gives.0, gives.1, self.asks);
        task.run(self.rt, numbers(self.entry(call).and_compute_with(compute)))
    }

    fn try_compute<T: Task<R>>(&self, call: &Call, gives: Gives<u32>, task: T) -> Both
        requires { T.is_ready task }
    {
        let compute = Fails::after(gives.0, gives.1, self.asks);
        task.run(
            self.rt,
            numbers(self.entry(call).and_try_compute_with(compute)),
        )
    }

    fn compute_alone<T: Task<R>>(&self, call: &Call, gives: Gives<Act>, task: T) -> Both
        requires { T.is_ready task }
    {
        let compute = Tells::after(gives.0, gives.1, self.asks);
        task.run(
            self.rt,
            numbers(self.entry(call).and_try_compute_if_nobody_else(compute)),
        )
    }

    fn count_up<T: Task<R>>(&self, call: &Call, polls: u64, task: T) -> Both
        requires { T.is_ready task }
    {
        let counts = Counts::after(polls, self.asks);
        task.run(self.rt, numbers(self.entry(call).and_upsert_with(counts)))
    }
}

/// The calls of one group of kinds.
pub trait Group: Copy + Drop {
    /// Makes the call of this kind by the key of that, and does this with it.
    fn make<R, L, T>(self, caller: &Caller<'_, R, L>, call: &Call, task: T) -> Both
    where
        R: Wait + RandomSource + AllocGlobal,
        L: HearsAny,
        T: Task<R>,
        requires { T.is_ready task };
}

impl Group for OfKey {
    fn make<R, L, T>(self, caller: &Caller<'_, R, L>, call: &Call, task: T) -> Both
    where
        R: Wait + RandomSource + AllocGlobal,
        L: HearsAny,
        T: Task<R>,
    {
        match self {
            OfKey::Get => task.run(caller.rt, numbers(caller.cache.get(call.key()))),
            OfKey::Insert(value) => caller.insert(*call.key(), value, task),
            OfKey::Remove => task.run(caller.rt, numbers(caller.cache.remove(call.key()))),
            OfKey::Invalidate => task.run(caller.rt, numbers(caller.cache.invalidate(call.key()))),
        }
    }
}

impl Group for Load {
    fn make<R, L, T>(self, caller: &Caller<'_, R, L>, call: &Call, task: T) -> Both
    where
        R: Wait + RandomSource + AllocGlobal,
        L: HearsAny,
        T: Task<R>,
    {
        match self {
            Load::GetWith(gives) => caller.load(call, gives, task),
            Load::GetWithIf(gives, test) => caller.load_if(*call.key(), gives, test, task),
            Load::OptionallyGetWith(gives) => caller.load_optionally(call, gives, task),
            Load::TryGetWith(gives) => caller.try_load(call, gives, task),
        }
    }
}

impl Group for OfEntry {
    fn make<R, L, T>(self, caller: &Caller<'_, R, L>, call: &Call, task: T) -> Both
    where
        R: Wait + RandomSource + AllocGlobal,
        L: HearsAny,
        T: Task<R>,
    {
        match self {
            OfEntry::OrInsert(value) => caller.or_insert(call, value, task),
            OfEntry::OrDefault => caller.or_default(call, task),
            OfEntry::OrInsertWith(gives) => caller.load_entry(call, gives, task),
            OfEntry::OrInsertWithIf(gives, test) => caller.load_entry_if(call, gives, test, task),
            OfEntry::OrOptionallyInsertWith(gives) => {
                caller.load_entry_optionally(call, gives, task)
            }
            OfEntry::OrTryInsertWith(gives) => caller.try_load_entry(call, gives, task),
        }
    }
}

impl Group for Compute {
    fn make<R, L, T>(self, caller: &Caller<'_, R, L>, call: &Call, task: T) -> Both
    where
        R: Wait + RandomSource + AllocGlobal,
        L: HearsAny,
        T: Task<R>,
    {
        match self {
            Compute::ComputeWith(gives) => caller.compute(call, gives, task),
            Compute::TryComputeWith(gives) => caller.try_compute(call, gives, task),
            Compute::TryComputeIfNobodyElse(gives) => caller.compute_alone(call, gives, task),
            Compute::UpsertWith(polls) => caller.count_up(call, polls, task),
        }
    }
}
