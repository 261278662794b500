//! Keys that are equal and not the same: of which of them a compute and a walk speak.
ghost use Rattle.std.specs.Prelude.{nat_eq};
ghost use Rattle.std.specs.Hash as fed;
ghost use Rattle.std.specs.Ordering.{on};
ghost use Rattle.std.specs.Cmp.Rules.{comparing, hashing};
ghost use Rattle.std.proofs.Common.{rules};
ghost use Rattle.moka_machine.specs.Machine.{IsValid};
ghost use Rattle.moka_uses.specs.ReadBack.{no_tests};

use moka_hist::{Answer, Ask, CompResult, Entry, Event, Op, Reply, Rules, Start, Told};
use moka_run::{Machine, run};
use moka_uses::NoTests;
use moka_values::Exact;
use std::alloc::{AllocError, Global};
use std::hash::{Hash, Hasher};
use std::test::Fail;

/// No rule is set.
const RULES: Rules = Rules {
    max_capacity: None,
    time_to_live: None,
    time_to_idle: None,
    listener: false,
    closures: false,
};

/// How many writes the cache's log has room for.
const LOG: usize = 8;

/// A name by its number. Names of one number are equal, however they are spelled.
#[derive(Clone, Copy, Debug)]
struct Name {
    number: u32,
    spelled: char,
}

impl Exact for Name {
    ghost exact = { Prim.search rules };
}

impl PartialEq for Name {
    ghost eq = { on (λ name. name.number) nat_eq };

    ghost laws = { Prim.search (comparing, rules) };

    fn eq(&self, other: &Name) -> bool {
        self.number == other.number
    }
}

impl Eq for Name {
    ghost laws = { Prim.search (comparing, rules) };
}

impl Hash for Name {
    ghost hash_input = { λ name. fed.u32 name.number };

    ghost respects_eq = { Prim.search (hashing, rules) };

    fn hash<H: Hasher>(&self, state: &mut H) {
        state.write_u32(self.number);
    }
}

/// The name of number 1, spelled so.
fn named(spelled: char) -> Name {
    Name { number: 1, spelled }
}

/// How the key of the entry is spelled.
fn of_entry(entry: &Entry<Name, u32>) -> char {
    match entry.key {
        Some(key) => key.spelled,
        None => '?',
    }
}

fn of_done(done: &CompResult<Name, u32>) -> char {
    match done {
        CompResult::Inserted(entry) => of_entry(entry),
        CompResult::ReplacedWith(entry) => of_entry(entry),
        CompResult::Removed(entry) => of_entry(entry),
        CompResult::Unchanged(entry) => of_entry(entry),
        CompResult::StillNone(key) => key.spelled,
    }
}

/// How the key that a reply speaks of is spelled: `.` where it speaks of none.
fn of_reply(reply: &Reply<Name, u32, u16>) -> char {
    match reply {
        Reply::Ask(Ask::Compute(Some((key, _)))) => key.spelled,
        Reply::Answer(Answer::Computed(done)) => of_done(done),
        Reply::Item(key, _) => key.spelled,
        _ => '.',
    }
}

/// The spellings in the replies to the events.
fn spellings_on(
    alloc: Global,
    cache: &mut Machine<Name, u32, u16, NoTests>,
    events: &[Event<Name, u32, u16>],
) -> Result<String, AllocError>
    requires { IsValid (on (λ name. name.number) nat_eq) no_tests cache.old }
{
    let Ok(report) = run(alloc, cache, events) else {
        return Err(AllocError);
    };
    let mut spelled = String::new(alloc);
    for reply in report.replies.as_slice() {
        spelled.push(of_reply(reply))?;
    }
    Ok(spelled)
}

/// The spellings in the replies to the events, on a fresh cache.
fn spellings(alloc: Global, events: &[Event<Name, u32, u16>]) -> Result<String, AllocError> {
    let Ok(mut cache) = Machine::build(alloc, RULES, LOG, 0, NoTests) else {
        return Err(AllocError);
    };
    let spelled = spellings_on(alloc, &mut cache, events);
    drop(cache);
    spelled
}

/// Starts the call, polls it to its ask, tells that, and polls it to its answer.
fn computed(
    call: u64,
    start: Start<Name, u32>,
    answer: Told<u32, u16>,
) -> [Event<Name, u32, u16>; 4] {
    [
        Event::Start { start },
        Event::Poll { call },
        Event::Tell { call, answer },
        Event::Poll { call },
    ]
}

#[test]
fn an_ask_has_the_stored_key_and_an_answer_the_calls(rt: HostRuntime) -> Result<(), Fail> {
    let mut events = Vec::new(rt.alloc());
    events.push(Event::Start {
        start: Start::Insert {
            key: named('a'),
            value: 5,
        },
    })?;
    events.push(Event::Poll { call: 1 })?;
    let calls = [
        computed(2, Start::Compute { key: named('b') }, Told::Op(Op::Nop)),
        computed(3, Start::Upsert { key: named('c') }, Told::Value(6)),
        computed(
            4,
            Start::TryCompute { key: named('d') },
            Told::Op(Op::Remove),
        ),
        computed(
            5,
            Start::ComputeAlone { key: named('e') },
            Told::Op(Op::Remove),
        ),
        computed(6, Start::Compute { key: named('f') }, Told::Op(Op::Put(7))),
    ];
    for call in calls {
        for event in call {
            events.push(event)?;
        }
    }
    // `.` where a reply speaks of no key; else, call by call, the key of the ask and of the answer.
    assert_eq!(rt;
        spellings(rt.alloc(), &events)?.as_str(),
        "...a.b.a.c.c.d...e...f"
    );
    Ok(())
}

/// Starts an insert under the name of this spelling, and polls it to its answer.
fn inserted(call: u64, spelled: char) -> [Event<Name, u32, u16>; 2] {
    let start = Start::Insert {
        key: named(spelled),
        value: 5,
    };
    [Event::Start { start }, Event::Poll { call }]
}

/// Starts a walk, and polls it to its first record.
fn walked(call: u64) -> [Event<Name, u32, u16>; 2] {
    [Event::Start { start: Start::Iter }, Event::Poll { call }]
}

/// Starts a walk, and makes its list.
fn listed(call: u64) -> [Event<Name, u32, u16>; 2] {
    [Event::Start { start: Start::Iter }, Event::Step { call }]
}

#[test]
fn an_item_has_the_key_that_is_stored_at_its_look(rt: HostRuntime) -> Result<(), Fail> {
    let pairs = [
        inserted(1, 'a'),
        walked(2),
        inserted(3, 'b'),
        walked(4),
        listed(5),
        inserted(6, 'c'),
    ];
    let mut events = Vec::new(rt.alloc());
    for pair in pairs {
        for event in pair {
            events.push(event)?;
        }
    }
    for call in [2, 4, 5] {
        events.push(Event::Poll { call })?;
    }
    // Walk 5 lists the name as it was spelled before the last insert.
    assert_eq!(rt; spellings(rt.alloc(), &events)?.as_str(), "...a...b......c");
    Ok(())
}
