//! Two loads of one key, as the README of `moka_polled` shows them.
ghost use Rattle.std.specs.Prelude.{nat_eq};
ghost use Rattle.moka_polled.specs.Polled.{AnySmall, IsUsable};

use crate::acts::Polled;
use moka_hist::{Start, Told};
use moka_polled::{Outcome, PolledMachine};
use std::alloc::AllocError;
use std::test::Fail;

/// What came of two loads of one key.
#[derive(PartialEq, Debug, Drop)]
struct Came {
    polls: [Option<Outcome<u32, u32>>; 4],
    took: bool,
}

/// Starts two loads of one key, polls both, tells the first its value, and polls both again.
fn two_loads(cache: &mut Polled) -> Result<Came, AllocError>
    requires { IsUsable nat_eq cache.old AnySmall }
{
    let first = cache.start(Start::Try { key: 7 })?;
    let second = cache.start(Start::Try { key: 7 })?;
    let asked = cache.poll_if_live(first)?;
    let waits = cache.poll_if_live(second)?;
    let took = cache.tell_if_asked(first, Told::Value(5))?;
    let fresh = cache.poll_if_live(first)?;
    let shared = cache.poll_if_live(second)?;
    Ok(Came {
        polls: [asked, waits, fresh, shared],
        took,
    })
}

#[test]
fn the_second_answers_what_the_first_was_told(rt: HostRuntime) -> Result<(), Fail> {
    let mut cache = PolledMachine::new(rt.alloc(), None)?;
    let came = two_loads(&mut cache);
    drop(cache);
    let wanted = Came {
        polls: [
            Some(Outcome::Asks),
            Some(Outcome::Waits),
            Some(Outcome::Loaded {
                value: 5,
                fresh: true,
            }),
            Some(Outcome::Loaded {
                value: 5,
                fresh: false,
            }),
        ],
        took: true,
    };
    assert_eq!(rt; came?, wanted);
    Ok(())
}
