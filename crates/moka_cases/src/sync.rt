//! Worked cases: who gets a lock, who waits, and who is handed out in which order.

use moka_sync::{CallList, Event, PolledMutex, PolledRwLock, WaitList};
use std::alloc::{AllocError, Global};
use std::test::Fail;

/// Whether the calls of the list are these, in this order.
fn has(list: &CallList, calls: &[u64]) -> bool {
    for index in 0..calls.len() {
        if list.get(index) != Some(calls[index]) {
            return false;
        }
    }
    list.len() == calls.len()
}

/// Whether a call that is listed twice stands once, and one that left and came again is last.
fn lists_in_order(list: &mut WaitList) -> Result<bool, AllocError> {
    for call in [5, 6, 5, 7] {
        list.add(call)?;
    }
    let listed = list.len();
    list.remove(5);
    let left = !list.contains(5);
    list.add(5)?;
    let calls = list.take_all();
    let handed_out = has(&calls, &[6, 7, 5]) && calls.get(3).is_none();
    Ok(listed == 3 && left && handed_out && list.is_empty())
}

#[test]
fn a_call_that_leaves_and_comes_again_is_last(rt: HostRuntime) {
    let mut list = WaitList::new(rt.alloc());
    let listed = lists_in_order(&mut list);
    drop(list);
    assert!(rt; matches!(listed, Ok(true)));
}

/// Lists three calls, of which the second leaves.
fn lists_two_of_three(list: &mut WaitList) -> Result<(), AllocError> {
    for call in [5, 6, 7] {
        list.add(call)?;
    }
    list.remove(6);
    Ok(())
}

#[test]
fn a_list_that_goes_hands_out_those_that_wait(rt: HostRuntime) {
    let mut list = WaitList::new(rt.alloc());
    let listed = lists_two_of_three(&mut list);
    let calls = list.into_calls();
    let handed_out = has(&calls, &[5, 7]);
    drop(calls);
    assert!(rt; listed.is_ok() && handed_out);
}

/// Whether the last three of 200 calls are handed out in their order, once the others left; and
/// nobody after them.
fn notifies_three(event: &mut Event) -> Result<bool, AllocError> {
    event.reserve(200)?;
    for call in 0..200 {
        event.listen(call)?;
    }
    for call in 0..197 {
        event.leave(call);
    }
    let last = event.notify();
    Ok(has(&last, &[197, 198, 199]) && event.notify().is_empty())
}

#[test]
fn a_list_that_most_calls_left_keeps_its_order(rt: HostRuntime) {
    let mut event = Event::new(rt.alloc());
    let notified = notifies_three(&mut event);
    drop(event);
    assert!(rt; matches!(notified, Ok(true)));
}

/// Whether of these calls just those take the mutex that are told; call 1 has it then, and hands out
/// call 2, as call 3 left.
fn waits_for_a_mutex(mutex: &mut PolledMutex) -> Result<bool, AllocError> {
    mutex.reserve(1)?;
    for (call, taken) in [(1, true), (2, false), (1, true), (3, false), (2, false)] {
        if mutex.try_take(call)? != taken {
            return Ok(false);
        }
    }
    mutex.leave(3);
    if mutex.holder() != Some(1) {
        return Ok(false);
    }
    let handed_out = has(&mutex.release(1), &[2]);
    Ok(handed_out && mutex.holder().is_none())
}

#[test]
fn a_mutex_hands_out_all_that_waited(rt: HostRuntime) {
    let mut mutex = PolledMutex::new(rt.alloc());
    let waited = waits_for_a_mutex(&mut mutex);
    drop(mutex);
    assert!(rt; matches!(waited, Ok(true)));
}

/// What a call asks of a lock: whether to write, and whether it is to get it.
type Step = (u64, bool, bool);

fn takes(lock: &mut PolledRwLock, call: u64, writes: bool) -> Result<bool, AllocError> {
    if writes {
        lock.try_write(call)
    } else {
        lock.try_read(call)
    }
}

/// Whether each of the steps comes out as it says, and call 1 has the lock then and hands out these.
fn hands_out(lock: &mut PolledRwLock, steps: [Step; 3], calls: &[u64]) -> Result<bool, AllocError> {
    lock.reserve(1)?;
    for (call, writes, want) in steps {
        if takes(lock, call, writes)? != want {
            return Ok(false);
        }
    }
    if !lock.holds(1) {
        return Ok(false);
    }
    Ok(has(&lock.release(1), calls))
}

/// Whether, on a new lock, each of the steps comes out as it says, and call 1 has the lock then and
/// hands out these.
fn is_handed_out(alloc: Global, steps: [Step; 3], calls: &[u64]) -> Result<bool, AllocError> {
    let mut lock = PolledRwLock::new(alloc);
    let handed_out = hands_out(&mut lock, steps, calls);
    drop(lock);
    handed_out
}

#[test]
fn a_lock_hands_out_all_that_waited(rt: HostRuntime) -> Result<(), Fail> {
    let alloc = rt.alloc();
    let beside_a_fellow = [(1, false, true), (2, false, true), (3, true, false)];
    assert!(rt; is_handed_out(alloc, beside_a_fellow, &[3])?);
    let a_writer_again = [(1, false, true), (1, true, true), (1, true, true)];
    assert!(rt; is_handed_out(alloc, a_writer_again, &[])?);
    let a_writer_to_read = [(1, true, true), (1, false, false), (2, false, false)];
    assert!(rt; is_handed_out(alloc, a_writer_to_read, &[1, 2])?);
    Ok(())
}
