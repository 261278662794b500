//! What no clause says: tables of texts and what they are read as.

use crate::rows::{Wrong, all_right};
use moka_hist::Settings;
use moka_text::{Schedule, ScheduleError, read_schedule};
use std::alloc::{AllocError, Global};
use std::test::Fail;

mod written;

/// The bad line of a text.
fn bad_line(alloc: Global, text: &[u8]) -> Option<u64> {
    match read_schedule(alloc, text) {
        Ok(_) => None,
        Err(ScheduleError::BadLine { line }) => Some(line),
        Err(ScheduleError::Memory) => None,
    }
}

/// The first of the texts, between which bars stand, that hasn't this bad line.
fn good_text(alloc: Global, line: u64, texts: &str) -> Wrong {
    let mut place: u64 = 0;
    for text in texts.split('|') {
        if bad_line(alloc, text.as_bytes()) != Some(line) {
            return Ok(Some(place));
        }
        place = place.wrapping_add(1);
    }
    Ok(None)
}

/// The first of the lines that isn't bad, as the third of a text.
fn good_line(alloc: Global, lines: &str) -> Wrong {
    let mut place: u64 = 0;
    for line in lines.lines() {
        let text = format!(in alloc; "cache\nat 1\n{line}\nat 2\n")?;
        if bad_line(alloc, text.as_bytes()) != Some(3) {
            return Ok(Some(place));
        }
        place = place.wrapping_add(1);
    }
    Ok(None)
}

/// The schedule of a text; one that is bad is refused as want of memory.
fn schedule_of(alloc: Global, text: &str) -> Result<Schedule, AllocError> {
    read_schedule(alloc, text.as_bytes()).map_err(|_| AllocError)
}

/// The events of a text, as they are told.
fn events_of(alloc: Global, text: &str) -> Result<String, AllocError> {
    let schedule = schedule_of(alloc, text)?;
    format!(in alloc; "{:?}", schedule.events.as_slice())
}

/// The options of a text, as they are told: its log, its capacity, the seed of its ids, how many
/// nanoseconds a record lives after a write and after an access, and whether it has a listener and
/// takes predicates.
fn options_of(alloc: Global, text: &str) -> Result<String, AllocError> {
    let schedule = schedule_of(alloc, text)?;
    let log = schedule.log;
    let Settings {
        max_capacity,
        time_to_live,
        time_to_idle,
        listener,
        closures,
        seed,
    } = schedule.settings;
    let numbers = format!(in alloc; "{max_capacity:?} {seed:?} {time_to_live:?} {time_to_idle:?}")?;
    format!(in alloc; "{log} {numbers} {listener} {closures}")
}

/// Whether the row is a line, and the event that it is read as.
fn is_read(alloc: Global, row: &str) -> Result<bool, AllocError> {
    let Some((line, event)) = row.split_once(" => ") else {
        return Ok(false);
    };
    let text = format!(in alloc; "cache\n{line}")?;
    let want = format!(in alloc; "[{event}]")?;
    Ok(events_of(alloc, text.as_str())?.as_str() == want.as_str())
}

/// The first of the rows that isn't read so.
fn misread(alloc: Global, rows: &str) -> Wrong {
    let mut place: u64 = 0;
    for row in rows.lines() {
        if !is_read(alloc, row)? {
            return Ok(Some(place));
        }
        place = place.wrapping_add(1);
    }
    Ok(None)
}

/// Texts by their first bad line; bars stand between the texts.
const BAD: [(u64, &str); 3] = [
    (
        1,
        "|\n|\ncache\n|at 1\n|cache \n| cache\n|Cache\n|cache\r\n|\
        cache log\n|cache log=\n|cache log=0\n|cache log=08\n|cache log=65537\n|\
        cache  log=8\n|cache log=8 log=8\n|cache size=8\n|cachelog=8\n|\
        cache  listener\n|cache Listener\n|cache listener \n|cache listener=1\n|\
        cache listener listener\n|cache listener log=8\n|cache log=8  listener\n|\
        cache log=8 listener x\n|cache log= listener\n|cache log=8listener\n|\
        cache log=8 cap=1\n|\
        cache listener cap=1\n|cache cap=\n|cache cap=01\n|\
        cache cap=18446744073709551616\n|cache cap=1 cap=1\n|\
        cache tti=5 ttl=5\n|cache listener ttl=5\n|cache listener tti=5\n|\
        cache ttl=01\n|cache tti=01\n|cache ttl=\n|cache tti=\n|cache ttl\n|\
        cache ttl=18446744073709551616\n|cache tti=18446744073709551616\n|\
        cache ttl=5 log=8\n|cache tti=5 log=8\n|cache ttl=5 cap=1\n|\
        cache ttl=5 ttl=5\n|cache tti=5 tti=5\n|cache ttl=5 tti=5 ttl=5\n|\
        cache ttl=5  tti=5\n|cache ttl=5tti=5\n|cache ttl=5 \n|cache tti=5 \n|\
        cache ttl=-1\n|cache ttl=1s\n|cache TTL=5\n|\
        cache seed\n|cache seed=\n|cache seed=01\n|cache seed=-1\n|cache Seed=1\n|\
        cache seed=18446744073709551616\n|cache seed=1 seed=1\n|cache seed=1 cap=1\n|\
        cache seed=1 log=8\n|cache ttl=1 seed=2\n|cache tti=1 seed=2\n|\
        cache listener seed=1\n|cache closures seed=1\n|cache seed=1 \n|\
        cache closures listener\n|cache closures ttl=1\n|cache closures tti=1\n|\
        cache closures log=8\n|cache closures cap=1\n|cache closures closures\n|\
        cache closures=1\n|cache closures \n|cache  closures\n|cache Closures\n|\
        cache closure\n|cacheclosures\n|cache listenerclosures\n",
    ),
    (
        2,
        "cache\n\n|cache\n\nat 1\n|cache\ncache\n|cache\nat 1 \n|cache\nat\t1\n|\
        cache\nat 1\r\n|cache\nat 01\n|cache\nat +1\n|cache\nAT 1\n|\
        cache\nat 18446744073709551616\n|cache\nstep 18446744073709551616\n|\
        cache\nstart get 4294967296\n|cache\nstart insert 1 4294967296\n|\
        cache\nstart insert 1\n|cache\nstart get_with\n|\
        cache\ntell 1\n|cache\ntell 1 done \n|cache\ntell 1 value\n|cache\ntell 1 Off\n|\
        cache\ntell 1 off \n|cache\ntell 1 off 2\n|cache listener\ntell 1 offer\n|\
        cache\nstart invalidate_all 1\n|cache\nstart invalidate_all \n|\
        cache\nstart  invalidate_all\n|cache\nstart invalidate_al\n|\
        cache\nstart invalidate_alls\n|cache\nstart invalidate\n|\
        cache\nstart invalidate_if\n|cache\nstart invalidate_if \n|\
        cache\nstart invalidate_if 2 3\n|cache\nstart invalidate_if 2 \n|\
        cache\nstart invalidate_if  2\n|cache\nstart invalidate_if 02\n|\
        cache\nstart invalidate_if -2\n|cache\nstart invalidate_ifs 2\n|\
        cache\nstart invalidate_if 18446744073709551616\n|\
        cache\nstart iter 1\n|cache\nstart iter \n|cache\nstart iter_\n|\
        cache\nstart pending 1\n|cache\nstart pending \n|cache\nstart pendin\n|\
        cache\nstart remove 4294967296\n|cache\nstart evict 1\n|cache\nstart evict 1 1\n|\
        cache\nstart evict 1 1 size\n|cache\nstart evict 1 1 Size \n|\
        cache\nstart evict 1 18446744073709551616 Size\n",
    ),
    (3, "cache\nat 1\nstep  1\nnonsense\n|cache\nat 1\n at 2\n"),
];

#[test]
fn the_first_bad_line_is_numbered(rt: HostRuntime) {
    for (line, texts) in BAD {
        all_right(&rt, good_text(rt.alloc(), line, texts));
    }
}

/// Lines of which each is bad.
const BAD_LINES: [&str; 2] = [
    // Loads of another form.
    "start get_with 1 if\nstart get_with 1 if \nstart get_with 1 if 02\n\
        start get_with 1 if 2 \nstart get_with 1 if 2 3\nstart get_with 1 if -2\n\
        start get_with 1 if 18446744073709551616\nstart get_with 1 2\n\
        start get_with 1 when 2\nstart get_with 1  if 2\nstart get_with 1 \n\
        start get_with if 2\nstart get_with 4294967296 if 2\n\
        start optional\nstart optional 1 \nstart optional 1 if 2\n\
        start optional 4294967296\nstart try\nstart try 1 if 2\nstart try 01\n\
        start or_insert 1\nstart or_insert 1 \nstart or_insert 1 2 3\n\
        start or_insert 1 4294967296\nstart or_insert 1 2 if 2\n\
        start compute\nstart upsert 1 5\nstart compute 1 if 2\nstart compute_alone 01\n",
    // What a load is told of another form.
    "tell 1 put\ntell 1 put 4294967296\ntell 1 nop 5\ntell 1 nothing \n\
        tell 1 nothing 2\ntell 1 Nothing\ntell 1 error\ntell 1 error \ntell 1 error 03\n\
        tell 1 error 3 \ntell 1 error 4294967296\ntell 1 value \n\
        tell 1 value 4294967296\ntell 1 err 3\ntell nothing\n",
];

#[test]
fn lines_of_another_form_are_bad(rt: HostRuntime) {
    for lines in BAD_LINES {
        all_right(&rt, good_line(rt.alloc(), lines));
    }
}

#[test]
fn bytes_that_are_no_text_are_bad(rt: HostRuntime) {
    assert!(rt; bad_line(rt.alloc(), b"cache\nat 1\nat \xff\n") == Some(3));
}

/// Whether the text has these events and these options, as they are told.
fn has(alloc: Global, text: &str, events: &str, options: &str) -> Result<bool, AllocError> {
    let is_so = events_of(alloc, text)?.as_str() == events;
    Ok(is_so && options_of(alloc, text)?.as_str() == options)
}

#[test]
fn the_last_line_may_lack_its_end(rt: HostRuntime) -> Result<(), Fail> {
    let (events, options) = ("[Step { call: 1 }]", "1 None None None None false false");
    assert!(rt; has(rt.alloc(), "cache log=1\nstep 1\n", events, options)?);
    assert!(rt; has(rt.alloc(), "cache log=1\nstep 1", events, options)?);
    Ok(())
}

/// First lines, each with the options that it is read as.
const OPTIONS: &str = "cache => 384 None None None None false false\n\
    cache log=65536 => 65536 None None None None false false\n\
    cache listener => 384 None None None None true false\n\
    cache log=1 listener => 1 None None None None true false\n\
    cache cap=0 => 384 Some(0) None None None false false\n\
    cache cap=18446744073709551615 log=8 => \
    8 Some(18446744073709551615) None None None false false\n\
    cache cap=1 listener => 384 Some(1) None None None true false\n\
    cache cap=1 log=8 listener => 8 Some(1) None None None true false\n\
    cache ttl=0 => 384 None None Some(0) None false false\n\
    cache tti=0 => 384 None None None Some(0) false false\n\
    cache ttl=18446744073709551615 => 384 None None Some(18446744073709551615) None false false\n\
    cache tti=18446744073709551615 => 384 None None None Some(18446744073709551615) false false\n\
    cache ttl=10 tti=7 => 384 None None Some(10) Some(7) false false\n\
    cache log=8 ttl=10 => 8 None None Some(10) None false false\n\
    cache cap=3 tti=7 listener => 384 Some(3) None None Some(7) true false\n\
    cache ttl=10 listener => 384 None None Some(10) None true false\n\
    cache cap=3 log=8 ttl=10 tti=7 listener => 8 Some(3) None Some(10) Some(7) true false\n\
    cache seed=0 => 384 None Some(0) None None false false\n\
    cache seed=18446744073709551615 => 384 None Some(18446744073709551615) None None false false\n\
    cache cap=3 seed=7 => 384 Some(3) Some(7) None None false false\n\
    cache log=8 seed=7 tti=5 => 8 None Some(7) None Some(5) false false\n\
    cache seed=7 ttl=10 => 384 None Some(7) Some(10) None false false\n\
    cache closures => 384 None None None None false true\n\
    cache listener closures => 384 None None None None true true\n\
    cache log=8 closures => 8 None None None None false true\n\
    cache seed=1 closures => 384 None Some(1) None None false true\n\
    cache cap=3 log=8 seed=1 ttl=10 tti=7 listener closures => \
    8 Some(3) Some(1) Some(10) Some(7) true true\n";

/// The first of these lines that has others.
fn unlike_options(alloc: Global) -> Wrong {
    let mut place: u64 = 0;
    for row in OPTIONS.lines() {
        let Some((text, want)) = row.split_once(" => ") else {
            return Ok(Some(place));
        };
        if options_of(alloc, text)?.as_str() != want {
            return Ok(Some(place));
        }
        place = place.wrapping_add(1);
    }
    Ok(None)
}

#[test]
fn each_option_stands_or_not(rt: HostRuntime) {
    all_right(&rt, unlike_options(rt.alloc()));
}

#[test]
fn a_whole_text_is_read(rt: HostRuntime) -> Result<(), Fail> {
    let text = "cache\nat 18446744073709551615\nstart get 0\nstart insert 4294967295 7\n\
        start get_with 10\nstep 1\npoll 2\ntell 3 value 9\ntell 3 done\n\
        tell 4 off\ndrop 18446744073709551615\n";
    let want = "[At { moment: 18446744073709551615 }, Start { start: Get { key: 0 } }, \
        Start { start: Insert { key: 4294967295, value: 7 } }, \
        Start { start: GetWith { key: 10, replace: None } }, \
        Step { call: 1 }, Poll { call: 2 }, Tell { call: 3, answer: Value(9) }, \
        Tell { call: 3, answer: Done }, Tell { call: 4, answer: Off }, \
        Drop { call: 18446744073709551615 }]";
    assert!(rt;
        has(
            rt.alloc(),
            text,
            want,
            "384 None None None None false false"
        )?
    );
    Ok(())
}

/// Lines, each with the event that it is read as.
const FORMS: [&str; 4] = [
    // Removals.
    "start invalidate 0 => Start { start: Invalidate { key: 0 } }\n\
        start remove 4294967295 => Start { start: Remove { key: 4294967295 } }\n\
        start evict 3 18446744073709551615 Expired => \
        Start { start: Evict { key: 3, stamp: 18446744073709551615, cause: Expired } }\n\
        start evict 3 0 Explicit => \
        Start { start: Evict { key: 3, stamp: 0, cause: Explicit } }\n\
        start evict 3 1 Replaced => \
        Start { start: Evict { key: 3, stamp: 1, cause: Replaced } }\n\
        start evict 3 2 Size => Start { start: Evict { key: 3, stamp: 2, cause: Size } }\n\
        start invalidate_all => Start { start: InvalidateAll }\n\
        start invalidate_if 0 => Start { start: InvalidateIf { test: 0 } }\n\
        start invalidate_if 18446744073709551615 => \
        Start { start: InvalidateIf { test: 18446744073709551615 } }\n\
        start iter => Start { start: Iter }\n\
        start pending => Start { start: Pending }\n",
    // Loads.
    "start get_with 0 => Start { start: GetWith { key: 0, replace: None } }\n\
        start get_with 4294967295 if 0 => \
        Start { start: GetWith { key: 4294967295, replace: Some(0) } }\n\
        start get_with 7 if 18446744073709551615 => \
        Start { start: GetWith { key: 7, replace: Some(18446744073709551615) } }\n\
        start optional 4294967295 => Start { start: Optional { key: 4294967295 } }\n\
        start try 0 => Start { start: Try { key: 0 } }\n\
        start or_insert 4294967295 0 => \
        Start { start: OrInsert { key: 4294967295, value: 0 } }\n\
        start or_insert 0 4294967295 => \
        Start { start: OrInsert { key: 0, value: 4294967295 } }\n",
    // Computes.
    "start compute 0 => Start { start: Compute { key: 0 } }\n\
        start try_compute 4294967295 => Start { start: TryCompute { key: 4294967295 } }\n\
        start compute_alone 1 => Start { start: ComputeAlone { key: 1 } }\n\
        start upsert 1 => Start { start: Upsert { key: 1 } }\n",
    // What an ask is told.
    "tell 1 value 0 => Tell { call: 1, answer: Value(0) }\n\
        tell 1 value 4294967295 => Tell { call: 1, answer: Value(4294967295) }\n\
        tell 1 nothing => Tell { call: 1, answer: Nothing }\n\
        tell 1 nop => Tell { call: 1, answer: Op(Nop) }\n\
        tell 1 put 4294967295 => Tell { call: 1, answer: Op(Put(4294967295)) }\n\
        tell 1 remove => Tell { call: 1, answer: Op(Remove) }\n\
        tell 1 error 0 => Tell { call: 1, answer: Err(0) }\n\
        tell 1 error 4294967295 => Tell { call: 1, answer: Err(4294967295) }\n\
        tell 1 done => Tell { call: 1, answer: Done }\n\
        tell 1 off => Tell { call: 1, answer: Off }\n",
];

#[test]
fn every_form_of_line_is_read(rt: HostRuntime) {
    for rows in FORMS {
        all_right(&rt, misread(rt.alloc(), rows));
    }
}
