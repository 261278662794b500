//! What programs write, row by row.

use crate::runs::{run, text_of};
use moka_memo_run::Status;
use std::alloc::{AllocError, Global};
use std::test::Fail;

/// Whether the lines of the first row are answered by those of the second.
fn answers(alloc: Global, lines: &str, replies: &str) -> Result<bool, AllocError> {
    let text = text_of(alloc, lines)?;
    let want = text_of(alloc, replies)?;
    Ok(run(alloc, text.as_str())?.came_to(Status::Done, want.as_str()))
}

#[test]
fn queries_share_rules_and_wait(rt: HostRuntime) -> Result<(), Fail> {
    let rows = [
        (
            "two queries share a rule",
            "rule const 2 / rule add 1 1 / ask 2 / ask 2 / turn 1 / turn 2 / turn 1 / finish",
            "query 1 / query 2 / moved / wait 2 / moved / answer 1 4 / answer 2 4 / finished / \
                known 2",
        ),
        (
            "a query waits within its stack",
            "rule const 2 / rule add 1 1 / rule add 2 1 / ask 3 / ask 2 / turn 2 / turn 1 / \
                turn 1 / turn 1 / drop 2 / turn 1 / finish",
            "query 1 / query 2 / moved / moved / moved / wait 2 / dropped / moved / \
                answer 1 6 / finished / known 3",
        ),
        (
            "sums and products wrap",
            "rule const 4294967295 / rule const 2 / rule add 1 2 / rule mul 1 1 / ask 3 / \
                ask 4 / finish",
            "query 1 / query 2 / answer 2 1 / answer 1 1 / finished / known 4",
        ),
        (
            "what is not live or no rule is refused",
            "rule const 1 / ask 0 / ask 2 / turn 1 / drop 1 / ask 1 / turn 1 / turn 1 / \
                turn 1 / drop 1 / finish",
            "refused / refused / refused / refused / query 1 / moved / value 1 / refused / \
                refused / finished / known 1",
        ),
        (
            "the branch that is not taken stays unknown",
            "rule const 5 / rule const 7 / rule const 9 / rule if 1 2 3 / rule min 2 4 / \
                ask 5 / finish",
            "query 1 / answer 1 7 / finished / known 4",
        ),
    ];
    for (name, lines, replies) in rows {
        assert!(rt; answers(rt.alloc(), lines, replies)?, "{name}");
    }
    Ok(())
}

#[test]
fn dropped_queries_pass_their_rules(rt: HostRuntime) -> Result<(), Fail> {
    let rows = [
        (
            "a dropped query passes its rule",
            "rule const 0 / rule const 7 / rule const 9 / rule if 1 2 3 / ask 4 / ask 4 / \
                turn 1 / turn 2 / drop 1 / turn 2 / finish / turn 1",
            "query 1 / query 2 / moved / wait 4 / dropped / moved / answer 2 9 / finished / \
                refused / known 3",
        ),
        (
            "the first of the line takes it",
            "rule const 5 / ask 1 / ask 1 / ask 1 / turn 1 / turn 2 / turn 3 / drop 1 / \
                turn 3 / turn 2 / turn 2 / turn 3 / finish",
            "query 1 / query 2 / query 3 / moved / wait 1 / wait 1 / dropped / wait 1 / \
                moved / value 5 / value 5 / finished / known 1",
        ),
        (
            "it is passed on twice before a turn",
            "rule const 5 / ask 1 / ask 1 / ask 1 / turn 1 / turn 2 / turn 3 / drop 1 / \
                drop 2 / turn 3 / turn 3 / finish",
            "query 1 / query 2 / query 3 / moved / wait 1 / wait 1 / dropped / dropped / \
                moved / value 5 / finished / known 1",
        ),
        (
            "who waits is dropped before the owner",
            "rule const 5 / ask 1 / ask 1 / ask 1 / turn 1 / turn 2 / turn 3 / drop 2 / \
                drop 1 / turn 3 / turn 3 / finish",
            "query 1 / query 2 / query 3 / moved / wait 1 / wait 1 / dropped / dropped / \
                moved / value 5 / finished / known 1",
        ),
        (
            "what a dropped query had made stays",
            "rule const 3 / rule mul 1 1 / rule max 2 1 / ask 3 / turn 1 / turn 1 / turn 1 / \
                turn 1 / turn 1 / drop 1 / ask 2 / turn 2 / turn 2 / turn 2 / turn 2 / \
                turn 2 / turn 2 / turn 2 / turn 2 / finish",
            "query 1 / moved / moved / moved / moved / moved / dropped / query 2 / moved / \
                moved / moved / moved / moved / moved / value 9 / refused / finished / known 2",
        ),
    ];
    for (name, lines, replies) in rows {
        assert!(rt; answers(rt.alloc(), lines, replies)?, "{name}");
    }
    Ok(())
}

#[test]
fn the_101st_query_is_refused(rt: HostRuntime) -> Result<(), Fail> {
    let mut text = String::from_str(rt.alloc(), "rule const 1\n")?;
    let mut want = String::new(rt.alloc());
    for query in 1..101u64 {
        text.push_str("ask 1\n")?;
        write!(want, "query {query}\n")?;
    }
    text.push_str("ask 1\ndrop 50\nask 1\nask 1\n")?;
    want.push_str("refused\ndropped\nquery 101\nrefused\nknown 0\n")?;
    assert!(rt; run(rt.alloc(), text.as_str())?.came_to(Status::Done, want.as_str()));
    Ok(())
}
