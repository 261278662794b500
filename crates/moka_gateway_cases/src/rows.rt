//! Rows of acts and their texts, each with the bytes of its feeds cut at each place, and one by one.

use crate::acts::{Act, Cut, Trace, play};
use std::alloc::{AllocError, Global};
use std::test::Fail;

/// Whether the row comes to this text, and however its bytes are cut to the same upstream requests
/// and the same bytes for each client.
fn comes_to(alloc: Global, acts: &[Act], want: &str) -> Result<bool, AllocError> {
    let whole = play(alloc, acts, Cut::Whole)?;
    if whole.lines.as_str() != want {
        return Ok(false);
    }
    for at in 1..67usize {
        let cut = play(alloc, acts, Cut::At(at))?;
        if !is_same(&cut, &whole) {
            return Ok(false);
        }
    }
    let single = play(alloc, acts, Cut::Single)?;
    Ok(is_same(&single, &whole))
}

fn is_same(cut: &Trace, whole: &Trace) -> bool {
    cut.ups == whole.ups && cut.sent == whole.sent
}

/// Each row with the text of what comes of it.
#[test]
fn rows_come_to_their_texts(rt: HostRuntime) -> Result<(), Fail> {
    use Act::{Close, Error, Feed, Open, Value};
    let full = "xxxxxxxxxxxxxxxxxxxxxxxxxxxxxxxxxxxxxxxxxxxxxxxxxxxxxxxxxxxxxxxx";
    let full_line = "xxxxxxxxxxxxxxxxxxxxxxxxxxxxxxxxxxxxxxxxxxxxxxxxxxxxxxxxxxxxxxxx;";
    let long_line = "xxxxxxxxxxxxxxxxxxxxxxxxxxxxxxxxxxxxxxxxxxxxxxxxxxxxxxxxxxxxxxxxx;";
    let shared = [
        Open,
        Open,
        Feed(1, "get 5;get 5;"),
        Feed(2, "ge"),
        Feed(2, "t 5;"),
        Value(5, 9),
        Feed(2, "get 5;"),
        Value(5, 1),
    ];
    assert!(rt;
        comes_to(
            rt.alloc(),
            &shared,
            "client 1 / client 2 / up fetch 5 / to 1 value 9;value 9; / to 2 value 9; / to 2 value 9; / refused"
        )?,
        "shared"
    );
    let handed = [
        Open,
        Open,
        Feed(1, "get 7;"),
        Feed(2, "get 7;bad line;"),
        Close(1),
        Error(7, 3),
        Feed(2, "get 7;"),
        Close(2),
    ];
    assert!(rt;
        comes_to(
            rt.alloc(),
            &handed,
            "client 1 / client 2 / up fetch 7 / closed / to 2 error 3;bad; / up fetch 7 / closed / up cancel 7"
        )?,
        "handed over"
    );
    let order = [
        Open,
        Feed(1, "get 1;get 2;x;"),
        Value(2, 8),
        Error(1, 4),
        Feed(1, "get 2;get 1;"),
        Value(1, 6),
    ];
    assert!(rt;
        comes_to(
            rt.alloc(),
            &order,
            "client 1 / up fetch 1 / up fetch 2 / to 1 error 4;value 8;bad; / up fetch 1 / to 1 value 8; / to 1 value 6;"
        )?,
        "order"
    );
    let errors = [
        Open,
        Feed(1, "get 1;"),
        Error(1, 0),
        Feed(1, "get 1;"),
        Value(1, 0),
        Feed(1, "get 1;"),
        Value(1, 3),
    ];
    assert!(rt;
        comes_to(
            rt.alloc(),
            &errors,
            "client 1 / up fetch 1 / to 1 error 0; / up fetch 1 / to 1 value 0; / to 1 value 0; / refused"
        )?,
        "errors"
    );
    let cancels = [
        Open,
        Open,
        Feed(1, "get 9;get 3;get 4;"),
        Feed(2, "get 4;"),
        Close(1),
        Value(9, 1),
        Value(4, 2),
        Close(1),
        Feed(1, "get 4;"),
    ];
    assert!(rt;
        comes_to(
            rt.alloc(),
            &cancels,
            "client 1 / client 2 / up fetch 9 / up fetch 3 / up fetch 4 / closed / up cancel 3 / up cancel 9 / refused / to 2 value 2; / refused / refused"
        )?,
        "cancels"
    );
    let twice = [
        Open,
        Open,
        Open,
        Feed(1, "get 7;"),
        Feed(2, "get 7;"),
        Feed(3, "get 7;"),
        Close(1),
        Close(2),
        Open,
        Feed(4, "get 7;"),
        Value(7, 1),
    ];
    assert!(rt;
        comes_to(
            rt.alloc(),
            &twice,
            "client 1 / client 2 / client 3 / up fetch 7 / closed / closed / client 4 / to 3 value 1; / to 4 value 1;"
        )?,
        "handed over twice"
    );
    let pieces = [
        Open,
        Feed(1, "g"),
        Feed(1, "e"),
        Feed(1, "t"),
        Feed(1, " 1"),
        Feed(1, "2"),
        Feed(1, ";"),
        Value(12, 7),
    ];
    assert!(rt;
        comes_to(
            rt.alloc(),
            &pieces,
            "client 1 / up fetch 12 / to 1 value 7;"
        )?,
        "pieces"
    );
    let long = [
        Open,
        Feed(1, full),
        Feed(1, "y"),
        Feed(1, "get 5;"),
        Feed(1, "get 5;"),
    ];
    assert!(rt;
        comes_to(rt.alloc(), &long, "client 1 / to 1 bad; / up fetch 5")?,
        "long"
    );
    let ends = [Open, Feed(1, full_line), Feed(1, long_line)];
    assert!(rt;
        comes_to(rt.alloc(), &ends, "client 1 / to 1 bad; / to 1 bad;")?,
        "ends"
    );
    let spellings = [
        Open,
        Feed(
            1,
            "get 05;get;get ; get 5;get 5 ;GET 5;;get 4294967296;get  5;",
        ),
        Feed(1, "get 4294967295;"),
    ];
    assert!(rt;
        comes_to(
            rt.alloc(),
            &spellings,
            "client 1 / to 1 bad;bad;bad;bad;bad;bad;bad;bad;bad; / up fetch 4294967295"
        )?,
        "spellings"
    );
    let refused = [
        Close(1),
        Feed(1, "x"),
        Value(1, 2),
        Open,
        Close(1),
        Close(1),
        Open,
    ];
    assert!(rt;
        comes_to(
            rt.alloc(),
            &refused,
            "refused / refused / refused / client 1 / closed / refused / client 2"
        )?,
        "refused"
    );
    Ok(())
}
