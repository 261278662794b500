//! Values from outside: where an array begins to be made anew, and how.

use moka_words::RehashOp;

#[test]
fn an_array_grows_past_seven_tenths(rt: HostRuntime) {
    assert!(rt; RehashOp::new(128, 0, 89) == RehashOp::Skip);
    assert!(rt; RehashOp::new(128, 0, 90) == RehashOp::Expand);
    assert!(rt; RehashOp::new(1, 0, 1) == RehashOp::Expand);
}

#[test]
fn tombstones_are_cleared_at_a_tenth_or_at_25000(rt: HostRuntime) {
    assert!(rt; RehashOp::new(128, 12, 0) == RehashOp::Skip);
    assert!(rt; RehashOp::new(128, 13, 0) == RehashOp::GcOnly);
    assert!(rt; RehashOp::new(1, 1, 0) == RehashOp::GcOnly);
    assert!(rt; RehashOp::new(1_048_576, 24_999, 800_000) == RehashOp::Expand);
    assert!(rt; RehashOp::new(1_048_576, 25_000, 800_000) == RehashOp::GcOnly);
}

#[test]
fn an_array_shrinks_below_a_quarter_of_its_length(rt: HostRuntime) {
    assert!(rt; RehashOp::new(512, 52, 179) == RehashOp::Shrink);
    assert!(rt; RehashOp::new(512, 52, 180) == RehashOp::GcOnly);
    let most = 1 << 60;
    assert!(rt; RehashOp::new(most, most, most) == RehashOp::Shrink);
}
