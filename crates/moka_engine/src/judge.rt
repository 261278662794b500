//! Whether a record may be seen, and why it leaves.

ghost use Rattle.std.specs.Prelude.{◌≡◌};
ghost use Rattle.moka_hist.specs.Visible.{is_past, is_past_live, is_past_idle, is_expired, is_invalid, is_hidden, is_visible};
ghost use Rattle.moka_hist.specs.Causes.{upsert_cause, remove_cause, chosen_holds};

use moka_hist::{Cause, Rules, Times, later};
use std::time::Duration;

/// Answers whether a record may be seen; `hit` says whether an invalidation by a test hits it.
pub fn visible(rules: &Rules, times: &Times, hit: bool) -> bool
    ensures { result ≡ is_visible rules.now times.now hit }
{
    !expired(rules, times) && !hidden(times) && !hit
}

/// Answers why a record leaves whose place a write takes.
///
/// | Past its time to live | Invalidated since it was written | Past its time to idle | Cause |
/// |---|---|---|---|
/// | yes | | | `Expired` |
/// | no | yes | | `Explicit` |
/// | no | no | yes | `Expired` |
/// | no | no | no | `Replaced` |
pub fn upsert_cause(rules: &Rules, times: &Times) -> Cause
    ensures { result ≡ upsert_cause rules.now times.now }
{
    if past_live(rules, times) {
        Cause::Expired
    } else if invalid(times.modified, times.valid_after) {
        Cause::Explicit
    } else if past_idle(rules, times) {
        Cause::Expired
    } else {
        Cause::Replaced
    }
}

/// Answers why a record leaves that a call removes: `Expired` past its time to live or to idle,
/// else `Explicit`. Invalidations do not count.
pub fn remove_cause(rules: &Rules, times: &Times) -> Cause
    ensures { result ≡ remove_cause rules.now times.now }
{
    if expired(rules, times) {
        Cause::Expired
    } else {
        Cause::Explicit
    }
}

/// Answers whether a record that was chosen for `cause` has still to leave for it: `Size` where a
/// capacity is set, `Explicit` where an invalidation hides or hits it, `Expired` past its time to
/// live or to idle, `Replaced` never.
pub fn chosen_holds(rules: &Rules, times: &Times, hit: bool, cause: Cause) -> bool
    ensures { result ≡ chosen_holds rules.now times.now hit cause }
{
    match cause {
        Cause::Size => rules.max_capacity.is_some(),
        Cause::Explicit => hidden(times) || hit,
        Cause::Expired => expired(rules, times),
        Cause::Replaced => false,
    }
}

/// Answers whether the record's time to live or its time to idle has passed.
pub(crate) fn expired(rules: &Rules, times: &Times) -> bool
    ensures { result ≡ is_expired rules.now times.now }
{
    past_live(rules, times) || past_idle(rules, times)
}

/// Answers whether an invalidation hides the record: its write or its access is earlier.
pub(crate) fn hidden(times: &Times) -> bool
    ensures { result ≡ is_hidden times.now }
{
    invalid(times.modified, times.valid_after) || invalid(times.accessed, times.valid_after)
}

fn past_live(rules: &Rules, times: &Times) -> bool
    ensures { result ≡ is_past_live rules.now times.now }
{
    past(rules.time_to_live, times.modified, times.clock)
}

fn past_idle(rules: &Rules, times: &Times) -> bool
    ensures { result ≡ is_past_idle rules.now times.now }
{
    past(rules.time_to_idle, times.accessed, times.clock)
}

/// Answers whether the duration, where one is set, has passed since `moment`.
fn past(duration: Option<Duration>, moment: u64, clock: u64) -> bool
    ensures { result ≡ is_past duration moment clock }
{
    match duration {
        Some(duration) => later(moment, duration) <= clock,
        None => false,
    }
}

/// Answers whether the moment is earlier than the first that is valid.
fn invalid(moment: u64, valid_after: Option<u64>) -> bool
    ensures { result ≡ is_invalid moment valid_after }
{
    match valid_after {
        Some(valid_after) => moment < valid_after,
        None => false,
    }
}
