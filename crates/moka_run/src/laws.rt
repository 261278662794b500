//! A law of plays.
ghost use Rattle.moka_run.specs.Playing.{SaysOrIsBad};

use moka_text::schedule_text_round_trip;

/// No text both says a schedule and has a bad line: so a play that is done, or breaks off, was
/// given a schedule, and one that ends at a bad line was given none.
pub fn says_or_is_bad()
    ensures { SaysOrIsBad }
{
    schedule_text_round_trip();
}
