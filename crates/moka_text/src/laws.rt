//! Laws of the text of schedules.

ghost use Rattle.moka_text.specs.ScheduleText.{AreNeverRefused};
ghost use Rattle.moka_text.specs.ScheduleReading.{LinesAreRead, TextsAreRead, BadLinesAreRead};

/// Each event's own line is read as that event. A text that says a schedule is read as that
/// schedule, and one with a bad line as the number of the first bad line.
pub fn schedule_text_round_trip()
    ensures line { LinesAreRead }
    ensures text { TextsAreRead }
    ensures bad_line { BadLinesAreRead }
{}

/// Rules of a schedule's settings are never refused: its times are of 64 bits in nanoseconds, and
/// so many are fewer than those of a thousand years.
pub fn schedules_are_never_refused()
    ensures { AreNeverRefused }
{}
