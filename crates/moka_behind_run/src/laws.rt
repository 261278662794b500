//! Laws of the lines of the program.
ghost use Rattle.moka_behind_run.specs.Reading.{LinesAreRead, ReadLinesAreSpelled};

/// Each call's own line is read as that call, and no other line is read as it.
pub fn call_lines_round_trip()
    ensures read { LinesAreRead }
    ensures spelled { ReadLinesAreSpelled }
{}
