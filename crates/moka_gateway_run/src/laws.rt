//! Laws of the lines of the program.
ghost use Rattle.moka_gateway_run.specs.Cutting.{CutsMakeNoDifference};
ghost use Rattle.moka_gateway_run.specs.Forms.{LinesAreRead, ReadLinesAreSpelled};

/// Each line's own spelling is read as that line, and nothing else is read as it.
pub fn gateway_lines_round_trip()
    ensures read { LinesAreRead }
    ensures spelled { ReadLinesAreSpelled }
{}

/// A feed among other lines brings about the fetches, the cancels, the bytes of each client and the
/// gateway that two feeds of the same client bring about, one right after the other, which have its
/// bytes between them. So lists of lines that differ only in how a client's bytes are cut come to the
/// same.
pub fn cuts_make_no_difference()
    ensures { CutsMakeNoDifference }
{}
