//! Laws of how long arrays get, and how many steps a call has left.

ghost use Rattle.moka_growth.specs.Laws.{LeftFalls, LeftIsBounded, ShortGrows, ShortStays};

/// No access makes an array longer than the greater of the first length and three times the most
/// keys that were present.
pub fn short_stays()
    ensures short { ShortStays }
{}

/// A segment whose arrays are short for so many keys is short for more.
pub fn short_grows()
    ensures short { ShortGrows }
{}

/// A fitting call has at most 16 times as many steps left as the first length and three times the
/// most keys together, and 32.
pub fn left_is_bounded()
    ensures bounded { LeftIsBounded }
{}

/// Each access of a fitting call that leaves it going lowers the number of steps that it has left.
/// To ask what is to be done, which belongs to the load before, does not raise it.
pub fn left_falls()
    ensures falls { LeftFalls }
{}
