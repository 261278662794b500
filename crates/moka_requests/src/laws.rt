//! Laws of the requests of bytes. To call the function is to cite the law.

ghost use Rattle.std.specs.Prelude.{ℕ, List};
ghost use Rattle.moka_requests.specs.Laws.{AreOfAllBytes, IsSameInPieces, OnlyAdds};
ghost use Rattle.moka_requests.specs.Requests.{Unfinished};

/// The requests of a client are a function of all its bytes: its whole lines, and a line that has more
/// than 64 bytes as soon as it has 65. Further bytes only add requests.
pub fn requests_are_of_all_bytes()
    ensures all { AreOfAllBytes }
    ensures adds { OnlyAdds }
{}

/// Bytes that come in two pieces make the requests that they make in one, and leave the same
/// unfinished.
pub fn pieces_make_no_difference()
    ensures { (u : Unfinished) (front back : List ℕ) → IsSameInPieces u front back }
{}
