//! Laws of the map that the words of a segment stand for.

ghost use Rattle.moka_growth.specs.Laws.{EndingIsMaps, GoingKeepsMap, PresentIsMine, PresentIsOne};

/// Under each key at most one node is present.
pub fn present_is_one()
    ensures one { PresentIsOne }
{}

/// Each node present is of a key of the segment.
pub fn present_is_mine()
    ensures mine { PresentIsMine }
{}

/// An access after which the call goes on keeps the map: so do sealing, linking, copying and
/// swinging.
pub fn going_keeps_map()
    ensures keeps { GoingKeepsMap }
{}

/// An access with which a call ends finds what the map has under the call's key, and changes the
/// map there alone, as the call answers. It says nothing of the nodes that a call lists.
pub fn ending_is_maps()
    ensures ends { EndingIsMaps }
{}
