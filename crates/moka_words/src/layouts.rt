//! Laws of layouts.

ghost use Rattle.moka_words.specs.Laws.{LayoutHasAll, LayoutIsArray, LayoutIsFilled};

/// An array that is laid out anew has the length asked for, and each of its words is empty or live.
pub fn layout_is_filled()
    ensures filled { LayoutIsFilled }
{}

/// In an array as long as the old one, or longer, each stored node gets a place: the layout has the
/// stored nodes of the old array, each as often, and no other.
pub fn layout_has_all()
    ensures all { LayoutHasAll }
{}

/// The layout of an array, in one as long or longer, is an array with just its stored nodes.
pub fn layout_is_array()
    ensures array { LayoutIsArray }
{}
