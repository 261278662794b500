//! What a table that threads share needs of the place where its items lie.
ghost use Rattle.std.specs.Prelude.{◌≡◌, ℕ, List, IfNone, IfOk, IfSome};
ghost use Rattle.moka_shelf.specs.Looks.{Rises};

use boxcar::tag::Tag;
use std::alloc::{AllocError, Global};

/// An item that has a number, in a table that has names. Only contracts see them.
pub trait Numbered {
    ghost number: { Self → ℕ };

    /// The names of the item's table.
    ghost names: { Self → List ℕ };
}

/// A place where threads set items and are shown them, by their numbers, without a lock. An item
/// stays where it is for as long as the shelf.
///
/// A shelf may hide an item that was set, for as long as another thread is about to set it. Nothing
/// says when it shows it. So a caller has a look, which counts what was hidden from it.
pub trait Shelf<T: Numbered> {
    /// What was hidden from one caller.
    type Look;

    /// How many items were hidden from the look.
    ghost hidden: { Self.Look → ℕ };

    /// The number of the last of them.
    ghost last: { Self.Look → ℕ };

    /// The names of the table whose items lie here.
    ghost owner: { Self → List ℕ };

    /// Makes a shelf on which nothing is set, for a table of these names. An error comes where
    /// memory is wanting.
    fn for_table(alloc: Global, names: &Tag) -> Result<Self, AllocError>
    where
        T: Drop,
        ensures { IfOk result (λ shelf. owner shelf ≡ names.now.numbers) };

    /// Makes a look from which nothing was hidden yet. It takes no memory.
    fn fresh_look(&self) -> Self::Look
        ensures { hidden result ≡ 0 };

    /// Sets the item under its number. Where an item was set under that number before, that one
    /// stays, and this one is dropped. It never waits; an error comes where memory is wanting, or
    /// while another thread is about to store the room for the number. Precondition: the number is
    /// the item's own, and the item is of the shelf's table.
    fn set(&self, number: u64, item: T) -> Result<(), AllocError>
    where
        T: Drop,
        requires own { T.number item ≡ number }
        requires names { T.names item ≡ owner self.now };

    /// Shows the item of this number; or answers None, and counts it as hidden from the look. It
    /// takes no memory, and never waits.
    fn shown<'a>(&'a self, look: &mut Self::Look, number: u64) -> Option<&'a T>
        ensures shows { IfSome result (λ item. T.number item.now ≡ number) }
        ensures names { IfSome result (λ item. T.names item.now ≡ owner self.now) }
        ensures stays { IfSome result (λ item. look.new ≡ look.old) }
        ensures hides { IfNone result (Rises (hidden look.old) (hidden look.new)
            × (last look.new ≡ number)) };
}
