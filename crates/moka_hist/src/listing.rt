//! A list that is handed out to be read.

ghost use Rattle.std.specs.Prelude.{◌≡◌, ◌↔◌, IfOk, IsTrue, [], length, slice_get};
ghost use Rattle.std.specs.Option.{option_copied};
ghost use Rattle.std.specs.Slice.Iter.{iter_rest};

use std::alloc::AllocError;
use std::marker::Model;
use std::slice::Iter;

/// Items in order. Contracts see the list of them. It is made of a vector and gives it back;
/// neither takes memory.
#[derive(Debug, Drop)]
pub struct Listing<T> {
    items: Vec<T>,
}

impl<T> Model for Listing<T> {
    ghost use Rattle.std.specs.Prelude.{List};

    ghost Value = { List T };

    ghost view = { λ l. l.items.items };
}

impl<T> Listing<T> {
    /// Makes the list of a vector.
    pub fn from_vec(items: Vec<T>) -> Self
        ensures { result ≡ items.items }
    {
        Listing { items }
    }

    /// Gives the vector back.
    pub fn into_vec(self) -> Vec<T>
        ensures { result.items ≡ self }
    {
        self.items
    }

    /// The items, in the list's order.
    pub fn as_slice(&self) -> &[T]
        ensures { result.now ≡ self.now }
    {
        self.items.as_slice()
    }

    /// How many items there are.
    pub fn len(&self) -> usize
        ensures { result ≡ length self.now }
    {
        self.items.len()
    }

    /// Whether there is no item.
    pub fn is_empty(&self) -> bool
        ensures { IsTrue result ↔ (self.now ≡ []) }
    {
        self.items.is_empty()
    }

    /// The item at `index`, from 0, or `None` past the end.
    pub fn get(&self, index: usize) -> Option<&T>
        ensures { option_copied result ≡ slice_get self.now index }
    {
        self.items.get(index)
    }

    /// Goes over the items in order.
    pub fn iter(&self) -> Iter<'_, T>
        ensures { iter_rest result ≡ self.now }
    {
        self.items.iter()
    }
}

impl<T: Copy> Listing<T> {
    /// Copies the items into a new vector.
    pub fn to_vec(&self) -> Result<Vec<T>, AllocError>
        ensures { IfOk result (λ items. items.items ≡ self.now) }
    {
        let alloc = *self.items.allocator();
        Vec::from_slice(alloc, &self.items)
    }
}
