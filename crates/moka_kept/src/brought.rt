//! What a hold of the lock is brought.

use moka_hist::Told;

/// What a hold of the lock is brought of who is asked, for the first step that is made in it.
#[derive(Drop)]
pub enum Brought<V, E> {
    /// Nothing: no step takes an answer or judges by a replace test.
    Nothing,
    /// The answer to the call's own ask, which the step takes.
    Told(Told<V, E>),
    /// The answer of the call's replace test, by which the step judges the record that was found.
    Tested(bool),
}
