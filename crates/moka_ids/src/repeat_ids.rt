//! One id for ever.

use moka_hist::Ids;

/// Gives its one id each time: with it the second predicate finds no id.
#[derive(Clone, Copy, PartialEq, Eq, Debug)]
pub struct RepeatIds {
    pub id: u128,
}

impl Ids for RepeatIds {
    ghost stream = { λ ids n. ids.id };

    fn next_id(&mut self) -> u128 {
        self.id
    }
}
