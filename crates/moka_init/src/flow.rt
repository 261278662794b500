//! A call as a state.
ghost use Rattle.std.specs.Prelude.{◌<◌};

use crate::points::Point;
use moka_hist::{Mode, Rules};

/// A call as a state: the rules of its cache, its number, how far it is, and where it stands.
#[derive(Drop)]
pub struct Flow<K, V, E> {
    pub(crate) rules: Rules,
    pub(crate) call: u64,
    pub(crate) mode: Mode,
    // How often it has read that an owner was dropped.
    pub(crate) aborts: u64,
    // Whether the table operation at which it stands was begun.
    pub(crate) begun: bool,
    pub(crate) point: Point<K, V, E>,
    ghost few: { aborts < 200 },
}
