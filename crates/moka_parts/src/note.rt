//! What the log of a book has.

use crate::Change;

/// The hash builder that a book was opened for, or a change. A step that only looks asks for
/// `Nothing`, which no log has. The code keeps no list of them.
pub enum Note<K, V, S> {
    Opened(S),
    Changed(Change<K, V>),
    Nothing,
}
