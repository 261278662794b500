//! What one whole poll of a call comes to.

/// What one whole poll of a call comes to. After `Waits` and `Asks` the call goes on; after each
/// other outcome it is gone.
#[derive(Clone, PartialEq, Debug, Drop)]
pub enum Outcome<V, E> {
    /// The call waits: for the owner of its load, or to be told what its own initializer gave.
    Waits,
    /// The initializer of the call's load is to be run, and what it gives told to the call.
    Asks,
    /// The value of a load; `fresh` where this call brought it.
    Loaded { value: V, fresh: bool },
    /// The initializer of the load gave neither a value nor an error.
    Nothing,
    /// The initializer of the load gave this error.
    Failed(E),
    /// What stood under the key of a get or a remove, if anything.
    Found(Option<V>),
    /// An insert has stored its value; nothing stands under the key of an invalidate.
    Done,
    /// The chosen record was taken out.
    Evicted,
    /// Another record stands under the key, or none, or the cause doesn't hold.
    Kept,
}
