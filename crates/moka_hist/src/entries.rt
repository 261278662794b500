//! What a compute answers.

ghost use Rattle.std.specs.Prelude.{◌≡◌, Some, IsSome};

/// A pair that a call speaks of: whether the call has stored the value, and whether in the place of
/// another. An entry of a call by a key has that key.
#[derive(Clone, PartialEq, Debug, Drop)]
pub struct Entry<K, V> {
    pub key: Option<K>,
    pub value: V,
    pub fresh: bool,
    pub replaced: bool,
}

impl<K, V> Entry<K, V> {
    /// The key of the entry, which is there.
    pub fn key(&self) -> &K
        requires { IsSome self.now.key }
        ensures { Some result.now ≡ self.now.key }
    {
        match &self.key {
            Some(key) => key,
            None => unreachable!(),
        }
    }

    /// The value of the entry.
    pub fn value(&self) -> &V
        ensures { result.now ≡ self.now.value }
    {
        &self.value
    }

    /// Whether the call has stored the value.
    pub fn is_fresh(&self) -> bool
        ensures { result ≡ self.now.fresh }
    {
        self.fresh
    }

    /// Whether the value was stored in the place of another.
    pub fn is_old_value_replaced(&self) -> bool
        ensures { result ≡ self.now.replaced }
    {
        self.replaced
    }
}

impl<K: Drop, V> Entry<K, V> {
    /// Gives the value.
    pub fn into_value(self) -> V
        ensures { result ≡ self.value }
    {
        self.value
    }
}

/// What a compute has done with a key.
#[derive(Clone, PartialEq, Debug, Drop)]
pub enum CompResult<K, V> {
    /// It stored a value, where its look had found none.
    Inserted(Entry<K, V>),
    /// It stored a value, where its look had found one.
    ReplacedWith(Entry<K, V>),
    /// It took out this value.
    Removed(Entry<K, V>),
    /// It left what its look had found.
    Unchanged(Entry<K, V>),
    /// It left the key without a value, or found none to take out.
    StillNone(K),
}
