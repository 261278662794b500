//! The key that a call is handed.
ghost use Rattle.std.specs.Prelude.{◌≡◌, IfOk, IfErr};
ghost use Rattle.moka_cache.specs.Keys.{key_of};

use moka_values::Exact;
use std::alloc::AllocError;

/// The key of a call: its own, or one that it is lent, which its first poll copies.
#[derive(Drop)]
pub enum CallKey<'a, K> {
    Owned(K),
    Lent(&'a K),
}

impl<K: Exact> CallKey<'_, K> {
    /// Gives the key. Without memory for a copy it gives itself back.
    pub(crate) fn into_key(self) -> Result<K, Self>
        ensures ok { IfOk result (λ key. key ≡ key_of self.entry) }
        ensures err { IfErr result (λ kept. kept ≡ self.entry) }
    {
        match self {
            CallKey::Owned(key) => Ok(key),
            CallKey::Lent(key) => match key.clone() {
                Ok(copy) => Ok(copy),
                Err(_) => Err(CallKey::Lent(key)),
            },
        }
    }

    /// Gives the key twice: for the call, and for the entry that it answers. Without memory for
    /// copies it gives itself back.
    pub(crate) fn into_two(self) -> Result<(K, K), Self>
        ensures one { IfOk result (λ keys. keys.0 ≡ key_of self.entry) }
        ensures other { IfOk result (λ keys. keys.1 ≡ key_of self.entry) }
        ensures err { IfErr result (λ kept. kept ≡ self.entry) }
    {
        match self.copy() {
            Ok(copy) => self.with(copy),
            Err(_) => Err(self),
        }
    }

    // Gives the key, beside this copy.
    fn with(self, copy: K) -> Result<(K, K), Self>
        ensures one { IfOk result (λ keys. keys.0 ≡ key_of self.entry) }
        ensures other { IfOk result (λ keys. keys.1 ≡ copy) }
        ensures err { IfErr result (λ kept. kept ≡ self.entry) }
    {
        match self.into_key() {
            Ok(key) => Ok((key, copy)),
            Err(kept) => Err(kept),
        }
    }

    // A copy of the key.
    fn copy(&self) -> Result<K, AllocError>
        ensures { IfOk result (λ key. key ≡ key_of self.now) }
    {
        match self {
            CallKey::Owned(key) => key.clone(),
            CallKey::Lent(key) => (*key).clone(),
        }
    }
}
