//! What a map has at a key.
ghost use Rattle.std.specs.Prelude.{◌≡◌, Some, IfOk, OnOk, IfErr, OnErr};
ghost use Rattle.moka_parts.specs.Pairs.{pair_of};

use std::mem;

/// The value at a key, and the key that took the place of the map's own, once one did. So a pair is
/// replaced where it lies, by one probe.
#[derive(Drop)]
pub(crate) struct Held<K, V> {
    pub(crate) newer: Option<K>,
    pub(crate) value: V,
}

impl<K, V> Held<K, V> {
    /// Lends the pair, of whose keys this one is the map's.
    #[inline(always)]
    pub(crate) fn pair<'h>(&'h self, stored: &'h K) -> (&'h K, &'h V)
        ensures { (result.0.now, result.1.now) ≡ pair_of (stored.now, self.now) }
    {
        match &self.newer {
            Some(newer) => (newer, &self.value),
            None => (stored, &self.value),
        }
    }

    /// Puts the pair in the place of the one that is held, and answers that one, if its key is held
    /// here. Else the pair comes back.
    #[inline(always)]
    pub(crate) fn renew(&mut self, key: K, value: V) -> Result<(K, V), (K, V)>
        ensures former { IfOk result (λ p.
            self.old ≡ record { newer = Some p.0; value = p.1 }) }
        ensures renewed { OnOk result (self.new ≡ record { newer = Some key; value = value }) }
        ensures back { IfErr result (λ p. p ≡ (key, value)) }
        ensures same { OnErr result (self.new ≡ self.old) }
    {
        match &mut self.newer {
            Some(newer) => Ok((
                mem::replace(newer, key),
                mem::replace(&mut self.value, value),
            )),
            None => Err((key, value)),
        }
    }

    /// The pair, of whose keys this one is the map's. That key is left over where there is a newer.
    #[inline(always)]
    pub(crate) fn into_pair(self, stored: K) -> ((K, V), Option<K>)
        ensures { result.0 ≡ pair_of (stored, self) }
    {
        let Held { newer, value } = self;
        match newer {
            Some(newer) => ((newer, value), Some(stored)),
            None => ((stored, value), None),
        }
    }
}
