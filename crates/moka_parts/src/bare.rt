//! What lies under the lock of a part whose history has no name.
ghost use Rattle.std.specs.Prelude.{◌≡◌, true, is_some, Option, None, Some, IfNone, IfSome, MatchOption};
ghost use Rattle.std.specs.Prelude.{IfOk, OnOk, OnErr};
ghost use denote.Ref.{Bor};
ghost use Rattle.std.specs.List.{IsDistinct};
ghost use Rattle.std.specs.Option.{option_map};
ghost use Rattle.std.specs.Set.{is_member};
ghost use Rattle.moka_parts.specs.Calls.{Judged, Shown, Stays};
ghost use Rattle.moka_parts.specs.Hashing.{part_in};
ghost use Rattle.moka_parts.specs.Pairs.{lent, pair_in, PutsAt, SamePairs};

use crate::counted::Counted;
use crate::held::Held;
use crate::part::{answered, copied, holds_of, ignore, refused};
use crate::placing::are_of;
use crate::{Fact, pairs};
use moka_values::Exact;
use std::alloc::{AllocError, Global};
use std::collections::HashMap;
use std::hash::{BuildHasher, Hash};
use std::marker::{Model, PhantomData};

/// The map of a part, whose pairs meet the fact. Contracts see its entries.
#[derive(Drop)]
pub(crate) struct Bare<K: Eq + Hash, V, S: BuildHasher, F: Fact<K, V>> {
    map: HashMap<K, Held<K, V>, S>,
    of: PhantomData<F>,
}

impl<K: Eq + Hash, V, S: BuildHasher, F: Fact<K, V>> Model for Bare<K, V, S, F> {
    ghost use Rattle.std.specs.Prelude.{List};
    ghost use Rattle.moka_parts.specs.declared.held.Held.{Held};
    ghost use Rattle.moka_parts.specs.Pairs.{MeetsFact};

    ghost Value = { List (K × Held K V) };

    ghost view = { λ b. b.map.entries };

    ghost invariant = { λ b. MeetsFact K.eq F.holds b.map.entries };
}

impl<K: Eq + Hash, V, S: BuildHasher, F: Fact<K, V>> Bare<K, V, S, F> {
    /// A part without pairs.
    pub(crate) fn new(alloc: Global, hasher: S) -> Self {
        Bare {
            map: HashMap::with_hasher(alloc, hasher),
            of: PhantomData,
        }
    }

    /// Lends the pair at the key.
    pub(crate) fn find(&self, key: &K) -> Option<(&K, &V)>
        ensures pair { lent result ≡ pair_in K.eq self.now key.now }
        ensures fact { IfSome result (λ p. F.holds key.now p.1.now) }
    {
        pairs::find(&self.map, key)
    }

    /// Puts the pair, and answers what the closure gives, which is lent the pair that stood there.
    /// What leaves the part comes beside the answer: where memory is wanting this is the pair, and
    /// the map is as before.
    pub(crate) fn put<T, W: FnOnce(Option<(&K, &V)>) -> T>(
        &mut self,
        key: K,
        value: V,
        with: W,
    ) -> (Result<T, AllocError>, Option<Held<K, V>>)
    where
        K: Drop,
        V: Drop,
        requires fact { F.holds key value }
        requires callable { (shown : Option (Bor K × Bor V))
            → IfSome shown (λ p. F.holds key p.1.now) → W.pre with shown }
        ensures shown { IfOk result.0 (Shown W.FnOnce with (pair_in K.eq self.old key)) }
        ensures map { OnOk result.0 (PutsAt K.eq key (Some (key, value)) self.old self.new) }
        ensures err { OnErr result.0 (SamePairs K.eq self.old self.new) }
        ensures fact { OnOk result.0 (IfSome (pair_in K.eq self.old key) (λ p. F.holds key p.1)) }
    {
        if pairs::make_room(&mut self.map).is_err() {
            return refused(key, value);
        }
        let (given, left) = pairs::replace(&mut self.map, key, value, with);
        (Ok(given), left)
    }

    /// Puts the pair where none stands at the key: answers None, or a copy of the value that stands
    /// there. A pair that isn't put comes back beside the answer. Where memory is wanting the map
    /// is as before.
    pub(crate) fn put_if_absent(
        &mut self,
        key: K,
        value: V,
    ) -> (Result<Option<V>, AllocError>, Option<Held<K, V>>)
    where
        K: Drop,
        V: Exact + Drop,
        requires fact { F.holds key value }
        ensures answers { IfOk result.0 (λ there. MatchOption there
            ((pair_in K.eq self.old key ≡ None)
            × PutsAt K.eq key (Some (key, value)) self.old self.new)
            (λ v. (option_map (λ p. p.1) (pair_in K.eq self.old key) ≡ Some v)
            × SamePairs K.eq self.old self.new)) }
        ensures err { OnErr result.0 (SamePairs K.eq self.old self.new) }
        ensures fact { IfOk result.0 (λ there. IfSome there (F.holds key)) }
    {
        match copied(self.find(&key)) {
            Ok(None) => answered(self.put(key, value, ignore)),
            found => (
                found,
                Some(Held {
                    newer: Some(key),
                    value,
                }),
            ),
        }
    }

    /// Takes the pair at the key out, where the condition holds of it. The map's own key comes
    /// beside it, where it isn't the pair's.
    pub(crate) fn take_out_if<C: FnOnce(&K, &V) -> bool>(
        &mut self,
        key: &K,
        condition: C,
    ) -> (Option<(K, V)>, Option<K>)
        requires callable { (k : Bor K) (v : Bor V) → F.holds key.now v.now
            → C.pre condition k v }
        ensures none { IfNone result.0 (Stays C.FnOnce condition (pair_in K.eq self.old key.now)
            × SamePairs K.eq self.old self.new) }
        ensures some { IfSome result.0 (λ p. (pair_in K.eq self.old key.now ≡ Some p)
            × PutsAt K.eq key.now None self.old self.new × Judged C.FnOnce condition p true) }
        ensures fact { IfSome result.0 (λ p. F.holds key.now p.1) }
    {
        if !holds_of(condition, pairs::find(&self.map, key)) {
            return (None, None);
        }
        pairs::take(&mut self.map, key)
    }

    /// Copies of the keys, which are of the part of this number. It is an error where memory is
    /// wanting; or where a key is of another part, which no run leads to.
    pub(crate) fn keys(
        &self,
        alloc: Global,
        hasher: &S,
        number: usize,
    ) -> Result<Vec<K>, AllocError>
    where
        K: Exact + Drop,
        ensures distinct { IfOk result (λ keys. IsDistinct K.eq keys.items) }
        ensures of_part { IfOk result (λ keys. (q : K) → is_member K.eq keys.items q ≡ true
            → part_in S.BuildHasher S.Hasher.Hasher K.hash_input hasher.now q ≡ number) }
        ensures listed { IfOk result (λ keys. (q : K)
            → is_member K.eq keys.items q ≡ is_some (pair_in K.eq self.now q)) }
        ensures fact { IfOk result (λ keys. (q : K) → is_member K.eq keys.items q ≡ true
            → (v : V) × F.holds q v) }
    {
        let keys = pairs::keys(alloc, &self.map)?;
        if !are_of(hasher, keys.as_slice(), number) {
            return Err(AllocError);
        }
        Ok(keys)
    }
}

impl<K: Eq + Hash, V, S: BuildHasher, F: Fact<K, V>> Counted for Bare<K, V, S, F> {
    fn len(&self) -> usize {
        self.map.len()
    }
}
