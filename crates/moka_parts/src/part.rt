//! What lies under the lock of a part whose history has a name.
ghost use Rattle.std.specs.Prelude.{◌≡◌, ◌<◌, ◌==◌, [], ◌∷◌, true, false, cond, is_some, Option, Some, None, IfSome, IfOk, MatchOption};
ghost use Rattle.std.specs.Prelude.{OnOk, OnErr, Ok, IsErr};
ghost use denote.Ref.{Bor};
ghost use Rattle.std.specs.List.{IsDistinct};
ghost use Rattle.std.specs.Option.{option_map};
ghost use Rattle.std.specs.Set.{is_member};
ghost use mathlib.Core.List.{IsPrefix};
ghost use Rattle.logbook.specs.Pages.{nib, may_make_home};
ghost use Rattle.moka_parts.specs.declared.note.Note.TheVariants.{Opened};
ghost use Rattle.moka_parts.specs.Calls.{Judged, ShownSome, TakesOut};
ghost use Rattle.moka_parts.specs.Changes.{map_after};
ghost use Rattle.moka_parts.specs.Hashing.{part_in};
ghost use Rattle.moka_parts.specs.Logs.{changes_in, IsOpenedFor};
ghost use Rattle.moka_parts.specs.Pairs.{lent, pair_in, SamePairs};
ghost use Rattle.moka_parts.specs.Parts.{EndsBy, IsIn};

use crate::asked::Asked;
use crate::book::{Law, Naming};
use crate::counted::Counted;
use crate::front::Front;
use crate::held::Held;
use crate::own::Own;
use crate::{Fact, Note, pairs};
use logbook::{Pen, Word};
use moka_values::Exact;
use std::alloc::{AllocError, Global};
use std::collections::HashMap;
use std::hash::{BuildHasher, Hash};
use std::marker::{Model, PhantomData};

/// The map of a part, beside a count of its changes, the word of the book that says that count, and
/// what its holder has seen of the history. Contracts see the map's entries.
#[derive(Drop)]
pub(crate) struct Part<K: Eq + Hash, V, S: BuildHasher, J: Naming, F: Fact<K, V>> {
    number: usize,
    count: u64,
    word: Word<Note<K, V, S>, u64, Law>,
    front: Front<K, V, S, J>,
    map: HashMap<K, Held<K, V>, S>,
    of: PhantomData<F>,
}

impl<K: Eq + Hash, V, S: BuildHasher, J: Naming, F: Fact<K, V>> Model for Part<K, V, S, J, F> {
    ghost use Rattle.std.specs.Prelude.{List};
    ghost use Rattle.moka_parts.specs.declared.held.Held.{Held};
    ghost use Rattle.moka_parts.specs.Hashing.{part_in};
    ghost use Rattle.moka_parts.specs.Parts.{IsPart};

    ghost Value = { List (K × Held K V) };

    ghost view = { λ p. p.map.entries };

    ghost invariant = { λ p. IsPart K.eq (part_in S.BuildHasher S.Hasher.Hasher K.hash_input)
        F.holds J.book p.number p.count p.word p.front p.map };
}

impl<K: Eq + Hash, V, S: BuildHasher, J: Naming, F: Fact<K, V>> Part<K, V, S, J, F> {
    /// A part without pairs, over the word that the pen is the right to make.
    pub(crate) fn new(
        alloc: Global,
        number: usize,
        hasher: S,
        start: &Front<K, V, S, J>,
        mut pen: Pen,
    ) -> Self
        requires small { number < 64 }
        requires start { (s : S) × (start.now ≡ Opened s ∷ []) }
        requires pen { (pen.book ≡ J.book) × (pen.nib ≡ nib may_make_home number 0) }
    {
        Part {
            number,
            count: 0,
            word: Word::tracked(0, &mut pen),
            front: start.again(),
            map: HashMap::with_hasher(alloc, hasher),
            of: PhantomData,
        }
    }

    /// Lends the pair at the key, once the caller has seen the history as it is. Answers None only
    /// where the part isn't the one of this number, or its count isn't the book's, which no run
    /// leads to.
    pub(crate) fn find(
        &self,
        number: usize,
        start: &Front<K, V, S, J>,
        me: &mut Front<K, V, S, J>,
        key: &K,
    ) -> Option<Option<(&K, &V)>>
        requires part { IsIn K.eq (part_in S.BuildHasher S.Hasher.Hasher K.hash_input) F.holds
            number key.now start.now }
        ensures grows { IsPrefix me.old me.new }
        ensures pair { IfSome result (λ found. lent found ≡ pair_in K.eq self.now key.now) }
        ensures found { IfSome result (λ found.
            lent found ≡ map_after K.eq (changes_in me.new) key.now) }
        ensures fact { IfSome result (λ found. IfSome found (λ p. F.holds key.now p.1.now)) }
    {
        if !me.sees(
            start,
            &self.front,
            &self.word,
            self.number,
            number,
            self.count,
        ) {
            return None;
        }
        Some(pairs::find(&self.map, key))
    }

    /// Puts the pair, and answers what the closure gives, which is lent the pair that stood there.
    /// What leaves the part comes beside the answer. It is an error, in which this is the pair and
    /// the map is as before, where memory is wanting; or where the part isn't the one of this
    /// number, or its count isn't the book's, which no run leads to.
    pub(crate) fn put<T, W: FnOnce(Option<(&K, &V)>) -> T>(
        &mut self,
        number: usize,
        start: &Front<K, V, S, J>,
        me: &mut Front<K, V, S, J>,
        own: &mut Own<K, V, S, J>,
        key: K,
        value: V,
        with: W,
    ) -> (Result<T, AllocError>, Option<Held<K, V>>)
    where
        K: Drop,
        V: Drop,
        requires part { IsIn K.eq (part_in S.BuildHasher S.Hasher.Hasher K.hash_input) F.holds
            number key start.now }
        requires fact { F.holds key value }
        requires callable { (shown : Option (Bor K × Bor V))
            → IfSome shown (λ p. F.holds key p.1.now) → W.pre with shown }
        ensures grows { IsPrefix me.old me.new }
        ensures ends { IfOk result.0 (ShownSome W.FnOnce with (λ before.
            EndsBy key (Some value) before own.old own.new me.old me.new
            × (before ≡ pair_in K.eq self.old key) × IfSome before (λ p. F.holds key p.1))) }
        ensures err { OnErr result.0 (SamePairs K.eq self.old self.new) }
        ensures rests { OnErr result.0 (own.new ≡ own.old) }
    {
        me.learn(start);
        me.learn(&self.front);
        if self.number != number {
            return refused(key, value);
        }
        if pairs::make_room(&mut self.map).is_err() {
            return refused(key, value);
        }
        let asked = Asked {
            key: &key,
            put: Some(&value),
            map: &self.map,
        };
        if !me.add(&self.word, number, self.count, &asked, own) {
            return refused(key, value);
        }
        self.count += 1;
        self.front = me.again();
        let (given, left) = pairs::replace(&mut self.map, key, value, with);
        (Ok(given), left)
    }

    /// Takes the pair at the key out, where the condition holds of it. The map's own key comes
    /// beside the answer, where it isn't the pair's. It is an error, and the map
    /// is as before, only where the part isn't the one of this number, or its count isn't the
    /// book's, which no run leads to.
    pub(crate) fn take_out_if<C: FnOnce(&K, &V) -> bool>(
        &mut self,
        number: usize,
        start: &Front<K, V, S, J>,
        me: &mut Front<K, V, S, J>,
        own: &mut Own<K, V, S, J>,
        key: &K,
        condition: C,
    ) -> (Result<Option<(K, V)>, AllocError>, Option<K>)
        requires part { IsIn K.eq (part_in S.BuildHasher S.Hasher.Hasher K.hash_input) F.holds
            number key.now start.now }
        requires callable { (k : Bor K) (v : Bor V) → F.holds key.now v.now
            → C.pre condition k v }
        ensures grows { IsPrefix me.old me.new }
        ensures ok { IfOk result.0 (λ taken. TakesOut C.FnOnce condition key.now
            (map_after K.eq (changes_in me.new) key.now) taken own.old own.new me.old me.new) }
        ensures err { OnErr result.0 (SamePairs K.eq self.old self.new) }
        ensures rests { OnErr result.0 (own.new ≡ own.old) }
        ensures fact { IfOk result.0 (λ taken. IfSome taken (λ p. F.holds key.now p.1)) }
    {
        if !me.sees(
            start,
            &self.front,
            &self.word,
            self.number,
            number,
            self.count,
        ) {
            return (Err(AllocError), None);
        }
        if !holds_of(condition, pairs::find(&self.map, key)) {
            return (Ok(None), None);
        }
        let asked = Asked::out(key, &self.map);
        if !me.add(&self.word, number, self.count, &asked, own) {
            return (Err(AllocError), None);
        }
        self.count += 1;
        self.front = me.again();
        let (taken, left) = pairs::take(&mut self.map, key);
        (Ok(taken), left)
    }

    /// Puts the pair where none stands at the key: answers None, or a copy of the value that stands
    /// there. A pair that isn't put comes back beside the answer. It is an error, and the map is as
    /// before, where memory is wanting, or where no run leads.
    pub(crate) fn put_if_absent(
        &mut self,
        number: usize,
        start: &Front<K, V, S, J>,
        me: &mut Front<K, V, S, J>,
        own: &mut Own<K, V, S, J>,
        key: K,
        value: V,
    ) -> (Result<Option<V>, AllocError>, Option<Held<K, V>>)
    where
        K: Drop,
        V: Exact + Drop,
        requires part { IsIn K.eq (part_in S.BuildHasher S.Hasher.Hasher K.hash_input) F.holds
            number key start.now }
        requires fact { F.holds key value }
        ensures grows { IsPrefix me.old me.new }
        ensures answers { IfOk result.0 (λ there. MatchOption there
            (EndsBy key (Some value) None own.old own.new me.old me.new)
            (λ v. (option_map (λ p. p.1) (map_after K.eq (changes_in me.new) key) ≡ Some v)
            × (own.new ≡ own.old))) }
        ensures err { OnErr result.0 (SamePairs K.eq self.old self.new) }
        ensures rests { OnErr result.0 (own.new ≡ own.old) }
        ensures fact { IfOk result.0 (λ there. IfSome there (F.holds key)) }
    {
        match self.copy_at(number, start, me, &key) {
            Ok(None) => answered(self.put(number, start, me, own, key, value, ignore)),
            found => (
                found,
                Some(Held {
                    newer: Some(key),
                    value,
                }),
            ),
        }
    }

    // A copy of the value at the key, if one stands there, once the caller has seen the history as
    // it is.
    fn copy_at(
        &self,
        number: usize,
        start: &Front<K, V, S, J>,
        me: &mut Front<K, V, S, J>,
        key: &K,
    ) -> Result<Option<V>, AllocError>
    where
        V: Exact,
        requires part { IsIn K.eq (part_in S.BuildHasher S.Hasher.Hasher K.hash_input) F.holds
            number key.now start.now }
        ensures grows { IsPrefix me.old me.new }
        ensures pair { IfOk result (λ value.
            value ≡ option_map (λ p. p.1) (pair_in K.eq self.now key.now)) }
        ensures found { IfOk result (λ value.
            value ≡ option_map (λ p. p.1) (map_after K.eq (changes_in me.new) key.now)) }
        ensures fact { IfOk result (λ value. IfSome value (F.holds key.now)) }
    {
        match self.find(number, start, me, key) {
            Some(found) => copied(found),
            None => Err(AllocError),
        }
    }

    /// Copies of the keys, once the caller has seen the history as it is. It is an error where
    /// memory is wanting, or where no run leads.
    pub(crate) fn keys(
        &self,
        alloc: Global,
        number: usize,
        start: &Front<K, V, S, J>,
        me: &mut Front<K, V, S, J>,
    ) -> Result<Vec<K>, AllocError>
    where
        K: Exact + Drop,
        requires start { (s : S) × (start.now ≡ Opened s ∷ []) }
        ensures grows { IsPrefix me.old me.new }
        ensures distinct { IfOk result (λ keys. IsDistinct K.eq keys.items) }
        ensures listed { IfOk result (λ keys. (s : S) → IsOpenedFor s start.now → (q : K)
            → is_member K.eq keys.items q ≡ is_some (cond
            (part_in S.BuildHasher S.Hasher.Hasher K.hash_input s q == number)
            (map_after K.eq (changes_in me.new) q) None)) }
        ensures fact { IfOk result (λ keys. (q : K) → is_member K.eq keys.items q ≡ true
            → (v : V) × F.holds q v) }
    {
        if !me.sees(
            start,
            &self.front,
            &self.word,
            self.number,
            number,
            self.count,
        ) {
            return Err(AllocError);
        }
        pairs::keys(alloc, &self.map)
    }
}

impl<K: Eq + Hash, V, S: BuildHasher, J: Naming, F: Fact<K, V>> Counted for Part<K, V, S, J, F> {
    fn len(&self) -> usize {
        self.map.len()
    }
}

// What `put` answers where the pair isn't put.
pub(crate) fn refused<T, K, V>(key: K, value: V) -> (Result<T, AllocError>, Option<Held<K, V>>)
    ensures { IsErr result.0 }
{
    (
        Err(AllocError),
        Some(Held {
            newer: Some(key),
            value,
        }),
    )
}

// A copy of the value of the pair, if there is one.
pub(crate) fn copied<K, V: Exact>(found: Option<(&K, &V)>) -> Result<Option<V>, AllocError>
    ensures { IfOk result (λ copy. copy ≡ option_map (λ p. p.1) (lent found.entry)) }
{
    match found {
        Some((_, value)) => Ok(Some(value.clone()?)),
        None => Ok(None),
    }
}

// Takes no notice of the pair that it is lent.
pub(crate) fn ignore<K, V>(_former: Option<(&K, &V)>) {}

// What `put_if_absent` answers where `put` answers this.
pub(crate) fn answered<V, X: Drop>(
    put: (Result<(), AllocError>, Option<X>),
) -> (Result<Option<V>, AllocError>, Option<X>)
    ensures ok { OnOk put.0 (result.0 ≡ Ok None) }
    ensures err { OnErr put.0 (IsErr result.0) }
{
    let (answer, left) = put;
    match answer {
        Ok(()) => (Ok(None), left),
        Err(_) => (Err(AllocError), left),
    }
}

// Whether there is a pair, and the condition holds of it.
pub(crate) fn holds_of<K, V, C: FnOnce(&K, &V) -> bool>(
    condition: C,
    found: Option<(&K, &V)>,
) -> bool
    requires { IfSome found (λ p. C.pre condition p.0 p.1) }
    ensures { MatchOption (lent found.entry) (result ≡ false)
        (λ p. Judged C.FnOnce condition p result) }
{
    match found {
        None => false,
        Some((key, value)) => condition(key, value),
    }
}
