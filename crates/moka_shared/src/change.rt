//! Changes of a pair that stands there, and removals.
ghost use Rattle.std.specs.Prelude.{◌≡◌, ◌<◌, Bool, Some, None, IfSome};
ghost use Rattle.std.specs.Fn.{ComputesKey};
ghost use mathlib.Core.List.{IsPrefix};
ghost use Rattle.moka_shelf.specs.Looks.{hiding};
ghost use Rattle.moka_words.specs.Words.{stored_in};
ghost use Rattle.moka_history.specs.Entries.{IsLegal};
ghost use Rattle.moka_history.specs.Logs.{entries_of, state_of};
ghost use Rattle.moka_growth.specs.declared.kinds.CallKind.TheVariants.{Remove};
ghost use Rattle.moka_shared.specs.Accesses.{ChangedSo, ChangesBy, HasCome, PutsBy};
ghost use Rattle.moka_shared.specs.Changes.{AreMade, IsHere, Makes, Puts, entry_for, entry_taken};
ghost use Rattle.moka_shared.specs.Hashing.{hash_in, place_in, segment_of};
ghost use Rattle.moka_shared.specs.Meeting.{HasNode, IsShown};
ghost use Rattle.moka_shared.specs.Tables.{names_of};
ghost use Rattle.moka_shared.specs.Probing.{EndsAt, GoesOn, IsLogOf};
ghost use Rattle.moka_shared.specs.Removals.{Changes, IsTakenSo, value_of};

use crate::Fact;
use crate::answers::{Missed, Put, TryChange};
use crate::node::Node;
use crate::probe::Ended;
use crate::put::Gap;
use crate::seat::Seat;
use crate::standing::Standing;
use crate::table::HashMap;
use crate::words::stored_in;
use moka_shelf::Shelf;
use moka_values::Exact;
use moka_words::Word;
use std::hash::{BuildHasher, Hash};

impl<
    K: Eq + Hash + Exact + Drop,
    V: Exact + Drop,
    S: BuildHasher + Drop,
    P: Fact<K, V>,
    L: Shelf<Node<K, V, S, P>>,
> HashMap<K, V, S, P, L> {
    /// Puts the value in place of the one that stands under the key, by one pass. Answers the
    /// former one.
    pub fn try_replace(
        &self,
        seat: &mut Seat<K, V, S, L::Look>,
        key: &K,
        hash: u64,
        value: &V,
    ) -> TryChange<V>
        requires seat { seat.old.front.book ≡ self.now.book }
        requires hash { hash ≡ hash_in S.BuildHasher S.Hasher.Hasher K.hash_input
            self.now.hasher key.now }
        requires fact { P.holds key.now value.now }
        ensures seat { seat.new.front.book ≡ self.now.book }
        ensures history { IsPrefix seat.old.front.log seat.new.front.log }
        ensures legal { IsLegal K.eq (entries_of seat.new.front.log) }
        ensures made { AreMade seat.old.mine.numbers (entries_of seat.old.front.log)
            → AreMade seat.new.mine.numbers (entries_of seat.new.front.log) }
        ensures fact { IsTakenSo (P.holds key.now) result }
        ensures accesses { HasCome K.eq (hash_in S.BuildHasher S.Hasher.Hasher K.hash_input)
            (place_in S.BuildHasher S.Hasher.Hasher K.hash_input) self.now key.now Remove hash
            seat.old.front.log seat.new.front.log (ChangedSo self.now.size
            (place_in S.BuildHasher S.Hasher.Hasher K.hash_input self.now.hasher
            self.now.segments key.now) result) }
        ensures answers { Changes K.eq (place_in S.BuildHasher S.Hasher.Hasher K.hash_input)
            (hiding L.hidden L.last) self.now hash key.now (Some value.now)
            seat.old seat.new result }
    {
        self.change_once(seat, key, hash, Some(value))
    }

    /// Removes the pair of the key, by one pass. Answers its value. The bucket is then one of this
    /// key alone, until a pair of it is put there again.
    pub fn try_remove(&self, seat: &mut Seat<K, V, S, L::Look>, key: &K, hash: u64) -> TryChange<V>
        requires seat { seat.old.front.book ≡ self.now.book }
        requires hash { hash ≡ hash_in S.BuildHasher S.Hasher.Hasher K.hash_input
            self.now.hasher key.now }
        ensures seat { seat.new.front.book ≡ self.now.book }
        ensures history { IsPrefix seat.old.front.log seat.new.front.log }
        ensures legal { IsLegal K.eq (entries_of seat.new.front.log) }
        ensures made { AreMade seat.old.mine.numbers (entries_of seat.old.front.log)
            → AreMade seat.new.mine.numbers (entries_of seat.new.front.log) }
        ensures fact { IsTakenSo (P.holds key.now) result }
        ensures accesses { HasCome K.eq (hash_in S.BuildHasher S.Hasher.Hasher K.hash_input)
            (place_in S.BuildHasher S.Hasher.Hasher K.hash_input) self.now key.now Remove hash
            seat.old.front.log seat.new.front.log (ChangedSo self.now.size
            (place_in S.BuildHasher S.Hasher.Hasher K.hash_input self.now.hasher
            self.now.segments key.now) result) }
        ensures answers { Changes K.eq (place_in S.BuildHasher S.Hasher.Hasher K.hash_input)
            (hiding L.hidden L.last) self.now hash key.now None
            seat.old seat.new result }
    {
        self.change_once(seat, key, hash, self.no_value())
    }

    // What a removal puts.
    fn no_value<'a>(&'a self) -> Option<&'a V>
        ensures { result ≡ None }
    {
        None
    }

    // What the history names under a removal's ticket.
    fn no_pair<'a>(&'a self) -> Option<(&'a K, &'a V)>
        ensures { result ≡ None }
    {
        None
    }

    // Puts the value in place of the one that stands under the key, or removes the pair where none
    // is to be put.
    fn change_once(
        &self,
        seat: &mut Seat<K, V, S, L::Look>,
        key: &K,
        hash: u64,
        put: Option<&V>,
    ) -> TryChange<V>
        requires seat { seat.old.front.book ≡ self.now.book }
        requires hash { hash ≡ hash_in S.BuildHasher S.Hasher.Hasher K.hash_input
            self.now.hasher key.now }
        requires fact { IfSome put (λ value. P.holds key.now value.now) }
        ensures seat { seat.new.front.book ≡ self.now.book }
        ensures history { IsPrefix seat.old.front.log seat.new.front.log }
        ensures legal { IsLegal K.eq (entries_of seat.new.front.log) }
        ensures made { AreMade seat.old.mine.numbers (entries_of seat.old.front.log)
            → AreMade seat.new.mine.numbers (entries_of seat.new.front.log) }
        ensures fact { IsTakenSo (P.holds key.now) result }
        ensures accesses { HasCome K.eq (hash_in S.BuildHasher S.Hasher.Hasher K.hash_input)
            (place_in S.BuildHasher S.Hasher.Hasher K.hash_input) self.now key.now Remove hash
            seat.old.front.log seat.new.front.log (ChangedSo self.now.size
            (place_in S.BuildHasher S.Hasher.Hasher K.hash_input self.now.hasher
            self.now.segments key.now) result) }
        ensures answers { Changes K.eq (place_in S.BuildHasher S.Hasher.Hasher K.hash_input)
            (hiding L.hidden L.last) self.now hash key.now (value_of put.entry)
            seat.old seat.new result }
    {
        seat.front.learn(&self.start);
        let mut eq = |other: &K| *key == *other;
        self.change(seat, key, hash, put, &mut eq)
    }

    // Seeks the key, and makes the change where it ended.
    fn change<F: FnMut(&K) -> bool>(
        &self,
        seat: &mut Seat<K, V, S, L::Look>,
        key: &K,
        hash: u64,
        put: Option<&V>,
        eq: &mut F,
    ) -> TryChange<V>
        requires seat { seat.old.front.book ≡ self.now.book }
        requires log { IsLogOf K.eq (hash_in S.BuildHasher S.Hasher.Hasher K.hash_input)
            (place_in S.BuildHasher S.Hasher.Hasher K.hash_input) self.now seat.old.front.log }
        requires hash { hash ≡ hash_in S.BuildHasher S.Hasher.Hasher K.hash_input
            self.now.hasher key.now }
        requires fact { IfSome put (λ value. P.holds key.now value.now) }
        requires callable { F.IsAlwaysCallable eq.old }
        requires computes { ComputesKey F.FnMut (K.eq key.now) eq.old }
        ensures book { seat.new.front.book ≡ seat.old.front.book }
        ensures goes_on { GoesOn K.eq (hash_in S.BuildHasher S.Hasher.Hasher K.hash_input)
            (place_in S.BuildHasher S.Hasher.Hasher K.hash_input) self.now
            seat.old.front.log seat.new.front.log }
        ensures fact { IsTakenSo (P.holds key.now) result }
        ensures accesses { HasCome K.eq (hash_in S.BuildHasher S.Hasher.Hasher K.hash_input)
            (place_in S.BuildHasher S.Hasher.Hasher K.hash_input) self.now key.now Remove hash
            seat.old.front.log seat.new.front.log (ChangedSo self.now.size
            (place_in S.BuildHasher S.Hasher.Hasher K.hash_input self.now.hasher
            self.now.segments key.now) result) }
        ensures answers { Changes K.eq (place_in S.BuildHasher S.Hasher.Hasher K.hash_input)
            (hiding L.hidden L.last) self.now hash key.now (value_of put.entry)
            seat.old seat.new result }
    {
        let ended = self.seek(&mut seat.front, &mut seat.hidden, hash, eq);
        match ended {
            Ended::At { passed, word, node } => self.change_at(
                seat,
                key,
                put,
                &Gap { hash, passed, word },
                node,
            ),
            Ended::Full => TryChange::Absent,
            Ended::Hidden(number) => TryChange::Again(Missed::NodeHidden(number)),
            Ended::Sealed { passed, word } => TryChange::Again(self.sealed(
                &seat.front,
                hash,
                passed,
                word,
            )),
        }
    }

    // Where the probe ended at a word: a live one is exchanged, at another the key is absent.
    fn change_at(
        &self,
        seat: &mut Seat<K, V, S, L::Look>,
        key: &K,
        put: Option<&V>,
        gap: &Gap,
        node: Option<&Node<K, V, S, P>>,
    ) -> TryChange<V>
        requires seat { seat.old.front.book ≡ self.now.book }
        requires log { IsLogOf K.eq (hash_in S.BuildHasher S.Hasher.Hasher K.hash_input)
            (place_in S.BuildHasher S.Hasher.Hasher K.hash_input) self.now seat.old.front.log }
        requires hash { gap.now.hash ≡ hash_in S.BuildHasher S.Hasher.Hasher K.hash_input
            self.now.hasher key.now }
        requires below { segment_of self.now.segments gap.now.hash < self.now.segments }
        requires ends { EndsAt K.eq (place_in S.BuildHasher S.Hasher.Hasher K.hash_input)
            self.now key.now gap.now.hash seat.old.front.log gap.now.passed gap.now.word }
        requires node { HasNode (names_of self.now.book) gap.now.word node }
        requires fact { IfSome put (λ value. P.holds key.now value.now) }
        ensures book { seat.new.front.book ≡ seat.old.front.book }
        ensures goes_on { GoesOn K.eq (hash_in S.BuildHasher S.Hasher.Hasher K.hash_input)
            (place_in S.BuildHasher S.Hasher.Hasher K.hash_input) self.now
            seat.old.front.log seat.new.front.log }
        ensures fact { IsTakenSo (P.holds key.now) result }
        ensures exchange { ChangesBy self.now gap.now.hash gap.now.passed gap.now.word
            seat.old.front.log seat.new.front.log result }
        ensures answers { Changes K.eq (place_in S.BuildHasher S.Hasher.Hasher K.hash_input)
            (hiding L.hidden L.last) self.now gap.now.hash key.now (value_of put.entry)
            seat.old seat.new result }
    {
        let _key = key;
        match stored_in(gap.word) {
            Some(number) => self.change_live(seat, key, put, gap, number, node),
            None => TryChange::Absent,
        }
    }

    // Copies the value of this node, under which the key stands, and makes the change.
    fn change_live(
        &self,
        seat: &mut Seat<K, V, S, L::Look>,
        key: &K,
        put: Option<&V>,
        gap: &Gap,
        number: u64,
        node: Option<&Node<K, V, S, P>>,
    ) -> TryChange<V>
        requires seat { seat.old.front.book ≡ self.now.book }
        requires log { IsLogOf K.eq (hash_in S.BuildHasher S.Hasher.Hasher K.hash_input)
            (place_in S.BuildHasher S.Hasher.Hasher K.hash_input) self.now seat.old.front.log }
        requires hash { gap.now.hash ≡ hash_in S.BuildHasher S.Hasher.Hasher K.hash_input
            self.now.hasher key.now }
        requires below { segment_of self.now.segments gap.now.hash < self.now.segments }
        requires ends { EndsAt K.eq (place_in S.BuildHasher S.Hasher.Hasher K.hash_input)
            self.now key.now gap.now.hash seat.old.front.log gap.now.passed gap.now.word }
        requires stored { stored_in gap.now.word ≡ Some number }
        requires node { IsShown (names_of self.now.book) number node }
        requires fact { IfSome put (λ value. P.holds key.now value.now) }
        ensures book { seat.new.front.book ≡ seat.old.front.book }
        ensures goes_on { GoesOn K.eq (hash_in S.BuildHasher S.Hasher.Hasher K.hash_input)
            (place_in S.BuildHasher S.Hasher.Hasher K.hash_input) self.now
            seat.old.front.log seat.new.front.log }
        ensures fact { IsTakenSo (P.holds key.now) result }
        ensures exchange { ChangesBy self.now gap.now.hash gap.now.passed gap.now.word
            seat.old.front.log seat.new.front.log result }
        ensures answers { Changes K.eq (place_in S.BuildHasher S.Hasher.Hasher K.hash_input)
            (hiding L.hidden L.last) self.now gap.now.hash key.now (value_of put.entry)
            seat.old seat.new result }
    {
        match self.standing(&seat.front, key, gap, number, node) {
            Standing::Here(former) => self.change_from(seat, key, put, gap, number, former),
            Standing::Memory => TryChange::Memory,
        }
    }

    // Makes the change of this node's pair, whose value is known.
    fn change_from(
        &self,
        seat: &mut Seat<K, V, S, L::Look>,
        key: &K,
        put: Option<&V>,
        gap: &Gap,
        number: u64,
        former: V,
    ) -> TryChange<V>
        requires seat { seat.old.front.book ≡ self.now.book }
        requires log { IsLogOf K.eq (hash_in S.BuildHasher S.Hasher.Hasher K.hash_input)
            (place_in S.BuildHasher S.Hasher.Hasher K.hash_input) self.now seat.old.front.log }
        requires hash { gap.now.hash ≡ hash_in S.BuildHasher S.Hasher.Hasher K.hash_input
            self.now.hasher key.now }
        requires below { segment_of self.now.segments gap.now.hash < self.now.segments }
        requires ends { EndsAt K.eq (place_in S.BuildHasher S.Hasher.Hasher K.hash_input)
            self.now key.now gap.now.hash seat.old.front.log gap.now.passed gap.now.word }
        requires stored { stored_in gap.now.word ≡ Some number }
        requires fact { IfSome put (λ value. P.holds key.now value.now) }
        requires here { IsHere K.eq key.now number seat.old.front.log former }
        requires holds { P.holds key.now former }
        ensures book { seat.new.front.book ≡ seat.old.front.book }
        ensures goes_on { GoesOn K.eq (hash_in S.BuildHasher S.Hasher.Hasher K.hash_input)
            (place_in S.BuildHasher S.Hasher.Hasher K.hash_input) self.now
            seat.old.front.log seat.new.front.log }
        ensures fact { IsTakenSo (P.holds key.now) result }
        ensures exchange { ChangesBy self.now gap.now.hash gap.now.passed gap.now.word
            seat.old.front.log seat.new.front.log result }
        ensures answers { Changes K.eq (place_in S.BuildHasher S.Hasher.Hasher K.hash_input)
            (hiding L.hidden L.last) self.now gap.now.hash key.now (value_of put.entry)
            seat.old seat.new result }
    {
        match self.change_to(seat, key, put, gap, number) {
            Put::Done => TryChange::Changed(former),
            Put::Missed(missed) => TryChange::Again(missed),
            Put::Memory => TryChange::Memory,
            Put::There(_) => unreachable!(),
        }
    }

    // Puts the value in place of this node's pair, or a tombstone where none is to be put.
    fn change_to(
        &self,
        seat: &mut Seat<K, V, S, L::Look>,
        key: &K,
        put: Option<&V>,
        gap: &Gap,
        number: u64,
    ) -> Put<V>
        requires seat { seat.old.front.book ≡ self.now.book }
        requires log { IsLogOf K.eq (hash_in S.BuildHasher S.Hasher.Hasher K.hash_input)
            (place_in S.BuildHasher S.Hasher.Hasher K.hash_input) self.now seat.old.front.log }
        requires hash { gap.now.hash ≡ hash_in S.BuildHasher S.Hasher.Hasher K.hash_input
            self.now.hasher key.now }
        requires below { segment_of self.now.segments gap.now.hash < self.now.segments }
        requires ends { EndsAt K.eq (place_in S.BuildHasher S.Hasher.Hasher K.hash_input)
            self.now key.now gap.now.hash seat.old.front.log gap.now.passed gap.now.word }
        requires stored { stored_in gap.now.word ≡ Some number }
        requires fact { IfSome put (λ value. P.holds key.now value.now) }
        ensures book { seat.new.front.book ≡ seat.old.front.book }
        ensures goes_on { GoesOn K.eq (hash_in S.BuildHasher S.Hasher.Hasher K.hash_input)
            (place_in S.BuildHasher S.Hasher.Hasher K.hash_input) self.now
            seat.old.front.log seat.new.front.log }
        ensures exchange { PutsBy self.now gap.now.hash gap.now.passed gap.now.word
            seat.old.front.log seat.new.front.log result }
        ensures puts { (pair : K × V)
            → (state_of seat.old.front.log).pairs number ≡ Some pair
            → Puts K.eq (place_in S.BuildHasher S.Hasher.Hasher K.hash_input)
            (hiding L.hidden L.last) self.now
            gap.now.hash seat.old seat.new (Makes seat.old seat.new
            (λ n. entry_for n key.now (value_of put.entry) pair))
            (λ found. ⊥) result }
    {
        match put {
            Some(value) => self.put(seat, key, value, gap),
            None => self.take(seat, key, gap, number),
        }
    }

    // Draws a ticket, and puts a tombstone in place of this node on it.
    fn take(&self, seat: &mut Seat<K, V, S, L::Look>, key: &K, gap: &Gap, number: u64) -> Put<V>
        requires seat { seat.old.front.book ≡ self.now.book }
        requires log { IsLogOf K.eq (hash_in S.BuildHasher S.Hasher.Hasher K.hash_input)
            (place_in S.BuildHasher S.Hasher.Hasher K.hash_input) self.now seat.old.front.log }
        requires hash { gap.now.hash ≡ hash_in S.BuildHasher S.Hasher.Hasher K.hash_input
            self.now.hasher key.now }
        requires below { segment_of self.now.segments gap.now.hash < self.now.segments }
        requires ends { EndsAt K.eq (place_in S.BuildHasher S.Hasher.Hasher K.hash_input)
            self.now key.now gap.now.hash seat.old.front.log gap.now.passed gap.now.word }
        requires stored { stored_in gap.now.word ≡ Some number }
        ensures book { seat.new.front.book ≡ seat.old.front.book }
        ensures goes_on { GoesOn K.eq (hash_in S.BuildHasher S.Hasher.Hasher K.hash_input)
            (place_in S.BuildHasher S.Hasher.Hasher K.hash_input) self.now
            seat.old.front.log seat.new.front.log }
        ensures exchange { PutsBy self.now gap.now.hash gap.now.passed gap.now.word
            seat.old.front.log seat.new.front.log result }
        ensures puts { (pair : K × V)
            → (state_of seat.old.front.log).pairs number ≡ Some pair
            → Puts K.eq (place_in S.BuildHasher S.Hasher.Hasher K.hash_input)
            (hiding L.hidden L.last) self.now
            gap.now.hash seat.old seat.new (Makes seat.old seat.new (λ n. entry_taken n pair))
            (λ found. ⊥) result }
    {
        let _key = key;
        match self.draw_for(&mut seat.front, &mut seat.drawn, self.no_pair()) {
            Ok(drawn) => self.change_on(seat, gap, Word::Tomb(number), drawn),
            Err(missed) => Put::Missed(missed),
        }
    }
}
