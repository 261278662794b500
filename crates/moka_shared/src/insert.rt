//! Inserts of absent keys.
ghost use Rattle.std.specs.Prelude.{◌≡◌, ◌<◌, Bool, Some, None, IfOk, IfErr, IfSome, OnOk, length, List};
ghost use Rattle.std.specs.Fn.{ComputesKey};
ghost use mathlib.Core.List.{IsPrefix};
ghost use Rattle.moka_shelf.specs.Looks.{hiding};
ghost use Rattle.moka_words.specs.Words.{stored_in};
ghost use Rattle.moka_pairs.specs.Pairs.{pair_at};
ghost use Rattle.moka_history.specs.Entries.{IsLegal};
ghost use Rattle.moka_history.specs.Logs.{entries_of, state_of};
ghost use Rattle.moka_history.specs.declared.note.Note.{Note};
ghost use Rattle.moka_growth.specs.declared.kinds.CallKind.TheVariants.{Insert};
ghost use Rattle.moka_shared.specs.Accesses.{HasCome, InsertedSo, PutsBy, StoredSo, StoresBy};
ghost use Rattle.moka_shared.specs.Hashing.{hash_in, place_in, segment_of};
ghost use Rattle.moka_shared.specs.Changes.{AreMade, Makes, Puts, entry_put};
ghost use Rattle.moka_shared.specs.Inserts.{Answers, Inserts, IsPresentSo, StandsSo};
ghost use Rattle.moka_shared.specs.Meeting.{HasNode, IsShown};
ghost use Rattle.moka_shared.specs.Tables.{names_of};
ghost use Rattle.moka_shared.specs.Probing.{EndsAt, GoesOn, IsLogOf, ReadsAt};

use crate::Fact;
use crate::answers::{Missed, Put, TryInsert};
use crate::book::Law;
use crate::node::Node;
use crate::probe::Ended;
use crate::put::Gap;
use crate::seat::Seat;
use crate::standing::Standing;
use crate::table::HashMap;
use crate::words::stored_in;
use moka_history::Note;
use moka_shelf::Shelf;
use moka_values::Exact;
use moka_words::Word;
use std::hash::{BuildHasher, Hash};

impl<
    K: Eq + Hash + Exact + Drop,
    V: Exact + Drop,
    S: BuildHasher + Drop,
    P: Fact<K, V>,
    L: Shelf<Node<K, V, S, P>>,
> HashMap<K, V, S, P, L> {
    /// Puts the pair where its key is absent, by one pass. A pair that isn't put comes back.
    pub fn try_insert_if_not_present(
        &self,
        seat: &mut Seat<K, V, S, L::Look>,
        key: K,
        hash: u64,
        value: V,
    ) -> TryInsert<K, V>
        requires seat { seat.old.front.book ≡ self.now.book }
        requires hash { hash ≡ hash_in S.BuildHasher S.Hasher.Hasher K.hash_input
            self.now.hasher key }
        requires fact { P.holds key value }
        ensures seat { seat.new.front.book ≡ self.now.book }
        ensures history { IsPrefix seat.old.front.log seat.new.front.log }
        ensures legal { IsLegal K.eq (entries_of seat.new.front.log) }
        ensures made { AreMade seat.old.mine.numbers (entries_of seat.old.front.log)
            → AreMade seat.new.mine.numbers (entries_of seat.new.front.log) }
        ensures fact { IsPresentSo (P.holds key) result }
        ensures accesses { HasCome K.eq (hash_in S.BuildHasher S.Hasher.Hasher K.hash_input)
            (place_in S.BuildHasher S.Hasher.Hasher K.hash_input) self.now key Insert hash
            seat.old.front.log seat.new.front.log (InsertedSo self.now.size
            (place_in S.BuildHasher S.Hasher.Hasher K.hash_input self.now.hasher
            self.now.segments key) result) }
        ensures answers { Answers K.eq (place_in S.BuildHasher S.Hasher.Hasher K.hash_input)
            (hiding L.hidden L.last) self.now hash key value seat.old seat.new result }
    {
        match self.insert_once(seat, &key, hash, &value) {
            Put::Done => TryInsert::Inserted,
            Put::There(found) => TryInsert::Present { found, key, value },
            Put::Missed(missed) => TryInsert::Again { missed, key, value },
            Put::Memory => TryInsert::Memory { key, value },
        }
    }

    // Puts the pair where its key is absent, by one pass.
    fn insert_once(
        &self,
        seat: &mut Seat<K, V, S, L::Look>,
        key: &K,
        hash: u64,
        value: &V,
    ) -> Put<V>
        requires seat { seat.old.front.book ≡ self.now.book }
        requires hash { hash ≡ hash_in S.BuildHasher S.Hasher.Hasher K.hash_input
            self.now.hasher key.now }
        requires fact { P.holds key.now value.now }
        ensures seat { seat.new.front.book ≡ self.now.book }
        ensures history { IsPrefix seat.old.front.log seat.new.front.log }
        ensures legal { IsLegal K.eq (entries_of seat.new.front.log) }
        ensures made { AreMade seat.old.mine.numbers (entries_of seat.old.front.log)
            → AreMade seat.new.mine.numbers (entries_of seat.new.front.log) }
        ensures fact { StandsSo (P.holds key.now) result }
        ensures accesses { HasCome K.eq (hash_in S.BuildHasher S.Hasher.Hasher K.hash_input)
            (place_in S.BuildHasher S.Hasher.Hasher K.hash_input) self.now key.now Insert hash
            seat.old.front.log seat.new.front.log (StoredSo self.now.size
            (place_in S.BuildHasher S.Hasher.Hasher K.hash_input self.now.hasher
            self.now.segments key.now) result) }
        ensures puts { Inserts K.eq (place_in S.BuildHasher S.Hasher.Hasher K.hash_input)
            (hiding L.hidden L.last) self.now
            hash key.now value.now seat.old seat.new result }
    {
        seat.front.learn(&self.start);
        let mut eq = |other: &K| *key == *other;
        self.insert(seat, key, hash, value, &mut eq)
    }

    // Seeks the key, and puts the pair where it ended.
    fn insert<F: FnMut(&K) -> bool>(
        &self,
        seat: &mut Seat<K, V, S, L::Look>,
        key: &K,
        hash: u64,
        value: &V,
        eq: &mut F,
    ) -> Put<V>
        requires seat { seat.old.front.book ≡ self.now.book }
        requires log { IsLogOf K.eq (hash_in S.BuildHasher S.Hasher.Hasher K.hash_input)
            (place_in S.BuildHasher S.Hasher.Hasher K.hash_input) self.now seat.old.front.log }
        requires hash { hash ≡ hash_in S.BuildHasher S.Hasher.Hasher K.hash_input
            self.now.hasher key.now }
        requires fact { P.holds key.now value.now }
        requires callable { F.IsAlwaysCallable eq.old }
        requires computes { ComputesKey F.FnMut (K.eq key.now) eq.old }
        ensures book { seat.new.front.book ≡ seat.old.front.book }
        ensures goes_on { GoesOn K.eq (hash_in S.BuildHasher S.Hasher.Hasher K.hash_input)
            (place_in S.BuildHasher S.Hasher.Hasher K.hash_input) self.now
            seat.old.front.log seat.new.front.log }
        ensures fact { StandsSo (P.holds key.now) result }
        ensures accesses { HasCome K.eq (hash_in S.BuildHasher S.Hasher.Hasher K.hash_input)
            (place_in S.BuildHasher S.Hasher.Hasher K.hash_input) self.now key.now Insert hash
            seat.old.front.log seat.new.front.log (StoredSo self.now.size
            (place_in S.BuildHasher S.Hasher.Hasher K.hash_input self.now.hasher
            self.now.segments key.now) result) }
        ensures puts { Inserts K.eq (place_in S.BuildHasher S.Hasher.Hasher K.hash_input)
            (hiding L.hidden L.last) self.now
            hash key.now value.now seat.old seat.new result }
    {
        let ended = self.seek(&mut seat.front, &mut seat.hidden, hash, eq);
        match ended {
            Ended::At { passed, word, node } => self.insert_at(
                seat,
                key,
                value,
                &Gap { hash, passed, word },
                node,
            ),
            Ended::Full => Put::Missed(Missed::NoFree { length: self.size }),
            Ended::Hidden(number) => Put::Missed(Missed::NodeHidden(number)),
            Ended::Sealed { passed, word } => Put::Missed(self.sealed(
                &seat.front,
                hash,
                passed,
                word,
            )),
        }
    }

    // Where the probe ended at a word: a live one is answered by its value, another is exchanged.
    fn insert_at(
        &self,
        seat: &mut Seat<K, V, S, L::Look>,
        key: &K,
        value: &V,
        gap: &Gap,
        node: Option<&Node<K, V, S, P>>,
    ) -> Put<V>
        requires seat { seat.old.front.book ≡ self.now.book }
        requires log { IsLogOf K.eq (hash_in S.BuildHasher S.Hasher.Hasher K.hash_input)
            (place_in S.BuildHasher S.Hasher.Hasher K.hash_input) self.now seat.old.front.log }
        requires hash { gap.now.hash ≡ hash_in S.BuildHasher S.Hasher.Hasher K.hash_input
            self.now.hasher key.now }
        requires below { segment_of self.now.segments gap.now.hash < self.now.segments }
        requires ends { EndsAt K.eq (place_in S.BuildHasher S.Hasher.Hasher K.hash_input)
            self.now key.now gap.now.hash seat.old.front.log gap.now.passed gap.now.word }
        requires node { HasNode (names_of self.now.book) gap.now.word node }
        requires fact { P.holds key.now value.now }
        ensures book { seat.new.front.book ≡ seat.old.front.book }
        ensures goes_on { GoesOn K.eq (hash_in S.BuildHasher S.Hasher.Hasher K.hash_input)
            (place_in S.BuildHasher S.Hasher.Hasher K.hash_input) self.now
            seat.old.front.log seat.new.front.log }
        ensures fact { StandsSo (P.holds key.now) result }
        ensures exchange { StoresBy self.now gap.now.hash gap.now.passed gap.now.word
            seat.old.front.log seat.new.front.log result }
        ensures puts { Inserts K.eq (place_in S.BuildHasher S.Hasher.Hasher K.hash_input)
            (hiding L.hidden L.last) self.now
            gap.now.hash key.now value.now seat.old seat.new result }
    {
        match stored_in(gap.word) {
            Some(number) => self.present(seat, key, gap, number, node),
            None => self.put(seat, key, value, gap),
        }
    }

    // Answers the value of this node, under which the key stands already.
    fn present(
        &self,
        seat: &Seat<K, V, S, L::Look>,
        key: &K,
        gap: &Gap,
        number: u64,
        node: Option<&Node<K, V, S, P>>,
    ) -> Put<V>
        requires seat { seat.now.front.book ≡ self.now.book }
        requires log { IsLogOf K.eq (hash_in S.BuildHasher S.Hasher.Hasher K.hash_input)
            (place_in S.BuildHasher S.Hasher.Hasher K.hash_input) self.now seat.now.front.log }
        requires hash { gap.now.hash ≡ hash_in S.BuildHasher S.Hasher.Hasher K.hash_input
            self.now.hasher key.now }
        requires below { segment_of self.now.segments gap.now.hash < self.now.segments }
        requires ends { EndsAt K.eq (place_in S.BuildHasher S.Hasher.Hasher K.hash_input)
            self.now key.now gap.now.hash seat.now.front.log gap.now.passed gap.now.word }
        requires stored { stored_in gap.now.word ≡ Some number }
        requires node { IsShown (names_of self.now.book) number node }
        ensures fact { StandsSo (P.holds key.now) result }
        ensures exchange { StoresBy self.now gap.now.hash gap.now.passed gap.now.word
            seat.now.front.log seat.now.front.log result }
        ensures puts { (value : V) → Inserts K.eq
            (place_in S.BuildHasher S.Hasher.Hasher K.hash_input) (hiding L.hidden L.last)
            self.now gap.now.hash key.now value seat.now seat.now result }
    {
        match self.standing(&seat.front, key, gap, number, node) {
            Standing::Here(found) => Put::There(found),
            Standing::Memory => Put::Memory,
        }
    }

    // Clones the pair, draws a ticket, and puts the pair on it, in place of what stands there.
    pub(crate) fn put(
        &self,
        seat: &mut Seat<K, V, S, L::Look>,
        key: &K,
        value: &V,
        gap: &Gap,
    ) -> Put<V>
        requires seat { seat.old.front.book ≡ self.now.book }
        requires log { IsLogOf K.eq (hash_in S.BuildHasher S.Hasher.Hasher K.hash_input)
            (place_in S.BuildHasher S.Hasher.Hasher K.hash_input) self.now seat.old.front.log }
        requires hash { gap.now.hash ≡ hash_in S.BuildHasher S.Hasher.Hasher K.hash_input
            self.now.hasher key.now }
        requires below { segment_of self.now.segments gap.now.hash < self.now.segments }
        requires ends { EndsAt K.eq (place_in S.BuildHasher S.Hasher.Hasher K.hash_input)
            self.now key.now gap.now.hash seat.old.front.log gap.now.passed gap.now.word }
        requires fact { P.holds key.now value.now }
        ensures book { seat.new.front.book ≡ seat.old.front.book }
        ensures goes_on { GoesOn K.eq (hash_in S.BuildHasher S.Hasher.Hasher K.hash_input)
            (place_in S.BuildHasher S.Hasher.Hasher K.hash_input) self.now
            seat.old.front.log seat.new.front.log }
        ensures exchange { PutsBy self.now gap.now.hash gap.now.passed gap.now.word
            seat.old.front.log seat.new.front.log result }
        ensures puts { Puts K.eq (place_in S.BuildHasher S.Hasher.Hasher K.hash_input)
            (hiding L.hidden L.last) self.now
            gap.now.hash seat.old seat.new
            (Makes seat.old seat.new (λ n. entry_put n key.now value.now
            (pair_at (state_of seat.old.front.log).pairs (stored_in gap.now.word)))) (λ found. ⊥)
            result }
    {
        let Ok(own_key) = key.clone() else {
            return Put::Memory;
        };
        let Ok(own_value) = value.clone() else {
            return Put::Memory;
        };
        match self.draw_for(&mut seat.front, &mut seat.drawn, Some((key, value))) {
            Ok(drawn) => self.put_on(seat, own_key, own_value, gap, drawn),
            Err(missed) => Put::Missed(missed),
        }
    }
}
