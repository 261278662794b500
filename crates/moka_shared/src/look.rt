//! Looks for a key.
ghost use Rattle.std.specs.Prelude.{◌≡◌, ◌<◌, ◌+◌, Bool, Some, IfOk, length};
ghost use mathlib.Core.List.{IsPrefix};
ghost use Rattle.moka_words.specs.Arrays.{bucket_at};
ghost use Rattle.moka_words.specs.Words.{stored_in};
ghost use Rattle.moka_shelf.specs.Looks.{Hiding, hiding};
ghost use Rattle.moka_pairs.specs.Pairs.{pair_at};
ghost use Rattle.moka_history.specs.Entries.{IsLegal, map_after};
ghost use Rattle.moka_history.specs.Logs.{entries_of, state_of};
ghost use Rattle.moka_growth.specs.Calls.{Step};
ghost use Rattle.moka_growth.specs.declared.kinds.CallKind.TheVariants.{Get};
ghost use Rattle.moka_shared.specs.Accesses.{EndsSo, FoundSo, HasCome};
ghost use Rattle.moka_shared.specs.Hashing.{hash_in, place_in, segment_of};
ghost use Rattle.moka_shared.specs.Changes.{AreMade};
ghost use Rattle.moka_shared.specs.Looks.{Asks, Finds, HasCause, IsFound, IsSealedIn, IsSo};
ghost use Rattle.moka_shared.specs.Meeting.{HasNode, IsShown, IsShut};
ghost use Rattle.moka_shared.specs.Tables.{names_of};
ghost use Rattle.moka_shared.specs.Probing.{Ends, IsLogOf, ReadsAt, StopsAt};
ghost use Rattle.moka_shared.specs.declared.answers.Missed.TheVariants.{Sealed};
ghost use Rattle.moka_shared.specs.declared.answers.TryGet.TheVariants.{Found};

use crate::Fact;
use crate::answers::{Missed, TryGet};
use crate::book::Law;
use crate::node::Node;
use crate::probe::Ended;
use crate::seat::Seat;
use crate::segments::{bucket_at, segment_of};
use crate::table::HashMap;
use crate::words::stored_in;
use logbook::Seen;
use moka_history::Note;
use moka_shelf::Shelf;
use moka_values::Exact;
use moka_words::Word;
use std::alloc::AllocError;
use std::hash::{BuildHasher, Hash};

// A copy of the value, as a look answers it.
fn found_in<V: Exact>(value: &V) -> Result<TryGet<V>, AllocError>
    ensures { IfOk result (λ got. got ≡ Found (Some value.now)) }
{
    Ok(TryGet::Found(Some(value.clone()?)))
}

impl<K: Eq + Hash, V, S: BuildHasher, P: Fact<K, V>, L: Shelf<Node<K, V, S, P>>> HashMap<
    K,
    V,
    S,
    P,
    L,
> {
    /// A copy of the value under the key that the test is true of, whose hash this is, by one pass.
    /// An error comes where the copy finds no memory.
    pub fn try_get<F: FnMut(&K) -> bool>(
        &self,
        seat: &mut Seat<K, V, S, L::Look>,
        hash: u64,
        mut eq: F,
    ) -> Result<TryGet<V>, AllocError>
    where
        V: Exact,
        requires seat { seat.old.front.book ≡ self.now.book }
        requires callable { F.IsAlwaysCallable eq }
        ensures seat { seat.new.front.book ≡ self.now.book }
        ensures mine { seat.new.mine ≡ seat.old.mine }
        ensures drawn { seat.new.drawn ≡ seat.old.drawn }
        ensures history { IsPrefix seat.old.front.log seat.new.front.log }
        ensures legal { IsLegal K.eq (entries_of seat.new.front.log) }
        ensures made { AreMade seat.old.mine.numbers (entries_of seat.old.front.log)
            → AreMade seat.new.mine.numbers (entries_of seat.new.front.log) }
        ensures found { IfOk result (λ got. (q : K)
            → Asks F.FnMut K.eq (hash_in S.BuildHasher S.Hasher.Hasher K.hash_input
            self.now.hasher) hash eq q
            → Finds (map_after K.eq (entries_of seat.new.front.log) q) got) }
        ensures fact { IfOk result (λ got. (q : K)
            → Asks F.FnMut K.eq (hash_in S.BuildHasher S.Hasher.Hasher K.hash_input
            self.now.hasher) hash eq q → IsSo (P.holds q) got) }
        ensures accesses { IfOk result (λ got. (q : K)
            → Asks F.FnMut K.eq (hash_in S.BuildHasher S.Hasher.Hasher K.hash_input
            self.now.hasher) hash eq q
            → HasCome K.eq (hash_in S.BuildHasher S.Hasher.Hasher K.hash_input)
            (place_in S.BuildHasher S.Hasher.Hasher K.hash_input) self.now q Get hash
            seat.old.front.log seat.new.front.log
            (FoundSo (state_of seat.new.front.log).pairs got)) }
        ensures again { IfOk result (HasCause self.now hash seat.new.front.log
            (hiding L.hidden L.last seat.old.hidden)
            (hiding L.hidden L.last seat.new.hidden)) }
    {
        seat.front.learn(&self.start);
        let ended = self.seek(&mut seat.front, &mut seat.hidden, hash, &mut eq);
        self.answer(&seat.front, hash, ended)
    }

    // What a look answers whose probe ended there.
    fn answer(
        &self,
        front: &Seen<Note<K, V, S>, u64, Law>,
        hash: u64,
        ended: Ended<'_, Node<K, V, S, P>>,
    ) -> Result<TryGet<V>, AllocError>
    where
        V: Exact,
        requires book { front.now.book ≡ self.now.book }
        requires log { IsLogOf K.eq (hash_in S.BuildHasher S.Hasher.Hasher K.hash_input)
            (place_in S.BuildHasher S.Hasher.Hasher K.hash_input) self.now front.now.log }
        requires stops { (before : Hiding) × (hidden : Hiding)
            × StopsAt self.now hash front.now.log before hidden ended }
        ensures found { IfOk result (λ got. (q : K)
            → hash ≡ hash_in S.BuildHasher S.Hasher.Hasher K.hash_input self.now.hasher q
            → Ends K.eq (place_in S.BuildHasher S.Hasher.Hasher K.hash_input) self.now q hash
            front.now.log ended.entry → Finds (map_after K.eq (entries_of front.now.log) q) got) }
        ensures fact { IfOk result (λ got. (q : K)
            → hash ≡ hash_in S.BuildHasher S.Hasher.Hasher K.hash_input self.now.hasher q
            → Ends K.eq (place_in S.BuildHasher S.Hasher.Hasher K.hash_input) self.now q hash
            front.now.log ended.entry → IsSo (P.holds q) got) }
        ensures course { IfOk result (λ got. (q : K) (step : Step)
            → hash ≡ hash_in S.BuildHasher S.Hasher.Hasher K.hash_input self.now.hasher q
            → Ends K.eq (place_in S.BuildHasher S.Hasher.Hasher K.hash_input) self.now q hash
            front.now.log ended.entry
            → EndsSo self.now.size (place_in S.BuildHasher S.Hasher.Hasher K.hash_input
            self.now.hasher self.now.segments q) Get hash ended.entry step
            → FoundSo (state_of front.now.log).pairs got step) }
        ensures again { IfOk result (λ got. (before hidden : Hiding)
            → StopsAt self.now hash front.now.log before hidden ended.entry
            → HasCause self.now hash front.now.log before hidden got) }
    {
        match ended {
            Ended::At { passed, word, node } => self.copied(front, hash, passed, word, node),
            Ended::Full => Ok(TryGet::Found(None)),
            Ended::Hidden(number) => Ok(TryGet::Again(Missed::NodeHidden(number))),
            Ended::Sealed { passed, word } => Ok(TryGet::Again(self.sealed(
                front, hash, passed, word,
            ))),
        }
    }

    // A copy of the value that is stored in the word, which was read past so many others.
    fn copied(
        &self,
        front: &Seen<Note<K, V, S>, u64, Law>,
        hash: u64,
        passed: usize,
        word: Word,
        node: Option<&Node<K, V, S, P>>,
    ) -> Result<TryGet<V>, AllocError>
    where
        V: Exact,
        requires book { front.now.book ≡ self.now.book }
        requires log { IsLogOf K.eq (hash_in S.BuildHasher S.Hasher.Hasher K.hash_input)
            (place_in S.BuildHasher S.Hasher.Hasher K.hash_input) self.now front.now.log }
        requires read { ReadsAt self.now hash passed word front.now.log }
        requires node { HasNode (names_of self.now.book) word node }
        ensures found { IfOk result (Finds
            (pair_at (state_of front.now.log).pairs (stored_in word))) }
        ensures fact { IfOk result (λ got. (p : K × V)
            → pair_at (state_of front.now.log).pairs (stored_in word) ≡ Some p
            → IsSo (P.holds p.0) got) }
        ensures ends { IfOk result IsFound }
    {
        let _hash = hash;
        let _passed = passed;
        match stored_in(word) {
            None => Ok(TryGet::Found(None)),
            Some(number) => self.copied_from(front, number, node),
        }
    }

    // A copy of the value of this node, which was shown under the number.
    fn copied_from(
        &self,
        front: &Seen<Note<K, V, S>, u64, Law>,
        number: u64,
        node: Option<&Node<K, V, S, P>>,
    ) -> Result<TryGet<V>, AllocError>
    where
        V: Exact,
        requires book { front.now.book ≡ self.now.book }
        requires some { 0 < length front.now.log }
        requires node { IsShown (names_of self.now.book) number node }
        requires named { (p : K × V) × ((state_of front.now.log).pairs number ≡ Some p) }
        ensures found { IfOk result (Finds ((state_of front.now.log).pairs number)) }
        ensures fact { IfOk result (λ got. (p : K × V)
            → (state_of front.now.log).pairs number ≡ Some p → IsSo (P.holds p.0) got) }
        ensures ends { IfOk result IsFound }
    {
        let _number = number;
        match node {
            Some(node) => {
                node.is_named(front);
                found_in(node.value())
            }
            None => unreachable!(),
        }
    }

    // A word that is sealed, and was read under the hash, past so many others. One that nobody has set
    // stands in no array so far.
    pub(crate) fn sealed(
        &self,
        front: &Seen<Note<K, V, S>, u64, Law>,
        hash: u64,
        passed: usize,
        word: Word,
    ) -> Missed
        requires log { IsLogOf K.eq (hash_in S.BuildHasher S.Hasher.Hasher K.hash_input)
            (place_in S.BuildHasher S.Hasher.Hasher K.hash_input) self.now front.now.log }
        requires reads { ReadsAt self.now hash passed word front.now.log }
        requires shut { IsShut word }
        ensures is { result ≡ Sealed word (segment_of self.now.segments hash + 1)
            (bucket_at self.now.size hash passed) }
        ensures stands { IsSealedIn word (segment_of self.now.segments hash + 1)
            (bucket_at self.now.size hash passed) front.now.log }
    {
        let _front = front;
        Missed::Sealed {
            word,
            array: segment_of(self.segments, hash) as u64 + 1,
            index: bucket_at(self.size, hash, passed),
        }
    }
}
