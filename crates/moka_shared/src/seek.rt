//! Probes.
ghost use Rattle.std.specs.Prelude.{◌≡◌, ◌<◌, Bool, length};
ghost use Rattle.std.specs.Fn.{ComputesKey};
ghost use Rattle.moka_shelf.specs.Looks.{hiding};
ghost use Rattle.moka_growth.specs.declared.kinds.CallKind.{CallKind};
ghost use Rattle.moka_history.specs.Logs.{state_of};
ghost use Rattle.moka_shared.specs.Accesses.{EndsSo, HasCome, HasKey};
ghost use Rattle.moka_shared.specs.Hashing.{hash_in, place_in};
ghost use Rattle.moka_shared.specs.Meeting.{Meets, Shows, Stops, Tests};
ghost use Rattle.moka_shared.specs.Probing.{Ends, GoesOn, IsLogOf, StopsAt};
ghost use Rattle.moka_shared.specs.Tables.{names_of};

use crate::Fact;
use crate::book::Law;
use crate::node::Node;
use crate::probe::{Ended, Met};
use crate::table::HashMap;
use logbook::Seen;
use moka_history::Note;
use moka_shelf::Shelf;
use moka_words::Word;
use std::hash::{BuildHasher, Hash};

fn is_true<K, F: FnMut(&K) -> bool>(key: &K, eq: &mut F) -> bool
    requires { F.IsAlwaysCallable eq.old }
    ensures callable { F.IsAlwaysCallable eq.new }
    ensures own { (h : K → Bool) → ComputesKey F.FnMut h eq.old
        → ComputesKey F.FnMut h eq.new × (result ≡ h key.now) }
{
    eq(key)
}

impl<K: Eq + Hash, V, S: BuildHasher, P: Fact<K, V>, L: Shelf<Node<K, V, S, P>>> HashMap<
    K,
    V,
    S,
    P,
    L,
> {
    /// Probes the segment of the hash for the key that the test is true of: until it meets a bucket
    /// that is free, or the key's. The front becomes the log at the last load.
    pub(crate) fn seek<'a, F: FnMut(&K) -> bool>(
        &'a self,
        front: &mut Seen<Note<K, V, S>, u64, Law>,
        hidden: &mut L::Look,
        hash: u64,
        eq: &mut F,
    ) -> Ended<'a, Node<K, V, S, P>>
        requires callable { F.IsAlwaysCallable eq.old }
        requires book { front.old.book ≡ self.now.book }
        requires log { IsLogOf K.eq (hash_in S.BuildHasher S.Hasher.Hasher K.hash_input)
            (place_in S.BuildHasher S.Hasher.Hasher K.hash_input) self.now front.old.log }
        ensures book { front.new.book ≡ front.old.book }
        ensures goes_on { GoesOn K.eq (hash_in S.BuildHasher S.Hasher.Hasher K.hash_input)
            (place_in S.BuildHasher S.Hasher.Hasher K.hash_input) self.now
            front.old.log front.new.log }
        ensures ends { (key : K) → ComputesKey F.FnMut (K.eq key) eq.old
            → hash ≡ hash_in S.BuildHasher S.Hasher.Hasher K.hash_input self.now.hasher key
            → Ends K.eq (place_in S.BuildHasher S.Hasher.Hasher K.hash_input) self.now key hash
            front.new.log result }
        ensures course { (key : K) (kind : CallKind) → HasKey kind
            → ComputesKey F.FnMut (K.eq key) eq.old
            → hash ≡ hash_in S.BuildHasher S.Hasher.Hasher K.hash_input self.now.hasher key
            → HasCome K.eq (hash_in S.BuildHasher S.Hasher.Hasher K.hash_input)
            (place_in S.BuildHasher S.Hasher.Hasher K.hash_input) self.now key kind hash
            front.old.log front.new.log (EndsSo self.now.size
            (place_in S.BuildHasher S.Hasher.Hasher K.hash_input self.now.hasher
            self.now.segments key) kind hash result) }
        ensures stops { StopsAt self.now hash front.new.log (hiding L.hidden L.last hidden.old)
            (hiding L.hidden L.last hidden.new) result }
    {
        for passed in 0..self.size {
            let place = self.place_of(hash, passed);
            let word = self.load(front, place.segment, place.index);
            let met = self.meets(front, hidden, word, eq);
            match met {
                Met::Other => {}
                Met::Open(node) => return Ended::At { passed, word, node },
                Met::Hidden(number) => return Ended::Hidden(number),
                Met::Sealed => return Ended::Sealed { passed, word },
            }
        }
        Ended::Full
    }

    // What a probe for the key that the test is true of meets in this word.
    fn meets<'a, F: FnMut(&K) -> bool>(
        &'a self,
        front: &Seen<Note<K, V, S>, u64, Law>,
        hidden: &mut L::Look,
        word: Word,
        eq: &mut F,
    ) -> Met<'a, Node<K, V, S, P>>
        requires callable { F.IsAlwaysCallable eq.old }
        requires book { front.now.book ≡ self.now.book }
        requires some { 0 < length front.now.log }
        ensures callable { F.IsAlwaysCallable eq.new }
        ensures meets { (h : K → Bool) → ComputesKey F.FnMut h eq.old
            → ComputesKey F.FnMut h eq.new
            × Meets h (state_of front.now.log).pairs word result }
        ensures stops { Stops (names_of self.now.book) word (hiding L.hidden L.last hidden.old)
            (hiding L.hidden L.last hidden.new) result }
    {
        match word {
            Word::Empty => Met::Open(None),
            Word::Live(number) => self.tests(front, hidden, number, eq),
            Word::Tomb(number) => self.tests(front, hidden, number, eq),
            _ => Met::Sealed,
        }
    }

    // What the test says of the key of this node.
    #[inline(always)]
    fn tests<'a, F: FnMut(&K) -> bool>(
        &'a self,
        front: &Seen<Note<K, V, S>, u64, Law>,
        hidden: &mut L::Look,
        number: u64,
        eq: &mut F,
    ) -> Met<'a, Node<K, V, S, P>>
        requires callable { F.IsAlwaysCallable eq.old }
        requires book { front.now.book ≡ self.now.book }
        requires some { 0 < length front.now.log }
        ensures callable { F.IsAlwaysCallable eq.new }
        ensures tests { (h : K → Bool) → ComputesKey F.FnMut h eq.old
            → ComputesKey F.FnMut h eq.new
            × Tests h (state_of front.now.log).pairs number result }
        ensures shows { Shows (names_of self.now.book) number (hiding L.hidden L.last hidden.old)
            (hiding L.hidden L.last hidden.new) result }
    {
        match self.shelf.shown(hidden, number) {
            None => Met::Hidden(number),
            Some(node) => {
                node.is_named(front);
                if is_true(node.key(), eq) {
                    return Met::Open(Some(node));
                }
                Met::Other
            }
        }
    }
}
