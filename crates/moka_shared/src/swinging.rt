//! The last step of a table that grows: the array that was linked after a segment's first one becomes its
//! root, once each of its words is set.
ghost use Rattle.std.specs.Prelude.{◌≡◌, ◌<◌, length, IfErr, OnOk};
ghost use mathlib.Core.List.{IsPrefix};
ghost use Rattle.moka_history.specs.Entries.{IsLegal};
ghost use Rattle.moka_history.specs.Logs.{entries_of, state_of};
ghost use Rattle.moka_history.specs.States.{words_in};
ghost use Rattle.moka_words.specs.Words.{word_at};
ghost use Rattle.moka_words.specs.declared.words.Word.TheVariants.{Unset};
ghost use Rattle.moka_shared.specs.Changes.{AreMade};
ghost use Rattle.moka_shared.specs.Hashing.{hash_in, place_in};
ghost use Rattle.moka_shared.specs.Links.{Follows, keys_in};
ghost use Rattle.moka_shared.specs.Probing.{GoesOn, IsLogOf};
ghost use Rattle.moka_shared.specs.Rows.{AreRow};
ghost use Rattle.moka_shared.specs.Swings.{AreSet, SwingsSo, WantsSwing};

use crate::Fact;
use crate::answers::TrySwing;
use crate::asked::Swinging;
use crate::book::Law;
use crate::front::look;
use crate::node::Node;
use crate::row::Row;
use crate::seat::Seat;
use crate::segments::first_array;
use crate::swings::swing;
use crate::table::HashMap;
use logbook::Seen;
use moka_history::Note;
use moka_shelf::Shelf;
use std::hash::{BuildHasher, Hash};

/// By this number a cell holds an unset word.
const UNSET: u64 = 1;

impl<K: Eq + Hash, V, S: BuildHasher, P: Fact<K, V>, L: Shelf<Node<K, V, S, P>>> HashMap<
    K,
    V,
    S,
    P,
    L,
> {
    /// Makes the array that was linked of the row the root of its segment, by one exchange of the word for
    /// the root. First it loads each word of that array. `Unset` comes where one isn't set yet, and
    /// `There` where the root is another array than the segment's first one by now.
    pub fn try_swing(
        &self,
        seat: &mut Seat<K, V, S, L::Look>,
        segment: usize,
        row: &Row<K, V, S>,
    ) -> TrySwing
        requires seat { seat.old.front.book ≡ self.now.book }
        requires segment { segment < self.now.segments }
        requires row { AreRow self.now.book row.now.ticket row.now.words.items
            seat.old.front.log }
        requires follows { Follows segment row.now.ticket (keys_in row.now.words.items)
            seat.old.front.log }
        ensures seat { seat.new.front.book ≡ self.now.book }
        ensures mine { (seat.new.mine ≡ seat.old.mine) × (seat.new.drawn ≡ seat.old.drawn) }
        ensures hidden { seat.new.hidden ≡ seat.old.hidden }
        ensures history { IsPrefix seat.old.front.log seat.new.front.log }
        ensures legal { IsLegal K.eq (entries_of seat.new.front.log) }
        ensures made { AreMade seat.old.mine.numbers (entries_of seat.old.front.log)
            → AreMade seat.new.mine.numbers (entries_of seat.new.front.log) }
        ensures row { AreRow self.now.book row.now.ticket row.now.words.items
            seat.new.front.log }
        ensures follows { Follows segment row.now.ticket (keys_in row.now.words.items)
            seat.new.front.log }
        ensures swings { SwingsSo K.eq (hash_in S.BuildHasher S.Hasher.Hasher K.hash_input)
            (place_in S.BuildHasher S.Hasher.Hasher K.hash_input) self.now segment
            seat.old.front.log seat.new.front.log row.now.ticket result }
    {
        seat.front.learn(&self.start);
        match self.first_unset(&mut seat.front, segment, row) {
            Ok(()) => self.swing_to(&mut seat.front, segment, row.ticket),
            Err(index) => TrySwing::Unset(index),
        }
    }

    // Loads each word of the row's array. Answers the first one that isn't set.
    fn first_unset(
        &self,
        front: &mut Seen<Note<K, V, S>, u64, Law>,
        segment: usize,
        row: &Row<K, V, S>,
    ) -> Result<(), usize>
        requires book { front.old.book ≡ self.now.book }
        requires log { IsLogOf K.eq (hash_in S.BuildHasher S.Hasher.Hasher K.hash_input)
            (place_in S.BuildHasher S.Hasher.Hasher K.hash_input) self.now front.old.log }
        requires segment { segment < self.now.segments }
        requires row { AreRow self.now.book row.now.ticket row.now.words.items front.old.log }
        requires follows { Follows segment row.now.ticket (keys_in row.now.words.items)
            front.old.log }
        ensures book { front.new.book ≡ front.old.book }
        ensures goes_on { GoesOn K.eq (hash_in S.BuildHasher S.Hasher.Hasher K.hash_input)
            (place_in S.BuildHasher S.Hasher.Hasher K.hash_input) self.now
            front.old.log front.new.log }
        ensures follows { Follows segment row.now.ticket (keys_in row.now.words.items)
            front.new.log }
        ensures set { OnOk result (AreSet row.now.ticket (length row.now.words.items)
            front.new.log) }
        ensures unset { IfErr result (λ index. word_at
            (words_in (state_of front.new.log) row.now.ticket) index ≡ Unset) }
    {
        let _segment = segment;
        let count = row.len();
        let mut index = 0;
        while index < count {
            let number = look(front, &row.words[index]);
            if number == UNSET {
                return Err(index);
            }
            index += 1;
        }
        Ok(())
    }

    // Makes the array the segment's root, each word of which was seen set.
    fn swing_to(
        &self,
        front: &mut Seen<Note<K, V, S>, u64, Law>,
        segment: usize,
        array: u64,
    ) -> TrySwing
        requires book { front.old.book ≡ self.now.book }
        requires log { IsLogOf K.eq (hash_in S.BuildHasher S.Hasher.Hasher K.hash_input)
            (place_in S.BuildHasher S.Hasher.Hasher K.hash_input) self.now front.old.log }
        requires segment { segment < self.now.segments }
        requires wanted { WantsSwing K.eq (hash_in S.BuildHasher S.Hasher.Hasher K.hash_input)
            (place_in S.BuildHasher S.Hasher.Hasher K.hash_input) self.now.hasher
            self.now.segments segment array front.old.log }
        ensures book { front.new.book ≡ front.old.book }
        ensures goes_on { GoesOn K.eq (hash_in S.BuildHasher S.Hasher.Hasher K.hash_input)
            (place_in S.BuildHasher S.Hasher.Hasher K.hash_input) self.now
            front.old.log front.new.log }
        ensures swings { SwingsSo K.eq (hash_in S.BuildHasher S.Hasher.Hasher K.hash_input)
            (place_in S.BuildHasher S.Hasher.Hasher K.hash_input) self.now segment
            front.old.log front.new.log array result }
    {
        let root = self.root(segment);
        let asked = Swinging {
            segment,
            from: first_array(self.segments, segment),
            to: array,
        };
        match swing(front, root, &asked) {
            Ok(()) => TrySwing::Swung,
            Err(other) => TrySwing::There(other),
        }
    }
}
