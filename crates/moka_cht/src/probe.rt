//! The course of a call through the buckets of one array.
//!
//! A probe names its next access and takes what was seen. It touches no word and takes no memory,
//! so that it serves an array of one owner as well as one that others change meanwhile.

ghost use Rattle.std.specs.Prelude.{◌≡◌, ℕ, ◌+◌, ◌<◌, ◌≤◌, ◌^◌, Bool, List, length, Option, Some, None};
ghost use Rattle.std.specs.Option.{option_map_or};
ghost use Rattle.std.specs.Int.{IsPowerOfTwo};
ghost use Rattle.moka_cht.specs.declared.probe.Place.{Place};
ghost use Rattle.moka_words.specs.Words.{node_of, word_at};
ghost use Rattle.moka_words.specs.Later.{HasOther};
ghost use Rattle.moka_words.specs.declared.words.Word.{Word};
ghost use Rattle.moka_cht.specs.Probes.{AfterLoad, Fits, IsOn, IsOwnPlace, EndsAt, MayChoose, PassesAll, Stands, Takes, Tells, access_of, bucket_of, present_of, word_of};

use moka_words::{Access, Choice, Seen, Word};

/// What a call wants to do with its key.
#[derive(Clone, Copy)]
pub enum Aim {
    Get,
    Insert,
    Remove,
}

/// The kind of bucket at which a probe stopped.
#[derive(Clone, Copy)]
pub enum Place {
    /// The bucket has no key.
    Free,
    /// The bucket is the tombstone of the call's key.
    Dead(u64),
    /// The bucket has the call's key, and a stored pair.
    Stored(u64),
}

/// The next access of a probe.
#[derive(Clone, Copy)]
pub enum Point {
    /// The probe loads the bucket's word.
    Load,
    /// The probe asks its caller what to do.
    Choose { at: Place },
    /// The probe exchanges the word for that of the caller's node.
    Put { at: Place, node: u64 },
    /// The probe exchanges the live word for its tombstone.
    Remove { node: u64 },
}

/// A call on its way through the buckets of an array.
#[derive(Clone, Copy)]
pub struct Probe {
    pub aim: Aim,
    pub array: u64,
    pub length: usize,
    pub hash: u64,
    /// How many buckets the probe has passed. Each of them has another key.
    pub passed: usize,
    pub point: Point,
}

/// How a probe ended in this array.
#[derive(Clone, Copy)]
pub enum Ending {
    /// The probe changed nothing, and found this live node of its key, or none.
    Kept { present: Option<u64> },
    /// The probe made its exchange at this place.
    Changed { at: Place },
    /// The probe found neither its key nor a bucket without one.
    NoFree,
    /// The probe met a word that is sealed, or not set yet.
    Closed,
}

/// What an access leads to.
#[derive(Clone, Copy)]
pub enum Step {
    On(Probe),
    Ended(Ending),
}

impl Place {
    /// Answers the word of a bucket of this kind.
    pub fn word(self) -> Word
        ensures { result ≡ word_of self }
    {
        match self {
            Place::Free => Word::Empty,
            Place::Dead(node) => Word::Tomb(node),
            Place::Stored(node) => Word::Live(node),
        }
    }

    /// Answers the live node of the call's key, where the bucket has one.
    pub fn present(self) -> Option<u64>
        ensures { result ≡ present_of self }
    {
        match self {
            Place::Free => None,
            Place::Dead(_) => None,
            Place::Stored(node) => Some(node),
        }
    }
}

impl Probe {
    /// Begins a probe, at the first bucket of its hash.
    pub fn begin(aim: Aim, array: u64, length: usize, hash: u64) -> Probe
        requires power { IsPowerOfTwo length }
        requires small { length ≤ 2 ^ 60 }
        ensures aim { result.aim ≡ aim }
        ensures array { result.array ≡ array }
        ensures length { result.length ≡ length }
        ensures hash { result.hash ≡ hash }
        ensures passed { result.passed ≡ 0 }
        ensures point { result.point ≡ Point.Load }
        ensures on { IsOn result }
    {
        Probe {
            aim,
            array,
            length,
            hash,
            passed: 0,
            point: Point::Load,
        }
    }

    // The bucket that it is at: on from the hash, and round the end.
    fn bucket(&self) -> usize
        requires { IsOn self.now }
        ensures { result ≡ bucket_of self.now }
    {
        let mask = self.length - 1;
        ((self.hash as usize & mask) + self.passed) & mask
    }

    /// Answers the next access of the probe.
    pub fn access(&self) -> Access
        requires { IsOn self.now }
        ensures { result ≡ access_of self.now }
    {
        let array = self.array;
        let index = self.bucket();
        match self.point {
            Point::Load => Access::LoadWord { array, index },
            Point::Choose { at } => Access::Choose {
                present: at.present(),
            },
            Point::Put { at, node } => Access::Exchange {
                array,
                index,
                from: at.word(),
                to: Word::Live(node),
            },
            Point::Remove { node } => Access::Exchange {
                array,
                index,
                from: Word::Live(node),
                to: Word::Tomb(node),
            },
        }
    }

    /// Answers the live node of the probe's key, where the probe asks what to do.
    pub fn present(&self) -> Option<u64>
        ensures { (at : Place) → self.now.point ≡ Point.Choose at → result ≡ present_of at }
    {
        match self.point {
            Point::Choose { at } => at.present(),
            _ => None,
        }
    }

    /// Goes on by what the access saw.
    pub fn take(self, seen: Seen) -> Step
        requires on { IsOn self }
        requires fits { Fits self.aim self.point seen }
        ensures { Takes self self.point seen result }
    {
        match self.point {
            Point::Load => self.take_word(seen),
            Point::Choose { at } => self.take_choice(at, seen),
            Point::Put { at, .. } => self.take_exchange(at, seen),
            Point::Remove { node } => self.take_exchange(Place::Stored(node), seen),
        }
    }

    fn take_word(self, seen: Seen) -> Step
        requires on { IsOn self }
        requires load { self.point ≡ Point.Load }
        requires fits { Fits self.aim Point.Load seen }
        ensures { Takes self Point.Load seen result }
    {
        match seen {
            Seen::Word { word, same, .. } => self.loaded(word, same),
            _ => unreachable!(),
        }
    }

    fn take_choice(self, at: Place, seen: Seen) -> Step
        requires { Fits self.aim (Point.Choose at) seen }
        ensures { Takes self (Point.Choose at) seen result }
    {
        match seen {
            Seen::Chosen(choice) => self.chosen(at, choice),
            _ => unreachable!(),
        }
    }

    fn take_exchange(self, at: Place, seen: Seen) -> Step
        requires { Fits self.aim (Point.Put at 0) seen }
        ensures { (node : ℕ) → Takes self (Point.Put at node) seen result }
    {
        match seen {
            Seen::Exchanged(None) => Step::Ended(Ending::Changed { at }),
            // Another word stands there now: the same bucket is loaded again, so that none is
            // passed unseen.
            Seen::Exchanged(Some(_)) => self.at(Point::Load),
            _ => unreachable!(),
        }
    }

    fn at(self, point: Point) -> Step
        ensures { result ≡ Step.On (record self { point = point }) }
    {
        Step::On(Probe { point, ..self })
    }

    // Its bucket has this word, which names the call's key or another one.
    fn loaded(self, word: Word, same: bool) -> Step
        requires on { IsOn self }
        requires load { self.point ≡ Point.Load }
        ensures { Takes self Point.Load (Seen.Word word 0 same) result }
    {
        match word {
            Word::Empty => self.found(Place::Free),
            Word::Live(node) if same => self.found(Place::Stored(node)),
            Word::Tomb(node) if same => self.found(Place::Dead(node)),
            Word::Live(_) => self.passes(),
            Word::Tomb(_) => self.passes(),
            _ => Step::Ended(Ending::Closed),
        }
    }

    // The bucket has another key.
    fn passes(self) -> Step
        requires on { IsOn self }
        requires load { self.point ≡ Point.Load }
        ensures { (own : ℕ → Bool) (words : List Word) → Stands own words self
            → HasOther own (word_at words (bucket_of self)) → AfterLoad own words self result }
    {
        let passed = self.passed + 1;
        if passed < self.length {
            Step::On(Probe { passed, ..self })
        } else {
            Step::Ended(self.nowhere())
        }
    }

    // All buckets have other keys.
    fn nowhere(self) -> Ending
        ensures { (own : ℕ → Bool) (words : List Word) → PassesAll own words self.hash
            → Tells own words self.aim self.hash result }
    {
        match self.aim {
            Aim::Insert => Ending::NoFree,
            Aim::Get => Ending::Kept { present: None },
            Aim::Remove => Ending::Kept { present: None },
        }
    }

    // This bucket ends the probe.
    fn found(self, at: Place) -> Step
        requires { IsOn self }
        ensures { (own : ℕ → Bool) (words : List Word) → Stands own words self
            → EndsAt own words self.hash self.passed at → AfterLoad own words self result }
    {
        match self.aim {
            Aim::Get => Step::Ended(Ending::Kept {
                present: at.present(),
            }),
            Aim::Insert => self.at(Point::Choose { at }),
            Aim::Remove => self.found_to_remove(at),
        }
    }

    fn found_to_remove(self, at: Place) -> Step
        requires on { IsOn self }
        requires aim { self.aim ≡ Aim.Remove }
        ensures { (own : ℕ → Bool) (words : List Word) → Stands own words self
            → EndsAt own words self.hash self.passed at → AfterLoad own words self result }
    {
        match at {
            Place::Stored(_) => self.at(Point::Choose { at }),
            _ => Step::Ended(Ending::Kept { present: None }),
        }
    }

    fn chosen(self, at: Place, choice: Choice) -> Step
        requires { MayChoose self.aim at choice }
        ensures { Takes self (Point.Choose at) (Seen.Chosen choice) result }
    {
        match choice {
            Choice::Keep => Step::Ended(Ending::Kept {
                present: at.present(),
            }),
            Choice::Put { node } => self.at(Point::Put { at, node }),
            Choice::Remove => self.chosen_remove(at),
        }
    }

    fn chosen_remove(self, at: Place) -> Step
        requires { MayChoose self.aim at Choice.Remove }
        ensures { Takes self (Point.Choose at) (Seen.Chosen Choice.Remove) result }
    {
        match at {
            Place::Stored(node) => self.at(Point::Remove { node }),
            _ => unreachable!(),
        }
    }
}
