//! Driving a probe over the words of an array of one owner.

ghost use Rattle.std.specs.Prelude.{◌≡◌, ℕ, ◌<◌, Bool, Option, MatchOption, List, length, slice_set};
ghost use Rattle.std.specs.Fn.{ComputesKey};
ghost use Rattle.moka_words.specs.Words.{word_at};
ghost use Rattle.moka_words.specs.Effect.{Effect, alone};
ghost use Rattle.moka_cht.specs.Nodes.{AllKept, IsKept, has_key, hash_in, node_hash, own_key};
ghost use Rattle.moka_words.specs.declared.words.Word.{Word};
ghost use Rattle.moka_cht.specs.Probes.{AfterLoads, AtPlace, IsChoice, IsExchange, IsOn, IsPlaceOf, PassesAll, Tells, access_of, bucket_of};
ghost use Rattle.moka_cht.specs.Buckets.{IsTable};

use crate::node::Node;
use crate::probe::{Aim, Ending, Place, Point, Probe, Step};
use moka_words::{Access, Choice, Seen, Word};

/// Loads buckets until the probe asks what to do at one, or ends.
pub fn look<K: Eq, V, F: FnMut(&K) -> bool>(
    words: &[Word],
    nodes: &[Node<K, V>],
    mut probe: Probe,
    mut eq: F,
) -> Step
    requires callable { F.IsAlwaysCallable eq }
    requires one { (q : K) × ComputesKey F.FnMut (K.eq q) eq }
    requires on { IsOn probe }
    requires load { probe.point ≡ Point.Load }
    requires first { probe.passed ≡ 0 }
    requires long { length words.now ≡ probe.length }
    requires kept { AllKept nodes.now words.now }
    ensures { (q : K) → ComputesKey F.FnMut (K.eq q) eq
        → AfterLoads (own_key K.eq nodes.now q) words.now probe result }
{
    while let Access::LoadWord { index, .. } = probe.access() {
        let seen = load(words, nodes, index, &mut eq);
        match probe.take(seen) {
            Step::On(next) => probe = next,
            Step::Ended(ending) => return Step::Ended(ending),
        }
    }
    Step::On(probe)
}

// What a load of the word sees. The probe's key is asked of its node.
fn load<K: Eq, V, F: FnMut(&K) -> bool>(
    words: &[Word],
    nodes: &[Node<K, V>],
    index: usize,
    eq: &mut F,
) -> Seen
    requires callable { F.IsAlwaysCallable eq.old }
    requires within { index < length words.now }
    requires kept { AllKept nodes.now words.now }
    ensures callable { F.IsAlwaysCallable eq.new }
    ensures word { (hash : ℕ) × (same : Bool)
        × (result ≡ Seen.Word (word_at words.now index) hash same) }
    ensures computes { (q : K) → ComputesKey F.FnMut (K.eq q) eq.old
        → ComputesKey F.FnMut (K.eq q) eq.new }
    ensures effect { (q : K) → ComputesKey F.FnMut (K.eq q) eq.old
        → Effect (node_hash nodes.now) (own_key K.eq nodes.now q) (Access.LoadWord 0 index) result
        (alone words.now) (alone words.now) }
{
    let word = words[index];
    match word {
        Word::Live(node) => load_node(word, &nodes[node as usize], eq),
        Word::Tomb(node) => load_node(word, &nodes[node as usize], eq),
        _ => Seen::Word {
            word,
            hash: 0,
            same: false,
        },
    }
}

// What a load of a word with this node sees. The probe's key is asked of the node.
fn load_node<K: Eq, V, F: FnMut(&K) -> bool>(word: Word, node: &Node<K, V>, eq: &mut F) -> Seen
    requires { F.IsAlwaysCallable eq.old }
    ensures callable { F.IsAlwaysCallable eq.new }
    ensures word { (same : Bool) × (result ≡ Seen.Word word (hash_in node.now) same) }
    ensures computes { (q : K) → ComputesKey F.FnMut (K.eq q) eq.old
        → ComputesKey F.FnMut (K.eq q) eq.new }
    ensures same { (q : K) → ComputesKey F.FnMut (K.eq q) eq.old
        → result ≡ Seen.Word word (hash_in node.now) (has_key K.eq q node.now) }
{
    match node {
        Node::Pair { hash, key, .. } => Seen::Word {
            word,
            hash: *hash,
            same: is_own(key, eq),
        },
        Node::Removed { hash, key } => Seen::Word {
            word,
            hash: *hash,
            same: is_own(key, eq),
        },
        Node::Unused => Seen::Word {
            word,
            hash: 0,
            same: false,
        },
    }
}

fn is_own<K, F: FnMut(&K) -> bool>(key: &K, eq: &mut F) -> bool
    requires { F.IsAlwaysCallable eq.old }
    ensures callable { F.IsAlwaysCallable eq.new }
    ensures own { (h : K → Bool) → ComputesKey F.FnMut h eq.old
        → ComputesKey F.FnMut h eq.new × (result ≡ h key.now) }
{
    eq(key)
}

/// Answers the number of the live node whose key `eq` accepts.
pub fn find<K: Eq, V, F: FnMut(&K) -> bool>(
    words: &[Word],
    nodes: &[Node<K, V>],
    hash: u64,
    eq: F,
) -> Option<u64>
    requires callable { F.IsAlwaysCallable eq }
    requires one { (q : K) × ComputesKey F.FnMut (K.eq q) eq }
    requires table { IsTable K.eq words.now nodes.now }
    ensures { (q : K) → ComputesKey F.FnMut (K.eq q) eq
        → Tells (own_key K.eq nodes.now q) words.now Aim.Get hash (Ending.Kept result) }
{
    let probe = Probe::begin(Aim::Get, 0, words.len(), hash);
    match look(words, nodes, probe, eq) {
        Step::Ended(Ending::Kept { present }) => present,
        _ => unreachable!(),
    }
}

/// Leads the probe of a removal to the live bucket of its key, and gives it there.
pub fn find_live<K: Eq, V, F: FnMut(&K) -> bool>(
    words: &[Word],
    nodes: &[Node<K, V>],
    hash: u64,
    eq: F,
) -> Option<Probe>
    requires callable { F.IsAlwaysCallable eq }
    requires one { (q : K) × ComputesKey F.FnMut (K.eq q) eq }
    requires table { IsTable K.eq words.now nodes.now }
    ensures { (q : K) → ComputesKey F.FnMut (K.eq q) eq
        → MatchOption result
        ((present : Option ℕ)
        × Tells (own_key K.eq nodes.now q) words.now Aim.Remove hash (Ending.Kept present))
        (AtPlace (own_key K.eq nodes.now q) words.now Aim.Remove hash) }
{
    let probe = Probe::begin(Aim::Remove, 0, words.len(), hash);
    match look(words, nodes, probe, eq) {
        Step::On(probe) => Some(probe),
        Step::Ended(Ending::Kept { .. }) => None,
        _ => unreachable!(),
    }
}

/// Leads the probe of an insert to the bucket of its key, or to one without a key, and gives it
/// there.
pub fn find_place<K: Eq, V>(
    words: &[Word],
    nodes: &[Node<K, V>],
    hash: u64,
    key: &K,
) -> Option<Probe>
    requires { IsTable K.eq words.now nodes.now }
    ensures { MatchOption result (PassesAll (own_key K.eq nodes.now key.now) words.now hash)
        (AtPlace (own_key K.eq nodes.now key.now) words.now Aim.Insert hash) }
{
    let probe = Probe::begin(Aim::Insert, 0, words.len(), hash);
    match look(words, nodes, probe, |other| *key == *other) {
        Step::On(probe) => Some(probe),
        Step::Ended(_) => None,
    }
}

/// Puts the node at the bucket that an insert has found, and tells what place that was.
pub fn put_word(words: &mut Vec<Word>, probe: Probe, node: u64) -> Place
    requires on { IsOn probe }
    requires aim { probe.aim ≡ Aim.Insert }
    requires long { length words.old.items ≡ probe.length }
    requires choice { IsChoice words.old.items probe probe.point }
    ensures at { probe.point ≡ Point.Choose result }
    ensures words { words.new.items ≡ slice_set words.old.items (bucket_of probe) (Word.Live node) }
{
    match probe.take(Seen::Chosen(Choice::Put { node })) {
        Step::On(next) => exchange(words, next),
        Step::Ended(_) => unreachable!(),
    }
}

/// Makes a tombstone of the bucket that a removal has found.
pub fn remove_word(words: &mut Vec<Word>, probe: Probe) -> Place
    requires on { IsOn probe }
    requires aim { probe.aim ≡ Aim.Remove }
    requires long { length words.old.items ≡ probe.length }
    requires choice { IsChoice words.old.items probe probe.point }
    ensures at { probe.point ≡ Point.Choose result }
    ensures words { (n : ℕ) → probe.point ≡ Point.Choose (Place.Stored n)
        → words.new.items ≡ slice_set words.old.items (bucket_of probe) (Word.Tomb n) }
{
    match probe.take(Seen::Chosen(Choice::Remove)) {
        Step::On(next) => exchange(words, next),
        Step::Ended(_) => unreachable!(),
    }
}

// Nobody else exchanges words here, so it meets the word that was loaded.
fn exchange(words: &mut Vec<Word>, probe: Probe) -> Place
    requires on { IsOn probe }
    requires point { IsExchange probe.point }
    requires long { length words.old.items ≡ probe.length }
    ensures at { IsPlaceOf probe.point result }
    ensures words { (a i : ℕ) (from to : Word) → access_of probe ≡ Access.Exchange a i from to
        → words.new.items ≡ slice_set words.old.items i to }
{
    match probe.access() {
        Access::Exchange { index, to, .. } => words[index] = to,
        _ => unreachable!(),
    }
    match probe.take(Seen::Exchanged(None)) {
        Step::Ended(Ending::Changed { at }) => at,
        _ => unreachable!(),
    }
}
