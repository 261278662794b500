//! What a cache needs of a table that threads share.
ghost use Rattle.std.specs.Prelude.{◌≡◌, ◌<◌, ℕ, true, Option, Some, None, IfSome, IfOk, OnErr, is_some};
ghost use Rattle.std.specs.Prelude.{MatchOption};
ghost use denote.Ref.{Bor};
ghost use Rattle.std.specs.List.{IsDistinct};
ghost use Rattle.std.specs.Option.{option_map};
ghost use Rattle.std.specs.Set.{is_member};
ghost use Rattle.moka_parts.specs.Calls.{Judged, ShownSome, Stays};

use moka_values::Exact;
use std::alloc::{AllocError, Global};
use std::hash::Hash;
use std::sync::Wait;

/// A table that threads share, whose calls stand in one history.
///
/// Each caller has a seat. What a call tells of what a seat has seen is up to the table: `grows`,
/// `has` and `adds` say the whole of a table whose history has a name, and nothing of one whose
/// history has none. That what is found meets the fact `holds` every table says.
pub trait SharedTable<K: Eq + Hash, V> {
    /// What one caller has seen of the history.
    type Seat;

    /// The part of a key.
    ghost part: { Self → K → ℕ };

    /// What is stored owes this.
    ghost holds: { K → V → Type 0 };

    /// The second seat has seen what the first has.
    ghost grows: { Self.Seat → Self.Seat → Type 0 };

    /// The seat has made no change since.
    ghost rests: { Self.Seat → Self.Seat → Type 0 };

    /// After what the seat has seen, this stands at the key.
    ghost has: { Self.Seat → K → Option (K × V) → Type 0 };

    /// What the second seat has seen ends with a change of the key, which is one more of its own: what
    /// was put there, and what stood there before.
    ghost adds: { Self.Seat → K → Option V → Option (K × V) → Self.Seat → Type 0 };

    /// The part of the key, of 64.
    fn part_of(&self, key: &K) -> usize
        ensures part { result ≡ part self.now key.now }
        ensures small { result < 64 };

    /// A seat of this table. It takes no memory.
    fn seat(&self) -> Self::Seat;

    /// Lends the pair at the key to the closure, and answers what it gives. The closure is called
    /// under the lock of the part, and may not call the table.
    fn look<R: Wait, T, W: FnOnce(Option<(&K, &V)>) -> T>(
        &self,
        rt: &R,
        seat: &mut Self::Seat,
        key: &K,
        with: W,
    ) -> Result<T, AllocError>
        requires callable { (shown : Option (Bor K × Bor V))
            → IfSome shown (λ p. holds key.now p.1.now) → W.pre with shown }
        ensures grows { grows seat.old seat.new }
        ensures rests { rests seat.old seat.new }
        ensures shown { IfOk result (ShownSome W.FnOnce with (λ found.
            has seat.new key.now found × IfSome found (λ p. holds key.now p.1))) };

    /// Puts the pair, whose key takes the place of the stored one. Answers what the closure gives,
    /// which is lent the pair that stood there under the lock of the part, and may not call the
    /// table. An error comes where memory is wanting, and the table is as before.
    fn put<R: Wait, T, W: FnOnce(Option<(&K, &V)>) -> T>(
        &self,
        rt: &R,
        seat: &mut Self::Seat,
        key: K,
        value: V,
        with: W,
    ) -> Result<T, AllocError>
    where
        K: Drop,
        V: Drop,
        requires fact { holds key value }
        requires callable { (shown : Option (Bor K × Bor V))
            → IfSome shown (λ p. holds key p.1.now) → W.pre with shown }
        ensures grows { grows seat.old seat.new }
        ensures puts { IfOk result (ShownSome W.FnOnce with (λ before.
            adds seat.old key (Some value) before seat.new
            × IfSome before (λ p. holds key p.1))) }
        ensures rests { OnErr result (rests seat.old seat.new) };

    /// Puts the pair where none stands at the key: answers None, or a copy of the value that stands
    /// there. An error comes where memory is wanting, and the table is as before.
    fn put_if_absent<R: Wait>(
        &self,
        rt: &R,
        seat: &mut Self::Seat,
        key: K,
        value: V,
    ) -> Result<Option<V>, AllocError>
    where
        K: Drop,
        V: Exact + Drop,
        requires fact { holds key value }
        ensures grows { grows seat.old seat.new }
        ensures answers { IfOk result (λ there. MatchOption there
            (adds seat.old key (Some value) None seat.new)
            (λ v. holds key v × rests seat.old seat.new × ((found : Option (K × V))
            × has seat.new key found × (option_map (λ p. p.1) found ≡ Some v)))) }
        ensures rests { OnErr result (rests seat.old seat.new) };

    /// Takes the pair at the key out, where the condition holds of it, and answers it. The
    /// condition is asked under the lock of the part, and may not call the table.
    fn take_out_if<R: Wait, C: FnOnce(&K, &V) -> bool>(
        &self,
        rt: &R,
        seat: &mut Self::Seat,
        key: &K,
        condition: C,
    ) -> Result<Option<(K, V)>, AllocError>
    where
        K: Drop,
        requires callable { (k : Bor K) (v : Bor V) → holds key.now v.now → C.pre condition k v }
        ensures grows { grows seat.old seat.new }
        ensures out { IfOk result (λ taken. MatchOption taken
            (rests seat.old seat.new × ((found : Option (K × V)) × has seat.new key.now found
            × Stays C.FnOnce condition found))
            (λ p. adds seat.old key.now None (Some p) seat.new
            × Judged C.FnOnce condition p true × holds key.now p.1)) }
        ensures rests { OnErr result (rests seat.old seat.new) };

    /// Copies of the keys of a part, each once, as they stand while its lock is held: those at
    /// which a pair stands after what the seat has then seen. It is an error only where memory is
    /// wanting.
    fn keys<R: Wait>(
        &self,
        rt: &R,
        alloc: Global,
        seat: &mut Self::Seat,
        number: usize,
    ) -> Result<Vec<K>, AllocError>
    where
        K: Exact + Drop,
        requires part { number < 64 }
        ensures grows { grows seat.old seat.new }
        ensures rests { rests seat.old seat.new }
        ensures distinct { IfOk result (λ keys. IsDistinct K.eq keys.items) }
        ensures of_part { IfOk result (λ keys. (q : K) → is_member K.eq keys.items q ≡ true
            → part self.now q ≡ number) }
        ensures listed { IfOk result (λ keys. (q : K) → part self.now q ≡ number
            → (found : Option (K × V)) × has seat.new q found
            × (is_member K.eq keys.items q ≡ is_some found)) }
        ensures fact { IfOk result (λ keys. (q : K) → is_member K.eq keys.items q ≡ true
            → (v : V) × holds q v) };

    /// Each of the two seats has seen then what either had. It takes no memory, and waits for
    /// nobody.
    fn meet(&self, a: &mut Self::Seat, b: &mut Self::Seat)
        ensures left { grows a.old a.new × grows b.old a.new }
        ensures right { grows a.old b.new × grows b.old b.new }
        ensures one { grows a.new b.new }
        ensures rests { rests a.old a.new × rests b.old b.new };

    /// How many parts there are.
    fn parts(&self) -> usize
        ensures { result ≡ 64 };

    /// How many pairs there are. The parts are counted one after the other, so it is exact only
    /// while nobody else changes the table.
    fn len<R: Wait>(&self, rt: &R) -> u64;
}
