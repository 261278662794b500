//! A cache before a keeper.
ghost use Rattle.std.specs.Prelude.{◌≡◌, ◌↔◌, ℕ, ◌<◌, ◌≤◌, List, [], ◌∷◌, ◌++◌, length, Some, None, true, IfOk, IfSome, IsErr, IsErrOf, IsSome, OnOk, OnErr};
ghost use Rattle.moka_hist.specs.Finite.{put_at};

use crate::BehindError;
use crate::pairs::{self, Cache, Looked};
use crate::shedding::shed;
use moka_keepers::{Keeper, Unsent, Write};
use moka_polled::PolledMachine;
use std::alloc::{AllocError, Global};

/// A cache of pairs of numbers before a keeper. Sets and dels go into the cache, and wait in a list
/// until `drain` sends them; what is neither stored nor waits is asked of the keeper.
///
/// Nothing is taken out but by `del` and `shed`. Want of memory spends a `Behind`: from then on each
/// call that can answer it does. What is unsent is kept, and `drain` still sends it.
#[derive(Drop)]
pub struct Behind {
    cache: Cache,
    unsent: Unsent,
    spent: bool,
    alloc: Global,
}

impl Behind {
    ghost use Rattle.moka_ends.specs.Faults.{HasRisen};
    ghost use Rattle.moka_keepers.specs.declared.write.Write.{Write as AWrite};
    ghost use Rattle.moka_keepers.specs.Keeping.{Kept};
    ghost use Rattle.moka_keepers.specs.Owing.{Owes, Truth, taken_off, true_pairs, truth_of, with_write};
    ghost use Rattle.moka_keepers.specs.Writes.{Pairs, last_of, made, write_of};
    ghost use Rattle.moka_behind.specs.Behind.{IsBehind, IsOwn, IsSpent, IsUsable};
    ghost use Rattle.moka_behind.specs.Holding.{Holds, HoldsAsking, IsLoading};
    ghost use Rattle.moka_behind.specs.Looking.{CountsKeys, Looks};
    ghost use Rattle.moka_behind.specs.Stored.{keys_after, keys_found, with_key, without_key};

    /// Makes one that stores nothing and has nothing unsent. The capacity bounds nothing.
    pub fn new(alloc: Global, capacity: u64) -> Result<Behind, AllocError>
        requires stores { 1 ≤ capacity }
        ensures behind { IfOk result (λ behind. (kept : Kept)
            → IsBehind behind kept (truth_of kept) [] []) }
        ensures usable { IfOk result IsUsable }
    {
        Ok(Behind {
            cache: PolledMachine::new(alloc, Some(capacity))?,
            unsent: Unsent::new(alloc),
            spent: false,
            alloc,
        })
    }

    /// Puts the value under the key. Where there is no memory, nothing is unsent that wasn't before.
    pub fn set(&mut self, key: u32, value: u32) -> Result<(), AllocError>
        requires usable { IsUsable self.old }
        ensures set { OnOk result ((kept : Kept) (truth : Truth) (stored : List ℕ)
            (sent : List AWrite) → IsBehind self.old kept truth stored sent → IsBehind self.new kept
            (with_write truth (write_of key (Some value))) (with_key key stored) sent) }
        ensures unsent { OnOk result
            (self.new.unsent ≡ self.old.unsent ++ write_of key (Some value) ∷ []) }
        ensures usable { IsUsable self.new }
        // want of memory
        ensures spent { IsErr result ↔ IsSpent self.new }
        ensures stays { IsSpent self.old → IsErr result }
        ensures kept { OnErr result (self.new.unsent ≡ self.old.unsent) }
    {
        self.write(Write {
            key,
            value: Some(value),
        })
    }

    /// Takes the key out. Where there is no memory, nothing is unsent that wasn't before.
    pub fn del(&mut self, key: u32) -> Result<(), AllocError>
        requires usable { IsUsable self.old }
        ensures del { OnOk result ((kept : Kept) (truth : Truth) (stored : List ℕ)
            (sent : List AWrite) → IsBehind self.old kept truth stored sent → IsBehind self.new kept
            (with_write truth (write_of key None)) (without_key key stored) sent) }
        ensures unsent { OnOk result
            (self.new.unsent ≡ self.old.unsent ++ write_of key None ∷ []) }
        ensures usable { IsUsable self.new }
        // want of memory
        ensures spent { IsErr result ↔ IsSpent self.new }
        ensures stays { IsSpent self.old → IsErr result }
        ensures kept { OnErr result (self.new.unsent ≡ self.old.unsent) }
    {
        self.write(Write { key, value: None })
    }

    /// Answers the value under the key, if there is one: what is stored, else what the key's last
    /// unsent write left, else what the keeper gives. What is found is stored.
    ///
    /// `Fault` comes only of a fault of the keeper in this call; then nothing has changed.
    pub fn get<Kp: Keeper>(&mut self, keeper: &mut Kp, key: u32) -> Result<Option<u32>, BehindError>
        requires usable { IsUsable self.old }
        ensures got { IfOk result (λ found. (truth : Truth) (stored : List ℕ) (sent : List AWrite)
            → IsBehind self.old (Kp.told keeper.old) truth stored sent
            → IsBehind self.new (Kp.told keeper.new) truth (keys_found key found stored) sent
            × IfSome (Kp.told keeper.new).pairs (λ ps. found ≡ true_pairs truth key)) }
        ensures own { (kept : Kept) (truth : Truth) (stored : List ℕ) (sent : List AWrite)
            → IsBehind self.old kept truth stored sent → IsOwn self.old stored key
            → (keeper.new ≡ keeper.old) × ¬ IsErrOf result BehindError.Fault }
        ensures unsent { self.new.unsent ≡ self.old.unsent }
        ensures told { Kp.told keeper.new ≡ Kp.told keeper.old }
        ensures usable { IsUsable self.new }
        // faults
        ensures fault { IsErrOf result BehindError.Fault
            → HasRisen (Kp.faults keeper.old) (Kp.faults keeper.new) }
        ensures calm { ¬ IsErrOf result BehindError.Fault
            → Kp.faults keeper.new ≡ Kp.faults keeper.old }
        ensures dropped { IsErrOf result BehindError.Fault → (truth : Truth) (stored : List ℕ)
            (sent : List AWrite) → IsBehind self.old (Kp.told keeper.old) truth stored sent
            → IsBehind self.new (Kp.told keeper.new) truth stored sent }
        // want of memory
        ensures spent { IsErrOf result BehindError.Memory ↔ IsSpent self.new }
        ensures stays { IsSpent self.old → IsErrOf result BehindError.Memory }
    {
        match self.look(key)? {
            Looked::Found(value) => Ok(Some(value)),
            Looked::Asks(call) => self.load(keeper, key, call),
        }
    }

    /// Takes every stored record out, each as one chosen for its size. Answers how many there were.
    /// What is unsent stays.
    pub fn shed(&mut self) -> Result<u64, AllocError>
        requires usable { IsUsable self.old }
        ensures shed { IfOk result (λ count. (kept : Kept) (truth : Truth) (stored : List ℕ)
            (sent : List AWrite) → IsBehind self.old kept truth stored sent
            → (count ≡ length stored) × IsBehind self.new kept truth [] sent) }
        ensures unsent { self.new.unsent ≡ self.old.unsent }
        ensures usable { IsUsable self.new }
        // want of memory
        ensures spent { IsErr result ↔ IsSpent self.new }
        ensures stays { IsSpent self.old → IsErr result }
    {
        let count = self.try_shed();
        self.spent = count.is_err();
        count
    }

    /// Sends the unsent writes to the keeper in their order, each off the list once its put answered
    /// Ok. Answers how many were sent.
    ///
    /// `Fault` comes only of a fault of the keeper in this call; then the write whose put failed is the
    /// first of the unsent. `Memory` comes where memory was wanting before, once all were sent.
    pub fn drain<Kp: Keeper>(&mut self, keeper: &mut Kp) -> Result<u64, BehindError>
        requires usable { IsUsable self.old }
        ensures sent { (truth : Truth) (stored : List ℕ) (sent : List AWrite)
            → IsBehind self.old (Kp.told keeper.old) truth stored sent
            → IsBehind self.new (Kp.told keeper.new) truth stored
            (sent ++ taken_off self.old.unsent self.new.unsent) }
        ensures drained { OnOk result ((truth : Truth) (stored : List ℕ) (sent : List AWrite)
            → IsBehind self.old (Kp.told keeper.old) truth stored sent
            → (sent ++ taken_off self.old.unsent self.new.unsent ≡ truth.writes)
            × IfSome (Kp.told keeper.new).pairs (λ ps. ps ≡ true_pairs truth)) }
        ensures count { IfOk result (λ count. count ≡ length self.old.unsent) }
        ensures all { ¬ IsErrOf result BehindError.Fault → self.new.unsent ≡ [] }
        ensures front { self.old.unsent
            ≡ taken_off self.old.unsent self.new.unsent ++ self.new.unsent }
        ensures owes { (truth : Truth) (sent : List AWrite)
            → Owes self.old.unsent (Kp.told keeper.old) truth sent
            → Owes self.new.unsent (Kp.told keeper.new) truth
            (sent ++ taken_off self.old.unsent self.new.unsent) }
        ensures usable { IsUsable self.new }
        // faults
        ensures first { IsErrOf result BehindError.Fault → 0 < length self.new.unsent }
        ensures fault { IsErrOf result BehindError.Fault
            → HasRisen (Kp.faults keeper.old) (Kp.faults keeper.new) }
        ensures calm { ¬ IsErrOf result BehindError.Fault
            → Kp.faults keeper.new ≡ Kp.faults keeper.old }
        // want of memory
        ensures spent { IsSpent self.new ↔ IsSpent self.old }
        ensures memory { IsErrOf result BehindError.Memory → IsSpent self.old }
        ensures stays { IsSpent self.old → IsErr result }
    {
        let count = self.unsent.send_all(keeper)?;
        if self.spent {
            return Err(BehindError::Memory);
        }
        Ok(count)
    }

    /// Counts the writes that are unsent.
    pub fn unsent(&self) -> u64
        ensures { result ≡ length self.now.unsent }
    {
        self.unsent.len() as u64
    }

    // Makes a write on the cache, and puts it after all that are unsent.
    fn write(&mut self, write: Write) -> Result<(), AllocError>
        requires usable { IsUsable self.old }
        ensures made { OnOk result ((ps : Pairs) → Holds self.old.cache ps
            → Holds self.new.cache (made ps write)) }
        ensures unsent { OnOk result (self.new.unsent ≡ self.old.unsent ++ write ∷ []) }
        ensures spent { IsErr result ↔ IsSpent self.new }
        ensures stays { IsSpent self.old → IsErr result }
        ensures kept { OnErr result (self.new.unsent ≡ self.old.unsent) }
    {
        let wrote = self.try_write(write);
        self.spent = wrote.is_err();
        wrote
    }

    fn try_write(&mut self, write: Write) -> Result<(), AllocError>
        requires usable { IsUsable self.old }
        ensures made { OnOk result ((ps : Pairs) → Holds self.old.cache ps
            → Holds self.new.cache (made ps write)) }
        ensures unsent { OnOk result (self.new.unsent ≡ self.old.unsent ++ write ∷ []) }
        ensures stays { IsSpent self.old → IsErr result }
        ensures kept { OnErr result (self.new.unsent ≡ self.old.unsent) }
    {
        if self.spent {
            return Err(AllocError);
        }
        pairs::make(&mut self.cache, write)?;
        self.unsent.push(write)
    }

    // Looks at a key, for a load of it.
    fn look(&mut self, key: u32) -> Result<Looked, AllocError>
        requires usable { IsUsable self.old }
        ensures looked { IfOk result (λ looked. (ps : Pairs) → Holds self.old.cache ps
            → Looks looked key ps self.new.cache) }
        ensures unsent { self.new.unsent ≡ self.old.unsent }
        ensures spent { IsErr result ↔ IsSpent self.new }
        ensures stays { IsSpent self.old → IsErr result }
    {
        let looked = self.try_look(key);
        self.spent = looked.is_err();
        looked
    }

    fn try_look(&mut self, key: u32) -> Result<Looked, AllocError>
        requires usable { IsUsable self.old }
        ensures looked { IfOk result (λ looked. (ps : Pairs) → Holds self.old.cache ps
            → Looks looked key ps self.new.cache) }
        ensures unsent { self.new.unsent ≡ self.old.unsent }
        ensures stays { IsSpent self.old → IsErr result }
    {
        if self.spent {
            return Err(AllocError);
        }
        pairs::look(&mut self.cache, key)
    }

    // Ends a load by what the key has behind the cache. Where the keeper fails, the load is dropped.
    fn load<Kp: Keeper>(
        &mut self,
        keeper: &mut Kp,
        key: u32,
        call: u64,
    ) -> Result<Option<u32>, BehindError>
        requires loading { IsLoading self.old.cache call key }
        requires unspent { ¬ IsSpent self.old }
        ensures found { IfOk result (λ found. (ps : Pairs) → HoldsAsking self.old.cache call key ps
            → Holds self.new.cache (put_at ps key found)) }
        ensures true_value { IfOk result (λ found. (truth : Truth) (sent : List AWrite)
            → Owes self.old.unsent (Kp.told keeper.old) truth sent
            → IfSome (Kp.told keeper.new).pairs (λ p. found ≡ true_pairs truth key)) }
        ensures dropped { IsErrOf result BehindError.Fault → (ps : Pairs)
            → HoldsAsking self.old.cache call key ps → Holds self.new.cache ps }
        ensures own { IsSome (last_of key self.old.unsent)
            → (keeper.new ≡ keeper.old) × ¬ IsErrOf result BehindError.Fault }
        ensures unsent { self.new.unsent ≡ self.old.unsent }
        ensures told { Kp.told keeper.new ≡ Kp.told keeper.old }
        ensures fault { IsErrOf result BehindError.Fault
            → HasRisen (Kp.faults keeper.old) (Kp.faults keeper.new) }
        ensures calm { ¬ IsErrOf result BehindError.Fault
            → Kp.faults keeper.new ≡ Kp.faults keeper.old }
        ensures spent { IsErrOf result BehindError.Memory ↔ IsSpent self.new }
    {
        match self.unsent.find(keeper, key) {
            Ok(found) => self.answer(call, found),
            Err(_) => {
                pairs::give_up(&mut self.cache, call);
                Err(BehindError::Fault)
            }
        }
    }

    // Ends a load by what was found.
    fn answer(&mut self, call: u64, found: Option<u32>) -> Result<Option<u32>, BehindError>
        requires loading { (key : ℕ) × IsLoading self.old.cache call key }
        requires unspent { ¬ IsSpent self.old }
        ensures found { OnOk result ((key : ℕ) (ps : Pairs) → HoldsAsking self.old.cache call key ps
            → Holds self.new.cache (put_at ps key found)) }
        ensures same { IfOk result (λ told. told ≡ found) }
        ensures unsent { self.new.unsent ≡ self.old.unsent }
        ensures memory { ¬ IsErrOf result BehindError.Fault }
        ensures spent { IsErrOf result BehindError.Memory ↔ IsSpent self.new }
    {
        match pairs::answer(&mut self.cache, call, found) {
            Ok(()) => Ok(found),
            Err(_) => Err(self.spend()),
        }
    }

    // Spends the value.
    fn spend(&mut self) -> BehindError
        ensures memory { result ≡ BehindError.Memory }
        ensures spent { self.new ≡ record self.old { spent = true } }
    {
        self.spent = true;
        BehindError::Memory
    }

    fn try_shed(&mut self) -> Result<u64, AllocError>
        requires usable { IsUsable self.old }
        ensures empty { OnOk result ((ps : Pairs) → Holds self.old.cache ps
            → Holds self.new.cache (λ key. None)) }
        ensures count { IfOk result (λ count. (ps : Pairs) → Holds self.old.cache ps
            → CountsKeys ps count) }
        ensures unsent { self.new.unsent ≡ self.old.unsent }
        ensures stays { IsSpent self.old → IsErr result }
    {
        if self.spent {
            return Err(AllocError);
        }
        shed(&mut self.cache, self.alloc)
    }
}
