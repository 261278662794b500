//! A table whose operations stay undecided for a while: what the contract of `Table` asks of one
//! that others change meanwhile.
ghost use Rattle.std.specs.Prelude.{◌≡◌, ◌≢◌, ℕ, ◌<◌, ◌≤◌, ◌+◌, max, refl, List, IsSome, OnErr, IfOk, Some, None};
ghost use Rattle.std.specs.Bool.{OnTrue};
ghost use Rattle.std.specs.HashMap.{hash_map_len};
ghost use Rattle.std.proofs.Common.{arith};
ghost use Rattle.moka_hist.specs.declared.tables.TableOp.{TableOp};
ghost use Rattle.moka_hist.specs.declared.tables.TableAnswer.TheVariants as found;
ghost use Rattle.moka_table.specs.Map.{GoesOnListing, SameMap, Moves, ListsPairs, most_steps};
ghost use Rattle.moka_table.specs.Plain.{AllCovered, IsOfPart, IsPlainList, NoneListed, map_of, peak_of, plain_first, plain_part, plain_parts};

#[cfg(test)]
use moka_hist::Stored;
use moka_hist::{TableOp, TableTurn};
use moka_table::{EntryList, PlainCall, PlainTable, Table};
use moka_values::Exact;
use std::alloc::{AllocError, Global};
use std::hash::Hash;
#[cfg(test)]
use std::process::Abort;
#[cfg(test)]
use std::test::Fail;

// A plain table with work to be done before the next operation decides. Each step does one piece.
#[derive(Drop)]
struct Slow<K: Eq + Hash, V> {
    plain: PlainTable<K, V>,
    pieces: u64,
    ghost few: { pieces < most_steps plain_first 0 },
}

impl<K: Eq + Hash + Exact, V: Exact> Table<K, V> for Slow<K, V> {
    type Call = PlainCall<K, V>;

    ghost map = { λ t. map_of K.eq t.plain };

    ghost count = { λ t. hash_map_len t.plain.pairs };

    ghost peak = { λ t. peak_of t.plain };

    ghost first = { λ t. plain_first };

    ghost operation_of = { λ c. c.operation };

    ghost fits = { λ t c. c.operation ≢ None };

    ghost left = { λ t c. t.pieces + 1 };

    ghost divided = { λ t. plain_parts };

    ghost part_of = { λ t. plain_part };

    ghost listed = { λ t c. NoneListed };

    ghost covers = { λ t c. AllCovered };

    ghost peak_holds = { λ t. Prim.omega arith };

    ghost first_holds = { λ t. Prim.omega arith };

    ghost parts_hold = { λ t. (Prim.omega arith, Prim.omega arith) };

    ghost part_holds = { λ t key. Prim.omega arith };

    ghost alike = { λ t a b same. refl };

    fn parts(&self) -> usize
        ensures { result ≡ plain_parts }
    {
        self.plain.parts()
    }

    fn begin(&self, operation: TableOp<K, V>) -> PlainCall<K, V>
        ensures operation { result.operation ≡ Some operation }
        ensures fits { result.operation ≢ None }
        ensures left { self.now.pieces + 1 ≤ most_steps plain_first (peak_of self.now.plain) }
        ensures none { (part : ℕ) → operation ≡ TableOp.Keys part → (q : K) → NoneListed q → ⊥ }
        ensures all { (part : ℕ) → operation ≡ TableOp.Keys part
            → (q : K) → IsOfPart part q → AllCovered q }
    {
        self.plain.begin(operation)
    }

    fn step(&mut self, call: &mut PlainCall<K, V>) -> Result<TableTurn<K, V>, AllocError>
        requires fits { call.old.operation ≢ None }
        ensures moves { IfOk result (λ turn. (o : TableOp K V) → call.old.operation ≡ Some o
            → Moves K.eq o (map_of K.eq self.old.plain) (hash_map_len self.old.plain.pairs) turn
            (map_of K.eq self.new.plain) (hash_map_len self.new.plain.pairs)) }
        ensures peak { peak_of self.new.plain
            ≡ max (peak_of self.old.plain) (hash_map_len self.new.plain.pairs) }
        ensures first { plain_first ≡ plain_first }
        ensures parts { (plain_parts ≡ plain_parts) × ((q : K) → plain_part q ≡ plain_part q) }
        ensures lists { IfOk result (λ turn. (part : ℕ)
            → call.old.operation ≡ Some (TableOp.Keys part) → turn ≡ TableTurn.Going
            → GoesOnListing (map_of K.eq self.old.plain) (IsOfPart part) NoneListed NoneListed
            AllCovered AllCovered) }
        ensures gives { IfOk result (λ turn. (part : ℕ) → (keys : List K)
            → call.old.operation ≡ Some (TableOp.Keys part)
            → turn ≡ TableTurn.Decided (found.Keys keys)
            → IsPlainList K.eq self.old.plain part keys) }
        ensures undecided { IfOk result (λ turn. turn ≡ TableTurn.Going
            → (call.new.operation ≡ call.old.operation) × (call.new.operation ≢ None)) }
        ensures nears { IfOk result (λ turn. turn ≡ TableTurn.Going
            → self.new.pieces + 1 < self.old.pieces + 1) }
        ensures others { (other : PlainCall K V) → other.operation ≢ None
            → other.operation ≢ None }
        ensures others_left { (other : PlainCall K V) → other.operation ≢ None
            → self.new.pieces + 1 ≤ most_steps plain_first (peak_of self.new.plain) }
        ensures others_listed { (other : PlainCall K V) → other.operation ≢ None
            → (q : K) → NoneListed q → NoneListed q }
        ensures others_cover { (other : PlainCall K V) (part : ℕ) → other.operation ≢ None
            → other.operation ≡ Some (TableOp.Keys part) → (q : K) → IsOfPart part q
            → IsSome (map_of K.eq self.old.plain q) → IsSome (map_of K.eq self.new.plain q)
            → AllCovered q → AllCovered q }
        ensures err_map { OnErr result
            (SameMap (map_of K.eq self.old.plain) (map_of K.eq self.new.plain)) }
        ensures err_count { OnErr result
            (hash_map_len self.new.plain.pairs ≡ hash_map_len self.old.plain.pairs) }
        ensures err_call { OnErr result ((call.new.operation ≡ call.old.operation)
            × (call.new.operation ≢ None)
            × (self.new.pieces + 1 ≡ self.old.pieces + 1)) }
        ensures err_listed { OnErr result ((q : K) → (NoneListed q → NoneListed q)
            × (AllCovered q → AllCovered q)) }
        ensures err_others { OnErr result ((other : PlainCall K V) → other.operation ≢ None
            → self.new.pieces + 1 ≤ self.old.pieces + 1) }
    {
        if self.pieces > 0 {
            self.pieces -= 1;
            return Ok(TableTurn::Going);
        }
        self.plain.step(call)
    }

    fn pairs(&self, alloc: Global) -> Result<EntryList<K, V>, AllocError>
        ensures { IfOk result (λ pairs. ListsPairs K.eq pairs (map_of K.eq self.now.plain)) }
    {
        self.plain.pairs(alloc)
    }

    fn len(&self) -> usize
        ensures { result ≡ hash_map_len self.now.plain.pairs }
    {
        self.plain.len()
    }
}

// A table with so many pieces to be done.
#[cfg(test)]
fn with_pieces(alloc: Global, pieces: u64) -> Slow<u32, u32>
    requires { pieces < most_steps plain_first 0 }
{
    Slow {
        plain: PlainTable::new(alloc),
        pieces,
    }
}

// Makes one step; tells whether the operation stays undecided.
#[cfg(test)]
fn goes_on(table: &mut Slow<u32, u32>, call: &mut PlainCall<u32, u32>) -> Result<bool, AllocError>
    requires { call.old.operation ≢ None }
    ensures { IfOk result (λ going. OnTrue going (call.new.operation ≢ None)) }
{
    let turn = table.step(call)?;
    let going = turn.is_going();
    drop(turn);
    Ok(going)
}

#[cfg(test)]
fn decide_both(rt: &impl Abort, table: &mut Slow<u32, u32>) -> Result<(), Fail> {
    let mut first = table.begin(TableOp::Get { key: 3 });
    let mut second = table.begin(TableOp::Get { key: 4 });
    assert!(rt; goes_on(table, &mut first)?);
    assert!(rt; goes_on(table, &mut second)?);
    assert!(rt; !goes_on(table, &mut first)?);
    assert!(rt; !goes_on(table, &mut second)?);
    Ok(())
}

#[test]
fn an_operation_decides_once_the_pieces_are_done(rt: HostRuntime) -> Result<(), Fail> {
    let mut table = with_pieces(rt.alloc(), 2);
    let decided = decide_both(&rt, &mut table);
    drop(table);
    decided
}

// An insert of key 3, if that is absent.
#[cfg(test)]
fn insert() -> TableOp<u32, u32> {
    let stored = Stored {
        value: 7,
        stamp: 1,
        modified: 0,
    };
    TableOp::InsertIfAbsent { key: 3, stored }
}

// A removal of it.
#[cfg(test)]
fn removal() -> TableOp<u32, u32> {
    TableOp::RemoveIf {
        key: 3,
        stamp: Some(1),
    }
}

#[cfg(test)]
fn remove_late(rt: &impl Abort, table: &mut Slow<u32, u32>) -> Result<(), Fail> {
    let mut late = table.begin(removal());
    assert!(rt; goes_on(table, &mut late)?);
    let mut early = table.begin(insert());
    assert!(rt; !goes_on(table, &mut early)?);
    assert!(rt; table.len() == 1);
    assert!(rt; !goes_on(table, &mut late)?);
    assert!(rt; table.len() == 0);
    Ok(())
}

#[test]
fn a_removal_finds_what_is_there_when_it_decides(rt: HostRuntime) -> Result<(), Fail> {
    let mut table = with_pieces(rt.alloc(), 1);
    let removed = remove_late(&rt, &mut table);
    drop(table);
    removed
}
