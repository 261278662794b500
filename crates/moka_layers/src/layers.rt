//! The table and the desk of a cache, as the call reaches them that is being stepped.
ghost use Rattle.std.specs.Prelude.{◌≡◌, ◌≢◌, ◌≤◌, ℕ, Option, Some, None, IsSome, IfOk, OnErr};
ghost use Rattle.std.proofs.Common.{refl, ◌∙◌};
ghost use Rattle.moka_layers.specs.Counted.{counted};

use crate::visits::{make_visit, retire};
use moka_desk::Desk;
use moka_hist::{Got, IdList, TableOp, TableTurn, Tests, Visit, Want};
use moka_ids::PcgIds;
use moka_init::{Alone, Ground};
use moka_room::FixedSeed;
use moka_sync::CallList;
use moka_table::Table;
use moka_values::Exact;
use std::alloc::AllocError;
use std::hash::{BuildHasher, Hash};

/// The table, the desk, and the call that reaches them, with the table operation that it has begun;
/// the tests and predicates by which calls judge what they find; and the ids of predicates that are
/// registered. Its desk hashes keys by S.
#[derive(Drop)]
pub struct Layers<K: Eq + Hash, V, E, T, C, Q, S: BuildHasher = FixedSeed> {
    pub table: T,
    pub desk: Desk<K, V, E, S>,
    pub call: u64,
    pub begun: Option<C>,
    pub tests: Q,
    pub ids: PcgIds,
}

impl<
    K: Eq + Hash + Exact,
    V: Exact,
    E: Exact,
    C: Drop,
    T: Table<K, V, Call = C> + Drop,
    Q: Tests<K, V> + Drop,
    S: BuildHasher + Drop,
> Layers<K, V, E, T, C, Q, S> {
    ghost use Rattle.moka_desk.specs.History.{KeepsAsBefore};
    ghost use Rattle.moka_hist.specs.Conditions.{MayVisit};
    ghost use Rattle.moka_hist.specs.State.{World};
    ghost use Rattle.moka_hist.specs.Step.{Access, On_table, On_desk};
    ghost use Rattle.moka_hist.specs.declared.tables.TableOp.{TableOp};
    ghost use Rattle.moka_init.specs.Grounds.{Accesses, Lacks, OfWanted};
    ghost use Rattle.moka_init.specs.Grounds.{still_begun};
    ghost use Rattle.moka_layers.specs.Needing.{NeedsMemory, VisitNeedsMemory};
    ghost use Rattle.moka_layers.specs.Layers.{GroundIs, Allows, Serves, LayersStay, account_of};
    ghost use Rattle.moka_layers.specs.Layers.{Decides, handed_for, most_on, operation_in};
    ghost use Rattle.moka_layers.specs.Visiting.{handed_out};

    // Makes a step of the operation that was begun. It stays begun where it is undecided, or memory
    // was wanting.
    #[inline(always)]
    fn go_on(&mut self, mut call: C) -> Result<Got<K, V, E>, AllocError>
        requires fits { T.fits self.old.table call }
        requires within { T.left self.old.table call ≤ most_on T.Table self.old.table }
        ensures serves { IfOk result (λ given. (o : TableOp K V) → T.operation_of call ≡ Some o
            → Serves K.eq T.Table Q.Tests (record self.old { begun = Some call }) (On_table o) given
            self.new) }
        ensures tells { IfOk result (λ given. (o : TableOp K V) → T.operation_of call ≡ Some o
            → Accesses (account_of T.Table (record self.old { begun = Some call })) (On_table o)
            given (account_of T.Table self.new)) }
        ensures err { OnErr result
            (LayersStay K.eq T.Table Q.Tests (record self.old { begun = Some call }) self.new) }
        ensures err_account { OnErr result (account_of T.Table self.new
            ≡ account_of T.Table (record self.old { begun = Some call })) }
        ensures call { self.new.call ≡ self.old.call }
        ensures kept { KeepsAsBefore self.old.desk self.new.desk }
        ensures decides { IfOk result (λ given. Decides T.Table given self.new) }
    {
        match self.table.step(&mut call) {
            Ok(TableTurn::Going) => {
                self.begun = Some(call);
                Ok(Got::Table(TableTurn::Going))
            }
            Ok(TableTurn::Decided(answer)) => {
                self.begun = None;
                Ok(Got::Table(TableTurn::Decided(answer)))
            }
            Err(e) => {
                self.begun = Some(call);
                Err(e)
            }
        }
    }

    // Begins an operation, with its first step. Without memory none is begun.
    fn begin(&mut self, operation: TableOp<K, V>) -> Result<Got<K, V, E>, AllocError>
        requires none { self.old.begun ≡ None }
        ensures serves { IfOk result (λ given.
            Serves K.eq T.Table Q.Tests self.old (On_table operation) given self.new) }
        ensures tells { IfOk result (λ given. Accesses (account_of T.Table self.old)
            (On_table operation) given (account_of T.Table self.new)) }
        ensures err { OnErr result (LayersStay K.eq T.Table Q.Tests self.old self.new) }
        ensures err_account { OnErr result
            (account_of T.Table self.new ≡ account_of T.Table self.old) }
        ensures call { self.new.call ≡ self.old.call }
        ensures kept { KeepsAsBefore self.old.desk self.new.desk }
        ensures decides { IfOk result (λ given. Decides T.Table given self.new) }
    {
        let call = self.table.begin(operation);
        match self.go_on(call) {
            Ok(given) => Ok(given),
            Err(e) => {
                self.begun = None;
                Err(e)
            }
        }
    }

    // Goes on with the operation that was begun.
    fn resume(&mut self) -> Result<Got<K, V, E>, AllocError>
        requires stands { (w : World K V E) × GroundIs K.eq T.Table Q.Tests self.old w }
        requires begun { IsSome self.old.begun }
        ensures serves { IfOk result (λ given. (o : TableOp K V)
            → operation_in T.Table self.old.begun ≡ Some o
            → Serves K.eq T.Table Q.Tests self.old (On_table o) given self.new) }
        ensures tells { IfOk result (λ given. (o : TableOp K V)
            → operation_in T.Table self.old.begun ≡ Some o
            → Accesses (account_of T.Table self.old) (On_table o) given
            (account_of T.Table self.new)) }
        ensures err { OnErr result (LayersStay K.eq T.Table Q.Tests self.old self.new) }
        ensures err_account { OnErr result
            (account_of T.Table self.new ≡ account_of T.Table self.old) }
        ensures call { self.new.call ≡ self.old.call }
        ensures kept { KeepsAsBefore self.old.desk self.new.desk }
        ensures decides { IfOk result (λ given. Decides T.Table given self.new) }
    {
        match self.begun.take() {
            Some(call) => self.go_on(call),
            None => unreachable!(),
        }
    }

    // Makes a visit. A call that visits the desk has no operation begun.
    fn visit(
        &mut self,
        visit: Visit<K, V, E>,
        woken: &mut Option<CallList>,
    ) -> Result<Got<K, V, E>, AllocError>
        requires may { (w : World K V E) × GroundIs K.eq T.Table Q.Tests self.old w
            × MayVisit w.desk visit }
        requires none { self.old.begun ≡ None }
        ensures serves { IfOk result (λ given.
            Serves K.eq T.Table Q.Tests self.old (On_desk visit) given self.new) }
        ensures tells { IfOk result (λ given. Accesses (account_of T.Table self.old)
            (On_desk visit) given (account_of T.Table self.new)) }
        ensures err { OnErr result (LayersStay K.eq T.Table Q.Tests self.old self.new) }
        ensures err_needs { OnErr result ((w : World K V E)
            → GroundIs K.eq T.Table Q.Tests self.old w → VisitNeedsMemory w.desk visit) }
        ensures err_account { OnErr result
            (account_of T.Table self.new ≡ account_of T.Table self.old) }
        ensures call { self.new.call ≡ self.old.call }
        ensures kept { KeepsAsBefore self.old.desk self.new.desk }
        ensures decides { IfOk result (λ given. Decides T.Table given self.new) }
        ensures woken { IfOk result (λ given.
            woken.new ≡ handed_out self.old.desk visit woken.old) }
    {
        let found = make_visit(&mut self.desk, &self.tests, &mut self.ids, visit, woken)?;
        Ok(Got::Desk(found))
    }

    // Lets the predicates go, for which they are lent.
    fn retire_lent(&mut self, ids: &IdList) -> Got<K, V, E>
        requires may { (w : World K V E) × GroundIs K.eq T.Table Q.Tests self.old w }
        requires none { self.old.begun ≡ None }
        ensures serves { Serves K.eq T.Table Q.Tests self.old (On_desk (Visit.Retire ids.now))
            result self.new }
        ensures tells { Accesses (account_of T.Table self.old) (On_desk (Visit.Retire ids.now))
            result (account_of T.Table self.new) }
        ensures call { self.new.call ≡ self.old.call }
        ensures kept { KeepsAsBefore self.old.desk self.new.desk }
        ensures decides { Decides T.Table result self.new }
    {
        let found = retire(&mut self.desk, ids);
        Got::Desk(found)
    }

    /// Lets these predicates go: makes the visit `Retire`, for which they are lent. It takes no
    /// memory, and hands nobody out.
    pub fn retire(&mut self, ids: &IdList) -> Got<K, V, E>
        requires allows { Allows K.eq T.Table Q.Tests self.old
            (Want.Desk (Visit.Retire ids.now)) }
        // What it gives, and what is told then.
        ensures serves { OfWanted (account_of T.Table self.old) (Want.Desk (Visit.Retire ids.now))
            (λ access. Serves K.eq T.Table Q.Tests self.old access result self.new) }
        ensures tells { OfWanted (account_of T.Table self.old) (Want.Desk (Visit.Retire ids.now))
            (λ access. Accesses (account_of T.Table self.old) access result
            (account_of T.Table self.new)) }
        ensures call { self.new.call ≡ self.old.call }
        ensures kept { KeepsAsBefore self.old.desk self.new.desk }
        ensures decides { Decides T.Table result self.new }
    {
        self.retire_lent(ids)
    }

    /// Makes the wanted access. After want of memory the layers stand for what they stood for.
    /// Whatever is accessed, other calls may go on with what they have begun. Where the table
    /// always decides at once, as the plain one does, each access decides.
    pub fn access(&mut self, want: Want<K, V, E>) -> Result<Got<K, V, E>, AllocError>
        requires allows { Allows K.eq T.Table Q.Tests self.old want }
        // What it gives, and what is told then.
        ensures serves { IfOk result (λ given. OfWanted (account_of T.Table self.old) want
            (λ access. Serves K.eq T.Table Q.Tests self.old access given self.new)) }
        ensures tells { IfOk result (λ given. OfWanted (account_of T.Table self.old) want
            (λ access. Accesses (account_of T.Table self.old) access given
            (account_of T.Table self.new))) }
        ensures call { self.new.call ≡ self.old.call }
        ensures kept { KeepsAsBefore self.old.desk self.new.desk }
        ensures decides { IfOk result (λ given. Decides T.Table given self.new) }
        // Without memory.
        ensures err { OnErr result (LayersStay K.eq T.Table Q.Tests self.old self.new) }
        ensures err_account { OnErr result
            (account_of T.Table self.new ≡ account_of T.Table self.old) }
        ensures err_needs { OnErr result (OfWanted (account_of T.Table self.old) want
            (Lacks (GroundIs K.eq T.Table Q.Tests self.old) NeedsMemory)) }
    {
        let mut woken = None;
        self.access_waking(want, &mut woken)
    }

    /// Makes the access, as `access` does, and leaves in `woken` the calls that its visit hands
    /// out. Where the visit hands nobody out, `woken` is as it was.
    pub fn access_waking(
        &mut self,
        want: Want<K, V, E>,
        woken: &mut Option<CallList>,
    ) -> Result<Got<K, V, E>, AllocError>
        requires allows { Allows K.eq T.Table Q.Tests self.old want }
        // What it gives, and what is told then.
        ensures serves { IfOk result (λ given. OfWanted (account_of T.Table self.old) want
            (λ access. Serves K.eq T.Table Q.Tests self.old access given self.new)) }
        ensures tells { IfOk result (λ given. OfWanted (account_of T.Table self.old) want
            (λ access. Accesses (account_of T.Table self.old) access given
            (account_of T.Table self.new))) }
        ensures call { self.new.call ≡ self.old.call }
        ensures kept { KeepsAsBefore self.old.desk self.new.desk }
        ensures decides { IfOk result (λ given. Decides T.Table given self.new) }
        ensures woken { IfOk result (λ given. OfWanted (account_of T.Table self.old) want
            (λ access. woken.new ≡ handed_for self.old access woken.old)) }
        // Without memory.
        ensures err { OnErr result (LayersStay K.eq T.Table Q.Tests self.old self.new) }
        ensures err_account { OnErr result
            (account_of T.Table self.new ≡ account_of T.Table self.old) }
        ensures err_needs { OnErr result (OfWanted (account_of T.Table self.old) want
            (Lacks (GroundIs K.eq T.Table Q.Tests self.old) NeedsMemory)) }
    {
        match want {
            Want::Begin(operation) => self.begin(operation),
            Want::Table => self.resume(),
            Want::Desk(visit) => self.visit(visit, woken),
        }
    }
}

impl<
    K: Eq + Hash + Exact,
    V: Exact,
    E: Exact,
    C: Drop,
    T: Table<K, V, Call = C> + Drop,
    Q: Tests<K, V> + Drop,
    S: BuildHasher + Drop,
> Ground<K, V, E> for Layers<K, V, E, T, C, Q, S> {
    ghost use Rattle.moka_hist.specs.State.{World};
    ghost use Rattle.moka_init.specs.Grounds.{Accesses, Gives, Lacks, OfWanted};
    ghost use Rattle.moka_layers.specs.Needing.{NeedsMemory};
    ghost use Rattle.moka_layers.specs.Layers.{GroundIs, Allows, account_of};

    ghost stands = { λ l w. GroundIs K.eq T.Table Q.Tests l w };

    ghost fits = { λ l want. Allows K.eq T.Table Q.Tests l want };

    ghost account = { λ l. account_of T.Table l };

    ghost needs = { NeedsMemory };

    ghost keeps = { λ old new. new.call ≡ old.call };

    ghost allows = { λ l w want stands may. (w, stands, may) };

    ghost keeps_same = { λ l. refl };

    ghost keeps_on = { λ a b c before after. after ∙ before };

    ghost counts = { λ l w stands. counted _ _ K.eq l w stands };

    fn access(&mut self, want: Want<K, V, E>) -> Result<Got<K, V, E>, AllocError>
        requires fits { Allows K.eq T.Table Q.Tests self.old want }
        // What it gives, and what is told then.
        ensures gives { IfOk result (λ given. OfWanted (account_of T.Table self.old) want
            (λ access. Gives K.eq self.old.call (GroundIs K.eq T.Table Q.Tests self.old) access
            given (GroundIs K.eq T.Table Q.Tests self.new))) }
        ensures tells { IfOk result (λ given. OfWanted (account_of T.Table self.old) want
            (λ access. Accesses (account_of T.Table self.old) access given
            (account_of T.Table self.new))) }
        ensures keeps { self.new.call ≡ self.old.call }
        // Without memory.
        ensures err { OnErr result
            (account_of T.Table self.new ≡ account_of T.Table self.old) }
        ensures err_stands { OnErr result ((w : World K V E)
            → GroundIs K.eq T.Table Q.Tests self.old w
            → GroundIs K.eq T.Table Q.Tests self.new w) }
        ensures err_needs { OnErr result (OfWanted (account_of T.Table self.old) want
            (Lacks (GroundIs K.eq T.Table Q.Tests self.old) NeedsMemory)) }
    {
        Layers::access(self, want)
    }

    fn retire(&mut self, ids: &IdList) -> Result<Got<K, V, E>, AllocError>
        requires fits { Allows K.eq T.Table Q.Tests self.old (Want.Desk (Visit.Retire ids.now)) }
        // What it gives, and what is told then.
        ensures gives { IfOk result (λ given. OfWanted (account_of T.Table self.old)
            (Want.Desk (Visit.Retire ids.now)) (λ access. Gives K.eq self.old.call
            (GroundIs K.eq T.Table Q.Tests self.old) access given
            (GroundIs K.eq T.Table Q.Tests self.new))) }
        ensures tells { IfOk result (λ given. OfWanted (account_of T.Table self.old)
            (Want.Desk (Visit.Retire ids.now)) (λ access. Accesses (account_of T.Table self.old)
            access given (account_of T.Table self.new))) }
        ensures keeps { self.new.call ≡ self.old.call }
        // Without memory.
        ensures err { OnErr result
            (account_of T.Table self.new ≡ account_of T.Table self.old) }
        ensures err_stands { OnErr result ((w : World K V E)
            → GroundIs K.eq T.Table Q.Tests self.old w
            → GroundIs K.eq T.Table Q.Tests self.new w) }
        ensures err_needs { OnErr result (OfWanted (account_of T.Table self.old)
            (Want.Desk (Visit.Retire ids.now))
            (Lacks (GroundIs K.eq T.Table Q.Tests self.old) NeedsMemory)) }
    {
        Ok(Layers::retire(self, ids))
    }
}

impl<
    K: Eq + Hash + Exact,
    V: Exact,
    E: Exact,
    C: Drop,
    T: Table<K, V, Call = C> + Drop,
    Q: Tests<K, V> + Drop,
    S: BuildHasher + Drop,
> Alone<K, V, E> for Layers<K, V, E, T, C, Q, S> {}
