//! Steps and polls on a ground that is simple enough to be true: nothing is stored, and no write is
//! owed. It keeps the list of its accesses. They show that the conditions of a poll can be met,
//! that a step makes exactly one access, and that a poll tells them all and ends at the first turn
//! that isn't Going.
ghost use Rattle.std.specs.Prelude.{◌≡◌, ◌≤◌, Some, None, IfOk, OnOk, OnErr};
ghost use Rattle.std.proofs.Common.{refl};
ghost use Rattle.moka_desk_cases.specs.EmptyCache.{NotesOne, NotesPoll};

use crate::flows::given::RULES;
use moka_hist::{
    Answer, Found, Got, IdList, Start, TableAnswer, TableOp, TableTurn, Turn, Visit, Want,
};
use moka_init::{Alone, Flow, Ground, Unfinished, poll, step};
use moka_values::Exact;
use std::alloc::{AllocError, Global};

// An empty cache, for the looks of one call alone. Any other access is refused.
#[derive(Drop)]
struct Bare<K, V, E> {
    call: u64,
    // How many steps of a look stay undecided.
    undecided: u8,
    // How many accesses find memory.
    memory: u64,
    begun: Option<TableOp<K, V>>,
    // The accesses so far, each as it was first wanted, with what it gave.
    notes: Vec<(Want<K, V, E>, Got<K, V, E>)>,
    ghost few: { undecided ≤ 255 },
}

impl<K: Eq + Exact, V: Exact, E: Exact> Bare<K, V, E> {
    ghost use Rattle.moka_hist.specs.Step.{Access, On_table, On_desk};
    ghost use Rattle.moka_hist.specs.declared.accesses.Want.{Want};
    ghost use Rattle.moka_hist.specs.declared.tables.TableOp.{TableOp};
    ghost use Rattle.moka_desk_cases.specs.EmptyCache.{AsBefore, BareGives, BareServes, bare_account};
    ghost use Rattle.moka_init.specs.Grounds.{Accesses, wanted};

    // A step of the look for the key, which is noted. Without memory nothing has changed.
    #[tactic(auto, using(crate::proofs::EmptyCache::looked_bare))]
    fn look(&mut self, key: K, again: K) -> Result<Got<K, V, E>, AllocError>
        requires same { again ≡ key }
        ensures serves { IfOk result (λ given. BareServes K.eq self.old.notes.items
            self.old.undecided (On_table (TableOp.Get key)) (Want.Begin (TableOp.Get key)) given
            self.new.begun self.new.notes.items self.new.undecided) }
        ensures call { self.new.call ≡ self.old.call }
        ensures err { OnErr result (AsBefore self.old.begun self.old.notes.items
            self.old.undecided self.new.begun self.new.notes.items self.new.undecided) }
    {
        let wanted = Want::Begin(TableOp::Get { key: again });
        if self.undecided == 0 {
            let given = Got::Table(TableTurn::Decided(TableAnswer::None));
            self.notes.push((wanted, given))?;
            self.begun = None;
            return Ok(Got::Table(TableTurn::Decided(TableAnswer::None)));
        }
        self.notes.push((wanted, Got::Table(TableTurn::Going)))?;
        self.undecided -= 1;
        self.begun = Some(TableOp::Get { key });
        Ok(Got::Table(TableTurn::Going))
    }

    // Begins a look.
    fn begin(&mut self, key: K) -> Result<Got<K, V, E>, AllocError>
        ensures serves { IfOk result (λ given. BareServes K.eq self.old.notes.items
            self.old.undecided (On_table (TableOp.Get key)) (Want.Begin (TableOp.Get key)) given
            self.new.begun self.new.notes.items self.new.undecided) }
        ensures call { self.new.call ≡ self.old.call }
        ensures err { OnErr result (AsBefore self.old.begun self.old.notes.items
            self.old.undecided self.new.begun self.new.notes.items self.new.undecided) }
    {
        let again = key.clone()?;
        self.look(key, again)
    }

    // A further step of the look that was begun.
    fn resume(&mut self) -> Result<Got<K, V, E>, AllocError>
        ensures serves { IfOk result (λ given. (o : TableOp K V) → self.old.begun ≡ Some o
            → BareServes K.eq self.old.notes.items self.old.undecided (On_table o)
            (Want.Begin o) given self.new.begun self.new.notes.items self.new.undecided) }
        ensures call { self.new.call ≡ self.old.call }
        ensures err { OnErr result (AsBefore self.old.begun self.old.notes.items
            self.old.undecided self.new.begun self.new.notes.items self.new.undecided) }
    {
        match &self.begun {
            Some(TableOp::Get { key }) => {
                let key = key.clone()?;
                self.begin(key)
            }
            _ => Err(AllocError),
        }
    }

    // Nothing is owed, which is noted.
    #[tactic(auto, using(crate::proofs::EmptyCache::owes_bare))]
    fn take_owed(&mut self, call: u64) -> Result<Got<K, V, E>, AllocError>
        ensures serves { IfOk result (λ given. BareServes K.eq self.old.notes.items
            self.old.undecided (On_desk (Visit.TakeOwed call)) (Want.Desk (Visit.TakeOwed call))
            given self.new.begun self.new.notes.items self.new.undecided) }
        ensures call { self.new.call ≡ self.old.call }
        ensures err { OnErr result (AsBefore self.old.begun self.old.notes.items
            self.old.undecided self.new.begun self.new.notes.items self.new.undecided) }
    {
        let wanted = Want::Desk(Visit::TakeOwed { call });
        self.notes.push((wanted, Got::Desk(Found::TakeOwed(None))))?;
        self.begun = None;
        Ok(Got::Desk(Found::TakeOwed(None)))
    }

    // Serves what is wanted: a look, or what is owed.
    fn give(&mut self, want: Want<K, V, E>) -> Result<Got<K, V, E>, AllocError>
        ensures serves { IfOk result (λ given. (access : Access K V E)
            → wanted self.old.begun want ≡ Some access → (wish : Want K V E)
            × BareServes K.eq self.old.notes.items self.old.undecided access wish given
            self.new.begun self.new.notes.items self.new.undecided) }
        ensures call { self.new.call ≡ self.old.call }
        ensures err { OnErr result (AsBefore self.old.begun self.old.notes.items
            self.old.undecided self.new.begun self.new.notes.items self.new.undecided) }
    {
        match want {
            Want::Begin(TableOp::Get { key }) => self.begin(key),
            Want::Table => self.resume(),
            Want::Desk(Visit::TakeOwed { call }) => self.take_owed(call),
            other => {
                drop(other);
                Err(AllocError)
            }
        }
    }

    // Serves what is wanted, where memory is left for it: a look, or what is owed.
    fn serve(&mut self, want: Want<K, V, E>) -> Result<Got<K, V, E>, AllocError>
        ensures gives { IfOk result (λ given. (access : Access K V E)
            → wanted self.old.begun want ≡ Some access
            → BareGives K.eq self.old.undecided access given self.new.undecided) }
        ensures tells { IfOk result (λ given. (access : Access K V E)
            → wanted self.old.begun want ≡ Some access → Accesses
            (bare_account self.old.call self.old.begun self.old.notes.items self.old.undecided)
            access given
            (bare_account self.new.call self.new.begun self.new.notes.items self.new.undecided)) }
        ensures err { OnErr result
            (bare_account self.new.call self.new.begun self.new.notes.items self.new.undecided
            ≡ bare_account self.old.call self.old.begun self.old.notes.items self.old.undecided) }
        ensures err_left { OnErr result (self.new.undecided ≡ self.old.undecided) }
    {
        if self.memory == 0 {
            drop(want);
            return Err(AllocError);
        }
        self.memory -= 1;
        self.give(want)
    }
}

impl<K: Eq + Exact, V: Exact, E: Exact> Ground<K, V, E> for Bare<K, V, E> {
    ghost use Rattle.moka_hist.specs.State.{World};
    ghost use Rattle.moka_desk_cases.specs.EmptyCache.{BareAllows, IsBare, bare_account, bare_counts};
    ghost use Rattle.moka_init.specs.Grounds.{Accesses, Gives, Lacks, OfWanted, any_access};

    ghost stands = { λ g w. IsBare g.undecided w };

    ghost fits = { λ g want. BareAllows g.undecided g.begun want };

    ghost account = { λ g. bare_account g.call g.begun g.notes.items g.undecided };

    ghost needs = { any_access };

    ghost keeps = { λ old new. new.call ≡ new.call };

    ghost allows = { λ g w want stands may. (w, stands, may) };

    ghost keeps_same = { λ g. refl };

    ghost keeps_on = { λ a b c before after. refl };

    ghost counts = { λ g w stands. bare_counts g.call g.undecided w stands };

    fn access(&mut self, want: Want<K, V, E>) -> Result<Got<K, V, E>, AllocError>
        requires fits { BareAllows self.old.undecided self.old.begun want }
        ensures gives { IfOk result (λ given. OfWanted
            (bare_account self.old.call self.old.begun self.old.notes.items self.old.undecided) want
            (λ access. Gives K.eq self.old.call (IsBare self.old.undecided) access given
            (IsBare self.new.undecided))) }
        ensures tells { IfOk result (λ given. OfWanted
            (bare_account self.old.call self.old.begun self.old.notes.items self.old.undecided) want
            (λ access. Accesses
            (bare_account self.old.call self.old.begun self.old.notes.items self.old.undecided)
            access given
            (bare_account self.new.call self.new.begun self.new.notes.items self.new.undecided))) }
        ensures keeps { self.new.call ≡ self.new.call }
        ensures err { OnErr result
            (bare_account self.new.call self.new.begun self.new.notes.items self.new.undecided
            ≡ bare_account self.old.call self.old.begun self.old.notes.items self.old.undecided) }
        ensures err_stands { OnErr result ((w : World K V E) → IsBare self.old.undecided w
            → IsBare self.new.undecided w) }
        ensures err_needs { OnErr result (OfWanted
            (bare_account self.old.call self.old.begun self.old.notes.items self.old.undecided) want
            (Lacks (IsBare self.old.undecided) any_access)) }
    {
        self.serve(want)
    }

    // No predicate is registered there.
    fn retire(&mut self, ids: &IdList) -> Result<Got<K, V, E>, AllocError>
        requires fits { BareAllows {E = E} self.old.undecided self.old.begun
            (Want.Desk (Visit.Retire ids.now)) }
        ensures gives { IfOk result (λ given. OfWanted
            (bare_account self.old.call self.old.begun self.old.notes.items self.old.undecided)
            (Want.Desk (Visit.Retire ids.now))
            (λ access. Gives K.eq self.old.call (IsBare self.old.undecided) access given
            (IsBare self.new.undecided))) }
        ensures tells { IfOk result (λ given. OfWanted
            (bare_account self.old.call self.old.begun self.old.notes.items self.old.undecided)
            (Want.Desk (Visit.Retire ids.now))
            (λ access. Accesses
            (bare_account self.old.call self.old.begun self.old.notes.items self.old.undecided)
            access given
            (bare_account self.new.call self.new.begun self.new.notes.items self.new.undecided))) }
        ensures keeps { self.new.call ≡ self.new.call }
        ensures err { OnErr result
            (bare_account self.new.call self.new.begun self.new.notes.items self.new.undecided
            ≡ bare_account self.old.call self.old.begun self.old.notes.items self.old.undecided) }
        ensures err_stands { OnErr result ((w : World K V E) → IsBare self.old.undecided w
            → IsBare self.new.undecided w) }
        ensures err_needs { OnErr result (OfWanted
            (bare_account self.old.call self.old.begun self.old.notes.items self.old.undecided)
            (Want.Desk (Visit.Retire ids.now)) (Lacks (IsBare self.old.undecided) any_access)) }
    {
        Err(AllocError)
    }
}

impl<K: Eq + Exact, V: Exact, E: Exact> Alone<K, V, E> for Bare<K, V, E> {}

// A bare ground on which others may make accesses meanwhile: it stands for no world, and tells its
// call's accesses.
#[derive(Drop)]
struct Shared<K, V, E> {
    bare: Bare<K, V, E>,
}

impl<K: Eq + Exact, V: Exact, E: Exact> Ground<K, V, E> for Shared<K, V, E> {
    ghost use Rattle.moka_hist.specs.State.{World};
    ghost use Rattle.moka_desk_cases.specs.EmptyCache.{AnyWant, NoWorld, bare_account};
    ghost use Rattle.moka_init.specs.Grounds.{Accesses, Gives, Lacks, OfWanted, any_access};

    ghost stands = { λ g w. NoWorld w };

    ghost fits = { λ g want. AnyWant want };

    ghost account = { λ g.
        bare_account g.bare.call g.bare.begun g.bare.notes.items g.bare.undecided };

    ghost needs = { any_access };

    ghost keeps = { λ old new. new.bare.call ≡ new.bare.call };

    ghost allows = { λ g w want stands may. tt };

    ghost keeps_same = { λ g. refl };

    ghost keeps_on = { λ a b c before after. refl };

    ghost counts = { λ g w stands. absurd stands };

    fn access(&mut self, want: Want<K, V, E>) -> Result<Got<K, V, E>, AllocError>
        requires fits { AnyWant want }
        ensures gives { IfOk result (λ given. OfWanted (bare_account self.old.bare.call
            self.old.bare.begun self.old.bare.notes.items self.old.bare.undecided) want
            (λ access. Gives K.eq self.old.bare.call NoWorld access given NoWorld)) }
        ensures tells { IfOk result (λ given. OfWanted (bare_account self.old.bare.call
            self.old.bare.begun self.old.bare.notes.items self.old.bare.undecided) want
            (λ access. Accesses (bare_account self.old.bare.call
            self.old.bare.begun self.old.bare.notes.items self.old.bare.undecided) access given
            (bare_account self.new.bare.call
            self.new.bare.begun self.new.bare.notes.items self.new.bare.undecided))) }
        ensures keeps { self.new.bare.call ≡ self.new.bare.call }
        ensures err { OnErr result (bare_account self.new.bare.call
            self.new.bare.begun self.new.bare.notes.items self.new.bare.undecided
            ≡ bare_account self.old.bare.call
            self.old.bare.begun self.old.bare.notes.items self.old.bare.undecided) }
        ensures err_stands { OnErr result ((w : World K V E) → NoWorld w → NoWorld w) }
        ensures err_needs { OnErr result (OfWanted (bare_account self.old.bare.call
            self.old.bare.begun self.old.bare.notes.items self.old.bare.undecided) want
            (Lacks NoWorld any_access)) }
    {
        self.bare.serve(want)
    }

    fn retire(&mut self, ids: &IdList) -> Result<Got<K, V, E>, AllocError>
        requires fits { AnyWant {K = K} {V = V} {E = E} (Want.Desk (Visit.Retire ids.now)) }
        ensures gives { IfOk result (λ given. OfWanted (bare_account self.old.bare.call
            self.old.bare.begun self.old.bare.notes.items self.old.bare.undecided)
            (Want.Desk (Visit.Retire ids.now))
            (λ access. Gives K.eq self.old.bare.call NoWorld access given NoWorld)) }
        ensures tells { IfOk result (λ given. OfWanted (bare_account self.old.bare.call
            self.old.bare.begun self.old.bare.notes.items self.old.bare.undecided)
            (Want.Desk (Visit.Retire ids.now))
            (λ access. Accesses (bare_account self.old.bare.call
            self.old.bare.begun self.old.bare.notes.items self.old.bare.undecided) access given
            (bare_account self.new.bare.call
            self.new.bare.begun self.new.bare.notes.items self.new.bare.undecided))) }
        ensures keeps { self.new.bare.call ≡ self.new.bare.call }
        ensures err { OnErr result (bare_account self.new.bare.call
            self.new.bare.begun self.new.bare.notes.items self.new.bare.undecided
            ≡ bare_account self.old.bare.call
            self.old.bare.begun self.old.bare.notes.items self.old.bare.undecided) }
        ensures err_stands { OnErr result ((w : World K V E) → NoWorld w → NoWorld w) }
        ensures err_needs { OnErr result (OfWanted (bare_account self.old.bare.call
            self.old.bare.begun self.old.bare.notes.items self.old.bare.undecided)
            (Want.Desk (Visit.Retire ids.now)) (Lacks NoWorld any_access)) }
    {
        Err(AllocError)
    }
}

// Makes the first step of a get where others may make accesses meanwhile: just one access is noted.
fn step_get<K: Eq + Exact, V: Exact, E: Exact>(
    key: K,
    ground: &mut Shared<K, V, E>,
) -> Result<Turn<K, V, E>, AllocError>
    requires call { ground.old.bare.call ≡ 1 }
    requires begun { ground.old.bare.begun ≡ None }
    ensures { OnOk result
        (NotesOne ground.old.bare.notes.items ground.new.bare.notes.items) }
{
    let mut flow = Flow::new(Start::Get { key }, 1, RULES, 1);
    let stepped = step(&mut flow, ground);
    drop(flow);
    stepped
}

// Polls a fresh get on an empty cache: each access is noted, and nothing else.
fn poll_get<K: Eq + Exact, V: Exact, E: Exact>(
    key: K,
    ground: &mut Bare<K, V, E>,
) -> Result<Turn<K, V, E>, Unfinished>
    requires call { ground.old.call ≡ 1 }
    requires begun { ground.old.begun ≡ None }
    ensures { OnOk result (NotesPoll key ground.old.notes.items ground.new.notes.items) }
{
    let mut flow = Flow::new(Start::Get { key }, 1, RULES, 1);
    let polled = poll(&mut flow, ground);
    drop(flow);
    polled
}

// Whether a poll on such a cache found nothing, or ended so far before want of memory; and whether
// so many accesses were noted.
fn is_polled(
    alloc: Global,
    undecided: u8,
    memory: u64,
    noted: usize,
    wanting: Option<u64>,
) -> bool {
    let mut ground = empty(alloc, undecided, memory);
    let polled = poll_get(3, &mut ground);
    let is_noted = ground.notes.len() == noted;
    drop(ground);
    let ended = match &polled {
        Ok(turn) => wanting.is_none() && matches!(turn, Turn::Answer(Answer::Found(None))),
        Err(unfinished) => wanting == Some(unfinished.steps),
    };
    drop(polled);
    is_noted && ended
}

#[test]
fn a_poll_makes_one_access_a_step_and_ends_with_the_answer(rt: HostRuntime) {
    // Undecided steps, accesses that find memory, how many are noted, and the steps of a poll that
    // found none.
    let cases = [
        (0, 9, 2, None),
        (3, 9, 5, None),
        (3, 2, 2, Some(2)),
        (0, 0, 0, Some(0)),
    ];
    for (undecided, memory, noted, wanting) in cases {
        let is_so = is_polled(rt.alloc(), undecided, memory, noted, wanting);
        assert!(rt;
            is_so,
            "with {undecided} undecided steps, memory for {memory}"
        );
    }
}

#[test]
fn a_step_makes_one_access_where_no_world_is_at_hand(rt: HostRuntime) {
    let mut ground = Shared {
        bare: empty(rt.alloc(), 3, 9),
    };
    let stepped = step_get(3, &mut ground);
    let noted = ground.bare.notes.len();
    drop(ground);
    let goes = matches!(&stepped, Ok(Turn::Going));
    drop(stepped);
    assert!(rt; goes && noted == 1);
}

// An empty cache for the call 1.
fn empty(alloc: Global, undecided: u8, memory: u64) -> Bare<u32, u32, u32>
    ensures call { result.call ≡ 1 }
    ensures begun { result.begun ≡ None }
{
    Bare {
        call: 1,
        undecided,
        memory,
        begun: None,
        notes: Vec::new(alloc),
    }
}
