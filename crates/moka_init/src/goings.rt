//! Single steps of a flow, and steps up to the first turn that isn't Going.
ghost use Rattle.std.specs.Prelude.{◌≡◌, ◌<◌, ℕ, true, List, Some, IfOk, IfErr, OnOk, OnErr};
ghost use Rattle.moka_hist.specs.State.{World};
ghost use Rattle.moka_hist.specs.Step.{IsSafe, May};
ghost use Rattle.moka_init.specs.FlowPlan.{call_of, next_in, retires_in};
ghost use Rattle.moka_init.specs.FlowPlan.{IsLive, Leaves, StandsStill};
ghost use Rattle.moka_init.specs.Grounds.{Accesses, Gives, IsOn, access_at, wish_of};
ghost use Rattle.moka_init.specs.Steps.{MovesThere, PolledThere, MayLack, Unended, Nears};
ghost use Rattle.moka_init.specs.Telling.{Made, TellsPoll, TellsStep};
ghost use Rattle.moka_init.specs.declared.points.Maintenance.{Maintenance};
ghost use Rattle.moka_init.specs.declared.points.Point.{Point};

use crate::flow::Flow;
use crate::ground::{Alone, Ground};
use moka_hist::{Answer, Got, Turn};
use moka_values::Exact;
use std::alloc::AllocError;

/// Makes one step: exactly the access that the flow wants. After want of memory flow and ground are
/// as before. Precondition: the flow has not answered, and the ground is that of its call, and
/// serves what it wants.
pub fn step<K: Eq + Exact, V: Exact, E: Exact, G: Ground<K, V, E>>(
    flow: &mut Flow<K, V, E>,
    ground: &mut G,
) -> Result<Turn<K, V, E>, AllocError>
    requires live { IsLive flow.old }
    requires on { IsOn (G.account ground.old) flow.old }
    requires fits { G.fits ground.old (wish_of flow.old) }
    // The step, and the one access that is told of it.
    ensures moves { IfOk result (λ turn. MovesThere K.eq (G.stands ground.old) flow.old
        (next_in turn flow.new) (G.stands ground.new)) }
    ensures tells { IfOk result (λ turn. (before : List (Made K V E))
        → (G.account ground.old).made ≡ Some before
        → TellsStep flow.old.call (call_of flow.old) (next_in turn flow.new) before
        (G.account ground.new).made) }
    // Where the flow is then. One that has answered has nothing left.
    ensures leaves { IfOk result (λ turn. Leaves turn flow.new) }
    ensures nears { IfOk result (λ turn. turn ≡ Turn.Going → Nears (G.stands ground.old)
        (G.account ground.old) flow.old (G.account ground.new) flow.new) }
    ensures on { OnOk result (IsOn (G.account ground.new) flow.new) }
    ensures number { flow.new.call ≡ flow.old.call }
    ensures keeps { G.keeps ground.old ground.new }
    // Without memory.
    ensures err { OnErr result (StandsStill flow.old flow.new) }
    ensures err_needs { OnErr result ((w : World K V E) → G.stands ground.old w
        → May w (access_at flow.old) → MayLack G.needs w flow.old) }
    ensures err_stands { OnErr result ((w : World K V E) → G.stands ground.old w
        → G.stands ground.new w) }
    ensures err_account { OnErr result (G.account ground.new ≡ G.account ground.old) }
{
    if flow.leaves() {
        leave(flow, ground)?;
        return Ok(Turn::Answer(Answer::Done));
    }
    let want = flow.want()?;
    let given = ground.access(want)?;
    Ok(flow.take(given))
}

// Makes the step by which predicates leave, which is answered.
#[cold]
#[inline(never)]
fn leave<K: Eq + Exact, V: Exact, E: Exact, G: Ground<K, V, E>>(
    flow: &mut Flow<K, V, E>,
    ground: &mut G,
) -> Result<(), AllocError>
    requires on { IsOn (G.account ground.old) flow.old }
    requires fits { G.fits ground.old (wish_of flow.old) }
    requires leaves { retires_in (call_of flow.old).plan ≡ true }
    // The step, and the one access that is told of it.
    ensures moves { OnOk result (MovesThere K.eq (G.stands ground.old) flow.old
        (next_in (Turn.Answer Answer.Done) flow.new) (G.stands ground.new)) }
    ensures tells { OnOk result ((before : List (Made K V E))
        → (G.account ground.old).made ≡ Some before
        → TellsStep flow.old.call (call_of flow.old) (next_in (Turn.Answer Answer.Done) flow.new)
        before (G.account ground.new).made) }
    // Where the flow is then.
    ensures leaves { OnOk result (Leaves (Turn.Answer Answer.Done) flow.new) }
    ensures on { OnOk result (IsOn (G.account ground.new) flow.new) }
    ensures number { flow.new.call ≡ flow.old.call }
    ensures keeps { G.keeps ground.old ground.new }
    // Without memory.
    ensures err { OnErr result (StandsStill flow.old flow.new) }
    ensures err_needs { OnErr result ((w : World K V E) → G.stands ground.old w
        → May w (access_at flow.old) → MayLack G.needs w flow.old) }
    ensures err_stands { OnErr result ((w : World K V E) → G.stands ground.old w
        → G.stands ground.new w) }
    ensures err_account { OnErr result (G.account ground.new ≡ G.account ground.old) }
{
    drop(lend(flow, ground)?);
    flow.retires();
    Ok(())
}

// Makes the access by which predicates leave: they are lent to the ground.
fn lend<K: Eq + Exact, V: Exact, E: Exact, G: Ground<K, V, E>>(
    flow: &Flow<K, V, E>,
    ground: &mut G,
) -> Result<Got<K, V, E>, AllocError>
    requires on { IsOn (G.account ground.old) flow.now }
    requires fits { G.fits ground.old (wish_of flow.now) }
    requires leaves { retires_in (call_of flow.now).plan ≡ true }
    // Where the flow stands.
    ensures there { OnOk result ((ids : List (ℕ × ℕ))
        × (flow.now.point ≡ Point.Maintaining (Maintenance.Retire ids))) }
    // What the access gives, and what is told then.
    ensures gives { IfOk result (λ given. Gives K.eq flow.now.call (G.stands ground.old)
        (access_at flow.now) given (G.stands ground.new)) }
    ensures tells { IfOk result (λ given. Accesses (G.account ground.old) (access_at flow.now)
        given (G.account ground.new)) }
    ensures keeps { G.keeps ground.old ground.new }
    // Without memory.
    ensures err_needs { OnErr result ((w : World K V E) → G.stands ground.old w
        → May w (access_at flow.now) → MayLack G.needs w flow.now) }
    ensures err_stands { OnErr result ((w : World K V E) → G.stands ground.old w
        → G.stands ground.new w) }
    ensures err_account { OnErr result (G.account ground.new ≡ G.account ground.old) }
{
    match flow.leaving() {
        Some(ids) => ground.retire(ids),
        None => unreachable!(),
    }
}

/// Memory was wanting in a poll, after this many steps, each of which left the call going. The
/// greatest number stands for all that are greater.
#[derive(Clone, Copy, PartialEq, Eq, Debug)]
pub struct Unfinished {
    pub steps: u64,
}

/// Makes steps up to the first turn that isn't Going. After want of memory the steps made so far
/// stand. Precondition: the flow has not answered; the ground is that of its call, and has what
/// each of its steps needs, as long as it goes on; and its log has room for a write once it is
/// empty, without which a write would never be posted.
pub fn poll<K: Eq + Exact, V: Exact, E: Exact, G: Alone<K, V, E>>(
    flow: &mut Flow<K, V, E>,
    ground: &mut G,
) -> Result<Turn<K, V, E>, Unfinished>
    requires live { IsLive flow.old }
    requires on { IsOn (G.account ground.old) flow.old }
    requires safe { (w : World K V E) × G.stands ground.old w
        × IsSafe K.eq flow.old.call (call_of flow.old) w × (0 < w.desk.size) }
    // The steps, and what is told of them.
    ensures polls { IfOk result (λ turn. PolledThere K.eq (G.stands ground.old) flow.old
        (next_in turn flow.new) (G.stands ground.new)) }
    ensures tells { IfOk result (λ turn. (before : List (Made K V E))
        → (G.account ground.old).made ≡ Some before
        → TellsPoll flow.old.call (call_of flow.old) (next_in turn flow.new) before
        (G.account ground.new).made) }
    // Where the flow is then. One that has answered has nothing left.
    ensures leaves { IfOk result (λ turn. Leaves turn flow.new) }
    ensures on { IsOn (G.account ground.new) flow.new }
    ensures number { flow.new.call ≡ flow.old.call }
    ensures keeps { G.keeps ground.old ground.new }
    // Without memory.
    ensures unfinished { IfErr result (λ u. Unended K.eq u.steps (G.stands ground.old)
        (G.account ground.old) flow.old flow.new (G.stands ground.new) (G.account ground.new)
        G.needs) }
    ensures live { OnErr result (IsLive flow.new) }
{
    let mut steps: u64 = 0;
    loop {
        let turn = match step(flow, ground) {
            Ok(turn) => turn,
            Err(_) => return Err(Unfinished { steps }),
        };
        if !turn.is_going() {
            return Ok(turn);
        }
        drop(turn);
        steps = steps.saturating_add(1);
    }
}
