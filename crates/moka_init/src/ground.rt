//! What a flow stands on: a table and a desk, on which it makes one access a step.
ghost use Rattle.std.specs.Prelude.{◌≡◌, IfOk, OnErr};
ghost use Rattle.moka_hist.specs.State.{World};
ghost use Rattle.moka_hist.specs.Step.{Access};
ghost use Rattle.moka_hist.specs.declared.accesses.Want.{Want};
ghost use Rattle.moka_bound.specs.Falling.{Counts};
ghost use Rattle.moka_init.specs.Grounds.{Account, Accesses, Gives, Lacks, OfWanted, MayWant};

use moka_hist::{Got, IdList, Visit, Want};
use moka_values::Exact;
use std::alloc::AllocError;

/// A table and a desk, as one call reaches them.
pub trait Ground<K: Eq + Exact, V: Exact, E: Exact> {
    /// The worlds that it stands for. A ground on which others may make accesses meanwhile may
    /// stand for none, and still tell those of its call.
    ghost stands: { Self → World K V E → Type 0 };

    /// The wants that fit it: those that it serves. Where it stands for worlds, what one of them
    /// allows fits.
    ghost fits: { Self → Want K V E → Type 0 };

    /// What it tells of itself: whose it is, what is begun there, and which accesses were made.
    ghost account: { Self → Account K V E };

    /// The accesses for which memory may be wanting there, in such a world.
    ghost needs: { World K V E → Access K V E → Type 0 };

    /// What stays of it, whatever its call accesses there.
    ghost keeps: { Self → Self → Type 0 };

    /// Makes the wanted access, and no other. After want of memory nothing has changed.
    /// Precondition: the want fits.
    fn access(&mut self, want: Want<K, V, E>) -> Result<Got<K, V, E>, AllocError>
        requires fits { fits self.old want }
        // What it gives, and what is told then.
        ensures gives { IfOk result (λ given. OfWanted (account self.old) want (λ access.
            Gives K.eq (account self.old).call (stands self.old) access given (stands self.new))) }
        ensures tells { IfOk result (λ given. OfWanted (account self.old) want (λ access.
            Accesses (account self.old) access given (account self.new))) }
        ensures keeps { keeps self.old self.new }
        // Without memory.
        ensures err { OnErr result (account self.new ≡ account self.old) }
        ensures err_stands { OnErr result ((w : World K V E) → stands self.old w
            → stands self.new w) }
        ensures err_needs { OnErr result
            (OfWanted (account self.old) want (Lacks (stands self.old) needs)) };

    /// Lets these predicates go, and makes no other access: it is the visit `Retire`, for which they
    /// are lent, since that takes no memory. After want of memory nothing has changed. Precondition:
    /// the visit fits.
    fn retire(&mut self, ids: &IdList) -> Result<Got<K, V, E>, AllocError>
        requires fits { fits self.old (Want.Desk (Visit.Retire ids.now)) }
        // What it gives, and what is told then.
        ensures gives { IfOk result (λ given. OfWanted (account self.old)
            (Want.Desk (Visit.Retire ids.now)) (λ access.
            Gives K.eq (account self.old).call (stands self.old) access given (stands self.new))) }
        ensures tells { IfOk result (λ given. OfWanted (account self.old)
            (Want.Desk (Visit.Retire ids.now)) (λ access.
            Accesses (account self.old) access given (account self.new))) }
        ensures keeps { keeps self.old self.new }
        // Without memory.
        ensures err { OnErr result (account self.new ≡ account self.old) }
        ensures err_stands { OnErr result ((w : World K V E) → stands self.old w
            → stands self.new w) }
        ensures err_needs { OnErr result (OfWanted (account self.old)
            (Want.Desk (Visit.Retire ids.now)) (Lacks (stands self.old) needs)) };

    /// What a world allows that it stands for fits.
    ghost allows: { (g : Self) (w : World K V E) (want : Want K V E) → stands g w
        → MayWant w (account g).begun want → fits g want };

    /// What stays of it stays from access to access.
    ghost keeps_same: { (g : Self) → keeps g g };

    ghost keeps_on: { (a b c : Self) → keeps a b → keeps b c → keeps a c };

    /// It tells how many writes such a world owes and has logged, and whether the owner has ended
    /// there that its call waits for.
    ghost counts: { (g : Self) (w : World K V E) → stands g w
        → Counts (account g).call w (account g).work };
}

/// A ground that nobody else changes while it is lent: what it stands for stays until its next
/// access.
pub trait Alone<K: Eq + Exact, V: Exact, E: Exact>: Ground<K, V, E> {}
