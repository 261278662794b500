//! The desks that these tests begin with. A test lets its desk go by `drop`, and does what it does on
//! it in a function that borrows it: where a desk goes out of scope, the proof looks at all its parts.

ghost use Rattle.std.specs.Prelude.{IfOk};
ghost use Rattle.moka_desk_cases.specs.Rests.{IsNew};

use moka_desk::Desk;
use moka_hist::Rules;
use std::alloc::{AllocError, Global};

/// Rules with a listener and this capacity.
pub(crate) fn rules_with(max_capacity: Option<u64>) -> Rules {
    Rules {
        max_capacity,
        time_to_live: None,
        time_to_idle: None,
        listener: true,
        closures: false,
    }
}

/// A desk by these rules with a log of four writes, where nothing has happened.
pub(crate) fn new_desk(alloc: Global, rules: Rules) -> Result<Desk<u32, u32, u32>, AllocError>
    ensures { IfOk result (λ desk. IsNew desk) }
{
    Desk::new(alloc, rules, 4)
}
