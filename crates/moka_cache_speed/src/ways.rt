//! The kinds of calls, and the ways in which they are made.

/// A kind of call of a key, and what who is asked gives.
#[derive(Clone, Copy)]
pub(crate) enum Kind {
    Get,
    Insert,
    Remove,
    GetWith,
    /// By a test that holds on no value.
    GetWithIf,
    /// By a test that holds on each value.
    Replacing,
    OptionallyGetWith,
    /// `optionally_get_with`, where there is no value.
    Nothing,
    TryGetWith,
    /// `try_get_with`, by an initializer that fails.
    Failing,
    OrInsert,
    Compute,
    TryCompute,
    /// `and_try_compute_with`, by a compute that fails.
    ComputeFailing,
    Upsert,
}

impl Kind {
    /// Its word.
    pub(crate) fn name(self) -> &'static str {
        match self {
            Kind::Get => "get",
            Kind::Insert => "insert",
            Kind::Remove => "remove",
            Kind::GetWith => "get_with",
            Kind::GetWithIf => "get_with_if",
            Kind::Replacing => "replacing",
            Kind::OptionallyGetWith => "optionally_get_with",
            Kind::Nothing => "nothing",
            Kind::TryGetWith => "try_get_with",
            Kind::Failing => "failing",
            Kind::OrInsert => "or_insert",
            Kind::Compute => "compute",
            Kind::TryCompute => "try_compute",
            Kind::ComputeFailing => "compute_failing",
            Kind::Upsert => "upsert",
        }
    }

    /// Whether who is asked fails or finds nothing, or a replace test holds.
    pub(crate) fn is_otherwise(self) -> bool {
        matches!(
            self,
            Kind::Replacing | Kind::Nothing | Kind::Failing | Kind::ComputeFailing
        )
    }
}

/// How a call is made.
#[derive(Clone, Copy)]
pub(crate) enum Way {
    /// To its end, all by one task, but for loads by a test.
    Once,
    /// To its end, as a task of its own.
    Apart,
    /// Beside a second one of its key, in one task; who is asked pends first.
    Twice,
    /// To its end, and then its key is taken out.
    Taken,
    /// Polled once, where who is asked pends, and dropped.
    Dropped,
}

/// Each of them.
pub(crate) const WAYS: [Way; 5] = [Way::Once, Way::Apart, Way::Twice, Way::Taken, Way::Dropped];

impl Way {
    /// Its word.
    pub(crate) fn name(self) -> &'static str {
        match self {
            Way::Once => "once",
            Way::Apart => "apart",
            Way::Twice => "twice",
            Way::Taken => "taken",
            Way::Dropped => "dropped",
        }
    }

    /// Whether who is asked pends first.
    pub(crate) fn pends(self) -> bool {
        matches!(self, Way::Twice | Way::Dropped)
    }
}
