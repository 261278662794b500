//! What a load comes to: a value, an error, nothing, or that its call gave up.

ghost use Rattle.moka_laws.specs.Loads.{AbortsAreCounted, AnswersFit, ErrorByCause, ExhaustedAtLast, NothingByCause, OpenedByOwners, OwnEndsAreTold, OwnersAnswerSettled, SettlementsFit, TestsAreTwo};
ghost use Rattle.moka_laws.specs.Shapes.{ShapesFit};

/// The owner of a load answers what it settles, by the step that ends its ownership: a value, an
/// error or nothing. The owner of a compute ends it with nothing, and answers what it did.
pub fn owners_answer_settled<K: Eq, V, E>()
    ensures answers { OwnersAnswerSettled K V E K.eq }
{}

/// On a reached state a step answers nothing exactly where its call reads that its owner found
/// nothing, or ends its own load so.
pub fn nothing_by_cause<K: Eq, V, E>()
    ensures caused { NothingByCause K V E K.eq }
{}

/// On a reached state a step answers an error exactly where its call reads that its owner failed
/// with that error, or ends its own load with it.
pub fn error_by_cause<K: Eq, V, E>()
    ensures caused { ErrorByCause K V E K.eq }
{}

/// On a reached state a step gives up exactly where its call reads that its owner was dropped, and
/// has read that 199 times before.
pub fn exhausted_at_last<K: Eq, V, E>()
    ensures last { ExhaustedAtLast K V E K.eq }
{}

/// In every reached state a call that is to end its own load with nothing or an error took that as
/// the answer to its own ask.
pub fn own_ends_are_told<K: Eq, V, E>()
    ensures told { OwnEndsAreTold K V E K.eq }
{}

/// On a reached state only the owner of a load opens an initializer. Unless the cache is disabled
/// it does so right after it has looked again in vain: nothing stood there, or its replace test held,
/// or the record wasn't visible.
pub fn opened_by_owners<K: Eq, V, E>()
    ensures opened { OpenedByOwners K V E K.eq }
{}

/// The count `aborts` of a live call, by which it gives up, is how often it has read since its
/// start that its owner was dropped.
pub fn aborts_are_counted<K: Eq, V, E>()
    ensures counted { AbortsAreCounted K V E K.eq }
{}

/// Over all its steps a call asks its replace test at most twice.
pub fn tests_are_two<K: Eq, V, E>()
    ensures two { TestsAreTwo K V E K.eq }
{}

/// On a reached state the end that a call reads is one that an owner of its kind may have. A
/// `get_with` ends with neither nothing nor an error, an `optional` with no error, a `try` not with
/// nothing, and a compute with neither a value nor an error.
pub fn settlements_fit<K: Eq, V, E>()
    ensures fits { SettlementsFit K V E K.eq }
{}

/// A call answers as what it was started for may. A `get_with` answers neither nothing nor an
/// error, an `optional` no error, a `try` not nothing, and no compute gives up.
pub fn answers_fit<K: Eq, V, E>()
    ensures fits { AnswersFit K V E K.eq }
{}

/// A call that asks nobody answers as what it was started for may, whatever worlds it meets: a get
/// some value or none, an insert and an invalidation that they are done, and so on.
pub fn shapes_fit<K: Eq, V, E>()
    ensures fits { ShapesFit K V E K.eq }
{}
