//! The laws of this crate, as one.

ghost use Rattle.moka_callers.specs.Laws.{LawsForCallers};

/// All laws at once: each field of the record is the law of the function of its name.
pub fn laws_for_callers<K: Eq, V, E>()
    ensures laws { LawsForCallers K V E K.eq }
{
    crate::refused_by_cause::<K, V, E>();
    crate::run_splits::<K, V, E>();
    crate::runs_join::<K, V, E>();
    crate::replies_are_steps::<K, V, E>();
    crate::lives_by_replies::<K, V, E>();
    crate::told_was_told::<K, V, E>();
    crate::removes_found_none::<K, V, E>();
    crate::evicts_kept_seen::<K, V, E>();
    crate::numbers_go_up::<K, V, E>();
    crate::steps_change_by_writes::<K, V, E>();
    crate::table_changes_by_steps::<K, V, E>();
    crate::records_are_of_calls::<K, V, E>();
    crate::commits_are_made::<K, V, E>();
    crate::quiet_commit_nothing::<K, V, E>();
    crate::gets_commit_nothing::<K, V, E>();
    crate::records_stand::<K, V, E>();
    crate::inserts_put_in::<K, V, E>();
    crate::inserts_stand::<K, V, E>();
    crate::fresh_is_put::<K, V, E>();
    crate::gets_answer_stored::<K, V, E>();
    crate::reads_see_writes::<K, V, E>();
    crate::inserted_is_found::<K, V, E>();
    crate::polls_are_steps::<K, V, E>();
    crate::loads_answer_told::<K, V, E>();
    crate::fresh_was_told::<K, V, E>();
    crate::aborted_goes_on::<K, V, E>();
    crate::computes_begin_anew::<K, V, E>();
    crate::asks_come_first::<K, V, E>();
    crate::nops_leave_all::<K, V, E>();
    crate::modes_by_replies::<K, V, E>();
    crate::computes_answer_as_told::<K, V, E>();
    crate::compute_errors_were_told::<K, V, E>();
    crate::owned_until_over::<K, V, E>();
    crate::notices_stand_as_opened::<K, V, E>();
    crate::notices_are_locked::<K, V, E>();
    crate::kept_unless_undecided::<K, V, E>();
}
