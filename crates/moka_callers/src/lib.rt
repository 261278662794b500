//! What a caller concludes of a run by its events and its replies.
//!
//! Each law is the contract of a function that does nothing. To call it is to cite the law.
#![tactic(auto)]

mod changing;
mod computing;
mod contents;
mod inserting;
mod laws;
mod listening;
mod living;
mod loading;
mod missing;
mod reading;
mod refusing;
mod running;
mod telling;
mod undisturbed;

pub use changing::{steps_change_by_writes, table_changes_by_steps};
pub use computing::{
    asks_come_first, compute_errors_were_told, computes_answer_as_told, nops_leave_all,
    owned_until_over,
};
pub use contents::{
    commits_are_made, gets_commit_nothing, quiet_commit_nothing, records_are_of_calls,
    records_stand,
};
pub use inserting::{fresh_is_put, inserts_put_in, inserts_stand};
pub use laws::laws_for_callers;
pub use listening::{notices_are_locked, notices_stand_as_opened};
pub use living::{lives_by_replies, modes_by_replies, numbers_go_up};
pub use loading::{aborted_goes_on, computes_begin_anew, fresh_was_told, loads_answer_told};
pub use missing::{evicts_kept_seen, kept_unless_undecided, removes_found_none};
pub use reading::{gets_answer_stored, reads_see_writes};
pub use refusing::refused_by_cause;
pub use running::{polls_are_steps, replies_are_steps, run_splits, runs_join};
pub use telling::told_was_told;
pub use undisturbed::inserted_is_found;
