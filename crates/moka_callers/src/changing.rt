//! What changes the table.

ghost use Rattle.moka_callers.specs.Changing.{StepsChangeByWrites, TableChangesBySteps};

/// A step changes what is stored only where its call's plan begins with a write or a taking out.
/// Then it stores that pair under that key, or nothing under that key, and leaves all else.
pub fn steps_change_by_writes<K: Eq, V, E>()
    ensures changes { StepsChangeByWrites K V E K.eq }
{}

/// No event but a step or a poll changes the table.
pub fn table_changes_by_steps<K: Eq, V, E>()
    ensures stays { TableChangesBySteps K V E K.eq }
{}
