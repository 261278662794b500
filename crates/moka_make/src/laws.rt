//! Laws of makes.

ghost use Rattle.moka_make.specs.Making.{MakesWriteOne};
ghost use Rattle.moka_make.specs.Summing.{MadeAsScheduled, WorkloadsComeToOne};
ghost use Rattle.moka_make.specs.Words.{WordsAskForOne};

/// No words ask for two workloads: so what `wanted_in` finds is what they ask for.
pub fn words_ask_for_one()
    ensures { WordsAskForOne }
{}

/// The cache is that of a schedule whose first line is `cache log=64 ttl=2000 listener`.
pub fn made_as_scheduled()
    ensures { MadeAsScheduled }
{}

/// A workload comes to one summary: whatever two runs on it answered, and however often an operation
/// stayed undecided in them, their summaries are equal.
pub fn workloads_come_to_one()
    ensures { WorkloadsComeToOne }
{
    moka_laws::run_is_lawful::<u32, u32, u32>();
    moka_same::runs_are_determined::<u32, u32, u32>();
}

/// Two makes of the same words that are done write the same bytes.
pub fn makes_write_one()
    ensures { MakesWriteOne }
{
    words_ask_for_one();
    workloads_come_to_one();
}
