//! The first line of a schedule: the options of its cache.

ghost use Rattle.std.specs.Prelude.{◌≡◌};
ghost use Rattle.std.specs.Option.{option_copied};
ghost use Rattle.moka_text.specs.ScheduleReading.{
  cut_option,
  number_of,
  log_of,
  switch_of,
  made_of,
  cache_of,
};

use moka_hist::Settings;
use moka_lines::{after, cut, u64_in};

/// How many writes the write log has room for where the first line doesn't say.
const DEFAULT_LOG: usize = 384;

/// The most writes that the first line may give the write log room for.
const GREATEST_LOG: u64 = 65536;

/// What is said of the option of this name, where it stands at the front, and what follows it. The
/// name begins with a space, and what is said ends before the next.
fn cut_option<'a>(bytes: &'a [u8], name: &[u8]) -> (Option<&'a [u8]>, &'a [u8])
    ensures said { option_copied result.0 ≡ (cut_option name.now bytes.now).0 }
    ensures rest { result.1.now ≡ (cut_option name.now bytes.now).1 }
{
    match after(bytes, name) {
        None => (None, bytes),
        Some(rest) => {
            let (said, _) = cut(rest, b' ');
            (Some(said), &rest[said.len()..])
        }
    }
}

/// The capacity or the time of an option, where one is said.
#[tactic(auto, unfolding(crate::specs::ScheduleReading::number_of))]
fn number_of(said: Option<&[u8]>) -> Option<Option<u64>>
    ensures { result ≡ number_of (option_copied said.entry) }
{
    match said {
        None => Some(None),
        Some(said) => u64_in(said).map(Some),
    }
}

/// How many writes the write log has room for.
#[tactic(auto, unfolding(crate::specs::ScheduleReading::log_of))]
fn log_of(said: Option<&[u8]>) -> Option<usize>
    ensures { result ≡ log_of (option_copied said.entry) }
{
    let Some(said) = said else {
        return Some(DEFAULT_LOG);
    };
    let log = u64_in(said)?;
    if log < 1 || log > GREATEST_LOG {
        return None;
    }
    Some(log as usize)
}

/// Whether an option is set of which nothing more may be said.
#[tactic(auto, unfolding(crate::specs::ScheduleReading::switch_of))]
fn switch_of(said: Option<&[u8]>) -> Option<bool>
    ensures { result ≡ switch_of (option_copied said.entry) }
{
    match said {
        None => Some(false),
        Some([]) => Some(true),
        Some(_) => None,
    }
}

/// How many writes the write log has room for, and the settings, from what is said of each option.
#[tactic(auto, unfolding(crate::specs::ScheduleReading::made_of))]
fn made_of(
    cap: Option<&[u8]>,
    log: Option<&[u8]>,
    seed: Option<&[u8]>,
    ttl: Option<&[u8]>,
    tti: Option<&[u8]>,
    listener: Option<&[u8]>,
    closures: Option<&[u8]>,
) -> Option<(usize, Settings)>
    ensures { result ≡ made_of (option_copied cap.entry) (option_copied log.entry)
        (option_copied seed.entry) (option_copied ttl.entry) (option_copied tti.entry)
        (option_copied listener.entry) (option_copied closures.entry) }
{
    let max_capacity = number_of(cap)?;
    let log = log_of(log)?;
    let seed = number_of(seed)?;
    let time_to_live = number_of(ttl)?;
    let time_to_idle = number_of(tti)?;
    let listener = switch_of(listener)?;
    let closures = switch_of(closures)?;
    Some((
        log,
        Settings {
            max_capacity,
            time_to_live,
            time_to_idle,
            listener,
            closures,
            seed,
        },
    ))
}

/// How many writes the write log has room for, and the settings, as a schedule's first line says.
pub(crate) fn cache_of(line: &[u8]) -> Option<(usize, Settings)>
    ensures { result ≡ cache_of line.now }
{
    let bytes = after(line, b"cache")?;
    let (cap, bytes) = cut_option(bytes, b" cap=");
    let (log, bytes) = cut_option(bytes, b" log=");
    let (seed, bytes) = cut_option(bytes, b" seed=");
    let (ttl, bytes) = cut_option(bytes, b" ttl=");
    let (tti, bytes) = cut_option(bytes, b" tti=");
    let (listener, bytes) = cut_option(bytes, b" listener");
    let (closures, bytes) = cut_option(bytes, b" closures");
    match bytes {
        [] => made_of(cap, log, seed, ttl, tti, listener, closures),
        [_, ..] => None,
    }
}
