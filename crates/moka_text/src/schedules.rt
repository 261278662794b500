//! Reading the text of a schedule.

ghost use Rattle.std.specs.Prelude.{◌≡◌, ℕ, Some, IfOk, IsErrOf};
ghost use Rattle.moka_lines.specs.Lines.{lines};
ghost use Rattle.moka_text.specs.ScheduleText.{Says, IsFirstBad};
ghost use Rattle.moka_text.specs.ScheduleReading.{
  events_from,
  schedule,
  Gives,
  parts,
  EventsMayWantMemory,
  MayWantMemory,
};
ghost use Rattle.moka_text.specs.ErrorText.{error_text};
ghost use Rattle.moka_text.specs.declared.schedules.ScheduleError.TheVariants.{Memory};

use crate::lines::event_of;
use crate::options::cache_of;
use moka_hist::{Event, Settings};
use moka_lines::cut_line;
use std::alloc::{AllocError, AllocFailed, Global};
use std::error::Error;
use std::fmt;

/// A schedule: how many writes the write log has room for, the settings of the cache, and the
/// events in order.
#[derive(Drop)]
pub struct Schedule {
    pub log: usize,
    pub settings: Settings,
    pub events: Vec<Event<u32, u32, u32>>,
}

/// Why a schedule could not be read.
#[derive(Clone, Copy, PartialEq, Eq, Debug)]
pub enum ScheduleError {
    /// The first line that is not in the grammar, numbered from 1. An empty source lacks line 1.
    BadLine { line: u64 },
    /// Memory ran out.
    Memory,
}

impl fmt::Display for ScheduleError {
    ghost output = { λ e. Some (error_text e) };

    fn fmt<W: fmt::Write>(&self, f: &mut fmt::Formatter<W>) -> fmt::Result {
        match self {
            ScheduleError::BadLine { line } => write!(f, "line {line} is bad"),
            ScheduleError::Memory => write!(f, "out of memory"),
        }
    }
}

impl Error for ScheduleError {}

impl From<AllocError> for ScheduleError {
    ghost from_gives = { λ _ e. e ≡ Memory };

    fn from(_e: AllocError) -> ScheduleError {
        ScheduleError::Memory
    }
}

impl<T: Drop> From<AllocFailed<T>> for ScheduleError {
    ghost from_gives = { λ _ e. e ≡ Memory };

    fn from(_e: AllocFailed<T>) -> ScheduleError {
        ScheduleError::Memory
    }
}

/// Reads the lines after the first.
fn read_events(alloc: Global, text: &[u8]) -> Result<Vec<Event<u32, u32, u32>>, ScheduleError>
    ensures exact { Gives (λ events. events.items) result (events_from 2 (lines text.now)) }
    ensures memory { IsErrOf result ScheduleError.Memory
        → EventsMayWantMemory (events_from 2 (lines text.now)) }
{
    let mut events = Vec::new(alloc);
    let mut number: u64 = 2;
    let mut rest = text;
    while !rest.is_empty() {
        let (line, later) = cut_line(rest);
        let Some(event) = event_of(line) else {
            return Err(ScheduleError::BadLine { line: number });
        };
        events.push(event)?;
        number += 1;
        rest = later;
    }
    Ok(events)
}

/// Reads all lines.
fn read_whole(alloc: Global, text: &[u8]) -> Result<Schedule, ScheduleError>
    ensures exact { Gives parts result (schedule text.now) }
    ensures memory { IsErrOf result ScheduleError.Memory → MayWantMemory (schedule text.now) }
{
    let (first, rest) = cut_line(text);
    let Some((log, settings)) = cache_of(first) else {
        return Err(ScheduleError::BadLine { line: 1 });
    };
    let events = read_events(alloc, rest)?;
    Ok(Schedule {
        log,
        settings,
        events,
    })
}

/// Reads a schedule: the log's size and the settings that its first line says, and the events of
/// the other lines.
///
/// Answers `BadLine` with the first line that is not in the grammar, and `Memory` where memory
/// runs out: only past a second line that spells an event.
pub fn read_schedule(alloc: Global, bytes: &[u8]) -> Result<Schedule, ScheduleError>
    ensures exact { Gives parts result (schedule bytes.now) }
    ensures found { IfOk result (λ s. Says bytes.now s.log s.settings s.events.items) }
    ensures bad_line { (line : ℕ) → IsErrOf result (ScheduleError.BadLine line)
        → IsFirstBad bytes.now line }
    ensures memory { IsErrOf result ScheduleError.Memory → MayWantMemory (schedule bytes.now) }
{
    read_whole(alloc, bytes)
}
