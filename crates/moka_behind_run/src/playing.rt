//! Calls of a cache before a keeper, one after the other.
ghost use Rattle.std.specs.Prelude.{◌≡◌, ◌++◌, [], IfOk};
ghost use Rattle.moka_behind.specs.Behind.{IsUsable};
ghost use Rattle.moka_behind_run.specs.Calls.{Fits, call_line};
ghost use Rattle.moka_behind_run.specs.Playing.{BehavesBy, Seen, Serves};

use crate::calls::{Call, Calls};
use crate::replies::{Reply, push_reply, push_unsent};
use moka_behind::{Behind, BehindError};
use moka_keepers::Keeper;
use moka_lines::LineProgram;
use std::alloc::{AllocError, Global};

/// The capacity of the cache. It bounds nothing.
const CAPACITY: u64 = 1000;

/// Sets a key.
fn set_key(behind: &mut Behind, key: u32, value: u32) -> Result<Reply, AllocError>
    requires { IsUsable behind.old }
    ensures serves { IfOk result (λ reply. (seen : Seen)
        → Serves seen behind.old (Call.Set key value) reply seen behind.new) }
    ensures usable { IsUsable behind.new }
{
    behind.set(key, value)?;
    Ok(Reply::Done)
}

/// Takes a key out.
fn del_key(behind: &mut Behind, key: u32) -> Result<Reply, AllocError>
    requires { IsUsable behind.old }
    ensures serves { IfOk result (λ reply. (seen : Seen)
        → Serves seen behind.old (Call.Del key) reply seen behind.new) }
    ensures usable { IsUsable behind.new }
{
    behind.del(key)?;
    Ok(Reply::Done)
}

/// Looks a key up.
fn get_key<Kp: Keeper>(behind: &mut Behind, keeper: &mut Kp, key: u32) -> Result<Reply, AllocError>
    requires { IsUsable behind.old }
    ensures serves { IfOk result (λ reply. Serves
        (record { told = Kp.told keeper.old; faults = Kp.faults keeper.old })
        behind.old (Call.Get key) reply
        (record { told = Kp.told keeper.new; faults = Kp.faults keeper.new }) behind.new) }
    ensures usable { IsUsable behind.new }
{
    match behind.get(keeper, key) {
        Ok(found) => Ok(Reply::Found(found)),
        Err(BehindError::Fault) => Ok(Reply::Fault),
        Err(BehindError::Memory) => Err(AllocError),
    }
}

/// Takes every stored record out.
fn shed_all(behind: &mut Behind) -> Result<Reply, AllocError>
    requires { IsUsable behind.old }
    ensures serves { IfOk result (λ reply. (seen : Seen)
        → Serves seen behind.old Call.Shed reply seen behind.new) }
    ensures usable { IsUsable behind.new }
{
    Ok(Reply::Shed(behind.shed()?))
}

/// Sends what is unsent.
fn drain_all<Kp: Keeper>(behind: &mut Behind, keeper: &mut Kp) -> Result<Reply, AllocError>
    requires { IsUsable behind.old }
    ensures serves { IfOk result (λ reply. Serves
        (record { told = Kp.told keeper.old; faults = Kp.faults keeper.old })
        behind.old Call.Drain reply
        (record { told = Kp.told keeper.new; faults = Kp.faults keeper.new }) behind.new) }
    ensures usable { IsUsable behind.new }
{
    match behind.drain(keeper) {
        Ok(count) => Ok(Reply::Drained(count)),
        Err(BehindError::Fault) => Ok(Reply::Fault),
        Err(BehindError::Memory) => Err(AllocError),
    }
}

/// Makes a call.
fn serve<Kp: Keeper>(behind: &mut Behind, keeper: &mut Kp, call: Call) -> Result<Reply, AllocError>
    requires { IsUsable behind.old }
    ensures serves { IfOk result (λ reply. Serves
        (record { told = Kp.told keeper.old; faults = Kp.faults keeper.old })
        behind.old call reply
        (record { told = Kp.told keeper.new; faults = Kp.faults keeper.new }) behind.new) }
    ensures usable { IsUsable behind.new }
{
    match call {
        Call::Set { key, value } => set_key(behind, key, value),
        Call::Del { key } => del_key(behind, key),
        Call::Get { key } => get_key(behind, keeper, key),
        Call::Shed => shed_all(behind),
        Call::Drain => drain_all(behind, keeper),
    }
}

/// Makes the calls on a new cache, and answers the text of their replies.
fn answer_calls<Kp: Keeper>(
    alloc: Global,
    calls: &[Call],
    keeper: &mut Kp,
) -> Result<Vec<u8>, AllocError>
    ensures { IfOk result (λ text.
        BehavesBy Kp.told Kp.faults keeper.old calls.now text.items keeper.new) }
{
    let mut behind = Behind::new(alloc, CAPACITY)?;
    let mut text = Vec::new(alloc);
    for call in calls {
        let reply = serve(&mut behind, keeper, *call)?;
        push_reply(&mut text, reply)?;
    }
    push_unsent(&mut text, behind.unsent())?;
    Ok(text)
}

impl<Kp: Keeper> LineProgram<Call, Kp> for Calls {
    ghost answers = { BehavesBy Kp.told Kp.faults };

    fn of_nothing() -> &'static str {
        "unsent 0\n"
    }

    fn answer(alloc: Global, lines: Vec<Call>, over: &mut Kp) -> Result<Vec<u8>, AllocError>
        ensures { IfOk result (λ text.
            BehavesBy Kp.told Kp.faults over.old lines.items text.items over.new) }
    {
        answer_calls(alloc, &lines, over)
    }
}
