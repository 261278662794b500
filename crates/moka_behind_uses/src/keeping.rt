//! One run over a keeper of pairs.
ghost use Rattle.moka_behind.specs.Behind.{IsUsable};

use crate::run_error::RunError;
use moka_behind::{Behind, BehindError, Keeper};

/// What each run's cache is made for. It bounds nothing.
const CAPACITY: u64 = 1000;

/// Looks at three keys, sets and takes out some, and drains. Shows what was found, and how many writes
/// were sent.
pub(crate) fn run<Kp: Keeper>(rt: &HostRuntime, keeper: &mut Kp) -> Result<(), RunError> {
    let mut behind = Behind::new(rt.alloc(), CAPACITY)?;
    let shown = look_and_write(rt, &mut behind, keeper);
    drop(behind);
    shown
}

/// Looks, and then writes. Shows what was found, and how many writes were sent.
fn look_and_write<Kp: Keeper>(
    rt: &HostRuntime,
    behind: &mut Behind,
    keeper: &mut Kp,
) -> Result<(), RunError>
    requires { IsUsable behind.old }
{
    println!(rt; "found: {:?}", look(behind, keeper)?)?;
    println!(rt; "sent: {}", write(behind, keeper)?)?;
    Ok(())
}

/// Looks at three keys.
fn look<Kp: Keeper>(behind: &mut Behind, keeper: &mut Kp) -> Result<[Option<u32>; 3], BehindError>
    requires { IsUsable behind.old }
    ensures { IsUsable behind.new }
{
    let first = behind.get(keeper, 1)?;
    let second = behind.get(keeper, 2)?;
    let third = behind.get(keeper, 3)?;
    Ok([first, second, third])
}

/// Sets key 1, sets key 2 twice, takes key 1 out, and drains.
fn write<Kp: Keeper>(behind: &mut Behind, keeper: &mut Kp) -> Result<u64, BehindError>
    requires { IsUsable behind.old }
{
    behind.set(1, 5)?;
    behind.set(2, 7)?;
    behind.set(2, 8)?;
    behind.del(1)?;
    behind.drain(keeper)
}
