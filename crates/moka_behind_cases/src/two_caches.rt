//! Two caches before one keeper, one after the other: what the first sent, the second gets.
ghost use Rattle.moka_behind.specs.Behind.{IsUsable};

use moka_behind::{Behind, BehindError, Keeper, PlainKeeper};
use std::alloc::AllocError;
use std::collections::HashMap;
use std::test::Fail;

/// Sets two keys and takes the second out.
fn write(behind: &mut Behind) -> Result<(), AllocError>
    requires { IsUsable behind.old }
    ensures { IsUsable behind.new }
{
    behind.set(1, 5)?;
    behind.set(2, 6)?;
    behind.del(2)
}

/// What the cache finds at the two keys.
fn got(behind: &mut Behind, keeper: &mut PlainKeeper) -> [Result<Option<u32>, BehindError>; 2]
    requires { IsUsable behind.old }
{
    let first = behind.get(keeper, 1);
    let second = behind.get(keeper, 2);
    [first, second]
}

#[test]
fn what_one_cache_sent_another_gets(rt: HostRuntime) -> Result<(), Fail> {
    let mut keeper = PlainKeeper::new(HashMap::new(rt.alloc()));
    let mut first = Behind::new(rt.alloc(), 1)?;
    let written = write(&mut first);
    let unsent = first.unsent();
    let unfound = keeper.get(1);
    let sent = first.drain(&mut keeper);
    let later = first.set(1, 7);
    drop(first);
    assert!(rt; written.is_ok() && later.is_ok());
    assert_eq!(rt; unsent, 3);
    assert_eq!(rt; unfound, Ok(None));
    assert_eq!(rt; sent, Ok(3));
    let mut second = Behind::new(rt.alloc(), 1)?;
    let found = got(&mut second, &mut keeper);
    drop(second);
    assert_eq!(rt; found, [Ok(Some(5)), Ok(None)]);
    assert!(rt; keeper.is_whole());
    Ok(())
}
