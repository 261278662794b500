//! Many clients at once.
ghost use Rattle.moka_gateway.specs.Gateway.{IsUsable};

use moka_gateway::{Gateway, Out, OutList};
use std::alloc::AllocError;
use std::test::Fail;

/// Opens so many clients, and answers how many were refused.
fn open_all(gateway: &mut Gateway, count: u32) -> Result<u32, AllocError>
    requires { IsUsable gateway.old }
    ensures { IsUsable gateway.new }
{
    let mut refused: u32 = 0;
    for _ in 0..count {
        if gateway.open()?.is_none() {
            refused = refused.saturating_add(1);
        }
    }
    Ok(refused)
}

/// How many of 1001 clients are refused, whether client 500 is closed then, and who is opened next,
/// and after that.
fn opened(gateway: &mut Gateway) -> Result<(u32, bool, Option<u64>, Option<u64>), AllocError>
    requires { IsUsable gateway.old }
{
    let refused = open_all(gateway, 1001)?;
    let closed = gateway.close(500)?.is_some();
    let next = gateway.open()?;
    let after = gateway.open()?;
    Ok((refused, closed, next, after))
}

/// The 1001st client is refused, until another is closed.
#[test]
fn a_thousand_clients_are_open_at_most(rt: HostRuntime) -> Result<(), Fail> {
    let mut gateway = Gateway::new(rt.alloc())?;
    let opened = opened(&mut gateway);
    drop(gateway);
    assert_eq!(rt; opened?, (1, true, Some(1001), None));
    Ok(())
}

/// How many things are to be done: none where nothing is.
fn count_of(outs: Option<OutList>) -> usize {
    match outs {
        Some(outs) => outs.len(),
        None => 0,
    }
}

/// Lets so many clients ask for the key, one after the other. Answers how many fetches came of it.
fn ask_all(gateway: &mut Gateway, count: u64) -> Result<usize, AllocError>
    requires { IsUsable gateway.old }
    ensures { IsUsable gateway.new }
{
    let mut fetches: usize = 0;
    for client in 1..count {
        fetches = fetches.saturating_add(count_of(gateway.feed(client, b"get 7\n")?));
    }
    Ok(fetches)
}

/// Closes so many clients, and answers how many cancels came of it.
fn close_all(gateway: &mut Gateway, count: u64) -> Result<usize, AllocError>
    requires { IsUsable gateway.old }
    ensures { IsUsable gateway.new }
{
    let mut cancels: usize = 0;
    for client in 1..count {
        cancels = cancels.saturating_add(count_of(gateway.close(client)?));
    }
    Ok(cancels)
}

/// Of 301 clients that wait for one key the owners are closed one after the other. The upstream
/// request goes on, and the last client is answered by it.
#[test]
fn an_upstream_request_is_handed_over_300_times(rt: HostRuntime) -> Result<(), Fail> {
    let mut gateway = Gateway::new(rt.alloc())?;
    let handed = handed_over(&mut gateway);
    drop(gateway);
    assert_eq!(rt; handed?, (0, 1, 0, true));
    Ok(())
}

/// How many of 301 clients that wait for one key are refused, how many fetches they bring, how many
/// cancels come as all but the last are closed, and whether that is answered.
fn handed_over(gateway: &mut Gateway) -> Result<(u32, usize, usize, bool), AllocError>
    requires { IsUsable gateway.old }
{
    let refused = open_all(gateway, 301)?;
    let fetches = ask_all(gateway, 302)?;
    let cancels = close_all(gateway, 301)?;
    let answered = gateway.reply(7, Ok(1))?;
    Ok((
        refused,
        fetches,
        cancels,
        is_to(&answered, 301, b"value 1\n"),
    ))
}

/// Whether this is to be sent to the client, and nothing else is to be done.
fn is_to(outs: &Option<OutList>, number: u64, text: &[u8]) -> bool {
    let Some(outs) = outs else {
        return false;
    };
    match outs.as_slice() {
        [Out::To { client, bytes }] => *client == number && bytes.as_slice() == text,
        _ => false,
    }
}
