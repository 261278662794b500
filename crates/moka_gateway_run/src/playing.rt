//! The lines of a source, one after the other, on a gateway.
ghost use Rattle.std.specs.Prelude.{◌≡◌, ◌++◌, flat_map, IfOk, OnOk};
ghost use Rattle.moka_collapsing.specs.Reference.{Reference};
ghost use Rattle.moka_gateway.specs.Gateway.{IsGateway, IsUsable};
ghost use Rattle.moka_gateway_run.specs.Playing.{AreAnsweredBy, done_text, gateway_text, out_line, played, Plays};

use crate::forms::Lines;
use crate::lines::Line;
use crate::replies::{push_cancel, push_client, push_fetch, push_to};
use moka_collapsing::runs_are_served;
use moka_gateway::{Gateway, Out, OutList};
use moka_lines::{LineProgram, push_words};
use std::alloc::{AllocError, Global};

/// Appends a line for what is to be done.
fn push_out(text: &mut Vec<u8>, out: &Out) -> Result<(), AllocError>
    ensures { OnOk result (text.new.items ≡ text.old.items ++ out_line out.now) }
{
    match out {
        Out::Fetch(key) => push_fetch(text, *key),
        Out::Cancel(key) => push_cancel(text, *key),
        Out::To { client, bytes } => push_to(text, *client, bytes.as_slice()),
    }
}

/// Appends a line for each thing that is to be done.
fn push_outs(text: &mut Vec<u8>, outs: &[Out]) -> Result<(), AllocError>
    ensures { OnOk result (text.new.items ≡ text.old.items ++ flat_map out_line outs.now) }
{
    for out in outs {
        push_out(text, out)?;
    }
    Ok(())
}

/// Appends what a call came to: these words first where it did something, or that it is refused.
fn push_done(text: &mut Vec<u8>, first: &str, outs: Option<OutList>) -> Result<(), AllocError>
    ensures { OnOk result (text.new.items ≡ text.old.items ++ done_text first.now outs) }
{
    match outs {
        Some(outs) => push_first(text, first, &outs),
        None => push_words(text, "refused\n"),
    }
}

/// Appends these words, and a line for each thing that is to be done.
fn push_first(text: &mut Vec<u8>, first: &str, outs: &OutList) -> Result<(), AllocError>
    ensures { OnOk result (text.new.items
        ≡ text.old.items ++ (first.now ++ flat_map out_line outs.now)) }
{
    push_words(text, first)?;
    push_outs(text, outs.as_slice())
}

/// Does what the line says, and appends the text of it.
fn play_line(gateway: &mut Gateway, line: &Line, text: &mut Vec<u8>) -> Result<(), AllocError>
    requires { IsUsable gateway.old }
    ensures { OnOk result ((g : Reference) → IsGateway gateway.old g
        → Plays gateway.new text.old.items text.new.items (played g line.now)) }
{
    match line {
        Line::Open => play_open(gateway, text),
        Line::Feed { client, bytes } => play_feed(gateway, *client, bytes.as_slice(), text),
        Line::Reply { key, answer } => play_reply(gateway, *key, *answer, text),
        Line::Close { client } => play_close(gateway, *client, text),
    }
}

/// Opens a client, and appends the text of it.
fn play_open(gateway: &mut Gateway, text: &mut Vec<u8>) -> Result<(), AllocError>
    requires { IsUsable gateway.old }
    ensures { OnOk result ((g : Reference) → IsGateway gateway.old g
        → Plays gateway.new text.old.items text.new.items (played g Line.Open)) }
{
    let client = gateway.open()?;
    push_client(text, client)
}

/// Feeds a client its bytes, and appends the text of it.
fn play_feed(
    gateway: &mut Gateway,
    client: u64,
    bytes: &[u8],
    text: &mut Vec<u8>,
) -> Result<(), AllocError>
    requires { IsUsable gateway.old }
    ensures { OnOk result ((g : Reference) → IsGateway gateway.old g
        → Plays gateway.new text.old.items text.new.items (played g (Line.Feed client bytes.now))) }
{
    let outs = gateway.feed(client, bytes)?;
    push_done(text, "", outs)
}

/// Gives what an upstream request brought, and appends the text of it.
fn play_reply(
    gateway: &mut Gateway,
    key: u32,
    answer: Result<u32, u32>,
    text: &mut Vec<u8>,
) -> Result<(), AllocError>
    requires { IsUsable gateway.old }
    ensures { OnOk result ((g : Reference) → IsGateway gateway.old g
        → Plays gateway.new text.old.items text.new.items (played g (Line.Reply key answer))) }
{
    let outs = gateway.reply(key, answer)?;
    push_done(text, "", outs)
}

/// Closes a client, and appends the text of it.
fn play_close(gateway: &mut Gateway, client: u64, text: &mut Vec<u8>) -> Result<(), AllocError>
    requires { IsUsable gateway.old }
    ensures { OnOk result ((g : Reference) → IsGateway gateway.old g
        → Plays gateway.new text.old.items text.new.items (played g (Line.Close client))) }
{
    let outs = gateway.close(client)?;
    push_done(text, "closed\n", outs)
}

/// Does what the lines say, on a new gateway, and answers the text of it.
fn play_lines(alloc: Global, lines: &[Line]) -> Result<Vec<u8>, AllocError>
    ensures { IfOk result (λ text. text.items ≡ gateway_text lines.now) }
{
    let mut gateway = Gateway::new(alloc)?;
    let mut text = Vec::new(alloc);
    for line in lines {
        play_line(&mut gateway, line, &mut text)?;
    }
    Ok(text)
}

impl LineProgram<Line, ()> for Lines {
    ghost answers = { AreAnsweredBy };

    fn of_nothing() -> &'static str {
        runs_are_served();
        ""
    }

    fn answer(alloc: Global, lines: Vec<Line>, _over: &mut ()) -> Result<Vec<u8>, AllocError>
        ensures { IfOk result (λ text.
            AreAnsweredBy _over.old lines.items text.items _over.new) }
    {
        runs_are_served();
        play_lines(alloc, &lines)
    }
}
