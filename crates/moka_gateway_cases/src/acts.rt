//! What is done to a gateway in these cases, and the text of what comes of it.
ghost use Rattle.std.specs.Prelude.{IfOk};
ghost use Rattle.moka_gateway.specs.Gateway.{IsUsable};

use moka_gateway::{Gateway, Out, OutList};
use std::alloc::{AllocError, Global};

/// One thing that is done. The bytes of a feed are text, with `;` for the byte 10.
#[derive(Clone, Copy, PartialEq, Debug)]
pub enum Act {
    Open,
    Feed(u64, &'static str),
    Value(u32, u32),
    Error(u32, u32),
    Close(u64),
}

/// How the bytes of a feed are cut: in one piece, in two after so many bytes, or one by one.
#[derive(Clone, Copy, PartialEq, Debug)]
pub enum Cut {
    Whole,
    At(usize),
    Single,
}

/// What came of a row of acts: the lines of its text, and apart from how bytes were cut, the upstream
/// requests that were opened and given up, and the bytes that each client was sent.
#[derive(PartialEq, Debug, Drop)]
pub struct Trace {
    pub lines: String,
    pub ups: String,
    pub sent: Vec<String>,
}

impl Trace {
    /// Nothing has come yet.
    pub fn new(alloc: Global) -> Trace {
        Trace {
            lines: String::new(alloc),
            ups: String::new(alloc),
            sent: Vec::new(alloc),
        }
    }

    // Adds a line of text.
    pub fn line(&mut self, line: &str) -> Result<(), AllocError> {
        if !self.lines.is_empty() {
            self.lines.push_str(" / ")?;
        }
        self.lines.push_str(line)
    }

    // Notes what is to be done.
    fn outs(&mut self, alloc: Global, outs: &OutList) -> Result<(), AllocError> {
        for out in outs.iter() {
            match out {
                Out::Fetch(key) => self.up(alloc, "up fetch", *key)?,
                Out::Cancel(key) => self.up(alloc, "up cancel", *key)?,
                Out::To { client, bytes } => self.to(alloc, *client, bytes.as_slice())?,
            }
        }
        Ok(())
    }

    fn up(&mut self, alloc: Global, word: &str, key: u32) -> Result<(), AllocError> {
        let line = format!(in alloc; "{word} {key}")?;
        self.ups.push_str(&line)?;
        self.ups.push_str(";")?;
        self.line(&line)
    }

    // Adds to what the client was sent.
    fn add_sent(&mut self, alloc: Global, client: usize, text: &str) -> Result<(), AllocError> {
        for _ in self.sent.len()..client.saturating_add(1).min(400) {
            self.sent.push(String::new(alloc))?;
        }
        match self.sent.get_mut(client) {
            Some(sent) => sent.push_str(text),
            None => Ok(()),
        }
    }

    fn to(&mut self, alloc: Global, client: u64, bytes: &[u8]) -> Result<(), AllocError> {
        let text = shown(alloc, bytes)?;
        self.add_sent(alloc, client as usize, &text)?;
        let line = format!(in alloc; "to {client} {text}")?;
        self.line(&line)
    }
}

// The bytes of replies, with `;` for the byte 10.
fn shown(alloc: Global, bytes: &[u8]) -> Result<String, AllocError> {
    let mut text = String::new(alloc);
    for byte in bytes {
        let shown = if *byte == 10 { ';' } else { char::from(*byte) };
        text.push(shown)?;
    }
    Ok(text)
}

// The bytes of a feed.
fn bytes_of(alloc: Global, text: &str) -> Result<Vec<u8>, AllocError> {
    let mut bytes = Vec::new(alloc);
    for byte in text.as_bytes() {
        let fed = if *byte == b';' { 10 } else { *byte };
        bytes.push(fed)?;
    }
    Ok(bytes)
}

/// Does each thing in turn, on a new gateway.
pub fn play(alloc: Global, acts: &[Act], cut: Cut) -> Result<Trace, AllocError> {
    let mut gateway = Gateway::new(alloc)?;
    let trace = play_on(alloc, &mut gateway, acts, cut);
    drop(gateway);
    trace
}

/// Does each thing in turn.
fn play_on(
    alloc: Global,
    gateway: &mut Gateway,
    acts: &[Act],
    cut: Cut,
) -> Result<Trace, AllocError>
    requires { IsUsable gateway.old }
{
    let mut trace = Trace::new(alloc);
    for act in acts {
        carry_out(alloc, gateway, *act, cut, &mut trace)?;
    }
    Ok(trace)
}

/// Does one thing.
pub fn carry_out(
    alloc: Global,
    gateway: &mut Gateway,
    act: Act,
    cut: Cut,
    trace: &mut Trace,
) -> Result<(), AllocError>
    requires { IsUsable gateway.old }
    ensures { IsUsable gateway.new }
{
    match act {
        Act::Open => open(alloc, gateway, trace),
        Act::Feed(client, text) => feed(alloc, gateway, client, text, cut, trace),
        Act::Value(key, value) => reply(alloc, gateway, key, Ok(value), trace),
        Act::Error(key, error) => reply(alloc, gateway, key, Err(error), trace),
        Act::Close(client) => close(alloc, gateway, client, trace),
    }
}

fn open(alloc: Global, gateway: &mut Gateway, trace: &mut Trace) -> Result<(), AllocError>
    requires { IsUsable gateway.old }
    ensures { IsUsable gateway.new }
{
    match gateway.open()? {
        Some(client) => {
            let line = format!(in alloc; "client {client}")?;
            trace.line(&line)
        }
        None => trace.line("refused"),
    }
}

fn feed(
    alloc: Global,
    gateway: &mut Gateway,
    client: u64,
    text: &str,
    cut: Cut,
    trace: &mut Trace,
) -> Result<(), AllocError>
    requires { IsUsable gateway.old }
    ensures { IsUsable gateway.new }
{
    let bytes = bytes_of(alloc, text)?;
    match cut {
        Cut::Whole => piece(alloc, gateway, client, &bytes, trace),
        Cut::At(at) => two(alloc, gateway, client, &bytes, at, trace),
        Cut::Single => single(alloc, gateway, client, &bytes, trace),
    }
}

fn two(
    alloc: Global,
    gateway: &mut Gateway,
    client: u64,
    bytes: &[u8],
    at: usize,
    trace: &mut Trace,
) -> Result<(), AllocError>
    requires { IsUsable gateway.old }
    ensures { IsUsable gateway.new }
{
    let (front, back) = bytes.split_at(at.min(bytes.len()));
    piece(alloc, gateway, client, front, trace)?;
    piece(alloc, gateway, client, back, trace)
}

fn single(
    alloc: Global,
    gateway: &mut Gateway,
    client: u64,
    bytes: &[u8],
    trace: &mut Trace,
) -> Result<(), AllocError>
    requires { IsUsable gateway.old }
    ensures { IsUsable gateway.new }
{
    for byte in bytes {
        piece(alloc, gateway, client, &[*byte], trace)?;
    }
    Ok(())
}

fn piece(
    alloc: Global,
    gateway: &mut Gateway,
    client: u64,
    bytes: &[u8],
    trace: &mut Trace,
) -> Result<(), AllocError>
    requires { IsUsable gateway.old }
    ensures { IsUsable gateway.new }
{
    match gateway.feed(client, bytes)? {
        Some(outs) => trace.outs(alloc, &outs),
        None => trace.line("refused"),
    }
}

fn reply(
    alloc: Global,
    gateway: &mut Gateway,
    key: u32,
    answer: Result<u32, u32>,
    trace: &mut Trace,
) -> Result<(), AllocError>
    requires { IsUsable gateway.old }
    ensures { IsUsable gateway.new }
{
    match gateway.reply(key, answer)? {
        Some(outs) => trace.outs(alloc, &outs),
        None => trace.line("refused"),
    }
}

fn close(
    alloc: Global,
    gateway: &mut Gateway,
    client: u64,
    trace: &mut Trace,
) -> Result<(), AllocError>
    requires { IsUsable gateway.old }
    ensures { IsUsable gateway.new }
{
    match gateway.close(client)? {
        Some(outs) => {
            trace.line("closed")?;
            trace.outs(alloc, &outs)
        }
        None => trace.line("refused"),
    }
}
