//! A server: a gateway, and the upstream requests that it has open.
ghost use Rattle.std.specs.Prelude.{IfOk};
ghost use Rattle.moka_gateway.specs.Gateway.{IsUsable};

use moka_gateway::{Gateway, Out, OutList};
use moka_gateway_run::{Line, Lines};
use moka_lines::Grammar;
use std::alloc::{AllocError, Global};
use std::collections::VecDeque;
use std::io;

/// The keys that upstream knows, each with its value.
const TABLE: [(u32, u32); 4] = [(1, 100), (2, 200), (5, 9), (7, 0)];

/// The error of any other key.
const UNKNOWN: u32 = 404;

/// What upstream answers for the key.
fn look_up(key: u32) -> Result<u32, u32> {
    for (known, value) in &TABLE {
        if *known == key {
            return Ok(*value);
        }
    }
    Err(UNKNOWN)
}

/// Bytes for a client, with `;` for each end of a line.
fn shown(alloc: Global, bytes: &[u8]) -> Result<String, AllocError> {
    let mut text = String::new(alloc);
    for byte in bytes {
        let shown = if *byte == 10 { ';' } else { char::from(*byte) };
        text.push(shown)?;
    }
    Ok(text)
}

/// A gateway, and the keys whose upstream requests are open, in the order in which they were opened.
#[derive(Drop)]
pub struct Server {
    alloc: Global,
    gateway: Gateway,
    fetched: VecDeque<u32>,
}

impl Server {
    /// Starts a server that has no client.
    pub fn new(alloc: Global) -> Result<Server, AllocError>
        ensures { IfOk result (λ server. IsUsable server.gateway) }
    {
        Ok(Server {
            alloc,
            gateway: Gateway::new(alloc)?,
            fetched: VecDeque::new(alloc),
        })
    }

    /// Does what a typed line says, and tells what came of it. Then upstream answers what was fetched
    /// by the lines before.
    pub fn serve(&mut self, rt: &HostRuntime, typed: &str) -> io::Result<()>
        requires { IsUsable self.old.gateway }
        ensures { IsUsable self.new.gateway }
    {
        let before = self.fetched.len();
        match Lines.read(self.alloc, typed.as_bytes())? {
            Some(line) => self.obey(rt, &line)?,
            None => println!(rt; "bad line")?,
        }
        self.answer(rt, before)
    }

    /// Lets upstream answer all that was fetched.
    pub fn answer_all(&mut self, rt: &HostRuntime) -> io::Result<()>
        requires { IsUsable self.old.gateway }
        ensures { IsUsable self.new.gateway }
    {
        let open = self.fetched.len();
        self.answer(rt, open)
    }

    // Does what a line says.
    fn obey(&mut self, rt: &HostRuntime, line: &Line) -> io::Result<()>
        requires { IsUsable self.old.gateway }
        ensures { IsUsable self.new.gateway }
    {
        match line {
            Line::Open => self.open(rt),
            Line::Feed { client, bytes } => self.feed(rt, *client, bytes.as_slice()),
            Line::Reply { key, answer } => self.reply(rt, *key, *answer),
            Line::Close { client } => self.close(rt, *client),
        }
    }

    fn open(&mut self, rt: &HostRuntime) -> io::Result<()>
        requires { IsUsable self.old.gateway }
        ensures { IsUsable self.new.gateway }
    {
        match self.gateway.open()? {
            Some(client) => println!(rt; "client {client}"),
            None => println!(rt; "refused"),
        }
    }

    fn feed(&mut self, rt: &HostRuntime, client: u64, bytes: &[u8]) -> io::Result<()>
        requires { IsUsable self.old.gateway }
        ensures { IsUsable self.new.gateway }
    {
        let outs = self.gateway.feed(client, bytes)?;
        self.carry_out(rt, outs)
    }

    fn reply(&mut self, rt: &HostRuntime, key: u32, answer: Result<u32, u32>) -> io::Result<()>
        requires { IsUsable self.old.gateway }
        ensures { IsUsable self.new.gateway }
    {
        let outs = self.gateway.reply(key, answer)?;
        self.fetched.retain(|open| *open != key);
        self.carry_out(rt, outs)
    }

    fn close(&mut self, rt: &HostRuntime, client: u64) -> io::Result<()>
        requires { IsUsable self.old.gateway }
        ensures { IsUsable self.new.gateway }
    {
        let outs = self.gateway.close(client)?;
        if outs.is_some() {
            println!(rt; "closed")?;
        }
        self.carry_out(rt, outs)
    }

    // Does what the gateway wants done.
    fn carry_out(&mut self, rt: &HostRuntime, outs: Option<OutList>) -> io::Result<()>
        requires { IsUsable self.old.gateway }
        ensures { IsUsable self.new.gateway }
    {
        let Some(outs) = outs else {
            return println!(rt; "refused");
        };
        for out in outs.iter() {
            self.carry_one_out(rt, out)?;
        }
        Ok(())
    }

    fn carry_one_out(&mut self, rt: &HostRuntime, out: &Out) -> io::Result<()>
        requires { IsUsable self.old.gateway }
        ensures { IsUsable self.new.gateway }
    {
        match out {
            Out::Fetch(key) => self.fetch(rt, *key),
            Out::Cancel(key) => self.cancel(rt, *key),
            Out::To { client, bytes } => send(rt, self.alloc, *client, bytes.as_slice()),
        }
    }

    fn fetch(&mut self, rt: &HostRuntime, key: u32) -> io::Result<()>
        requires { IsUsable self.old.gateway }
        ensures { IsUsable self.new.gateway }
    {
        self.fetched.push_back(key)?;
        println!(rt; "up fetch {key}")
    }

    fn cancel(&mut self, rt: &HostRuntime, key: u32) -> io::Result<()>
        requires { IsUsable self.old.gateway }
        ensures { IsUsable self.new.gateway }
    {
        self.fetched.retain(|open| *open != key);
        println!(rt; "up cancel {key}")
    }

    // Lets upstream answer so many of the requests that are open, the oldest first.
    fn answer(&mut self, rt: &HostRuntime, count: usize) -> io::Result<()>
        requires { IsUsable self.old.gateway }
        ensures { IsUsable self.new.gateway }
    {
        for _ in 0..count {
            if let Some(key) = self.fetched.pop_front() {
                self.reply(rt, key, look_up(key))?;
            }
        }
        Ok(())
    }
}

/// Sends bytes to a client.
fn send(rt: &HostRuntime, alloc: Global, client: u64, bytes: &[u8]) -> io::Result<()> {
    let text = shown(alloc, bytes)?;
    println!(rt; "to {client} {text}")
}
