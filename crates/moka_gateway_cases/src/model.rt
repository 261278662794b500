//! A plain model of a gateway: one log of all requests, and of each client all the bytes that it sent,
//! which are read anew at each feed.

use crate::acts::Act;
use std::alloc::{AllocError, Global};

/// What a request was given, if anything was.
#[derive(Clone, Copy, PartialEq, Debug)]
enum Given {
    Not,
    Value(u32),
    Error(u32),
    Bad,
}

/// A request: its client, its key, if it has one, what it was given, and whether that was sent.
#[derive(Clone, Copy, PartialEq, Debug)]
struct Wish {
    client: u64,
    key: Option<u32>,
    given: Given,
    sent: bool,
}

/// What a client has sent so far, and how many requests of it were noted.
#[derive(Drop)]
struct Said {
    client: u64,
    bytes: Vec<u8>,
    noted: usize,
}

/// Clients that are open, requests in the order in which they came, and pairs that are stored.
#[derive(Drop)]
pub struct Model {
    open: Vec<Said>,
    wishes: Vec<Wish>,
    stored: Vec<(u32, u32)>,
    last: u64,
}

/// The key of a line that is the spelling of a request.
fn key_of(alloc: Global, line: &[u8]) -> Result<Option<u32>, AllocError> {
    let mut value: u64 = 0;
    for byte in line {
        if byte.is_ascii_digit() {
            value = value
                .wrapping_mul(10)
                .wrapping_add(u64::from(byte.wrapping_sub(b'0')));
        }
    }
    let spelled = format!(in alloc; "get {value}")?;
    if spelled.as_bytes() == line {
        return Ok(u32::try_from(value).ok());
    }
    Ok(None)
}

/// The requests of all these bytes, each by its key, if it has one.
fn keys_of(alloc: Global, bytes: &[u8]) -> Result<Vec<Option<u32>>, AllocError> {
    let mut keys = Vec::new(alloc);
    let mut line = Vec::new(alloc);
    for byte in bytes {
        if *byte == 10 {
            keys.push(key_of(alloc, &line)?)?;
            line.clear();
        } else {
            line.push(*byte)?;
        }
    }
    if line.len() > 64 {
        keys.push(None)?;
    }
    Ok(keys)
}

/// Adds a line to a text.
fn add_line(text: &mut String, line: &str) -> Result<(), AllocError> {
    if !text.is_empty() {
        text.push_str(" / ")?;
    }
    text.push_str(line)
}

/// The text of a reply.
fn reply_of(alloc: Global, given: Given) -> Result<String, AllocError> {
    match given {
        Given::Value(value) => format!(in alloc; "value {value};"),
        Given::Error(error) => format!(in alloc; "error {error};"),
        Given::Bad => String::from_str(alloc, "bad;"),
        Given::Not => Ok(String::new(alloc)),
    }
}

impl Model {
    /// Nothing has come yet.
    pub fn new(alloc: Global) -> Model {
        Model {
            open: Vec::new(alloc),
            wishes: Vec::new(alloc),
            stored: Vec::new(alloc),
            last: 0,
        }
    }

    /// Does one thing, and adds the lines of it to the text.
    pub fn carry_out(
        &mut self,
        alloc: Global,
        act: Act,
        text: &mut String,
    ) -> Result<(), AllocError> {
        match act {
            Act::Open => self.begin(alloc, text),
            Act::Feed(client, piece) => self.feed(alloc, client, piece, text),
            Act::Value(key, value) => self.give(alloc, key, Given::Value(value), text),
            Act::Error(key, error) => self.give(alloc, key, Given::Error(error), text),
            Act::Close(client) => self.close(alloc, client, text),
        }
    }

    fn begin(&mut self, alloc: Global, text: &mut String) -> Result<(), AllocError> {
        if self.open.len() == 1000 {
            return add_line(text, "refused");
        }
        self.last = self.last.wrapping_add(1);
        let client = self.last;
        self.open.push(Said {
            client,
            bytes: Vec::new(alloc),
            noted: 0,
        })?;
        let line = format!(in alloc; "client {client}")?;
        add_line(text, &line)
    }

    fn feed(
        &mut self,
        alloc: Global,
        client: u64,
        piece: &str,
        text: &mut String,
    ) -> Result<(), AllocError> {
        match self.note(alloc, client, piece)? {
            Some(keys) => {
                for key in &keys {
                    self.wish(alloc, client, *key, text)?;
                }
                self.send(alloc, client, text)
            }
            None => add_line(text, "refused"),
        }
    }

    // Notes what the client has sent, and lists the requests that are new by it.
    fn note(
        &mut self,
        alloc: Global,
        client: u64,
        piece: &str,
    ) -> Result<Option<Vec<Option<u32>>>, AllocError> {
        for index in 0..self.open.len() {
            if let Some(said) = self.open.get_mut(index) {
                if said.client == client {
                    return Ok(Some(hear(alloc, said, piece)?));
                }
            }
        }
        Ok(None)
    }

    // A request comes.
    fn wish(
        &mut self,
        alloc: Global,
        client: u64,
        key: Option<u32>,
        text: &mut String,
    ) -> Result<(), AllocError> {
        let mut given = Given::Bad;
        if let Some(key) = key {
            given = self.known(key);
            if given == Given::Not && !self.is_awaited(key) {
                let line = format!(in alloc; "up fetch {key}")?;
                add_line(text, &line)?;
            }
        }
        self.wishes.push(Wish {
            client,
            key,
            given,
            sent: false,
        })?;
        Ok(())
    }

    // What is stored under the key.
    fn known(&self, key: u32) -> Given {
        for (own, value) in &self.stored {
            if *own == key {
                return Given::Value(*value);
            }
        }
        Given::Not
    }

    // Whether some request waits for the key.
    fn is_awaited(&self, key: u32) -> bool {
        for wish in &self.wishes {
            if wish.key == Some(key) && wish.given == Given::Not {
                return true;
            }
        }
        false
    }

    // Sends the client the replies that are due.
    fn send(&mut self, alloc: Global, client: u64, text: &mut String) -> Result<(), AllocError> {
        let mut bytes = String::new(alloc);
        for index in 0..self.wishes.len() {
            let Some(wish) = self.wishes.get_mut(index) else {
                break;
            };
            if wish.client != client || wish.sent {
                continue;
            }
            if wish.given == Given::Not {
                break;
            }
            bytes.push_str(&reply_of(alloc, wish.given)?)?;
            wish.sent = true;
        }
        if bytes.is_empty() {
            return Ok(());
        }
        let line = format!(in alloc; "to {client} {bytes}")?;
        add_line(text, &line)
    }

    fn give(
        &mut self,
        alloc: Global,
        key: u32,
        given: Given,
        text: &mut String,
    ) -> Result<(), AllocError> {
        if !self.is_awaited(key) {
            return add_line(text, "refused");
        }
        for index in 0..self.wishes.len() {
            if let Some(wish) = self.wishes.get_mut(index) {
                if wish.key == Some(key) && wish.given == Given::Not {
                    wish.given = given;
                }
            }
        }
        if let Given::Value(value) = given {
            self.stored.push((key, value))?;
        }
        for client in 1..self.last.saturating_add(1) {
            self.send(alloc, client, text)?;
        }
        Ok(())
    }

    fn close(&mut self, alloc: Global, client: u64, text: &mut String) -> Result<(), AllocError> {
        if !self.shut(client) {
            return add_line(text, "refused");
        }
        add_line(text, "closed")?;
        let mut left = Vec::new(alloc);
        let mut gone = Vec::new(alloc);
        for wish in &self.wishes {
            if wish.client != client {
                left.push(*wish)?;
            } else if wish.given == Given::Not {
                gone.push(wish.key.unwrap_or(0))?;
            }
        }
        self.wishes = left;
        gone.sort()?;
        let mut before = None;
        for key in &gone {
            if before != Some(*key) && !self.is_awaited(*key) {
                let line = format!(in alloc; "up cancel {key}")?;
                add_line(text, &line)?;
            }
            before = Some(*key);
        }
        Ok(())
    }

    // Takes the client out of those that are open, if it is.
    fn shut(&mut self, client: u64) -> bool {
        for index in 0..self.open.len() {
            let found = match self.open.get(index) {
                Some(said) => said.client == client,
                None => false,
            };
            if found {
                let _ = self.open.remove(index);
                return true;
            }
        }
        false
    }
}

// Adds to what the client has said, and lists the requests that are new.
fn hear(alloc: Global, said: &mut Said, piece: &str) -> Result<Vec<Option<u32>>, AllocError> {
    for byte in piece.as_bytes() {
        let fed = if *byte == b';' { 10 } else { *byte };
        said.bytes.push(fed)?;
    }
    let keys = keys_of(alloc, &said.bytes)?;
    let mut new = Vec::new(alloc);
    for index in said.noted..keys.len() {
        if let Some(key) = keys.get(index) {
            new.push(*key)?;
        }
    }
    said.noted = keys.len();
    Ok(new)
}
