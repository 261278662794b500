//! One client: its bytes and its requests.

ghost use Rattle.std.specs.Prelude.{◌≡◌, ◌+◌, drop, IfOk, OnOk};
ghost use Rattle.std.specs.String.{string_bytes};
ghost use Rattle.moka_requests.specs.Requests.{new_requests, unfinished_after};
ghost use Rattle.moka_collapsing.specs.Clients.{due_bytes, flushed, front_answer, made, new_client, with_answer, with_request};

use crate::answer::{Answer, write_reply};
use crate::slot::Slot;
use moka_requests::{Reader, Request};
use std::alloc::{AllocError, Global};
use std::collections::VecDeque;
use std::marker::Model;

/// One client: what it sent of a line that hasn't ended, and its requests that haven't left, each
/// with its answer or waiting.
#[derive(Drop)]
pub struct Client {
    reader: Reader,
    sent: u64,
    slots: VecDeque<Slot>,
}

impl Model for Client {
    ghost use Rattle.moka_collapsing.specs.Clients as clients;

    ghost Value = { clients.Client };

    ghost view = { λ c. record { unfinished = c.reader; sent = c.sent; requests = c.slots.items } };
}

impl Client {
    /// Makes a client that has sent nothing yet.
    pub fn new(alloc: Global) -> Client
        ensures { result ≡ new_client }
    {
        Client {
            reader: Reader::new(alloc),
            sent: 0,
            slots: VecDeque::new(alloc),
        }
    }

    /// Reads the client's next bytes, and lists the requests that are due at them.
    pub fn read(&mut self, alloc: Global, bytes: &[u8]) -> Result<Vec<Request>, AllocError>
        ensures requests { IfOk result (λ list.
            list.items ≡ new_requests self.old.unfinished bytes.now) }
        ensures unfinished { OnOk result (self.new ≡
            record self.old { unfinished = unfinished_after self.old.unfinished bytes.now }) }
    {
        self.reader.read(alloc, bytes)
    }

    /// How many requests the client has made. The end of the numbers counts as want of memory.
    pub fn made(&self) -> Result<u64, AllocError>
        ensures { IfOk result (λ count. count ≡ made self.now) }
    {
        let waiting = self.slots.len() as u64;
        self.sent.checked_add(waiting).ok_or(AllocError)
    }

    /// Adds a request, which is the client's last.
    pub fn add(&mut self, slot: Slot) -> Result<(), AllocError>
        ensures { OnOk result (self.new ≡ with_request self.old slot) }
    {
        self.slots.push_back(slot)?;
        Ok(())
    }

    /// Gives the request of this index its answer.
    pub fn answer(&mut self, index: u64, answer: Answer)
        ensures { self.new ≡ with_answer self.old index answer }
    {
        let at = index.saturating_sub(self.sent) as usize;
        if let Some(slot) = self.slots.get_mut(at) {
            *slot = Slot::Answered(answer);
        }
    }

    /// Lets the requests at the front leave that have their answers, and writes the replies to them.
    pub fn flush(&mut self, alloc: Global) -> Result<String, AllocError>
        ensures bytes { IfOk result (λ text. string_bytes text ≡ due_bytes self.old) }
        ensures left { OnOk result (self.new ≡ flushed self.old) }
    {
        let mut text = String::new(alloc);
        while let Some(answer) = self.front() {
            write_reply(&mut text, answer)?;
            self.leave_first()?;
        }
        Ok(text)
    }

    // The first request leaves, if there is one. The end of the numbers counts as want of memory.
    fn leave_first(&mut self) -> Result<(), AllocError>
        ensures { OnOk result (self.new ≡ record self.old {
          sent = self.old.sent + 1;
          requests = drop 1 self.old.requests;
        }) }
    {
        self.sent = self.sent.checked_add(1).ok_or(AllocError)?;
        let _ = self.slots.pop_front();
        Ok(())
    }

    // The answer of the first request, if it has one.
    fn front(&self) -> Option<Answer>
        ensures { result ≡ front_answer self.now.requests }
    {
        match self.slots.front() {
            Some(Slot::Answered(answer)) => Some(*answer),
            _ => None,
        }
    }

    /// Gives the requests up that haven't left.
    pub fn into_slots(self) -> VecDeque<Slot>
        ensures { result.items ≡ self.requests }
    {
        self.slots
    }
}
