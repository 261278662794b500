//! A reader of a client's bytes.

ghost use Rattle.std.specs.Prelude.{◌≡◌, ◌++◌, IfOk, OnOk};
ghost use Rattle.std.specs.Option.{option_to_list};
ghost use Rattle.moka_requests.specs.Requests.{
  due,
  new_requests,
  nothing_yet,
  passing_over,
  unfinished_after,
  with_byte,
};

use crate::request::{Request, request_of};
use std::alloc::{AllocError, Global};
use std::marker::Model;

/// The byte that ends a line.
const END: u8 = 10;

/// The most bytes that a line may have, its end not counted.
const LONGEST: usize = 64;

/// A reader of one client's bytes, which come in any pieces. It tells the requests that they are:
/// each line once it has ended, and one of more than 64 bytes as soon as it has 65.
///
/// Contracts see what was sent of the line that hasn't ended.
#[derive(Drop)]
pub struct Reader {
    line: Vec<u8>,
    passing: bool,
}

impl Model for Reader {
    ghost use Rattle.moka_requests.specs.Requests.{Unfinished};

    ghost Value = { Unfinished };

    ghost view = { λ r. record { line = r.line.items; passing = r.passing } };
}

impl Reader {
    /// Makes a reader of a client that has sent nothing yet.
    pub fn new(alloc: Global) -> Reader
        ensures { result ≡ nothing_yet }
    {
        Reader {
            line: Vec::new(alloc),
            passing: false,
        }
    }

    /// Reads the next bytes of the client, and lists the requests that are due at them. After want of
    /// memory the reader is of no more use.
    #[tactic(auto, using(crate::proofs::Pieces::one_more, crate::proofs::Pieces::one_further))]
    pub fn read(&mut self, alloc: Global, bytes: &[u8]) -> Result<Vec<Request>, AllocError>
        ensures requests { IfOk result (λ list. list.items ≡ new_requests self.old bytes.now) }
        ensures unfinished { OnOk result (self.new ≡ unfinished_after self.old bytes.now) }
    {
        let mut requests = Vec::new(alloc);
        for byte in bytes {
            self.take_into(*byte, &mut requests)?;
        }
        Ok(requests)
    }

    // Takes one byte more, and lists the request that is due at it, if one is.
    fn take_into(&mut self, byte: u8, requests: &mut Vec<Request>) -> Result<(), AllocError>
        ensures due { OnOk result (requests.new.items
            ≡ requests.old.items ++ option_to_list (due self.old byte)) }
        ensures unfinished { OnOk result (self.new ≡ with_byte self.old byte) }
    {
        if let Some(request) = self.take(byte)? {
            requests.push(request)?;
        }
        Ok(())
    }

    // Takes one byte more, and tells the request that is due at it.
    fn take(&mut self, byte: u8) -> Result<Option<Request>, AllocError>
        ensures due { IfOk result (λ request. request ≡ due self.old byte) }
        ensures unfinished { OnOk result (self.new ≡ with_byte self.old byte) }
    {
        if byte == END {
            return Ok(self.end_line());
        }
        if self.passing {
            return Ok(None);
        }
        if self.line.len() >= LONGEST {
            self.pass_over();
            return Ok(Some(Request::Bad));
        }
        self.line.push(byte)?;
        Ok(None)
    }

    // The line ends, and is a request, unless it was passed over.
    fn end_line(&mut self) -> Option<Request>
        ensures due { result ≡ due self.old END }
        ensures unfinished { self.new ≡ nothing_yet }
    {
        let due = if self.passing {
            None
        } else {
            Some(request_of(&self.line))
        };
        self.line.clear();
        self.passing = false;
        due
    }

    // The rest of the line is passed over.
    fn pass_over(&mut self)
        ensures { self.new ≡ passing_over }
    {
        self.line.clear();
        self.passing = true;
    }
}
