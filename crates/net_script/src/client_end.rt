// The end of a client.
ghost use Rattle.std.specs.Prelude.{◌≡◌, ◌<◌, None, OnErr, IfOk, option_map, if◌then◌else◌};
ghost use Rattle.net_script.specs.Clients.{ClientState, fresh, Submits, asked, takes, closed};

use aeg_base::limits::LAST_SEQ;
use aeg_base::{Bytes, Memory};
use std::alloc::Global;
use std::marker::Model;

/// A client: its last number, and the request that it opened with that number, until its reply comes.
#[derive(Drop)]
pub struct ClientEnd {
    alloc: Global,
    client: u8,
    last: u32,
    opened: Option<Bytes>,
}

impl Model for ClientEnd {
    ghost use Rattle.std.specs.Prelude.{ℕ};
    ghost use Rattle.net_script.specs.Clients.{ClientState};

    ghost Value = { ClientState };

    ghost view = { λ c. record { number = c.client; end = record { last = c.last; opened = c.opened } } };
}

impl ClientEnd {
    /// A client that asked for nothing yet.
    pub fn new(alloc: Global, client: u8) -> Self
        ensures { result ≡ fresh client }
    {
        ClientEnd {
            alloc,
            client,
            last: 0,
            opened: None,
        }
    }

    /// The client's number.
    pub fn client(&self) -> u8
        ensures { result ≡ self.now.number }
    {
        self.client
    }

    /// Opens the next request and answers its number, where none is open.
    pub fn submit(&mut self, body: &Bytes) -> Result<Option<u32>, Memory>
        requires { self.old.end.last < LAST_SEQ }
        ensures ok { IfOk result (Submits self.old self.new body.now) }
        ensures err { OnErr result (self.new ≡ self.old) }
    {
        if self.opened.is_some() {
            return Ok(None);
        }
        let body = Bytes::of(Vec::from_slice(self.alloc, body.items())?);
        self.last += 1;
        self.opened = Some(body);
        Ok(Some(self.last))
    }

    /// The open request with its number.
    pub fn pending(&self) -> Option<(u32, &Bytes)>
        ensures { option_map (λ request. (request.0, request.1.now)) result ≡ asked self.now }
    {
        let body = self.opened.as_ref()?;
        Some((self.last, body))
    }

    /// Closes the open request where it has this number, and answers whether it had.
    pub fn reply(&mut self, seq: u32) -> bool
        ensures answer { result ≡ takes self.old seq }
        ensures after { self.new ≡ (if result then closed self.old else self.old) }
    {
        if self.opened.is_none() || seq != self.last {
            return false;
        }
        self.opened = None;
        true
    }
}
