//! The journal of a brick: an entry for each request that it served.

ghost use Rattle.std.specs.Prelude.{◌≡◌, ◌≤◌, ◌-◌, [], ◌∷◌, ◌++◌, OnOk, OnErr};
ghost use Rattle.dht_brick.specs.Named.{entry_of};

use super::replies::Reply;
use super::requests::Request;
use dht_types::identifiers::{CallNo, ClientNo, Gfid};
use dht_types::lines::{ReplyKind, RequestKind};
use dht_types::names::Name;
use std::alloc::{AllocError, Global};
use std::marker::Model;

/// What a brick notes of a request that it served. It needs no memory of its own.
#[derive(Clone, Copy)]
pub struct JournalEntry {
    /// The directory of the slot or the lock, or else the directory or file, or 0.
    pub gfid: Gfid,
    /// The name of the slot or the lock, or else empty.
    pub name: Name,
    /// In which call.
    pub call: CallNo,
    /// The offset of the bytes that were read or written, or else 0.
    pub offset: u64,
    /// Their number, or the length that was set, or else 0.
    pub length: u64,
    /// Who asked.
    pub client: ClientNo,
    /// What was asked.
    pub request: RequestKind,
    /// What was replied.
    pub reply: ReplyKind,
}

impl JournalEntry {
    /// The entry of a request and its reply.
    pub fn of(client: ClientNo, call: CallNo, request: &Request, reply: &Reply) -> JournalEntry
        ensures { result ≡ entry_of client call request.now reply.now }
    {
        let (gfid, name) = request.names();
        let (offset, length) = request.span();
        JournalEntry {
            client,
            call,
            request: request.kind(),
            gfid,
            name,
            offset,
            length,
            reply: reply.kind(),
        }
    }
}

/// The entries of a brick, the oldest first, and room for more. Contracts see both.
#[derive(Drop)]
pub struct Journal {
    entries: Vec<JournalEntry>,
}

impl Model for Journal {
    ghost use Rattle.std.specs.Prelude.{◌-◌, vec_len, vec_capacity};
    ghost use Rattle.dht_brick.specs.Entries.{Entries};

    ghost Value = { Entries };

    ghost view = { λ j. record {
      each = j.entries.items;
      spare = vec_capacity j.entries - vec_len j.entries;
    } };
}

impl Journal {
    /// No entries.
    pub fn new(alloc: Global) -> Journal
        ensures { result.each ≡ [] }
    {
        Journal {
            entries: Vec::new(alloc),
        }
    }

    /// Each entry.
    pub fn as_slice(&self) -> &[JournalEntry]
        ensures { result.now ≡ self.now.each }
    {
        self.entries.as_slice()
    }

    /// Makes room for one more entry.
    pub fn make_room(&mut self) -> Result<(), AllocError>
        ensures room { OnOk result (1 ≤ self.new.spare) }
        ensures each { self.new.each ≡ self.old.each }
        ensures err { OnErr result (self.new ≡ self.old) }
    {
        self.entries.reserve(1)
    }

    /// Adds an entry, for which there is room. It takes no memory.
    pub fn note(&mut self, entry: JournalEntry)
        requires { 1 ≤ self.old.spare }
        ensures { self.new
            ≡ record { each = self.old.each ++ entry ∷ []; spare = self.old.spare - 1 } }
    {
        self.entries.push_reserved(entry);
    }
}
