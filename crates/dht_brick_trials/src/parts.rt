//! The tables and the file records of a brick alone, where states can be set that no request leads
//! to.

ghost use Rattle.std.specs.Prelude.{◌≡◌, ◌≤◌, length};
ghost use Rattle.dht_brick.specs.Within.{MayBeSent};
ghost use Rattle.dht_names.specs.Kept.{tables_in};

use crate::brick::{DUMPED_AS, volume};
use crate::fault::Fault;
use crate::records::{self, Owner};
use crate::words::Words;
use crate::{requests, stored, told};
use dht_brick::replies::Reply;
use dht_brick::requests::Request;
use dht_brick::slots::Slots;
use dht_files::Files;
use dht_names::Tables;
use dht_types::identifiers::Gfid;
use dht_types::names::EntryKey;
use dht_types::saved::Saved;
use std::alloc::{AllocError, Global};

/// Tables and file records, which serve requests about names and files.
#[derive(Drop)]
pub(crate) struct Parts {
    alloc: Global,
    bricks: u16,
    tables: Tables,
    files: Files,
    /// The record that was saved last.
    kept: Option<Saved>,
    ghost knows: { length (tables_in tables).bricks ≡ bricks },
    ghost some: { 1 ≤ bricks },
}

impl Parts {
    /// No records, of a volume of so many bricks.
    pub(crate) fn new(alloc: Global, bricks: u16) -> Result<Parts, Fault> {
        if bricks == 0 {
            return Err(Fault::Unreadable);
        }
        let volume = volume(alloc, bricks, 1)?;
        Ok(Parts {
            alloc,
            bricks,
            tables: Tables::new(alloc, &volume)?,
            files: Files::new(alloc),
            kept: None,
        })
    }

    /// Carries out what a line says, and tells the answer.
    pub(crate) fn obey(&mut self, line: &str, out: &mut String) -> Result<(), Fault> {
        let mut words = Words::new(self.alloc, self.bricks, line);
        let kind = words.word();
        if let Some(request) = requests::request(kind, &mut words) {
            words.end()?;
            return Ok(told::reply(out, &self.serve(&request)?)?);
        }
        match kind {
            "first" | "next" => self.key(kind, words, out),
            "shape" => self.shape(words, out),
            "set" | "lose" | "keep" | "bring" => {
                self.save(kind, words)?;
                Ok(out.push_str("ok")?)
            }
            _ => {
                self.change(kind, words)?;
                Ok(out.push_str("ok")?)
            }
        }
    }

    /// The lines of what they contain.
    pub(crate) fn dump(&self) -> Result<Vec<String>, AllocError> {
        let mut lines = Vec::new(self.alloc);
        self.tables.dump_dirs(DUMPED_AS, &mut lines)?;
        self.tables.dump_slots(DUMPED_AS, &mut lines)?;
        self.files.dump(DUMPED_AS, &self.tables, &mut lines)?;
        stored::lines(self.alloc, lines.as_slice())
    }

    /// The reply to a request about a name or a file.
    fn serve(&mut self, request: &Request) -> Result<Reply, Fault>
        requires { MayBeSent self.old.bricks request.now }
    {
        match request {
            Request::OnNames(request) => Ok(self.tables.serve(request, &mut self.files)),
            Request::OnFile(request) => Ok(self.files.serve(request, &mut self.tables)),
            _ => Err(Fault::Unreadable),
        }
    }

    /// A change that no request makes.
    fn change(&mut self, kind: &str, mut words: Words<'_>) -> Result<(), Fault> {
        match kind {
            "make" => self.make(words.gfid())?,
            "makeall" => {
                let first = words.number();
                for place in 0..words.number() {
                    self.make(Gfid(u128::from(first) + u128::from(place)))?;
                }
            }
            "remove" => self.files.remove(words.gfid()),
            "forget" => self.files.forget(),
            "putcopy" => {
                let key = EntryKey {
                    dir: words.gfid(),
                    name: words.name(),
                };
                self.tables.put_copy(&key, words.gfid())?;
            }
            _ => return Err(Fault::Unreadable),
        }
        words.end()
    }

    /// A record is set, lost, saved, or brought back.
    fn save(&mut self, kind: &str, mut words: Words<'_>) -> Result<(), Fault> {
        let owner = records::read_owner(&mut words);
        match kind {
            "set" => {
                let saved = records::read_saved(self.alloc, owner, &mut words)?;
                words.end()?;
                self.restore(owner, Some(&saved))
            }
            "keep" => {
                self.kept = match owner {
                    Owner::Dir(dir) => self.tables.saved(dir)?,
                    Owner::File(file) => self.files.saved(file)?,
                };
                words.end()
            }
            "bring" => {
                let kept = self.kept.take();
                self.restore(owner, kept.as_ref())?;
                self.kept = kept;
                words.end()
            }
            _ => {
                self.restore(owner, None)?;
                words.end()
            }
        }
    }

    /// Makes a file that has no record.
    fn make(&mut self, file: Gfid) -> Result<(), Fault> {
        if self.files.contains(file) {
            return Err(Fault::Unreadable);
        }
        Ok(self.files.make(file)?)
    }

    /// Puts a saved record in place of what is there, if it is one of this directory or file.
    fn restore(&mut self, owner: Owner, saved: Option<&Saved>) -> Result<(), Fault> {
        match (owner, saved) {
            (Owner::Dir(dir), None) => Ok(self.tables.restore(dir, None)?),
            (Owner::File(file), None) => Ok(self.files.restore(file, None)?),
            (Owner::Dir(dir), Some(saved)) if records::is_dir_of(dir, saved) => {
                Ok(self.tables.restore(dir, Some(saved))?)
            }
            (Owner::File(file), Some(saved)) if records::is_file_of(file, saved) => {
                Ok(self.files.restore(file, Some(saved))?)
            }
            _ => Err(Fault::Unreadable),
        }
    }

    /// The outline of a file's record.
    fn shape(&self, mut words: Words<'_>, out: &mut String) -> Result<(), Fault> {
        let shape = self.files.shape(words.gfid());
        words.end()?;
        let word = told::state_word(shape.state);
        write!(
            out,
            "ok, {word}, hop {}, brick {}",
            shape.hop, shape.brick.0
        )?;
        Ok(write!(out, ", length {}", shape.length)?)
    }

    /// The first directory or file, or the next one above one.
    fn key(&self, kind: &str, mut words: Words<'_>, out: &mut String) -> Result<(), Fault> {
        let of = words.word();
        let after = if kind == "first" {
            None
        } else {
            Some(words.gfid())
        };
        words.end()?;
        let key = match of {
            "dir" => self.tables.next_key(after),
            "file" => self.files.next_key(after),
            _ => return Err(Fault::Unreadable),
        };
        match key {
            None => Ok(out.push_str("ok, none")?),
            Some(key) => {
                out.push_str("ok, ")?;
                Ok(told::gfid(out, key)?)
            }
        }
    }
}
