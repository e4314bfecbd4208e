//! How a request about directories and names is served.

ghost use Rattle.std.specs.Prelude.{◌≡◌, ◌≢◌, false, length};
ghost use Rattle.dht_brick.specs.Contents.{entry_at};
ghost use Rattle.dht_brick.specs.Memory.{NameTakesNoMemory};
ghost use Rattle.dht_brick.specs.Named.{name_named};
ghost use Rattle.dht_brick.specs.Within.{NameMayBeSent};
ghost use Rattle.dht_brick.specs.declared.replies.Reply.{Reply};
ghost use Rattle.dht_brick.specs.declared.requests.NameRequest.{NameRequest};
ghost use Rattle.dht_names.specs.Kept.{tables_in};
ghost use Rattle.dht_names.specs.Served.{MeetsRow, lacks_dir};

use crate::brick_tables::Tables;
use dht_brick::files::FileRecords;
use dht_brick::replies::{Given, Reply, Why};
use dht_brick::requests::NameRequest;
use dht_types::identifiers::Gfid;
use dht_types::names::EntryKey;

/// The key of the slot that a request names, or else of an empty name in its directory.
fn slot_key(request: &NameRequest) -> EntryKey
    ensures { entry_at result ≡ name_named request.now }
{
    let (dir, name) = request.names();
    EntryKey { dir, name }
}

impl Tables {
    /// Serves one request about directories and names, beside these file records. It carries the
    /// request out or refuses it by the request's row. Or it has no memory for it, and does
    /// nothing: not where the request takes away a linkto or a mark, swaps a name, or settles a
    /// readied one.
    pub fn serve<F: FileRecords>(&mut self, request: &NameRequest, files: &mut F) -> Reply
        requires { NameMayBeSent (length (tables_in self.old).bricks) request.now }
        ensures row { MeetsRow request.now (tables_in self.old) (F.files files.old) result
            (tables_in self.new) (F.files files.new) }
        ensures memory { NameTakesNoMemory request.now → result ≢ Reply.NoMemory }
    {
        if self.lacks_dir(request) {
            return Reply::Refused(Why::Nodir);
        }
        self.serve_there(request, files)
    }

    /// Whether the request names a directory of which there is no record.
    fn lacks_dir(&self, request: &NameRequest) -> bool
        ensures { result ≡ lacks_dir (tables_in self.now).dirs request.now }
    {
        if let NameRequest::Orphans(_) = request {
            return false;
        }
        let (dir, _) = request.names();
        !self.dirs.contains(dir)
    }

    /// Serves a request, where the directory that it names is there.
    fn serve_there<F: FileRecords>(&mut self, request: &NameRequest, files: &mut F) -> Reply
        requires { lacks_dir (tables_in self.old).dirs request.now ≡ false }
        ensures row { MeetsRow request.now (tables_in self.old) (F.files files.old) result
            (tables_in self.new) (F.files files.new) }
        ensures memory { NameTakesNoMemory request.now → result ≢ Reply.NoMemory }
    {
        let key = slot_key(request);
        match request {
            NameRequest::Look(_, _) => self.look(&key, files),
            NameRequest::Page(dir, after) => self.page(*dir, after),
            NameRequest::Dirinfo(dir) => self.dirinfo(*dir),
            NameRequest::SetLayout(dir, value) => self.set_layout(*dir, value),
            NameRequest::MakeDir {
                made,
                depth,
                value,
                ..
            } => self.make_dir(&key, *made, *depth, value),
            NameRequest::DropDir(_, _, dir) => self.drop_dir(&key, *dir),
            NameRequest::Create(_, _, file) => self.create(&key, *file, files),
            NameRequest::MakeLinkto(_, _, value) => self.make_linkto(&key, value),
            NameRequest::DropLinkto(_, _) => self.drop_linkto(&key),
            NameRequest::Unlink(_, _, file) => self.unlink(&key, *file, files),
            NameRequest::Link(_, _, file) => self.link(&key, *file, files),
            NameRequest::LinkOver(_, _, file, over) => self.link_over(&key, *file, *over, files),
            NameRequest::Contest(_, _, file, brick) => self.contest(&key, *file, *brick, files),
            NameRequest::Uncontest(_, _, file) => self.uncontest(&key, *file),
            NameRequest::StandLink(_, _, file) => self.stand_link(&key, *file, files),
            NameRequest::DropStandLink(_, _, file) => self.drop_stand_link(&key, *file),
            NameRequest::Swap(_, _, file, value) => self.swap(&key, *file, value),
            NameRequest::PromoteLink(_, _, file) => self.promote_link(&key, *file),
            NameRequest::Orphans(after) => self.orphans(*after, files),
        }
    }

    /// Files of this brick above this one, or from the start, that have no links.
    fn orphans<F: FileRecords>(&self, after: Option<Gfid>, files: &F) -> Reply
        ensures { MeetsRow (NameRequest.Orphans after) (tables_in self.now)
            (F.files files.now) result (tables_in self.now) (F.files files.now) }
    {
        match files.orphans(after, self) {
            Ok(found) => Reply::Ok(Given::Orphans(found)),
            Err(_) => Reply::NoMemory,
        }
    }
}
