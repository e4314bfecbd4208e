//! What a program reads in a reply.

ghost use Rattle.std.specs.Prelude.{◌≡◌};
ghost use Rattle.dht_brick.specs.Kinds.{reply_kind};
ghost use Rattle.dht_types.specs.History.{is_carried};
ghost use Rattle.dht_section.specs.Replies.{fault_of, is_shown, file_shown, range_shown};
ghost use Rattle.dht_section.specs.Disk.{file_of_main, range_of_value};

use dht_brick::replies::{Given, Reply, Why};
use dht_types::bytes::Bytes;
use dht_types::errors::Errno;
use dht_types::identifiers::Gfid;
use dht_types::stored::Main;
use dht_xattr::range::{Range, decode};

/// The error that ends a call whose request was answered so, if it ends the call: the brick was
/// down, failed, or had no memory for the request.
pub fn fault_of(reply: &Reply) -> Option<Errno>
    ensures { result ≡ fault_of reply.now }
{
    match reply {
        Reply::Ok(_) => None,
        Reply::Refused(_) => None,
        Reply::Wait(_) => None,
        Reply::Down => Some(Errno::Enotconn),
        Reply::Failed => Some(Errno::Eio),
        Reply::NoMemory => Some(Errno::Enomem),
    }
}

/// Whether the request was carried out.
pub fn is_carried(reply: &Reply) -> bool
    ensures { result ≡ is_carried (reply_kind reply.now) }
{
    match reply {
        Reply::Ok(_) => true,
        Reply::Refused(_) => false,
        Reply::Wait(_) => false,
        Reply::Down => false,
        Reply::Failed => false,
        Reply::NoMemory => false,
    }
}

/// Whether the brick showed what was asked for, or that it has no record of the directory.
pub fn is_shown(reply: &Reply) -> bool
    ensures { result ≡ is_shown reply.now }
{
    match reply {
        Reply::Ok(_) => true,
        Reply::Refused(Why::Nodir) => true,
        _ => false,
    }
}

/// The file of a main part, if it is a file.
fn file_of_main(main: &Option<Main>) -> Option<Gfid>
    ensures { result ≡ file_of_main main.now }
{
    match main {
        Some(Main::File(file, _)) => Some(*file),
        _ => None,
    }
}

/// The file that a look found at the name. A brick that has no record of the directory has no name
/// of it.
pub fn file_shown(reply: &Reply) -> Option<Gfid>
    ensures { result ≡ file_shown reply.now }
{
    match reply {
        Reply::Ok(Given::Look(look)) => file_of_main(&look.slot.main),
        _ => None,
    }
}

/// The range of hashes that an attribute gives a brick, if it gives one.
#[tactic(auto, unfolding(crate::specs::Disk::range_of_value))]
fn range_of(value: &Option<Bytes>) -> Option<Range>
    ensures { result ≡ range_of_value value.now }
{
    match value {
        Some(value) => decode(value.as_slice()),
        None => None,
    }
}

/// The range of the directory that a look or a directory's record shows, if the brick has one.
pub fn range_shown(reply: &Reply) -> Option<Range>
    ensures { result ≡ range_shown reply.now }
{
    match reply {
        Reply::Ok(Given::Look(look)) => range_of(&look.value),
        Reply::Ok(Given::Dirinfo(info)) => range_of(&info.value),
        _ => None,
    }
}
