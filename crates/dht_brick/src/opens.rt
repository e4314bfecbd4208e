//! The registrations of files that clients have opened.

use dht_types::identifiers::{CallNo, ClientNo, Gfid};

/// A file that a client has opened in a call. While a file has a registration it is not sealed.
#[derive(Clone, Copy, PartialEq, Eq, PartialOrd, Ord)]
pub struct Registration {
    pub file: Gfid,
    pub client: ClientNo,
    pub call: CallNo,
}
