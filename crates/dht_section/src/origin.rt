//! Where the gfids of new files and directories come from.

ghost use Rattle.std.specs.Prelude.{◌≡◌};
ghost use Rattle.dht_section.specs.Origin.{origin_gfid};

use dht_types::identifiers::{BrickNo, CallNo, ClientNo, Gfid};

/// Where a gfid comes from: the call that makes it, of which client and in which run.
#[derive(Clone, Copy)]
pub struct Origin {
    pub run: u32,
    pub client: ClientNo,
    pub call: CallNo,
}

impl Origin {
    /// The gfid that its call makes, with this brick as its home.
    pub fn gfid(&self, home: BrickNo) -> Gfid
        ensures { result ≡ origin_gfid self.now home.0 }
    {
        Gfid::made(self.run, self.client, self.call, home)
    }
}
