//! The numbers of files and directories, bricks, clients and calls.

ghost use Rattle.std.specs.Prelude.{◌≡◌, ◌≢◌, ◌<◌, ◌^◌, IfSome, IfNone};
ghost use Rattle.dht_types.specs.declared.identifiers.Gfid.{Gfid};
ghost use Rattle.dht_types.specs.Gfid.{root, made, home, anchor};
ghost use Rattle.dht_types.specs.Text.{gfid_text};

use uuid::Uuid;

/// The identifier of a file or a directory, as GlusterFS's gfid: 128 bits, which a brick keeps with
/// each file and directory. From high to low it has the run in which it was made (32 bits), the
/// client (16 bits), the call (64 bits) and the home brick (16 bits).
#[derive(Clone, Copy, Debug, PartialEq, Eq, PartialOrd, Ord)]
pub struct Gfid(pub u128);

/// The number of a brick, from 0.
#[derive(Clone, Copy, PartialEq, Eq, PartialOrd, Ord)]
pub struct BrickNo(pub u16);

/// The number of a client, from 0.
#[derive(Clone, Copy, PartialEq, Eq, PartialOrd, Ord)]
pub struct ClientNo(pub u16);

/// The number of an accepted call, from 1, over a whole replay.
#[derive(Clone, Copy, PartialEq, Eq, PartialOrd, Ord)]
pub struct CallNo(pub u64);

impl Gfid {
    /// The root directory of each volume, as in GlusterFS.
    pub const ROOT: Gfid = Gfid(1);

    /// The gfid that a call of a client makes, with this home brick.
    pub fn made(run: u32, client: ClientNo, call: CallNo, home: BrickNo) -> Gfid
        ensures { result ≡ made run client call home.0 }
    {
        let high = u128::from(run) * 0x1_0000 + u128::from(client.0);
        let low = u128::from(call.0) * 0x1_0000 + u128::from(home.0);
        Gfid(high * 0x1_0000_0000_0000_0000_0000 + low)
    }

    /// The brick whose copy of a directory comes first and goes last: the low 16 bits, and 0 for
    /// the root.
    pub fn home(self) -> BrickNo
        ensures { result.0 ≡ home self }
    {
        if self.0 == 1 {
            BrickNo(0)
        } else {
            BrickNo((self.0 % 0x1_0000) as u16)
        }
    }

    /// The brick on which the locks of a directory and of its names stand.
    pub fn anchor(self, bricks: u16) -> BrickNo
        requires { 0 < bricks }
        ensures { result.0 ≡ anchor self bricks }
    {
        BrickNo((self.0 / 0x1_0000 % 0x1_0000_0000 % u128::from(bricks)) as u16)
    }

    /// Its text, as of a UUID: 32 hexadecimal digits in lower case, with hyphens between the groups
    /// of 8, 4, 4, 4 and 12.
    pub fn text(self) -> [u8; 36]
        ensures { result ≡ gfid_text self }
    {
        let mut buffer = Uuid::encode_buffer();
        let written = Uuid::from_u128(self.0)
            .hyphenated()
            .encode_lower(&mut buffer);
        let mut text = [0u8; 36];
        text.copy_from_slice(written.as_bytes());
        text
    }

    /// The gfid of a text, where it is such a text, in lower case.
    pub fn parse(text: &[u8]) -> Option<Gfid>
        ensures some { IfSome result (λ g. text.now ≡ gfid_text g) }
        ensures none { IfNone result ((g : Gfid) → g.0 < 2 ^ 128 → text.now ≢ gfid_text g) }
    {
        let Ok(uuid) = Uuid::try_parse_ascii(text) else {
            return None;
        };
        let gfid = Gfid(uuid.as_u128());
        if gfid.text().as_slice() == text {
            Some(gfid)
        } else {
            None
        }
    }
}

/// A text is of one gfid: this is a law for callers, and does nothing.
pub fn text_is_of_one_gfid()
    ensures { (a b : Gfid) → a.0 < 2 ^ 128 → b.0 < 2 ^ 128 → gfid_text a ≡ gfid_text b → a ≡ b }
{}
