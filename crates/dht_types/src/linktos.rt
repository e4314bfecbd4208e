//! The value of a linkto, as a request carries it.

ghost use Rattle.std.specs.Prelude.{◌≡◌, ◌≤◌, ◌+◌, ◌++◌, length};
ghost use Rattle.dht_types.specs.Padded.{padded};

use super::bytes::overwrite;
use std::marker::Model;

/// The most bytes that the value of a linkto has: those of a brick's name, and a zero byte.
pub const LONGEST_LINKTO: usize = 65;

/// The value of a linkto, of at most 65 bytes, kept in place: a request that carries one takes no
/// memory. Contracts see it as the list of its bytes.
#[derive(Clone, Copy)]
pub struct LinktoValue {
    size: u8,
    bytes: [u8; 65],
}

impl Model for LinktoValue {
    ghost use Rattle.std.specs.Prelude.{ℕ, List, length, take};
    ghost use Rattle.dht_types.specs.Padded.{IsPadded, padded, length_back, places_back};

    ghost Value = { List ℕ };

    ghost view = { λ n. take n.size n.bytes };

    ghost invariant = { λ n. IsPadded 65 0 n.size n.bytes };

    ghost inverse = { λ xs. record { size = length xs; bytes = padded 65 0 xs } };

    ghost inverse_ok = { λ n h. λ i. record {
      size = length_back 65 0 n.size n.bytes h i;
      bytes = places_back 65 0 n.size n.bytes h i;
    } };
}

/// The bytes, and zeros behind them.
fn place_of(bytes: &[u8]) -> [u8; 65]
    requires { length bytes.now ≤ 65 }
    ensures { result ≡ padded 65 0 bytes.now }
{
    let mut place = [0u8; 65];
    place[..bytes.len()].copy_from_slice(bytes);
    place
}

impl LinktoValue {
    /// The value of these bytes. It takes no memory.
    pub fn new(bytes: &[u8]) -> LinktoValue
        requires { length bytes.now ≤ 65 }
        ensures { result ≡ bytes.now }
    {
        LinktoValue {
            size: bytes.len() as u8,
            bytes: place_of(bytes),
        }
    }

    /// The value with a piece behind its bytes. It takes no memory.
    pub fn with(&self, piece: &[u8]) -> LinktoValue
        requires { length self.now + length piece.now ≤ 65 }
        ensures { result ≡ self.now ++ piece.now }
    {
        let start = usize::from(self.size);
        let size = start + piece.len();
        let mut bytes = self.bytes;
        overwrite(&mut bytes, start, piece);
        LinktoValue {
            size: size as u8,
            bytes,
        }
    }

    /// Its bytes.
    pub fn as_slice(&self) -> &[u8]
        ensures { result.now ≡ self.now }
    {
        &self.bytes[..usize::from(self.size)]
    }
}
