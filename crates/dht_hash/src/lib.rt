//! The hash of a file name, by which the volume spreads files over bricks.
#![tactic(auto)]

ghost use Rattle.std.specs.Prelude.{◌≡◌, ◌<◌, ◌^◌, ℕ, List};
ghost use Rattle.dht_hash.specs.DaviesMeyer.{dm};

mod block;
mod cipher;

use cipher::State;

const BLOCK_LEN: usize = 16;

// The cycles of TEA that a whole block and the last one are given. GlusterFS calls them rounds.
const BLOCK_CYCLES: u32 = 6;

const LAST_CYCLES: u32 = 10;

/// The hash of a file name, by which the volume spreads files over bricks.
///
/// For a name of up to 255 bytes, each from 1 to 127, it is GlusterFS's (`gf_dm_hashfn`). For other
/// names the two may differ: here each byte is a number from 0 to 255, and GlusterFS takes some as
/// signed characters, so that a byte above 127 counts as a negative number.
pub fn dm_hash(name: &[u8]) -> u32
    ensures { result ≡ dm name.now }
{
    let pad = u32::from_le_bytes([(name.len() % 256) as u8; 4]);
    let mut state = State::START;
    let mut rest = name;
    while let Some((bytes, after)) = rest.split_first_chunk::<BLOCK_LEN>() {
        state = state.absorb(&block::words(bytes, pad), BLOCK_CYCLES);
        rest = after;
    }
    let last = state.absorb(&block::words(rest, pad), LAST_CYCLES);
    last.h0 ^ last.h1
}

/// The hash of each name is below 2^32: this is a law for callers, and does nothing.
pub fn the_hash_is_a_word()
    ensures { (name : List ℕ) → dm name < 2 ^ 32 }
{}
