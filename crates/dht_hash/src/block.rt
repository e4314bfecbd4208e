// The four words of a block.

ghost use Rattle.std.specs.Prelude.{◌≡◌, ℕ, suc, ◌∷◌};
ghost use Rattle.dht_hash.specs.DaviesMeyer.{words};

use byteorder::{ByteOrder, LittleEndian};

const WORD_LEN: usize = 4;

/// The words of a block of 16 bytes, or of the last one, of fewer bytes and pads after them.
pub fn words(bytes: &[u8], pad: u32) -> [u32; 4]
    ensures { result ≡ words pad 4 bytes.now }
{
    let (first, bytes) = split_word(bytes, pad);
    let (second, bytes) = split_word(bytes, pad);
    let (third, bytes) = split_word(bytes, pad);
    let (fourth, _) = split_word(bytes, pad);
    [first, second, third, fourth]
}

// The first word, and the bytes that the words after it are made of.
fn split_word(bytes: &[u8], pad: u32) -> (u32, &[u8])
    ensures { (n : ℕ) → words pad (suc n) bytes.now ≡ result.0 ∷ words pad n result.1.now }
{
    match bytes.split_first_chunk::<WORD_LEN>() {
        Some((word, rest)) => (LittleEndian::read_u32(word), rest),
        None => {
            let word = bytes
                .iter()
                .fold(pad, |word, byte| (word << 8) | u32::from(*byte));
            (word, &[])
        }
    }
}
