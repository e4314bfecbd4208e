// The Tiny Encryption Algorithm (TEA) of Wheeler and Needham, and the construction of Davies and
// Meyer, which makes a hash of it.

ghost use Rattle.std.specs.Prelude.{◌≡◌};
ghost use Rattle.dht_hash.specs.DaviesMeyer.{mixture, cycle, encrypt, absorb};

// What TEA's sum grows by with each cycle.
const DELTA: u32 = 0x9e37_79b9;

/// The two words that TEA encrypts, which are the state of the hash.
#[derive(Clone, Copy)]
pub struct State {
    pub h0: u32,
    pub h1: u32,
}

impl State {
    /// The state before the first block.
    pub const START: State = State {
        h0: 0x9464_a485,
        h1: 0x542e_1a94,
    };

    /// The state plus its own encryption, for which the block is the key.
    #[tactic(auto, unfolding(crate::specs::DaviesMeyer::absorb))]
    pub fn absorb(self, block: &[u32; 4], cycles: u32) -> State
        ensures { result ≡ absorb cycles block.now self }
    {
        let encrypted = self.encrypt(block, cycles);
        State {
            h0: self.h0.wrapping_add(encrypted.h0),
            h1: self.h1.wrapping_add(encrypted.h1),
        }
    }

    fn encrypt(self, key: &[u32; 4], cycles: u32) -> State
        ensures { result ≡ encrypt key.now cycles self }
    {
        let mut state = self;
        let mut sum: u32 = 0;
        'cycles: for _ in 0..cycles {
            sum = sum.wrapping_add(DELTA);
            state = state.cycle(key, sum);
        }
        state
    }

    #[tactic(auto, unfolding(crate::specs::DaviesMeyer::cycle))]
    fn cycle(self, key: &[u32; 4], sum: u32) -> State
        ensures { result ≡ cycle key.now sum self }
    {
        let h0 = self.h0.wrapping_add(mixture(self.h1, sum, key[0], key[1]));
        let h1 = self.h1.wrapping_add(mixture(h0, sum, key[2], key[3]));
        State { h0, h1 }
    }
}

// What one half of the state adds to the other.
fn mixture(half: u32, sum: u32, left_key: u32, right_key: u32) -> u32
    ensures { result ≡ mixture half sum left_key right_key }
{
    (half << 4).wrapping_add(left_key)
        ^ half.wrapping_add(sum)
        ^ (half >> 5).wrapping_add(right_key)
}
