//! The words of a line, and the numbers among them.

ghost use Rattle.std.specs.Prelude.{◌≡◌, ◌<◌, ◌^◌, ◌∷◌, ◌==◌, decimal, position};
ghost use Rattle.std.specs.Option.{option_copied};
ghost use Rattle.std.specs.Iterator.{YieldsFirstRef, item_count};
ghost use Rattle.dht_sched.specs.Spelling.{words_of, words_left};
ghost use Rattle.dht_sched.specs.Reading.{Reads};

use itoa::Buffer;
use std::marker::Model;

/// The words of a line from left to right, which stand between its spaces. Between two spaces side
/// by side there is an empty word. Contracts see the list of those that are left.
#[derive(Drop)]
pub struct Words<'a> {
    rest: Option<&'a [u8]>,
}

impl<'a> Model for Words<'a> {
    ghost use Rattle.std.specs.Prelude.{ℕ, List};
    ghost use Rattle.std.specs.Option.{option_copied};
    ghost use Rattle.dht_sched.specs.Spelling.{words_left};

    ghost Value = { List (List ℕ) };

    ghost view = { λ w. words_left (option_copied w.rest) };
}

impl<'a> Words<'a> {
    /// The words of this line.
    pub fn of(line: &'a [u8]) -> Words<'a>
        ensures { result ≡ words_of line.now }
    {
        Words { rest: Some(line) }
    }
}

/// Where the first space of a text stands.
fn first_space(text: &[u8]) -> Option<usize>
    ensures { result ≡ position (λ b. b == 32) text.now }
{
    text.iter().position(|byte| *byte == b' ')
}

/// The first word of a text, and what is left behind the space after it, if there is one.
fn first_word(text: &[u8]) -> (&[u8], Option<&[u8]>)
    ensures { words_of text.now ≡ result.0.now ∷ words_left (option_copied result.1) }
{
    match first_space(text) {
        Some(at) => (&text[..at], Some(&text[at + 1..])),
        None => (text, None),
    }
}

impl<'a> Iterator for Words<'a> {
    type Item = &'a [u8];

    ghost next_gives = { YieldsFirstRef (λ words. words) };

    ghost remaining = { item_count (λ words. words) };

    fn next(&mut self) -> Option<&'a [u8]> {
        let (word, rest) = first_word(self.rest?);
        self.rest = rest;
        Some(word)
    }
}

/// The number that a word spells in decimal, as it is printed: with no sign and no leading zero.
pub fn number(word: &[u8]) -> Option<u64>
    ensures { Reads decimal (λ n. n < 2 ^ 64) word.now result }
{
    let number = str::from_utf8(word).ok()?.parse().ok()?;
    let mut buffer = Buffer::new();
    (buffer.format(number).as_bytes() == word).then_some(number)
}
