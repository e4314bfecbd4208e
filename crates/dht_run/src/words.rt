//! The words of the command line.

ghost use Rattle.std.specs.Prelude.{ℕ, ◌≡◌, ◌≢◌, ◌≤◌, List, ◌∷◌, All, map, codes, decimal, Ok, None, IfOk, IfSome, IfNone};
ghost use Rattle.std.specs.List.{list_any};
ghost use Rattle.dht_run.specs.Program.{IsCommand, AskFor, SpellWeights, begins_with_dash};

use dht_sched::{is_volume, read_weight};
use dht_types::volumes::Weights;
use std::alloc::{AllocError, Global};
use std::marker::Model;

/// A word of the command line. Contracts see it as the list of its bytes.
#[derive(Debug, Drop)]
pub struct Word {
    bytes: Vec<u8>,
}

impl Model for Word {
    ghost use Rattle.std.specs.Prelude.{ℕ, List};

    ghost Value = { List ℕ };

    ghost view = { λ w. w.bytes.items };
}

impl Word {
    /// The word of these bytes.
    pub fn new(alloc: Global, bytes: &[u8]) -> Result<Word, AllocError>
        ensures { IfOk result (λ w. w ≡ bytes.now) }
    {
        Ok(Word {
            bytes: bytes.to_vec(alloc)?,
        })
    }

    /// Its bytes.
    pub fn as_bytes(&self) -> &[u8]
        ensures { result.now ≡ self.now }
    {
        self.bytes.as_slice()
    }
}

/// What the words of the command line ask for.
#[derive(Drop)]
pub enum Command<'a> {
    /// To replay the schedule that the source gives.
    Replay,
    /// To print the hash of each of these names.
    Hash(&'a [Word]),
    /// To print the layout of the root directory of a volume of these weights.
    Layout(Weights),
}

/// Whether a word begins with `-`.
fn begins_with_dash(word: &[u8]) -> bool
    ensures { result ≡ begins_with_dash word.now }
{
    match word {
        [first, ..] => *first == b'-',
        [] => false,
    }
}

/// Whether one of these words begins with `-`.
fn has_dash(words: &[Word]) -> bool
    ensures { result ≡ list_any begins_with_dash words.now }
{
    words.iter().any(|word| begins_with_dash(word.as_bytes()))
}

/// The command `replay`, which has no words behind it.
fn replay(behind: &[Word]) -> Option<Command<'_>>
    ensures some { IfSome result (AskFor (codes "replay" ∷ behind.now)) }
    ensures none { IfNone result (¬ IsCommand (codes "replay" ∷ behind.now)) }
{
    behind.is_empty().then_some(Command::Replay)
}

/// The command `hash`, by the words behind it.
fn hash(behind: &[Word]) -> Option<Command<'_>>
    ensures some { IfSome result (AskFor (codes "hash" ∷ behind.now)) }
    ensures none { IfNone result (¬ IsCommand (codes "hash" ∷ behind.now)) }
{
    if behind.is_empty() || has_dash(behind) {
        return None;
    }
    Some(Command::Hash(behind))
}

/// The weight that each of these words spells, if each spells one.
fn weights_of(alloc: Global, words: &[Word]) -> Result<Option<Weights>, AllocError>
    ensures some { IfOk result (λ o. IfSome o (SpellWeights words.now)) }
    ensures none { result ≡ Ok None → (weights : List ℕ) → ¬ SpellWeights words.now weights }
{
    let mut weights = Vec::new(alloc);
    for word in words {
        let Some(weight) = read_weight(word.as_bytes()) else {
            return Ok(None);
        };
        weights.push(weight)?;
    }
    Ok(Some(Weights::new(weights)))
}

/// The command `layout`, by the words behind it.
fn layout(alloc: Global, behind: &[Word]) -> Result<Option<Command<'_>>, AllocError>
    ensures some { IfOk result (λ o. IfSome o (AskFor (codes "layout" ∷ behind.now))) }
    ensures none { result ≡ Ok None → ¬ IsCommand (codes "layout" ∷ behind.now) }
{
    let Some(weights) = weights_of(alloc, behind)? else {
        return Ok(None);
    };
    if !is_volume(weights.as_slice()) {
        return Ok(None);
    }
    Ok(Some(Command::Layout(weights)))
}

impl<'a> Command<'a> {
    /// What these words ask for, if they are a command.
    pub fn of(alloc: Global, words: &'a [Word]) -> Result<Option<Command<'a>>, AllocError>
        ensures some { IfOk result (λ o. IfSome o (AskFor words.now)) }
        ensures none { result ≡ Ok None → ¬ IsCommand words.now }
    {
        let Some((first, behind)) = words.split_first() else {
            return Ok(None);
        };
        match first.as_bytes() {
            b"replay" => Ok(replay(behind)),
            b"hash" => Ok(hash(behind)),
            b"layout" => layout(alloc, behind),
            _ => Ok(None),
        }
    }
}
