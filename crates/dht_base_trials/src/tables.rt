//! The reader of tables. A line is `ask = answer`, where an ask is a verb and its words. A line
//! that is empty or begins with `#` says nothing.

use crate::events::{long_told, read_told};
use crate::layouts::{
    hash_told, layout_told, linkto_told, plan_told, planned_value_told, range_of_bytes_told,
};
use crate::values::{bytes_told, gfid_told, made_told, replay_told, volume_told};
use std::alloc::{AllocError, Global};
use std::process::Abort;

/// The answer to an ask.
fn answer(alloc: Global, ask: &str) -> Result<String, AllocError> {
    let (verb, words) = ask.split_once(' ').unwrap_or((ask, ""));
    match verb {
        "hash" => hash_told(alloc, words),
        "plan" => plan_told(alloc, words),
        "value" => planned_value_told(alloc, words),
        "layout" => layout_told(alloc, words),
        "range" => range_of_bytes_told(alloc, words),
        "linkto" => linkto_told(alloc, words),
        "gfid" => gfid_told(alloc, words),
        "made" => made_told(alloc, words),
        "volume" => volume_told(alloc, words),
        "replay" => replay_told(alloc, words),
        "bytes" => bytes_told(alloc, words),
        "read" => read_told(alloc, words),
        "long" => long_told(alloc, words),
        _ => format!(in alloc; "no such verb"),
    }
}

/// Compares what each line of a table asks with the answer that stands there.
pub fn compare(rt: &(impl Abort + AllocGlobal), table: &str) -> Result<(), AllocError> {
    for line in table.lines() {
        let line = line.trim_start();
        match line.rsplit_once(" = ") {
            Some((ask, wanted)) => {
                let answer = answer(rt.alloc(), ask)?;
                assert_eq!(rt; answer.trim_start(), wanted, "{ask}");
            }
            None => assert!(rt; line.is_empty() || line.starts_with('#'), "{line}"),
        }
    }
    Ok(())
}

/// The numbers below 2^16 of these words.
pub fn decimals(alloc: Global, words: &str) -> Result<Vec<u16>, AllocError> {
    let mut numbers = Vec::new(alloc);
    for word in words.split_whitespace() {
        numbers.push(word.parse().unwrap_or(u16::MAX))?;
    }
    Ok(numbers)
}
