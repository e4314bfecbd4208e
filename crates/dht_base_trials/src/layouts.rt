//! Hashes of names, ranges, layouts, plans and linkto values.

use crate::tables::{compare, decimals};
use dht_hash::dm_hash;
use dht_types::identifiers::{BrickNo, Gfid};
use dht_types::volumes::{MOST_BRICKS, Volume, VolumeFault, Weights};
use dht_xattr::faults::faults;
use dht_xattr::layout::{Layout, MOST_RANGES, holder};
use dht_xattr::linkto::{linkto_brick, linkto_bytes};
use dht_xattr::plan::{plan, planned_value};
use dht_xattr::range::{Range, decode, encode};
use std::alloc::{AllocError, Global};
use std::test::Fail;

const TABLE: &str = "
    # the hash of so many times a text; these are values of another implementation, in Python
    hash 0 a = 884774a2
    hash 1 a = 3a17e4e6
    hash 4 a = 10055b22
    hash 15 a = 6c658e4f
    hash 16 a = 4b7bcfa6
    hash 17 a = 3a11e11a
    hash 255 a = 13717738
    hash 1 Grüße 世界.txt = cef61f69

    # the plan of a directory in a volume of these weights
    plan 1 1 1 = 0-7ffffffe 7fffffff-ffffffff
    plan 10000 1 1 = 7fffffff-ffffffff 0-7ffffffe
    plan 1 0 1 1000 = - 0-417873 417874-ffffffff

    # the attribute that is planned for a brick in a directory, in a volume of these weights
    value 1 0 1 1 = 0000000000000000000000007ffffffe
    value 1 1 1 1 = 00000000000000007fffffffffffffff
    value 1 1 1 0 1 1000 = none
    value 1 0 0 0 = none

    # a hash, and the ranges of a layout: the holder of the hash, and what is wrong with the layout
    layout 7fffffff 0-7ffffffe 7fffffff-ffffffff = 1
    layout 9 0-9 9-fffffffe = 0 holes overlaps
    layout ffffffff 0-9 9-fffffffe = none holes overlaps
    layout 5 0-ffffffff 5-4 = 0
    layout 4 5-ffffffff 0-4 - = 1

    # bytes: the range that they say, and the bytes of that range, which are its commit word, the
    # type, and its first and last hash
    range 00000000000000000000000000000000 = 0-0, 00000000000000000000000000000000
    range 000000070000000000417874ffffffff = 417874-ffffffff by 7, 000000070000000000417874ffffffff
    range 0000000000000000000000000000000000 = none
    range 00000000000000010000000000000000 = none
    range 00000000000000000000000500000004 = none

    # the brick that a linkto value names, of a volume of two, and the linkto value of that brick
    linkto brick-1\0 = 1, 627269636b2d3100
    linkto brick-1 = 1, 627269636b2d3100
    linkto brick-1\0\0 = none
    linkto nobody = none
";

/// A volume of these weights.
fn volume(alloc: Global, weights: &str) -> Result<Volume, VolumeFault> {
    let weights = Weights::new(decimals(alloc, weights)?);
    Volume::replay(alloc, &weights, 1)
}

/// The range of a word, and none where it is `-`.
fn range(word: &str) -> Option<Range> {
    let (first, last) = word.split_once('-')?;
    Some(Range {
        commit: 0,
        first: u32::from_str_radix(first, 16).ok()?,
        last: u32::from_str_radix(last, 16).ok()?,
    })
}

/// A range, with its commit word where that is not 0.
fn range_told(alloc: Global, range: Option<Range>) -> Result<String, AllocError> {
    match range {
        None => format!(in alloc; "-"),
        Some(range) if range.commit == 0 => {
            format!(in alloc; "{:x}-{:x}", range.first, range.last)
        }
        Some(range) => {
            format!(in alloc; "{:x}-{:x} by {}", range.first, range.last, range.commit)
        }
    }
}

/// The hash of a text that is repeated so many times.
pub fn hash_told(alloc: Global, words: &str) -> Result<String, AllocError> {
    let (count, piece) = words.split_once(' ').unwrap_or((words, ""));
    let mut name = Vec::new(alloc);
    for _ in 0..count.parse().unwrap_or(0u64) {
        name.extend_from_slice(piece.as_bytes())?;
    }
    format!(in alloc; "{:08x}", dm_hash(&name))
}

/// The ranges that are planned for a directory, by weights.
pub fn plan_told(alloc: Global, words: &str) -> Result<String, AllocError> {
    let (directory, weights) = words.split_once(' ').unwrap_or((words, ""));
    let Ok(volume) = volume(alloc, weights) else {
        return format!(in alloc; "no volume");
    };
    let directory = Gfid(u128::from_str_radix(directory, 16).unwrap_or(0));
    let mut told = String::new(alloc);
    for range in plan(&volume, directory).as_slice() {
        told.push_str(" ")?;
        told.push_str(range_told(alloc, *range)?.as_str())?;
    }
    Ok(told)
}

/// The attribute that is planned for a brick in a directory, by weights.
pub fn planned_value_told(alloc: Global, words: &str) -> Result<String, AllocError> {
    let (directory, words) = words.split_once(' ').unwrap_or((words, ""));
    let (brick, weights) = words.split_once(' ').unwrap_or((words, ""));
    let weights = Weights::new(decimals(alloc, weights)?);
    if weights.as_slice().len() > MOST_BRICKS {
        return format!(in alloc; "no volume");
    }
    let directory = Gfid(u128::from_str_radix(directory, 16).unwrap_or(0));
    let brick = BrickNo(brick.parse().unwrap_or(u16::MAX));
    match planned_value(&weights, directory, brick) {
        Some(value) => hex::encode(alloc, value.as_slice()),
        None => format!(in alloc; "none"),
    }
}

/// The holder of a hash in a layout, and what is wrong with the layout.
pub fn layout_told(alloc: Global, words: &str) -> Result<String, AllocError> {
    let (hash, ranges) = words.split_once(' ').unwrap_or((words, ""));
    let mut layout = Layout::empty();
    for word in ranges.split_whitespace() {
        if layout.as_slice().len() < MOST_RANGES {
            layout = layout.with(range(word));
        }
    }
    let mut told = match holder(&layout, u32::from_str_radix(hash, 16).unwrap_or(0)) {
        Some(brick) => format!(in alloc; "{}", brick.0)?,
        None => format!(in alloc; "none")?,
    };
    let found = faults(&layout);
    if found.holes {
        told.push_str(" holes")?;
    }
    if found.overlaps {
        told.push_str(" overlaps")?;
    }
    Ok(told)
}

/// The range of bytes, and its bytes.
pub fn range_of_bytes_told(alloc: Global, words: &str) -> Result<String, AllocError> {
    let Ok(bytes) = hex::decode(alloc, words) else {
        return format!(in alloc; "no bytes");
    };
    let Some(range) = decode(&bytes) else {
        return format!(in alloc; "none");
    };
    let back = hex::encode(alloc, encode(range).as_slice())?;
    format!(in alloc; "{}, {back}", range_told(alloc, Some(range))?)
}

/// The brick of a linkto value, and the linkto value of that brick.
pub fn linkto_told(alloc: Global, words: &str) -> Result<String, AllocError> {
    let Ok(volume) = volume(alloc, "1 1") else {
        return format!(in alloc; "no volume");
    };
    match linkto_brick(&volume, words.as_bytes()) {
        Some(brick) if brick.0 < volume.bricks() => {
            let value = linkto_bytes(alloc, &volume, brick)?;
            let back = hex::encode(alloc, value.as_slice())?;
            format!(in alloc; "{}, {back}", brick.0)
        }
        _ => format!(in alloc; "none"),
    }
}

#[test]
fn hashes_and_layouts(rt: HostRuntime) -> Result<(), Fail> {
    compare(&rt, TABLE)?;
    Ok(())
}
