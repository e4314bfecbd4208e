//! Gfids, volumes, lists of bytes, and names as keys.

use crate::tables::{compare, decimals};
use dht_types::bytes::Bytes;
use dht_types::identifiers::{BrickNo, CallNo, ClientNo, Gfid};
use dht_types::names::{EntryKey, Name};
use dht_types::volumes::{Volume, Weights};
use std::alloc::{AllocError, Global};
use std::collections::BTreeMap;
use std::test::Fail;

const TABLE: &str = "
    # the gfid of a text, as a number
    gfid 00000000-0000-0000-0000-000000000001 = 00000000000000000000000000000001
    gfid 67e55044-10b1-426f-9247-bb680e5fe0c8 = 67e5504410b1426f9247bb680e5fe0c8
    gfid 67E55044-10B1-426F-9247-BB680E5FE0C8 = none

    # the text of the gfid of a run, a client, a call and a home, which are in hexadecimal digits
    made 0 0 0 1 = 00000000-0000-0000-0000-000000000001
    made 2 3 4 5 = 00000002-0003-0000-0000-000000040005
    made 67e55044 10b1 426f9247bb680e5f e0c8 = 67e55044-10b1-426f-9247-bb680e5fe0c8

    # a run, and bricks with their names and weights; or a replay's bricks with their weights
    volume 7 left 0 right.2-a_B 1000 = run 7, 0 left 0, 1 right.2-a_B 1000
    replay 5 6 = run 1, 0 brick-0 5, 1 brick-1 6
    replay 1 0 0 0 0 0 0 0 0 0 9 = run 1, 0 brick-0 1, 1 brick-1 0, 2 brick-2 0, 3 brick-3 0, \
4 brick-4 0, 5 brick-5 0, 6 brick-6 0, 7 brick-7 0, 8 brick-8 0, 9 brick-9 0, 10 brick-10 9

    # pieces that are written at an offset, and lengths to which the bytes are cut
    bytes abc@2 = 0000616263
    bytes abc@2 xy@1 = 0078796263
    bytes abc@2 xy@1 3 = 007879
    bytes abc@2 xy@1 3 5 = 0078790000
";

/// The number of the gfid of a text.
pub fn gfid_told(alloc: Global, words: &str) -> Result<String, AllocError> {
    match Gfid::parse(words.as_bytes()) {
        Some(gfid) => hex::encode(alloc, gfid.0.to_be_bytes().as_slice()),
        None => format!(in alloc; "none"),
    }
}

/// The text of the gfid of these parts.
pub fn made_told(alloc: Global, words: &str) -> Result<String, AllocError> {
    let mut words = words.split_whitespace();
    let run = u32::from_str_radix(words.next().unwrap_or(""), 16).unwrap_or(0);
    let client = u16::from_str_radix(words.next().unwrap_or(""), 16).unwrap_or(0);
    let call = u64::from_str_radix(words.next().unwrap_or(""), 16).unwrap_or(0);
    let home = u16::from_str_radix(words.next().unwrap_or(""), 16).unwrap_or(0);
    let gfid = Gfid::made(run, ClientNo(client), CallNo(call), BrickNo(home));
    String::from_utf8_lossy(alloc, &gfid.text())
}

/// The run of a volume, and the number, the name and the weight of each brick.
fn told(alloc: Global, volume: &Volume) -> Result<String, AllocError> {
    let mut told = format!(in alloc; "run {}", volume.run())?;
    for brick in 0..volume.bricks() {
        let name = volume.name(BrickNo(brick)).unwrap_or(&[]);
        let number = volume.number(name).unwrap_or(BrickNo(u16::MAX)).0;
        let weight = volume.weight(BrickNo(brick)).unwrap_or(u16::MAX);
        let name = String::from_utf8_lossy(alloc, name)?;
        told.push_str(format!(in alloc; ", {number} {name} {weight}")?.as_str())?;
    }
    Ok(told)
}

/// The volume of a run, and of bricks with their names and weights.
pub fn volume_told(alloc: Global, words: &str) -> Result<String, AllocError> {
    let mut words = words.split_whitespace();
    let run = words.next().unwrap_or("").parse().unwrap_or(0);
    let mut names = Vec::new(alloc);
    let mut weights = Vec::new(alloc);
    while let (Some(name), Some(weight)) = (words.next(), words.next()) {
        names.push(Bytes::new(name.as_bytes().to_vec(alloc)?))?;
        weights.push(weight.parse().unwrap_or(u16::MAX))?;
    }
    match Volume::new(alloc, &names, &weights, run) {
        Ok(volume) => told(alloc, &volume),
        Err(_) => format!(in alloc; "no volume"),
    }
}

/// The volume of a replay.
pub fn replay_told(alloc: Global, words: &str) -> Result<String, AllocError> {
    let weights = Weights::new(decimals(alloc, words)?);
    match Volume::replay(alloc, &weights, 1) {
        Ok(volume) => told(alloc, &volume),
        Err(_) => format!(in alloc; "no volume"),
    }
}

/// The bytes after writes and cuts.
pub fn bytes_told(alloc: Global, words: &str) -> Result<String, AllocError> {
    let mut bytes = Bytes::new(Vec::new(alloc));
    for word in words.split_whitespace() {
        match word.split_once('@') {
            Some((piece, offset)) => bytes.write(offset.parse().unwrap_or(0), piece.as_bytes())?,
            None => bytes.cut(word.parse().unwrap_or(0))?,
        }
    }
    hex::encode(alloc, bytes.as_slice())
}

#[test]
fn gfids_volumes_and_bytes(rt: HostRuntime) -> Result<(), Fail> {
    compare(&rt, TABLE)?;
    Ok(())
}

#[test]
fn a_map_tells_keys_apart(rt: HostRuntime) -> Result<(), Fail> {
    let dir = Gfid::ROOT;
    let name = Name::new(b"a").ok().ok_or("a name")?;
    let longer = Name::new(b"ab").ok().ok_or("a longer name")?;
    let mut map = BTreeMap::new(rt.alloc());
    map.insert(EntryKey { dir, name }, 7u8)?;
    assert_eq!(rt; map.get(&EntryKey { dir, name }).copied(), Some(7));
    assert_eq!(rt; map.get(&EntryKey { dir, name: longer }).copied(), None);
    Ok(())
}
