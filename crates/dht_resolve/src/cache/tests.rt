//! More directories than a cache has room for.

use super::*;
use dht_xattr::range::Range;
use std::test::Fail;

/// The layout of one brick, told from others by its commit word.
fn layout(commit: u32) -> Layout {
    Layout::new(&[Some(Range {
        commit,
        first: 0,
        last: u32::MAX,
    })])
}

/// The commit word of a directory's layout in the cache.
fn commit_of(cache: &Cache, dir: u32) -> Option<u32> {
    match cache.get(Gfid(u128::from(dir)))?.as_slice() {
        [Some(range)] => Some(range.commit),
        _ => None,
    }
}

#[test]
fn the_oldest_of_256_makes_room(rt: HostRuntime) -> Result<(), Fail> {
    let mut cache = Cache::new();
    assert_eq!(rt; commit_of(&cache, 1), None);
    for dir in 1..257u32 {
        cache.put(rt.alloc(), Gfid(u128::from(dir)), layout(dir))?;
    }
    for dir in 1..257u32 {
        assert_eq!(rt; commit_of(&cache, dir), Some(dir));
    }
    // A directory that is there keeps its place, so the first is still the oldest.
    cache.put(rt.alloc(), Gfid(1), layout(1000))?;
    assert_eq!(rt; commit_of(&cache, 1), Some(1000));
    for dir in 257..600u32 {
        cache.put(rt.alloc(), Gfid(u128::from(dir)), layout(dir))?;
        assert_eq!(rt; commit_of(&cache, dir - 256), None);
        assert_eq!(rt; commit_of(&cache, dir - 255), Some(dir - 255));
        assert_eq!(rt; commit_of(&cache, dir), Some(dir));
    }
    Ok(())
}
