//! The layouts of directories that a client remembers.

ghost use Rattle.std.specs.Prelude.{◌≡◌, ◌≢◌, ◌⊎◌, [], List, Option, Some, None, OnOk, OnErr};
ghost use Rattle.std.specs.Option.{option_copied};
ghost use Rattle.dht_types.specs.declared.identifiers.Gfid.{Gfid};
ghost use Rattle.dht_xattr.specs.declared.range.Range.{Range};
ghost use Rattle.dht_resolve.specs.Cache.{CachedLayout, IsCache, GivesWay, cached, layout_at, each_shown};

use dht_types::identifiers::Gfid;
use dht_xattr::layout::Layout;
use indexmap::IndexMap;
use std::alloc::{AllocError, Global};
use std::marker::Model;

/// The most directories that a cache has.
pub const MOST_DIRECTORIES: usize = 256;

/// The layouts of directories, in the order in which the directories were first put; there are at
/// most 256. A layout here may be an old one, so it only chooses whom to ask. Contracts see the
/// list of the directories with their layouts, the oldest first.
#[derive(Drop)]
pub struct Cache {
    layouts: Option<IndexMap<u128, Layout>>,
}

impl Model for Cache {
    ghost use Rattle.std.specs.Prelude.{List};
    ghost use Rattle.dht_resolve.specs.Cache.{CachedLayout, IsCache, all_shown};

    ghost Value = { List CachedLayout };

    ghost view = { λ c. all_shown c.layouts };

    ghost invariant = { λ c. IsCache (all_shown c.layouts) };
}

/// Sets the layout of a directory: in its place, or else last. Where there would be 257, the oldest
/// goes. Only a new directory can be refused, and that changes nothing.
fn put_in(layouts: &mut IndexMap<u128, Layout>, dir: Gfid, layout: Layout) -> Result<(), AllocError>
    requires { IsCache (each_shown layouts.old) }
    ensures put { OnOk result (each_shown layouts.new
        ≡ cached (each_shown layouts.old) dir layout) }
    ensures refused { OnErr result (each_shown layouts.new ≡ each_shown layouts.old) }
    ensures absent { OnErr result (layout_at (each_shown layouts.old) dir ≡ None) }
    ensures cache { IsCache (each_shown layouts.new) }
{
    layouts.insert(dir.0, layout)?;
    if layouts.len() > MOST_DIRECTORIES {
        layouts.shift_remove_index(0);
    }
    Ok(())
}

impl Cache {
    /// No directories. It takes no memory.
    pub fn new() -> Cache
        ensures { result ≡ [] }
    {
        Cache { layouts: None }
    }

    /// The layout of a directory, where it is in the cache.
    pub fn get(&self, dir: Gfid) -> Option<&Layout>
        ensures layout { option_copied result ≡ layout_at self.now dir }
        ensures cache { IsCache self.now }
    {
        match &self.layouts {
            Some(layouts) => layouts.get(&dir.0),
            None => None,
        }
    }

    /// Sets the layout of a directory. One that is there keeps its place; a new one comes last, and
    /// the oldest of 256 makes room for it. Only a new directory needs memory, and one that is
    /// refused changes nothing.
    pub fn put(&mut self, alloc: Global, dir: Gfid, layout: Layout) -> Result<(), AllocError>
        ensures put { OnOk result (self.new ≡ cached self.old dir layout) }
        ensures refused { OnErr result (self.new ≡ self.old) }
        ensures absent { OnErr result (layout_at self.old dir ≡ None) }
        ensures cache { IsCache self.new }
    {
        let mut layouts = match self.layouts.take() {
            Some(layouts) => layouts,
            None => IndexMap::new(alloc),
        };
        let put = put_in(&mut layouts, dir, layout);
        self.layouts = Some(layouts);
        put
    }
}

/// After a put a directory has its layout, and each other has what it had, but for the one that
/// made room; and it is a cache again: these are laws for callers, and do nothing.
pub fn a_put_sets_one_layout()
    ensures found { (cache : List CachedLayout) (dir : Gfid) (layout : List (Option Range))
        → IsCache cache → layout_at (cached cache dir layout) dir ≡ Some layout }
    ensures others { (cache : List CachedLayout) (dir : Gfid) (layout : List (Option Range))
        → IsCache cache → (other : Gfid) → other ≢ dir
        → (layout_at (cached cache dir layout) other ≡ layout_at cache other)
        ⊎ GivesWay cache dir other (cached cache dir layout) }
    ensures cache { (cache : List CachedLayout) (dir : Gfid) (layout : List (Option Range))
        → IsCache cache → IsCache (cached cache dir layout) }
{}

#[cfg(test)]
mod tests;
