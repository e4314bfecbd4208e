//! What is set and asked from outside, without a client.

ghost use Rattle.std.specs.Prelude.{◌≡◌, ◌≢◌, Err};
ghost use Rattle.std.specs.Option.{option_map, option_copied};
ghost use Rattle.dht_brick.specs.Bricks.{PokesTo};
ghost use Rattle.dht_brick.specs.Contents.{Files, store_of};
ghost use Rattle.dht_brick.specs.Events.{poked, value_of};
ghost use Rattle.dht_types.specs.Saved.{IsValue};
ghost use Rattle.dht_brick.specs.declared.pokes.PokeAt.{PokeAt};
ghost use Rattle.dht_brick.specs.declared.pokes.PokeFault.{PokeFault};
ghost use Rattle.dht_names.specs.Kept.{tables_in};

use crate::brick_tables::Tables;
use crate::kept::KeptMain;
use dht_brick::pokes::{PokeAt, PokeFault};
use dht_types::bytes::Bytes;
use dht_types::identifiers::Gfid;
use dht_types::names::EntryKey;

impl Tables {
    /// Sets the attribute of a directory, or a linkto. `Slot` comes exactly where there is no such
    /// directory, or a directory or a file is at the name, and `Failed` never. A fault leaves
    /// everything as it was.
    pub fn poke(&mut self, at: &PokeAt, value: &[u8]) -> Result<(), PokeFault>
        requires { IsValue value.now }
        ensures poked { (f : Files)
            → PokesTo (poked at.now value.now (store_of (tables_in self.old) f)) (store_of
            (tables_in self.old) f) result (store_of (tables_in self.new) f) }
        ensures cause { result ≢ Err PokeFault.Failed }
        ensures bricks { (tables_in self.new).bricks ≡ (tables_in self.old).bricks }
    {
        match at {
            PokeAt::Layout(dir) => self.poke_layout(*dir, value),
            PokeAt::Linkto(dir, name) => {
                let key = EntryKey {
                    dir: *dir,
                    name: *name,
                };
                self.poke_linkto(&key, value)
            }
        }
    }

    /// Sets the attribute of a directory.
    fn poke_layout(&mut self, dir: Gfid, value: &[u8]) -> Result<(), PokeFault>
        ensures poked { (f : Files)
            → PokesTo (poked (PokeAt.Layout dir) value.now (store_of (tables_in self.old) f))
            (store_of (tables_in self.old) f) result (store_of (tables_in self.new) f) }
        ensures cause { result ≢ Err PokeFault.Failed }
        ensures bricks { (tables_in self.new).bricks ≡ (tables_in self.old).bricks }
    {
        if !self.dirs.contains(dir) {
            return Err(PokeFault::Slot);
        }
        let Ok(bytes) = Vec::from_slice(self.alloc, value) else {
            return Err(PokeFault::OutOfMemory);
        };
        self.dirs.set_value(dir, Some(Bytes::new(bytes)));
        Ok(())
    }

    /// Sets the linkto at a name.
    fn poke_linkto(&mut self, key: &EntryKey, value: &[u8]) -> Result<(), PokeFault>
        ensures poked { (f : Files)
            → PokesTo (poked (PokeAt.Linkto key.now.dir key.now.name) value.now (store_of
            (tables_in self.old) f)) (store_of (tables_in self.old) f) result (store_of
            (tables_in self.new) f) }
        ensures cause { result ≢ Err PokeFault.Failed }
        ensures bricks { (tables_in self.new).bricks ≡ (tables_in self.old).bricks }
    {
        if !self.dirs.contains(key.dir) || !self.slots.parts(key).is_vacant() {
            return Err(PokeFault::Slot);
        }
        let Ok(main) = KeptMain::linkto(self.alloc, value) else {
            return Err(PokeFault::OutOfMemory);
        };
        match self.slots.put_main(key, main) {
            Ok(()) => Ok(()),
            Err(_) => Err(PokeFault::OutOfMemory),
        }
    }

    /// The attribute of a directory, if there is a record of it, and if the record has one.
    pub fn value(&self, dir: Gfid) -> Option<Option<&[u8]>>
        ensures { option_map option_copied result ≡ value_of (tables_in self.now).dirs dir }
    {
        match self.dirs.get(dir) {
            None => None,
            Some(kept) => match &kept.value {
                None => Some(None),
                Some(value) => Some(Some(value.as_slice())),
            },
        }
    }
}
