//! For how many slots each gfid stands, so that no request goes over all slots to tell how many
//! links a file has, or whether a directory is empty.

ghost use Rattle.std.specs.Prelude.{◌≡◌, ◌≤◌, ◌<◌, ◌+◌, ◌^◌, IfSome, IsSome, OnOk};
ghost use Rattle.std.specs.FinMap.{get};
ghost use Rattle.dht_types.specs.declared.identifiers.Gfid.{Gfid};
ghost use Rattle.dht_names.specs.declared.counts.Kind.{Kind};
ghost use Rattle.dht_names.specs.Counts.{counted, is_seen, tally_count, with_count, no_tally, is_unused, tallies_in, counter, HasAll, KeepsAll, KeepsCounts, Raises, Lowers, weight};

use dht_brick::replies::{MainShown, SlotShown};
use dht_types::identifiers::Gfid;
use dht_types::stored::Standby;
use std::alloc::{AllocError, Global};
use std::collections::BTreeMap;

/// How a slot counts for a gfid.
#[derive(Clone, Copy)]
pub(crate) enum Kind {
    /// For its directory, where it is visible.
    Visible,
    /// For the file whose name it is.
    Named,
    /// For the file whose name it is, where that is marked for a rename.
    Marked,
    /// For the file for which it is readied.
    Readied,
    /// For the file whose copy is at it.
    Copied,
}

/// Whether something stands at a name, or may come to stand there.
fn is_seen(slot: &SlotShown) -> bool
    ensures { result ≡ is_seen slot.now }
{
    match slot.main {
        Some(MainShown::Dir(_) | MainShown::File(_, _)) => true,
        None | Some(MainShown::Linkto) => slot.standby.is_some(),
    }
}

/// The directory of a slot, where the slot is visible.
fn seen_in(dir: Gfid, slot: &SlotShown) -> Option<Gfid>
    ensures { result ≡ counted Kind.Visible dir slot.now }
{
    if is_seen(slot) { Some(dir) } else { None }
}

/// The gfid for which a slot in this directory counts so, if there is one.
fn counted(kind: Kind, dir: Gfid, slot: &SlotShown) -> Option<Gfid>
    ensures { result ≡ counted kind dir slot.now }
{
    match kind {
        Kind::Visible => seen_in(dir, slot),
        Kind::Named => match slot.main {
            Some(MainShown::File(file, _)) => Some(file),
            _ => None,
        },
        Kind::Marked => match slot.main {
            Some(MainShown::File(file, Some(_))) => Some(file),
            _ => None,
        },
        Kind::Readied => match slot.standby {
            Some(Standby::StandLink(file)) => Some(file),
            _ => None,
        },
        Kind::Copied => match slot.standby {
            Some(Standby::Copy(file)) => Some(file),
            _ => None,
        },
    }
}

/// How many slots count for a gfid, in each way.
#[derive(Clone, Copy)]
struct Tally {
    visible: u64,
    named: u64,
    marked: u64,
    readied: u64,
    copied: u64,
}

impl Tally {
    /// No slots.
    const NONE: Tally = Tally {
        visible: 0,
        named: 0,
        marked: 0,
        readied: 0,
        copied: 0,
    };

    /// How many count so.
    fn of(&self, kind: Kind) -> u64
        ensures { result ≡ tally_count kind self.now }
    {
        match kind {
            Kind::Visible => self.visible,
            Kind::Named => self.named,
            Kind::Marked => self.marked,
            Kind::Readied => self.readied,
            Kind::Copied => self.copied,
        }
    }

    /// The same, but that so many count so.
    fn with(self, kind: Kind, count: u64) -> Tally
        ensures { result ≡ with_count kind count self }
    {
        match kind {
            Kind::Visible => Tally {
                visible: count,
                ..self
            },
            Kind::Named => Tally {
                named: count,
                ..self
            },
            Kind::Marked => Tally {
                marked: count,
                ..self
            },
            Kind::Readied => Tally {
                readied: count,
                ..self
            },
            Kind::Copied => Tally {
                copied: count,
                ..self
            },
        }
    }

    /// Whether no slot counts.
    fn is_none(&self) -> bool
        ensures { result ≡ is_unused self.now }
    {
        self.visible == 0
            && self.named == 0
            && self.marked == 0
            && self.readied == 0
            && self.copied == 0
    }
}

/// How many slots count for each gfid, in each way. Contracts speak of `counter`.
///
/// What is counted for a file and what for a directory stand side by side, so that a file whose
/// copy becomes the file needs no memory to be counted as one.
#[derive(Drop)]
pub(crate) struct Counts {
    tallies: BTreeMap<Gfid, Tally>,
}

impl Counts {
    /// No slots.
    pub(crate) fn new(alloc: Global) -> Counts
        ensures { (g : Gfid) → (k : Kind) → counter (tallies_in result) g k ≡ 0 }
    {
        Counts {
            tallies: BTreeMap::new(alloc),
        }
    }

    /// How many slots count so for a gfid.
    pub(crate) fn of(&self, gfid: Gfid, kind: Kind) -> u64
        ensures { result ≡ counter (tallies_in self.now) gfid kind }
    {
        match self.tallies.get(&gfid) {
            None => 0,
            Some(tally) => tally.of(kind),
        }
    }

    /// Makes room to count for each gfid for which a slot counts. Where there is no memory for it,
    /// none is kept.
    pub(crate) fn admit(&mut self, dir: Gfid, slot: &SlotShown) -> Result<(), AllocError>
        ensures there { OnOk result (HasAll (tallies_in self.new) dir slot.now) }
        ensures same { KeepsCounts (tallies_in self.old) (tallies_in self.new) }
    {
        let admitted = self.admit_each(dir, slot);
        if admitted.is_err() {
            self.tidy(dir, slot);
        }
        admitted
    }

    /// Counts a slot as this one, which was that one.
    pub(crate) fn recount(&mut self, dir: Gfid, old: &SlotShown, new: &SlotShown)
        requires there { HasAll (tallies_in self.old) dir new.now }
        requires few { (g : Gfid) → (k : Kind) → counter (tallies_in self.old) g k < 2 ^ 63 }
        requires counted { (g : Gfid) → (k : Kind)
            → weight k g dir old.now ≤ counter (tallies_in self.old) g k }
        ensures { (g : Gfid) → (k : Kind)
            → counter (tallies_in self.new) g k + weight k g dir old.now
            ≡ counter (tallies_in self.old) g k + weight k g dir new.now }
    {
        self.count(dir, new);
        self.discount(dir, old);
        self.tidy(dir, old);
    }

    /// Makes room to count for each gfid for which a slot counts.
    fn admit_each(&mut self, dir: Gfid, slot: &SlotShown) -> Result<(), AllocError>
        ensures there { OnOk result (HasAll (tallies_in self.new) dir slot.now) }
        ensures same { KeepsCounts (tallies_in self.old) (tallies_in self.new) }
    {
        self.admit_one(counted(Kind::Visible, dir, slot))?;
        self.admit_one(counted(Kind::Named, dir, slot))?;
        self.admit_one(counted(Kind::Marked, dir, slot))?;
        self.admit_one(counted(Kind::Readied, dir, slot))?;
        self.admit_one(counted(Kind::Copied, dir, slot))
    }

    /// Counts one slot more.
    fn count(&mut self, dir: Gfid, slot: &SlotShown)
        requires there { HasAll (tallies_in self.old) dir slot.now }
        requires few { (g : Gfid) → (k : Kind) → counter (tallies_in self.old) g k < 2 ^ 63 }
        ensures { (g : Gfid) → (k : Kind) → counter (tallies_in self.new) g k
            ≡ counter (tallies_in self.old) g k + weight k g dir slot.now }
    {
        self.raise(counted(Kind::Visible, dir, slot), Kind::Visible);
        self.raise(counted(Kind::Named, dir, slot), Kind::Named);
        self.raise(counted(Kind::Marked, dir, slot), Kind::Marked);
        self.raise(counted(Kind::Readied, dir, slot), Kind::Readied);
        self.raise(counted(Kind::Copied, dir, slot), Kind::Copied);
    }

    /// Counts one slot less.
    fn discount(&mut self, dir: Gfid, slot: &SlotShown)
        requires { (g : Gfid) → (k : Kind)
            → weight k g dir slot.now ≤ counter (tallies_in self.old) g k }
        ensures { (g : Gfid) → (k : Kind)
            → counter (tallies_in self.new) g k + weight k g dir slot.now
            ≡ counter (tallies_in self.old) g k }
    {
        self.lower(counted(Kind::Visible, dir, slot), Kind::Visible);
        self.lower(counted(Kind::Named, dir, slot), Kind::Named);
        self.lower(counted(Kind::Marked, dir, slot), Kind::Marked);
        self.lower(counted(Kind::Readied, dir, slot), Kind::Readied);
        self.lower(counted(Kind::Copied, dir, slot), Kind::Copied);
    }

    /// Keeps no room for a gfid for which this slot counted, and none counts now.
    pub(crate) fn tidy(&mut self, dir: Gfid, slot: &SlotShown)
        ensures { KeepsCounts (tallies_in self.old) (tallies_in self.new) }
    {
        self.tidy_one(counted(Kind::Visible, dir, slot));
        self.tidy_one(counted(Kind::Named, dir, slot));
        self.tidy_one(counted(Kind::Readied, dir, slot));
        self.tidy_one(counted(Kind::Copied, dir, slot));
    }

    /// Makes room to count for this gfid, if there is one.
    fn admit_one(&mut self, gfid: Option<Gfid>) -> Result<(), AllocError>
        ensures there { OnOk result (IfSome gfid (λ g. IsSome (get (tallies_in self.new) g))) }
        ensures keeps { KeepsAll (tallies_in self.old) (tallies_in self.new) }
        ensures same { KeepsCounts (tallies_in self.old) (tallies_in self.new) }
    {
        let Some(gfid) = gfid else {
            return Ok(());
        };
        if !self.tallies.contains_key(&gfid) {
            self.tallies.insert(gfid, Tally::NONE)?;
        }
        Ok(())
    }

    /// Counts one slot more for this gfid, if there is one.
    fn raise(&mut self, gfid: Option<Gfid>, kind: Kind)
        requires there { IfSome gfid (λ g. IsSome (get (tallies_in self.old) g)) }
        requires few { IfSome gfid (λ g. counter (tallies_in self.old) g kind < 2 ^ 63) }
        ensures counts { Raises gfid kind (tallies_in self.old) (tallies_in self.new) }
        ensures keeps { KeepsAll (tallies_in self.old) (tallies_in self.new) }
    {
        let Some(gfid) = gfid else {
            return;
        };
        let Some(tally) = self.tallies.get_mut(&gfid) else {
            return;
        };
        *tally = tally.with(kind, tally.of(kind) + 1);
    }

    /// Counts one slot less for this gfid, if there is one.
    fn lower(&mut self, gfid: Option<Gfid>, kind: Kind)
        requires { IfSome gfid (λ g. 1 ≤ counter (tallies_in self.old) g kind) }
        ensures { Lowers gfid kind (tallies_in self.old) (tallies_in self.new) }
    {
        let Some(gfid) = gfid else {
            return;
        };
        let Some(tally) = self.tallies.get_mut(&gfid) else {
            return;
        };
        *tally = tally.with(kind, tally.of(kind) - 1);
    }

    /// Keeps no room for this gfid, if no slot counts for it.
    fn tidy_one(&mut self, gfid: Option<Gfid>)
        ensures { KeepsCounts (tallies_in self.old) (tallies_in self.new) }
    {
        let Some(gfid) = gfid else {
            return;
        };
        let Some(tally) = self.tallies.get(&gfid) else {
            return;
        };
        if tally.is_none() {
            self.tallies.remove(&gfid);
        }
    }
}
