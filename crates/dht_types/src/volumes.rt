//! The volume: its bricks, with their names and weights, and the number of its run.

ghost use Rattle.std.specs.Prelude.{◌≡◌, ◌≤◌, ◌<◌, ◌↔◌, Contains, Some, None, IsNone, IfSome, IfNone, IfOk, OnOk, IfErr, unwrap_or, length, slice_get, bytes_eq};
ghost use Rattle.std.specs.List.{list_all, list_any, position};
ghost use Rattle.std.specs.Option.{option_copied};
ghost use Rattle.std.specs.Result.{result_err};
ghost use Rattle.dht_types.specs.Volume.{VolumeInfo, IsVolume, fault_of, replay_fault_of, replay_info, replay_name, replay_names, is_brick_byte, is_brick_name, are_distinct, is_count, is_light, is_positive, are_weights, late_fault_of};

use super::bytes::Bytes;
use super::identifiers::BrickNo;
use std::alloc::{AllocError, AllocFailed, Global};
use std::marker::Model;

/// The most bricks that a volume has.
pub const MOST_BRICKS: usize = 32;

/// The most bytes that a brick's name has.
pub const LONGEST_BRICK_NAME: usize = 64;

/// The most that a brick weighs.
pub const GREATEST_WEIGHT: u16 = 1000;

/// The weights of a volume's bricks, in the bricks' order. Contracts see them as a list.
#[derive(Drop)]
pub struct Weights {
    each: Vec<u16>,
}

impl Model for Weights {
    ghost use Rattle.std.specs.Prelude.{ℕ, List};

    ghost Value = { List ℕ };

    ghost view = { λ w. w.each.items };
}

impl Weights {
    /// These weights.
    pub fn new(each: Vec<u16>) -> Weights
        ensures { result ≡ each.items }
    {
        Weights { each }
    }

    /// Each weight, in the bricks' order.
    pub fn as_slice(&self) -> &[u16]
        ensures { result.now ≡ self.now }
    {
        self.each.as_slice()
    }

    /// The same weights again.
    pub fn copied(&self, alloc: Global) -> Result<Weights, AllocError>
        ensures { IfOk result (λ w. w ≡ self.now) }
    {
        Ok(Weights {
            each: self.each.as_slice().to_vec(alloc)?,
        })
    }
}

/// What is wrong with a volume.
#[derive(Clone, Copy, PartialEq, Eq)]
pub enum VolumeFault {
    /// There are not 1 to 32 bricks, or not as many weights as bricks.
    Bricks,
    /// A brick's name is not 1 to 64 ASCII letters, digits, `-`, `_` and `.`, or comes twice.
    Name,
    /// A weight is above 1,000, or all of them are 0.
    Weight,
    /// The run has number 0.
    Run,
    /// Memory ran out.
    OutOfMemory,
}

impl From<AllocError> for VolumeFault {
    ghost use Rattle.dht_types.specs.declared.volumes.VolumeFault.TheVariants.{OutOfMemory};

    ghost from_gives = { λ _ e. e ≡ OutOfMemory };

    fn from(_error: AllocError) -> VolumeFault {
        VolumeFault::OutOfMemory
    }
}

/// A volume: its bricks, each with a name and a weight, and the number of its run. Contracts see it
/// as a record of these.
#[derive(Drop)]
pub struct Volume {
    names: Vec<Bytes>,
    weights: Weights,
    run: u32,
}

impl Model for Volume {
    ghost use Rattle.dht_types.specs.Volume.{VolumeInfo, IsVolume};

    ghost Value = { VolumeInfo };

    ghost view = { λ v. record { names = v.names.items; weights = v.weights; run = v.run } };

    ghost invariant = { λ v. IsVolume (record {
      names = v.names.items;
      weights = v.weights;
      run = v.run;
    }) };
}

/// Whether a byte may stand in a brick's name.
fn is_brick_byte(byte: u8) -> bool
    ensures { result ≡ is_brick_byte byte }
{
    byte.is_ascii_alphanumeric() || byte == b'-' || byte == b'_' || byte == b'.'
}

/// Whether each of these bytes may stand in a brick's name.
fn are_brick_bytes(name: &[u8]) -> bool
    ensures { result ≡ list_all is_brick_byte name.now }
{
    name.iter().all(|byte| is_brick_byte(*byte))
}

/// Whether these bytes are a brick's name.
fn is_brick_name(name: &[u8]) -> bool
    ensures { result ≡ is_brick_name name.now }
{
    !name.is_empty() && name.len() <= LONGEST_BRICK_NAME && are_brick_bytes(name)
}

/// Whether this name is one of these.
fn is_among(name: &[u8], names: &[Bytes]) -> bool
    ensures { result ≡ list_any (bytes_eq name.now) names.now }
{
    names.iter().any(|other| name == other.as_slice())
}

/// The first place at which this name stands among these.
fn place_of(names: &[Bytes], name: &[u8]) -> Option<usize>
    ensures place { result ≡ position (λ other. bytes_eq other name.now) names.now }
    ensures none { IsNone result ↔ ¬ (Contains names.now name.now) }
{
    names.iter().position(|other| other.as_slice() == name)
}

/// Whether no name comes twice.
fn are_distinct(names: &[Bytes]) -> bool
    ensures { result ≡ are_distinct names.now }
{
    for (place, name) in names.iter().enumerate() {
        if is_among(name.as_slice(), &names[place + 1..]) {
            return false;
        }
    }
    true
}

/// Whether each of these is a brick's name.
fn are_brick_names(names: &[Bytes]) -> bool
    ensures { result ≡ list_all is_brick_name names.now }
{
    names.iter().all(|name| is_brick_name(name.as_slice()))
}

/// Whether a volume may have so many bricks.
fn is_count(count: usize) -> bool
    ensures { result ≡ is_count count }
{
    0 < count && count <= MOST_BRICKS
}

/// Whether no weight is too great.
fn are_light(weights: &[u16]) -> bool
    ensures { result ≡ list_all is_light weights.now }
{
    weights.iter().all(|weight| *weight <= GREATEST_WEIGHT)
}

/// Whether a weight is positive.
fn is_one_positive(weights: &[u16]) -> bool
    ensures { result ≡ list_any is_positive weights.now }
{
    weights.iter().any(|weight| 0 < *weight)
}

/// Whether these are weights of the bricks of a volume.
fn are_weights(weights: &[u16]) -> bool
    ensures { result ≡ are_weights weights.now }
{
    are_light(weights) && is_one_positive(weights)
}

/// The first that is wrong with a volume, if anything is.
fn check(names: &[Bytes], weights: &[u16], run: u32) -> Result<(), VolumeFault>
    ensures { result_err result ≡ fault_of names.now weights.now run }
{
    if !is_count(names.len()) || weights.len() != names.len() {
        return Err(VolumeFault::Bricks);
    }
    if !are_brick_names(names) || !are_distinct(names) {
        return Err(VolumeFault::Name);
    }
    check_weights_and_run(weights, run)
}

/// The first that is wrong with the weights and the number of the run, if anything is.
fn check_weights_and_run(weights: &[u16], run: u32) -> Result<(), VolumeFault>
    ensures { result_err result ≡ late_fault_of weights.now run }
{
    if !are_weights(weights) {
        return Err(VolumeFault::Weight);
    }
    if run == 0 {
        return Err(VolumeFault::Run);
    }
    Ok(())
}

/// The same names again.
fn copied(alloc: Global, names: &[Bytes]) -> Result<Vec<Bytes>, AllocError>
    ensures { IfOk result (λ copies. copies.items ≡ names.now) }
{
    let mut copies = Vec::with_capacity(alloc, names.len())?;
    for name in names {
        copies.push(name.copied(alloc)?)?;
    }
    Ok(copies)
}

/// The name of a replay's brick: `brick-` and its number.
fn replay_name(alloc: Global, brick: usize) -> Result<Bytes, AllocError>
    ensures { IfOk result (λ name. name ≡ replay_name brick) }
{
    let name = format!(in alloc; "brick-{brick}")?;
    Ok(Bytes::new(name.into_bytes()))
}

/// The names of so many of a replay's bricks.
fn replay_names(alloc: Global, count: usize) -> Result<Vec<Bytes>, AllocError>
    ensures { IfOk result (λ names. names.items ≡ replay_names count) }
{
    let mut names = Vec::with_capacity(alloc, count)?;
    for brick in 0..count {
        names.push(replay_name(alloc, brick)?)?;
    }
    Ok(names)
}

impl Volume {
    /// The volume of these bricks, each with its name and its weight, in this run. It is refused
    /// with the first fault that it has, in the order in which `VolumeFault` names them;
    /// `OutOfMemory` comes only where there is none.
    pub fn new(
        alloc: Global,
        names: &[Bytes],
        weights: &[u16],
        run: u32,
    ) -> Result<Volume, VolumeFault>
        ensures volume { IfOk result
            (λ v. v ≡ record { names = names.now; weights = weights.now; run = run }) }
        ensures faultless { OnOk result (fault_of names.now weights.now run ≡ None) }
        ensures fault { let fault = fault_of names.now weights.now run in
            IfErr result (λ e. e ≡ unwrap_or fault VolumeFault.OutOfMemory) }
    {
        check(names, weights, run)?;
        Ok(Volume {
            names: copied(alloc, names)?,
            weights: Weights::new(Vec::from_slice(alloc, weights)?),
            run,
        })
    }

    /// The volume of a replay, whose brick `b` is named `brick-` and `b` in decimal. It is refused
    /// as by `new`, and never for a name.
    pub fn replay(alloc: Global, weights: &Weights, run: u32) -> Result<Volume, VolumeFault>
        ensures volume { IfOk result (λ v. v ≡ replay_info weights.now run) }
        ensures faultless { OnOk result (replay_fault_of weights.now run ≡ None) }
        ensures fault { let fault = replay_fault_of weights.now run in
            IfErr result (λ e. e ≡ unwrap_or fault VolumeFault.OutOfMemory) }
    {
        let count = weights.as_slice().len();
        if !is_count(count) {
            return Err(VolumeFault::Bricks);
        }
        check_weights_and_run(weights.as_slice(), run)?;
        Ok(Volume {
            names: replay_names(alloc, count)?,
            weights: weights.copied(alloc)?,
            run,
        })
    }

    /// The same volume again.
    pub fn copied(&self, alloc: Global) -> Result<Volume, AllocError>
        ensures { IfOk result (λ v. v ≡ self.now) }
    {
        Ok(Volume {
            names: copied(alloc, &self.names)?,
            weights: self.weights.copied(alloc)?,
            run: self.run,
        })
    }

    /// How many bricks it has. What makes it a volume can be had here.
    pub fn bricks(&self) -> u16
        ensures count { result ≡ length self.now.names }
        ensures positive { 1 ≤ result }
        ensures few { result ≤ 32 }
        ensures valid { IsVolume self.now }
    {
        self.names.len() as u16
    }

    /// The weights of its bricks, in the bricks' order.
    pub fn weights(&self) -> &Weights
        ensures weights { result.now ≡ self.now.weights }
        ensures valid { IsVolume self.now }
    {
        &self.weights
    }

    /// The weight of a brick, if there is one of this number.
    pub fn weight(&self, brick: BrickNo) -> Option<u16>
        ensures weight { result ≡ slice_get self.now.weights brick.0 }
        ensures none { IsNone result ↔ (length self.now.names ≤ brick.0) }
    {
        self.weights.as_slice().get(usize::from(brick.0)).copied()
    }

    /// The number of its run, from 1.
    pub fn run(&self) -> u32
        ensures run { result ≡ self.now.run }
        ensures positive { 1 ≤ result }
    {
        self.run
    }

    /// The name of a brick, if there is one of this number.
    pub fn name(&self, brick: BrickNo) -> Option<&[u8]>
        ensures name { option_copied result ≡ slice_get self.now.names brick.0 }
        ensures none { IsNone result ↔ (length self.now.names ≤ brick.0) }
    {
        self.names
            .get(usize::from(brick.0))
            .map(|name| name.as_slice())
    }

    /// The number of the brick of this name, if there is one.
    pub fn number(&self, name: &[u8]) -> Option<BrickNo>
        ensures some { IfSome result (λ b. slice_get self.now.names b.0 ≡ Some name.now) }
        ensures none { IsNone result ↔ ¬ (Contains self.now.names name.now) }
    {
        let place = place_of(&self.names, name)?;
        Some(BrickNo(place as u16))
    }
}

/// A volume is what has no fault: this is a law for callers, and does nothing.
pub fn a_volume_has_no_fault()
    ensures { (v : VolumeInfo) → (fault_of v.names v.weights v.run ≡ None) ↔ IsVolume v }
{}
