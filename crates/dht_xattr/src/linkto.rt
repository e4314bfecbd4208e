//! The value of a linkto file: the name of the brick that has the file.

ghost use Rattle.std.specs.Prelude.{◌≡◌, ◌<◌, ◌≤◌, ◌↔◌, Some, IfOk, IfSome, IsNone, Contains, ℕ, List, length, option_map, slice_get};
ghost use Rattle.std.specs.Str.{bytes_eq};
ghost use Rattle.dht_types.specs.Volume.{VolumeInfo, IsVolume, replay_name, replay_names};
ghost use Rattle.dht_types.specs.Linkto.{linkto_value, linked_brick, without_zero};

use dht_types::bytes::Bytes;
use dht_types::identifiers::BrickNo;
use dht_types::linktos::LinktoValue;
use dht_types::volumes::Volume;
use itoa::Buffer;
use std::alloc::{AllocError, Global};

/// The value of a linkto file that leads to a brick, as GlusterFS's attribute
/// `trusted.glusterfs.dht.linkto`: the brick's name and a zero byte.
pub fn linkto_bytes(alloc: Global, volume: &Volume, brick: BrickNo) -> Result<Bytes, AllocError>
    requires { brick.0 < length volume.now.names }
    ensures { IfOk result (λ value. value ≡ linkto_value volume.now.names brick.0) }
{
    let name = volume.name(brick).unwrap_or(&[]);
    let mut value = Vec::with_capacity(alloc, name.len() + 1)?;
    value.extend_from_slice(name)?;
    value.push(0)?;
    Ok(Bytes::new(value))
}

/// The value of a linkto file that leads to a brick of a replay's volume of so many bricks, as
/// `linkto_bytes` says. It needs no volume, and takes no memory.
pub fn linkto_value_of(bricks: u16, brick: BrickNo) -> LinktoValue
    ensures { result ≡ linkto_value (replay_names bricks) brick.0 }
{
    if brick.0 >= bricks {
        return LinktoValue::new(b"\0");
    }
    let mut buffer = Buffer::new();
    let number = buffer.format(brick.0);
    LinktoValue::new(b"brick-")
        .with(number.as_bytes())
        .with(b"\0")
}

/// The value less one zero byte at its end, if it has one.
fn without_zero(value: &[u8]) -> &[u8]
    ensures { result.now ≡ without_zero value.now }
{
    value.strip_suffix(b"\0").unwrap_or(value)
}

/// The brick to which a linkto file of this value leads. There is none where the value, less one
/// zero byte at its end if it has one, is no name of the volume.
pub fn linkto_brick(volume: &Volume, value: &[u8]) -> Option<BrickNo>
    ensures brick { option_map (λ b. b.0) result ≡ linked_brick volume.now.names value.now }
    ensures some { IfSome result
        (λ b. slice_get volume.now.names b.0 ≡ Some (without_zero value.now)) }
    ensures none { IsNone result ↔ ¬ (Contains volume.now.names (without_zero value.now)) }
{
    // A volume has no name twice, as `bricks` says: the brick is the only one of its name.
    prove!(volume.bricks() > 0);
    volume.number(without_zero(value))
}

/// Whether these bytes are the name of a replay's brick: `brick-` and its number.
fn is_replay_name(name: &[u8], brick: u16) -> bool
    ensures { result ≡ bytes_eq (replay_name brick) name.now }
{
    let mut buffer = Buffer::new();
    match name.strip_prefix(b"brick-") {
        Some(number) => buffer.format(brick).as_bytes() == number,
        None => false,
    }
}

/// The brick of a replay's volume of so many bricks to which a linkto file of this value leads, as
/// `linkto_brick` says. It needs no volume, and takes no memory.
pub fn linkto_brick_of(bricks: u16, value: &[u8]) -> Option<BrickNo>
    ensures { option_map (λ b. b.0) result ≡ linked_brick (replay_names bricks) value.now }
{
    let name = without_zero(value);
    for brick in 0..bricks {
        if is_replay_name(name, brick) {
            return Some(BrickNo(brick));
        }
    }
    None
}

/// A linkto value leads to the brick that it was written for, also where its zero byte was taken
/// off, and has at most 65 bytes: these are laws for callers, and do nothing.
pub fn a_linkto_leads_to_its_brick()
    ensures written { (v : VolumeInfo) (b : ℕ) → IsVolume v → b < length v.names
        → linked_brick v.names (linkto_value v.names b) ≡ Some b }
    ensures short { (v : VolumeInfo) (b : ℕ) → IsVolume v → b < length v.names
        → length (linkto_value v.names b) ≤ 65 }
    ensures name { (v : VolumeInfo) (b : ℕ) (name : List ℕ) → IsVolume v
        → slice_get v.names b ≡ Some name → linked_brick v.names name ≡ Some b }
{}
