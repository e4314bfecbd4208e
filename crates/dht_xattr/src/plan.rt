//! How the hashes of a directory are shared among the bricks of a volume.

ghost use Rattle.std.specs.Prelude.{◌≡◌, ◌+◌, ◌<◌, ◌≤◌, ◌^◌, ℕ, List, if◌then◌else◌, All, IfSome, Some, length, sum, None, take, slice_get, slice_index};
ghost use Rattle.std.specs.Option.{option_and_then};
ghost use Rattle.dht_types.specs.declared.identifiers.Gfid.{Gfid};
ghost use Rattle.dht_xattr.specs.Layout.{HasHole, HasOverlap, holder, covers};
ghost use Rattle.dht_types.specs.Volume.{HasWeight};
ghost use Rattle.dht_xattr.specs.Range.{decoded};
ghost use Rattle.dht_xattr.specs.Plan.{IsPlanned, heavy_from, order, share, rest_from, run_of, planned, value_of, planned_value};

use super::layout::{Layout, MOST_RANGES};
use super::range::Range;
use dht_types::identifiers::{BrickNo, Gfid};
use dht_types::layouts::LayoutValue;
use dht_types::volumes::{MOST_BRICKS, Volume, Weights};

/// Some bricks of a volume, in an order. Those behind the count say nothing.
#[derive(Clone, Copy)]
struct BrickList {
    count: usize,
    bricks: [u16; 32],
}

/// The weight of all bricks.
fn total_weight(weights: &[u16]) -> u32
    requires { length weights.now ≤ 32 }
    ensures { result ≡ sum weights.now }
{
    let mut total: u32 = 0;
    for brick in 0..weights.len() {
        total += u32::from(weights[brick]);
    }
    total
}

/// The bricks of weight above 0, in rising order.
fn heavy(weights: &[u16]) -> BrickList
    requires { length weights.now ≤ 32 }
    ensures heavy { take result.count result.bricks ≡ heavy_from 0 weights.now }
    ensures few { result.count ≤ 32 }
{
    let mut bricks = [0; MOST_BRICKS];
    let mut count = 0;
    for brick in 0..weights.len() {
        if weights[brick] > 0 {
            bricks[count] = brick as u16;
            count += 1;
        }
    }
    BrickList { count, bricks }
}

/// The bricks of weight above 0, in the order in which a directory's hashes are dealt out: they are
/// turned by the number of the call that made the directory, so that the directories of a volume
/// begin at different bricks.
fn order(weights: &[u16], dir: Gfid) -> BrickList
    requires { length weights.now ≤ 32 }
    ensures order { take result.count result.bricks ≡ order weights.now dir }
    ensures few { result.count ≤ 32 }
{
    let BrickList { count, mut bricks } = heavy(weights);
    if count > 0 {
        let turn = dir.0 / 0x1_0000 % 0x1_0000_0000 % count as u128;
        bricks[..count].rotate_left(turn as usize);
    }
    BrickList { count, bricks }
}

/// How many hashes go to a brick that is not the last, by its part of all weight.
fn share(weights: &[u16], total: u32, brick: u16) -> u32
    requires sum { total ≡ sum weights.now }
    requires positive { 0 < total }
    requires brick { brick < length weights.now }
    ensures { result ≡ share weights.now brick }
{
    let weight = u64::from(weights[usize::from(brick)]);
    (u64::from(u32::MAX) * weight / u64::from(total)) as u32
}

/// So many hashes from a first one on, if there are any.
fn run_of(first: u32, count: u32) -> Option<Range>
    requires { first + count < 2 ^ 32 }
    ensures { result ≡ run_of first count }
{
    if count == 0 {
        return None;
    }
    Some(Range {
        commit: 0,
        first,
        last: first + (count - 1),
    })
}

/// The range of the brick whose turn it is: so many hashes from a first one on, or for the last
/// brick all that are left.
fn range_from(first: u32, count: u32, is_last: bool) -> Option<Range>
    requires { first + count < 2 ^ 32 }
    ensures { result ≡ (if is_last then rest_from first else run_of first count) }
{
    if is_last {
        Some(Range {
            commit: 0,
            first,
            last: u32::MAX,
        })
    } else {
        run_of(first, count)
    }
}

/// Deals a directory's hashes out to the bricks in their order.
fn deal(weights: &[u16], dir: Gfid) -> Layout
    requires { length weights.now ≤ 32 }
    ensures { result ≡ planned weights.now dir }
{
    let order = order(weights, dir);
    let total = total_weight(weights);
    let mut ranges = [None; MOST_RANGES];
    let mut first: u32 = 0;
    for place in 0..order.count {
        let brick = order.bricks[place];
        let count = share(weights, total, brick);
        let is_last = place + 1 == order.count;
        ranges[usize::from(brick)] = range_from(first, count, is_last);
        first += count;
    }
    Layout::new(&ranges[..weights.len()])
}

/// The plan of a directory: how a new directory's hashes are shared among the bricks by their
/// weights, as by GlusterFS's `dht_selfheal_layout_new_directory`. Each hash is in exactly one
/// range, and a brick of weight 0 has none.
pub fn plan(volume: &Volume, dir: Gfid) -> Layout
    ensures planned { result ≡ planned volume.now.weights dir }
    ensures once { (hash : ℕ) → hash < 2 ^ 32 → covers result hash ≡ 1 }
    ensures bricks { length result ≡ length volume.now.names }
{
    plan_of(volume.weights(), dir)
}

/// The plan of a directory by the weights of the bricks alone, as `plan` says. Where no brick has
/// weight, no brick has a range.
pub fn plan_of(weights: &Weights, dir: Gfid) -> Layout
    requires { length weights.now ≤ 32 }
    ensures planned { result ≡ planned weights.now dir }
    ensures once { HasWeight weights.now → (hash : ℕ) → hash < 2 ^ 32 → covers result hash ≡ 1 }
    ensures bricks { length result ≡ length weights.now }
{
    deal(weights.as_slice(), dir)
}

/// The attribute that is planned for a brick in a directory, by the weights of the bricks. It takes
/// no memory.
pub fn planned_value(weights: &Weights, dir: Gfid, brick: BrickNo) -> Option<LayoutValue>
    requires { length weights.now ≤ 32 }
    ensures { result ≡ planned_value weights.now dir brick.0 }
{
    plan_of(weights, dir).value(brick)
}

/// A plan has a range or none for each brick, and none where its weight is 0; no range of it is
/// empty; and each hash is in exactly one of them, so that it has a holder. The attribute of a
/// range of a plan is read as that range. These are laws for callers, and do nothing.
pub fn a_plan_has_each_hash_once()
    ensures length { (weights : List ℕ) (dir : Gfid)
        → length (planned weights dir) ≡ length weights }
    ensures light { (weights : List ℕ) (dir : Gfid) (b : ℕ) → b < length weights
        → slice_index weights b ≡ 0 → slice_get (planned weights dir) b ≡ Some None }
    ensures valid { (weights : List ℕ) (dir : Gfid) → HasWeight weights
        → All (λ range. IfSome range IsPlanned) (planned weights dir) }
    ensures once { (weights : List ℕ) (dir : Gfid) (hash : ℕ) → HasWeight weights → hash < 2 ^ 32
        → covers (planned weights dir) hash ≡ 1 }
    ensures holder { (weights : List ℕ) (dir : Gfid) (hash : ℕ) → HasWeight weights → hash < 2 ^ 32
        → (b : ℕ) × (b < length weights) × (holder (planned weights dir) hash ≡ Some b) }
    ensures holes { (weights : List ℕ) (dir : Gfid) → HasWeight weights
        → ¬ HasHole (planned weights dir) }
    ensures overlaps { (weights : List ℕ) (dir : Gfid) → HasWeight weights
        → ¬ HasOverlap (planned weights dir) }
    ensures read { (weights : List ℕ) (dir : Gfid)
        → All (λ range. option_and_then decoded (value_of range) ≡ range) (planned weights dir) }
{}
