//! The sectors that are kept, the one that was used last first.

ghost use Rattle.std.specs.Prelude.{◌≡◌, ◌≢◌, ◌⊎◌, ◌↔◌, ◌+◌, ◌/◌, ◌<◌, ◌≤◌, ◌^◌, ℕ, List, IsTrue, false, length, OnOk, OnErr};
ghost use Rattle.lru.specs.LruCache.{lru_cache};
ghost use Rattle.std.specs.List.{list_any};
ghost use Rattle.sm_cache.specs.Kept.{HasEntry, HasNoEntry, dropped, in_front, is_among, others, with_entry};

use crate::keys::Spot;
use lru::LruCache;
use sm_base::{Failed, Name};

/// Copies the entry of a sector, which comes to the front. False exactly where there is none: then all stays.
#[tactic(auto, unfolding(crate::specs::Kept::same_spot))]
pub(crate) fn recall(
    kept: &mut LruCache<Spot, [u8; 512]>,
    volume: &Name,
    at: u64,
    to: &mut [u8],
) -> bool
    requires { length to.old ≡ 512 }
    ensures long { length to.new ≡ 512 }
    ensures found { IsTrue result → HasEntry kept.old volume.now at (length to.old) to.new × (kept.new ≡ in_front volume.now at to.new kept.old) }
    ensures none { (result ≡ false) → HasNoEntry kept.old volume.now at (length to.old) × (kept.new ≡ kept.old) }
{
    // `len` is called for its clause that no sector has two entries.
    let _len = kept.len();
    let spot = Spot {
        volume: *volume,
        at,
    };
    let Some(sector) = kept.peek(&spot) else {
        return false;
    };
    to.copy_from_slice(sector);
    kept.promote(&spot)
}

/// Puts the entry of a sector in front, which has none. Without memory for it all stays.
#[tactic(auto, unfolding(crate::specs::Kept::same_spot))]
pub(crate) fn remember(kept: &mut LruCache<Spot, [u8; 512]>, volume: &Name, at: u64, from: &[u8])
    requires { HasNoEntry kept.old volume.now at (length from.now) }
    ensures { (kept.new ≡ with_entry volume.now at from.now kept.old) ⊎ (kept.new ≡ kept.old) }
{
    let mut sector = [0; 512];
    sector.copy_from_slice(from);
    let spot = Spot {
        volume: *volume,
        at,
    };
    let _ = kept.put(spot, sector);
}

/// What becomes of the entries behind a write of these bytes to the store below, by what it answered. One sector that was written gives its
/// entry these bytes, where it has one. A longer write, and one that failed, drops the entries of its sectors.
pub(crate) fn after_write(
    kept: &mut LruCache<Spot, [u8; 512]>,
    volume: &Name,
    at: u64,
    from: &[u8],
    done: &Result<(), Failed>,
)
    requires { at + length from.now / 512 < 2 ^ 64 }
    ensures renewed { OnOk done.now ((v : List ℕ) → HasEntry kept.old volume.now at (length from.now) v → kept.new ≡ in_front volume.now at from.now kept.old) }
    ensures none { OnOk done.now (HasNoEntry kept.old volume.now at (length from.now) → kept.new ≡ kept.old) }
    ensures longer { length from.now ≢ 512 → kept.new ≡ dropped volume.now at (length from.now) kept.old }
    ensures bad { OnErr done.now (kept.new ≡ dropped volume.now at (length from.now) kept.old) }
{
    if done.is_ok() && from.len() == 512 {
        renew(kept, volume, at, from);
    } else {
        forget(kept, volume, at, from.len() / 512);
    }
}

/// Gives the entry of a sector these bytes and brings it to the front, where there is one.
#[tactic(auto, unfolding(crate::specs::Kept::same_spot))]
fn renew(kept: &mut LruCache<Spot, [u8; 512]>, volume: &Name, at: u64, from: &[u8])
    requires { length from.now ≡ 512 }
    ensures renewed { (v : List ℕ) → HasEntry kept.old volume.now at (length from.now) v → kept.new ≡ in_front volume.now at from.now kept.old }
    ensures none { HasNoEntry kept.old volume.now at (length from.now) → kept.new ≡ kept.old }
{
    // `len` is called for its clause that no sector has two entries.
    let _len = kept.len();
    let spot = Spot {
        volume: *volume,
        at,
    };
    if kept.contains(&spot) {
        let mut sector = [0; 512];
        sector.copy_from_slice(from);
        let _ = kept.put(spot, sector);
    }
}

/// Whether a sector is one of so many of a volume from one on.
fn is_one_of(spot: &Spot, volume: &Name, at: u64, sectors: usize) -> bool
    requires { at + sectors < 2 ^ 64 }
    ensures { IsTrue result ↔ ((spot.now.volume ≡ volume.now) × (at ≤ spot.now.at) × (spot.now.at < at + sectors)) }
{
    spot.volume == *volume && at <= spot.at && spot.at < at + sectors as u64
}

/// Whether one of so many sectors of a volume from one on has an entry.
fn has_among(kept: &LruCache<Spot, [u8; 512]>, volume: &Name, at: u64, sectors: usize) -> bool
    requires { at + sectors < 2 ^ 64 }
    ensures { result ≡ list_any (λ e. is_among volume.now at sectors e.0) kept.now.entries }
{
    for (spot, _) in kept.iter() {
        if is_one_of(spot, volume, at, sectors) {
            return true;
        }
    }
    false
}

/// Drops the entries of so many sectors of a volume from one on. Where there are fewer entries than sectors these are looked over first,
/// since a long write is mostly of sectors that have none.
#[tactic(auto, unfolding(crate::specs::Kept::same_spot))]
fn forget(kept: &mut LruCache<Spot, [u8; 512]>, volume: &Name, at: u64, sectors: usize)
    requires { at + sectors < 2 ^ 64 }
    ensures { kept.new ≡ lru_cache (others volume.now at sectors kept.old.entries) kept.old.cap }
{
    if kept.len() < sectors && !has_among(kept, volume, at, sectors) {
        return;
    }
    for done in 0..sectors {
        // `len` is called for its clause that no sector has two entries.
        let _len = kept.len();
        let spot = Spot {
            volume: *volume,
            at: at + done as u64,
        };
        let _ = kept.pop(&spot);
    }
}
