//! A store of volumes, and sectors that were read of it.

ghost use Rattle.std.specs.Prelude.{◌≡◌, ◌<◌, [], IfOk, IfErr};
ghost use Rattle.std.proofs.Props.{props};
ghost use Rattle.vg_meta.specs.Roomy.{table_alone};
ghost use Rattle.lru.specs.LruCache.{lru_cache};
ghost use Rattle.sm_cache.specs.Kept.{AreTrue};

use crate::keys::Spot;
use lru::LruCache;
use std::alloc::Global;
use std::num::NonZeroUsize;
use vg_volumes::Store;

/// A store of volumes, and sectors that were read of it, the one that was used last first. Contracts see the store below, `inner`, and
/// what is kept of it, `kept`: its entries, and how many there may be.
pub struct Cache<S: Store> {
    pub(crate) inner: S,
    pub(crate) kept: LruCache<Spot, [u8; 512]>,
    // Each entry has the bytes that a read of the store below gives.
    ghost true_entries: { S.told → AreTrue (S.site inner) (table_alone (S.table inner)) (S.area inner) kept.entries } by { Prim.hlevel props },
}

impl<S: Store> Cache<S> {
    /// A store that keeps at most so many sectors of another, and none yet. No call is made on the other.
    ///
    /// # Errors
    ///
    /// Want of memory, with the other store as it is.
    pub fn new(alloc: Global, inner: S, sectors: usize) -> Result<Cache<S>, S>
        requires { 0 < sectors }
        ensures inner { IfOk result (λ c. c.inner ≡ inner) }
        ensures empty { IfOk result (λ c. c.kept ≡ lru_cache [] sectors) }
        ensures back { IfErr result (λ s. s ≡ inner) }
    {
        let Some(most) = NonZeroUsize::new(sectors) else {
            unreachable!()
        };
        match LruCache::new(alloc, most) {
            Ok(kept) => Ok(Cache { inner, kept }),
            Err(_) => Err(inner),
        }
    }

    /// The other store, as it is. No call is made on it.
    pub fn into_inner(self) -> S
        ensures { result ≡ self.inner }
    {
        let Cache { inner, kept: _ } = self;
        inner
    }
}
