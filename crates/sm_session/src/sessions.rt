//! A repository that is open, and its steps.

ghost use Rattle.std.specs.Prelude.{◌≡◌, ◌≢◌, ◌≤◌, ◌<◌, ◌+◌, ◌*◌, ◌⊎◌, None, false, IfOk, IfErr, length};
ghost use Rattle.std.proofs.Props.{props};
ghost use Rattle.sm_base.specs.declared.faults.OpenFault.TheVariants.{Device};
ghost use Rattle.sm_disk.specs.Held.{IsSettled, Keeps};
ghost use Rattle.vg_meta.specs.Roomy.{table_alone};
ghost use Rattle.vg_volumes.specs.Commits.{current_version};
ghost use Rattle.sm_machine.specs.Shapes.{image_limit};
ghost use Rattle.sm_recover.specs.Ending.{HasFewEnds};
ghost use Rattle.sm_recover.specs.Repairs.{UnlessDeviceFailed};
ghost use Rattle.sm_recover.specs.Stores.{IsOpeningStopped, MayBeRepairedFrom};
ghost use Rattle.vg_volumes.specs.Stored.{OnlyReads, Leaves};
ghost use Rattle.sm_machine.specs.Tracking.{AreGoodLogs};
ghost use Rattle.sm_ready.specs.Does.{store_shape};
ghost use Rattle.sm_ready.specs.Framing.{IsBetweenSteps};
ghost use Rattle.sm_ready.specs.Known.{known, shape_in};
ghost use Rattle.sm_ready.specs.Proper.{IsBetweenSteps-prop};
ghost use Rattle.sm_ready.specs.Sessions.{IsAtEase, IsReadyStore, KeepsAll, store_state};
ghost use Rattle.sm_ready.specs.Stores.{MayShow, StoreLeaves, content_in, store_content};
ghost use Rattle.sm_run.specs.Runs.{BeginsSettled};
ghost use Rattle.sm_standing.specs.Dropped.{opening};
ghost use Rattle.sm_standing.specs.Keeping.{HoldsWell};
ghost use Rattle.sm_standing.specs.LogChecks.{first_place};
ghost use Rattle.sm_standing.specs.Standing.{disks};
ghost use Rattle.sm_session.specs.Truth.{AreTold, IsTruthful};

use crate::taking::take;
use gc_plan::ChildCounts;
use sm_base::{NoMemory, OpenFault, SECTOR};
use sm_machine::{Command, Reply};
use sm_pool::Pool;
use sm_ready::Memory;
use sm_recover::settle;
use sm_run::{StepFault, Steps};
use std::alloc::Global;
use vg_volumes::Store;

/// How many buffers a session has: of a block and its bitmap.
const BUFFERS: usize = 1;

/// A repository that is open: its store, what is in memory of it, a buffer for a block of a guest, the numbers of children that
/// the collector counts, whether a step has failed, and the time at which it was opened, in seconds since 2000-01-01 00:00 UTC:
/// the stamp of the images that it makes.
pub struct Session<S: Store> {
    store: S,
    memory: Memory,
    pool: Pool,
    children: ChildCounts,
    broken: bool,
    now: u32,
    // While no step has failed, store and memory are as they are between two steps.
    ghost between: { broken ≡ false → IsBetweenSteps S.Store store memory } by { Prim.hlevel (props, IsBetweenSteps-prop) },
    // A buffer is free, and the children of as many images can be counted as there may be.
    ghost buffer: { (0 < pool.free) × (512 * (1 + (S.site store).geometry.block) ≤ pool.bytes) },
    ghost child_counts: { image_limit ≤ length children },
}

/// The buffer of a session, which is free and holds a block and its bitmap.
fn buffers<S: Store>(alloc: Global, store: &S) -> Result<Pool, NoMemory>
    ensures { IfOk result (λ pool. (0 < pool.free) × (512 * (1 + (S.site store.now).geometry.block) ≤ pool.bytes)) }
{
    let block = store.geometry().block as usize;
    Pool::new(alloc, BUFFERS, SECTOR as usize * (1 + block))
}

impl<S: Store> Session<S> {
    /// Checks what stands in a store, all checks before the first write, and repairs what a stop has left. What is promised
    /// of the sectors and of the disks rests on what no check sees: that each slot of a VHD image holds a sector, and that an
    /// image whose children are being linked past it was copied.
    ///
    /// # Errors
    /// Why there is no session, with the store: `Damaged` with the first place at which the checks fail; `Device` where
    /// a call of the store failed; `NoMemory`. Unless a call of the store failed, nothing was written.
    pub fn begin(alloc: Global, store: S, now: u32) -> Result<Session<S>, (OpenFault, S)>
        requires usable { S.version store ≡ current_version → S.failed store ≡ false }
        requires settled { S.told → IsSettled (S.area store) }
        ensures site { IfOk result (λ s. S.site s.store ≡ S.site store) }
        ensures calm { IfOk result (λ s. S.faults s.store ≡ S.faults store) }
        ensures beside { IfOk result (λ s. S.told → Keeps (S.beside store) (S.beside s.store)) }
        ensures few { IfOk result (λ s. HasFewEnds (table_alone (S.table store)) (table_alone (S.table s.store))) }
        ensures whole { IfOk result (λ s. s.broken ≡ false) }
        ensures now { IfOk result (λ s. s.now ≡ now) }
        ensures ease { IfOk result (λ s. IsAtEase s.memory) }
        ensures sound { IfOk result (λ s. S.told → first_place (store_content S.Store store) ≡ None) }
        ensures ready { IfOk result (λ s. S.told → HoldsWell (store_content S.Store store) → IsReadyStore S.Store s.store s.memory) }
        ensures good_logs { IfOk result (λ s. ∥ AreGoodLogs (store_shape S.Store s.store s.memory) ∥₁) }
        ensures settled { IfOk result (λ s. S.told → IsSettled (S.area s.store)) }
        ensures disks { IfOk result (λ s. S.told → HoldsWell (store_content S.Store store) → disks (store_content S.Store s.store)
            ≡ disks (store_content S.Store store)) }
        ensures opened { IfOk result (λ s. S.told → HoldsWell (store_content S.Store store)
            → shape_in (S.site s.store) (table_alone (S.table s.store)) (known s.memory) ≡ opening (store_content S.Store store)) }
        ensures kept { IfOk result (λ s. S.told → HoldsWell (store_content S.Store store) → KeepsAll (S.site s.store) (StoreLeaves S.Store s.store)) }
        ensures told { IfOk result (λ s. S.told → HoldsWell (store_content S.Store store) → IsTruthful (store_content S.Store store)
            → AreTold (S.site s.store) (StoreLeaves S.Store s.store) (store_shape S.Store s.store s.memory)) }
        ensures begins { IfOk result (λ s. S.told → HoldsWell (store_content S.Store store)
            → BeginsSettled (store_state S.Store s.store s.memory) (MayShow (S.site s.store) (StoreLeaves S.Store s.store))) }
        ensures site_back { IfErr result (λ e. S.site e.1 ≡ S.site store) }
        ensures calm_back { IfErr result (λ e. e.0 ≢ Device → S.faults e.1 ≡ S.faults store) }
        ensures counts_back { IfErr result (λ e. S.faults store ≤ S.faults e.1) }
        ensures beside_back { IfErr result (λ e. S.told → Keeps (S.beside store) (S.beside e.1)) }
        ensures few_back { IfErr result (λ e. HasFewEnds (table_alone (S.table store)) (table_alone (S.table e.1))) }
        ensures few_left { IfErr result (λ e. Leaves S.Store e.1 (λ t image. HasFewEnds (table_alone (S.table store)) t)) }
        ensures cause { IfErr result (λ e. IsOpeningStopped S.told (store_content S.Store store) (S.faults store) (S.faults e.1) e.0) }
        ensures refused { IfErr result (λ e. UnlessDeviceFailed e.0 (OnlyReads S.Store store e.1)) }
        ensures unsound_back { IfErr result (λ e. S.told → (first_place (store_content S.Store store) ≡ None → ⊥) → Keeps (S.device store) (S.device e.1)) }
        ensures crash_back { IfErr result (λ e. Leaves S.Store e.1 (λ t image. S.leaves store t image
            ⊎ MayBeRepairedFrom (store_content S.Store store) (content_in (S.site store) t image))) }
    {
        let mut store = store;
        let Ok(pool) = buffers(alloc, &store) else {
            return Err((OpenFault::NoMemory, store));
        };
        let Ok(children) = ChildCounts::new(alloc) else {
            return Err((OpenFault::NoMemory, store));
        };
        match settle(alloc, &mut store) {
            Ok(memory) => Ok(Session {
                store,
                memory,
                pool,
                children,
                broken: false,
                now,
            }),
            Err(fault) => Err((fault, store)),
        }
    }

    /// The store and what is in memory of it, as they are. No call is made.
    pub fn into_parts(self) -> (S, Memory)
        ensures store { result.0 ≡ self.store }
        ensures memory { result.1 ≡ self.memory }
    {
        let Session {
            store,
            memory,
            pool: _,
            children: _,
            broken: _,
            now: _,
        } = self;
        (store, memory)
    }

    /// The store, as it is. No call is made on it.
    pub fn into_store(self) -> S
        ensures store { result ≡ self.store }
    {
        let Session {
            store,
            memory: _,
            pool: _,
            children: _,
            broken: _,
            now: _,
        } = self;
        store
    }
}

impl<S: Store> Steps for Session<S> {
    ghost use Rattle.std.specs.Prelude.{◌≡◌, false};
    ghost use Rattle.std.proofs.Common.{refl};
    ghost use Rattle.vg_volumes.specs.Sites.{Site};
    ghost use Rattle.sm_ready.specs.Sessions.{IsReadyStore, KeepsAll, store_state};
    ghost use Rattle.sm_ready.specs.Stores.{MayShow, StoreLeaves};
    ghost use Rattle.sm_ready.specs.Does.{store_shape};
    ghost use Rattle.sm_machine.specs.Tracking.{AreGoodLogs};
    ghost use Rattle.sm_session.specs.Truth.{AllTruthful, AreTold};

    ghost told = { S.told };

    ghost state = { λ s. store_state S.Store s.store s.memory };

    ghost shape = { λ s. store_shape S.Store s.store s.memory };

    ghost ready = { λ s. (s.broken ≡ false) × IsReadyStore S.Store s.store s.memory × ∥ AreGoodLogs (store_shape S.Store s.store s.memory) ∥₁ };

    ghost kept = { λ s. KeepsAll (S.site s.store) (StoreLeaves S.Store s.store) };

    ghost telling = { λ s. AreTold (S.site s.store) (StoreLeaves S.Store s.store) (store_shape S.Store s.store s.memory) };

    ghost truthful = { λ s. AllTruthful (S.site s.store) (StoreLeaves S.Store s.store) };

    ghost held = { λ s. S.area s.store };

    ghost device = { λ s. S.device s.store };

    ghost beside = { λ s. S.beside s.store };

    ghost leaves = { λ s. MayShow (S.site s.store) (StoreLeaves S.Store s.store) };

    ghost broken = { λ s. s.broken };

    ghost faults = { λ s. S.faults s.store };

    ghost Site = { Site };

    ghost site = { λ s. S.site s.store };

    fn step(&mut self, alloc: Global, command: &Command) -> Result<Reply, StepFault> {
        if self.broken {
            return Err(StepFault::Broken);
        }
        let taken = take(
            alloc,
            &mut self.store,
            &mut self.memory,
            &mut self.pool,
            &mut self.children,
            command,
            self.now,
        );
        match taken {
            Ok(reply) => Ok(reply),
            Err(_) => {
                self.broken = true;
                Err(StepFault::Device)
            }
        }
    }

    ghost is_shape = { λ s. refl };

    ghost tells_now = { λ s told ready telling. telling.left };
}
