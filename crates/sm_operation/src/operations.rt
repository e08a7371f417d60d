//! The operation in memory.

ghost use Rattle.std.specs.Prelude.{◌≡◌, ◌<◌, ◌≤◌, ◌+◌, ◌^◌, Bool, List, [], true, false, length, slice_index_or, slice_set, vec_capacity, IfOk};
ghost use Rattle.sm_machine.specs.Operations.{Idle, advanced, begun, told, touched};
ghost use Rattle.sm_operation.specs.Kept.{count_of, dirty_in, flagged, least, lengthened, seen};

use sm_base::{NoMemory, Op};
use std::alloc::Global;
use std::marker::Model;

/// The most blocks that an image may have.
pub const BLOCK_LIMIT: u32 = 1_044_480;

/// What the collector is doing, and the blocks that are dirty: a flag for each block up to the last one that was dirty, in room for all
/// that an image may have.
#[derive(Drop)]
pub struct Operation {
    op: Op,
    dirty: Vec<bool>,
}

impl Model for Operation {
    ghost use Rattle.sm_machine.specs.Operations.{Op};

    ghost Value = { Op };

    ghost use Rattle.std.specs.Prelude.{vec_capacity};
    ghost use Rattle.sm_operation.specs.Kept.{AreCounted, seen};

    ghost view = { λ o. seen o.op o.dirty.items };

    ghost invariant = { λ o. AreCounted o.op (vec_capacity o.dirty) o.dirty.items };
}

impl Operation {
    /// No operation runs. It takes room of a byte for each block that an image may have, and writes none of it.
    pub fn new(alloc: Global) -> Result<Operation, NoMemory>
        ensures { IfOk result (λ o. o ≡ Idle) }
    {
        let Ok(dirty) = Vec::with_capacity(alloc, BLOCK_LIMIT as usize) else {
            return Err(NoMemory);
        };
        Ok(Operation {
            op: Op::Idle,
            dirty,
        })
    }

    /// The operation, with the number of its dirty blocks.
    pub fn told(&self) -> Op
        ensures { result ≡ told self.now }
    {
        self.op
    }

    /// Another operation has begun, and no block is dirty. The number of dirty blocks that it is given with is not looked at.
    pub fn set(&mut self, op: Op)
        ensures { self.new ≡ begun op }
    {
        self.dirty.clear();
        self.op = fresh(op);
    }

    /// A block of the folded leaf was written to: of a live folding it is dirty from now on, where it lies below the cursor.
    pub fn touch(&mut self, block: u32)
        requires { block < 1044480 }
        ensures { self.new ≡ touched block self.old }
    {
        let Op::Live {
            leaf,
            parent,
            cursor,
            dirty,
        } = self.op
        else {
            return;
        };
        if cursor <= block {
            return;
        }
        if is_set(&self.dirty, block as usize) {
            return;
        }
        mark(&mut self.dirty, block as usize);
        self.op = Op::Live {
            leaf,
            parent,
            cursor,
            dirty: dirty + 1,
        };
    }

    /// A block was copied: the cursor goes on behind it, or, of a live folding, one below the cursor is not dirty any more.
    pub fn advance(&mut self, block: u32)
        requires { block < 1044480 }
        ensures { self.new ≡ advanced block self.old }
    {
        match self.op {
            Op::Copy { child, parent, .. } => {
                self.op = Op::Copy {
                    child,
                    parent,
                    cursor: block + 1,
                };
            }
            Op::Leaf { leaf, parent, .. } => {
                self.op = Op::Leaf {
                    leaf,
                    parent,
                    cursor: block + 1,
                };
            }
            Op::Live {
                leaf,
                parent,
                cursor,
                dirty,
            } => {
                if cursor <= block {
                    self.op = Op::Live {
                        leaf,
                        parent,
                        cursor: block + 1,
                        dirty,
                    };
                    return;
                }
                if !is_set(&self.dirty, block as usize) {
                    return;
                }
                clear(&mut self.dirty, block as usize);
                self.op = Op::Live {
                    leaf,
                    parent,
                    cursor,
                    dirty: dirty - 1,
                };
            }
            Op::Idle => {}
            Op::Relink { .. } => {}
        }
    }

    /// The least dirty block.
    pub fn least_dirty(&self) -> Option<u32>
        ensures { result ≡ least (dirty_in self.now) }
    {
        let Op::Live { .. } = self.op else {
            return None;
        };
        least_set(&self.dirty)
    }
}

/// Whether a flag is set; one that is not there is clear.
fn is_set(flags: &[bool], place: usize) -> bool
    ensures { result ≡ slice_index_or flags.now place false }
{
    flags.get(place).copied().unwrap_or(false)
}

/// Sets a flag. Those in front of it that are not there yet are clear then.
fn mark(flags: &mut Vec<bool>, place: usize)
    requires { place < vec_capacity flags.old }
    ensures flags { flags.new.items ≡ slice_set (lengthened (place + 1) flags.old.items) place true }
    ensures room { vec_capacity flags.old ≤ vec_capacity flags.new }
{
    if flags.len() <= place {
        let Ok(()) = flags.resize(place + 1, false) else {
            unreachable!()
        };
    }
    flags[place] = true;
}

/// Clears a flag that is there.
fn clear(flags: &mut Vec<bool>, place: usize)
    requires { place < length flags.old.items }
    ensures flags { flags.new.items ≡ slice_set flags.old.items place false }
    ensures room { vec_capacity flags.old ≤ vec_capacity flags.new }
{
    flags[place] = false;
}

/// The first place whose flag is set.
fn least_set(flags: &[bool]) -> Option<u32>
    requires few { length flags.now < 2 ^ 32 }
    ensures { result ≡ least (flagged 0 flags.now) }
{
    for place in 0..flags.len() {
        if flags[place] {
            return Some(place as u32);
        }
    }
    None
}

/// The operation with no dirty block.
fn fresh(op: Op) -> Op
    ensures none { count_of result ≡ 0 }
    ensures same { (flags : List Bool) → flagged 0 flags ≡ [] → seen result flags ≡ begun op }
{
    match op {
        Op::Live {
            leaf,
            parent,
            cursor,
            ..
        } => Op::Live {
            leaf,
            parent,
            cursor,
            dirty: 0,
        },
        other => other,
    }
}
