//! A pool of buffers of one length, whose memory is all taken when the pool is made.
//!
//! Kept here: the free buffers, in one stack that has a place for every buffer of the pool. Lengths are in
//! bytes. Nothing here is on a device, and a stop leaves nothing. `take` and `give` cost a push or a pop, and
//! neither takes memory nor searches.
//!
//! A contract sees a `Pool` as three numbers, `bytes`, `count` and `free` (`specs/Buffers.antt`), and a `Buf` as
//! the list of its bytes. The buffers that are out are those of the count that are not free, so `take` adds
//! one to them, `give` takes one away, and free plus out is the count after every call.
//!
//! A `Buf` is no `Drop` type: a function that has one must hand it on or give it back on each of its paths, or it
//! does not compile. So no buffer is lost at an early return.
#![tactic(auto)]

ghost use Rattle.std.specs.Prelude.{◌≡◌, ◌+◌, ◌-◌, ◌<◌, ◌≤◌, ◌↔◌, length, replicate, All, vec_len, vec_capacity, IsNone, IfOk, IfSome, IfNone, OnSome};
ghost use Rattle.std.specs.Borrow.{sem};
ghost use Rattle.sm_pool.specs.Lending.{LendsBytes};

use sm_base::NoMemory;
use std::alloc::Global;
use std::marker::Model;

/// A buffer that was taken from a pool.
pub struct Buf {
    content: Vec<u8>,
}

impl Model for Buf {
    ghost use Rattle.std.specs.Prelude.{ℕ, List};

    ghost Value = { List ℕ };

    ghost view = { λ b. b.content.items };
}

impl Buf {
    /// The bytes, as many as the pool's buffers have.
    pub fn bytes(&self) -> &[u8]
        ensures { result.now ≡ self.now }
    {
        self.content.as_slice()
    }

    /// The bytes, to write.
    pub fn bytes_mut(&mut self) -> &mut [u8]
        ensures* writes_back { sem 𝓛 (LendsBytes self.entry result) }
        ensures value { result.now ≡ self.old }
    {
        self.content.as_mut_slice()
    }
}

/// Buffers of one length. `free` is the stack of those that are not out.
#[derive(Drop)]
pub struct Pool {
    bytes: usize,
    count: usize,
    free: Vec<Vec<u8>>,
}

impl Model for Pool {
    ghost use Rattle.sm_pool.specs.Buffers.{Buffers};

    ghost Value = { Buffers };

    ghost use Rattle.sm_pool.specs.Stack.{buffers_of, IsStack};

    ghost view = { buffers_of };

    ghost invariant = { IsStack };
}

impl Pool {
    /// A pool of `count` buffers of `bytes` bytes each, all zeros and all free.
    pub fn new(alloc: Global, count: usize, bytes: usize) -> Result<Pool, NoMemory>
        ensures all_free { IfOk result (λ p. p ≡ record { bytes = bytes; count = count; free = count }) }
    {
        let free = zeroed(alloc, count, bytes)?;
        Ok(Pool { bytes, count, free })
    }

    /// A free buffer, with whatever bytes it was given back with, or `None` where none is free.
    pub fn take(&mut self) -> Option<Buf>
        ensures none { IsNone result ↔ (self.old.free ≡ 0) }
        ensures long { IfSome result (λ buf. length buf ≡ self.old.bytes) }
        ensures taken { OnSome result (self.new ≡ record self.old { free = self.old.free - 1 }) }
        ensures unchanged { IfNone result (self.new ≡ self.old) }
    {
        let content = self.free.pop()?;
        Some(Buf { content })
    }

    /// Takes a buffer back. It has the pool's length, and one is out.
    pub fn give(&mut self, buf: Buf)
        requires long { length buf ≡ self.old.bytes }
        requires one_is_out { self.old.free < self.old.count }
        ensures given { self.new ≡ record self.old { free = self.old.free + 1 } }
    {
        let Buf { content } = buf;
        let Ok(()) = self.free.push(content) else {
            unreachable!()
        };
    }

    /// How many buffers are free.
    pub fn free(&self) -> usize
        ensures free { result ≡ self.now.free }
        ensures within { result ≤ self.now.count }
    {
        self.free.len()
    }
}

// `count` buffers of `bytes` zeros, in a stack that never has to grow for them.
fn zeroed(alloc: Global, count: usize, bytes: usize) -> Result<Vec<Vec<u8>>, NoMemory>
    ensures count { IfOk result (λ v. vec_len v ≡ count) }
    ensures zeros { IfOk result (λ v. All (λ b. b.items ≡ replicate bytes 0) v.items) }
    ensures room { IfOk result (λ v. count ≤ vec_capacity v) }
{
    let Ok(mut buffers) = Vec::with_capacity(alloc, count) else {
        return Err(NoMemory);
    };
    for _ in 0..count {
        let Ok(zeros) = vec![in alloc; 0u8; bytes] else {
            return Err(NoMemory);
        };
        let Ok(()) = buffers.push(zeros) else {
            return Err(NoMemory);
        };
    }
    Ok(buffers)
}
