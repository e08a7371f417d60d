//! What is counted of the replies to a trial's lines.

ghost use Rattle.std.specs.Prelude.{◌≡◌, ◌≤◌, ◌+◌, ◌*◌, ◌^◌, ◌<◌, length, sum, IfOk};
ghost use Rattle.sm_machine.specs.Replies.{printed};
ghost use Rattle.sm_machine.specs.Runs.{is_accepted};
ghost use Rattle.sm_trial.specs.Counts.{reply_most, reply_limit};

use sm_base::NoMemory;
use sm_disk::MemSink;
use sm_script::{Print, Reply};
use std::alloc::Global;

/// How many lines were accepted and how many refused, and the sum of all bytes of all replies with their newlines.
#[derive(Clone, Copy)]
pub struct Tally {
    pub accepted: u32,
    pub refused: u32,
    pub sum: u64,
}

/// The most bytes of a reply that is counted: a longer one is answered with want of memory.
const REPLY: usize = 65536;

/// The sum of so many bytes at most.
fn sum_of(bytes: &[u8]) -> u64
    requires { length bytes.now ≤ reply_limit }
    ensures is { result ≡ sum bytes.now }
    ensures few { result ≤ reply_most }
{
    let mut total = 0;
    for byte in bytes {
        total += u64::from(*byte);
    }
    total
}

/// The sum of the bytes of a reply's line.
pub(crate) fn reply_sum(alloc: Global, reply: &Reply) -> Result<u64, NoMemory>
    ensures is { IfOk result (λ n. n ≡ sum (printed reply.now)) }
    ensures few { IfOk result (λ n. n ≤ reply_most) }
{
    let mut text = MemSink::new(alloc, None)?;
    if reply.print(&mut text).is_err() || text.bytes().len() > REPLY {
        return Err(NoMemory);
    }
    Ok(sum_of(text.bytes()))
}

/// Whether a reply accepts its line.
#[tactic(auto, unfolding(sm_machine::specs::Runs::is_accepted))]
pub(crate) fn is_accepted(reply: &Reply) -> bool
    ensures { result ≡ is_accepted reply.now }
{
    !matches!(reply, Reply::No(_))
}
