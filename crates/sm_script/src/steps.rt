//! The steps of the collector.

ghost use Rattle.std.specs.Prelude.{◌≡◌, ◌≤◌, [], ◌∷◌, ◌++◌, codes, decimal, length, MatchOption};
ghost use Rattle.sm_base.specs.Names.{spelling};
ghost use Rattle.sm_machine.specs.Replies.{by_spaces, reply_parts, worked_on};
ghost use Rattle.sm_machine.specs.declared.replies.Reply.TheVariants as reply;
ghost use Rattle.sm_script.specs.Pieces.{Writes};

use crate::pieces::{write_joined, write_led};
use crate::words::Word;
use sm_base::{Failed, Name, Op, Plan};
use sm_disk::Sink;

/// Writes `ok gc` and a step of the collector, taken while this operation ran.
pub fn write_plan<K: Sink>(sink: &mut K, plan: &Plan, op: &Op) -> Result<(), Failed>
    ensures { Writes (by_spaces (reply_parts (reply.Gc plan.now op.now)))
        (K.content sink.old) (K.content sink.new) (K.faults sink.old) (K.faults sink.new) result }
{
    match plan {
        Plan::Abandon => write_step(sink, b"abandon", op),
        Plan::Copy { block } => write_copy(sink, op, *block),
        Plan::Turn => write_step(sink, b"turn", op),
        Plan::RelinkOne { child } => write_choice(sink, b"relink", child),
        Plan::Finish => write_step(sink, b"finish", op),
        Plan::Swap => write_step(sink, b"swap", op),
        Plan::Remove { name } => write_choice(sink, b"remove", name),
        Plan::Deflate { name, .. } => write_choice(sink, b"deflate", name),
        Plan::Begin { child, .. } => write_choice(sink, b"begin", child),
        Plan::Leaf { leaf, .. } => write_choice(sink, b"leaf", leaf),
        Plan::Live { leaf, .. } => write_choice(sink, b"live", leaf),
        Plan::Blocked { need, free } => write_blocked(sink, *need, *free),
        Plan::Idle => write_alone(sink, b"idle"),
    }
}

// Writes `ok gc`, a step of the running operation, and the volume that it works on.
fn write_step<K: Sink>(sink: &mut K, step: &[u8], op: &Op) -> Result<(), Failed>
    requires { length step.now ≤ 128 }
    ensures { Writes (by_spaces (codes "ok" ∷ codes "gc" ∷ step.now ∷ worked_on op.now))
        (K.content sink.old) (K.content sink.new) (K.faults sink.old) (K.faults sink.new) result }
{
    match volume_of(op) {
        Some(name) => write_choice(sink, step, name),
        None => write_alone(sink, step),
    }
}

// The child or the leaf of the running operation.
fn volume_of(op: &Op) -> Option<&Name>
    ensures { MatchOption result (worked_on op.now ≡ []) (λ n. worked_on op.now ≡ spelling n.now ∷ []) }
{
    match op {
        Op::Idle => None,
        Op::Copy { child, .. } => Some(child),
        Op::Relink { child, .. } => Some(child),
        Op::Leaf { leaf, .. } => Some(leaf),
        Op::Live { leaf, .. } => Some(leaf),
    }
}

// Writes `ok gc copy`, the volume that is copied from, and the block.
fn write_copy<K: Sink>(sink: &mut K, op: &Op, block: u32) -> Result<(), Failed>
    ensures { Writes (by_spaces (codes "ok" ∷ codes "gc" ∷ codes "copy" ∷ (worked_on op.now ++ decimal block ∷ [])))
        (K.content sink.old) (K.content sink.new) (K.faults sink.old) (K.faults sink.new) result }
{
    write_step(sink, b"copy", op)?;
    write_led(sink, b' ', &[Word::count(block)])
}

// Writes `ok gc`, a step, and the volume that it takes.
fn write_choice<K: Sink>(sink: &mut K, step: &[u8], name: &Name) -> Result<(), Failed>
    requires { length step.now ≤ 128 }
    ensures { Writes (by_spaces (codes "ok" ∷ codes "gc" ∷ step.now ∷ spelling name.now ∷ []))
        (K.content sink.old) (K.content sink.new) (K.faults sink.old) (K.faults sink.new) result }
{
    let words = [
        Word::text(b"ok"),
        Word::text(b"gc"),
        Word::text(step),
        Word::name(name),
    ];
    write_joined(sink, b' ', &words)
}

// Writes `ok gc` and a step alone.
fn write_alone<K: Sink>(sink: &mut K, step: &[u8]) -> Result<(), Failed>
    requires { length step.now ≤ 128 }
    ensures { Writes (by_spaces (codes "ok" ∷ codes "gc" ∷ step.now ∷ []))
        (K.content sink.old) (K.content sink.new) (K.faults sink.old) (K.faults sink.new) result }
{
    let words = [Word::text(b"ok"), Word::text(b"gc"), Word::text(step)];
    write_joined(sink, b' ', &words)
}

// Writes `ok gc` and that there is no room.
fn write_blocked<K: Sink>(sink: &mut K, need: u32, free: u32) -> Result<(), Failed>
    ensures { Writes (by_spaces (codes "ok" ∷ codes "gc" ∷ codes "blocked" ∷ codes "need" ∷ decimal need ∷ codes "free" ∷ decimal free ∷ []))
        (K.content sink.old) (K.content sink.new) (K.faults sink.old) (K.faults sink.new) result }
{
    let words = [
        Word::text(b"ok"),
        Word::text(b"gc"),
        Word::text(b"blocked"),
        Word::text(b"need"),
        Word::count(need),
        Word::text(b"free"),
        Word::count(free),
    ];
    write_joined(sink, b' ', &words)
}
