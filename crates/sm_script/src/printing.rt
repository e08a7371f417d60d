//! How a reply is printed.

ghost use Rattle.std.specs.Prelude.{◌≤◌, List, ℕ, OnOk, OnErr};
ghost use Rattle.sm_disk.specs.Held.{IsCounted};
ghost use Rattle.sm_disk.specs.Streams.{Adds, AddsFront};
ghost use Rattle.sm_machine.specs.Replies.{by_spaces, printed, reply_parts};
ghost use Rattle.sm_machine.specs.declared.replies.Reply.TheVariants as reply;
ghost use Rattle.sm_script.specs.Pieces.{Writes};

use crate::listings::{write_list, write_stat};
use crate::pieces::{write_hex, write_joined};
use crate::refusals::write_refusal;
use crate::steps::write_plan;
use crate::words::Word;
use sm_base::Failed;
use sm_disk::{Sink, write_all};
use sm_machine::{Bytes, Reply};

/// What can be printed to a sink.
pub trait Print {
    /// The text that is printed.
    ghost text: { Self → List ℕ };

    /// Writes the text, piece by piece and with no memory of its own. Where the sink fails, a front of the
    /// text was written, maybe none of it.
    fn print<K: Sink>(&self, sink: &mut K) -> Result<(), Failed>
        ensures adds { OnOk result (Adds (K.content sink.old) (text self.now) (K.content sink.new)) }
        ensures front { OnErr result (AddsFront (K.content sink.old) (text self.now) (K.content sink.new)) }
        ensures counts { K.faults sink.old ≤ K.faults sink.new }
        ensures cause { IsCounted result (K.faults sink.old) (K.faults sink.new) };
}

/// A reply is printed as one line, with its newline.
impl Print for Reply {
    ghost text = { printed };

    fn print<K: Sink>(&self, sink: &mut K) -> Result<(), Failed> {
        write_reply(sink, self)
    }
}

// Writes a reply's line.
fn write_reply<K: Sink>(sink: &mut K, reply: &Reply) -> Result<(), Failed>
    ensures { Writes (printed reply.now)
        (K.content sink.old) (K.content sink.new) (K.faults sink.old) (K.faults sink.new) result }
{
    write_parts(sink, reply)?;
    write_all(sink, b"\n")
}

// Writes the parts of a reply.
fn write_parts<K: Sink>(sink: &mut K, reply: &Reply) -> Result<(), Failed>
    ensures { Writes (by_spaces (reply_parts reply.now))
        (K.content sink.old) (K.content sink.new) (K.faults sink.old) (K.faults sink.new) result }
{
    match reply {
        Reply::Done => write_joined(sink, b' ', &[Word::text(b"ok")]),
        Reply::Size(size) => {
            let words = [Word::text(b"ok"), Word::number(*size)];
            write_joined(sink, b' ', &words)
        }
        Reply::Bytes(bytes) => write_bytes(sink, bytes),
        Reply::List(rows) => write_list(sink, rows),
        Reply::Stat(rows) => write_stat(sink, rows),
        Reply::Changed(text) => write_changed(sink, text),
        Reply::Gc(plan, op) => write_plan(sink, plan, op),
        Reply::No(refusal) => write_refusal(sink, b"no", refusal),
    }
}

// Writes `ok` and the bytes.
fn write_bytes<K: Sink>(sink: &mut K, bytes: &Bytes) -> Result<(), Failed>
    ensures { Writes (by_spaces (reply_parts (reply.Bytes bytes.now)))
        (K.content sink.old) (K.content sink.new) (K.faults sink.old) (K.faults sink.new) result }
{
    write_all(sink, b"ok ")?;
    write_hex(sink, &bytes.bytes)
}

// Writes `ok` and a text as it is.
fn write_changed<K: Sink>(sink: &mut K, text: &Bytes) -> Result<(), Failed>
    ensures { Writes (by_spaces (reply_parts (reply.Changed text.now)))
        (K.content sink.old) (K.content sink.new) (K.faults sink.old) (K.faults sink.new) result }
{
    write_all(sink, b"ok ")?;
    write_all(sink, &text.bytes)
}
