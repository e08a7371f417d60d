//! What tests of a table's text have in common: a text is written, foretold of a change, and judged.

ghost use Rattle.std.specs.Prelude.{◌≡◌, ◌≤◌, ◌<◌, ◌^◌, length, OnOk, IfOk};
ghost use Rattle.vg_meta.specs.Roomy.{table_alone};
ghost use Rattle.vg_meta.specs.Changes.{Permits, HasRoom, applied};
ghost use Rattle.vg_meta.specs.Tables.{IsTable};
ghost use Rattle.vg_meta.specs.Text.{text, HasText};

use sm_base::Name;
use std::alloc::{AllocError, Global};
use std::process::Abort;
use std::test::Fail;
use uuid::Uuid;
use vg_meta::{Change, DecodeFault, Extents, Table};

/// The image that is changed.
pub fn image() -> Name {
    Name::Vhd(Uuid::from_bytes([0x11; 16]))
}

/// Extents of these numbers.
pub fn extents(alloc: Global, list: &[u32]) -> Result<Extents, AllocError> {
    Ok(Extents::new(list.to_vec(alloc)?))
}

/// Where bytes are damaged, or `None` where they spell a table.
pub fn place(alloc: Global, bytes: &[u8], extents: u32) -> Option<u32> {
    match Table::decode(alloc, bytes, extents) {
        Err(DecodeFault::Damaged { at }) => Some(at),
        Ok(_) | Err(DecodeFault::NoMemory) => None,
    }
}

/// So many bytes, each of them ff.
pub fn filled(alloc: Global, size: usize) -> Result<Vec<u8>, Fail>
    ensures size { IfOk result (λ v. length v.items ≡ size) }
    ensures short { IfOk result (λ v. size < 2 ^ 32) }
{
    if size > 1_000_000 {
        Err("a long text")?;
    }
    Ok(vec![in alloc; 0xff; size]?)
}

/// The table's text, in front of 3 bytes of ff that stay.
pub fn written(alloc: Global, table: &Table) -> Result<Vec<u8>, Fail>
    requires { HasText (table_alone table.now) }
{
    let size = table.length().saturating_add(3);
    let mut bytes = filled(alloc, size)?;
    let length = table.encode(&mut bytes);
    if length != table.length() || !bytes.ends_with(&[0xff; 3]) {
        Err("bytes past the text")?;
    }
    bytes.truncate(length);
    Ok(bytes)
}

/// The text that the table foretells of a change.
fn foretold(alloc: Global, table: &Table, change: &Change) -> Result<Vec<u8>, Fail>
    requires allowed { Permits (2 ^ 32) (table_alone table.now) change.now }
    requires fits { length (text (applied (table_alone table.now) change.now)) ≤ 4096 }
    requires numbers { HasText (applied (table_alone table.now) change.now) }
{
    let mut bytes = filled(alloc, 4096)?;
    let length = table.encode_changed(change, &mut bytes);
    bytes.truncate(length);
    Ok(bytes)
}

/// Makes the room that a change wants.
fn make_room(table: &mut Table, change: &Change) -> Result<(), Fail>
    ensures table { table_alone table.new ≡ table_alone table.old }
    ensures room { OnOk result (HasRoom table.new change.now) }
{
    match change {
        Change::Create { .. } => table.reserve(1)?,
        Change::Grow { name, extents } => {
            table.get(name).ok_or("no volume")?;
            table.reserve_extents(name, extents.as_slice().len())?;
        }
        Change::Remove { .. } | Change::Rename { .. } | Change::Cut { .. } | Change::Mark { .. } =>
            {}
    }
    Ok(())
}

/// Does a change of a table of 8 extents. The text that the table foretells, and the text of the table that it becomes, are the
/// wanted one.
fn does(
    rt: &impl Abort,
    alloc: Global,
    table: &mut Table,
    change: Change,
    after: &[u8],
) -> Result<(), Fail>
    requires { IsTable 8 (table_alone table.old) }
{
    if !table.allows(&change, 8) {
        return Err(Fail::from("a change that is allowed"));
    }
    if !table.fits(&change, 4096) {
        return Err(Fail::from("a short text"));
    }
    let told = foretold(alloc, table, &change)?;
    assert!(rt; told.as_slice() == after);
    make_room(table, &change)?;
    table.apply(change);
    let text = written(alloc, table)?;
    assert!(rt; text.as_slice() == after);
    Ok(())
}

/// Does a change of the table of a text.
pub fn becomes(
    rt: &impl Abort,
    alloc: Global,
    before: &[u8],
    change: Change,
    after: &[u8],
) -> Result<(), Fail> {
    let mut table = Table::decode(alloc, before, 8)?;
    does(rt, alloc, &mut table, change, after)
}
