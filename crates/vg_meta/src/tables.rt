//! The table of the group.

ghost use Rattle.std.specs.Prelude.{◌≡◌, ◌≤◌, ◌+◌, ◌<◌, ◌^◌, ◌-◌, ◌++◌, ◌↔◌, min, length, drop, IsTrue, [], None, IsSome, IfSome, IfNone, IfOk, IfErr, OnOk, OnErr};
ghost use Rattle.sm_base.specs.declared.names.Name.{Name};
ghost use Rattle.std.specs.List.{range_with_len};
ghost use Rattle.vg_meta.specs.Tables.{IsTable, rows, new_table};
ghost use Rattle.vg_meta.specs.Roomy.{table_alone, places, IsHeld, IsPlace};
ghost use Rattle.vg_meta.specs.Text.{text, text_by, HasText};
ghost use Rattle.vg_meta.specs.Reading.{Spells, SpellsBy, told as told_of};
ghost use Rattle.vg_meta.specs.Faults.{IsDecodeFault, IsDecodeFaultBy};
ghost use Rattle.vg_meta.specs.Changes.{Permits, HasRoom, applied, spare_after, places_after};

use crate::allowed::is_allowed;
use crate::changes::{Change, Extents};
use crate::decoding::{long_number_at, number_at};
use crate::edits::{apply_to, reserve_for};
use crate::encoding::{put_number, put_sequence, put_volumes, volumes_length};
use crate::faults::DecodeFault;
use crate::grammars::Grammar;
use crate::lengths::changed_length;
use crate::reading::{Stopped, volumes_at};
use crate::splices::{changed_count, put_changed, raised};
use crate::volumes::{Volume, place_in_order, place_near};
use sm_base::{LAST_SEQUENCE, Name, NoMemory};
use std::alloc::Global;
use std::marker::Model;

/// The table: its sequence number, and the volumes in order of name. A contract sees both, and how many rows
/// may be added without memory.
#[derive(Drop)]
pub struct Table {
    seq: u64,
    volumes: Vec<Volume>,
}

impl Model for Table {
    ghost use Rattle.std.specs.Prelude.{ℕ, ◌^◌, ◌-◌, vec_capacity, vec_len};
    ghost use Rattle.vg_meta.specs.Roomy.{RoomyTable, table_alone};
    ghost use Rattle.vg_meta.specs.Tables.{IsTable};

    ghost Value = { RoomyTable };

    ghost view = { λ t. record { sequence = t.seq; rows = t.volumes.items; spare = vec_capacity t.volumes - vec_len t.volumes } };

    ghost invariant = { λ t. IsTable (2 ^ 32) (table_alone (record { sequence = t.seq; rows = t.volumes.items; spare = vec_capacity t.volumes - vec_len t.volumes })) };
}

impl Table {
    /// The table of a new group: its sequence number is 1, and the volume of the records has so many extents,
    /// the first ones.
    pub fn formatted(alloc: Global, extents_of_mgt: u32) -> Result<Table, NoMemory>
        ensures table { IfOk result (λ t. table_alone t ≡ new_table extents_of_mgt) }
    {
        let extents = first_extents(alloc, extents_of_mgt)?;
        let mut volumes = Vec::new(alloc);
        if volumes
            .push(Volume::new(Name::Mgt, false, false, extents))
            .is_err()
        {
            return Err(NoMemory);
        }
        Ok(Table { seq: 1, volumes })
    }

    /// The sequence number, which each change raises.
    pub fn seq(&self) -> u64
        ensures seq { result ≡ self.now.sequence }
    {
        self.seq
    }

    /// The volumes, in order of name. A table is always what it should be, with extents below 2^32.
    pub fn volumes(&self) -> &[Volume]
        ensures volumes { result.now ≡ self.now.rows }
        ensures table { IsTable (2 ^ 32) (table_alone self.now) }
    {
        &self.volumes
    }

    /// No extents, for a volume that has none. It takes no memory.
    pub fn no_extents(&self) -> Extents
        ensures { result ≡ [] }
    {
        Extents::new(Vec::new(*self.volumes.allocator()))
    }

    /// The place of a volume in `volumes`, by halving, or `None` exactly where no volume has the name.
    pub fn find(&self, name: &Name) -> Option<usize>
        ensures found { IfSome result (IsPlace self.now.rows name.now) }
        ensures none { IfNone result (rows (table_alone self.now) name.now ≡ None) }
    {
        place_in_order(&self.volumes, name)
    }

    /// A volume, or `None` exactly where no volume has the name.
    pub fn get(&self, name: &Name) -> Option<&Volume>
        ensures found { IfSome result (λ v. IsHeld self.now.rows name.now v.now) }
        ensures none { IfNone result (rows (table_alone self.now) name.now ≡ None) }
    {
        let at = self.find(name)?;
        Some(&self.volumes[at])
    }

    /// A volume as `get` answers it, which is sought at the place `near` and the one behind it before it is sought by halving; `near`
    /// is its place afterwards. So volumes that are asked for in order of name, each as often as may be, cost two looks each time.
    pub fn get_near(&self, name: &Name, near: &mut usize) -> Option<&Volume>
        ensures found { IfSome result (λ v. IsHeld self.now.rows name.now v.now) }
        ensures none { IfNone result (rows (table_alone self.now) name.now ≡ None) }
    {
        let at = self.find_near(name, *near)?;
        *near = at;
        Some(&self.volumes[at])
    }

    // The place of a volume as `find` answers it, sought at two places before it is sought by halving.
    fn find_near(&self, name: &Name, near: usize) -> Option<usize>
        ensures found { IfSome result (IsPlace self.now.rows name.now) }
        ensures none { IfNone result (rows (table_alone self.now) name.now ≡ None) }
    {
        place_near(&self.volumes, name, near)
    }

    /// How many rows may be added without memory.
    pub fn spare(&self) -> usize
        ensures spare { result ≡ self.now.spare }
    {
        self.volumes.capacity() - self.volumes.len()
    }

    /// How many extents of a volume may be added without memory, and 0 where no volume has the name.
    pub fn places(&self, name: &Name) -> usize
        ensures places { result ≡ places self.now name.now }
    {
        match self.get(name) {
            Some(volume) => volume.spare(),
            None => 0,
        }
    }

    /// Whether there is room for a change, so that it takes no memory.
    pub fn has_room(&self, change: &Change) -> bool
        ensures room { IsTrue result ↔ HasRoom self.now change.now }
    {
        match change {
            Change::Create { .. } => self.spare() > 0,
            Change::Grow { name, extents } => extents.as_slice().len() <= self.places(name),
            Change::Remove { .. }
            | Change::Rename { .. }
            | Change::Cut { .. }
            | Change::Mark { .. } => true,
        }
    }

    /// Makes room for rows: at `Ok` at least so many may be added without memory.
    pub fn reserve(&mut self, rows: usize) -> Result<(), NoMemory>
        ensures sequence { self.new.sequence ≡ self.old.sequence }
        ensures rows { self.new.rows ≡ self.old.rows }
        ensures no_fewer { self.old.spare ≤ self.new.spare }
        ensures ok { OnOk result (rows ≤ self.new.spare) }
        ensures err { OnErr result (self.new ≡ self.old) }
    {
        match self.volumes.reserve(rows) {
            Ok(()) => Ok(()),
            Err(_) => Err(NoMemory),
        }
    }

    /// Makes room for extents of a volume: at `Ok` at least so many may be added without memory.
    pub fn reserve_extents(&mut self, name: &Name, more: usize) -> Result<(), NoMemory>
        requires { IsSome (rows (table_alone self.old) name.now) }
        ensures table { table_alone self.new ≡ table_alone self.old }
        ensures spare { self.new.spare ≡ self.old.spare }
        ensures no_fewer { (n : Name) → places self.old n ≤ places self.new n }
        ensures ok { OnOk result (more ≤ places self.new name.now) }
        ensures err { OnErr result (self.new ≡ self.old) }
    {
        reserve_for(&mut self.volumes, name, more)
    }

    /// Whether a change is allowed, where extents are counted up to `extents`. For extents that rise a Create
    /// and a Grow cost one look-up by halving for each extent of the table; for others each is compared with
    /// all. The other changes cost one pass over the names.
    pub fn allows(&self, change: &Change, extents: u32) -> bool
        ensures allowed { IsTrue result ↔ Permits extents (table_alone self.now) change.now }
    {
        is_allowed(&self.volumes, change, extents)
    }

    /// Does a change. It takes no memory.
    pub fn apply(&mut self, change: Change)
        requires allowed { Permits (2 ^ 32) (table_alone self.old) change }
        requires room { HasRoom self.old change }
        ensures table { table_alone self.new ≡ applied (table_alone self.old) change }
        ensures spare { self.new.spare ≡ spare_after self.old.spare change }
        ensures places { (n : Name) → places_after (places self.old) change n ≤ places self.new n }
    {
        apply_to(&mut self.volumes, change);
        if self.seq < LAST_SEQUENCE {
            self.seq += 1;
        }
    }

    /// The length of the text in bytes, or the greatest `usize` where it passes that.
    pub fn length(&self) -> usize
        ensures length { result ≡ min (length (text (table_alone self.now))) (2 ^ 64 - 1) }
    {
        volumes_length(&self.volumes).saturating_add(12)
    }

    /// Whether the text of the table that a change leaves has at most so many bytes. It writes nothing, and takes no
    /// memory.
    pub fn fits(&self, change: &Change, limit: u32) -> bool
        ensures fits { IsTrue result ↔ (length (text (applied (table_alone self.now) change.now)) ≤ limit) }
    {
        changed_length(&self.volumes, change).saturating_add(12) <= limit as usize
    }

    /// Writes the text by segments to the buffer's beginning, and answers its length in bytes. The bytes past it stay.
    pub fn encode(&self, to: &mut [u8]) -> usize
        requires fits { length (text (table_alone self.now)) ≤ length to.old }
        requires numbers { HasText (table_alone self.now) }
        ensures text { to.new ≡ text (table_alone self.now) ++ drop (length (text (table_alone self.now))) to.old }
        ensures length { result ≡ length (text (table_alone self.now)) }
    {
        self.encode_by(Grammar::Segmented, to)
    }

    /// Writes the text by a grammar to the buffer's beginning, and answers its length in bytes. The bytes past it stay.
    pub fn encode_by(&self, grammar: Grammar, to: &mut [u8]) -> usize
        requires fits { length (text_by grammar (table_alone self.now)) ≤ length to.old }
        requires numbers { HasText (table_alone self.now) }
        ensures text { to.new ≡ text_by grammar (table_alone self.now) ++ drop (length (text_by grammar (table_alone self.now))) to.old }
        ensures length { result ≡ length (text_by grammar (table_alone self.now)) }
    {
        let number_at = put_sequence(to, 0, self.seq);
        let volumes_at = put_number(to, number_at, self.volumes.len() as u32);
        put_volumes(to, volumes_at, grammar, &self.volumes)
    }

    /// Writes the text by segments of the table that a change leaves to the buffer's beginning, and answers its length in
    /// bytes. The bytes past it stay, and so does this table. It takes no memory.
    pub fn encode_changed(&self, change: &Change, to: &mut [u8]) -> usize
        requires allowed { Permits (2 ^ 32) (table_alone self.now) change.now }
        requires fits { length (text (applied (table_alone self.now) change.now)) ≤ length to.old }
        requires numbers { HasText (applied (table_alone self.now) change.now) }
        ensures text { to.new ≡ text (applied (table_alone self.now) change.now) ++ drop (length (text (applied (table_alone self.now) change.now))) to.old }
        ensures length { result ≡ length (text (applied (table_alone self.now) change.now)) }
    {
        self.encode_changed_by(Grammar::Segmented, change, to)
    }

    /// Writes the text by a grammar of the table that a change leaves to the buffer's beginning, and answers its length in
    /// bytes. The bytes past it stay, and so does this table. It takes no memory.
    pub fn encode_changed_by(&self, grammar: Grammar, change: &Change, to: &mut [u8]) -> usize
        requires allowed { Permits (2 ^ 32) (table_alone self.now) change.now }
        requires fits { length (text_by grammar (applied (table_alone self.now) change.now)) ≤ length to.old }
        requires numbers { HasText (applied (table_alone self.now) change.now) }
        ensures text { to.new ≡ text_by grammar (applied (table_alone self.now) change.now) ++ drop (length (text_by grammar (applied (table_alone self.now) change.now))) to.old }
        ensures length { result ≡ length (text_by grammar (applied (table_alone self.now) change.now)) }
    {
        let count_at = put_sequence(to, 0, raised(self.seq));
        let count = changed_count(&self.volumes, change);
        let volumes_at = put_number(to, count_at, count as u32);
        put_changed(to, volumes_at, grammar, &self.volumes, change)
    }

    /// The table that the bytes spell by segments, where extents are counted up to `extents`. Else the first place at which
    /// the bytes are damaged, or want of memory.
    pub fn decode(alloc: Global, bytes: &[u8], extents: u32) -> Result<Table, DecodeFault>
        ensures spells { IfOk result (λ t. Spells extents bytes.now (table_alone t)) }
        ensures fault { IfErr result (IsDecodeFault extents bytes.now) }
    {
        Table::decode_by(alloc, Grammar::Segmented, bytes, extents)
    }

    /// The table that the bytes spell by a grammar, where extents are counted up to `extents`: each of its extents is below that
    /// number, and none stands twice, so that they are no more than that. Else the first place at which the bytes are damaged,
    /// or want of memory.
    pub fn decode_by(
        alloc: Global,
        grammar: Grammar,
        bytes: &[u8],
        extents: u32,
    ) -> Result<Table, DecodeFault>
        ensures spells { IfOk result (λ t. SpellsBy grammar extents bytes.now (table_alone t)) }
        ensures fault { IfErr result (IsDecodeFaultBy grammar extents bytes.now) }
    {
        let Some((seq, rest)) = long_number_at(bytes) else {
            return Err(DecodeFault::Damaged { at: 0 });
        };
        if seq > LAST_SEQUENCE {
            return Err(DecodeFault::Damaged { at: 0 });
        }
        let Some((number, rest)) = number_at(rest) else {
            return Err(DecodeFault::Damaged { at: 8 });
        };
        let (volumes, rest) = match volumes_at(alloc, grammar, rest, number, extents) {
            Ok(read) => read,
            Err(Stopped::Damaged { left }) => {
                let at = told(bytes.len() - left);
                return Err(DecodeFault::Damaged { at });
            }
            Err(Stopped::NoMemory) => return Err(DecodeFault::NoMemory),
        };
        if !rest.is_empty() {
            let at = told(bytes.len() - rest.len());
            return Err(DecodeFault::Damaged { at });
        }
        Ok(Table { seq, volumes })
    }
}

// The extents below a count, rising.
fn first_extents(alloc: Global, count: u32) -> Result<Vec<u32>, NoMemory>
    ensures { IfOk result (λ v. v.items ≡ range_with_len 0 count) }
{
    let mut extents = Vec::new(alloc);
    for extent in 0..count {
        if extents.push(extent).is_err() {
            return Err(NoMemory);
        }
    }
    Ok(extents)
}

// A place in 32 bits.
fn told(place: usize) -> u32
    ensures { result ≡ told_of place }
{
    if place < u32::MAX as usize {
        place as u32
    } else {
        u32::MAX
    }
}
