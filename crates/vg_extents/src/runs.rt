//! The free extents of a table as runs.

ghost use Rattle.std.specs.Prelude.{◌≡◌, ◌≢◌, ◌<◌, ◌≤◌, ◌+◌, ◌-◌, ◌^◌, ◌++◌, ◌∷◌, [], length, take, filter, not, false, slice_index_or, IsTrue, IsFalse, IfOk, IfErr, OnOk};
ghost use Rattle.std.specs.List.{range_with_len};
ghost use Rattle.std.specs.Slice.Iter.{iter_rest};
ghost use Rattle.vg_meta.specs.Tables.{free as free_of};
ghost use Rattle.vg_meta.specs.Roomy.{table_alone};
ghost use Rattle.vg_extents.specs.Fits.{IsShortOf};
ghost use Rattle.vg_extents.specs.Runs.{AreApart, behind_last, extents_of, segments_of};

use crate::faults::FitFault;
use crate::marks::marked;
use sm_base::NoMemory;
use std::alloc::Global;
use std::marker::Model;
use std::slice::Iter;
use vg_meta::Table;

/// So many extents that follow one another, from a first one on.
#[derive(Clone, Copy, Drop)]
struct Run {
    first: u32,
    count: u32,
}

/// The free extents of a table: the rising list of them, kept as runs of which no two touch.
#[derive(Drop)]
pub struct Runs {
    runs: Vec<Run>,
}

impl Model for Runs {
    ghost use Rattle.std.specs.Prelude.{ℕ, ◌-◌, ◌^◌, List};
    ghost use Rattle.vg_extents.specs.Runs.{AreApart, extents_of, segments_of};

    ghost Value = { List ℕ };

    ghost view = { λ r. extents_of r.runs.items };

    ghost invariant = { λ r. AreApart 0 (2 ^ 32 - 1) (segments_of r.runs.items) };
}

impl Runs {
    /// The extents below `extents` that no volume has.
    pub fn of(alloc: Global, table: &Table, extents: u32) -> Result<Runs, NoMemory>
        ensures free { IfOk result (λ runs. runs ≡ free_of extents (table_alone table.now)) }
    {
        Runs::least_of(alloc, table, extents, extents)
    }

    /// The least of them, at most `need`: the pass over the extents ends with the last one needed.
    pub(crate) fn least_of(
        alloc: Global,
        table: &Table,
        extents: u32,
        need: u32,
    ) -> Result<Runs, NoMemory>
        ensures { IfOk result (λ runs. runs ≡ take need (free_of extents (table_alone table.now))) }
    {
        let marks = marked(alloc, table.volumes(), extents)?;
        let runs = unmarked(alloc, &mut marks.iter(), need)?;
        Ok(Runs { runs })
    }

    /// How many extents are free.
    pub fn free(&self) -> u32
        ensures count { result ≡ length self.now }
    {
        count_of(&self.runs)
    }

    /// The `need` least free extents, rising.
    pub fn first(&self, alloc: Global, need: u32) -> Result<Vec<u32>, FitFault>
        ensures least { IfOk result (λ found. found.items ≡ take need self.now) }
        ensures many { IfOk result (λ found. length found.items ≡ need) }
        ensures short { IfErr result (IsShortOf need (length self.now)) }
    {
        let free = self.free();
        if need > free {
            return Err(FitFault::NoSpace { need, free });
        }
        match least(alloc, &self.runs, need) {
            Ok(found) => Ok(found),
            Err(NoMemory) => Err(FitFault::NoMemory),
        }
    }
}

// How many extents runs have.
fn count_of(runs: &[Run]) -> u32
    requires { AreApart 0 (2 ^ 32 - 1) (segments_of runs.now) }
    ensures { result ≡ length (extents_of runs.now) }
{
    let mut count = 0;
    for run in runs {
        count += run.count;
    }
    count
}

// The least extents of runs, at most so many.
fn least(alloc: Global, runs: &[Run], need: u32) -> Result<Vec<u32>, NoMemory>
    requires { AreApart 0 (2 ^ 32 - 1) (segments_of runs.now) }
    ensures { IfOk result (λ found. found.items ≡ take need (extents_of runs.now)) }
{
    let mut found = Vec::new(alloc);
    for run in runs {
        if found.len() == need as usize {
            return Ok(found);
        }
        put(&mut found, *run, need)?;
    }
    Ok(found)
}

// The first extents of a run behind others, at most so many with these.
fn put(found: &mut Vec<u32>, run: Run, most: u32) -> Result<(), NoMemory>
    requires few { length found.old.items ≤ most }
    requires run { run.first + run.count < 2 ^ 32 }
    ensures { OnOk result (found.new.items ≡ found.old.items ++ take (most - length found.old.items) (range_with_len run.first run.count)) }
{
    let room = most - found.len() as u32;
    let count = run.count.min(room);
    for extent in run.first..run.first + count {
        push(found, extent)?;
    }
    Ok(())
}

// The least extents without a mark as runs, at most so many extents. No mark is taken behind that of the last one needed.
fn unmarked(alloc: Global, marks: &mut Iter<bool>, need: u32) -> Result<Vec<Run>, NoMemory>
    requires { length (iter_rest marks.old) < 2 ^ 32 }
    ensures apart { IfOk result (λ runs. AreApart 0 (length (iter_rest marks.old)) (segments_of runs.items)) }
    ensures least { IfOk result (λ runs. extents_of runs.items
        ≡ take need (filter (λ e. not (slice_index_or (iter_rest marks.old) e false)) (range_with_len 0 (length (iter_rest marks.old))))) }
    ensures early { IfOk result (λ _. iter_rest marks.new ≡ behind_last need (iter_rest marks.old)) }
{
    let mut runs = Vec::new(alloc);
    let mut found = 0;
    for extent in 0..marks.len() as u32 {
        if found == need {
            return Ok(runs);
        }
        let Some(mark) = marks.next() else {
            unreachable!()
        };
        if *mark {
            continue;
        }
        add(&mut runs, extent)?;
        found += 1;
    }
    Ok(runs)
}

// One extent more, behind all others.
fn add(runs: &mut Vec<Run>, extent: u32) -> Result<(), NoMemory>
    requires behind { AreApart 0 extent (segments_of runs.old.items) }
    requires small { extent + 1 < 2 ^ 32 }
    ensures apart { OnOk result (AreApart 0 (extent + 1) (segments_of runs.new.items)) }
    ensures added { OnOk result (extents_of runs.new.items ≡ extents_of runs.old.items ++ extent ∷ []) }
{
    let one = Run {
        first: extent,
        count: 1,
    };
    let Some(last) = runs.pop() else {
        return push(runs, one);
    };
    if last.first + last.count == extent {
        return push(
            runs,
            Run {
                first: last.first,
                count: last.count + 1,
            },
        );
    }
    push(runs, last)?;
    push(runs, one)
}

// One more at the end.
fn push<T: Drop>(list: &mut Vec<T>, item: T) -> Result<(), NoMemory>
    ensures { OnOk result (list.new.items ≡ list.old.items ++ item ∷ []) }
{
    match list.push(item) {
        Ok(()) => Ok(()),
        Err(_) => Err(NoMemory),
    }
}
