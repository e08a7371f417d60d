//! Removing an entry of a map with its room.
//!
//! A map that was made with room for so many entries takes as many without memory. But no removal of the
//! map's own promises that the place of the removed entry can be taken again, so that after many of them an
//! insert might ask for memory. `clear` alone gives all room back. So here a map is cleared and the other
//! entries are put back, from the stack, where each of them waits in one frame of a recursion.

ghost use Rattle.std.specs.Prelude.{◌≡◌, ◌≤◌, filter, not, take};
ghost use Rattle.indexmap.specs.IndexMap.{index_map_len};
ghost use Rattle.sm_refs.specs.Rooms.{room_of};

use indexmap::IndexMap;
use std::hash::Hash;

/// Removes the entry of `key`, if there is one. The others keep their order, and the number of entries that fit,
/// those that the map has among them, does not shrink. Takes time and stack in proportion to the entries.
pub(crate) fn remove<K: Eq + Hash + Copy, V: Copy>(map: &mut IndexMap<K, V>, key: &K)
    ensures entries { map.new.entries ≡ filter (λ e. not (K.eq key.now e.0)) map.old.entries }
    ensures room { room_of map.old ≤ room_of map.new }
{
    let len = map.len();
    keep_others(map, key, len);
}

// Of the first `count` entries keeps those that have another key, and none of the rest.
fn keep_others<K: Eq + Hash + Copy, V: Copy>(map: &mut IndexMap<K, V>, key: &K, count: usize)
    requires { count ≤ index_map_len map.old }
    ensures entries { map.new.entries ≡ filter (λ e. not (K.eq key.now e.0)) (take count map.old.entries) }
    ensures room { room_of map.old ≤ room_of map.new }
{
    // `len` is called for its clause that no two keys are equal.
    let _len = map.len();
    if count == 0 {
        map.clear();
        return;
    }
    let Some((last, value)) = map.get_index(count - 1) else {
        unreachable!()
    };
    let (last, value) = (*last, *value);
    keep_others(map, key, count - 1);
    if *key != last {
        let Ok(_) = map.insert(last, value) else {
            unreachable!()
        };
    }
}
