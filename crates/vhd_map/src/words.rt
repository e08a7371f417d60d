//! One bit a slot, in words of 64 bits: the bits of the slots in use.
ghost use Rattle.std.specs.Prelude.{◌≡◌, ◌≢◌, ℕ, ◌+◌, ◌-◌, ◌/◌, ◌<◌, ◌≤◌, ◌^◌, length, slice_index};
ghost use Rattle.vhd_map.specs.Words.{is_marked};

/// Whether the slot's bit is set.
pub(crate) fn is_marked_slot(words: &[u64], slot: u32) -> bool
    requires { slot / 64 < length words.now }
    ensures { result ≡ is_marked words.now slot }
{
    words[(slot / 64) as usize] >> (slot % 64) & 1 == 1
}

/// The first word from `from` on that has a free bit. The last word has one.
pub(crate) fn first_with_room(words: &[u64], from: usize) -> usize
    requires from_in { from < length words.now }
    requires last { slice_index words.now (length words.now - 1) ≢ u64.MAX }
    ensures within { result < length words.now }
    ensures room { slice_index words.now result ≢ u64.MAX }
    ensures full { (w : ℕ) → from ≤ w → w < result → slice_index words.now w ≡ u64.MAX }
{
    let mut word = from;
    while words[word] == u64::MAX {
        word += 1;
    }
    word
}
