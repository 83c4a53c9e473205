// Rows found by their first words, and the test that no two begin with the same. Rows whose words have one hash are of one slot, and a row
// is compared only with those of its slot: the time of a search goes by how many these are, and the answer is right however many they are.
// The slots' chains stand in two arrays: head has for each slot one past its latest row, next for each row one past the latest earlier row
// of its slot, and either 0 where there is none. head is of any length from 1 to 2^32, and next as long as there are rows.
// kept: two arrays of such numbers, not a map and not Options: the project has no heap, and Chained, Linked and latest_of speak of them.
#![tactic(auto)]

ghost use Rattle.std.specs.Prelude.{◌≡◌, ◌<◌, ◌≤◌, length, slice_index};
ghost use Rattle.chains.specs.Chain.{half, slot_of};
ghost use Rattle.chains.specs.Words.{HasRows, mixed, hash_words, latest_of};

pub use chaining::{chain_rows, few_apart, link_row, rows_apart};

mod chaining;

// One past the largest half of a word, and the factors by which a hash mixes the halves.
const HALF: u64 = 4_294_967_296;

const LOW_FACTOR: u64 = 2_246_822_519;

const HIGH_FACTOR: u64 = 1_597_334_677;

// Rows that stand in mem one after the other: at is where the first begins, width how many words a row has, words how many of them, from
// its first on, are compared, and count how many rows there are.
#[derive(Clone, Copy)]
pub struct Rows<'a> {
    pub mem: &'a [u64],
    pub at: usize,
    pub width: usize,
    pub words: usize,
    pub count: usize,
    ghost has_rows: { HasRows mem.now at width words count },
}

// One word more into a hash. The halves of the sum are mixed apart, so that nothing can overflow.
#[tactic(auto, unfolding(crate::specs::Words::mixed))]
fn mix(h: u64, w: u64) -> u64
    ensures { result ≡ mixed h w }
{
    let x = h.wrapping_add(w);
    x % HALF * LOW_FACTOR + x / HALF * HIGH_FACTOR
}

// The hash of some words: the upper half, which every word has reached after one more mixing.
#[inline(always)]
#[tactic(auto, using(crate::specs::Words::hash_small), unfolding(crate::specs::Words::blend, crate::specs::Words::hash_words))]
fn hash(words: &[u64]) -> usize
    ensures value { result ≡ hash_words words.now 0 (length words.now) }
    ensures within { result < half }
{
    let mut h = 0;
    for word in words {
        h = mix(h, *word);
    }
    (mix(h, 0) / HALF) as usize
}

// The slot of a hash, which is below HALF. A product and a shift, where a remainder would take a division.
fn slot_of(hash: usize, slots: usize) -> usize
    requires hash_lt_half { hash < half }
    requires slots_nonzero { 0 < slots }
    requires slots_le_half { slots ≤ half }
    ensures slot { result ≡ slot_of slots hash }
    ensures within { result < slots }
{
    hash * slots / HALF as usize
}

// The link of the slot of the key's words: one past its latest row, or 0.
#[tactic(auto, unfolding(crate::specs::Words::latest_of))]
pub fn latest(key: &[u64], head: &[u16]) -> usize
    requires head_nonzero { 0 < length head.now }
    requires head_len_bound { length head.now ≤ half }
    ensures { result ≡ latest_of key.now head.now }
{
    usize::from(head[slot_of(hash(key), head.len())])
}

// The link of a row: one past the latest earlier row of its slot, or 0.
pub fn earlier(next: &[u16], i: usize) -> usize
    requires { i < length next.now }
    ensures { result ≡ slice_index next.now i }
{
    usize::from(next[i])
}
