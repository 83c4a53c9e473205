// The chains made row by row, and the test that no two rows begin with the same words.
ghost use Rattle.std.specs.Prelude.{◌≡◌, ◌+◌, ◌*◌, ◌<◌, ◌≤◌, true, length, slice_range};
ghost use Rattle.laws.specs.Numbered.{apart};
ghost use Rattle.chains.specs.Chain.{fresh, half, Linked, Clear, Chained};
ghost use Rattle.chains.specs.Alike.{start, hashes, alike};

use crate::{Rows, hash, slot_of};

// How many rows each size of arrays is for, and how many slots: twice as many, written out since no const argument is computed from another.
const SMALL: usize = 512;

const SMALL_SLOTS: usize = 1_024;

const MIDDLE: usize = 8_192;

const MIDDLE_SLOTS: usize = 16_384;

const LARGE: usize = 65_536;

const LARGE_SLOTS: usize = 131_072;

impl<'a> Rows<'a> {
    // The words of a row that are compared.
    #[inline(always)]
    fn row(self, i: usize) -> &'a [u64]
        requires { i < self.count }
        ensures words { result.now ≡ slice_range self.entry.mem.now (start self.entry i) (start self.entry i + self.entry.words) }
        ensures within { start self.entry i + self.entry.words ≤ length self.entry.mem.now }
    {
        let b = self.at + i * self.width;
        &self.mem[b..b + self.words]
    }

    // Whether the i-th row begins with the words of the j-th. They are compared where they stand, up to the first that differs.
    #[inline(always)]
    #[tactic(auto, using(crate::specs::Words::parts_same), unfolding(crate::specs::Words::same_row))]
    fn same(self, i: usize, j: usize) -> bool
        requires i_in_bounds { i < self.count }
        requires j_in_bounds { j < self.count }
        ensures { result ≡ alike self.entry i j }
    {
        self.row(i) == self.row(j)
    }
}

// Whether no row before the j-th begins with its words. Only those of its slot are looked at, the latest first.
#[inline(always)]
fn is_fresh(rows: Rows, next: &[u16], j: usize) -> bool
    requires j_in_bounds { j < rows.count }
    requires linked { Linked (hashes rows) next.now j }
    ensures { result ≡ fresh (alike rows.entry) j }
{
    let mut q = usize::from(next[j]);
    // kept: a walk from link to link counts nothing, so no for and no iterator is plainer.
    while 0 < q {
        if rows.same(q - 1, j) {
            return false;
        }
        q = usize::from(next[q - 1]);
    }
    true
}

// One row more in the chains: its link is the latest row of its slot, head has each slot's, and it is the latest now.
#[inline(always)]
pub fn link_row(rows: Rows, j: usize, head: &mut [u16], next: &mut [u16])
    requires j_lt_count { j < rows.count }
    requires chained { Chained (hashes rows) head.old next.old j }
    requires j_in_bounds { j < length next.old }
    ensures { Chained (hashes rows.entry) head.new next.new (j + 1) }
{
    let s = slot_of(hash(rows.row(j)), head.len());
    next[j] = head[s];
    head[s] = (j + 1) as u16;
}

// Whether no two of the rows begin with the same words, with clear arrays. Where none do, the arrays have the chains of all.
// This and what it calls are put into their callers, where a row's width and how many words are compared are constants: called, they take two
// thirds longer.
#[inline(always)]
#[tactic(auto, using(crate::specs::Chain::all_fresh, crate::specs::Chain::one_stale, crate::specs::Chain::linked))]
pub fn chain_rows(rows: Rows, head: &mut [u16], next: &mut [u16]) -> bool
    requires { Clear head.old next.old rows.count }
    ensures answer { result ≡ apart (alike rows.entry) rows.entry.count }
    ensures chains { result ≡ true → Chained (hashes rows.entry) head.new next.new rows.entry.count }
{
    for j in 0..rows.count {
        link_row(rows, j, head, next);
        if !is_fresh(rows, next, j) {
            return false;
        }
    }
    true
}

// The same with arrays of its own, for so many rows at most.
#[inline(always)]
#[tactic(auto, using(crate::specs::Chain::clear))]
fn apart_in<const ROWS: usize, const SLOTS: usize>(rows: Rows) -> bool
    requires count_bound { rows.count ≤ ROWS }
    requires slots_nonzero { 0 < SLOTS }
    requires rows_le_slots { ROWS ≤ SLOTS }
    requires slots_le_half { SLOTS ≤ half }
    ensures { result ≡ apart (alike rows.entry) rows.entry.count }
{
    let mut head = [0u16; SLOTS];
    let mut next = [0u16; ROWS];
    chain_rows(rows, &mut head, &mut next)
}

// The same for few rows: at most 512.
#[inline(always)]
pub fn few_apart(rows: Rows) -> bool
    requires { rows.count ≤ 512 }
    ensures { result ≡ apart (alike rows.entry) rows.entry.count }
{
    apart_in::<SMALL, SMALL_SLOTS>(rows)
}

// Whether no two of the rows begin with the same words.
pub fn rows_apart(rows: Rows) -> bool
    ensures { result ≡ apart (alike rows.entry) rows.entry.count }
{
    if rows.count <= SMALL {
        return few_apart(rows);
    }
    if rows.count <= MIDDLE {
        return apart_in::<MIDDLE, MIDDLE_SLOTS>(rows);
    }
    apart_in::<LARGE, LARGE_SLOTS>(rows)
}
