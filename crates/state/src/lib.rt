// The state rules of the whole lent memory: 22 where they fail. The memory may be anything, and of any length.
// The time is linear in the places: identifiers are told apart by chains, and the open values of all groups are summed in one pass.
#![tactic(auto)]

ghost use Rattle.std.specs.Prelude.{◌≡◌, true, cond, Some, None, ◌+◌, ◌≤◌, ◌<◌, length};
ghost use Rattle.laws.specs.Numbered.{every, apart};
ghost use Rattle.books.specs.Layout.{groups, symbols, keys, room_of, groups_at, symbols_at, places_at};
ghost use Rattle.books.specs.View.{head_in, rows_of};
ghost use Rattle.books.specs.Refining.{Counted};
ghost use Rattle.chains.specs.Words.{same_row};
ghost use Rattle.store.specs.Finding.{first_row};
ghost use Rattle.rules.specs.Testing.{state_ok, sums_are};
ghost use Rattle.rules.specs.Passing.{group_ok, symbol_ok};
ghost use Rattle.rulebook.specs.Lines.{ceiling, is_buy};
ghost use Rattle.fields.specs.Series.{side_of};
ghost use Rattle.state.specs.Summing.{Sums, Added, Due, Priced, value_at, with_value, stored_in};
ghost use Rattle.state.specs.Whole.{Listed, Tallied, table_ok, listed_ok, parts_ok};
ghost use Rattle.state.specs.Places.{AreRows, listed_at, figures_right, place_ok, desk_at};

use chains::Rows;

// A row's first word.
const FIRST: usize = 0;

// Hints of where groups and symbols stand.
const HINTS: usize = 1_024;

// By what a word is spread over them: its low 32 bits, times an odd number near 2^32 over the golden ratio, and of that ten bits.
const LOW: u64 = 0x1_0000_0000;

const SPREAD: u64 = 2_654_435_769;

const SHIFT: u64 = 0x40_0000;

// A hint for each row of a list: where its first word stands. A hint is only a hint: nothing is promised of it.
// kept: a rule of the project (no heap): an array, and no map
type Hints = [u16; HINTS];

// What a group has open, summed over the table: its buys and its sells.
#[derive(Clone, Copy, PartialEq, Eq)]
struct Sides {
    buys: u64,
    sells: u64,
}

// kept: no plainer: the three lists differ in each field of the literal, and one function of four const parameters hides which is which.
// The rows of the groups listed, by their MPIDs.
fn group_rows(mem: &[u64]) -> Rows
    requires { Counted mem.now }
    ensures { AreRows result mem.now groups 1 (head_in (rows_of mem.now) groups_at) }
{
    Rows {
        mem,
        at: books::GROUPS,
        width: books::GROUP_WORDS,
        words: 1,
        count: mem[books::GROUPS_LISTED] as usize,
    }
}

// The rows of the symbols listed, by their IDs.
fn symbol_rows(mem: &[u64]) -> Rows
    requires { Counted mem.now }
    ensures { AreRows result mem.now symbols 1 (head_in (rows_of mem.now) symbols_at) }
{
    Rows {
        mem,
        at: books::SYMBOLS,
        width: books::SYMBOL_WORDS,
        words: 1,
        count: mem[books::SYMBOLS_LISTED] as usize,
    }
}

// The rows of the places taken, by their keys.
fn key_rows(mem: &[u64]) -> Rows
    requires { Counted mem.now }
    ensures { AreRows result mem.now keys 4 (head_in (rows_of mem.now) places_at) }
{
    Rows {
        mem,
        at: books::KEYS,
        width: books::KEY_WORDS,
        words: books::KEY_WORDS,
        count: mem[books::PLACES_TAKEN] as usize,
    }
}

// Whether every listed group's words are in range.
fn groups_ok(mem: &[u64]) -> bool
    requires { Counted mem.now }
    ensures { result ≡ every (group_ok mem.now) (head_in (rows_of mem.now) groups_at) }
{
    (0..mem[books::GROUPS_LISTED] as usize).all(|i| rules::group_ok(mem, i))
}

// Whether every listed symbol's words are in range.
fn symbols_ok(mem: &[u64]) -> bool
    requires { Counted mem.now }
    ensures { result ≡ every (symbol_ok mem.now) (head_in (rows_of mem.now) symbols_at) }
{
    (0..mem[books::SYMBOLS_LISTED] as usize).all(|i| rules::symbol_ok(mem, i))
}

// The hint that a word has.
fn hint_of(word: u64) -> usize
    ensures { result < 1024 }
{
    (word % LOW * SPREAD / SHIFT % HINTS as u64) as usize
}

// The hints of some rows. Of rows that share a hint the last has it.
// kept: tried, slower: hints handed back by value are copied twice
fn hint_rows(rows: Rows, hints: &mut Hints)
    requires { rows.words ≡ 1 }
{
    for i in 0..rows.count {
        let word = rows.mem[rows.at + i * rows.width + FIRST];
        hints[hint_of(word)] = i as u16;
    }
}

// The first row that begins with this word, where no two rows begin alike. The hint is tried first, and believed only where it is right.
#[tactic(auto, using(std::proofs::lemmas::Bool::Decides::nat_tests, crate::specs::Places::hint_right, crate::specs::Places::row_within))]
fn find_hinted(rows: Rows, hints: &mut Hints, word: u64) -> Option<usize>
    requires by_first { rows.words ≡ 1 }
    requires begin_apart { apart (same_row rows.mem.now rows.at rows.width 1) rows.count ≡ true }
    ensures { result ≡ listed_at (first_row rows.entry.mem.now rows.entry.at rows.entry.width rows.entry.count word) rows.entry.count }
{
    let s = hint_of(word);
    let i = usize::from(hints[s]);
    if i < rows.count && rows.mem[rows.at + i * rows.width + FIRST] == word {
        return Some(i);
    }
    let k = store::find_word(rows.mem, rows.at, rows.width, rows.count, word);
    hints[s] = k as u16;
    if k < rows.count { Some(k) } else { None }
}

// What an order, at b, has open: remaining x price.
#[tactic(auto, unfolding(crate::specs::Summing::value_at))]
fn value_of(mem: &[u64], b: usize) -> u64
    requires { Priced mem.now b }
    ensures { result ≡ value_at mem.now b }
{
    (mem[b + books::ORDER_SIZE] - mem[b + books::DONE]) * mem[b + books::ORDER_PRICE]
}

impl Sides {
    // With the open value of one more order of this side, or none where that passes the ceiling.
    #[tactic(auto, using(std::proofs::lemmas::Bool::Decides::nat_tests), unfolding(crate::specs::Summing::with_value))]
    fn with(self, side: u64, value: u64) -> Option<Sides>
        requires buys_most { self.buys ≤ ceiling }
        requires sells_most { self.sells ≤ ceiling }
        requires value_most { value ≤ ceiling }
        ensures { result ≡ with_value (is_buy (side_of side)) value self }
    {
        let mut more = self;
        if side == books::BUY {
            more.buys += value;
        } else {
            more.sells += value;
        }
        (more.buys <= books::CEILING && more.sells <= books::CEILING).then_some(more)
    }
}

// The lent words, where the groups and the symbols that are listed are in order.
#[derive(Clone, Copy)]
struct Lists<'a> {
    mem: &'a [u64],
    ghost listed: { Listed mem.now },
}

impl Lists<'_> {
    // Whether a place holds an order with figures in range and a listed symbol, or none and figures of 0.
    #[tactic(auto, using(std::proofs::lemmas::Bool::Decides::nat_tests, crate::specs::Places::first_of, store::specs::Finding::first_symbol, rules::specs::Agreeing::is_order_is), unfolding(crate::specs::Places::figures_right, laws::specs::Checks::all_hold))]
    fn order_ok(self, ids: &mut Hints, i: usize) -> bool
        requires { i < room_of self.mem.now }
        ensures { result ≡ figures_right self.entry.mem.now i }
    {
        let b = store::request_at(self.mem, i);
        let o = store::order_at(self.mem, i);
        if !rules::opens(self.mem, b) {
            return rules::no_figures(self.mem, o);
        }
        if !rules::figures_ok(self.mem, o) {
            return false;
        }
        let symbol = self.mem[b + books::SYMBOL];
        find_hinted(symbol_rows(self.mem), ids, symbol).is_some()
    }

    // Whether a taken place's request is in range, and so is its order.
    #[tactic(auto, unfolding(crate::specs::Places::place_ok, laws::specs::Checks::all_hold))]
    fn place_ok(self, ids: &mut Hints, i: usize) -> bool
        requires { i < room_of self.mem.now }
        ensures { result ≡ place_ok self.entry.mem.now i }
    {
        rules::request_ok(self.mem, i, store::request_at(self.mem, i)) && self.order_ok(ids, i)
    }

    // The place among the groups of a taken place's owner.
    #[tactic(auto, using(crate::specs::Places::first_of, store::specs::Finding::first_group))]
    fn desk_of(self, desks: &mut Hints, i: usize) -> Option<usize>
        requires { i < room_of self.mem.now }
        ensures { result ≡ listed_at (desk_at self.entry.mem.now i) (head_in (rows_of self.entry.mem.now) groups_at) }
    {
        let owner = self.mem[books::KEYS + i * books::KEY_WORDS + books::OWNER];
        find_hinted(group_rows(self.mem), desks, owner)
    }

    // The open value of the i-th place is added to its group's, which is the k-th. False where that passes the ceiling.
    fn add_value(self, i: usize, k: usize, sums: &mut [Sides; books::MOST_GROUPS]) -> bool
        requires due { Due self.mem.now i k }
        requires sums { Sums (rows_of self.mem.now) sums.old i }
        ensures { Added (rows_of self.entry.mem.now) sums.new (i + 1) result }
    {
        let b = store::request_at(self.mem, i);
        if !rules::opens(self.mem, b) {
            return true;
        }
        let v = value_of(self.mem, store::order_at(self.mem, i));
        match sums[k].with(self.mem[b + books::SIDE], v) {
            Some(more) => {
                sums[k] = more;
                true
            }
            None => false,
        }
    }

    // The open values of each group, summed over the places, each of which is tried and its owner found. False where a place is not in range,
    // its owner not listed, or a sum above the ceiling.
    // kept: tried, slower: an `Option` of the sums is copied twice; with the hints a state call with few places took nearly half as long again
    #[tactic(auto, using(crate::specs::Places::none_listed, crate::specs::Whole::unlisted, crate::specs::Whole::unfit, crate::specs::Whole::too_much, crate::specs::Whole::tallied))]
    fn tally(self, sums: &mut [Sides; books::MOST_GROUPS]) -> bool
        requires { Sums (rows_of self.mem.now) sums.old 0 }
        ensures { Tallied self.entry.mem.now (cond result (Some sums.new) None) }
    {
        let mut desks = [0; HINTS];
        let mut ids = [0; HINTS];
        hint_rows(group_rows(self.mem), &mut desks);
        hint_rows(symbol_rows(self.mem), &mut ids);
        for i in 0..self.mem[books::PLACES_TAKEN] as usize {
            let Some(k) = self.desk_of(&mut desks, i) else {
                return false;
            };
            if !self.place_ok(&mut ids, i) {
                return false;
            }
            if !self.add_value(i, k, sums) {
                return false;
            }
        }
        true
    }

    // The open values that a group has stored.
    fn stored(self, g: usize) -> Sides
        requires { g < 64 }
        ensures { result ≡ stored_in (rows_of self.entry.mem.now) g }
    {
        let b = books::GROUPS + g * books::GROUP_WORDS;
        Sides {
            buys: self.mem[b + books::OPEN_BUYS],
            sells: self.mem[b + books::OPEN_SELLS],
        }
    }

    // Whether each group's stored open values are the sums.
    fn sums_same(self, sums: &[Sides; books::MOST_GROUPS]) -> bool
        requires { Sums (rows_of self.mem.now) sums.now (head_in (rows_of self.mem.now) places_at) }
        ensures { result ≡ every (sums_are (rows_of self.entry.mem.now)) (head_in (rows_of self.entry.mem.now) groups_at) }
    {
        (0..self.mem[books::GROUPS_LISTED] as usize).all(|g| self.stored(g) == sums[g])
    }

    // Whether every taken place is in range and its owner listed, and the open values are the sums over the table.
    #[tactic(auto, using(crate::specs::Whole::table_compared, crate::specs::Whole::table_broken))]
    fn table_ok(self) -> bool
        ensures { result ≡ table_ok self.entry.mem.now }
    {
        let mut sums = [Sides { buys: 0, sells: 0 }; books::MOST_GROUPS];
        self.tally(&mut sums) && self.sums_same(&sums)
    }
}

// Whether the listed groups and symbols are in range, and no two of either the same.
#[tactic(auto, unfolding(crate::specs::Whole::listed_ok, laws::specs::Checks::all_hold))]
fn listed_ok(mem: &[u64]) -> bool
    requires { Counted mem.now }
    ensures { result ≡ listed_ok mem.now }
{
    groups_ok(mem)
        && symbols_ok(mem)
        && chains::few_apart(group_rows(mem))
        && chains::few_apart(symbol_rows(mem))
}

// Whether the lent memory is long enough for groups and symbols, and its head, its lists and its table are in order: every state rule but that
// no two places have one key.
#[tactic(auto, using(std::proofs::lemmas::Bool::Decides::nat_tests, crate::specs::Whole::counted_head, crate::specs::Whole::listed_by), unfolding(crate::specs::Whole::parts_ok, laws::specs::Checks::all_hold))]
pub fn parts_ok(mem: &[u64]) -> bool
    ensures { result ≡ parts_ok mem.now }
{
    mem.len() >= books::LEAST_WORDS
        && rules::head_ok(mem)
        && listed_ok(mem)
        && Lists { mem }.table_ok()
}

// Whether the lent memory meets every state rule and is long enough for groups and symbols: where not, the answer is 22.
#[tactic(auto, using(crate::specs::Places::apart_of, crate::specs::Whole::parts_counted, crate::specs::Whole::by_keys, crate::specs::Whole::parts_bad))]
pub fn state_ok(mem: &[u64]) -> bool
    ensures { result ≡ state_ok mem.now }
{
    parts_ok(mem) && chains::rows_apart(key_rows(mem))
}
