// The state rules of a row: whether its words are in range. They ask nothing of the words, which may be anything.
// specs/ has the whole test (22), what each of these has to do with it, and that the test is document 01's list.
#![tactic(auto)]

ghost use Rattle.std.specs.Prelude.{◌≡◌, ◌+◌, ◌≤◌, ◌<◌, length};
ghost use Rattle.books.specs.Layout.{least_words, room_of, orders, requests, width_of, HasKeys};
ghost use Rattle.books.specs.View.{head_in, rows_of};
ghost use Rattle.packing.specs.Fitting.{fits};
ghost use Rattle.rulebook.specs.Lines.{identifier};
ghost use Rattle.store.specs.Finding.{key_at};
ghost use Rattle.rules.specs.Passing.{HasGroup, HasSymbol, HasRow, word_at, words_within, head_ok, totals_ok, group_ok, symbol_ok, number_ok, sized_ok, new_ok, change_ok, cancel_ok, deal_ok, figures_ok, target_at, request_ok, is_order};

use packing::Ident;

// The forms' bounds.
const MOST_SERIAL: u64 = 4_294_967_295;

const MOST_SIZE: u64 = 1_000_000;

const MOST_PRICE: u64 = 999_999_999_999;

// How many cells there are of limits, marks, totals, quotes and of a target, and of what an M, a C, and a B or R have not.
const LIMITS: usize = books::MAX_SIZE - books::GROSS_TRADE;

const MARKS: usize = books::TRADED_BUYS - books::SHORT_SALES;

const TOTALS: usize = books::GROUP_WORDS - books::TRADED_BUYS;

const QUOTES: usize = books::SYMBOL_WORDS - books::BID;

const TARGET_WORDS: usize = books::SYMBOL - books::TARGET;

const NOT_OF_CHANGE: usize = books::SIZE - books::SYMBOL;

const NOT_OF_CANCEL: usize = books::REQUEST_WORDS - books::SYMBOL;

const NOT_OF_BLOCK: usize = books::REQUEST_WORDS - books::TARGET;

// Whether each of n words from a place on is at most so much.
fn within(mem: &[u64], at: usize, n: usize, most: u64) -> bool
    requires { at + n ≤ length mem.now }
    ensures { result ≡ words_within mem.now at n most }
{
    mem[at..at + n].iter().all(|word| *word <= most)
}

// Whether the marks and the counts of the head are in range; before O no place is taken.
#[tactic(auto, using(std::proofs::lemmas::Bool::Decides::nat_tests), unfolding(crate::specs::Passing::head_ok, crate::specs::Passing::early, laws::specs::Checks::all_hold))]
pub fn head_ok(mem: &[u64]) -> bool
    requires { least_words ≤ length mem.now }
    ensures { result ≡ head_ok (room_of mem.now) (head_in (rows_of mem.now)) }
{
    mem[books::OPENED] <= 1
        && mem[books::LAST] <= MOST_SERIAL
        && mem[books::GROUPS_LISTED] <= books::MOST_GROUPS as u64
        && mem[books::SYMBOLS_LISTED] <= books::MOST_SYMBOLS as u64
        && mem[books::PLACES_TAKEN] <= store::room(mem.len()) as u64
        && (mem[books::OPENED] > 0 || mem[books::PLACES_TAKEN] == 0)
}

// Whether a group's totals are in range, their sum at most the ceiling; before O every total is 0.
#[tactic(auto, using(std::proofs::lemmas::Bool::Decides::nat_tests), unfolding(crate::specs::Passing::totals_ok, crate::specs::Passing::early, laws::specs::Checks::all_hold))]
fn totals_ok(mem: &[u64], i: usize) -> bool
    requires { HasGroup mem.now i }
    ensures { result ≡ totals_ok mem.now i }
{
    let b = books::GROUPS + i * books::GROUP_WORDS;
    if !within(mem, b + books::TRADED_BUYS, TOTALS, books::CEILING) {
        return false;
    }
    let traded = mem[b + books::TRADED_BUYS] + mem[b + books::TRADED_SELLS];
    let open = mem[b + books::OPEN_BUYS] + mem[b + books::OPEN_SELLS];
    traded + open <= books::CEILING
        && (mem[books::OPENED] > 0 || within(mem, b + books::TRADED_BUYS, TOTALS, 0))
}

// Whether a listed group's words are in range.
#[tactic(auto, unfolding(crate::specs::Passing::group_ok, laws::specs::Checks::all_hold))]
pub fn group_ok(mem: &[u64], i: usize) -> bool
    requires { HasGroup mem.now i }
    ensures { result ≡ group_ok mem.now i }
{
    let b = books::GROUPS + i * books::GROUP_WORDS;
    packing::is_mpid(mem[b + books::GROUP_MPID])
        && within(mem, b + books::GROSS_TRADE, LIMITS, books::CEILING)
        && packing::in_range(1, MOST_SIZE, mem[b + books::MAX_SIZE])
        && within(mem, b + books::SHORT_SALES, MARKS, 1)
        && totals_ok(mem, i)
}

// Whether a listed symbol's words are in range.
#[tactic(auto, unfolding(crate::specs::Passing::symbol_ok, laws::specs::Checks::all_hold))]
pub fn symbol_ok(mem: &[u64], i: usize) -> bool
    requires { HasSymbol mem.now i }
    ensures { result ≡ symbol_ok mem.now i }
{
    let b = books::SYMBOLS + i * books::SYMBOL_WORDS;
    packing::in_range(1, MOST_SERIAL, mem[b + books::SYMBOL_ID])
        && within(mem, b + books::BID, QUOTES, MOST_PRICE)
}

// Whether a number is one that the table remembers: 0, or 8 to 14, 16, 17, 31 to 36.
#[tactic(auto, unfolding(crate::specs::Passing::number_ok))]
fn number_ok(n: u64) -> bool
    ensures { result ≡ number_ok n }
{
    n == 0
        || packing::in_range(8, 14, n)
        || packing::in_range(16, 17, n)
        || packing::in_range(31, 36, n)
}

// The words of a request, of which at is where the first stands.
#[derive(Clone, Copy)]
struct Request<'a> {
    mem: &'a [u64],
    at: usize,
    ghost has_row: { HasRow mem.now at },
}

#[tactic(auto, unfolding(crate::specs::Passing::sized_ok, crate::specs::Passing::new_ok, crate::specs::Passing::change_ok, crate::specs::Passing::cancel_ok, laws::specs::Checks::all_hold))]
impl Request<'_> {
    // The word of a cell.
    fn word(self, cell: usize) -> u64
        requires { cell < width_of requests }
        ensures { result ≡ word_at self.entry.mem.now self.entry.at cell }
    {
        self.mem[self.at + cell]
    }

    // Whether the size and the price are in range.
    fn sized_ok(self) -> bool
        ensures { result ≡ sized_ok self.entry.mem.now self.entry.at }
    {
        packing::in_range(1, MOST_SIZE, self.word(books::SIZE))
            && packing::in_range(1, MOST_PRICE, self.word(books::PRICE))
    }

    // Whether the words of an N are in range: it has no target.
    fn new_ok(self) -> bool
        ensures { result ≡ new_ok self.entry.mem.now self.entry.at }
    {
        within(self.mem, self.at + books::TARGET, TARGET_WORDS, 0)
            && packing::in_range(1, MOST_SERIAL, self.word(books::SYMBOL))
            && packing::is_side(self.word(books::SIDE))
            && self.sized_ok()
    }

    // Whether the target is an identifier.
    fn target_ok(self) -> bool
        ensures { result ≡ fits (identifier (target_at self.entry.mem.now self.entry.at)) }
    {
        packing::is_identifier(Ident {
            head: self.word(books::TARGET),
            middle: self.word(books::TARGET_MIDDLE),
            tail: self.word(books::TARGET_TAIL),
        })
    }

    // Whether the words of an M are in range: it has no symbol and no side.
    fn change_ok(self) -> bool
        ensures { result ≡ change_ok self.entry.mem.now self.entry.at }
    {
        within(self.mem, self.at + books::SYMBOL, NOT_OF_CHANGE, 0)
            && self.target_ok()
            && self.sized_ok()
    }

    // Whether the words of a C are in range: it has a target alone.
    fn cancel_ok(self) -> bool
        ensures { result ≡ cancel_ok self.entry.mem.now self.entry.at }
    {
        within(self.mem, self.at + books::SYMBOL, NOT_OF_CANCEL, 0) && self.target_ok()
    }

    // Whether the words are in range for the request's kind, which is one of the five.
    #[tactic(auto, using(std::proofs::lemmas::Bool::Decides::nat_tests), unfolding(crate::specs::Passing::deal_ok))]
    fn deal_ok(self) -> bool
        ensures { result ≡ deal_ok self.entry.mem.now self.entry.at }
    {
        match self.word(books::KIND) {
            books::NEW => self.new_ok(),
            books::CHANGE => self.change_ok(),
            books::CANCEL => self.cancel_ok(),
            books::BLOCK | books::UNBLOCK => {
                within(self.mem, self.at + books::TARGET, NOT_OF_BLOCK, 0)
            }
            _ => false,
        }
    }
}

// Whether a taken place's key has an identifier.
fn name_ok(mem: &[u64], i: usize) -> bool
    requires { HasKeys mem.now (i + 1) }
    ensures { result ≡ fits (identifier (key_at (rows_of mem.now) i).name) }
{
    packing::is_identifier(store::key_at(mem, i).name)
}

// Whether a taken place has an identifier and its request, at b, words in range.
#[tactic(auto, unfolding(crate::specs::Passing::request_ok, laws::specs::Checks::all_hold))]
pub fn request_ok(mem: &[u64], i: usize, b: usize) -> bool
    requires has_keys { HasKeys mem.now (i + 1) }
    requires has_row { HasRow mem.now b }
    ensures { result ≡ request_ok mem.now i b }
{
    let request = Request { mem, at: b };
    name_ok(mem, i) && number_ok(request.word(books::NUMBER)) && request.deal_ok()
}

// Whether the request at b is a passed N, which has an order.
#[tactic(auto, unfolding(crate::specs::Passing::is_order, laws::specs::Checks::all_hold))]
pub fn opens(mem: &[u64], b: usize) -> bool
    requires { HasRow mem.now b }
    ensures { result ≡ is_order mem.now b }
{
    mem[b + books::KIND] == books::NEW && mem[b + books::NUMBER] == 0
}

// Whether the figures of an order, at b, are in range, done at most its size.
#[tactic(auto, using(std::proofs::lemmas::Bool::Decides::nat_tests), unfolding(crate::specs::Passing::figures_ok, laws::specs::Checks::all_hold))]
pub fn figures_ok(mem: &[u64], b: usize) -> bool
    requires { b + width_of orders ≤ length mem.now }
    ensures { result ≡ figures_ok mem.now b }
{
    packing::in_range(1, MOST_PRICE, mem[b + books::ORDER_PRICE])
        && packing::in_range(1, MOST_SIZE, mem[b + books::ORDER_SIZE])
        && mem[b + books::CANCEL_ASKED] <= 1
        && mem[b + books::DONE] <= mem[b + books::ORDER_SIZE]
}

// Whether the figures of a place that has no order, at b, are 0.
pub fn no_figures(mem: &[u64], b: usize) -> bool
    requires { b + width_of orders ≤ length mem.now }
    ensures { result ≡ words_within mem.now b (width_of orders) 0 }
{
    within(mem, b, books::ORDER_WORDS, 0)
}
