// The lent words, read and written: searches, a run of words stored, a fresh state, and the totals of a closing line.
#![tactic(auto)]

ghost use Rattle.std.specs.Prelude.{◌≡◌, ◌+◌, ◌≤◌, ◌<◌, length};
ghost use Rattle.std.proofs.lemmas.List.Edits.{sets};
ghost use Rattle.rulebook.specs.Names.{same_key};
ghost use Rattle.books.specs.Layout.{room_for, room_of, request_start, order_start, HasKeys};
ghost use Rattle.books.specs.View.{rows_of};
ghost use Rattle.books.specs.Refining.{Counted};
ghost use Rattle.chains.specs.Words.{HasRows};
ghost use Rattle.store.specs.Finding.{first_row, named_by, key_at, found_place};
ghost use Rattle.store.specs.Indexing.{Indexed};
ghost use Rattle.store.specs.Making.{make_number, made_number, made, made_words, totals_of};

use books::Totals;
use packing::Ident;

// A row's first word.
const FIRST: usize = 0;

// A request's key: its owner's MPID, and its identifier.
#[derive(Clone, Copy, PartialEq, Eq)]
pub struct Key {
    pub owner: u64,
    pub name: Ident,
}

// The lent words with the index of their places, heads and links.
#[derive(Clone, Copy)]
pub struct Table<'a> {
    pub mem: &'a [u64],
    pub heads: &'a [u16],
    pub links: &'a [u16],
    ghost counted: { Counted mem.now },
    ghost indexed: { Indexed mem.now heads.now links.now },
}

// What the search of the table yields: the place that has the key, or the first free one, or that there is none.
#[derive(Clone, Copy)]
pub enum Found {
    At(usize),
    Free(usize),
    Full,
}

// How many places the memory has room for: those that fit after groups and symbols, at most 65,535.
#[tactic(auto, unfolding(books::specs::Layout::room_for))]
pub fn room(words: usize) -> usize
    ensures { result ≡ room_for words }
{
    let places = words.saturating_sub(books::LEAST_WORDS) / books::PLACE_WORDS;
    places.min(books::MOST_PLACES)
}

// Where the request of a place begins, and where its order does.
pub fn request_at(mem: &[u64], i: usize) -> usize
    requires counted { Counted mem.now }
    requires i_bound { i < room_of mem.now }
    ensures { result ≡ request_start mem.now i }
{
    books::KEYS + room(mem.len()) * books::KEY_WORDS + i * books::REQUEST_WORDS
}

pub fn order_at(mem: &[u64], i: usize) -> usize
    requires counted { Counted mem.now }
    requires i_bound { i < room_of mem.now }
    ensures { result ≡ order_start mem.now i }
{
    let places = room(mem.len());
    books::KEYS + places * books::KEY_WORDS + places * books::REQUEST_WORDS + i * books::ORDER_WORDS
}

// The words stored from a place on, and nothing else.
pub fn put_row(mem: &mut [u64], at: usize, words: &[u64])
    requires { at + length words.now ≤ length mem.old }
    ensures { mem.new ≡ sets mem.old at words.now }
{
    mem[at..at + words.len()].copy_from_slice(words);
}

// The first of n rows that begins with this word, or n where none does.
// kept: n for none, since the clause of rulings::find_group, group_index, has it so.
pub fn find_word(mem: &[u64], at: usize, width: usize, n: usize, word: u64) -> usize
    requires { HasRows mem.now at width 1 n }
    ensures { result ≡ first_row mem.now at width n word }
{
    for i in 0..n {
        if word == mem[at + i * width + FIRST] {
            return i;
        }
    }
    n
}

// The key of a place, copied out.
pub fn key_at(mem: &[u64], i: usize) -> Key
    requires { HasKeys mem.now (i + 1) }
    ensures { named_by result ≡ key_at (rows_of mem.now) i }
{
    let b = books::KEYS + i * books::KEY_WORDS;
    Key {
        owner: mem[b + books::OWNER],
        name: Ident {
            head: mem[b + books::NAME],
            middle: mem[b + books::NAME_MIDDLE],
            tail: mem[b + books::NAME_TAIL],
        },
    }
}

// Whether a place has the key.
// kept: not `==` on the key copied out, since a search compares keys where they stand (document 02, order 3).
fn has_key(mem: &[u64], i: usize, key: Key) -> bool
    requires { HasKeys mem.now (i + 1) }
    ensures { result ≡ same_key (named_by key) (key_at (rows_of mem.now) i) }
{
    let b = books::KEYS + i * books::KEY_WORDS;
    key.owner == mem[b + books::OWNER]
        && key.name.head == mem[b + books::NAME]
        && key.name.middle == mem[b + books::NAME_MIDDLE]
        && key.name.tail == mem[b + books::NAME_TAIL]
}

// The place with the key, or the first free one, or that the table is full. Only the places of the key's slot are looked at, the latest first.
#[tactic(auto, using(crate::specs::Indexing::seek_start, crate::specs::Indexing::seek_on, crate::specs::Indexing::seek_met, crate::specs::Finding::found_at))]
pub fn find_place(table: Table, key: Key) -> Found
    ensures { result ≡ found_place (rows_of table.entry.mem.now) (room_of table.entry.mem.now) (named_by key) }
{
    let n = table.mem[books::PLACES_TAKEN] as usize;
    let words = [key.owner, key.name.head, key.name.middle, key.name.tail];
    let mut link = chains::latest(&words, table.heads);
    // kept: the search is a loop that yields its place by `break` (document 01, "Matching forms to places").
    loop {
        if link == 0 {
            if n < room(table.mem.len()) {
                break Found::Free(n);
            }
            break Found::Full;
        }
        let place = link - 1;
        if has_key(table.mem, place, key) {
            break Found::At(place);
        }
        link = chains::earlier(table.links, place);
    }
}

// Why a fresh state is not made: the memory is too short for groups and symbols (23).
#[derive(Clone, Copy, PartialEq, Eq, Debug)]
pub enum MakeError {
    TooShort,
}

impl From<MakeError> for u64 {
    ghost from_gives = { λ why n. n ≡ make_number why };

    fn from(why: MakeError) -> u64 {
        match why {
            MakeError::TooShort => 23,
        }
    }
}

// Every word of the memory set to 0: the last number is 0 and nothing is listed. Where the memory is too short, nothing is written.
#[tactic(auto, unfolding(crate::specs::Making::made, crate::specs::Making::made_words))]
pub fn make_fresh(mem: &mut [u64]) -> Result<(), MakeError>
    ensures answer { made_number result ≡ made mem.old }
    ensures memory { mem.new ≡ made_words mem.old }
{
    if mem.len() < books::LEAST_WORDS {
        return Err(MakeError::TooShort);
    }
    mem.fill(0);
    Ok(())
}

// The totals of the group at a place in listing order, from 0, or that no group has the place.
#[tactic(auto, unfolding(crate::specs::Making::totals_of))]
pub fn closing_totals(mem: &[u64], place: usize) -> Option<Totals>
    requires { Counted mem.now }
    ensures { result ≡ totals_of (rows_of mem.now) place }
{
    if place >= mem[books::GROUPS_LISTED] as usize {
        return None;
    }
    let b = books::GROUPS + place * books::GROUP_WORDS;
    Some(Totals {
        mpid: mem[b + books::GROUP_MPID],
        traded_buys: mem[b + books::TRADED_BUYS],
        traded_sells: mem[b + books::TRADED_SELLS],
        open_buys: mem[b + books::OPEN_BUYS],
        open_sells: mem[b + books::OPEN_SELLS],
        blocked: mem[b + books::BLOCKED] > 0,
    })
}
