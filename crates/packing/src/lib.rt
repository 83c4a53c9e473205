// Identifiers, targets, MPIDs and a message's numbers packed into words, and whether words, letters and numbers have document 01's forms.
#![tactic(auto)]

ghost use Rattle.std.specs.Prelude.{◌≡◌, ◌+◌, ◌≤◌, ◌<◌, length, take, drop};
ghost use Rattle.laws.specs.Tables.{All};
ghost use Rattle.rulebook.specs.Names.{bytes, word, ident_of};
ghost use Rattle.rulebook.specs.Lines.{from_to, letter, identifier, mpid};
ghost use Rattle.fields.specs.Parts.{unnamed, said, takes, every};
ghost use Rattle.packing.specs.Words.{named, spelt, row, marked, unpacked, follows, tight};
ghost use Rattle.packing.specs.Fitting.{fits};

use fields::{Form, Place};

// An identifier's or a target's bytes, eight to a word, the first lowest, zeros after the last.
#[derive(Clone, Copy, PartialEq, Eq)]
pub struct Ident {
    pub head: u64,
    pub middle: u64,
    pub tail: u64,
}

// The least word whose eighth byte is not 0.
const FULL: u64 = 0x0100_0000_0000_0000;

// The least word with a byte after its fourth.
const FIVE: u64 = 0x1_0000_0000;

// The lowest bit of each of a word's eight bytes, and the highest.
const ONES: u64 = 0x0101_0101_0101_0101;

const TOPS: u64 = 0x8080_8080_8080_8080;

// At most eight bytes as one word, the first lowest; 0 of none.
// kept: no plainer: `from_le_bytes` takes eight bytes, and a text may have fewer
fn pack_word(text: &[u8]) -> u64
    requires { length text.now ≤ 8 }
    ensures { result ≡ word text.now }
{
    let mut w = 0;
    for b in text.iter().rev() {
        w = u64::from(*b) + 256 * w;
    }
    w
}

// The word of the bytes from a place on, eight or as many as there are; 0 past the end.
#[tactic(auto, unfolding(fields::specs::Parts::stretch))]
fn pack_eight(text: &[u8], from: usize) -> u64
    requires { from ≤ 16 }
    ensures { result ≡ word (take 8 (drop from text.now)) }
{
    pack_word(fields::part(text, Place { from, to: from + 8 }))
}

// The identifier that a stretch of the line says, packed: of its first 24 bytes, where it has more.
#[tactic(auto, using(crate::specs::Spelling::first_packed))]
pub fn pack_identifier(line: &[u8], at: Place) -> Ident
    ensures { named result ≡ ident_of (take 24 (said line.now at)) }
{
    let text = fields::part(line, at);
    Ident {
        head: pack_eight(text, 0),
        middle: pack_eight(text, 8),
        tail: pack_eight(text, 16),
    }
}

// The MPID that a stretch of the line says, packed: of its first four bytes, where it has more.
#[tactic(auto, unfolding(fields::specs::Parts::stretch))]
pub fn pack_mpid(line: &[u8], at: Place) -> u64
    ensures { result ≡ word (take 4 (said line.now at)) }
{
    let text = fields::part(line, at);
    pack_word(fields::part(text, Place { from: 0, to: 4 }))
}

// The number whose bytes a stretch of a message has, the lowest first: of its first eight bytes, where it has more.
pub fn pack_number(message: &[u8], at: Place) -> u64
    ensures { result ≡ word (take 8 (said message.now at)) }
{
    pack_eight(fields::part(message, at), 0)
}

// The highest bit of each of a word's eight bytes, once so much is added to each: it is set from 128 on.
fn marks(w: u64, more: u64) -> u64
    requires { All (λ b. b + more < 256) (row 8 w) }
    ensures { result ≡ marked more (row 8 w) }
{
    (w + more * ONES) & TOPS
}

// Whether the identifier's form takes each byte of a word, up to its last that is not 0; true of 0. Each byte is below 128;
// at most 126; 0, or at least 33; not 0 where the next is not; and not 124, the one that comes to 128 by 4 more and not by 3.
// kept: tried, slower: byte by byte, over `to_le_bytes`, an identifier takes some forty times as long, and the state check, which is most of a record's time, tries one a place
#[tactic(auto, using(crate::specs::Together::row_room, crate::specs::Together::low_bytes, crate::specs::Together::low_room))]
fn takes_text(w: u64) -> bool
    ensures { result ≡ every (takes (identifier unnamed)) (spelt 8 w) }
{
    if marks(w, 0) != 0 {
        return false;
    }
    if marks(w, 1) != 0 {
        return false;
    }
    let some = marks(w, 127);
    if some != marks(w, 95) {
        return false;
    }
    let next = some / 256;
    if next & some != next {
        return false;
    }
    marks(w, 4) == marks(w, 3)
}

// The same of a word that is often 0: an identifier's second, and its third.
#[tactic(auto, using(crate::specs::Spelling::spelt_none), unfolding(fields::specs::Parts::every))]
fn takes_more(w: u64) -> bool
    ensures { result ≡ every (takes (identifier unnamed)) (spelt 8 w) }
{
    w == 0 || takes_text(w)
}

// Whether the identifier's form takes each byte of the three words.
#[tactic(auto, using(crate::specs::Spelling::every_append), unfolding(crate::specs::Words::unpacked))]
fn takes_words(x: Ident) -> bool
    ensures { result ≡ every (takes (identifier unnamed)) (unpacked (named x)) }
{
    takes_text(x.head) && takes_more(x.middle) && takes_more(x.tail)
}

// Whether a word may have this one after it: any where it is full, 0 alone where it is not.
#[tactic(auto, unfolding(crate::specs::Words::follows))]
fn may_follow(word: u64, next: u64) -> bool
    ensures { result ≡ follows word next }
{
    next == 0 || word >= FULL
}

// Whether the words are those of a text of 1 to 20 bytes, none of them 0: each is full before the next begins.
#[tactic(auto, unfolding(crate::specs::Words::tight))]
fn is_tight(x: Ident) -> bool
    ensures { result ≡ tight (named x) }
{
    x.head != 0 && x.tail < FIVE && may_follow(x.head, x.middle) && may_follow(x.middle, x.tail)
}

// Whether the words are a packed identifier or target: 1 to 20 bytes from 33 to 126, and no `|`.
#[tactic(auto, using(crate::specs::Sizes::identifier_told))]
pub fn is_identifier(x: Ident) -> bool
    ensures { result ≡ fits (identifier (named x)) }
{
    is_tight(x) && takes_words(x)
}

// Whether a word is a packed MPID: four bytes, each a capital letter or a digit.
#[tactic(auto, using(crate::specs::Sizes::mpid_bytes, crate::specs::Sizes::mpid_large))]
pub fn is_mpid(w: u64) -> bool
    ensures { result ≡ fits (mpid (record { code = w })) }
{
    match u32::try_from(w) {
        Ok(word) => Form::Mpid.is_text(&word.to_le_bytes(), 4, 4),
        Err(_) => false,
    }
}

// Whether a number is neither below the least nor above the greatest.
pub fn in_range(low: u64, high: u64, n: u64) -> bool
    ensures { result ≡ from_to low high n }
{
    low <= n && n <= high
}

// Whether a number is the letter of a side: B, S, H or E.
// kept: what may not change (the clause of `is_side`, over every word): a side is its letter
#[tactic(auto, unfolding(crate::specs::Fitting::fits))]
pub fn is_side(c: u64) -> bool
    ensures { result ≡ fits (letter (bytes "BSHE") c) }
{
    match u8::try_from(c) {
        Ok(b) => Form::Side.takes_byte(b),
        Err(_) => false,
    }
}
