// A line's fields: read as stretches of the lent line, numbers and letters; and written one after the other.
#![tactic(auto)]

ghost use Rattle.std.specs.Prelude.{◌≡◌, true, cond, IsTrue, ◌&&◌, [], ◌∷◌, ◌++◌, ◌+◌, ◌-◌, ◌≤◌, eqb, length, take, drop, get_or};
ghost use Rattle.rulebook.specs.Lines.{ceiling, text, letter, number, buy, identifier, mpid, serial, side, size, price, quoted, limit, yes_no};
ghost use Rattle.fields.specs.Digits.{digits, digit_step, number_of};
ghost use Rattle.fields.specs.Parts.{unnamed, unlisted, blank, said, span, ends, field_at, takes, every, has_form, text_at, number_at, letter_at, form, numbered, IsLetter, ended};
ghost use Rattle.fields.specs.Out.{puts, cursor, Leaves, left, handed};

// A stretch of a line. It ends past the line where the field has not its form.
// kept: what may not change (the clauses of the readers, as of `identifier_at`): an end past the line is what they answer there
#[derive(Clone, Copy)]
pub struct Place {
    pub from: usize,
    pub to: usize,
}

// A number or a letter, and where its field ends.
#[derive(Clone, Copy)]
pub struct Parsed<T> {
    pub value: T,
    pub to: usize,
}

pub type Number = Parsed<u64>;

pub type Letter = Parsed<u8>;

// Why a writer wrote none of its bytes: it had no room for all of them.
#[derive(Clone, Copy, PartialEq, Eq, Debug)]
pub enum WriteError {
    NoRoom,
}

// The forms of texts and letters.
#[derive(Clone, Copy, PartialEq, Eq, Debug)]
pub enum Form {
    Identifier,
    Mpid,
    Side,
    YesNo,
}

// The forms' numbers.
pub const IDENTIFIER: u8 = 0;

pub const MPID: u8 = 1;

pub const SIDE: u8 = 2;

pub const YES_NO: u8 = 3;

// A form by its number.
// kept: what may not change (`is_text` and `takes_byte` take any number): so each number means a form
impl From<u8> for Form {
    ghost from_gives = { λ n f. f ≡ numbered n };

    fn from(number: u8) -> Form {
        match number {
            IDENTIFIER => Form::Identifier,
            MPID => Form::Mpid,
            SIDE => Form::Side,
            _ => Form::YesNo,
        }
    }
}

// A buffer that is written from a place on.
// kept: a rule of the project (no heap): the buffer is the caller's, and a place past its end says that there was no room (`puts`)
#[derive(Drop)]
pub struct Writer<'a> {
    pub to: &'a mut [u8],
    pub at: usize,
}

// No number: a byte that is no digit, a digit after a leading zero, or too large.
// kept: what may not change (the clauses of the readers, as of `size_at`): `number_of` gives a field's value as one number, in its form or not
const BAD: u64 = 0xffff_ffff_ffff_ffff;

// No digit yet.
const EMPTY: u64 = 0xffff_ffff_ffff_fffe;

const CEILING: u64 = 4_000_000_000_000_000_000;

// A number above this has no digit more below the ceiling.
const TENTH: u64 = 400_000_000_000_000_000;

// The most bytes of a line, its LF among them.
pub const LONGEST: usize = 161;

// The number so far and one byte more.
#[tactic(auto, unfolding(crate::specs::Digits::digit_step))]
fn digit_step(v: u64, d: u8) -> u64
    ensures { result ≡ digit_step v d }
{
    if !d.is_ascii_digit() {
        return BAD;
    }
    let digit = u64::from(d - b'0');
    match v {
        EMPTY => digit,
        1..=TENTH => v * 10 + digit,
        _ => BAD,
    }
}

// The number that a field says.
#[tactic(auto, unfolding(crate::specs::Digits::number_of))]
fn number_of(f: &[u8]) -> u64
    ensures { result ≡ number_of f.now }
{
    f.iter().fold(EMPTY, |v, d| digit_step(v, *d))
}

// Whether a byte ends a field: a tab or an LF.
fn ends_field(b: u8) -> bool
    ensures { result ≡ ends b }
{
    b == b'\t' || b == b'\n'
}

// How many bytes stand before the next tab or LF, or the end.
fn span(rest: &[u8]) -> usize
    ensures value { result ≡ span rest.now }
    ensures within { result ≤ length rest.now }
{
    rest.iter()
        .position(|b| ends_field(*b))
        .unwrap_or(rest.len())
}

// The byte at a place, 0 past the end.
// kept: what may not change (the clause of `byte_at`)
pub fn byte_at(line: &[u8], at: usize) -> u8
    ensures { result ≡ get_or line.now at 0 }
{
    line.get(at).copied().unwrap_or(0)
}

// The field after the tab at a place, a part of the line; an empty part where no tab is there.
// kept: what may not change (the clause of `field`): an empty part, and no Option, where no tab is
#[tactic(auto, using(std::proofs::lemmas::List::take_rest, crate::specs::Seams::field_none, crate::specs::Seams::field_is))]
pub fn field(line: &[u8], at: usize) -> &[u8]
    ensures { result.now ≡ field_at line.now at }
{
    if byte_at(line, at) != b'\t' {
        return &line[..0];
    }
    let rest = &line[at + 1..];
    &rest[..span(rest)]
}

// A stretch of the line, as far as the line goes.
#[tactic(auto, unfolding(crate::specs::Parts::stretch))]
pub fn part(line: &[u8], place: Place) -> &[u8]
    ensures { result.now ≡ said line.now place }
{
    let to = place.to.min(line.len());
    let from = place.from.min(to);
    &line[from..to]
}

impl Form {
    // Whether it takes the byte.
    pub fn takes_byte(self, b: u8) -> bool
        ensures { result ≡ takes (form self) b }
    {
        match self {
            Form::Identifier => b.is_ascii_graphic() && b != b'|',
            Form::Mpid => b.is_ascii_digit() || b.is_ascii_uppercase(),
            Form::Side => b == b'B' || b == b'S' || b == b'H' || b == b'E',
            Form::YesNo => b == b'Y' || b == b'N',
        }
    }

    fn takes_all(self, f: &[u8]) -> bool
        ensures { result ≡ every (takes (form self)) f.now }
    {
        f.iter().all(|b| self.takes_byte(*b))
    }

    // Whether bytes are a text of so many bytes, each of which it takes.
    #[tactic(auto, unfolding(crate::specs::Parts::has_form))]
    pub fn is_text(self, f: &[u8], least: usize, most: usize) -> bool
        ensures { result ≡ has_form (text least most (takes (form self)) unnamed) f.now }
    {
        least <= f.len() && f.len() <= most && self.takes_all(f)
    }
}

// Whether the form of this number takes the byte; a number above 3 is as 3.
pub fn takes_byte(kind: u8, b: u8) -> bool
    ensures { result ≡ takes (form (numbered kind)) b }
{
    Form::from(kind).takes_byte(b)
}

// Whether bytes are a text of so many bytes, each of which the form of this number takes.
// kept: what may not change (docs/PROMISES.md has `is_text` for every number, least and most)
pub fn is_text(f: &[u8], kind: u8, least: usize, most: usize) -> bool
    ensures { result ≡ has_form (text least most (takes (form (numbered kind))) unnamed) f.now }
{
    Form::from(kind).is_text(f, least, most)
}

// Where a field that follows a place ends; past the line where it has not its form.
fn field_end(line: &[u8], at: usize, f: &[u8], in_form: bool) -> usize
    requires is_field { f.now ≡ field_at line.now at }
    requires has_tab { IsTrue in_form → get_or line.now at 0 ≡ 9 }
    ensures { result ≡ cond in_form (at + 1 + length f.now) (length line.now + 1) }
{
    if in_form {
        at + 1 + f.len()
    } else {
        line.len() + 1
    }
}

// The text field after a place: where it stands.
#[tactic(auto, using(crate::specs::Seams::text_tab), unfolding(crate::specs::Parts::end_at))]
fn text_at(line: &[u8], at: usize, kind: Form, least: usize, most: usize) -> Place
    requires { 1 ≤ least }
    ensures { result ≡ text_at (text least most (takes (form kind)) unnamed) line.now at }
{
    let f = field(line, at);
    let in_form = kind.is_text(f, least, most);
    let to = field_end(line, at, f, in_form);
    let from = if in_form { at + 1 } else { 0 };
    Place { from, to }
}

// The letter after a place.
#[tactic(auto, using(crate::specs::Seams::text_tab, crate::specs::Seams::letter_form, crate::specs::Seams::letter_text), unfolding(crate::specs::Parts::end_at))]
fn letter_at(line: &[u8], at: usize, kind: Form) -> Letter
    requires { IsLetter kind }
    ensures { result ≡ letter_at (form kind) line.now at }
{
    let f = field(line, at);
    let value = byte_at(f, 0);
    let in_form = kind.is_text(f, 1, 1);
    Parsed {
        value,
        to: field_end(line, at, f, in_form),
    }
}

// The number after a place.
#[tactic(auto, using(crate::specs::Seams::number_tab), unfolding(crate::specs::Parts::has_form, crate::specs::Parts::end_at))]
fn number_at(line: &[u8], at: usize, low: u64, high: u64) -> Number
    requires { high ≤ ceiling }
    ensures { result ≡ number_at (number low high 0) line.now at }
{
    let f = field(line, at);
    let value = number_of(f);
    let in_form = low <= value && value <= high;
    Parsed {
        value,
        to: field_end(line, at, f, in_form),
    }
}

// An identifier or a target.
// kept: no plainer: this and the eight after it name a form each over one of three readers, and `codec` hands them on by name
#[tactic(auto, unfolding(crate::specs::Parts::has_form, crate::specs::Parts::end_at))]
pub fn identifier_at(line: &[u8], at: usize) -> Place
    ensures { result ≡ text_at (identifier unnamed) line.now at }
{
    text_at(line, at, Form::Identifier, 1, 20)
}

#[tactic(auto, unfolding(crate::specs::Parts::has_form, crate::specs::Parts::end_at))]
pub fn mpid_at(line: &[u8], at: usize) -> Place
    ensures { result ≡ text_at (mpid unlisted) line.now at }
{
    text_at(line, at, Form::Mpid, 4, 4)
}

#[tactic(auto, unfolding(crate::specs::Parts::has_form, crate::specs::Parts::end_at))]
pub fn side_at(line: &[u8], at: usize) -> Letter
    ensures { result ≡ letter_at (blank (side buy)) line.now at }
{
    letter_at(line, at, Form::Side)
}

#[tactic(auto, unfolding(crate::specs::Parts::has_form, crate::specs::Parts::end_at))]
pub fn yes_no_at(line: &[u8], at: usize) -> Letter
    ensures { result ≡ letter_at (blank (yes_no true)) line.now at }
{
    letter_at(line, at, Form::YesNo)
}

// A symbol ID or a notice number.
pub fn serial_at(line: &[u8], at: usize) -> Number
    ensures { result ≡ number_at (serial 0) line.now at }
{
    number_at(line, at, 1, 4_294_967_295)
}

pub fn size_at(line: &[u8], at: usize) -> Number
    ensures { result ≡ number_at (size 0) line.now at }
{
    number_at(line, at, 1, 1_000_000)
}

pub fn price_at(line: &[u8], at: usize) -> Number
    ensures { result ≡ number_at (price 0) line.now at }
{
    number_at(line, at, 1, 999_999_999_999)
}

// A bid or an offer.
pub fn quoted_at(line: &[u8], at: usize) -> Number
    ensures { result ≡ number_at (quoted 0) line.now at }
{
    number_at(line, at, 0, 999_999_999_999)
}

pub fn limit_at(line: &[u8], at: usize) -> Number
    ensures { result ≡ number_at (limit 0) line.now at }
{
    number_at(line, at, 0, CEILING)
}

// Whether the bytes end with an LF, and at most 160 stand before it.
#[tactic(auto, unfolding(crate::specs::Parts::ended))]
pub fn is_ended(line: &[u8]) -> bool
    ensures { result ≡ ended line.now }
{
    line.len() <= LONGEST && line.ends_with(b"\n")
}

impl Writer<'_> {
    // One byte, where it has room.
    #[tactic(auto, unfolding(crate::specs::Out::put_byte, crate::specs::Out::puts))]
    pub fn put(&mut self, b: u8)
        ensures { Leaves self.old self.new (puts (cursor self.old) (b ∷ [])) }
    {
        if self.at < self.to.len() {
            self.to[self.at] = b;
            self.at += 1;
        } else {
            self.at = self.to.len() + 1;
        }
    }

    // Bytes one after the other, where they have room.
    #[tactic(auto, using(crate::specs::Puts::puts_none, crate::specs::Puts::puts_more))]
    pub fn put_all(&mut self, f: &[u8])
        ensures { Leaves self.old self.new (puts (cursor self.old) f.now) }
    {
        for b in f {
            self.put(*b);
        }
    }

    #[tactic(auto, using(crate::specs::Puts::puts_then, crate::specs::Numbers::digits_small, crate::specs::Numbers::digits_more))]
    fn put_digits(&mut self, n: u64)
        ensures { Leaves self.old self.new (puts (cursor self.old) (digits n)) }
    {
        if n >= 10 {
            self.put_digits(n / 10);
        }
        self.put(b'0' + (n % 10) as u8);
    }

    // A tab and a stretch of the line.
    #[tactic(auto, using(crate::specs::Puts::puts_one))]
    pub fn put_text(&mut self, line: &[u8], place: Place)
        ensures { Leaves self.old self.new (puts (cursor self.old) (9 ∷ said line.now place)) }
    {
        self.put(b'\t');
        self.put_all(part(line, place));
    }

    // A tab and a number.
    #[tactic(auto, using(crate::specs::Puts::puts_one))]
    pub fn put_number(&mut self, n: u64)
        ensures { Leaves self.old self.new (puts (cursor self.old) (9 ∷ digits n)) }
    {
        self.put(b'\t');
        self.put_digits(n);
    }

    // A tab and a letter.
    #[tactic(auto, using(crate::specs::Puts::puts_one))]
    pub fn put_letter(&mut self, b: u8)
        ensures { Leaves self.old self.new (puts (cursor self.old) (9 ∷ b ∷ [])) }
    {
        self.put(b'\t');
        self.put(b);
    }

    // Two stretches of the line, each after a tab.
    // kept: what may not change (docs/PROMISES.md names `put_texts` and `put_numbers`)
    pub fn put_texts(&mut self, line: &[u8], a: Place, b: Place)
        ensures { Leaves self.old self.new (puts (puts (cursor self.old) (9 ∷ said line.now a)) (9 ∷ said line.now b)) }
    {
        self.put_text(line, a);
        self.put_text(line, b);
    }

    // Two numbers, each after a tab.
    pub fn put_numbers(&mut self, m: u64, n: u64)
        ensures { Leaves self.old self.new (puts (puts (cursor self.old) (9 ∷ digits m)) (9 ∷ digits n)) }
    {
        self.put_number(m);
        self.put_number(n);
    }
}

// Hands over the first n bytes whole, or none of them.
// kept: what may not change (`handed`, for every n)
#[tactic(auto, unfolding(crate::specs::Out::handed))]
pub fn hand_over(from: &[u8], n: usize, to: &mut [u8]) -> Result<usize, WriteError>
    ensures { left to.new result ≡ handed from.now n to.old }
{
    if n > from.len() || n > to.len() {
        return Err(WriteError::NoRoom);
    }
    to[..n].copy_from_slice(&from[..n]);
    Ok(n)
}
