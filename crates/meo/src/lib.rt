// The exchange's New Order Request (source document 000, 4.1.1): an N written as one, and one read back. docs/MESSAGE.md has the table's rows.
#![tactic(auto)]

ghost use Rattle.std.specs.Prelude.{◌≡◌, true, ◌+◌, ◌≤◌, length, replicate};
ghost use Rattle.rulebook.specs.Names.{word};
ghost use Rattle.rulebook.specs.Lines.{identifier, mpid};
ghost use Rattle.fields.specs.Parts.{unnamed, unlisted, stretch, said, has_form};
ghost use Rattle.fields.specs.Series.{side_of};
ghost use Rattle.fields.specs.Out.{puts, begun, cursor, Leaves};
ghost use Rattle.packing.specs.Words.{row};
ghost use Rattle.meo.specs.Table.{filled, lay, side_bits, instructions};
ghost use Rattle.meo.specs.Messages.{order_of, order_said, in_form, is_message, message, send_number, sent_said, write_said, write_left, text_width, side_with, order_at, zeros, plain, read_number, found_said, read_said};
ghost use Rattle.meo.specs.Laying.{own};

use codec::Reading;
use fields::{Form, Place, Writer};

// The bytes of a message.
pub const LENGTH: usize = 131;

// Where the fields of N stand in a message, one after the other up to the end of Order Instructions.
const MPID_AT: usize = 10;

const NAME_AT: usize = 14;

const SYMBOL_AT: usize = 34;

const PRICE_AT: usize = 38;

const SIZE_AT: usize = 46;

const INSTRUCTIONS_AT: usize = 50;

const TIF_AT: usize = 52;

// MinQty, MaxFloor Qty, Display Range Qty and Peg Offset stand from the first to the second.
const MIN_QTY_AT: usize = 87;

const LOCATE_AT: usize = 107;

const PURGE_AT: usize = 111;

// An N: its numbers, and where its texts stand in a line or a message beside it.
#[derive(Clone, Copy)]
pub struct NewOrder {
    pub name: Place,
    pub mpid: Place,
    pub symbol: u64,
    pub side: u8,
    pub size: u64,
    pub price: u64,
}

// Why no message is written: 41, 42 or 43.
#[derive(Clone, Copy, PartialEq, Eq, Debug)]
pub enum SendError {
    BadMessage,
    BadOrder,
    ShortOutput,
}

impl From<SendError> for u64 {
    ghost from_gives = { λ e n. n ≡ send_number e };

    fn from(why: SendError) -> u64 {
        match why {
            SendError::BadMessage => 41,
            SendError::BadOrder => 42,
            SendError::ShortOutput => 43,
        }
    }
}

// Why no N is read: 41 or 42.
#[derive(Clone, Copy, PartialEq, Eq, Debug)]
pub enum ReadError {
    BadMessage,
    BadOrder,
}

impl From<ReadError> for u64 {
    ghost from_gives = { λ e n. n ≡ read_number e };

    fn from(why: ReadError) -> u64 {
        match why {
            ReadError::BadMessage => 41,
            ReadError::BadOrder => 42,
        }
    }
}

// kept: `order_of` answers for every record, as its definition does, so there is no `Option` here; `write` refuses what has no form.
fn no_order() -> NewOrder
    ensures { result ≡ order_of Reading.Broken }
{
    NewOrder {
        name: Place { from: 0, to: 0 },
        mpid: Place { from: 0, to: 0 },
        symbol: 0,
        side: 0,
        size: 0,
        price: 0,
    }
}

// The N of a record; of another kind, one that has no form.
pub fn order_of(rec: Reading) -> NewOrder
    ensures { result ≡ order_of rec }
{
    match rec {
        Reading::New {
            name,
            mpid,
            symbol,
            side,
            size,
            price,
        } => NewOrder {
            name,
            mpid,
            symbol,
            side,
            size,
            price,
        },
        Reading::Broken
        | Reading::Group { .. }
        | Reading::Symbol { .. }
        | Reading::Open
        | Reading::Change { .. }
        | Reading::Cancel { .. }
        | Reading::Block { .. }
        | Reading::Unblock { .. }
        | Reading::Quote { .. }
        | Reading::Fill { .. }
        | Reading::Reduction { .. }
        | Reading::CancelRefused { .. } => no_order(),
    }
}

// Whether a stretch of bytes is an identifier, and whether it is an MPID.
fn is_name(line: &[u8], at: Place) -> bool
    ensures { result ≡ has_form (identifier unnamed) (said line.now at) }
{
    Form::Identifier.is_text(fields::part(line, at), 1, 20)
}

fn is_mpid(line: &[u8], at: Place) -> bool
    ensures { result ≡ has_form (mpid unlisted) (said line.now at) }
{
    Form::Mpid.is_text(fields::part(line, at), 4, 4)
}

// Whether each field has document 01's form for it.
#[tactic(auto, using(laws::specs::Checks::rules_tried), unfolding(crate::specs::Messages::in_form, packing::specs::Fitting::fits))]
fn is_order(line: &[u8], n: NewOrder) -> bool
    ensures { result ≡ in_form line.now n }
{
    is_name(line, n.name)
        && is_mpid(line, n.mpid)
        && packing::in_range(1, 4_294_967_295, n.symbol)
        && Form::Side.takes_byte(n.side)
        && packing::in_range(1, 1_000_000, n.size)
        && packing::in_range(1, 999_999_999_999, n.price)
}

// Whether bytes have a message's length and type.
#[tactic(auto, unfolding(crate::specs::Messages::is_message))]
fn is_message(m: &[u8]) -> bool
    ensures { result ≡ is_message m.now }
{
    m.len() == LENGTH && m[0] == b'N' && m[1] == b'1'
}

// ── writing ──
// A byte so many times, where it has room.
fn put_times(to: &mut Writer, b: u8, times: usize)
    ensures { Leaves to.old to.new (puts (cursor to.old) (replicate times b)) }
{
    for _ in 0..times {
        to.put(b);
    }
}

// So many bytes of a number, the lowest first.
fn put_binary(to: &mut Writer, n: u64, width: usize)
    ensures { Leaves to.old to.new (puts (cursor to.old) (row width n)) }
{
    let mut left = n;
    for _ in 0..width {
        to.put((left % 256) as u8);
        left /= 256;
    }
}

// A text filled up to so many bytes.
fn put_filled(to: &mut Writer, text: &[u8], width: usize, pad: u8)
    requires { length text.now ≤ width }
    ensures { Leaves to.old to.new (puts (cursor to.old) (filled pad width text.now)) }
{
    to.put_all(text);
    put_times(to, pad, width - text.len());
}

// The bits of a side: whether it sells, and the short sale indicator.
// kept: a side is its letter, since `in_form` and the contracts of `write` and `read` speak of any byte there.
fn bits_of(side: u8) -> u64
    ensures { result ≡ side_bits (side_of side) }
{
    match side {
        b'B' => 0,
        b'S' => 3,
        b'H' => 5,
        _ => 7,
    }
}

// The number that at most eight bytes of a message have, the lowest first.
fn binary_at(m: &[u8], at: Place) -> u64
    requires { at.to ≤ at.from + 8 }
    ensures { result ≡ word (said m.now at) }
{
    packing::pack_number(m, at)
}

// Order Instructions: the side's bits, and the house message's others.
fn instructions_of(side: u8, house: &[u8]) -> u64
    ensures { result ≡ instructions (side_of side) (word (stretch house.now 50 52)) }
{
    let w = binary_at(
        house,
        Place {
            from: INSTRUCTIONS_AT,
            to: TIF_AT,
        },
    );
    bits_of(side) + 8 * (w / 8)
}

// MPID and Client Order ID.
fn put_texts(to: &mut Writer, line: &[u8], n: NewOrder)
    requires { in_form line.now n ≡ true }
    ensures { Leaves to.old to.new (puts (puts (cursor to.old) (filled 32 4 (said line.now n.mpid))) (filled 0 20 (said line.now n.name))) }
{
    put_filled(to, fields::part(line, n.mpid), 4, b' ');
    put_filled(to, fields::part(line, n.name), 20, 0);
}

// Symbol ID, Price, Size and Order Instructions.
fn put_numbers(to: &mut Writer, n: NewOrder, w: u64)
    ensures { Leaves to.old to.new (puts (puts (puts (puts (cursor to.old) (row 4 n.symbol)) (row 8 n.price)) (row 4 n.size)) (row 2 w)) }
{
    put_binary(to, n.symbol, 4);
    put_binary(to, n.price, 8);
    put_binary(to, n.size, 4);
    put_binary(to, w, 2);
}

// The fields of N, from its MPID to Order Instructions.
fn put_order(to: &mut Writer, line: &[u8], n: NewOrder, house: &[u8])
    requires { in_form line.now n ≡ true }
    ensures { Leaves to.old to.new (puts (cursor to.old) (lay house.now 10 (own (order_said line.now n)))) }
{
    put_texts(to, line, n);
    put_numbers(to, n, instructions_of(n.side, house));
}

// The house message, with the fields of N over it, and those that are zero or a space.
fn put_message(to: &mut [u8], line: &[u8], n: NewOrder, house: &[u8])
    requires { (is_message house.now ≡ true) × (in_form line.now n ≡ true) × (131 ≤ length to.old) }
    ensures { to.new ≡ begun (message house.now (order_said line.now n)) to.old }
{
    to[..LENGTH].copy_from_slice(house);
    let mut over = Writer { to, at: MPID_AT };
    put_order(&mut over, line, n, house);
    over.at = MIN_QTY_AT;
    put_times(&mut over, 0, LOCATE_AT - MIN_QTY_AT);
    over.at = PURGE_AT;
    over.put(b' ');
}

// Writes an N as a New Order Request at the output's start, with the fields that N does not carry from the house message. 41 where that has not the length
// or the type, 42 where a field of N has not document 01's form, 43 where the output is too short, and nothing is written.
#[tactic(auto, unfolding(crate::specs::Messages::write_said, crate::specs::Messages::write_left, laws::specs::Checks::first))]
pub fn write(line: &[u8], n: NewOrder, house: &[u8], to: &mut [u8]) -> Result<(), SendError>
    ensures answer { sent_said result ≡ write_said line.now n house.now to.old }
    ensures buffer { to.new ≡ write_left line.now n house.now to.old }
{
    if !is_message(house) {
        return Err(SendError::BadMessage);
    }
    if !is_order(line, n) {
        return Err(SendError::BadOrder);
    }
    if to.len() < LENGTH {
        return Err(SendError::ShortOutput);
    }
    put_message(to, line, n, house);
    Ok(())
}

// ── reading ──
// How many bytes of a text stand before its nulls.
fn text_width(f: &[u8]) -> usize
    ensures { result ≡ text_width f.now }
{
    f.iter().position(|b| *b == 0).unwrap_or(f.len())
}

// The letter of the side that has these bits, or 0.
// kept: what may not change (`side_with`, under `read_said`): 0 for bits that no side has
fn side_with(bits: u64) -> u8
    ensures { result ≡ side_with bits }
{
    match bits {
        0 => b'B',
        3 => b'S',
        5 => b'H',
        7 => b'E',
        _ => 0,
    }
}

// The N where the table has it.
fn order_at(m: &[u8]) -> NewOrder
    ensures { result ≡ order_at m.now }
{
    let text = fields::part(
        m,
        Place {
            from: NAME_AT,
            to: SYMBOL_AT,
        },
    );
    let bits = binary_at(
        m,
        Place {
            from: INSTRUCTIONS_AT,
            to: TIF_AT,
        },
    );
    NewOrder {
        name: Place {
            from: NAME_AT,
            to: NAME_AT + text_width(text),
        },
        mpid: Place {
            from: MPID_AT,
            to: NAME_AT,
        },
        symbol: binary_at(
            m,
            Place {
                from: SYMBOL_AT,
                to: PRICE_AT,
            },
        ),
        side: side_with(bits % 8),
        size: binary_at(
            m,
            Place {
                from: SIZE_AT,
                to: INSTRUCTIONS_AT,
            },
        ),
        price: binary_at(
            m,
            Place {
                from: PRICE_AT,
                to: SIZE_AT,
            },
        ),
    }
}

fn all_zero(f: &[u8]) -> bool
    ensures { result ≡ zeros f.now }
{
    f.iter().all(|b| *b == 0)
}

fn is_zero(m: &[u8], from: usize, to: usize) -> bool
    ensures { result ≡ zeros (stretch m.now from to) }
{
    all_zero(fields::part(m, Place { from, to }))
}

// Whether nulls fill the Client Order ID up from a place on, the four fields are zero and Purge Group is a space.
#[tactic(auto, using(laws::specs::Checks::rules_tried), unfolding(crate::specs::Messages::plain))]
fn is_plain(m: &[u8], end: usize) -> bool
    ensures { result ≡ plain m.now end }
{
    is_zero(m, end, SYMBOL_AT)
        && is_zero(m, MIN_QTY_AT, LOCATE_AT)
        && fields::byte_at(m, PURGE_AT) == b' '
}

// Reads a New Order Request: the N, its texts by their places in the message. 41 where it has not the length or the type; 42 where a field of N has not
// document 01's form, or one of the fields that N never sets is set.
#[tactic(auto, unfolding(crate::specs::Messages::read_said, laws::specs::Checks::first))]
pub fn read(m: &[u8]) -> Result<NewOrder, ReadError>
    ensures { found_said result ≡ read_said m.now }
{
    if !is_message(m) {
        return Err(ReadError::BadMessage);
    }
    let n = order_at(m);
    if !is_order(m, n) {
        return Err(ReadError::BadOrder);
    }
    if !is_plain(m, n.name.to) {
        return Err(ReadError::BadOrder);
    }
    Ok(n)
}
