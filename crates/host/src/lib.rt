// The public calls for hosts in C and Rust: numbers and slices alone. include/ticketmoss.h declares them.
//
// Each is the call below it, and says its answer as one number with its sign: the bytes or words that were written, or minus the documents' number.
// kept: the C interface: an answer is one number with its sign, and each call has a name and a function of its own
#![tactic(auto)]

ghost use Rattle.std.specs.Prelude.{◌≡◌, ◌≤◌, length};
ghost use Rattle.books.specs.Layout.{room_for};
ghost use Rattle.store.specs.Making.{made, made_words};
ghost use Rattle.fields.specs.Out.{refuses, begun};
ghost use Rattle.calls.specs.Calling.{recorded, closed};
ghost use Rattle.calls.specs.Blocks.{blocked};
ghost use Rattle.codec.specs.Readings.{reading};
ghost use Rattle.meo.specs.Messages.{order_of, write_said, write_left};
ghost use Rattle.host.specs.Exporting.{told, block_said, taken_told, state_said, words_for, order_words, read_told, read_left};

use calls::CallError;
use meo::{NewOrder, SendError};

// The words of an N that is read.
const ORDER: usize = 8;

// A refusal as one number with its sign.
fn refused(number: u64) -> i64
    requires { number ≤ 43 }
    ensures { result ≡ told (refuses number) }
{
    -(number as i64)
}

// How many words a room of so many places needs; 0 where no memory has so many.
#[unsafe(no_mangle)]
#[tactic(auto, unfolding(crate::specs::Exporting::words_for))]
pub extern "C" fn ticketmoss_words(places: usize) -> usize
    ensures { result ≡ words_for places }
{
    if places > books::MOST_PLACES {
        return 0;
    }
    books::LEAST_WORDS + places * books::PLACE_WORDS
}

// How many places so many words have room for.
#[unsafe(no_mangle)]
pub extern "C" fn ticketmoss_places(words: usize) -> usize
    ensures { result ≡ room_for words }
{
    store::room(words)
}

// Makes a fresh state: 0, or -23.
#[unsafe(no_mangle)]
pub extern "C" fn ticketmoss_fresh(mem: &mut [u64]) -> i64
    ensures answer { result ≡ told (refuses (made mem.old)) }
    ensures memory { mem.new ≡ made_words mem.old }
{
    match store::make_fresh(mem) {
        Ok(()) => 0,
        Err(why) => refused(u64::from(why)),
    }
}

// Whether the words are a state that a record can be judged on: 0, or -22.
#[unsafe(no_mangle)]
#[tactic(auto, using(crate::proofs::Telling::state_told))]
pub extern "C" fn ticketmoss_state(mem: &[u64]) -> i64
    ensures { result ≡ told (state_said mem.now) }
{
    if state::state_ok(mem) {
        return 0;
    }
    refused(u64::from(CallError::BadState))
}

// Judges a record: the bytes of its answer line, or -21 or -22.
#[unsafe(no_mangle)]
pub extern "C" fn ticketmoss_record(mem: &mut [u64], line: &[u8], to: &mut [u8]) -> i64
    ensures answer { result ≡ told (recorded mem.old line.now to.old).said }
    ensures memory { mem.new ≡ (recorded mem.old line.now to.old).memory }
    ensures buffer { to.new ≡ (recorded mem.old line.now to.old).buffer }
{
    match calls::record(mem, line, to) {
        Ok(written) => written as i64,
        Err(error) => refused(u64::from(error)),
    }
}

// Judges a block of lines: the bytes of their answer lines, or -21 or -22. How many lines were taken, and their bytes, stand in the two words.
#[unsafe(no_mangle)]
pub extern "C" fn ticketmoss_block(
    mem: &mut [u64],
    text: &[u8],
    to: &mut [u8],
    taken: &mut [u64; 2],
) -> i64
    ensures answer { result ≡ told (block_said (blocked mem.old text.now to.old)) }
    ensures memory { mem.new ≡ (blocked mem.old text.now to.old).memory }
    ensures buffer { to.new ≡ (blocked mem.old text.now to.old).buffer }
    ensures taken { taken.new ≡ taken_told (blocked mem.old text.now to.old) taken.old }
{
    match calls::block(mem, text, to) {
        Ok(lines) => {
            *taken = [lines.count as u64, lines.bytes as u64];
            lines.written as i64
        }
        Err(why) => refused(u64::from(why)),
    }
}

// The closing line of the group at a place in listing order, from 0: its bytes, or -21, -22 or -5.
#[unsafe(no_mangle)]
pub extern "C" fn ticketmoss_closing(mem: &[u64], place: usize, to: &mut [u8]) -> i64
    ensures answer { result ≡ told (closed mem.now place to.old).said }
    ensures buffer { to.new ≡ (closed mem.now place to.old).buffer }
{
    match calls::closing(mem, place, to) {
        Ok(written) => written as i64,
        Err(refusal) => refused(u64::from(refusal)),
    }
}

// Writes the N of a line, lent with its LF, as the exchange's New Order Request: 131, its bytes, or -41, -42 or -43.
#[unsafe(no_mangle)]
pub extern "C" fn ticketmoss_order_write(line: &[u8], house: &[u8], to: &mut [u8]) -> i64
    ensures answer { result ≡ told (write_said line.now (order_of (reading line.now)) house.now to.old) }
    ensures buffer { to.new ≡ write_left line.now (order_of (reading line.now)) house.now to.old }
{
    let n = meo::order_of(codec::read(line));
    match meo::write(line, n, house, to) {
        Ok(()) => 131,
        Err(unsent) => refused(u64::from(unsent)),
    }
}

// An N as words at the start of those that are lent, which have room: where its identifier begins and ends, where its MPID does, its symbol, side, size
// and price.
fn put_order(words: &mut [u64], n: NewOrder)
    requires { 8 ≤ length words.old }
    ensures { words.new ≡ begun (order_words n) words.old }
{
    let row = [
        n.name.from as u64,
        n.name.to as u64,
        n.mpid.from as u64,
        n.mpid.to as u64,
        n.symbol,
        u64::from(n.side),
        n.size,
        n.price,
    ];
    store::put_row(words, 0, &row);
}

// Reads a New Order Request into words: 8, as many as are written, or -41, -42 or -43.
#[unsafe(no_mangle)]
pub extern "C" fn ticketmoss_order_read(message: &[u8], words: &mut [u64]) -> i64
    ensures answer { result ≡ told (read_told message.now words.old) }
    ensures words { words.new ≡ read_left message.now words.old }
{
    match meo::read(message) {
        Ok(n) => {
            if words.len() < ORDER {
                return refused(u64::from(SendError::ShortOutput));
            }
            put_order(words, n);
            8
        }
        Err(why) => refused(u64::from(why)),
    }
}
