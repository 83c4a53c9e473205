// Writes and reads New Order Requests that were worked out by hand (docs/message-vectors.txt).
//
// Standard input has a vector to a line, 65,536 bytes in all at most, its fields parted by spaces and bytes in hex, `-` for none:
//   write SIZE HOUSE LINE   an N's line, to be written over a house message into an output of so many bytes, at most 200, each 0xaa before
//   read MESSAGE            a message, to be read
// For each vector a line is written: "write", the number and every byte of the output; or "read", the number and, where that is 0, the places
// of identifier and MPID in the message, symbol, side, size and price, and the N's line.
#![tactic(auto)]

ghost use Rattle.std.specs.Prelude.{◌≤◌, ◌<◌, length};

use codec::Reading;
use fields::{Place, Writer};
use meo::NewOrder;
use std::io;

const MOST: usize = 200;

const DIGITS: &[u8; 16] = b"0123456789abcdef";

// Puts the bytes that hex digits say, and answers how many there are.
fn from_hex(text: &[u8], to: &mut [u8]) -> usize {
    let mut bytes = Writer { to, at: 0 };
    for pair in text.chunks_exact(2) {
        bytes.put(input::hex_byte(pair[0], pair[1]));
    }
    bytes.at
}

// Says bytes in hex, `-` where there are none.
fn say_hex(rt: &impl Print, bytes: &[u8]) -> io::Result<()> {
    if bytes.is_empty() {
        print!(rt; "-")?;
    }
    // kept: tried, slower: by `print!` with `{b:02x}` the bytes of an output take two and a half times as long
    for b in bytes {
        rt.write_all(&[DIGITS[usize::from(b / 16)], DIGITS[usize::from(b % 16)]])?;
    }
    Ok(())
}

// The end of the word that begins at a place: the next space, or the text's end.
fn word_end(text: &[u8], at: usize) -> usize
    ensures { result ≤ length text.now }
{
    match text.iter().skip(at).position(|b| *b == b' ') {
        Some(count) => at + count,
        None => text.len(),
    }
}

fn word(text: &[u8], from: usize, to: usize) -> &[u8] {
    fields::part(text, Place { from, to })
}

fn digit_at(text: &[u8], at: usize) -> usize
    ensures { result < 16 }
{
    usize::from(input::hex_value(fields::byte_at(text, at)))
}

// A number of one to three digits.
// kept: what may not change, the output on every input: the digits are read as hex digits, so that an `a` is ten
fn size_of(text: &[u8]) -> usize {
    let a = digit_at(text, 0);
    let b = digit_at(text, 1);
    let c = digit_at(text, 2);
    if text.len() == 1 {
        return a;
    }
    if text.len() == 2 {
        return a * 10 + b;
    }
    a * 100 + b * 10 + c
}

// Has a line's N written where there is room for so many bytes, and answers the number.
fn write_within(size: usize, house: &[u8], line: &[u8], to: &mut [u8]) -> u64 {
    if size > to.len() {
        return 0;
    }
    let n = meo::order_of(codec::read(line));
    match meo::write(line, n, house, &mut to[..size]) {
        Ok(()) => 0,
        Err(why) => u64::from(why),
    }
}

fn test_write(rt: &impl Print, size: usize, house: &[u8], line: &[u8]) -> io::Result<()> {
    let mut out = [0xaau8; MOST];
    let number = write_within(size, house, line, &mut out);
    print!(rt; "write {number} ")?;
    say_hex(rt, word(&out, 0, size))?;
    println!(rt)
}

// Says an N: its fields, and its line.
fn say_order(rt: &impl Print, message: &[u8], n: NewOrder) -> io::Result<()> {
    let NewOrder {
        name,
        mpid,
        symbol,
        side,
        size,
        price,
    } = n;
    print!(rt;
        " {} {} {} {} {symbol} ",
        name.from, name.to, mpid.from, mpid.to
    )?;
    rt.write_all(&[side])?;
    print!(rt; " {size} {price} ")?;
    let record = Reading::New {
        name,
        mpid,
        symbol,
        side,
        size,
        price,
    };
    let mut line = [0u8; MOST];
    if let Ok(count) = codec::write_record(message, record, &mut line) {
        say_hex(rt, word(&line, 0, count))?;
    }
    Ok(())
}

fn test_read(rt: &impl Print, message: &[u8]) -> io::Result<()> {
    print!(rt; "read ")?;
    match meo::read(message) {
        Ok(n) => {
            print!(rt; "0")?;
            say_order(rt, message, n)?;
        }
        Err(why) => print!(rt; "{}", u64::from(why))?,
    }
    println!(rt)
}

fn test_vector(rt: &impl Print, text: &[u8]) -> io::Result<()> {
    let a = word_end(text, 0);
    let mut first = [0u8; MOST];
    if fields::byte_at(text, 0) == b'r' {
        let count = from_hex(word(text, a + 1, text.len()), &mut first);
        return test_read(rt, word(&first, 0, count));
    }
    let b = word_end(text, a + 1);
    let c = word_end(text, b + 1);
    let mut second = [0u8; MOST];
    let house = from_hex(word(text, b + 1, c), &mut first);
    let line = from_hex(word(text, c + 1, text.len()), &mut second);
    test_write(
        rt,
        size_of(word(text, a + 1, b)),
        word(&first, 0, house),
        word(&second, 0, line),
    )
}

fn test_vectors(rt: &impl Print, input: &[u8]) -> io::Result<()> {
    for line in input.split_inclusive(|byte| *byte == b'\n') {
        if let Some(text) = line.strip_suffix(b"\n") {
            test_vector(rt, text)?;
        }
    }
    Ok(())
}

fn main(rt: HostRuntime) -> io::Result<()> {
    let mut input = [0; 65536];
    let count = input::read_full(&mut rt.stdin(), &mut input);
    test_vectors(&rt, &input[..count])
}
