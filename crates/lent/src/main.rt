// Calls the public calls on what a host may lend them: buffers that are too short or just long enough, memories that are no state, places that
// no group has. Every lent byte and word is set before each call and compared after it.
//
// For each call a line says what was called, with how many words and bytes; whether the bytes of the buffer past the answer line are as they were
// (every byte, where no line is written); whether every word of the memory is; and what was answered: the line, or the number that writes none, 0
// for a fresh state.
#![tactic(auto)]

ghost use Rattle.std.specs.Prelude.{◌≤◌};

use fields::Place;
use std::io;
use store::MakeError;

// A memory with room for one request.
const WORDS: usize = books::LEAST_WORDS + books::PLACE_WORDS;

const BYTES: usize = 128;

// What stands in a byte and in a word before a call. A word of it is in range nowhere.
const DOT: u8 = b'.';

const GARBAGE: u64 = u64::MAX;

fn kept_or_changed(is_kept: bool) -> &'static str {
    if is_kept { "kept" } else { "changed" }
}

// Says whether every byte of the buffer from a place on, and every word, is as it was before.
fn say_kept(
    rt: &impl Print,
    buffer: &[u8; BYTES],
    end: usize,
    before: &[u64; WORDS],
    after: &[u64; WORDS],
) -> io::Result<()> {
    let bytes = kept_or_changed(buffer.iter().skip(end).all(|b| *b == DOT));
    let words = kept_or_changed(before == after);
    print!(rt; "bytes {bytes}, words {words}, ")
}

// Says the answer: its line, as far as the buffer goes, or the number that writes none.
fn say_answer(
    rt: &impl Print,
    said: Result<usize, u64>,
    buffer: &[u8; BYTES],
    before: &[u64; WORDS],
    after: &[u64; WORDS],
) -> io::Result<()> {
    match said {
        Ok(to) => {
            say_kept(rt, buffer, to, before, after)?;
            rt.write_all(fields::part(buffer, Place { from: 0, to }))
        }
        Err(number) => {
            say_kept(rt, buffer, 0, before, after)?;
            println!(rt; "{number}")
        }
    }
}

// Has a record judged over the first so many words, with so many bytes for its answer.
fn try_record(
    rt: &impl Print,
    mem: &mut [u64; WORDS],
    words: usize,
    room: usize,
    line: &[u8],
) -> io::Result<()>
    requires words_in_bounds { words ≤ 1686 }
    requires room_in_bounds { room ≤ 128 }
{
    let before = *mem;
    let mut buffer = [DOT; BYTES];
    let said = calls::record(&mut mem[..words], line, &mut buffer[..room]).map_err(u64::from);
    print!(rt; "record, {words} words, {room} bytes: ")?;
    say_answer(rt, said, &buffer, &before, mem)
}

// Asks for a closing line over the first so many words, with so many bytes for it.
fn try_closing(
    rt: &impl Print,
    mem: &[u64; WORDS],
    words: usize,
    room: usize,
    place: usize,
) -> io::Result<()>
    requires words_in_bounds { words ≤ 1686 }
    requires room_in_bounds { room ≤ 128 }
{
    let before = *mem;
    let mut buffer = [DOT; BYTES];
    let said = calls::closing(&mem[..words], place, &mut buffer[..room]).map_err(u64::from);
    print!(rt; "closing {place}, {words} words, {room} bytes: ")?;
    say_answer(rt, said, &buffer, &before, mem)
}

// Has a fresh state made in the first so many words.
fn try_fresh(rt: &impl Print, words: usize) -> io::Result<()>
    requires { words ≤ 1686 }
{
    let mut mem = [GARBAGE; WORDS];
    let before = mem;
    let number = match store::make_fresh(&mut mem[..words]) {
        Ok(()) => 0,
        Err(MakeError::TooShort) => 23,
    };
    print!(rt; "fresh, {words} words, 0 bytes: ")?;
    say_kept(rt, &[DOT; BYTES], 0, &before, &mem)?;
    println!(rt; "{number}")
}

// Making a fresh state, in memories too short for groups and symbols (23), and in one that is just long enough.
fn try_fresh_states(rt: &impl Print) -> io::Result<()> {
    try_fresh(rt, 0)?;
    try_fresh(rt, books::LEAST_WORDS - 1)?;
    try_fresh(rt, books::LEAST_WORDS)
}

// A memory that is no state (22), where a buffer that is too short is found first (21).
fn try_garbage(rt: &impl Print) -> io::Result<()> {
    println!(rt; "garbage")?;
    let mut mem = [GARBAGE; WORDS];
    try_record(rt, &mut mem, WORDS, 31, b"O\n")?;
    try_record(rt, &mut mem, WORDS, 32, b"O\n")?;
    try_closing(rt, &mem, WORDS, 95, 0)?;
    try_closing(rt, &mem, WORDS, 96, 0)
}

// Memories that are too short for groups and symbols (22).
fn try_short_memories(rt: &impl Print) -> io::Result<()> {
    println!(rt; "too short for groups and symbols")?;
    let words = books::LEAST_WORDS - 1;
    let mut mem = [0; WORDS];
    try_record(rt, &mut mem, 0, 32, b"O\n")?;
    try_record(rt, &mut mem, words, 32, b"O\n")?;
    try_closing(rt, &mem, words, 96, 0)
}

// A fresh state: a place that no group has yet (5), buffers that are too short for an answer line (21), and one that is just long enough.
fn try_buffers(rt: &impl Print, mem: &mut [u64; WORDS]) -> io::Result<()> {
    println!(rt; "a fresh state")?;
    let group = b"G\tABCD\t100\t100\t100\t100\t100\t100\t100\tN\n";
    try_closing(rt, mem, WORDS, 96, 0)?;
    try_record(rt, mem, WORDS, 0, group)?;
    try_record(rt, mem, WORDS, 31, group)?;
    try_record(rt, mem, WORDS, 32, group)
}

// A buffer that is too short for a closing line (21), one that is just long enough and a longer one; and places that no group has (5).
fn try_closings(rt: &impl Print, mem: &[u64; WORDS]) -> io::Result<()> {
    println!(rt; "one group")?;
    try_closing(rt, mem, WORDS, 95, 0)?;
    try_closing(rt, mem, WORDS, 96, 0)?;
    try_closing(rt, mem, WORDS, BYTES, 0)?;
    try_closing(rt, mem, WORDS, 96, 1)?;
    try_closing(rt, mem, WORDS, 96, 64)?;
    try_closing(rt, mem, WORDS, 96, usize::MAX)
}

// Judges the lines of a text, each with 32 bytes for its answer.
fn try_lines(rt: &impl Print, mem: &mut [u64; WORDS], text: &[u8]) -> io::Result<()> {
    for line in text.split_inclusive(|b| *b == b'\n') {
        try_record(rt, mem, WORDS, 32, line)?;
    }
    Ok(())
}

// Before O: a group that is listed (3), a request (2), a line that ends in CR, one without LF and no byte at all (1) have no effect.
fn try_setup(rt: &impl Print, mem: &mut [u64; WORDS]) -> io::Result<()> {
    try_lines(
        rt,
        mem,
        b"G\tABCD\t1\t1\t1\t1\t1\t1\t100\tN\nN\tT1\tABCD\t7\tB\t1\t100\nO\r\n",
    )?;
    try_record(rt, mem, WORDS, 32, b"O")?;
    try_record(rt, mem, WORDS, 32, b"")?;
    try_lines(rt, mem, b"S\t7\nO\n")
}

// After O: a symbol (2), a request of no group (5), one that is repeated, one that differs (6) and one without a place (7) have no effect.
fn try_requests(rt: &impl Print, mem: &mut [u64; WORDS]) -> io::Result<()> {
    println!(rt; "opened")?;
    try_lines(rt, mem, b"S\t8\nN\tT1\tWXYZ\t7\tB\t1\t100\n")?;
    try_lines(
        rt,
        mem,
        b"N\tT1\tABCD\t7\tB\t1\t100\nN\tT1\tABCD\t7\tB\t1\t100\n",
    )?;
    try_lines(
        rt,
        mem,
        b"N\tT1\tABCD\t7\tB\t2\t100\nN\tT2\tABCD\t7\tB\t1\t100\n",
    )
}

// A notice whose number is above last + 1 (18) and one that was seen have no effect.
fn try_notices(rt: &impl Print, mem: &mut [u64; WORDS]) -> io::Result<()> {
    try_lines(rt, mem, b"Q\t2\t7\t0\t0\nQ\t1\t7\t0\t0\nQ\t1\t7\t0\t0\n")?;
    try_closing(rt, mem, WORDS, 96, 0)
}

fn main(rt: HostRuntime) -> io::Result<()> {
    try_fresh_states(&rt)?;
    try_garbage(&rt)?;
    try_short_memories(&rt)?;
    let mut mem = [GARBAGE; WORDS];
    let _ = store::make_fresh(&mut mem);
    try_buffers(&rt, &mut mem)?;
    try_closings(&rt, &mem)?;
    try_setup(&rt, &mut mem)?;
    try_requests(&rt, &mut mem)?;
    try_notices(&rt, &mut mem)
}
