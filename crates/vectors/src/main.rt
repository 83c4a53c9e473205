// Runs the line reader and the line writers on vectors.
//
// Standard input has a vector to a line, 65,536 bytes in all at most. In it \t, \n, \\ and \xhh
// stand for a tab, an LF, a backslash and the byte of that number, and any other byte for itself.
// For each vector a line is written: "refused", or "taken", the kind, the record as it is written
// back and its answer, escaped as a vector is. Then the answer to a line that breaks a form, and
// closing lines. Where a text breaks a rule of room, the next line has "room" and the number of the
// vector, or of the text among those last ones.
#![tactic(auto)]

ghost use Rattle.std.specs.Prelude.{◌<◌, ◌≤◌, length};

use answers::{Answer, Totals};
use codec::Reading;
use fields::{WriteError, Writer};
use std::io;
use std::slice::Iter;

// MPIDs as words, the first byte lowest.
const ABCD: u64 = 0x4443_4241;

const Z9A0: u64 = 0x3041_395a;

const CEILING: u64 = 4_000_000_000_000_000_000;

// A text that the library is asked to write.
#[derive(Clone, Copy)]
enum Text {
    Record(Reading),
    Answer(Reading),
    Refusal,
    Closing(Totals),
}

// The first bytes of a buffer, so many, or as many as it has.
// kept: no plainer: `fields::part` answers the same, but each call would have to build a place
fn first(count: usize, bytes: &[u8]) -> &[u8] {
    bytes.get(..count).unwrap_or(bytes)
}

// The next byte of a text, 0 past its end.
fn next_byte(text: &mut Iter<u8>) -> u8
    ensures { length text.new.rest.now ≤ length text.old.rest.now }
{
    text.next().copied().unwrap_or(0)
}

// The byte that a text says after a backslash.
fn escaped_byte(text: &mut Iter<u8>) -> u8
    ensures { length text.new.rest.now ≤ length text.old.rest.now }
{
    match next_byte(text) {
        b't' => b'\t',
        b'n' => b'\n',
        b'x' => {
            let high = next_byte(text);
            input::hex_byte(high, next_byte(text))
        }
        letter => letter,
    }
}

// Puts the bytes that a text says, and answers how many there are.
fn unescape(text: &[u8], to: &mut [u8]) -> usize {
    let mut writer = Writer { to, at: 0 };
    let mut bytes = text.iter();
    // kept: no plainer: a turn takes as many bytes as its escape has
    while let Some(byte) = bytes.next() {
        let said = if *byte == b'\\' {
            escaped_byte(&mut bytes)
        } else {
            *byte
        };
        writer.put(said);
    }
    writer.at
}

// Puts the text that says the bytes, and answers how long it is.
fn escape(bytes: &[u8], to: &mut [u8]) -> usize {
    let mut writer = Writer { to, at: 0 };
    for byte in bytes {
        match byte {
            b'\t' => writer.put_all(b"\\t"),
            b'\n' => writer.put_all(b"\\n"),
            b'\\' => writer.put_all(b"\\\\"),
            _ => writer.put(*byte),
        }
    }
    writer.at
}

// Has a text written. The line is the one that a record was read from.
fn write_text(text: Text, line: &[u8], to: &mut [u8]) -> Result<usize, WriteError> {
    match text {
        Text::Record(record) => codec::write_record(line, record, to),
        Text::Answer(record) => {
            let passed = Answer {
                outcome: b'P',
                number: 0,
                sent: 1,
            };
            answers::write_answer(line, record, passed, to)
        }
        Text::Refusal => {
            let refused = Answer {
                outcome: b'R',
                number: 1,
                sent: 0,
            };
            answers::write_answer(line, Reading::Broken, refused, to)
        }
        Text::Closing(totals) => answers::write_closing(totals, to),
    }
}

// Has a text written where there is room for so many bytes.
fn write_within(room: usize, text: Text, line: &[u8], to: &mut [u8]) -> Result<usize, WriteError> {
    let part = to.get_mut(..room).ok_or(WriteError::NoRoom)?;
    write_text(text, line, part)
}

// Whether a text goes whole into room for it and for more, does not go into one byte less at all,
// and leaves every other byte as it was.
fn keeps_to_room(text: Text, line: &[u8]) -> bool {
    let untouched = [b'.'; 150];
    let mut ample = untouched;
    let Ok(count) = write_text(text, line, &mut ample) else {
        return false;
    };
    let mut exact = untouched;
    let mut short = untouched;
    count != 0
        && ample.get(count..) == untouched.get(count..)
        && write_within(count, text, line, &mut exact) == Ok(count)
        && exact == ample
        && write_within(count - 1, text, line, &mut short) == Err(WriteError::NoRoom)
        && short == untouched
}

fn test_room(rt: &impl Print, number: usize, text: Text, line: &[u8]) -> io::Result<()> {
    if keeps_to_room(text, line) {
        return Ok(());
    }
    println!(rt; "room\t{number}")
}

// Says a text, escaped.
fn say_text(rt: &impl Print, text: Text, line: &[u8]) -> io::Result<()> {
    let mut bytes = [0u8; 200];
    let Ok(count) = write_text(text, line, &mut bytes) else {
        return Ok(());
    };
    let mut escaped = [0u8; 400];
    let width = escape(first(count, &bytes), &mut escaped);
    rt.write_all(first(width, &escaped))
}

fn test_vector(rt: &impl Print, number: usize, text: &[u8]) -> io::Result<()> {
    let mut bytes = [0u8; 400];
    let count = unescape(text, &mut bytes);
    let line = first(count, &bytes);
    let record = codec::read(line);
    if let Reading::Broken = record {
        // kept: tried, slower: by `println!` a line that is refused takes nearly half as long again
        return rt.write_all(b"refused\n");
    }
    print!(rt; "taken\t{}\t", char::from(codec::kind_letter(record)))?;
    say_text(rt, Text::Record(record), line)?;
    print!(rt; "\t")?;
    say_text(rt, Text::Answer(record), line)?;
    println!(rt)?;
    test_room(rt, number, Text::Record(record), line)?;
    test_room(rt, number, Text::Answer(record), line)
}

fn test_vectors(rt: &impl Print, input: &[u8]) -> io::Result<()> {
    let lines = input.split_inclusive(|byte| *byte == b'\n');
    for (number, line) in (1..).zip(lines) {
        if let Some(text) = line.strip_suffix(b"\n") {
            test_vector(rt, number, text)?;
        }
    }
    Ok(())
}

// Says a text that is no vector's, and tests its room.
fn test_fixed(rt: &impl Print, number: usize, text: Text) -> io::Result<()> {
    say_text(rt, text, b"")?;
    println!(rt)?;
    test_room(rt, number, text, b"")
}

// A refusal, and closing lines: all totals 0, all at the ceiling, and totals that are told apart.
fn test_fixed_texts(rt: &impl Print) -> io::Result<()> {
    test_fixed(rt, 1, Text::Refusal)?;
    let none = Totals {
        mpid: ABCD,
        traded_buys: 0,
        traded_sells: 0,
        open_buys: 0,
        open_sells: 0,
        blocked: false,
    };
    let most = Totals {
        traded_buys: CEILING,
        traded_sells: CEILING,
        open_buys: CEILING,
        open_sells: CEILING,
        ..none
    };
    let apart = Totals {
        mpid: Z9A0,
        traded_buys: 1,
        traded_sells: 22,
        open_buys: 333,
        open_sells: 4444,
        blocked: true,
    };
    let closings = [
        none,
        Totals {
            blocked: true,
            ..none
        },
        most,
        Totals {
            blocked: true,
            ..most
        },
        Totals {
            traded_buys: 399_600_000,
            ..none
        },
        apart,
    ];
    for (number, totals) in (2..).zip(&closings) {
        test_fixed(rt, number, Text::Closing(*totals))?;
    }
    Ok(())
}

fn main(rt: HostRuntime) -> io::Result<()> {
    let mut input = [0; 65536];
    let count = input::read_full(&mut rt.stdin(), &mut input);
    test_vectors(&rt, &input[..count])?;
    test_fixed_texts(&rt)
}
