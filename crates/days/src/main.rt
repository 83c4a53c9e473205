// Runs whole days through the public calls, and compares what they answer with what is expected.
//
// A day is two files: its lines, and the answer lines and closing lines that they are to get. Each has fewer than 65,536 bytes. For each day a
// line says how many lines came as expected, or which is the first that did not, with what was said and what was expected.
#![tactic(auto)]

use calls::{CallError, ClosingError};
use fields::Place;
use std::rt::Files;
use std::{fs, io};

const PLACES: usize = 400;

const WORDS: usize = books::LEAST_WORDS + PLACES * books::PLACE_WORDS;

// The bytes that an answer line and a closing line are lent.
const ANSWER: usize = 32;

const CLOSING: usize = 96;

// The bytes of a file that are read.
const FILE: usize = 65_536;

// A line that differs from the one that is expected; both have been said.
#[derive(Clone, Copy)]
struct Differs;

// The lines that are expected next, and how many have come as expected.
#[derive(Drop)]
struct Expected<'a> {
    rest: &'a [u8],
    met: u64,
}

// Reads a file, and answers what of the buffer it fills. Where there is none, standard error says why.
fn read_file<'a>(rt: &(impl Files + Eprint), name: &str, to: &'a mut [u8]) -> &'a [u8] {
    let count = match fs::open(rt, name) {
        Ok(mut file) => input::read_full(&mut file, to),
        Err(why) => {
            let _ = eprintln!(rt; "{name}: {why}");
            0
        }
    };
    fields::part(to, Place { from: 0, to: count })
}

// A text up to its first LF, or all of it where it has none, and what follows.
fn first_line(text: &[u8]) -> (&[u8], &[u8]) {
    match text.iter().position(|b| *b == b'\n') {
        Some(end) => text.split_at(end + 1),
        None => text.split_at(text.len()),
    }
}

// Says bytes.
fn say(rt: &impl Print, bytes: &[u8]) {
    let _ = rt.write_all(bytes);
}

impl<'a> Expected<'a> {
    // Compares a line that is said with the next that is expected. Where they differ, both are said.
    fn meet(&mut self, rt: &impl Print, said: &[u8]) -> Result<(), Differs> {
        let (line, rest) = first_line(self.rest);
        let number = self.met.wrapping_add(1);
        if said != line {
            let _ = println!(rt; "line {number} differs, said:");
            say(rt, said);
            let _ = println!(rt; "expected:");
            say(rt, line);
            return Err(Differs);
        }
        self.rest = rest;
        self.met = number;
        Ok(())
    }
}

// Judges a line, and compares its answer. A number that writes no line stands for one.
// kept: no plainer: 21, 22 and 23 are written as bytes, here and below, because bytes are compared with bytes
fn meet_answer(
    rt: &impl Print,
    mem: &mut [u64],
    line: &[u8],
    expected: &mut Expected,
) -> Result<(), Differs> {
    let mut answer = [0u8; ANSWER];
    match calls::record(mem, line, &mut answer) {
        Ok(to) => expected.meet(rt, fields::part(&answer, Place { from: 0, to })),
        Err(CallError::ShortBuffer) => expected.meet(rt, b"21\n"),
        Err(CallError::BadState) => expected.meet(rt, b"22\n"),
    }
}

// Asks for the closing line of the group at a place, and compares it. A place that no group has is to have none.
fn meet_closing(
    rt: &impl Print,
    mem: &[u64],
    place: usize,
    expected: &mut Expected,
) -> Result<(), Differs> {
    let mut line = [0u8; CLOSING];
    match calls::closing(mem, place, &mut line) {
        Ok(to) => expected.meet(rt, fields::part(&line, Place { from: 0, to })),
        Err(ClosingError::Unlisted) => Ok(()),
        Err(ClosingError::ShortBuffer) => expected.meet(rt, b"21\n"),
        Err(ClosingError::BadState) => expected.meet(rt, b"22\n"),
    }
}

// Judges a day from a fresh state, line after line, a last part without LF too, and compares the answers; then the closing lines of all groups in
// listing order, and that no more is expected.
fn meet_day(rt: &impl Print, day: &[u8], expected: &mut Expected) -> Result<(), Differs> {
    let mut mem = [0u64; WORDS];
    let Ok(()) = store::make_fresh(&mut mem) else {
        return expected.meet(rt, b"23\n");
    };
    for line in day.split_inclusive(|b| *b == b'\n') {
        meet_answer(rt, &mut mem, lines::lent(line), expected)?;
    }
    for place in 0..books::MOST_GROUPS {
        meet_closing(rt, &mem, place, expected)?;
    }
    if expected.rest.is_empty() {
        return Ok(());
    }
    expected.meet(rt, b"")
}

fn run_day(rt: &(impl Files + Print + Eprint), name: &str, day_file: &str, expected_file: &str) {
    let mut day = [0u8; FILE];
    let mut lines = [0u8; FILE];
    let day = read_file(rt, day_file, &mut day);
    let mut expected = Expected {
        rest: read_file(rt, expected_file, &mut lines),
        met: 0,
    };
    let _ = print!(rt; "{name}: ");
    if meet_day(rt, day, &mut expected).is_ok() {
        let _ = println!(rt; "{} lines, each as expected", expected.met);
    }
}

// Document 01's day, days at its edges, and a day of two desks.
const TOLD: [(&str, &str, &str); 5] = [
    ("document-01", "document-01.in", "document-01.out"),
    ("empty", "empty.in", "empty.out"),
    ("open-limit", "open-limit.in", "open-limit.out"),
    ("line-ends", "line-ends.in", "line-ends.out"),
    ("two-desks", "two-desks.in", "two-desks.out"),
];

// Days with the answers of an independent reading of document 01.
const BASE: [(&str, &str, &str); 8] = [
    ("base-1001", "base-1001.in", "base-1001.out"),
    ("base-1002", "base-1002.in", "base-1002.out"),
    ("base-1003", "base-1003.in", "base-1003.out"),
    ("base-1004", "base-1004.in", "base-1004.out"),
    ("base-1005", "base-1005.in", "base-1005.out"),
    ("base-1006", "base-1006.in", "base-1006.out"),
    ("base-1007", "base-1007.in", "base-1007.out"),
    ("base-1008", "base-1008.in", "base-1008.out"),
];

// Days that the harness drew, with the peer's answers.
const DRAWN: [(&str, &str, &str); 12] = [
    ("drawn-7-01", "drawn-7-01.in", "drawn-7-01.out"),
    ("drawn-7-02", "drawn-7-02.in", "drawn-7-02.out"),
    ("drawn-7-03", "drawn-7-03.in", "drawn-7-03.out"),
    ("drawn-7-04", "drawn-7-04.in", "drawn-7-04.out"),
    ("drawn-7-05", "drawn-7-05.in", "drawn-7-05.out"),
    ("drawn-7-06", "drawn-7-06.in", "drawn-7-06.out"),
    ("drawn-7-07", "drawn-7-07.in", "drawn-7-07.out"),
    ("drawn-7-08", "drawn-7-08.in", "drawn-7-08.out"),
    ("drawn-7-09", "drawn-7-09.in", "drawn-7-09.out"),
    ("drawn-7-10", "drawn-7-10.in", "drawn-7-10.out"),
    ("drawn-7-11", "drawn-7-11.in", "drawn-7-11.out"),
    ("drawn-7-12", "drawn-7-12.in", "drawn-7-12.out"),
];

fn main(rt: HostRuntime) {
    for (name, day, expected) in TOLD {
        run_day(&rt, name, day, expected);
    }
    for (name, day, expected) in BASE {
        run_day(&rt, name, day, expected);
    }
    for (name, day, expected) in DRAWN {
        run_day(&rt, name, day, expected);
    }
}
