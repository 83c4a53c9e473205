// The gate: lines on standard input, an answer line for each on standard output, and at the end a closing line for each group.
//
// Input is read and answers are written in blocks. The answers to the lines of a block are written before more is read, so nobody waits for the
// answer to a line that the program has. A line over 160 bytes gets one answer however long it is, and so does a last part without LF.
//
// Where reading fails, the whole lines before have had their answers, the part of a line after them is not judged, no closing line is written,
// and standard error says why: such a day cannot be taken for a whole one. Where writing fails the program ends at once, and standard error
// says why unless the output was closed, as a pipe is that nobody reads.
#![tactic(auto)]

ghost use Rattle.std.specs.Prelude.{◌≡◌, map, ◌≤◌, length};
ghost use Rattle.lines.specs.Splitting.{last};
ghost use Rattle.calls.specs.Calling.{recorded};
ghost use Rattle.promises.specs.Day.{left};
ghost use Rattle.gate.specs.Turns.{call_for, LinesPassed, HeldFew};

use calls::ClosingError;
use fields::{Place, Writer};
use std::io;

const PLACES: usize = 400;

const WORDS: usize = books::LEAST_WORDS + PLACES * books::PLACE_WORDS;

// The bytes of a block of input, and of one of answers.
const BLOCK: usize = 262_144;

// The bytes that an answer line and a closing line are lent.
const ANSWER: usize = 32;

const CLOSING: usize = 96;

// The program is to stop: standard error says why, unless the output was closed.
#[derive(Clone, Copy)]
struct Stopped;

// Says what failed, and why.
fn failed(rt: &impl Eprint, what: &str, why: io::Error) -> Stopped {
    let _ = eprintln!(rt; "{what}: {why}");
    Stopped
}

// Says that a call refuses the program's own memory or buffer.
fn refused(rt: &impl Eprint) -> Stopped {
    let _ = eprintln!(rt; "gate: its own state is refused");
    Stopped
}

// Writes the first bytes of the answers, so many as there are.
fn write_answers(rt: &(impl Print + Eprint), answers: &[u8], count: usize) -> Result<(), Stopped> {
    match rt.write_all(fields::part(answers, Place { from: 0, to: count })) {
        Ok(()) => Ok(()),
        Err(why) if why.kind() == io::ErrorKind::BrokenPipe => Err(Stopped),
        Err(why) => Err(failed(rt, "standard output", why)),
    }
}

// Puts a line of at most 96 bytes after the answers that wait. Where there may be no room for it, they are written first.
fn put_line(rt: &(impl Print + Eprint), waiting: &mut Writer, line: &[u8]) -> Result<(), Stopped> {
    let count = waiting.at;
    if count > BLOCK - CLOSING {
        write_answers(rt, waiting.to, count)?;
        waiting.at = 0;
    }
    waiting.put_all(line);
    Ok(())
}

// Judges the lines that end in a text, and writes their answers. Answers where the last of them ends. Where the answers may not have room for
// one more, those that there are are written, and it goes on after the lines taken.
fn judge_lines(
    rt: &(impl Print + Eprint),
    mem: &mut [u64],
    text: &[u8],
    answers: &mut [u8],
) -> Result<usize, Stopped>
    ensures { LinesPassed text.now mem.old result mem.new }
{
    // kept: no plainer: a turn goes on where the block call stopped, by as many bytes as it took
    let mut at = 0;
    loop {
        let Ok(taken) = calls::block(mem, &text[at..], answers) else {
            return Err(refused(rt));
        };
        write_answers(rt, answers, taken.written)?;
        at += taken.bytes;
        if answers.len() - taken.written >= ANSWER {
            return Ok(at);
        }
    }
}

// Reads once, after the bytes that are held, and answers where the text then ends; none where nothing was left to read.
// kept: rule of the project, no heap: `text` and `held` go together here and below, a block and how much of it is used
fn read_after(
    rt: &impl Eprint,
    input: &mut impl io::Read,
    text: &mut [u8],
    held: usize,
) -> Result<Option<usize>, Stopped>
    requires { held ≤ length text.old }
{
    match input.read(&mut text[held..]) {
        Ok(0) => Ok(None),
        Ok(count) => Ok(Some(held + count)),
        Err(why) => Err(failed(rt, "standard input", why)),
    }
}

// Reads a block after the bytes that are held, and judges the lines that end in it. What follows them is held, 161 bytes of it at most: answers
// how many, or none where the input has ended.
fn judge_block(
    rt: &(impl Print + Eprint),
    input: &mut impl io::Read,
    mem: &mut [u64],
    text: &mut [u8],
    held: usize,
    answers: &mut [u8],
) -> Result<Option<usize>, Stopped>
    requires { held ≤ length text.old }
    ensures { HeldFew result }
{
    let Some(to) = read_after(rt, input, text, held)? else {
        return Ok(None);
    };
    let at = judge_lines(rt, mem, fields::part(text, Place { from: 0, to }), answers)?;
    Ok(Some(lines::keep_rest(text, at, to)))
}

// Judges a last part that the input ends without LF. Where it is empty there is none.
fn judge_last(
    rt: &(impl Print + Eprint),
    mem: &mut [u64],
    part: &[u8],
    waiting: &mut Writer,
) -> Result<(), Stopped>
    ensures { mem.new ≡ left recorded mem.old (map call_for (last part.now)) }
{
    if part.is_empty() {
        return Ok(());
    }
    let mut answer = [0u8; ANSWER];
    let Ok(to) = calls::record(mem, part, &mut answer) else {
        return Err(refused(rt));
    };
    put_line(rt, waiting, fields::part(&answer, Place { from: 0, to }))
}

// Puts the closing line of the group at a place in listing order. Answers whether there is one.
fn put_closing(
    rt: &(impl Print + Eprint),
    mem: &[u64],
    place: usize,
    waiting: &mut Writer,
) -> Result<bool, Stopped> {
    let mut line = [0u8; CLOSING];
    match calls::closing(mem, place, &mut line) {
        Ok(to) => {
            put_line(rt, waiting, fields::part(&line, Place { from: 0, to }))?;
            Ok(true)
        }
        Err(ClosingError::Unlisted) => Ok(false),
        Err(ClosingError::ShortBuffer | ClosingError::BadState) => Err(refused(rt)),
    }
}

// Judges the last part, and writes its answer and the closing line of every group in listing order.
fn close_day(
    rt: &(impl Print + Eprint),
    mem: &mut [u64],
    last: &[u8],
    answers: &mut [u8],
) -> Result<(), Stopped> {
    let mut waiting = Writer { to: answers, at: 0 };
    judge_last(rt, mem, last, &mut waiting)?;
    for place in 0..books::MOST_GROUPS {
        if !put_closing(rt, mem, place, &mut waiting)? {
            break;
        }
    }
    let Writer { to, at } = waiting;
    write_answers(rt, to, at)
}

// Judges block after block to the end of the input, and closes the day. The turns are counted, up to a number that no run uses up.
// kept: no plainer: a proved loop has to end, and nothing says that an input does
fn judge_day(
    rt: &(impl Print + Eprint),
    input: &mut impl io::Read,
    mem: &mut [u64],
    text: &mut [u8],
    answers: &mut [u8],
) -> Result<(), Stopped>
    requires { 161 ≤ length text.old }
{
    let mut held = 0;
    for _ in 0..u64::MAX {
        match judge_block(rt, input, mem, text, held, answers)? {
            Some(count) => held = count,
            None => {
                let last = fields::part(text, Place { from: 0, to: held });
                return close_day(rt, mem, last, answers);
            }
        }
    }
    Ok(())
}

fn main(rt: HostRuntime) {
    let mut mem = [0u64; WORDS];
    if store::make_fresh(&mut mem).is_err() {
        refused(&rt);
        return;
    }
    let mut text = [0u8; BLOCK];
    let mut answers = [0u8; BLOCK];
    let _ = judge_day(&rt, &mut rt.stdin(), &mut mem, &mut text, &mut answers);
}
