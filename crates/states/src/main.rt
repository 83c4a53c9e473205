// Tries the state rules on memories that are built by hand, good ones and ones that break a rule, and
// compares each answer with what a separate reading of document 01 says of the same memory. Then
// has fresh states made, in memories that are too short and in ones that are not.
//
// The file states.txt has a line to a step, its parts with one space between, its numbers decimal:
//
//     # ..                                 a remark
//     base FILL INDEX=WORD ..              every word is FILL, then the words named are set
//     ANSWER LENGTH LABEL INDEX=WORD ..    a case
//
// A case is the base before it with the words named set, of which the first LENGTH are lent. Its
// answer is 1 where they are a state, and 0 where they break a rule (22). A memory has 4,096 words
// and the file at most 262,144 bytes. For each case that is answered otherwise a line has its label.
#![tactic(auto)]

ghost use Rattle.std.specs.Prelude.{◌≡◌, ◌-◌, ◌≤◌, length};

use std::fs;
use std::rt::Files;

const WORDS: usize = 4096;

const TEXT_BYTES: usize = 262_144;

// A word that is in range nowhere.
const GARBAGE: u64 = u64::MAX;

// How many cases were answered as good, as 22, and otherwise than the file says.
#[derive(Drop)]
struct Tally {
    good: u64,
    refused: u64,
    differ: u64,
}

// What is left of a text after so many bytes.
fn after(text: &[u8], count: usize) -> &[u8]
    ensures { length result.now ≡ length text.now - count }
{
    &text[count.min(text.len())..]
}

// The number that a digit says.
fn digit_value(byte: u8) -> Option<u64> {
    match byte {
        b'0'..=b'9' => Some(u64::from(byte - b'0')),
        _ => None,
    }
}

// A number with one more digit. One that has no room for it stays as it is.
fn with_digit(value: u64, digit: u64) -> u64 {
    if value > u64::MAX / 10 {
        return value;
    }
    (value * 10).wrapping_add(digit)
}

// The number whose digits a text begins with, 0 where there are none, and what is left after the byte that ends it.
fn number(text: &[u8]) -> (u64, &[u8])
    ensures { length result.1.now ≤ length text.now - 1 }
{
    let mut value = 0;
    for (i, byte) in text.iter().enumerate() {
        match digit_value(*byte) {
            Some(digit) => value = with_digit(value, digit),
            None => return (value, after(text, i + 1)),
        }
    }
    (value, after(text, text.len()))
}

// The part that a text begins with, up to the next space, and what is left after that.
fn part(text: &[u8]) -> (&[u8], &[u8]) {
    match text.iter().position(|byte| *byte == b' ') {
        Some(end) => (&text[..end], after(text, end + 1)),
        None => (text, after(text, text.len())),
    }
}

// Sets a word. One past the end is left out.
fn set_word(mem: &mut [u64; WORDS], index: u64, word: u64) {
    if index < WORDS as u64 {
        mem[index as usize] = word;
    }
}

// Sets the words that a text names, each as INDEX=WORD.
fn set_words(mem: &mut [u64; WORDS], text: &[u8]) {
    let mut rest = text;
    // kept: no plainer: a turn takes as many bytes as its two numbers have
    while !rest.is_empty() {
        let (index, after_index) = number(rest);
        let (word, after_word) = number(after_index);
        set_word(mem, index, word);
        rest = after_word;
    }
}

// The base that a line says after its first five bytes.
fn set_base(base: &mut [u64; WORDS], line: &[u8]) {
    let (word, words) = number(after(line, 5));
    base.fill(word);
    set_words(base, words);
}

// Whether the first so many words are a state, or none if there are not so many.
fn answer(mem: &[u64; WORDS], length: u64) -> Option<bool> {
    if length > WORDS as u64 {
        return None;
    }
    Some(state::state_ok(&mem[..length as usize]))
}

impl Tally {
    // One more answer.
    fn count(&mut self, said: Option<bool>) {
        match said {
            Some(true) => self.good = self.good.wrapping_add(1),
            Some(false) | None => self.refused = self.refused.wrapping_add(1),
        }
    }

    // One more that differs, whose label is said.
    fn count_differing(&mut self, rt: &impl Print, label: &[u8]) {
        let _ = rt.write_all(label);
        let _ = println!(rt);
        self.differ = self.differ.wrapping_add(1);
    }
}

// A case: what is answered is held against what the line says, 1 or 0, and 2 where there are not so many words.
fn test_case(rt: &impl Print, base: &[u64; WORDS], line: &[u8], tally: &mut Tally) {
    let (expected, rest) = number(line);
    let (length, rest) = number(rest);
    let (label, words) = part(rest);
    let mut mem = *base;
    set_words(&mut mem, words);
    let said = answer(&mem, length);
    tally.count(said);
    if said.map_or(2, u64::from) != expected {
        tally.count_differing(rt, label);
    }
}

// A line of the file.
fn test_line(rt: &impl Print, base: &mut [u64; WORDS], line: &[u8], tally: &mut Tally) {
    match line.first() {
        Some(b'#') => {}
        Some(b'b') => set_base(base, line),
        _ => test_case(rt, base, line, tally),
    }
}

fn test_lines(rt: &impl Print, text: &[u8]) -> Tally {
    let mut base = [0; WORDS];
    let mut tally = Tally {
        good: 0,
        refused: 0,
        differ: 0,
    };
    for line in text.split_inclusive(|byte| *byte == b'\n') {
        if let Some(line) = line.strip_suffix(b"\n") {
            test_line(rt, &mut base, line, &mut tally);
        }
    }
    tally
}

fn test_states(rt: &(impl Files + Print + Eprint)) {
    let mut file = match fs::open(rt, "states.txt") {
        Ok(file) => file,
        Err(why) => {
            let _ = eprintln!(rt; "states.txt: {why}");
            return;
        }
    };
    let mut text = [0; TEXT_BYTES];
    let count = input::read_full(&mut file, &mut text);
    let Tally {
        good,
        refused,
        differ,
    } = test_lines(rt, &text[..count]);
    let _ = println!(rt; "states: {good} good, {refused} refused, {differ} differ");
}

// Whether in so many words of garbage a fresh state is made or not, as said: if it is, every one of
// them is 0 and they are a state, and if not, none has changed. The words after them never change.
fn is_fresh_as_said(words: usize, long_enough: bool) -> bool
    requires { words ≤ 4096 }
{
    let mut mem = [GARBAGE; WORDS];
    let made = store::make_fresh(&mut mem[..words]).is_ok();
    let lent = if made { 0 } else { GARBAGE };
    made == long_enough
        && mem[..words].iter().all(|word| *word == lent)
        && mem[words..].iter().all(|word| *word == GARBAGE)
        && (!made || answer(&mem, words as u64) == Some(true))
}

fn test_fresh(rt: &impl Print, words: usize, long_enough: bool)
    requires { words ≤ 4096 }
{
    let said = if is_fresh_as_said(words, long_enough) {
        "as said"
    } else {
        "otherwise"
    };
    let _ = println!(rt; "fresh: {words} words {said}");
}

// Making a fresh state, in memories that are too short for groups and symbols (23) and in ones that
// are not.
fn test_fresh_states(rt: &impl Print) {
    test_fresh(rt, 0, false);
    test_fresh(rt, 1668, false);
    test_fresh(rt, 1669, true);
    test_fresh(rt, 1686, true);
    test_fresh(rt, 3000, true);
}

fn main(rt: HostRuntime) {
    test_states(&rt);
    test_fresh_states(&rt);
}
