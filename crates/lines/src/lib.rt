// The splitting of an input into lines, a block at a time. A line that lies in a block is a part of it, never a copy; only what follows a
// block's last LF is moved, to the front, where the next block is read after it.
#![tactic(auto)]

ghost use Rattle.std.specs.Prelude.{◌≡◌, ◌+◌, ◌≤◌, max, length};
ghost use Rattle.fields.specs.Parts.{stretch};
ghost use Rattle.lines.specs.Splitting.{lent, line_at, to_front};

pub use fields::LONGEST;
use fields::Place;

// The line that starts at a place, up to and with its LF, a part of the text; an empty part where no LF follows.
// kept: what may not change (the clause of `line_at`): an empty part, and no Option, where no LF follows
pub fn line_at(text: &[u8], at: usize) -> &[u8]
    ensures line { result.now ≡ line_at text.now at }
    ensures within { at + length result.now ≤ max at (length text.now) }
{
    let rest = fields::part(
        text,
        Place {
            from: at,
            to: text.len(),
        },
    );
    match rest.iter().position(|b| *b == b'\n') {
        Some(n) => &rest[..n + 1],
        None => &rest[..0],
    }
}

// What the gate is lent of a line: the line, or its first 161 bytes where it is longer, which then are no line in form.
pub fn lent(line: &[u8]) -> &[u8]
    ensures { result.now ≡ lent line.now }
{
    &line[..line.len().min(LONGEST)]
}

// Moves the bytes from a place up to another to the front, 161 of them at most, and answers how many; every other byte stays.
pub fn keep_rest(text: &mut [u8], from: usize, to: usize) -> usize
    ensures memory { text.new ≡ to_front text.old from to }
    ensures answer { result ≡ length (lent (stretch text.old from to)) }
    ensures few { result ≤ 161 }
{
    let count = lent(fields::part(text, Place { from, to })).len();
    if count > 0 {
        text.copy_within(from..from + count, 0);
    }
    count
}
