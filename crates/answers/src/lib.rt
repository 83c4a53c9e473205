// Answer lines and closing lines, written.
#![tactic(auto)]

ghost use Rattle.std.specs.Prelude.{◌≡◌, [], ◌∷◌};
ghost use Rattle.fields.specs.Out.{out, cursor, Leaves, puts, put_line, left, wrote};
ghost use Rattle.codec.specs.Readings.{letter_of};
ghost use Rattle.answers.specs.Answering.{name_bytes, answer_fields, answer_bytes, low_bytes, yes_no_letter, closing_kind, closing_fields, closing_bytes};

pub use books::Totals;
use codec::Reading;
use fields::{WriteError, Writer};

// The most bytes of an answer line and of a closing line.
const ANSWER: usize = 32;

const CLOSING: usize = 96;

// What a record is answered: the outcome's letter, a number, and 1 if an order message is to be sent.
// kept: what may not change (`write_answer` writes any letter and any numbers): a narrower type would ask more of callers
#[derive(Clone, Copy, PartialEq, Eq)]
pub struct Answer {
    pub outcome: u8,
    pub number: u64,
    pub sent: u64,
}

// The field by which an answer names the record, after a tab.
fn put_name(to: &mut Writer, line: &[u8], rec: Reading)
    ensures { Leaves to.old to.new (puts (cursor to.old) (9 ∷ name_bytes line.now rec)) }
{
    match rec {
        Reading::Broken | Reading::Open => to.put_letter(b'-'),
        Reading::Group { mpid, .. } => to.put_text(line, mpid),
        Reading::Symbol { id } => to.put_number(id),
        Reading::New { name, .. }
        | Reading::Change { name, .. }
        | Reading::Cancel { name, .. }
        | Reading::Block { name, .. }
        | Reading::Unblock { name, .. } => to.put_text(line, name),
        Reading::Quote { number, .. }
        | Reading::Fill { number, .. }
        | Reading::Reduction { number, .. }
        | Reading::CancelRefused { number, .. } => to.put_number(number),
    }
}

fn put_answer(to: &mut [u8], line: &[u8], rec: Reading, answer: Answer) -> usize
    ensures { out to.new result ≡ put_line (out to.old 0) (letter_of rec) (answer_fields line.now rec answer.outcome answer.number answer.sent) }
{
    let mut writer = Writer { to, at: 0 };
    writer.put(codec::kind_letter(rec));
    put_name(&mut writer, line, rec);
    writer.put_letter(answer.outcome);
    writer.put_numbers(answer.number, answer.sent);
    writer.put(b'\n');
    writer.at
}

// A tab and an MPID's four bytes from its word, the first byte lowest.
fn put_mpid(to: &mut Writer, w: u64)
    ensures { Leaves to.old to.new (puts (cursor to.old) (9 ∷ low_bytes 4 w)) }
{
    to.put(b'\t');
    to.put_all(&w.to_le_bytes()[..4]);
}

// kept: no plainer: the letters are those of a line, and std has no such conversion of a `bool`
fn yes_or_no(x: bool) -> u8
    ensures { result ≡ yes_no_letter x }
{
    if x { b'Y' } else { b'N' }
}

fn put_closing(to: &mut [u8], totals: Totals) -> usize
    ensures { out to.new result ≡ put_line (out to.old 0) closing_kind (closing_fields totals.mpid totals.traded_buys totals.traded_sells totals.open_buys totals.open_sells totals.blocked) }
{
    let mut writer = Writer { to, at: 0 };
    writer.put(b'E');
    put_mpid(&mut writer, totals.mpid);
    writer.put_numbers(totals.traded_buys, totals.traded_sells);
    writer.put_numbers(totals.open_buys, totals.open_sells);
    writer.put_letter(yes_or_no(totals.blocked));
    writer.put(b'\n');
    writer.at
}

// Writes the answer line of a record.
// kept: what may not change, here and below: as `codec::write_record`
pub fn write_answer(
    line: &[u8],
    rec: Reading,
    answer: Answer,
    to: &mut [u8],
) -> Result<usize, WriteError>
    ensures { left to.new result ≡ wrote 32 (answer_bytes line.now rec answer.outcome answer.number answer.sent) to.old }
{
    let mut whole_line = [0u8; ANSWER];
    let count = put_answer(&mut whole_line, line, rec, answer);
    fields::hand_over(&whole_line, count, to)
}

// Writes a group's closing line, its MPID being given as a word.
pub fn write_closing(totals: Totals, to: &mut [u8]) -> Result<usize, WriteError>
    ensures { left to.new result ≡ wrote 96 (closing_bytes totals.mpid totals.traded_buys totals.traded_sells totals.open_buys totals.open_sells totals.blocked) to.old }
{
    let mut whole_line = [0u8; CLOSING];
    let count = put_closing(&mut whole_line, totals);
    fields::hand_over(&whole_line, count, to)
}
