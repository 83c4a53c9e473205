// The public calls. Each does its own checking, and is stated for every memory, every line and every buffer.
#![tactic(auto)]

ghost use Rattle.std.specs.Prelude.{◌≡◌, true, false, [], ◌≤◌, ◌<◌, length, Ok, MatchResult};
ghost use Rattle.books.specs.Layout.{room_of, places_at};
ghost use Rattle.books.specs.View.{head_in, rows_of};
ghost use Rattle.chains.specs.Chain.{half, Clear};
ghost use Rattle.store.specs.Indexing.{Indexed};
ghost use Rattle.rules.specs.Testing.{state_ok};
ghost use Rattle.state.specs.Whole.{parts_ok};
ghost use Rattle.lines.specs.Splitting.{whole};
ghost use Rattle.calls.specs.Calling.{call_number, closing_number, bytes_said, answer_said, closing_said, record_left, recorded, closing_left, closed};
ghost use Rattle.calls.specs.Blocks.{took, block_left, one_by_one, lines_of, asked, blocked};
ghost use Rattle.calls.specs.Indexing.{Linkable, most_places};
ghost use Rattle.calls.specs.declared.CallError.{CallError};

use chains::Rows;
use store::Table;

// The least bytes of a buffer for an answer line, and for a closing line.
const ANSWER: usize = 32;

const CLOSING: usize = 96;

// How many places each size of an index is for, and how many slots: twice as many.
const FEW: usize = 512;

const FEW_SLOTS: usize = 1_024;

const MORE: usize = 8_192;

const MORE_SLOTS: usize = 16_384;

const MANY: usize = 65_536;

const MANY_SLOTS: usize = 131_072;

// Why a record or a block is refused: the buffer is too short (21), or the lent state breaks a rule (22).
#[derive(Clone, Copy, PartialEq, Eq, Debug)]
pub enum CallError {
    ShortBuffer,
    BadState,
}

// A refusal's number.
impl From<CallError> for u64 {
    ghost from_gives = { λ why n. n ≡ call_number why };

    fn from(why: CallError) -> u64 {
        match why {
            CallError::ShortBuffer => 21,
            CallError::BadState => 22,
        }
    }
}

// Why no closing line is written: the buffer is too short (21), the lent state breaks a rule (22), or no group has the place (5).
#[derive(Clone, Copy, PartialEq, Eq, Debug)]
pub enum ClosingError {
    ShortBuffer,
    BadState,
    Unlisted,
}

// A refusal's number.
impl From<ClosingError> for u64 {
    ghost from_gives = { λ why n. n ≡ closing_number why };

    fn from(why: ClosingError) -> u64 {
        match why {
            ClosingError::ShortBuffer => 21,
            ClosingError::BadState => 22,
            ClosingError::Unlisted => 5,
        }
    }
}

// What was taken of a block: how many lines, their bytes, and the bytes of their answer lines.
#[derive(Clone, Copy)]
pub struct Taken {
    pub count: usize,
    pub bytes: usize,
    pub written: usize,
}

// What a call is lent: a line alone, or a block, of which the lines that end in it are judged.
#[derive(Clone, Copy)]
enum Lent<'a> {
    Line(&'a [u8]),
    Block(&'a [u8]),
}

// kept: no plainer: heads and links stay two slices, since of a struct of two `&mut` each contract would have to say the references and lengths again
// Judges a line on words that meet every state rule, with their index and a buffer that has room: what it changes is stored, and its answer line
// stands at the buffer's start. Answers the line's bytes.
fn judge_line(mem: &mut [u64], heads: &[u16], links: &[u16], line: &[u8], to: &mut [u8]) -> usize
    requires mem_value { state_ok mem.old ≡ true }
    requires indexed { Indexed mem.old heads.now links.now }
    requires in_bounds { 32 ≤ length to.old }
    ensures { record_left (bytes_said result) mem.new to.new ≡ recorded mem.old line.now to.old }
{
    let rec = codec::read(line);
    let verdict = judge::judge(Table { mem, heads, links }, line, rec);
    edits::write_edit(mem, verdict.edit);
    answers::write_answer(line, rec, verdict.answer, to).unwrap()
}

// The index kept: where there is a place more than there were, it is linked.
fn link_place(mem: &[u64], places: usize, heads: &mut [u16], links: &mut [u16])
    requires { Linkable mem.now places heads.old links.old }
    ensures { Indexed mem.now heads.new links.new }
{
    let count = mem[books::PLACES_TAKEN] as usize;
    if places < count {
        let rows = Rows {
            mem,
            at: books::KEYS,
            width: books::KEY_WORDS,
            words: books::KEY_WORDS,
            count,
        };
        chains::link_row(rows, places, heads, links);
    }
}

// The lines that end in a text, judged one after the other on words that meet every state rule, while 32 bytes are left for the next answer line.
// The index is kept from line to line.
fn judge_lines(
    mem: &mut [u64],
    heads: &mut [u16],
    links: &mut [u16],
    text: &[u8],
    to: &mut [u8],
) -> Taken
    requires mem_value { state_ok mem.old ≡ true }
    requires indexed { Indexed mem.old heads.old links.old }
    requires mem_in_bounds { room_of mem.old ≤ length links.old }
    ensures { block_left (took (Ok result)) mem.new to.new ≡ one_by_one mem.old (whole [] text.now) to.old }
{
    // kept: no plainer: a turn goes on by its line's bytes and by its answer's, which the contract names, so there is no index to leave out
    let mut count = 0;
    let mut bytes = 0;
    let mut written = 0;
    while to.len() - written >= ANSWER {
        let line = lines::line_at(text, bytes);
        if line.len() == 0 {
            break;
        }
        let places = mem[books::PLACES_TAKEN] as usize;
        written += judge_line(mem, heads, links, line, &mut to[written..]);
        link_place(mem, places, heads, links);
        bytes += line.len();
        count += 1;
    }
    Taken {
        count,
        bytes,
        written,
    }
}

// The index made, in arrays that are clear: 22 where two places have one key.
#[tactic(auto, using(state::specs::Whole::parts_counted, state::specs::Whole::by_keys, store::specs::Indexing::key_rows, store::specs::Indexing::indexed))]
fn make_index(mem: &[u64], heads: &mut [u16], links: &mut [u16]) -> Result<(), CallError>
    requires mem_value { parts_ok mem.now ≡ true }
    requires clear { Clear heads.old links.old (head_in (rows_of mem.now) places_at) }
    ensures { MatchResult result
        (λ done. (state_ok mem.now ≡ true) × Indexed mem.now heads.new links.new)
        (λ why. (why ≡ CallError.BadState) × (state_ok mem.now ≡ false)) }
{
    let rows = Rows {
        mem,
        at: books::KEYS,
        width: books::KEY_WORDS,
        words: books::KEY_WORDS,
        count: mem[books::PLACES_TAKEN] as usize,
    };
    if !chains::chain_rows(rows, heads, links) {
        return Err(CallError::BadState);
    }
    Ok(())
}

// What is lent, judged with an index in arrays that are clear. 22 where two places have one key.
#[tactic(auto, using(state::specs::Whole::parts_counted, crate::specs::Indexing::most_enough, crate::specs::Indexing::clear_less, crate::specs::Taking::block_bad, crate::specs::Taking::block_judged))]
fn judge_indexed(
    mem: &mut [u64],
    lent: Lent,
    to: &mut [u8],
    heads: &mut [u16],
    links: &mut [u16],
) -> Result<Taken, CallError>
    requires mem_value { parts_ok mem.old ≡ true }
    requires in_bounds { 32 ≤ length to.old }
    requires clear { Clear heads.old links.old (most_places lent mem.old) }
    ensures { block_left (took result) mem.new to.new ≡ asked mem.old (lines_of lent.entry) to.old }
{
    make_index(mem, heads, links)?;
    match lent {
        Lent::Line(line) => Ok(Taken {
            count: 1,
            bytes: line.len(),
            written: judge_line(mem, heads, links, line, to),
        }),
        Lent::Block(text) => Ok(judge_lines(mem, heads, links, text, to)),
    }
}

// The same with arrays of its own, for so many places at most.
#[tactic(auto, using(chains::specs::Chain::clear))]
fn judge_within<const PLACES: usize, const SLOTS: usize>(
    mem: &mut [u64],
    lent: Lent,
    to: &mut [u8],
) -> Result<Taken, CallError>
    requires mem_value { parts_ok mem.old ≡ true }
    requires in_bounds { 32 ≤ length to.old }
    requires mem_bound { most_places lent mem.old ≤ PLACES }
    requires slots_nonzero { 0 < SLOTS }
    requires places_le_slots { PLACES ≤ SLOTS }
    requires slots_le_half { SLOTS ≤ half }
    ensures { block_left (took result) mem.new to.new ≡ asked mem.old (lines_of lent.entry) to.old }
{
    let mut heads = [0u16; SLOTS];
    let mut links = [0u16; PLACES];
    judge_indexed(mem, lent, to, &mut heads, &mut links)
}

// How many places the index has to hold: those taken for one line, and as many as there is room for where lines follow.
#[tactic(auto, using(state::specs::Whole::parts_counted))]
fn most_places(mem: &[u64], lent: Lent) -> usize
    requires { parts_ok mem.now ≡ true }
    ensures most { result ≡ most_places lent.entry mem.now }
    ensures enough { result ≤ 65_536 }
{
    match lent {
        Lent::Line(_) => mem[books::PLACES_TAKEN] as usize,
        Lent::Block(_) => store::room(mem.len()),
    }
}

// What is lent: 21, 22, or it is judged.
#[tactic(auto, using(crate::specs::Taking::block_short, crate::specs::Taking::block_bad, state::specs::Whole::parts_bad))]
fn judge_checked(mem: &mut [u64], lent: Lent, to: &mut [u8]) -> Result<Taken, CallError>
    ensures { block_left (took result) mem.new to.new ≡ asked mem.old (lines_of lent.entry) to.old }
{
    if to.len() < ANSWER {
        return Err(CallError::ShortBuffer);
    }
    if !state::parts_ok(mem) {
        return Err(CallError::BadState);
    }
    let most = most_places(mem, lent);
    if most <= FEW {
        return judge_within::<FEW, FEW_SLOTS>(mem, lent, to);
    }
    if most <= MORE {
        return judge_within::<MORE, MORE_SLOTS>(mem, lent, to);
    }
    judge_within::<MANY, MANY_SLOTS>(mem, lent, to)
}

// One record, lent as its line: 21 where the buffer has fewer than 32 bytes, 22 where the words break a state rule, and nothing is written.
// Else the line is judged, what it changes is stored, its answer line stands at the buffer's start, and its bytes are answered.
pub fn record(mem: &mut [u64], line: &[u8], to: &mut [u8]) -> Result<usize, CallError>
    ensures { record_left (answer_said result) mem.new to.new ≡ recorded mem.old line.now to.old }
{
    Ok(judge_checked(mem, Lent::Line(line), to)?.written)
}

// A block of lines: 21 where the buffer has fewer than 32 bytes, 22 where the words break a state rule, and nothing is written. Else the lines
// that end in the text are judged one after the other, as if each had been lent alone with what is left of the buffer. It stops before the first
// line for which fewer than 32 bytes are left; a last part without LF is not taken.
pub fn block(mem: &mut [u64], text: &[u8], to: &mut [u8]) -> Result<Taken, CallError>
    ensures { block_left (took result) mem.new to.new ≡ blocked mem.old text.now to.old }
{
    judge_checked(mem, Lent::Block(text), to)
}

// The closing line of the group at a place in listing order, from 0: 21 where the buffer has fewer than 96 bytes, 22 where the words break a
// state rule, 5 where no group has the place, and nothing is written. Else it stands at the buffer's start, and its bytes are answered.
#[tactic(auto, using(books::proofs::Judged::valid_counted, rules::specs::Meaning::exactly, crate::specs::Keeping::closing_short_buffer, crate::specs::Keeping::closing_bad_state))]
pub fn closing(mem: &[u64], place: usize, to: &mut [u8]) -> Result<usize, ClosingError>
    ensures { closing_left (closing_said result) to.new ≡ closed mem.now place to.old }
{
    if to.len() < CLOSING {
        return Err(ClosingError::ShortBuffer);
    }
    if !state::state_ok(mem) {
        return Err(ClosingError::BadState);
    }
    let totals = store::closing_totals(mem, place).ok_or(ClosingError::Unlisted)?;
    Ok(answers::write_closing(totals, to).unwrap())
}
