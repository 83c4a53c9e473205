// The verdict on a record, over the lent words: what it is answered, and what it changes.
#![tactic(auto)]

ghost use Rattle.std.specs.Prelude.{◌≡◌};
ghost use Rattle.laws.specs.Checks.{first};
ghost use Rattle.laws.specs.Rows.{Sheet};
ghost use Rattle.rulebook.specs.Lines.{group, symbol, open_day, ask, tell};
ghost use Rattle.rulebook.specs.Judging.{messages, reply, remember, book, deal_ruling, news_ruling, judge_request, judge_notice, judge};
ghost use Rattle.books.specs.View.{group_of, rows_of, view};
ghost use Rattle.books.specs.Rules.{Valid};
ghost use Rattle.store.specs.Finding.{mpid_word, named_by};
ghost use Rattle.rules.specs.Passing.{HasRow};
ghost use Rattle.codec.specs.Readings.{key_of, record_of};
ghost use Rattle.codec.specs.Lines.{InForm};
ghost use Rattle.edits.specs.InRows.{asking_words};
ghost use Rattle.rulings.specs.Rulings.{deal_said, news_said};
ghost use Rattle.rulings.specs.Standing.{Desk, SmallDeal, SmallNews};
ghost use Rattle.judge.specs.Verdicts.{outcome_letter, verdict_in_rows, given, settled, set_up, listing_checks, terms_of};
ghost use Rattle.judge.specs.Comparing.{Sided, Sided-prop, said_at, asking_said, same_said, Known, compared, requested};
ghost use Rattle.judge.specs.Kinds.{Short, SmallDeal-prop, SmallNews-prop};

use answers::Answer;
use books::Terms;
use checks::Refusal;
use codec::Reading;
use edits::{Asking, Deed, Edit, GroupShift, IDLE, SymbolShift};
use fields::Place;
use packing::Ident;
use rulings::{Deal, News};
use store::{Found, Key, Table};

// What becomes of a record, each with its letter.
#[derive(Clone, Copy)]
enum Outcome {
    Passed,
    Booked,
    Seen,
    Refused,
    SetAside,
}

impl From<Outcome> for u8 {
    ghost from_gives = { λ o b. b ≡ outcome_letter o };

    fn from(outcome: Outcome) -> u8 {
        match outcome {
            Outcome::Passed => b'P',
            Outcome::Booked => b'K',
            Outcome::Seen => b'S',
            Outcome::Refused => b'R',
            Outcome::SetAside => b'A',
        }
    }
}

// What a record is answered, and what it changes.
#[derive(Clone, Copy)]
pub struct Verdict {
    pub answer: Answer,
    pub edit: Edit,
}

// A request: its key, and what it asks for, with a side's letter and numbers in their forms.
#[derive(Clone, Copy)]
struct Request {
    key: Key,
    deal: Deal,
    ghost sided: { Sided deal } by { Sided-prop deal },
    ghost small: { SmallDeal deal } by { SmallDeal-prop deal },
}

// A notice: its number, and what it tells, with numbers in their forms.
#[derive(Clone, Copy)]
struct Notice {
    number: u64,
    news: News,
    ghost small: { SmallNews news } by { SmallNews-prop news },
}

// A verdict of its parts.
fn give(outcome: Outcome, number: u64, sent: u64, edit: Edit) -> Verdict
    ensures { result ≡ given (outcome_letter outcome) number sent edit }
{
    let outcome = u8::from(outcome);
    Verdict {
        answer: Answer {
            outcome,
            number,
            sent,
        },
        edit,
    }
}

// A number with no effect: P where it is 0 and R else. Nothing is sent.
// kept: a number and no `Refusal`, since it may be the word that a place remembers (docs/STATE.md)
fn reply(number: u64) -> Verdict
    ensures { (S : Sheet) → result ≡ verdict_in_rows S (reply number) }
{
    let sent = 0;
    if number == 0 {
        return give(Outcome::Passed, number, sent, Edit::Nothing);
    }
    give(Outcome::Refused, number, sent, Edit::Nothing)
}

// A G or an S judged, by the row that has its MPID or symbol ID: refused after O, where that row is one of those listed, and where the most are listed
// already; else its deed is done.
#[tactic(auto, using(std::proofs::lemmas::Bool::Decides::nat_tests), unfolding(laws::specs::Checks::first, crate::specs::Verdicts::set_up, crate::specs::Verdicts::answered))]
fn listing_verdict(
    opened: u64,
    row: usize,
    listed: usize,
    most: usize,
    deed: Deed,
) -> Result<Verdict, Refusal>
    ensures { settled result ≡ set_up (first (listing_checks opened row listed most)) (Edit.Listed deed) }
{
    if opened > 0 {
        return Err(Refusal::NotNow);
    }
    if row < listed {
        return Err(Refusal::AlreadyListed);
    }
    if listed >= most {
        return Err(Refusal::ListFull);
    }
    Ok(give(Outcome::Passed, 0, 0, Edit::Listed { deed }))
}

// A G judged: refused, or the group is listed, unblocked, with totals of 0.
fn group_verdict(mem: &[u64], mpid: u64, terms: Terms) -> Result<Verdict, Refusal>
    requires { Valid mem.now }
    ensures { settled result ≡ verdict_in_rows (rows_of mem.now) (judge (view mem.now) (group (mpid_word mpid) (terms_of terms))) }
{
    let listed = mem[books::GROUPS_LISTED] as usize;
    let row = rulings::find_group(mem, mpid);
    let group = GroupShift::Adds {
        mpid,
        terms,
        blocked: false,
        traded_buys: 0,
        traded_sells: 0,
    };
    let deed = Deed { group, ..IDLE };
    listing_verdict(mem[books::OPENED], row, listed, books::MOST_GROUPS, deed)
}

// An S judged: refused, or the symbol is listed, with neither bid nor offer known.
fn symbol_verdict(mem: &[u64], id: u64) -> Result<Verdict, Refusal>
    requires { Valid mem.now }
    ensures { settled result ≡ verdict_in_rows (rows_of mem.now) (judge (view mem.now) (symbol id)) }
{
    let listed = mem[books::SYMBOLS_LISTED] as usize;
    let row = store::find_word(mem, books::SYMBOLS, books::SYMBOL_WORDS, listed, id);
    let symbol = SymbolShift::Adds {
        id,
        bid: 0,
        offer: 0,
    };
    let deed = Deed { symbol, ..IDLE };
    listing_verdict(mem[books::OPENED], row, listed, books::MOST_SYMBOLS, deed)
}

// An O judged: refused once the day is open, or the day is opened.
fn open_verdict(mem: &[u64]) -> Result<Verdict, Refusal>
    requires { Valid mem.now }
    ensures { settled result ≡ verdict_in_rows (rows_of mem.now) (judge (view mem.now) open_day) }
{
    if mem[books::OPENED] > 0 {
        return Err(Refusal::NotNow);
    }
    Ok(give(Outcome::Passed, 0, 0, Edit::Opened))
}

// What a request asks for, as the table keeps it: 0 for a field that its kind has not.
// kept: no plainer: it asks that the side is one, which `From` cannot
fn asking_of(deal: Deal) -> Asking
    requires { Sided deal }
    ensures { result ≡ asking_words (deal_said deal) }
{
    let none = Asking {
        kind: 0,
        target: Ident {
            head: 0,
            middle: 0,
            tail: 0,
        },
        sym: 0,
        side: 0,
        size: 0,
        price: 0,
    };
    match deal {
        Deal::New {
            sym,
            side,
            size,
            price,
        } => Asking {
            kind: books::NEW,
            sym,
            side,
            size,
            price,
            ..none
        },
        Deal::Change {
            target,
            size,
            price,
        } => Asking {
            kind: books::CHANGE,
            target,
            size,
            price,
            ..none
        },
        Deal::Cancel { target } => Asking {
            kind: books::CANCEL,
            target,
            ..none
        },
        Deal::Block => Asking {
            kind: books::BLOCK,
            ..none
        },
        Deal::Unblock => Asking {
            kind: books::UNBLOCK,
            ..none
        },
    }
}

// Whether the request that begins at a word asks for the same: equal in kind and every field.
// kept: field by field where the words stand; an `Asking` read from them, to be compared by `==`, lists them just so and is no plainer
#[tactic(auto, using(std::proofs::lemmas::Bool::Decides::nat_tests), unfolding(crate::specs::Comparing::same_said, laws::specs::Checks::all_hold))]
fn same_asking(mem: &[u64], b: usize, asking: Asking) -> bool
    requires { HasRow mem.now b }
    ensures { result ≡ same_said (said_at mem.now b) (asking_said asking) }
{
    let target = Ident {
        head: mem[b + books::TARGET],
        middle: mem[b + books::TARGET_MIDDLE],
        tail: mem[b + books::TARGET_TAIL],
    };
    mem[b + books::KIND] == asking.kind
        && mem[b + books::SYMBOL] == asking.sym
        && mem[b + books::SIDE] == asking.side
        && mem[b + books::SIZE] == asking.size
        && mem[b + books::PRICE] == asking.price
        && target == asking.target
}

// A request judged whose key a place has: the remembered outcome and number again, or refused where it differs.
fn known_verdict(mem: &[u64], i: usize, request: Request) -> Result<Verdict, Refusal>
    requires { Known mem.now request.key i }
    ensures { settled result ≡ verdict_in_rows (rows_of mem.now) (compared (rows_of mem.now) i (requested request.key request.deal)) }
{
    let b = store::request_at(mem, i);
    if same_asking(mem, b, asking_of(request.deal)) {
        return Ok(reply(mem[b + books::NUMBER]));
    }
    Err(Refusal::OtherInstruction)
}

// How many order messages are to be sent for a request that passed: 1 for an N, M or C, else 0.
fn sent_for(deal: Deal) -> u64
    ensures { result ≡ messages (deal_said deal) }
{
    match deal {
        Deal::New { .. } => 1,
        Deal::Change { .. } => 1,
        Deal::Cancel { .. } => 1,
        Deal::Block => 0,
        Deal::Unblock => 0,
    }
}

// A request judged that takes a place: its ruling, remembered.
fn new_verdict(table: Table, group: usize, request: Request) -> Verdict
    requires { Desk table.mem.now (mpid_word request.key.owner) group }
    ensures { result ≡ verdict_in_rows (rows_of table.entry.mem.now) (remember (requested request.key request.deal) (deal_ruling (view table.entry.mem.now).ledger (group_of (rows_of table.entry.mem.now) group) (named_by request.key) (deal_said request.deal))) }
{
    let Request { key, deal } = request;
    let asking = asking_of(deal);
    match rulings::deal_ruling(table, group, key, deal) {
        Ok(deed) => {
            let number = 0;
            let edit = Edit::Remembered {
                key,
                asking,
                number,
                deed,
            };
            give(Outcome::Passed, number, sent_for(deal), edit)
        }
        Err(refusal) => {
            let number = u64::from(refusal);
            let edit = Edit::Remembered {
                key,
                asking,
                number,
                deed: IDLE,
            };
            give(Outcome::Refused, number, 0, edit)
        }
    }
}

// A request judged: refused where its desk is not listed, a known identifier, refused where the table is full, or as its ruling is.
fn request_verdict(table: Table, request: Request) -> Result<Verdict, Refusal>
    requires { Valid table.mem.now }
    ensures { settled result ≡ verdict_in_rows (rows_of table.entry.mem.now) (judge_request (view table.entry.mem.now) (requested request.key request.deal)) }
{
    let group = rulings::find_group(table.mem, request.key.owner);
    if group >= table.mem[books::GROUPS_LISTED] as usize {
        return Err(Refusal::NoDesk);
    }
    match store::find_place(table, request.key) {
        Found::At(i) => known_verdict(table.mem, i, request),
        Found::Free(_) => Ok(new_verdict(table, group, request)),
        Found::Full => Err(Refusal::TableFull),
    }
}

// A notice judged that is the next: booked (K) or set aside (A), and its number is taken.
fn next_verdict(table: Table, notice: Notice) -> Verdict
    requires { Valid table.mem.now }
    ensures { result ≡ verdict_in_rows (rows_of table.entry.mem.now) (book (news_ruling (view table.entry.mem.now).ledger (news_said notice.news))) }
{
    match rulings::news_ruling(table, notice.news) {
        Ok(deed) => give(Outcome::Booked, 0, 0, Edit::Taken { deed }),
        Err(refusal) => {
            let number = u64::from(refusal);
            give(Outcome::SetAside, number, 0, Edit::Taken { deed: IDLE })
        }
    }
}

// A notice judged: S, refused where it is too early, or the next.
fn notice_verdict(table: Table, notice: Notice) -> Result<Verdict, Refusal>
    requires { Valid table.mem.now }
    ensures { settled result ≡ verdict_in_rows (rows_of table.entry.mem.now) (judge_notice (view table.entry.mem.now) notice.number (news_said notice.news)) }
{
    let last = table.mem[books::LAST];
    let number = notice.number;
    if number <= last {
        return Ok(give(Outcome::Seen, 0, 0, Edit::Nothing));
    }
    if number > last + 1 {
        return Err(Refusal::TooEarly);
    }
    Ok(next_verdict(table, notice))
}

// The key that an MPID and an identifier make, packed from the line.
fn key_of(line: &[u8], mpid: Place, name: Place) -> Key
    requires { Short line.now mpid name }
    ensures { named_by result ≡ key_of line.now mpid name }
{
    Key {
        owner: packing::pack_mpid(line, mpid),
        name: packing::pack_identifier(line, name),
    }
}

// A request judged: refused before O, and after it by its key and what it asks for.
fn judge_request(table: Table, request: Request) -> Result<Verdict, Refusal>
    requires { Valid table.mem.now }
    ensures { settled result ≡ verdict_in_rows (rows_of table.entry.mem.now) (judge (view table.entry.mem.now) (ask (requested request.key request.deal))) }
{
    if table.mem[books::OPENED] == 0 {
        return Err(Refusal::NotNow);
    }
    request_verdict(table, request)
}

// A notice judged: refused before O, and after it by its number and what it tells.
fn judge_notice(table: Table, notice: Notice) -> Result<Verdict, Refusal>
    requires { Valid table.mem.now }
    ensures { settled result ≡ verdict_in_rows (rows_of table.entry.mem.now) (judge (view table.entry.mem.now) (tell notice.number (news_said notice.news))) }
{
    if table.mem[books::OPENED] == 0 {
        return Err(Refusal::NotNow);
    }
    notice_verdict(table, notice)
}

// A record judged as its kind is: refused with no effect, or a verdict.
fn judge_reading(table: Table, line: &[u8], rec: Reading) -> Result<Verdict, Refusal>
    requires valid { Valid table.mem.now }
    requires in_form { InForm line.now rec }
    ensures { settled result ≡ verdict_in_rows (rows_of table.entry.mem.now) (judge (view table.entry.mem.now) (record_of line.now rec)) }
{
    match rec {
        Reading::Broken => Err(Refusal::NotARecord),
        Reading::Group {
            mpid,
            gross_trade,
            net_trade,
            gross_open,
            net_open,
            gross_both,
            net_both,
            max_size,
            short_sales,
        } => {
            let terms = Terms {
                gross_trade,
                net_trade,
                gross_open,
                net_open,
                gross_both,
                net_both,
                max_size,
                short_sales: short_sales == b'Y',
            };
            group_verdict(table.mem, packing::pack_mpid(line, mpid), terms)
        }
        Reading::Symbol { id } => symbol_verdict(table.mem, id),
        Reading::Open => open_verdict(table.mem),
        Reading::New {
            name,
            mpid,
            symbol,
            side,
            size,
            price,
        } => {
            let key = key_of(line, mpid, name);
            let side = u64::from(side);
            let deal = Deal::New {
                sym: symbol,
                side,
                size,
                price,
            };
            judge_request(table, Request { key, deal })
        }
        Reading::Change {
            name,
            mpid,
            target,
            size,
            price,
        } => {
            let key = key_of(line, mpid, name);
            let target = packing::pack_identifier(line, target);
            let deal = Deal::Change {
                target,
                size,
                price,
            };
            judge_request(table, Request { key, deal })
        }
        Reading::Cancel { name, mpid, target } => {
            let key = key_of(line, mpid, name);
            let target = packing::pack_identifier(line, target);
            let deal = Deal::Cancel { target };
            judge_request(table, Request { key, deal })
        }
        Reading::Block { name, mpid } => {
            let key = key_of(line, mpid, name);
            let deal = Deal::Block;
            judge_request(table, Request { key, deal })
        }
        Reading::Unblock { name, mpid } => {
            let key = key_of(line, mpid, name);
            let deal = Deal::Unblock;
            judge_request(table, Request { key, deal })
        }
        Reading::Quote {
            number,
            symbol,
            bid,
            offer,
        } => {
            let news = News::Quote {
                sym: symbol,
                bid,
                offer,
            };
            judge_notice(table, Notice { number, news })
        }
        Reading::Fill {
            number,
            mpid,
            target,
            size,
            price,
        } => {
            let target = key_of(line, mpid, target);
            let news = News::Fill {
                target,
                size,
                price,
            };
            judge_notice(table, Notice { number, news })
        }
        Reading::Reduction {
            number,
            mpid,
            target,
            size,
        } => {
            let target = key_of(line, mpid, target);
            let news = News::Reduction { target, size };
            judge_notice(table, Notice { number, news })
        }
        Reading::CancelRefused {
            number,
            mpid,
            target,
        } => {
            let target = key_of(line, mpid, target);
            let news = News::CancelRefused { target };
            judge_notice(table, Notice { number, news })
        }
    }
}

// The verdict on a record that is read from the line: that of its kind, or its refusal.
// It is for `calls::record` alone, which has tried the words and read the line before, and is not offered to a host.
pub fn judge(table: Table, line: &[u8], rec: Reading) -> Verdict
    requires valid { Valid table.mem.now }
    requires in_form { InForm line.now rec }
    ensures { result ≡ verdict_in_rows (rows_of table.entry.mem.now) (judge (view table.entry.mem.now) (record_of line.now rec)) }
{
    match judge_reading(table, line, rec) {
        Ok(verdict) => verdict,
        Err(refusal) => reply(u64::from(refusal)),
    }
}
