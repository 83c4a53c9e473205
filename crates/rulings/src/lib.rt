// Requests and notices judged over the lent words: what is changed, or why it is refused.
#![tactic(auto)]

mod desks;
mod targets;

ghost use Rattle.std.specs.Prelude.{◌≡◌, ◌+◌, ◌≤◌, ◌<◌, IfOk};
ghost use Rattle.rulebook.specs.Lines.{is_buy};
ghost use Rattle.rulebook.specs.Kept.{tested};
ghost use Rattle.rulebook.specs.Judging.{deal_ruling, quote_ruling, news_ruling};
ghost use Rattle.fields.specs.Series.{side_of};
ghost use Rattle.books.specs.Layout.{groups};
ghost use Rattle.books.specs.View.{tally_in, group_of, rows_of, view};
ghost use Rattle.books.specs.Writing.{group_index, symbol_index};
ghost use Rattle.books.specs.Rules.{Valid};
ghost use Rattle.books.specs.Refining.{Counted};
ghost use Rattle.store.specs.Finding.{mpid_word, named_by};
ghost use Rattle.checks.specs.Saying.{figures_said, tally_said};
ghost use Rattle.checks.specs.Trying.{Measurable};
ghost use Rattle.rulings.specs.Counting.{exchanged, paid, value_said};
ghost use Rattle.rulings.specs.Standing.{Small, SmallDeal, SmallNews, Desk, Exchangeable, Payable};
ghost use Rattle.rulings.specs.Rulings.{deal_said, news_said, ruled, ruling_in_rows, order_place, spot_of};
ghost use Rattle.rulings.specs.Targets.{spot_said};

use checks::{Figures, Refusal, Tally};
use desks::OwnDesk;
use edits::{Deed, IDLE, SymbolShift};
use packing::Ident;
use store::{Found, Key, Table};
use targets::Target;

// What a request asks for.
#[derive(Clone, Copy)]
pub enum Deal {
    New {
        sym: u64,
        side: u64,
        size: u64,
        price: u64,
    },
    Change {
        target: Ident,
        size: u64,
        price: u64,
    },
    Cancel {
        target: Ident,
    },
    Block,
    Unblock,
}

// What a notice tells.
#[derive(Clone, Copy)]
pub enum News {
    Quote { sym: u64, bid: u64, offer: u64 },
    Fill { target: Key, size: u64, price: u64 },
    Reduction { target: Key, size: u64 },
    CancelRefused { target: Key },
}

// The group with an MPID, or how many are listed.
// kept: the count and no Option where there is none: what may not change (the clauses of find_group, and of checks for a symbol's row)
#[tactic(auto, using(store::specs::Finding::first_group))]
pub fn find_group(mem: &[u64], mpid: u64) -> usize
    requires { Counted mem.now }
    ensures { result ≡ group_index (rows_of mem.now) (mpid_word mpid) }
{
    let listed = mem[books::GROUPS_LISTED] as usize;
    store::find_word(mem, books::GROUPS, books::GROUP_WORDS, listed, mpid)
}

// The symbol with an ID, or how many are listed.
#[tactic(auto, using(store::specs::Finding::first_symbol))]
fn find_symbol(mem: &[u64], id: u64) -> usize
    requires { Counted mem.now }
    ensures { result ≡ symbol_index (rows_of mem.now) id }
{
    let listed = mem[books::SYMBOLS_LISTED] as usize;
    store::find_word(mem, books::SYMBOLS, books::SYMBOL_WORDS, listed, id)
}

// The place of the order with a key. No other place has the key of a passed N.
fn find_order(table: Table, key: Key) -> Option<usize>
    ensures { result ≡ order_place (rows_of table.entry.mem.now) (named_by key) }
{
    match store::find_place(table, key) {
        Found::At(i) => {
            let begins = store::request_at(table.mem, i);
            rules::opens(table.mem, begins).then_some(i)
        }
        Found::Free(_) => None,
        Found::Full => None,
    }
}

// A group's totals.
fn tally_at(mem: &[u64], group: usize) -> Tally
    requires counted { Counted mem.now }
    requires group_bound { group < 64 }
    ensures { tally_said result ≡ tally_in (rows_of mem.now groups group) }
{
    let b = books::GROUPS + group * books::GROUP_WORDS;
    Tally {
        tb: mem[b + books::TRADED_BUYS],
        ts: mem[b + books::TRADED_SELLS],
        ob: mem[b + books::OPEN_BUYS],
        os: mem[b + books::OPEN_SELLS],
    }
}

// What an order with these figures has open: remaining x price.
fn value_of(f: Figures) -> u64
    requires { Small f.size f.price }
    ensures { result ≡ value_said (figures_said f) }
{
    f.remaining() * f.price
}

// A tally in which an order's part of the open value of its side is exchanged for another.
#[tactic(auto, using(books::proofs::Refining::buy_read), unfolding(crate::specs::Counting::exchanged))]
fn exchange(side: u64, old: u64, new: u64, t: Tally) -> Tally
    requires { Exchangeable (is_buy (side_of side)) old new (tally_said t) }
    ensures { tally_said result ≡ exchanged (is_buy (side_of side)) old new (tally_said t) }
{
    if side == books::BUY {
        return Tally {
            ob: t.ob - old + new,
            ..t
        };
    }
    Tally {
        os: t.os - old + new,
        ..t
    }
}

// A tally in which a fill is counted for its side.
#[tactic(auto, using(books::proofs::Refining::buy_read), unfolding(crate::specs::Counting::paid))]
fn pay(side: u64, value: u64, t: Tally) -> Tally
    requires { Payable value (tally_said t) }
    ensures { tally_said result ≡ paid (is_buy (side_of side)) value (tally_said t) }
{
    if side == books::BUY {
        return Tally {
            tb: t.tb + value,
            ..t
        };
    }
    Tally {
        ts: t.ts + value,
        ..t
    }
}

// Whether a group is blocked after a booking: it was, or a metric is above its limit.
fn is_blocked(mem: &[u64], group: usize, t: Tally) -> bool
    requires { Measurable mem.now group t }
    ensures { result ≡ (tested (group_of (rows_of mem.now) group) (tally_said t)).blocked }
{
    let marked = mem[books::GROUPS + group * books::GROUP_WORDS + books::BLOCKED] > 0;
    marked || checks::try_limits(mem, group, t).is_err()
}

// A Q judged: 8, or both its quotes are set.
fn quote_ruling(table: Table, sym: u64, bid: u64, offer: u64) -> Result<Deed, Refusal>
    ensures { ruled result ≡ ruling_in_rows (rows_of table.entry.mem.now) (quote_ruling (view table.entry.mem.now).ledger.symbols (record { id = sym; bid = bid; offer = offer })) }
{
    let symbol = find_symbol(table.mem, sym);
    if symbol >= table.mem[books::SYMBOLS_LISTED] as usize {
        return Err(Refusal::NoSymbol);
    }
    Ok(Deed {
        symbol: SymbolShift::Puts { symbol, bid, offer },
        ..IDLE
    })
}

// The order with a key, of whichever desk: 5 where that is not listed, 9 where there is no such order.
#[tactic(auto, unfolding(crate::specs::Rulings::spot_of))]
fn find_target<'a>(table: Table<'a>, key: Key) -> Result<Target<'a>, Refusal>
    requires { Valid table.mem.now }
    ensures spot { spot_said result ≡ spot_of (rows_of table.entry.mem.now) (named_by key) }
    ensures words { IfOk result (λ t. t.mem.now ≡ table.entry.mem.now) }
{
    let group = find_group(table.mem, key.owner);
    if group >= table.mem[books::GROUPS_LISTED] as usize {
        return Err(Refusal::NoDesk);
    }
    let desk = OwnDesk {
        table,
        group,
        owner: key.owner,
    };
    desk.order(key.name)
}

// A request judged that is past the door of its desk, which is the group.
#[tactic(auto, unfolding(rulebook::specs::Judging::deal_ruling, laws::specs::Checks::first))]
pub fn deal_ruling(table: Table, group: usize, key: Key, deal: Deal) -> Result<Deed, Refusal>
    requires desk { Desk table.mem.now (mpid_word key.owner) group }
    requires small_deal { SmallDeal deal }
    ensures { ruled result ≡ ruling_in_rows (rows_of table.entry.mem.now) (deal_ruling (view table.entry.mem.now).ledger (group_of (rows_of table.entry.mem.now) group) (named_by key) (deal_said deal)) }
{
    let desk = OwnDesk {
        table,
        group,
        owner: key.owner,
    };
    match deal {
        Deal::New {
            sym,
            side,
            size,
            price,
        } => desk.add(key.name, sym, side, size, price),
        Deal::Change {
            target,
            size,
            price,
        } => desk.order(target)?.change(size, price),
        Deal::Cancel { target } => desk.order(target)?.cancel(),
        Deal::Block => Ok(desk.block(true)),
        Deal::Unblock => Ok(desk.block(false)),
    }
}

// A notice judged whose number is the next.
#[tactic(auto, unfolding(rulebook::specs::Judging::news_ruling))]
pub fn news_ruling(table: Table, news: News) -> Result<Deed, Refusal>
    requires valid { Valid table.mem.now }
    requires small_news { SmallNews news }
    ensures { ruled result ≡ ruling_in_rows (rows_of table.entry.mem.now) (news_ruling (view table.entry.mem.now).ledger (news_said news)) }
{
    match news {
        News::Quote { sym, bid, offer } => quote_ruling(table, sym, bid, offer),
        News::Fill {
            target,
            size,
            price,
        } => find_target(table, target)?.fill(size, price),
        News::Reduction { target, size } => find_target(table, target)?.reduce(size),
        News::CancelRefused { target } => find_target(table, target)?.keep(),
    }
}
