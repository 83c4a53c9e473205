// The order that a request or a notice names, where it stands, and what becomes of it and its desk.
ghost use Rattle.books.specs.Refining.{Counted};
ghost use Rattle.rulings.specs.Standing.{Held};
ghost use Rattle.std.proofs.Props.{props};

use crate::{exchange, find_symbol, is_blocked, pay, tally_at, value_of};
use checks::{Figures, Refusal, Tally};
use edits::{Deed, GroupShift, IDLE, OrderShift};

// An order by its place, and the group whose it is.
#[derive(Clone, Copy)]
pub struct Target<'a> {
    pub mem: &'a [u64],
    pub group: usize,
    pub order: usize,
    ghost counted: { Counted mem.now },
    ghost held: { Held mem.now group order } by { Prim.hlevel props },
}

impl Target<'_> {
    ghost use Rattle.std.specs.Prelude.{◌≡◌, ◌+◌, ◌≤◌, length};
    ghost use Rattle.fields.specs.Series.{side_of};
    ghost use Rattle.rulebook.specs.Kept.{tested};
    ghost use Rattle.rulebook.specs.Judging.{change_ruling, cancel_ruling, fill_ruling, reduction_ruling, refused_ruling};
    ghost use Rattle.books.specs.Layout.{requests, request_start, width_of};
    ghost use Rattle.books.specs.View.{group_of, order_of, rows_of, view};
    ghost use Rattle.books.specs.Writing.{symbol_index};
    ghost use Rattle.checks.specs.Saying.{figures_said, tally_said};
    ghost use Rattle.checks.specs.Trying.{Measurable};
    ghost use Rattle.rulings.specs.Standing.{Small, tally_after};
    ghost use Rattle.rulings.specs.Rulings.{amended_with, marked_with, ruled, ruling_in_rows};
    ghost use Rattle.rulings.specs.Targets.{order_at, desk_at};

    // Where its request begins.
    fn request(self) -> usize
        ensures start { result ≡ request_start self.entry.mem.now self.entry.order }
        ensures words { result + width_of requests ≤ length self.entry.mem.now }
    {
        store::request_at(self.mem, self.order)
    }

    // The letter of its side.
    fn side(self) -> u64
        ensures { side_of result ≡ (order_at self.entry).ticket.side }
    {
        self.mem[self.request() + books::SIDE]
    }

    // The row of its symbol, or how many are listed.
    fn symbol(self) -> usize
        ensures { result ≡ symbol_index (rows_of self.entry.mem.now) (order_at self.entry).ticket.sym }
    {
        find_symbol(self.mem, self.mem[self.request() + books::SYMBOL])
    }

    // Its figures.
    fn figures(self) -> Figures
        ensures { figures_said result ≡ (order_at self.entry).figures }
    {
        let b = store::order_at(self.mem, self.order);
        Figures {
            price: self.mem[b + books::ORDER_PRICE],
            size: self.mem[b + books::ORDER_SIZE],
            done: self.mem[b + books::DONE],
            asked: self.mem[b + books::CANCEL_ASKED] > 0,
        }
    }

    // Its group's totals once it has other figures.
    fn tally_with(self, new: Figures) -> Tally
        requires { Small new.size new.price }
        ensures { tally_said result ≡ tally_after (rows_of self.entry.mem.now) self.entry.group (order_at self.entry) (figures_said new) }
    {
        let totals = tally_at(self.mem, self.group);
        exchange(self.side(), value_of(self.figures()), value_of(new), totals)
    }

    // It takes other figures, and its group the totals.
    fn amend(self, figures: Figures, t: Tally, group: GroupShift) -> Deed
        ensures { result ≡ amended_with self.entry.group self.entry.order figures t group }
    {
        Deed {
            order: OrderShift::Puts {
                order: self.order,
                figures,
                group: self.group,
                open_buys: t.ob,
                open_sells: t.os,
            },
            group,
            ..IDLE
        }
    }

    // It is worked: its group's traded values are set too, and the group's block is tested.
    fn work(self, figures: Figures, t: Tally) -> Deed
        requires { Measurable self.mem.now self.group t }
        ensures { result ≡ amended_with self.entry.group self.entry.order figures t (marked_with self.entry.group (tested (desk_at self.entry) (tally_said t)).blocked t) }
    {
        let group = GroupShift::Puts {
            group: self.group,
            blocked: is_blocked(self.mem, self.group, t),
            traded_buys: t.tb,
            traded_sells: t.ts,
        };
        self.amend(figures, t, group)
    }

    // An M judged: 9, 17, 10, 12, 16, 13, 14, 31 to 36, or size and price are set.
    pub fn change(self, size: u64, price: u64) -> Result<Deed, Refusal>
        requires { Small size price }
        ensures { ruled result ≡ ruling_in_rows (rows_of self.entry.mem.now) (change_ruling (view self.entry.mem.now).ledger (desk_at self.entry) size price (order_at self.entry)) }
    {
        let old = self.figures();
        let new = Figures { size, price, ..old };
        let t = self.tally_with(new);
        let symbol = self.symbol();
        checks::try_change(
            self.mem,
            self.group,
            symbol,
            t,
            self.side(),
            old,
            size,
            price,
        )?;
        Ok(self.amend(new, t, GroupShift::Stay))
    }

    // A C judged: 9, 17, or the cancel is asked for.
    pub fn cancel(self) -> Result<Deed, Refusal>
        ensures { ruled result ≡ ruling_in_rows (rows_of self.entry.mem.now) (cancel_ruling (order_at self.entry)) }
    {
        let old = self.figures();
        checks::try_cancel(old)?;
        let new = Figures { asked: true, ..old };
        Ok(self.amend(new, self.tally_with(new), GroupShift::Stay))
    }

    // An H judged: 9, or the cancel is no longer asked for.
    pub fn keep(self) -> Result<Deed, Refusal>
        ensures { ruled result ≡ ruling_in_rows (rows_of self.entry.mem.now) (refused_ruling (desk_at self.entry) (order_at self.entry)) }
    {
        let old = self.figures();
        checks::try_refused(old)?;
        let new = Figures {
            asked: false,
            ..old
        };
        Ok(self.amend(new, self.tally_with(new), GroupShift::Stay))
    }

    // An F judged: 9, 19, 20, or it is booked.
    pub fn fill(self, size: u64, price: u64) -> Result<Deed, Refusal>
        requires { Small size price }
        ensures { ruled result ≡ ruling_in_rows (rows_of self.entry.mem.now) (fill_ruling (view self.entry.mem.now).ledger.orders size price (desk_at self.entry) (order_at self.entry)) }
    {
        let old = self.figures();
        let new = Figures {
            done: old.done + size,
            ..old
        };
        let t = pay(self.side(), size * price, self.tally_with(new));
        checks::try_fill(t, old, size)?;
        Ok(self.work(new, t))
    }

    // A D judged: 9, 19, or it is booked.
    pub fn reduce(self, size: u64) -> Result<Deed, Refusal>
        requires { size ≤ 1_000_000 }
        ensures { ruled result ≡ ruling_in_rows (rows_of self.entry.mem.now) (reduction_ruling (view self.entry.mem.now).ledger.orders size (desk_at self.entry) (order_at self.entry)) }
    {
        let old = self.figures();
        checks::try_reduction(old, size)?;
        let new = Figures {
            done: old.done + size,
            ..old
        };
        Ok(self.work(new, self.tally_with(new)))
    }
}
