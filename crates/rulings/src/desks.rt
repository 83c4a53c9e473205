// A desk that is listed, and what it asks for.
ghost use Rattle.store.specs.Finding.{mpid_word};
ghost use Rattle.rulings.specs.Standing.{Desk};

use crate::targets::Target;
use crate::{exchange, find_order, find_symbol, tally_at, value_of};
use checks::{Figures, Refusal};
use edits::{Deed, GroupShift, IDLE, OrderShift};
use packing::Ident;
use store::{Key, Table};

// The group of an owner, in the table.
#[derive(Clone, Copy)]
pub struct OwnDesk<'a> {
    pub table: Table<'a>,
    pub group: usize,
    pub owner: u64,
    ghost listed: { ∥ Desk table.mem.now (mpid_word owner) group ∥₁ },
}

impl<'a> OwnDesk<'a> {
    ghost use Rattle.std.specs.Prelude.{◌≡◌, IfOk, Ok};
    ghost use Rattle.laws.specs.Tables.{stay, puts};
    ghost use Rattle.rulebook.specs.Kept.{new_order, blocking};
    ghost use Rattle.rulebook.specs.Judging.{deed, new_ruling};
    ghost use Rattle.rulebook.specs.Cases.{grant};
    ghost use Rattle.fields.specs.Series.{side_of};
    ghost use Rattle.books.specs.View.{group_of, rows_of, view};
    ghost use Rattle.store.specs.Finding.{named_by};
    ghost use Rattle.rulings.specs.Standing.{Small};
    ghost use Rattle.rulings.specs.Rulings.{ruled, ruling_in_rows, own_spot};
    ghost use Rattle.rulings.specs.Targets.{spot_said};

    // An N judged: 8, 10, 11, 12, 13, 14, 31 to 36, or its order is counted. Under which name is the contract's to say.
    pub fn add(
        self,
        name: Ident,
        sym: u64,
        side: u64,
        size: u64,
        price: u64,
    ) -> Result<Deed, Refusal>
        requires { Small size price }
        ensures { ruled result ≡ ruling_in_rows (rows_of self.entry.table.mem.now) (new_ruling (view self.entry.table.mem.now).ledger (group_of (rows_of self.entry.table.mem.now) self.entry.group) (new_order (named_by (record { owner = self.entry.owner; name = name })) sym (side_of side) size price)) }
    {
        let mem = self.table.mem;
        let group = self.group;
        let figures = Figures {
            price,
            size,
            done: 0,
            asked: false,
        };
        let t = exchange(side, 0, value_of(figures), tally_at(mem, group));
        let symbol = find_symbol(mem, sym);
        let counted = Deed {
            order: OrderShift::Adds {
                figures,
                group,
                open_buys: t.ob,
                open_sells: t.os,
            },
            ..IDLE
        };
        match checks::try_new(mem, group, symbol, t, side, size, price) {
            Ok(()) => Ok(counted),
            Err(refusal) => Err(refusal),
        }
    }

    // A B or an R judged: the block is set or lifted, and nothing stops it.
    pub fn block(self, blocked: bool) -> Deed
        ensures { ruled (Ok result) ≡ ruling_in_rows (rows_of self.entry.table.mem.now) (grant (deed stay (puts (blocking blocked (group_of (rows_of self.entry.table.mem.now) self.entry.group))) stay)) }
    {
        let t = tally_at(self.table.mem, self.group);
        Deed {
            group: GroupShift::Puts {
                group: self.group,
                blocked,
                traded_buys: t.tb,
                traded_sells: t.ts,
            },
            ..IDLE
        }
    }

    // The order of the desk that a name stands for: 9 where there is none.
    pub fn order(self, name: Ident) -> Result<Target<'a>, Refusal>
        ensures spot { spot_said result ≡ own_spot (rows_of self.entry.table.mem.now) self.entry.group (named_by (record { owner = self.entry.owner; name = name })) }
        ensures words { IfOk result (λ t. t.mem.now ≡ self.entry.table.mem.now) }
    {
        let key = Key {
            owner: self.owner,
            name,
        };
        let order = find_order(self.table, key).ok_or(Refusal::NotOpen)?;
        Ok(Target {
            mem: self.table.mem,
            group: self.group,
            order,
        })
    }
}
