// What judging changes, by the rows that it found, and the lent words after it.
#![tactic(auto)]

ghost use Rattle.std.specs.Prelude.{◌≡◌, ◌≤◌, [], ◌∷◌};
ghost use Rattle.laws.specs.Rows.{sheet, run, region};
ghost use Rattle.books.specs.Layout.{layout, room_of, width_of, last_at};
ghost use Rattle.books.specs.View.{head_in, rows_of};
ghost use Rattle.books.specs.Writing.{store_at, head_store};
ghost use Rattle.edits.specs.Storing.{figures_stored, open_stored, order_stored, group_stored, symbol_stored, deed_stored, born, asked_stored, place_stored, edit_stored, Storable};
ghost use Rattle.edits.specs.Lending.{number_in, CanStore, Stores};

use books::Terms;
use checks::Figures;
use packing::Ident;
use store::Key;

// What a request asks for, as the table keeps it: 0 for a field that its kind has not.
// kept: letters and 0 in place of an enum, since these are the words of a request's row; what may not change: `said` and `asking_words`.
#[derive(Clone, Copy)]
pub struct Asking {
    pub kind: u64,
    pub target: Ident,
    pub sym: u64,
    pub side: u64,
    pub size: u64,
    pub price: u64,
}

// A new order counted, or one amended, with the open values of its desk after it.
#[derive(Clone, Copy)]
pub enum OrderShift {
    Stay,
    Adds {
        figures: Figures,
        group: usize,
        open_buys: u64,
        open_sells: u64,
    },
    Puts {
        order: usize,
        figures: Figures,
        group: usize,
        open_buys: u64,
        open_sells: u64,
    },
}

// A group listed, or its block and its traded values set.
#[derive(Clone, Copy)]
pub enum GroupShift {
    Stay,
    Adds {
        mpid: u64,
        terms: Terms,
        blocked: bool,
        traded_buys: u64,
        traded_sells: u64,
    },
    Puts {
        group: usize,
        blocked: bool,
        traded_buys: u64,
        traded_sells: u64,
    },
}

// A symbol listed, or its quotes set.
#[derive(Clone, Copy)]
pub enum SymbolShift {
    Stay,
    Adds { id: u64, bid: u64, offer: u64 },
    Puts { symbol: usize, bid: u64, offer: u64 },
}

// A deed: at most one order, one group and one symbol.
#[derive(Clone, Copy)]
pub struct Deed {
    pub order: OrderShift,
    pub group: GroupShift,
    pub symbol: SymbolShift,
}

// A deed by which nothing is changed.
pub const IDLE: Deed = Deed {
    order: OrderShift::Stay,
    group: GroupShift::Stay,
    symbol: SymbolShift::Stay,
};

// The column "effect" of document 01's table of outcomes.
#[derive(Clone, Copy)]
pub enum Edit {
    Nothing,
    Opened,
    Listed {
        deed: Deed,
    },
    Remembered {
        key: Key,
        asking: Asking,
        number: u64,
        deed: Deed,
    },
    Taken {
        deed: Deed,
    },
}

// The regions of the lent words.
#[derive(Clone, Copy)]
enum Region {
    Heads,
    Groups,
    Symbols,
    Keys,
    Requests,
    Orders,
}

impl Region {
    // The words of a row.
    fn width(self) -> usize
        ensures { result ≡ width_of (number_in self) }
    {
        match self {
            Region::Heads => books::HEAD_WORDS,
            Region::Groups => books::GROUP_WORDS,
            Region::Symbols => books::SYMBOL_WORDS,
            Region::Keys => books::KEY_WORDS,
            Region::Requests => books::REQUEST_WORDS,
            Region::Orders => books::ORDER_WORDS,
        }
    }

    // Where its rows begin, in words with room for so many places.
    fn base(self, room: usize) -> usize
        requires { room ≤ 65_535 }
        ensures { result ≡ (region (layout room) (number_in self)).base }
    {
        match self {
            Region::Heads => 0,
            Region::Groups => books::GROUPS,
            Region::Symbols => books::SYMBOLS,
            Region::Keys => books::KEYS,
            Region::Requests => books::KEYS + room * books::KEY_WORDS,
            Region::Orders => books::KEYS + room * books::KEY_WORDS + room * books::REQUEST_WORDS,
        }
    }
}

// The figures that a place is taken with: those of a new order; 0 and no cancel asked where there is none.
fn born_figures(shift: OrderShift) -> Figures
    ensures { result ≡ born shift }
{
    match shift {
        OrderShift::Adds { figures, .. } => figures,
        OrderShift::Stay | OrderShift::Puts { .. } => Figures {
            price: 0,
            size: 0,
            done: 0,
            asked: false,
        },
    }
}

// The lent words, and how many places they have room for.
#[derive(Drop)]
struct Lent<'a> {
    mem: &'a mut [u64],
    room: usize,
}

impl Lent<'_> {
    // Words in a row of a region from a cell on, and nothing else.
    fn put(&mut self, region: Region, line: usize, from: usize, words: &[u64])
        requires { CanStore self.old (store_at (number_in region) line from words.now ∷ []) }
        ensures { Stores self.old self.new (store_at (number_in region) line from words.now ∷ []) }
    {
        let at = region.base(self.room) + line * region.width() + from;
        store::put_row(self.mem, at, words);
    }

    // A word of the head.
    fn put_head(&mut self, from: usize, word: u64)
        requires { CanStore self.old (head_store from word ∷ []) }
        ensures { Stores self.old self.new (head_store from word ∷ []) }
    {
        self.put(Region::Heads, 0, from, &[word]);
    }

    // An order's figures.
    #[tactic(auto, unfolding(crate::specs::Storing::figures_stored))]
    fn put_figures(&mut self, order: usize, figures: Figures)
        requires { CanStore self.old (figures_stored order figures) }
        ensures { Stores self.old self.new (figures_stored order figures) }
    {
        let words = [
            figures.price,
            figures.size,
            figures.done,
            u64::from(figures.asked),
        ];
        self.put(Region::Orders, order, books::ORDER_PRICE, &words);
    }

    // A group's open values.
    #[tactic(auto, unfolding(crate::specs::Storing::open_stored))]
    fn put_open(&mut self, group: usize, buys: u64, sells: u64)
        requires { CanStore self.old (open_stored group buys sells) }
        ensures { Stores self.old self.new (open_stored group buys sells) }
    {
        self.put(Region::Groups, group, books::OPEN_BUYS, &[buys, sells]);
    }

    // An order amended, and the open values of its desk; of a new order those values alone, since its figures come with its place. Nothing where there is neither.
    #[tactic(auto, using(crate::specs::Parts::in_parts), unfolding(crate::specs::Storing::order_stored))]
    fn put_order(&mut self, shift: OrderShift)
        requires { CanStore self.old (order_stored shift) }
        ensures { Stores self.old self.new (order_stored shift) }
    {
        match shift {
            OrderShift::Stay => {}
            OrderShift::Adds {
                group,
                open_buys,
                open_sells,
                ..
            } => self.put_open(group, open_buys, open_sells),
            OrderShift::Puts {
                order,
                figures,
                group,
                open_buys,
                open_sells,
            } => {
                self.put_figures(order, figures);
                self.put_open(group, open_buys, open_sells);
            }
        }
    }

    // A group listed after so many, with open values of 0, and the count raised; or a group's block and traded values. Nothing where neither is.
    #[tactic(auto, using(crate::specs::Parts::in_parts), unfolding(crate::specs::Storing::group_stored, crate::specs::Storing::group_row))]
    fn put_group(&mut self, listed: usize, shift: GroupShift)
        requires { CanStore self.old (group_stored listed shift) }
        ensures { Stores self.old self.new (group_stored listed shift) }
    {
        match shift {
            GroupShift::Stay => {}
            GroupShift::Adds {
                mpid,
                terms,
                blocked,
                traded_buys,
                traded_sells,
            } => {
                let count = (listed + 1) as u64;
                let words = [
                    mpid,
                    terms.gross_trade,
                    terms.net_trade,
                    terms.gross_open,
                    terms.net_open,
                    terms.gross_both,
                    terms.net_both,
                    terms.max_size,
                    u64::from(terms.short_sales),
                    u64::from(blocked),
                    traded_buys,
                    traded_sells,
                    0,
                    0,
                ];
                self.put(Region::Groups, listed, books::GROUP_MPID, &words);
                self.put_head(books::GROUPS_LISTED, count);
            }
            GroupShift::Puts {
                group,
                blocked,
                traded_buys,
                traded_sells,
            } => {
                let words = [u64::from(blocked), traded_buys, traded_sells];
                self.put(Region::Groups, group, books::BLOCKED, &words);
            }
        }
    }

    // A symbol listed after so many, and the count raised; or a symbol's quotes. Nothing where neither is.
    #[tactic(auto, unfolding(crate::specs::Storing::symbol_stored))]
    fn put_symbol(&mut self, listed: usize, shift: SymbolShift)
        requires { CanStore self.old (symbol_stored listed shift) }
        ensures { Stores self.old self.new (symbol_stored listed shift) }
    {
        match shift {
            SymbolShift::Stay => {}
            SymbolShift::Adds { id, bid, offer } => {
                let count = (listed + 1) as u64;
                self.put(Region::Symbols, listed, books::SYMBOL_ID, &[id, bid, offer]);
                self.put_head(books::SYMBOLS_LISTED, count);
            }
            SymbolShift::Puts { symbol, bid, offer } => self.put(
                Region::Symbols,
                symbol,
                books::BID,
                &[bid, offer],
            ),
        }
    }

    // A deed: its order, its group and its symbol, by the counts as they were before it.
    #[tactic(auto, using(crate::specs::Parts::in_parts), unfolding(crate::specs::Storing::deed_stored))]
    fn put_deed(&mut self, deed: Deed)
        requires { CanStore self.old (deed_stored (sheet (layout self.old.room) self.old.mem.now) deed) }
        ensures { Stores self.old self.new (deed_stored (sheet (layout self.old.room) self.old.mem.now) deed) }
    {
        let groups = self.mem[books::GROUPS_LISTED] as usize;
        let symbols = self.mem[books::SYMBOLS_LISTED] as usize;
        self.put_order(deed.order);
        self.put_group(groups, deed.group);
        self.put_symbol(symbols, deed.symbol);
    }

    // A place's key, and its request with the number remembered.
    #[tactic(auto, unfolding(crate::specs::Storing::asked_stored))]
    fn put_asked(&mut self, place: usize, key: Key, asking: Asking, number: u64)
        requires { CanStore self.old (asked_stored place key asking number) }
        ensures { Stores self.old self.new (asked_stored place key asking number) }
    {
        let name = key.name;
        let target = asking.target;
        let request = [
            asking.kind,
            number,
            target.head,
            target.middle,
            target.tail,
            asking.sym,
            asking.side,
            asking.size,
            asking.price,
        ];
        self.put(
            Region::Keys,
            place,
            books::OWNER,
            &[key.owner, name.head, name.middle, name.tail],
        );
        self.put(Region::Requests, place, books::KIND, &request);
    }

    // A place taken, with its request and its figures, and the count raised.
    #[tactic(auto, using(crate::specs::Parts::in_parts), unfolding(crate::specs::Storing::place_stored))]
    fn put_place(&mut self, place: usize, key: Key, asking: Asking, number: u64, figures: Figures)
        requires { CanStore self.old (place_stored place key asking number figures) }
        ensures { Stores self.old self.new (place_stored place key asking number figures) }
    {
        let count = (place + 1) as u64;
        self.put_asked(place, key, asking, number);
        self.put_figures(place, figures);
        self.put_head(books::PLACES_TAKEN, count);
    }

    // An edit, by the head as it was before it.
    #[tactic(auto, using(crate::specs::Parts::in_parts), unfolding(crate::specs::Storing::edit_stored))]
    fn put_edit(&mut self, edit: Edit)
        requires storable { CanStore self.old (edit_stored (sheet (layout self.old.room) self.old.mem.now) edit) }
        requires last_at_bound { head_in (sheet (layout self.old.room) self.old.mem.now) last_at ≤ 4_294_967_295 }
        ensures { Stores self.old self.new (edit_stored (sheet (layout self.old.room) self.old.mem.now) edit) }
    {
        match edit {
            Edit::Nothing => {}
            Edit::Opened => self.put_head(books::OPENED, 1),
            Edit::Listed { deed } => self.put_deed(deed),
            Edit::Remembered {
                key,
                asking,
                number,
                deed,
            } => {
                let place = self.mem[books::PLACES_TAKEN] as usize;
                self.put_deed(deed);
                self.put_place(place, key, asking, number, born_figures(deed.order));
            }
            Edit::Taken { deed } => {
                let last = self.mem[books::LAST] + 1;
                self.put_deed(deed);
                self.put_head(books::LAST, last);
            }
        }
    }
}

// The lent words after an edit: its stores, and nothing else.
pub fn write_edit(mem: &mut [u64], edit: Edit)
    requires storable { Storable (room_of mem.old) mem.old (edit_stored (rows_of mem.old) edit) }
    requires last_at_bound { head_in (rows_of mem.old) last_at ≤ 4_294_967_295 }
    ensures { mem.new ≡ run (layout (room_of mem.old)) (edit_stored (rows_of mem.old) edit) mem.old }
{
    let room = store::room(mem.len());
    let mut lent = Lent { mem, room };
    lent.put_edit(edit);
}
