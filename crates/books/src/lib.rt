// The lent words: where each thing stands, and what is read from them and set in them together. What they say and what edits write is in
// specs/; docs/STATE.md has the map. There is no function here.
// kept: a rule of the project (no heap, lent words): kinds, sides, marks and numbers are words in rows, as docs/STATE.md has them
#![tactic(auto)]

// "up to 64 MPIDs and 256 symbols", and the most places that a table has.
pub const MOST_GROUPS: usize = 64;

pub const MOST_SYMBOLS: usize = 256;

pub const MOST_PLACES: usize = 65535;

// The words of a row of each region, and of a place.
pub const HEAD_WORDS: usize = 5;

pub const GROUP_WORDS: usize = 14;

pub const SYMBOL_WORDS: usize = 3;

pub const KEY_WORDS: usize = 4;

pub const REQUEST_WORDS: usize = 9;

pub const ORDER_WORDS: usize = 4;

pub const PLACE_WORDS: usize = KEY_WORDS + REQUEST_WORDS + ORDER_WORDS;

// Where the regions begin; that of requests begins after the keys of every place there is room for, and that of orders after the requests.
pub const GROUPS: usize = HEAD_WORDS;

pub const SYMBOLS: usize = GROUPS + MOST_GROUPS * GROUP_WORDS;

pub const KEYS: usize = SYMBOLS + MOST_SYMBOLS * SYMBOL_WORDS;

// The least words of a state: a head, groups and symbols.
pub const LEAST_WORDS: usize = KEYS;

// The head.
pub const OPENED: usize = 0;

pub const LAST: usize = 1;

pub const GROUPS_LISTED: usize = 2;

pub const SYMBOLS_LISTED: usize = 3;

pub const PLACES_TAKEN: usize = 4;

// A group's row.
pub const GROUP_MPID: usize = 0;

pub const GROSS_TRADE: usize = 1;

pub const NET_TRADE: usize = 2;

pub const GROSS_OPEN: usize = 3;

pub const NET_OPEN: usize = 4;

pub const GROSS_BOTH: usize = 5;

pub const NET_BOTH: usize = 6;

pub const MAX_SIZE: usize = 7;

pub const SHORT_SALES: usize = 8;

pub const BLOCKED: usize = 9;

pub const TRADED_BUYS: usize = 10;

pub const TRADED_SELLS: usize = 11;

pub const OPEN_BUYS: usize = 12;

pub const OPEN_SELLS: usize = 13;

// A symbol's row.
pub const SYMBOL_ID: usize = 0;

pub const BID: usize = 1;

pub const OFFER: usize = 2;

// A place's key: its owner's MPID, and the three words of the identifier.
pub const OWNER: usize = 0;

pub const NAME: usize = 1;

pub const NAME_MIDDLE: usize = 2;

pub const NAME_TAIL: usize = 3;

// A place's request: its kind's letter, the remembered number, the target's three words, and the other fields.
pub const KIND: usize = 0;

pub const NUMBER: usize = 1;

pub const TARGET: usize = 2;

pub const TARGET_MIDDLE: usize = 3;

pub const TARGET_TAIL: usize = 4;

pub const SYMBOL: usize = 5;

pub const SIDE: usize = 6;

pub const SIZE: usize = 7;

pub const PRICE: usize = 8;

// The order of a passed N.
pub const ORDER_PRICE: usize = 0;

pub const ORDER_SIZE: usize = 1;

pub const DONE: usize = 2;

pub const CANCEL_ASKED: usize = 3;

// The letters of requests' kinds and of sides, as in the line: B alone is a buy, and S, H and E are sells.
pub const NEW: u64 = 78;

pub const CHANGE: u64 = 77;

pub const CANCEL: u64 = 67;

pub const BLOCK: u64 = 66;

pub const UNBLOCK: u64 = 82;

pub const BUY: u64 = 66;

pub const SELL: u64 = 83;

// The most that a limit, a total or gross of both may be.
pub const CEILING: u64 = 4_000_000_000_000_000_000;

// A group's totals, as its closing line shows them.
#[derive(Clone, Copy, PartialEq, Eq)]
pub struct Totals {
    pub mpid: u64,
    pub traded_buys: u64,
    pub traded_sells: u64,
    pub open_buys: u64,
    pub open_sells: u64,
    pub blocked: bool,
}

// What a G sets for its group.
#[derive(Clone, Copy, PartialEq, Eq)]
pub struct Terms {
    pub gross_trade: u64,
    pub net_trade: u64,
    pub gross_open: u64,
    pub net_open: u64,
    pub gross_both: u64,
    pub net_both: u64,
    pub max_size: u64,
    pub short_sales: bool,
}
