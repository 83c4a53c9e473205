// The day's lines: each read into its record, and records, answers and closing lines written.
#![tactic(auto)]

ghost use Rattle.std.specs.Prelude.{◌≡◌, List, replicate, ℕ, ◌-◌, ◌^◌, ◌<◌, eqb, length};
ghost use Rattle.std.specs.Fn.{FnOnceReturnsAtMut};
ghost use Rattle.codec.specs.Readings.{letter_of, read_line, reading};
ghost use Rattle.codec.specs.Writing.{fields_of, record_line};
ghost use Rattle.fields.specs.Out.{out, cursor, Leaves, put_fields, put_line, left, handed, wrote};

use fields::{Parsed, Place, WriteError, Writer};

// The most bytes of a line, its LF among them.
const LINE: usize = 161;

// A line's record: its kind with its own numbers, and where its texts stand in the line.
// kept: what may not change (`record_of`, and the theorems on readings): Broken is the rulebook's `broken`, and a side or a yes or no is its letter
// kept: what may not change (`read` answers a reading, and each writer takes any line with any reading): so no struct of the two
#[derive(Clone, Copy)]
pub enum Reading {
    Broken,
    Group {
        mpid: Place,
        gross_trade: u64,
        net_trade: u64,
        gross_open: u64,
        net_open: u64,
        gross_both: u64,
        net_both: u64,
        max_size: u64,
        short_sales: u8,
    },
    Symbol {
        id: u64,
    },
    Open,
    New {
        name: Place,
        mpid: Place,
        symbol: u64,
        side: u8,
        size: u64,
        price: u64,
    },
    Change {
        name: Place,
        mpid: Place,
        target: Place,
        size: u64,
        price: u64,
    },
    Cancel {
        name: Place,
        mpid: Place,
        target: Place,
    },
    Block {
        name: Place,
        mpid: Place,
    },
    Unblock {
        name: Place,
        mpid: Place,
    },
    Quote {
        number: u64,
        symbol: u64,
        bid: u64,
        offer: u64,
    },
    Fill {
        number: u64,
        mpid: Place,
        target: Place,
        size: u64,
        price: u64,
    },
    Reduction {
        number: u64,
        mpid: Place,
        target: Place,
        size: u64,
    },
    CancelRefused {
        number: u64,
        mpid: Place,
        target: Place,
    },
}

// A line as it is read: where its next field begins.
#[derive(Drop)]
struct Reader<'a> {
    line: &'a [u8],
    at: usize,
}

impl<'a> Reader<'a> {
    // The next field, a text: where it stands.
    fn text<F: FnOnce(&[u8], usize) -> Place>(&mut self, read: F) -> Place
        requires { F.IsAlwaysCallable read }
        ensures same_line { self.new.line ≡ self.old.line }
        ensures next { self.new.at ≡ result.to }
        ensures said { F.post read self.old.line self.old.at result }
    {
        let place = read(self.line, self.at);
        self.at = place.to;
        place
    }

    // The next field, a number or a letter: what it says.
    fn value<T, F: FnOnce(&[u8], usize) -> Parsed<T>>(&mut self, read: F) -> T
        requires { F.IsAlwaysCallable read }
        ensures same_line { self.new.line ≡ self.old.line }
        ensures said { F.post read self.old.line self.old.at (record { value = result; to = self.new.at }) }
    {
        let field = read(self.line, self.at);
        self.at = field.to;
        field.value
    }

    // Whether the last field ended before the line's last byte.
    fn is_at_end(&self) -> bool
        ensures { result ≡ eqb (length self.now.line.now - self.now.at) 1 }
    {
        self.line.len().saturating_sub(self.at) == 1
    }
}

// The record of a line of at most 160 bytes and its LF.
#[tactic(auto, unfolding(crate::specs::Readings::read_as, crate::specs::Readings::read_line))]
fn read_line(line: &[u8]) -> Reading
    ensures { result ≡ read_line line.now }
{
    let mut next = Reader { line, at: 1 };
    let rec = match fields::byte_at(line, 0) {
        b'G' => Reading::Group {
            mpid: next.text(fields::mpid_at),
            gross_trade: next.value(fields::limit_at),
            net_trade: next.value(fields::limit_at),
            gross_open: next.value(fields::limit_at),
            net_open: next.value(fields::limit_at),
            gross_both: next.value(fields::limit_at),
            net_both: next.value(fields::limit_at),
            max_size: next.value(fields::size_at),
            short_sales: next.value(fields::yes_no_at),
        },
        b'S' => Reading::Symbol {
            id: next.value(fields::serial_at),
        },
        b'O' => Reading::Open,
        b'N' => Reading::New {
            name: next.text(fields::identifier_at),
            mpid: next.text(fields::mpid_at),
            symbol: next.value(fields::serial_at),
            side: next.value(fields::side_at),
            size: next.value(fields::size_at),
            price: next.value(fields::price_at),
        },
        b'M' => Reading::Change {
            name: next.text(fields::identifier_at),
            mpid: next.text(fields::mpid_at),
            target: next.text(fields::identifier_at),
            size: next.value(fields::size_at),
            price: next.value(fields::price_at),
        },
        b'C' => Reading::Cancel {
            name: next.text(fields::identifier_at),
            mpid: next.text(fields::mpid_at),
            target: next.text(fields::identifier_at),
        },
        b'B' => Reading::Block {
            name: next.text(fields::identifier_at),
            mpid: next.text(fields::mpid_at),
        },
        b'R' => Reading::Unblock {
            name: next.text(fields::identifier_at),
            mpid: next.text(fields::mpid_at),
        },
        b'Q' => Reading::Quote {
            number: next.value(fields::serial_at),
            symbol: next.value(fields::serial_at),
            bid: next.value(fields::quoted_at),
            offer: next.value(fields::quoted_at),
        },
        b'F' => Reading::Fill {
            number: next.value(fields::serial_at),
            mpid: next.text(fields::mpid_at),
            target: next.text(fields::identifier_at),
            size: next.value(fields::size_at),
            price: next.value(fields::price_at),
        },
        b'D' => Reading::Reduction {
            number: next.value(fields::serial_at),
            mpid: next.text(fields::mpid_at),
            target: next.text(fields::identifier_at),
            size: next.value(fields::size_at),
        },
        b'H' => Reading::CancelRefused {
            number: next.value(fields::serial_at),
            mpid: next.text(fields::mpid_at),
            target: next.text(fields::identifier_at),
        },
        _ => return Reading::Broken,
    };
    if next.is_at_end() {
        return rec;
    }
    Reading::Broken
}

// The record of a lent line with its LF; Broken where the bytes break a form.
#[tactic(auto, unfolding(crate::specs::Readings::reading))]
pub fn read(line: &[u8]) -> Reading
    ensures { result ≡ reading line.now }
{
    if fields::is_ended(line) {
        return read_line(line);
    }
    Reading::Broken
}

// The letter of a reading's kind.
// kept: what may not change (docs/PROMISES.md names `codec::kind_letter`)
pub fn kind_letter(r: Reading) -> u8
    ensures { result ≡ letter_of r }
{
    match r {
        Reading::Broken => b'?',
        Reading::Group { .. } => b'G',
        Reading::Symbol { .. } => b'S',
        Reading::Open => b'O',
        Reading::New { .. } => b'N',
        Reading::Change { .. } => b'M',
        Reading::Cancel { .. } => b'C',
        Reading::Block { .. } => b'B',
        Reading::Unblock { .. } => b'R',
        Reading::Quote { .. } => b'Q',
        Reading::Fill { .. } => b'F',
        Reading::Reduction { .. } => b'D',
        Reading::CancelRefused { .. } => b'H',
    }
}

// A record's fields, each after a tab.
fn put_fields(to: &mut Writer, line: &[u8], rec: Reading)
    ensures { Leaves to.old to.new (put_fields (cursor to.old) (fields_of line.now rec)) }
{
    match rec {
        Reading::Broken | Reading::Open => {}
        Reading::Group {
            mpid,
            gross_trade,
            net_trade,
            gross_open,
            net_open,
            gross_both,
            net_both,
            max_size,
            short_sales,
        } => {
            to.put_text(line, mpid);
            to.put_numbers(gross_trade, net_trade);
            to.put_numbers(gross_open, net_open);
            to.put_numbers(gross_both, net_both);
            to.put_number(max_size);
            to.put_letter(short_sales);
        }
        Reading::Symbol { id } => to.put_number(id),
        Reading::New {
            name,
            mpid,
            symbol,
            side,
            size,
            price,
        } => {
            to.put_texts(line, name, mpid);
            to.put_number(symbol);
            to.put_letter(side);
            to.put_numbers(size, price);
        }
        Reading::Change {
            name,
            mpid,
            target,
            size,
            price,
        } => {
            to.put_texts(line, name, mpid);
            to.put_text(line, target);
            to.put_numbers(size, price);
        }
        Reading::Cancel { name, mpid, target } => {
            to.put_texts(line, name, mpid);
            to.put_text(line, target);
        }
        Reading::Block { name, mpid } | Reading::Unblock { name, mpid } => {
            to.put_texts(line, name, mpid);
        }
        Reading::Quote {
            number,
            symbol,
            bid,
            offer,
        } => {
            to.put_numbers(number, symbol);
            to.put_numbers(bid, offer);
        }
        Reading::Fill {
            number,
            mpid,
            target,
            size,
            price,
        } => {
            to.put_number(number);
            to.put_texts(line, mpid, target);
            to.put_numbers(size, price);
        }
        Reading::Reduction {
            number,
            mpid,
            target,
            size,
        } => {
            to.put_number(number);
            to.put_texts(line, mpid, target);
            to.put_number(size);
        }
        Reading::CancelRefused {
            number,
            mpid,
            target,
        } => {
            to.put_number(number);
            to.put_texts(line, mpid, target);
        }
    }
}

fn put_record(to: &mut [u8], line: &[u8], rec: Reading) -> usize
    ensures { out to.new result ≡ put_line (out to.old 0) (letter_of rec) (fields_of line.now rec) }
{
    let mut writer = Writer { to, at: 0 };
    writer.put(kind_letter(rec));
    put_fields(&mut writer, line, rec);
    writer.put(b'\n');
    writer.at
}

// Writes what `put` puts into a buffer of so many bytes, whole or not at all: it is put into memory of its own, and handed over from there.
pub fn write_whole<const MOST: usize, F: FnOnce(&mut [u8]) -> usize>(
    put: F,
    to: &mut [u8],
) -> Result<usize, WriteError>
    requires small { MOST < 2 ^ 63 }
    requires callable { F.IsAlwaysCallable put }
    ensures { (d : List ℕ) × (n : ℕ) × FnOnceReturnsAtMut F.FnOnce put (replicate MOST 0) n d × (left to.new result ≡ handed d n to.old) }
{
    let mut bytes = [0u8; MOST];
    let count = put(&mut bytes);
    fields::hand_over(&bytes, count, to)
}

// Writes a record's line, from its reading and the line that its texts stand in.
// kept: what may not change (docs/LOOK-BACK.md, b3): this and the writers of `answers` stay as b3 left them, so that exports and programs run the same
// code; `write_whole` stands for callers in other crates
pub fn write_record(line: &[u8], rec: Reading, to: &mut [u8]) -> Result<usize, WriteError>
    ensures { left to.new result ≡ wrote 161 (record_line line.now rec) to.old }
{
    let mut whole_line = [0u8; LINE];
    let count = put_record(&mut whole_line, line, rec);
    fields::hand_over(&whole_line, count, to)
}
