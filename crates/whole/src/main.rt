// Writes lines by `codec::write_whole`, handing it a call of this program's own that puts each.
//
// Standard input has lines, 4,096 bytes in all at most, each a byte, a tab and a text. Each is put into memory of 32 bytes, and written into a buffer of dots
// three times: with room to spare, with room for it, and with a byte less. Each time a line says how many bytes were written, or "no room", and then the buffer.
#![tactic(auto)]

ghost use Rattle.std.specs.Prelude.{◌≡◌, [], ◌∷◌};
ghost use Rattle.fields.specs.Out.{out, put_line, left, wrote};
ghost use Rattle.fields.specs.Parts.{said};
ghost use Rattle.fields.specs.Series.{tails};

use fields::{Place, WriteError, Writer};
use std::io;

// The most bytes of a line.
const MOST: usize = 32;

// Puts a byte, a field and an LF at a buffer's start, and answers where they end: past the buffer where they have no room there.
fn put_line(to: &mut [u8], first: u8, text: &[u8], at: Place) -> usize
    ensures { out to.new result ≡ put_line (out to.old 0) first (said text.now at ∷ []) }
{
    let mut writer = Writer { to, at: 0 };
    writer.put(first);
    writer.put_text(text, at);
    writer.put(b'\n');
    writer.at
}

// Writes such a line.
fn write_line(first: u8, text: &[u8], at: Place, to: &mut [u8]) -> Result<usize, WriteError>
    ensures { left to.new result ≡ wrote 32 (first ∷ tails (said text.now at ∷ [])) to.old }
{
    codec::write_whole::<MOST, _>(|buffer| put_line(buffer, first, text, at), to)
}

// Writes a line where there is room for so many bytes, and says what came of it.
fn test_room(rt: &impl Print, text: &[u8], room: usize) -> io::Result<()> {
    let mut buffer = [b'.'; 2 * MOST];
    let rest = Place {
        from: 2,
        to: text.len(),
    };
    let to = buffer.get_mut(..room).unwrap_or_default();
    match write_line(fields::byte_at(text, 0), text, rest, to) {
        Ok(count) => print!(rt; "{count}")?,
        Err(WriteError::NoRoom) => print!(rt; "no room")?,
    }
    print!(rt; "\t")?;
    rt.write_all(&buffer)?;
    println!(rt)
}

fn main(rt: HostRuntime) -> io::Result<()> {
    let mut input = [0; 4096];
    let count = input::read_full(&mut rt.stdin(), &mut input);
    for line in input[..count].split_inclusive(|byte| *byte == b'\n') {
        if let Some(text) = line.strip_suffix(b"\n") {
            test_room(&rt, text, 2 * MOST)?;
            test_room(&rt, text, line.len())?;
            test_room(&rt, text, text.len())?;
        }
    }
    Ok(())
}
