// Reading for the programs.
#![tactic(auto)]

ghost use Rattle.std.specs.Prelude.{◌≡◌, ◌+◌, ◌*◌, ◌≤◌, ◌<◌, length};
ghost use Rattle.input.specs.Hex.{hex_value};

use std::io;

// Reads until the buffer is full, the input ends or a read fails, and answers how many bytes the buffer then has.
pub fn read_full(input: &mut impl io::Read, to: &mut [u8]) -> usize
    ensures { result ≤ length to.new }
{
    // kept: no plainer: a turn reads what is left of the buffer, and goes on by as many bytes as came
    let mut count = 0;
    while count < to.len() {
        match input.read(&mut to[count..]) {
            Ok(0) | Err(_) => break,
            Ok(more) => count += more,
        }
    }
    count
}

// What a hex digit says, small letters alone; 0 for any other byte.
#[tactic(auto, unfolding(crate::specs::Hex::hex_value))]
pub fn hex_value(digit: u8) -> u8
    ensures value { result ≡ hex_value digit }
    ensures small { result < 16 }
{
    match digit {
        b'0'..=b'9' => digit - b'0',
        b'a'..=b'f' => digit - b'a' + 10,
        _ => 0,
    }
}

// The byte that two hex digits say.
pub fn hex_byte(high: u8, low: u8) -> u8
    ensures { result ≡ 16 * hex_value high + hex_value low }
{
    hex_value(high) * 16 + hex_value(low)
}
