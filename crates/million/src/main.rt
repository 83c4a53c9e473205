// Reads a million lines and writes each back, a line of every kind in turn, and says how many came
// back the same.
#![tactic(auto)]

use std::io;

const TURNS: usize = 1_000_000;

// A line of every kind.
const LINES: [&[u8]; 12] = [
    b"G\tABCD\t5000000000\t5000000000\t2000000000\t2000000000\t6000000000\t6000000000\t25000\tN\n",
    b"S\t7\n",
    b"O\n",
    b"Q\t1\t7\t9990000\t10000000\n",
    b"N\tT1\tABCD\t7\tB\t100\t10000000\n",
    b"F\t2\tABCD\tT1\t40\t9990000\n",
    b"D\t3\tABCD\tT1\t60\n",
    b"C\tT3\tABCD\tT1\n",
    b"H\t4\tABCD\tT1\n",
    b"M\tT4\tABCD\tT1\t100\t10000000\n",
    b"B\tT5\tABCD\n",
    b"R\tT6\tABCD\n",
];

// Whether a line that is read and written back is the same.
fn comes_back(line: &[u8]) -> bool {
    let mut back = [0u8; 161];
    let Ok(count) = codec::write_record(line, codec::read(line), &mut back) else {
        return false;
    };
    back.get(..count) == Some(line)
}

fn main(rt: HostRuntime) -> io::Result<()> {
    let turns = LINES.iter().cycle().take(TURNS);
    let count = turns.filter(|line| comes_back(line)).count();
    println!(rt; "{count}")
}
