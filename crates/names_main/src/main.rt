// Runs `judge` and `features` at the edges of a name. Each line: the number, then how many features.
// The expected output was written by hand from docs/RULE.md.
#![tactic(auto)]

use std::io;

fn show<P: Print>(rt: &P, name: &[u8]) -> io::Result<()> {
    let number = refusals::number_in(names::judge(name));
    let set = names::features(name);
    println!(rt; "{number} {}", set.len)
}

fn main(rt: HostRuntime) -> io::Result<()> {
    // an empty name, one byte, the most bytes, one more
    show(&rt, b"")?;
    show(&rt, b"A")?;
    show(&rt, &[65u8; names::LONGEST])?;
    show(&rt, &[65u8; names::LONGEST + 1])?;
    // a 0 byte alone, first, in the middle, last
    show(&rt, &[0u8])?;
    show(&rt, &[0u8, 65, 66])?;
    show(&rt, &[65u8, 0, 66])?;
    show(&rt, &[65u8, 66, 0])?;
    // the most bytes, all 0, and one more: too long comes before the 0 byte
    show(&rt, &[0u8; names::LONGEST])?;
    show(&rt, &[0u8; names::LONGEST + 1])?;
    // a control character: a tab in the middle, 1 alone, 31 first, 127 last, and with a 0 byte, which comes before it
    show(&rt, &[65u8, 9, 66])?;
    show(&rt, &[1u8])?;
    show(&rt, &[31u8, 65])?;
    show(&rt, &[65u8, 127])?;
    show(&rt, &[9u8, 0])?;
    // the most bytes, all 1, and one more
    show(&rt, &[1u8; names::LONGEST])?;
    show(&rt, &[1u8; names::LONGEST + 1])?;
    // every other byte is a character like any: 32, 126, 128, 255
    show(&rt, &[32u8, 126, 128, 255])
}
