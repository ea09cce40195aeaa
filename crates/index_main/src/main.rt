// Reads words from its input, one index a line, in decimal with spaces between, and writes the verdict of `good` for each line: 1 or 0.
// Of a line of more than 131,072 words the first 131,072 count; of a number its low 32 bits. A last line without a line feed is not judged.
// The lines of the file stdin; the verdicts in stdout were written by hand from docs/RULE.md:
// no words; two words; no names: three words; a word beyond the total; a posting announced and not there; a posting in no row; two names of size 3 with
// the same features; with words beyond the total; one word too few; ids not ascending; equal ids; the largest id, 65,535; an id of 65,536; sizes 2, each
// name in two lists of size 2; a size that its lists do not have; rows not ascending by feature; two rows of one size and feature; rows not ascending by
// size; a row of no ids; the first place is 1; a place that is not due; counts that sum to less than P; counts that sum to more than P; a list not
// ascending; an id twice in a list; an id that is no name; an id beyond all ids; a name in one list too few; a name in one list too many; a name of size
// 4 in a list of size 3; D of 4,294,967,295; three words of 4,294,967,295; thirty of them; one name of size 66, 67,
// 202 and 203, each of its features in a list of its own.
#![tactic(auto)]

ghost use Rattle.std.specs.Prelude.{◌≡◌, length};

use std::io;

// What was read of a line: how many words are stored, and the number being read, once it has a digit.
#[derive(Clone, Copy)]
struct Line {
    count: usize,
    number: Option<u32>,
}

const NO_LINE: Line = Line {
    count: 0,
    number: None,
};

// Room for the words of a line.
fn room() -> [u32; 131072]
    ensures { 131072 ≡ length result }
{
    [0; 131072]
}

// The line with one more digit.
fn digit(line: Line, d: u8) -> Line {
    let number = line
        .number
        .unwrap_or(0)
        .wrapping_mul(10)
        .wrapping_add(u32::from(d));
    Line {
        count: line.count,
        number: Some(number),
    }
}

// The line with its open number stored among the words.
fn closed(words: &mut [u32], line: Line) -> Line {
    let mut count = line.count;
    if let Some(number) = line.number {
        if count < words.len() {
            words[count] = number;
            count += 1;
        }
    }
    Line {
        count,
        number: None,
    }
}

// Writes the verdict of the words of a line.
fn verdict<P: Print>(rt: &P, words: &[u32], count: usize) -> io::Result<()> {
    if count <= words.len() {
        println!(rt; "{}", u64::from(index::good(&words[..count])))?;
    }
    Ok(())
}

// One byte of the input.
fn step<P: Print>(rt: &P, words: &mut [u32], line: Line, b: u8) -> io::Result<Line> {
    match b {
        b'0'..=b'9' => Ok(digit(line, b - b'0')),
        b'\n' => {
            let done = closed(words, line);
            verdict(rt, words, done.count)?;
            Ok(NO_LINE)
        }
        _ => Ok(closed(words, line)),
    }
}

// The bytes of a chunk.
fn chunk<P: Print>(rt: &P, words: &mut [u32], first: Line, bytes: &[u8]) -> io::Result<Line> {
    let mut line = first;
    for b in bytes {
        line = step(rt, words, line, *b)?;
    }
    Ok(line)
}

fn main(rt: HostRuntime) -> io::Result<()> {
    let mut words = room();
    let mut bytes = [0u8; 65536];
    let mut line = NO_LINE;
    for _ in 0..1000000000u64 {
        let got = streams::read_input(&mut rt.stdin(), &mut bytes)?;
        line = chunk(&rt, &mut words, line, &bytes[..got])?;
        if got < bytes.len() {
            break;
        }
    }
    Ok(())
}
