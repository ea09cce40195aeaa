// Builds an index from each register of its input and writes the whole answer, by the protocol `build` of second/README.md: a case is a line, the
// slice's length in decimal, a space, and the register's bytes as hexadecimal pairs or `-`; its answer is the number, the line, and every word of
// the slice. Each word is 2779096485 before the build, so that a word that is left alone can be seen.
// Of a register of more than 262,144 bytes the first 262,144 count. A length above 131,072 is answered by an empty line. A last case without a line
// feed is not answered.
// vectors.py, beside src/, made the file stdin from the rule alone; stdout is what the second program answers to it: `second build <stdin >stdout`.
#![tactic(auto)]

ghost use Rattle.std.specs.Prelude.{◌≡◌, length};

use std::io;

// What was read of a case: the slice's length, whether the register has begun, how many of its bytes are stored, and the first digit of an open pair.
#[derive(Clone, Copy)]
struct Case {
    length: usize,
    begun: bool,
    count: usize,
    high: Option<u8>,
}

const NO_CASE: Case = Case {
    length: 0,
    begun: false,
    count: 0,
    high: None,
};

// Room for the words.
fn room() -> [u32; 131072]
    ensures { 131072 ≡ length result }
{
    [0; 131072]
}

// Room for the bytes of a register.
fn page() -> [u8; 262144]
    ensures { 262144 ≡ length result }
{
    [0; 262144]
}

// The words, each with a space before it.
fn put_words<P: Print>(rt: &P, words: &[u32]) -> io::Result<()> {
    for word in words {
        print!(rt; " {}", *word)?;
    }
    Ok(())
}

// Builds, and writes the answer.
fn answer<P: Print>(rt: &P, register: &[u8], words: &mut [u32]) -> io::Result<()> {
    words.fill(2779096485);
    let (number, line) = match register::build(register, words) {
        Ok(()) => (0, 0),
        Err(refused) => (refused.refusal.number(), refused.line),
    };
    print!(rt; "{number} {line}")?;
    put_words(rt, words)
}

// The end of a case.
fn ended<P: Print>(rt: &P, bytes: &[u8], words: &mut [u32], case: Case) -> io::Result<()> {
    let count = case.count;
    let length = case.length;
    if count <= bytes.len() && length <= words.len() {
        answer(rt, &bytes[..count], &mut words[..length])?;
    }
    Ok(())
}

// The value of a digit.
fn value(b: u8) -> Option<u8> {
    match b {
        b'0'..=b'9' => Some(b - b'0'),
        b'A'..=b'F' => Some(b - b'A' + 10),
        _ => None,
    }
}

// One more digit of the length, which is at most 1,000,000 then.
fn longer(case: Case, d: u8) -> Case {
    Case {
        length: case.length % 100000 * 10 + usize::from(d),
        begun: false,
        count: 0,
        high: None,
    }
}

// One more digit of the register.
fn digit(bytes: &mut [u8], case: Case, d: u8) -> Case {
    let mut next = case;
    match case.high {
        None => next.high = Some(d),
        Some(high) => {
            if case.count < bytes.len() {
                bytes[case.count] = high % 16 * 16 + d % 16;
                next.count = case.count + 1;
                next.high = None;
            }
        }
    }
    next
}

// One byte of the input.
fn step<P: Print>(
    rt: &P,
    bytes: &mut [u8],
    words: &mut [u32],
    case: Case,
    b: u8,
) -> io::Result<Case> {
    match b {
        b'\n' => {
            ended(rt, bytes, words, case)?;
            println!(rt)?;
            Ok(NO_CASE)
        }
        b' ' => Ok(Case {
            length: case.length,
            begun: true,
            count: 0,
            high: None,
        }),
        _ => Ok(match value(b) {
            None => case,
            Some(d) if case.begun => digit(bytes, case, d),
            Some(d) => longer(case, d),
        }),
    }
}

// The bytes of a chunk.
fn chunk<P: Print>(
    rt: &P,
    bytes: &mut [u8],
    words: &mut [u32],
    first: Case,
    input: &[u8],
) -> io::Result<Case> {
    let mut case = first;
    for b in input {
        case = step(rt, bytes, words, case, *b)?;
    }
    Ok(case)
}

fn main(rt: HostRuntime) -> io::Result<()> {
    let mut words = room();
    let mut bytes = page();
    let mut input = [0u8; 65536];
    let mut case = NO_CASE;
    for _ in 0..1000000000u64 {
        let got = streams::read_input(&mut rt.stdin(), &mut input)?;
        case = chunk(&rt, &mut bytes, &mut words, case, &input[..got])?;
        if got < input.len() {
            break;
        }
    }
    Ok(())
}
