// Finds the list of a size and a feature in the words of each case of its input, by the protocol `list` of second/README.md: a case is a line of
// numbers in decimal with spaces between, the size, the feature, and the words of the index; its answer is where the list starts among the words,
// how many words it has, and these. How many and which they are is read out of the part that `list_for` hands back; only the start, which a part
// does not show, comes from `place_for_good`.
// Of a line of more than 131,072 words the first 131,072 count; of a size or a word its low 32 bits, of the feature its low 64. A last case without
// a line feed is not answered.
// The cases of the file stdin: no words; no rows; of two names A each list, features below, between and above those of the rows, other sizes, features
// of 2^32 and above, three of them with the low half of a row's; words beyond the total, words too few, words that are no good index; of LANE, LANES
// and PLANE features that one size has, that both have, and that none has; and of 256 names A. stdout is what the second program answers to it:
// `second list <stdin >stdout`.
#![tactic(auto)]

ghost use Rattle.std.specs.Prelude.{◌≡◌, length};
ghost use Rattle.lists.specs.Lists.{span_for};

use std::io;

// What was read of a case: its first two numbers, the size and the feature, how many words are stored, and the number being read, once it has a digit.
#[derive(Clone, Copy)]
struct Case {
    size: Option<u32>,
    feature: Option<u64>,
    count: usize,
    number: Option<u64>,
}

const NO_CASE: Case = Case {
    size: None,
    feature: None,
    count: 0,
    number: None,
};

// Room for the words.
fn room() -> [u32; 131072]
    ensures { 131072 ≡ length result }
{
    [0; 131072]
}

// The case with one more digit.
fn digit(case: Case, d: u8) -> Case {
    let mut next = case;
    next.number = Some(
        case.number
            .unwrap_or(0)
            .wrapping_mul(10)
            .wrapping_add(u64::from(d)),
    );
    next
}

// The case with its open number in its place.
fn closed(words: &mut [u32], case: Case) -> Case {
    let mut next = case;
    if let Some(number) = case.number {
        next.number = None;
        let low = (number % 4294967296) as u32;
        if case.size.is_none() {
            next.size = Some(low);
        } else if case.feature.is_none() {
            next.feature = Some(number);
        } else if case.count < words.len() {
            words[case.count] = low;
            next.count = case.count + 1;
        }
    }
    next
}

// Where the list starts among the words; 0 where there is none.
fn start_of(words: &[u32], size: u32, feature: u64) -> usize
    ensures { result ≡ (span_for words.now size feature).start }
{
    if !index::good(words) {
        return 0;
    }
    let place = lists::place_for_good(words, size, feature);
    place.start
}

// The words, each with a space before it.
fn put_words<P: Print>(rt: &P, words: &[u32]) -> io::Result<()> {
    for word in words {
        print!(rt; " {}", *word)?;
    }
    Ok(())
}

// Finds the list, and writes the answer.
fn answer<P: Print>(rt: &P, words: &[u32], size: u32, feature: u64) -> io::Result<()> {
    let list = lists::list_for(words, size, feature);
    print!(rt; "{} {}", start_of(words, size, feature), list.len())?;
    put_words(rt, list)?;
    println!(rt)
}

// The end of a case.
fn ended<P: Print>(rt: &P, words: &[u32], case: Case) -> io::Result<()> {
    let count = case.count;
    if count <= words.len() {
        answer(
            rt,
            &words[..count],
            case.size.unwrap_or(0),
            case.feature.unwrap_or(0),
        )?;
    }
    Ok(())
}

// One byte of the input.
fn step<P: Print>(rt: &P, words: &mut [u32], case: Case, b: u8) -> io::Result<Case> {
    match b {
        b'0'..=b'9' => Ok(digit(case, b - b'0')),
        b'\n' => {
            let done = closed(words, case);
            ended(rt, words, done)?;
            Ok(NO_CASE)
        }
        _ => Ok(closed(words, case)),
    }
}

// The bytes of a chunk.
fn chunk<P: Print>(rt: &P, words: &mut [u32], first: Case, bytes: &[u8]) -> io::Result<Case> {
    let mut case = first;
    for b in bytes {
        case = step(rt, words, case, *b)?;
    }
    Ok(case)
}

fn main(rt: HostRuntime) -> io::Result<()> {
    let mut words = room();
    let mut bytes = [0u8; 65536];
    let mut case = NO_CASE;
    for _ in 0..1000000000u64 {
        let got = streams::read_input(&mut rt.stdin(), &mut bytes)?;
        case = chunk(&rt, &mut words, case, &bytes[..got])?;
        if got < bytes.len() {
            break;
        }
    }
    Ok(())
}
