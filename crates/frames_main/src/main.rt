// Shows what each of the five readers makes of lines good and damaged, and what the writers make of what was read.
// In the input a bar stands after each line, so that a line may lack its line feed or have two.
// vectors.py, beside src/, made the files stdin and stdout from the rule of the frames alone; it shares nothing with the crates.
#![tactic(auto)]

use frames::{End, Name, Query, Refused, Row};
use refusals::Refusal;
use std::io;

// What a writer answered, and what it left: the room that it was lent, and one byte beyond.
fn written<P: Print>(
    rt: &P,
    w: Result<usize, Refusal>,
    out: [u8; 640],
    room: usize,
) -> io::Result<()> {
    match w {
        Ok(len) => print!(rt; " wrote 0 {len} ")?,
        Err(refusal) => print!(rt; " wrote {} 0 ", refusal.number())?,
    }
    if room < 640 {
        rt.write_all(&out[..room + 1])?;
    }
    println!(rt)
}

fn put_name<P: Print>(
    rt: &P,
    room: usize,
    r: Name,
    name: [u8; fields::LONGEST_NAME],
) -> io::Result<()> {
    let mut out = [46u8; 640];
    let len = r.len;
    if room <= 640 && len <= fields::LONGEST_NAME {
        let w = frames::write_name(&mut out[..room], r.id, &name[..len]);
        written(rt, w, out, room)?;
    }
    Ok(())
}

fn put_query<P: Print>(
    rt: &P,
    room: usize,
    r: Query,
    query: [u8; fields::LONGEST_NAME],
) -> io::Result<()> {
    let mut out = [46u8; 640];
    let len = r.len;
    if room <= 640 && len <= fields::LONGEST_NAME {
        let w = frames::write_query(
            &mut out[..room],
            r.measure,
            r.p,
            r.q,
            r.allowance,
            &query[..len],
        );
        written(rt, w, out, room)?;
    }
    Ok(())
}

fn put_row<P: Print>(rt: &P, room: usize, r: Row) -> io::Result<()> {
    let mut out = [46u8; 640];
    if room <= 640 {
        let w = frames::write_row(&mut out[..room], r.id, r.shared, r.size, r.least);
        written(rt, w, out, room)?;
    }
    Ok(())
}

fn put_end<P: Print>(rt: &P, room: usize, r: End) -> io::Result<()> {
    let mut out = [46u8; 640];
    if room <= 640 {
        let w = frames::write_end(&mut out[..room], r.rows, r.touches, r.p, r.q);
        written(rt, w, out, room)?;
    }
    Ok(())
}

fn put_refusal<P: Print>(rt: &P, room: usize, r: Refused) -> io::Result<()> {
    let mut out = [46u8; 640];
    if room <= 640 {
        let w = frames::write_refusal(&mut out[..room], r.number, r.touches);
        written(rt, w, out, room)?;
    }
    Ok(())
}

// The buffer that a reader was lent, as it left it.
fn buffer<P: Print>(rt: &P, len: usize, small: [u8; 8]) -> io::Result<()> {
    print!(rt; " {len} ")?;
    rt.write_all(&small)?;
    println!(rt)
}

fn show_name<P: Print>(rt: &P, r: Result<Name, Refusal>, small: [u8; 8]) -> io::Result<()> {
    match r {
        Ok(r) => {
            print!(rt; "4E 0 {}", r.id)?;
            buffer(rt, r.len, small)
        }
        Err(refusal) => {
            print!(rt; "4E {} 0", refusal.number())?;
            buffer(rt, 0, small)
        }
    }
}

fn show_query<P: Print>(rt: &P, r: Result<Query, Refusal>, small: [u8; 8]) -> io::Result<()> {
    match r {
        Ok(r) => {
            print!(rt; "51 0 {} {} {} {}", r.measure, r.p, r.q, r.allowance)?;
            buffer(rt, r.len, small)
        }
        Err(refusal) => {
            print!(rt; "51 {} 0 0 0 0", refusal.number())?;
            buffer(rt, 0, small)
        }
    }
}

// A name is read into 8 bytes, and again into a buffer of the longest name for the writer, which is lent the line's length and then one byte less.
fn name<P: Print>(rt: &P, line: &[u8]) -> io::Result<()> {
    let mut small = [46u8; 8];
    let r = frames::read_name(line, &mut small);
    show_name(rt, r, small)?;
    let mut large = [46u8; fields::LONGEST_NAME];
    let n = line.len();
    if let Ok(s) = frames::read_name(line, &mut large)
        && 0 < n
    {
        put_name(rt, n, s, large)?;
        put_name(rt, n - 1, s, large)?;
    }
    Ok(())
}

fn query<P: Print>(rt: &P, line: &[u8]) -> io::Result<()> {
    let mut small = [46u8; 8];
    let r = frames::read_query(line, &mut small);
    show_query(rt, r, small)?;
    let mut large = [46u8; fields::LONGEST_NAME];
    let n = line.len();
    if let Ok(s) = frames::read_query(line, &mut large)
        && 0 < n
    {
        put_query(rt, n, s, large)?;
        put_query(rt, n - 1, s, large)?;
    }
    Ok(())
}

fn row<P: Print>(rt: &P, line: &[u8]) -> io::Result<()> {
    match frames::read_row(line) {
        Ok(r) => {
            println!(rt; "52 0 {} {} {} {}", r.id, r.shared, r.size, r.least)?;
            put_row(rt, frames::ROW_LENGTH, r)?;
            put_row(rt, frames::ROW_LENGTH - 1, r)
        }
        Err(refusal) => println!(rt; "52 {}", refusal.number()),
    }
}

fn end<P: Print>(rt: &P, line: &[u8]) -> io::Result<()> {
    match frames::read_end(line) {
        Ok(r) => {
            println!(rt; "45 0 {} {} {} {}", r.rows, r.touches, r.p, r.q)?;
            put_end(rt, frames::END_LENGTH, r)?;
            put_end(rt, frames::END_LENGTH - 1, r)
        }
        Err(refusal) => println!(rt; "45 {}", refusal.number()),
    }
}

fn refusal<P: Print>(rt: &P, line: &[u8]) -> io::Result<()> {
    match frames::read_refusal(line) {
        Ok(r) => {
            println!(rt; "58 0 {} {}", r.number, r.touches)?;
            put_refusal(rt, frames::REFUSAL_LENGTH, r)?;
            put_refusal(rt, frames::REFUSAL_LENGTH - 1, r)
        }
        Err(refusal) => println!(rt; "58 {}", refusal.number()),
    }
}

fn all<P: Print>(rt: &P, line: &[u8]) -> io::Result<()> {
    name(rt, line)?;
    query(rt, line)?;
    row(rt, line)?;
    end(rt, line)?;
    refusal(rt, line)
}

// Each line of the input, up to its bar.
fn lines<P: Print>(rt: &P, input: &[u8]) -> io::Result<()> {
    for part in input.split_inclusive(|b| *b == b'|') {
        if let Some(line) = part.strip_suffix(b"|") {
            all(rt, line)?;
        }
    }
    Ok(())
}

// A name one byte too long is refused with 2, with room for its line and without.
fn long_name<P: Print>(rt: &P, room: usize) -> io::Result<()> {
    let long = [65u8; fields::LONGEST_NAME + 1];
    let mut out = [46u8; 640];
    if room <= 640 {
        let w = frames::write_name(&mut out[..room], 1, &long);
        written(rt, w, out, room)?;
    }
    Ok(())
}

fn long_query<P: Print>(rt: &P, room: usize) -> io::Result<()> {
    let long = [65u8; fields::LONGEST_NAME + 1];
    let mut out = [46u8; 640];
    if room <= 640 {
        let w = frames::write_query(&mut out[..room], 1, 2, 3, 4, &long);
        written(rt, w, out, room)?;
    }
    Ok(())
}

fn main(rt: HostRuntime) -> io::Result<()> {
    let mut space = [0u8; 65536];
    let len = streams::read_input(&mut rt.stdin(), &mut space)?;
    lines(&rt, &space[..len])?;
    long_name(&rt, 600)?;
    long_name(&rt, 3)?;
    long_query(&rt, 600)?;
    long_query(&rt, 3)
}
