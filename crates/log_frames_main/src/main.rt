// Shows what each of the five readers of an import's frames makes of lines good and damaged, and what the writers make of what was read.
// In the input a bar stands behind each line, so that a line may lack its line feed. The expected output was written by hand.
#![tactic(auto)]

use log_frames::{ImportEnd, ImportRefused, Log, Outcome, Pair};
use refusals::Refusal;
use std::io;

// What a writer answered, and what it left: the room that it was lent, and one byte beyond.
fn written<P: Print>(
    rt: &P,
    w: Result<usize, Refusal>,
    out: [u8; 64],
    room: usize,
) -> io::Result<()> {
    match w {
        Ok(len) => print!(rt; " wrote 0 {len} ")?,
        Err(refusal) => print!(rt; " wrote {} 0 ", refusal.number())?,
    }
    if room < 64 {
        rt.write_all(&out[..room + 1])?;
    }
    println!(rt)
}

fn put_log<P: Print>(rt: &P, room: usize, r: Log, name: [u8; 8]) -> io::Result<()> {
    let mut out = [46u8; 64];
    let len = r.len;
    if room <= 64 && len <= 8 {
        let w = log_frames::write_log(&mut out[..room], r.day, r.reading, &name[..len]);
        written(rt, w, out, room)?;
    }
    Ok(())
}

fn put_outcome<P: Print>(rt: &P, room: usize, case: u8, value: u16) -> io::Result<()> {
    let mut out = [46u8; 64];
    if room <= 64 {
        let w = log_frames::write_outcome(&mut out[..room], case, value);
        written(rt, w, out, room)?;
    }
    Ok(())
}

fn put_pair<P: Print>(
    rt: &P,
    room: usize,
    id: u16,
    week: u16,
    sum: u32,
    count: u16,
) -> io::Result<()> {
    let mut out = [46u8; 64];
    if room <= 64 {
        let w = log_frames::write_pair(&mut out[..room], id, week, sum, count);
        written(rt, w, out, room)?;
    }
    Ok(())
}

fn put_import_end<P: Print>(rt: &P, room: usize, outcomes: u16, pairs: u16) -> io::Result<()> {
    let mut out = [46u8; 64];
    if room <= 64 {
        let w = log_frames::write_import_end(&mut out[..room], outcomes, pairs);
        written(rt, w, out, room)?;
    }
    Ok(())
}

fn put_import_refusal<P: Print>(rt: &P, room: usize, part: u8, no: u8, at: u16) -> io::Result<()> {
    let mut out = [46u8; 64];
    if room <= 64 {
        let w = log_frames::write_import_refusal(&mut out[..room], part, no, at);
        written(rt, w, out, room)?;
    }
    Ok(())
}

// A typed name is read into 8 bytes; the writer is lent the line's length and then one byte less.
fn log<P: Print>(rt: &P, line: &[u8]) -> io::Result<()> {
    let mut name = [46u8; 8];
    let r = match log_frames::read_log(line, &mut name) {
        Ok(r) => r,
        Err(refusal) => {
            print!(rt; "4C {} 0 0 0 ", refusal.number())?;
            rt.write_all(&name)?;
            return println!(rt);
        }
    };
    print!(rt; "4C 0 {} {} {} ", r.day, r.reading, r.len)?;
    rt.write_all(&name)?;
    println!(rt)?;
    let n = line.len();
    if 0 < n {
        put_log(rt, n, r, name)?;
        put_log(rt, n - 1, r, name)?;
    }
    Ok(())
}

fn outcome<P: Print>(rt: &P, line: &[u8]) -> io::Result<()> {
    match log_frames::read_outcome(line) {
        Ok(Outcome { case, value }) => {
            println!(rt; "4F 0 {case} {value}")?;
            put_outcome(rt, 9, case, value)?;
            put_outcome(rt, 8, case, value)?;
        }
        Err(refusal) => println!(rt; "4F {}", refusal.number())?,
    }
    Ok(())
}

fn pair<P: Print>(rt: &P, line: &[u8]) -> io::Result<()> {
    match log_frames::read_pair(line) {
        Ok(
            Pair {
                id,
                week,
                sum,
                count,
            },
        ) => {
            println!(rt; "50 0 {id} {week} {sum} {count}")?;
            put_pair(rt, 23, id, week, sum, count)?;
            put_pair(rt, 22, id, week, sum, count)?;
        }
        Err(refusal) => println!(rt; "50 {}", refusal.number())?,
    }
    Ok(())
}

fn import_end<P: Print>(rt: &P, line: &[u8]) -> io::Result<()> {
    match log_frames::read_import_end(line) {
        Ok(ImportEnd { outcomes, pairs }) => {
            println!(rt; "5A 0 {outcomes} {pairs}")?;
            put_import_end(rt, 11, outcomes, pairs)?;
            put_import_end(rt, 10, outcomes, pairs)?;
        }
        Err(refusal) => println!(rt; "5A {}", refusal.number())?,
    }
    Ok(())
}

fn import_refusal<P: Print>(rt: &P, line: &[u8]) -> io::Result<()> {
    match log_frames::read_import_refusal(line) {
        Ok(
            ImportRefused {
                part,
                number: no,
                line: at,
            },
        ) => {
            println!(rt; "59 0 {part} {no} {at}")?;
            put_import_refusal(rt, 11, part, no, at)?;
            put_import_refusal(rt, 10, part, no, at)?;
        }
        Err(refusal) => println!(rt; "59 {}", refusal.number())?,
    }
    Ok(())
}

fn all<P: Print>(rt: &P, line: &[u8]) -> io::Result<()> {
    log(rt, line)?;
    outcome(rt, line)?;
    pair(rt, line)?;
    import_end(rt, line)?;
    import_refusal(rt, line)
}

// Each line of the input, up to its bar.
fn lines<P: Print>(rt: &P, input: &[u8]) -> io::Result<()> {
    for part in input.split_inclusive(|b| *b == b'|') {
        if let Some(line) = part.strip_suffix(b"|") {
            all(rt, line)?;
        }
    }
    Ok(())
}

fn main(rt: HostRuntime) -> io::Result<()> {
    let mut space = [0u8; 65536];
    let len = streams::read_input(&mut rt.stdin(), &mut space)?;
    lines(&rt, &space[..len])
}
