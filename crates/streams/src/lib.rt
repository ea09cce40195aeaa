// A reader to its end, and a text to a writer, by as many calls as it takes. A call that a signal interrupted is made again; any other failure is
// told, and never taken for an end. Used by the programs, over standard input and output.
#![tactic(auto)]

ghost use Rattle.std.specs.Prelude.{◌≤◌, ◌<◌, length, take, IfOk, IfErr};
ghost use Rattle.std.specs.Io.KnownBytes.{Appends, Consumes, IsAtEnd};

use std::io::{Error, ErrorKind, Read, Write};

// How often a read of the input, or a write of one text, that a signal interrupted is made again.
const PATIENCE: usize = 65536;

// Whether the call that just failed was interrupted by a signal before it moved a byte.
fn interrupted(error: &Error) -> bool {
    error.kind() == ErrorKind::Interrupted
}

// Reads until the input ends or the room is full, and answers how many bytes that are. How many calls it takes is for the reader to say, so nothing is
// counted.
pub fn read_input<R: Read>(reader: &mut R, space: &mut [u8]) -> Result<usize, Error>
    ensures within { IfOk result (λ len. len ≤ length space.new) }
    ensures bytes { IfOk result (λ len. Consumes (R.remaining reader.old) (R.remaining reader.new) (take len space.new)) }
    ensures end { IfOk result (λ len. len < length space.new → IsAtEnd (R.remaining reader.new)) }
{
    let mut done: usize = 0;
    let mut patience = PATIENCE;
    while done < space.len() {
        match reader.read(&mut space[done..]) {
            Ok(0) => return Ok(done),
            Ok(more) => done += more,
            Err(error) => {
                if patience == 0 || !interrupted(&error) {
                    return Err(error);
                }
                patience -= 1;
            }
        }
    }
    Ok(space.len())
}

// A text of which a write failed: how many of its bytes were taken before, and why it failed.
#[derive(Clone, Copy)]
pub struct Unwritten {
    pub taken: usize,
    pub error: Error,
}

// Writes the text, all of it unless a write fails. How many calls it takes is for the writer to say, so nothing is counted.
pub fn write_text<W: Write>(writer: &mut W, text: &[u8]) -> Result<(), Unwritten>
    ensures whole { IfOk result (λ _. Appends (W.contents writer.old) (W.contents writer.new) text.now) }
    ensures within { IfErr result (λ failed. failed.taken < length text.now) }
    ensures part { IfErr result (λ failed. Appends (W.contents writer.old) (W.contents writer.new) (take failed.taken text.now)) }
{
    let mut taken: usize = 0;
    let mut patience = PATIENCE;
    while taken < text.len() {
        match writer.write(&text[taken..]) {
            Ok(0) => {
                return Err(Unwritten {
                    taken,
                    error: Error::from(ErrorKind::WriteZero),
                });
            }
            Ok(more) => taken += more,
            Err(error) => {
                if patience == 0 || !interrupted(&error) {
                    return Err(Unwritten { taken, error });
                }
                patience -= 1;
            }
        }
    }
    Ok(())
}

// Says on standard error what failed, and why, in the system's words.
pub fn fail<R: Eprint + Alloc>(rt: &R, what: &str, failure: &Option<Error>) {
    let _ = match failure {
        None => eprintln!(rt; "{what}"),
        Some(error) => match format!(in rt.alloc(); "{error}") {
            Ok(text) => rt.eprintln(format_args!("{what}: {}", reason(text.as_str()))),
            Err(_) => eprintln!(rt; "{what}: {error}"),
        },
    };
}

// The system's words for a failure, without the number that std puts behind them.
fn reason(text: &str) -> &str {
    match text.split_once(" (os error ") {
        Some((words, _)) => words,
        None => text,
    }
}
