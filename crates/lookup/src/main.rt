// The program: standard input to an index and queries, and their answers to standard output. What it writes for an input is `output_of` of
// crates/answers/specs/Output.antt: one refusal, or the answers of the query lines in order. Each piece that it hands to a write is shown to be the
// next piece of that. An input that cannot be read is no input: nothing is answered. A read or a write that fails is said on standard error, and ends
// the program with status 1.
#![tactic(auto)]

ghost use Rattle.std.specs.Prelude.{◌≡◌, ◌+◌, ◌≤◌, ◌<◌, length, take, drop, IfOk};
ghost use Rattle.std.specs.Io.KnownBytes.{Appends};
ghost use Rattle.refusals.specs.Refusals.{refusal_number};
ghost use Rattle.answers.specs.Output.{most_input, program_words, longest_answer, opened_of, output_of};
ghost use Rattle.lookup.specs.Pieces.{Next, Opened};

use refusals::Refusal;
use std::io::{Error, Read, Write};
use std::process::ExitCode;

// ---- reading

// Room for the most input and one byte more, by which too much of it shows.
fn room() -> [u8; answers::MOST_INPUT + 1]
    ensures { most_input + 1 ≡ length result }
{
    [0; answers::MOST_INPUT + 1]
}

// Reads until the input ends or the room is full.
fn read_input<R: Read>(reader: &mut R, space: &mut [u8]) -> Result<usize, Error>
    requires { length space.old ≡ most_input + 1 }
    ensures { IfOk result (λ len. len ≤ length space.new) }
{
    streams::read_input(reader, space)
}

// ---- writing

// Hands over the next piece of the output, after the `sent` bytes before it. It fails where a write did.
fn hand_over<W: Write>(writer: &mut W, input: &[u8], sent: usize, piece: &[u8]) -> Result<(), Error>
    requires { Next input.now sent piece.now }
    ensures { IfOk result (λ _. Appends (W.contents writer.old) (W.contents writer.new) (take (length piece.now) (drop sent (output_of input.now)))) }
{
    streams::write_text(writer, piece).map_err(|failed| failed.error)
}

// ---- answering

// Answers an input that is refused: with one 58 line of no touches.
fn refuse<W: Write>(
    writer: &mut W,
    input: &[u8],
    refusal: Refusal,
    out: &mut [u8],
) -> Result<(), Error>
    requires { (refusal_number refusal ≡ (opened_of input.now program_words).number) × (length out.old ≡ longest_answer) }
    ensures { IfOk result (λ _. Appends (W.contents writer.old) (W.contents writer.new) (output_of input.now)) }
{
    let len = frames::write_refusal(out, refusal.number(), 0).unwrap();
    hand_over(writer, input, 0, &out[..len])
}

// Answers the lines of an input that was opened, from `from` on, until all are answered or a write fails. Each turn goes on to the next line, which
// the answer to the one before tells.
fn answer_lines<W: Write>(
    writer: &mut W,
    input: &[u8],
    from: usize,
    words: &[u32],
    out: &mut [u8],
) -> Result<(), Error>
    requires { Opened input.now words.now from × (length out.old ≡ longest_answer) }
    ensures { IfOk result (λ _. Appends (W.contents writer.old) (W.contents writer.new) (output_of input.now)) }
{
    let mut sent: usize = 0;
    let mut at = from;
    while at < input.len() {
        let response = answers::respond_good(input, at, words, out);
        let len = response.written.unwrap();
        hand_over(writer, input, sent, &out[..len])?;
        sent += len;
        at = response.next;
    }
    Ok(())
}

// Opens the input, and answers its queries or refuses it.
fn answer_input<W: Write>(
    writer: &mut W,
    input: &[u8],
    words: &mut [u32],
    out: &mut [u8],
) -> Result<(), Error>
    requires { (length words.old ≡ program_words) × (length out.old ≡ longest_answer) }
    ensures { IfOk result (λ _. Appends (W.contents writer.old) (W.contents writer.new) (output_of input.now)) }
{
    let opened = answers::open(input, words);
    match opened.built {
        Ok(()) => answer_lines(writer, input, opened.at, words, out),
        Err(refused) => refuse(writer, input, refused.refusal, out),
    }
}

fn main(rt: HostRuntime) -> ExitCode {
    let mut space = room();
    let len = match read_input(&mut rt.stdin(), &mut space) {
        Ok(len) => len,
        Err(error) => {
            let what = "lookup: standard input cannot be read, so nothing is answered";
            streams::fail(&rt, what, &Some(error));
            return ExitCode::FAILURE;
        }
    };
    let mut words = [0u32; answers::INDEX_WORDS];
    let mut out = [0u8; answers::LONGEST_ANSWER];
    if let Err(error) = answer_input(&mut rt.stdout(), &space[..len], &mut words, &mut out) {
        let what = "lookup: standard output cannot be written, so the answers are not all there";
        streams::fail(&rt, what, &Some(error));
        return ExitCode::FAILURE;
    }
    ExitCode::SUCCESS
}
