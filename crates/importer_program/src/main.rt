// The program `importer`: standard input to a register, a settings line and a log, and what comes of them to standard output. What it writes for an
// input is `report_of` of crates/reports/specs/Report.antt: one refusal, or outcomes, pairs and an end; what it hands to a write is shown to be all of
// that. An input that cannot be read is no input: nothing is imported. A read or a write that fails is said on standard error, and ends the program
// with status 1.
#![tactic(auto)]

ghost use Rattle.std.specs.Prelude.{◌≡◌, ◌+◌, ◌≤◌, length, IfOk};
ghost use Rattle.std.specs.Io.KnownBytes.{Appends};
ghost use Rattle.reports.specs.Report.{most_input, longest_report, report_of};
ghost use Rattle.importer_program.specs.Sending.{Output};

use std::io::{Error, Read, Write};
use std::process::ExitCode;

// ---- reading

// Room for the most input and one byte more, by which too much of it shows.
fn room() -> [u8; reports::MOST_INPUT + 1]
    ensures { most_input + 1 ≡ length result }
{
    [0; reports::MOST_INPUT + 1]
}

// Reads until the input ends or the room is full.
fn read_input<R: Read>(reader: &mut R, space: &mut [u8]) -> Result<usize, Error>
    requires { length space.old ≡ most_input + 1 }
    ensures { IfOk result (λ len. len ≤ length space.new) }
{
    streams::read_input(reader, space)
}

// ---- writing

// Hands over the output: the first `len` bytes of the buffer. It fails where a write did.
fn hand_over<W: Write>(writer: &mut W, input: &[u8], len: usize, out: &[u8]) -> Result<(), Error>
    requires { Output input.now len out.now }
    ensures { IfOk result (λ _. Appends (W.contents writer.old) (W.contents writer.new) (report_of input.now)) }
{
    streams::write_text(writer, &out[..len]).map_err(|failed| failed.error)
}

// ---- importing

// Imports the input, and hands over what came of it, for which the buffer has the room.
fn import_input<W: Write>(writer: &mut W, input: &[u8], out: &mut [u8]) -> Result<(), Error>
    requires { length out.old ≡ longest_report }
    ensures { IfOk result (λ _. Appends (W.contents writer.old) (W.contents writer.new) (report_of input.now)) }
{
    let len = reports::report(input, out).unwrap();
    hand_over(writer, input, len, out)
}

fn main(rt: HostRuntime) -> ExitCode {
    let mut space = room();
    let len = match read_input(&mut rt.stdin(), &mut space) {
        Ok(len) => len,
        Err(error) => {
            let what = "importer: standard input cannot be read, so nothing is imported";
            streams::fail(&rt, what, &Some(error));
            return ExitCode::FAILURE;
        }
    };
    let mut out = [0u8; reports::LONGEST_REPORT];
    if let Err(error) = import_input(&mut rt.stdout(), &space[..len], &mut out) {
        let what = "importer: standard output cannot be written, so the import is not all there";
        streams::fail(&rt, what, &Some(error));
        return ExitCode::FAILURE;
    }
    ExitCode::SUCCESS
}
