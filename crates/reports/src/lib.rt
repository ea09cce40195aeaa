// An importer's input to the lines of its output: a register, a settings line and a log become outcomes, pairs and an end, or one refusal. Over lent
// bytes, so that a program has only to read and to write. The rule: docs/RULE.md, "The program importer"; the definitions: specs/.
#![tactic(auto)]

ghost use Rattle.std.specs.Prelude.{◌≡◌, ◌++◌, [], ◌∷◌, ◌+◌, ◌*◌, ◌≤◌, ◌<◌, length, take, drop};
ghost use Rattle.laws.specs.Lists.{tabulate};
ghost use Rattle.lines.specs.Lines.{joined};
ghost use Rattle.refusals.specs.Refusals.{refusal_number};
ghost use Rattle.fields.specs.Layouts.{written_in};
ghost use Rattle.fields.specs.Fitted.{fitting_of, fitted_of};
ghost use Rattle.log_frames.specs.Frames.{outcome_line_length, pair_line_length};
ghost use Rattle.weeks.specs.Pairs.{as_columns, room_of};
ghost use Rattle.importer.specs.Import.{as_outcomes, outcome_room, settings, most_lines};
ghost use Rattle.reports.specs.Report.{part_number, refusal_line, import_lines, settled_lines, report_of};
ghost use Rattle.reports.specs.Tables.{outcome_text, outcome_at, pair_text, pair_at, tables_text};

use refusals::{LineRefusal, Refusal};

// The most bytes of an input: 256 4E lines and 1,024 4C lines with the longest names, and a settings line.
pub const MOST_INPUT: usize = 519 * index::MOST_NAMES + 23 + 523 * importer::MOST_LINES;

// The words of its index: room for every register.
pub const INDEX_WORDS: usize = register::MOST_WORDS;

// The bytes of its longest output: a line for each outcome and each pair, and the end.
pub const LONGEST_REPORT: usize = log_frames::OUTCOME_LENGTH * importer::MOST_LINES
    + log_frames::PAIR_LENGTH * importer::MOST_LINES
    + log_frames::IMPORT_END_LENGTH;

// The parts of an input, each with the number by which a refusal names it.
#[derive(Clone, Copy)]
enum Part {
    Whole = 0,
    Register = 1,
    Settings = 2,
    Log = 3,
}

impl Part {
    // The number of a part.
    fn number(self) -> u8
        ensures { result ≡ part_number self }
    {
        self as u8
    }
}

// ---- the lines of an import

// Writes the 4F line of an outcome at the place of line k.
fn put_outcome(case: u32, value: u32, out: &mut [u8], k: usize)
    requires { (k ≤ most_lines) × (outcome_line_length * k + outcome_line_length ≤ length out.old) }
    ensures { out.new ≡ take (outcome_line_length * k) out.old ++ (outcome_text case value ++ drop (outcome_line_length * k + outcome_line_length) out.old) }
{
    let at = log_frames::OUTCOME_LENGTH * k;
    log_frames::write_outcome(
        &mut out[at..at + log_frames::OUTCOME_LENGTH],
        (case % 256) as u8,
        (value % 65536) as u16,
    )
    .unwrap();
}

// Writes the lines of the first n outcomes.
fn put_outcomes(cases: &[u32], values: &[u32], n: usize, out: &mut [u8])
    requires { (n ≤ most_lines) × (n ≤ outcome_room (as_outcomes cases.now values.now)) × (length out.old ≡ outcome_line_length * n) }
    ensures { out.new ≡ joined (tabulate (outcome_at (as_outcomes cases.now values.now)) n) }
{
    for k in 0..n {
        put_outcome(cases[k], values[k], out, k);
    }
}

// Writes the 50 line of a pair at the place of line k.
fn put_pair(id: u32, week: u32, sum: u32, count: u32, out: &mut [u8], k: usize)
    requires { (k ≤ most_lines) × (pair_line_length * k + pair_line_length ≤ length out.old) }
    ensures { out.new ≡ take (pair_line_length * k) out.old ++ (pair_text id week sum count ++ drop (pair_line_length * k + pair_line_length) out.old) }
{
    let at = log_frames::PAIR_LENGTH * k;
    log_frames::write_pair(
        &mut out[at..at + log_frames::PAIR_LENGTH],
        (id % 65536) as u16,
        (week % 65536) as u16,
        sum,
        (count % 65536) as u16,
    )
    .unwrap();
}

// Writes the lines of the first n pairs.
fn put_pairs(ids: &[u32], weeks: &[u32], sums: &[u32], counts: &[u32], n: usize, out: &mut [u8])
    requires { (n ≤ most_lines) × (n ≤ room_of (as_columns ids.now weeks.now sums.now counts.now)) × (length out.old ≡ pair_line_length * n) }
    ensures { out.new ≡ joined (tabulate (pair_at (as_columns ids.now weeks.now sums.now counts.now)) n) }
{
    for k in 0..n {
        put_pair(ids[k], weeks[k], sums[k], counts[k], out, k);
    }
}

// Writes the lines of n outcomes and m pairs, and the end, where they fit.
fn put_tables(
    n: usize,
    m: usize,
    cases: &[u32],
    values: &[u32],
    ids: &[u32],
    weeks: &[u32],
    sums: &[u32],
    counts: &[u32],
    out: &mut [u8],
) -> Result<usize, Refusal>
    requires { (n ≤ most_lines) × (n ≤ outcome_room (as_outcomes cases.now values.now)) × (m ≤ most_lines) × (m ≤ room_of (as_columns ids.now weeks.now sums.now counts.now)) }
    ensures { (written_in result ≡ fitting_of (tables_text n m (as_outcomes cases.now values.now) (as_columns ids.now weeks.now sums.now counts.now)) (length out.old)) × (out.new ≡ fitted_of (tables_text n m (as_outcomes cases.now values.now) (as_columns ids.now weeks.now sums.now counts.now)) out.old) }
{
    let first = log_frames::OUTCOME_LENGTH * n;
    let second = first + log_frames::PAIR_LENGTH * m;
    let total = second + log_frames::IMPORT_END_LENGTH;
    if out.len() < total {
        return Err(Refusal::NoRoom);
    }
    put_outcomes(cases, values, n, &mut out[..first]);
    put_pairs(ids, weeks, sums, counts, m, &mut out[first..second]);
    log_frames::write_import_end(&mut out[second..total], n as u16, m as u16).unwrap();
    Ok(total)
}

// ---- the parts of an input

// Writes a refusal of a part, where it fits.
fn refuse(part: Part, refused: LineRefusal, out: &mut [u8]) -> Result<usize, Refusal>
    ensures { (written_in result ≡ fitting_of (refusal_line (part_number part) (refusal_number refused.refusal) refused.line) (length out.old)) × (out.new ≡ fitted_of (refusal_line (part_number part) (refusal_number refused.refusal) refused.line) out.old) }
{
    let number = refused.refusal.number();
    let line = (refused.line % 65536) as u16;
    log_frames::write_import_refusal(out, part.number(), number, line)
}

// Imports the log, and writes its lines, where they fit.
fn report_log(
    log: &[u8],
    measure: u8,
    p: u16,
    q: u16,
    allowance: u32,
    words: &[u32],
    out: &mut [u8],
) -> Result<usize, Refusal>
    ensures { (written_in result ≡ fitting_of (joined (import_lines log.now words.now (settings measure p q allowance))) (length out.old)) × (out.new ≡ fitted_of (joined (import_lines log.now words.now (settings measure p q allowance))) out.old) }
{
    let mut cases = [0u32; importer::MOST_LINES];
    let mut values = [0u32; importer::MOST_LINES];
    let mut ids = [0u32; importer::MOST_LINES];
    let mut weeks = [0u32; importer::MOST_LINES];
    let mut sums = [0u32; importer::MOST_LINES];
    let mut counts = [0u32; importer::MOST_LINES];
    match importer::import(
        log,
        measure,
        p,
        q,
        allowance,
        words,
        &mut cases,
        &mut values,
        &mut ids,
        &mut weeks,
        &mut sums,
        &mut counts,
    ) {
        Ok(imported) => {
            let n = imported.lines as usize;
            let m = imported.pairs as usize;
            put_tables(n, m, &cases, &values, &ids, &weeks, &sums, &counts, out)
        }
        Err(refused) => refuse(Part::Log, refused, out),
    }
}

// Reads the settings line, and goes on to the log.
fn report_settled(line: &[u8], log: &[u8], words: &[u32], out: &mut [u8]) -> Result<usize, Refusal>
    ensures { (written_in result ≡ fitting_of (joined (settled_lines line.now log.now words.now)) (length out.old)) × (out.new ≡ fitted_of (joined (settled_lines line.now log.now words.now)) out.old) }
{
    let mut name = [0u8; 0];
    let Ok(read) = frames::read_query(line, &mut name) else {
        let refused = LineRefusal {
            refusal: Refusal::Malformed,
            line: 1,
        };
        return refuse(Part::Settings, refused, out);
    };
    report_log(
        log,
        read.measure,
        read.p,
        read.q,
        read.allowance,
        words,
        out,
    )
}

// Writes all that the importer makes of an input, where it fits.
pub fn report(input: &[u8], out: &mut [u8]) -> Result<usize, Refusal>
    ensures value { written_in result ≡ fitting_of (report_of input.now) (length out.old) }
    ensures out_after { out.new ≡ fitted_of (report_of input.now) out.old }
{
    if MOST_INPUT < input.len() {
        let refused = LineRefusal {
            refusal: Refusal::NoRoom,
            line: 0,
        };
        return refuse(Part::Whole, refused, out);
    }
    let mut words = [0u32; INDEX_WORDS];
    let at = answers::register_end(input);
    if let Err(refused) = register::build(&input[..at], &mut words) {
        return refuse(Part::Register, refused, out);
    }
    let end = lines::line_end(input, at);
    report_settled(&input[at..end], &input[end..], &words, out)
}
