// Imports a log: which registered name each line belongs to, and the readings by id and week. The rule: docs/RULE.md; the definitions: specs/.
// Of the lookup it uses the search and the check of an index, and nothing of how they are made.
#![tactic(auto)]

ghost use Rattle.std.specs.Prelude.{◌≡◌, true, ◌+◌, ◌≤◌, ◌<◌, length, take, MatchResult};
ghost use Rattle.lines.specs.Lines.{lines_of};
ghost use Rattle.fields.specs.Layouts.{is_frame};
ghost use Rattle.log_frames.specs.Frames.{log_frame};
ghost use Rattle.refusals.specs.Refusals.{refusal_number, outcome_number};
ghost use Rattle.index.specs.Good.{good_of};
ghost use Rattle.search.specs.Answers.{answer_in, rows_in};
ghost use Rattle.weeks.specs.Pairs.{as_columns};
ghost use Rattle.importer.specs.Import.{answer_to, listed_for, verdict_on, day_in, reading_in, outcome_from, outcome_of, case_of, value_of, judge_line, as_outcomes, outcome_room, settings, imported_in, most_lines};
ghost use Rattle.importer.specs.Steps.{AllGood, FirstBad, Taken, Entered, Imports};

use refusals::{LineRefusal, Refusal};
use search::Answer;

// The most lines of a log.
pub const MOST_LINES: usize = 1024;

// ---- what it takes and answers

// What every search of an import is made with.
#[derive(Clone, Copy)]
pub struct Settings {
    pub measure: u8,
    pub p: u16,
    pub q: u16,
    pub allowance: u32,
}

// The outcome of a line.
#[derive(Clone, Copy)]
pub enum Outcome {
    // the one name that its search lists
    Belongs { id: u32 },
    // it lists none
    Unresolved,
    // it lists several
    Ambiguous,
    // it is refused
    Refused { number: u8 },
}

// What an import answers: how many outcomes and pairs were written.
#[derive(Clone, Copy)]
pub struct Imported {
    pub lines: u32,
    pub pairs: u32,
}

// ---- the lines

// Judges the line after `count` others.
fn judge_line(line: &[u8], count: usize) -> Result<(), Refusal>
    ensures { outcome_number result ≡ judge_line count line.now }
{
    if MOST_LINES <= count {
        return Err(Refusal::TooMany);
    }
    let mut name = [0u8; fields::LONGEST_NAME];
    log_frames::read_log(line, &mut name)?;
    Ok(())
}

// Judges the lines until one is refused, and answers how many there are.
fn judge_lines(log: &[u8]) -> Result<usize, LineRefusal>
    ensures { MatchResult result (λ n. AllGood log.now n) (λ bad. FirstBad log.now (refusal_number bad.refusal) bad.line) }
{
    let mut n = 0;
    for line in log.split_inclusive(|b| *b == b'\n') {
        if let Err(refusal) = judge_line(line, n) {
            let line = n as u32 + 1;
            return Err(LineRefusal { refusal, line });
        }
        n += 1;
    }
    Ok(n)
}

// ---- one line

// The outcome by an answer and the ids of its rows.
fn outcome_from(answer: Answer, ids: &[u32]) -> Outcome
    requires { rows_in (answer_in answer) ≤ length ids.now }
    ensures { result ≡ outcome_from (answer_in answer) (take (rows_in (answer_in answer)) ids.now) }
{
    match answer {
        Ok(found) => match &ids[..found.rows as usize] {
            [] => Outcome::Unresolved,
            [id] => Outcome::Belongs { id: *id },
            _ => Outcome::Ambiguous,
        },
        Err(refused) => {
            let number = refused.refusal.number();
            Outcome::Refused { number }
        }
    }
}

// The outcome of a typed name.
fn outcome_of(good: bool, query: &[u8], s: Settings, words: &[u32]) -> Outcome
    requires { good ≡ good_of words.now }
    ensures { result ≡ outcome_from (answer_to words.now s query.now) (listed_for words.now s query.now) }
{
    let mut ids = [0u32; index::MOST_NAMES];
    let mut shared = [0u32; index::MOST_NAMES];
    let mut sizes = [0u32; index::MOST_NAMES];
    let mut least = [0u32; index::MOST_NAMES];
    let answer = search::search_checked(
        good,
        query,
        s.measure,
        s.p,
        s.q,
        s.allowance,
        words,
        &mut ids,
        &mut shared,
        &mut sizes,
        &mut least,
    );
    outcome_from(answer, &ids)
}

// A line that was read and searched.
#[derive(Clone, Copy)]
struct Heard {
    outcome: Outcome,
    day: u16,
    reading: u16,
}

// Reads a line and searches its typed name.
fn hear(good: bool, line: &[u8], s: Settings, words: &[u32]) -> Heard
    requires { (good ≡ good_of words.now) × (is_frame log_frame line.now ≡ true) }
    ensures { (result.outcome ≡ outcome_of words.now s line.now) × (result.day ≡ day_in line.now) × (result.reading ≡ reading_in line.now) }
{
    let mut name = [0u8; fields::LONGEST_NAME];
    let log = log_frames::read_log(line, &mut name).unwrap();
    let outcome = outcome_of(good, &name[..log.len], s, words);
    Heard {
        outcome,
        day: log.day,
        reading: log.reading,
    }
}

// The case of an outcome.
fn case_of(outcome: Outcome) -> u32
    ensures { result ≡ case_of outcome }
{
    match outcome {
        Outcome::Belongs { .. } => 1,
        Outcome::Unresolved => 2,
        Outcome::Ambiguous => 3,
        Outcome::Refused { .. } => 4,
    }
}

// Its value.
fn value_of(outcome: Outcome) -> u32
    ensures { result ≡ value_of outcome }
{
    match outcome {
        Outcome::Belongs { id } => id,
        Outcome::Unresolved | Outcome::Ambiguous => 0,
        Outcome::Refused { number } => u32::from(number),
    }
}

// Puts the entry of a line that belongs after k others. Answers how many there are then; what stands beyond them is scratch.
fn add_entry(outcome: Outcome, day: u16, reading: u16, entries: &mut [u64], k: usize) -> usize
    requires { k < length entries.old }
    ensures { Entered outcome day reading k entries.old entries.new result }
{
    match outcome {
        Outcome::Belongs { id } => {
            entries[k] = weeks::entry(id, day, reading);
            k + 1
        }
        _ => k,
    }
}

// Takes the lines, all of them frames: their outcomes and their entries go to the tables. Answers how many entries there are.
fn take_lines(
    good: bool,
    log: &[u8],
    s: Settings,
    words: &[u32],
    cases: &mut [u32],
    values: &mut [u32],
    entries: &mut [u64],
) -> usize
    requires { (good ≡ good_of words.now) × ((verdict_on log.now).number ≡ 0) × (length cases.old ≡ most_lines) × (length values.old ≡ most_lines) × (length entries.old ≡ most_lines) }
    ensures { Taken log.now words.now s (as_outcomes cases.old values.old) (as_outcomes cases.new values.new) entries.new result }
{
    let mut k = 0;
    for (n, line) in log.split_inclusive(|b| *b == b'\n').enumerate() {
        let heard = hear(good, line, s, words);
        let outcome = heard.outcome;
        cases[n] = case_of(outcome);
        values[n] = value_of(outcome);
        k = add_entry(outcome, heard.day, heard.reading, entries, k);
    }
    k
}

// ---- the whole

// Imports the n lines of a log, all of them frames, that the columns of outcomes have room for.
fn import_lines(
    log: &[u8],
    s: Settings,
    words: &[u32],
    n: usize,
    cases: &mut [u32],
    values: &mut [u32],
    ids: &mut [u32],
    weeks: &mut [u32],
    sums: &mut [u32],
    counts: &mut [u32],
) -> Result<Imported, LineRefusal>
    requires { ((verdict_on log.now).number ≡ 0) × (n ≡ length (lines_of log.now)) × (n ≤ outcome_room (as_outcomes cases.old values.old)) }
    ensures { Imports log.now words.now s (as_outcomes cases.old values.old) (as_columns ids.old weeks.old sums.old counts.old) (as_outcomes cases.new values.new) (as_columns ids.new weeks.new sums.new counts.new) (imported_in result) }
{
    let mut case_table = [0u32; MOST_LINES];
    let mut value_table = [0u32; MOST_LINES];
    let mut entries = [0u64; MOST_LINES];
    let mut spare = [0u64; MOST_LINES];
    let good = index::good(words);
    let k = take_lines(
        good,
        log,
        s,
        words,
        &mut case_table,
        &mut value_table,
        &mut entries,
    );
    let paired = weeks::pairs(&mut entries[..k], &mut spare[..k], ids, weeks, sums, counts);
    let pairs = paired.map_err(|refusal| LineRefusal { refusal, line: 0 })?;
    cases[..n].copy_from_slice(&case_table[..n]);
    values[..n].copy_from_slice(&value_table[..n]);
    let lines = n as u32;
    Ok(Imported { lines, pairs })
}

// Imports a log.
pub fn import(
    log: &[u8],
    measure: u8,
    p: u16,
    q: u16,
    allowance: u32,
    words: &[u32],
    cases: &mut [u32],
    values: &mut [u32],
    ids: &mut [u32],
    weeks: &mut [u32],
    sums: &mut [u32],
    counts: &mut [u32],
) -> Result<Imported, LineRefusal>
    ensures { Imports log.now words.now (settings measure p q allowance) (as_outcomes cases.old values.old) (as_columns ids.old weeks.old sums.old counts.old) (as_outcomes cases.new values.new) (as_columns ids.new weeks.new sums.new counts.new) (imported_in result) }
{
    let n = judge_lines(log)?;
    if cases.len().min(values.len()) < n {
        return Err(LineRefusal {
            refusal: Refusal::NoRoom,
            line: 0,
        });
    }
    let s = Settings {
        measure,
        p,
        q,
        allowance,
    };
    import_lines(log, s, words, n, cases, values, ids, weeks, sums, counts)
}
