// What an input becomes: its register lines an index, each of its query lines the lines of an answer. Over lent bytes, so that a program has only to
// read and to write. The rule: docs/RULE.md, "The program lookup"; the definitions: specs/.
#![tactic(auto)]

ghost use Rattle.std.specs.Prelude.{◌≡◌, true, ◌++◌, ◌+◌, ◌*◌, ◌≤◌, ◌<◌, length, take, drop};
ghost use Rattle.fields.specs.Layouts.{written_in};
ghost use Rattle.fields.specs.Fitted.{fitting_of, fitted_of};
ghost use Rattle.frames.specs.Frames.{row_line_length};
ghost use Rattle.index.specs.Good.{Good};
ghost use Rattle.search.specs.Answers.{rows_in, answer_in, as_columns, Searched};
ghost use Rattle.answers.specs.Output.{begins, register_end, opened_in, opened_of, open_words, row_line, rows_text, rows_lent, found_text, answer_text, answer_of, line_text, responded_in, responded_of};
ghost use Rattle.answers.specs.Rows.{Shown};

use refusals::{LineRefusal, Refusal};
use search::{Answer, Found};

// The most bytes of an input, the words of the program's index, the rows that it lends to a search, and the bytes of its longest answer: a line for
// each of those rows and the end.
pub const MOST_INPUT: usize = 65536;

pub const INDEX_WORDS: usize = 16384;

pub const ROWS_LENT: usize = 256;

pub const LONGEST_ANSWER: usize = frames::ROW_LENGTH * ROWS_LENT + frames::END_LENGTH;

// ---- opening: an input to its index

// What opening answers: what the build of the register's index came to, and where the queries begin.
#[derive(Clone, Copy)]
pub struct Opening {
    pub built: Result<(), LineRefusal>,
    pub at: usize,
}

// Whether a line begins with 51.
fn begins_query(line: &[u8]) -> bool
    ensures { result ≡ begins line.now }
{
    line.starts_with(b"51")
}

// Where the register ends: at the first line that begins with 51, or at the end of the input.
pub fn register_end(input: &[u8]) -> usize
    ensures { (result ≡ register_end input.now) × (result ≤ length input.now) }
{
    let mut at = 0;
    for line in input.split_inclusive(|b| *b == b'\n') {
        if begins_query(line) {
            return at;
        }
        at += line.len();
    }
    at
}

// Builds the index of the input's register lines: too much input is refused with 8, judged first, and any other as the build is.
pub fn open(input: &[u8], words: &mut [u32]) -> Opening
    ensures value { opened_in result ≡ opened_of input.now (length words.old) }
    ensures words_after { words.new ≡ open_words input.now words.old }
{
    if MOST_INPUT < input.len() {
        index_writer::fill(words);
        return Opening {
            built: Err(LineRefusal {
                refusal: Refusal::NoRoom,
                line: 0,
            }),
            at: 0,
        };
    }
    let at = register_end(input);
    let built = register::build(&input[..at], words);
    Opening { built, at }
}

// ---- answering: a query line to the lines of its answer

// Writes a 52 line at the place of row k, which has the room for it.
fn put_row(id: u32, shared: u32, size: u32, least: u32, out: &mut [u8], k: usize)
    requires { (id < 65536) × (shared < 256) × (size < 256) × (least < 256) × (k ≤ rows_lent) × (row_line_length * k + row_line_length ≤ length out.old) }
    ensures { out.new ≡ take (row_line_length * k) out.old ++ (row_line id shared size least ++ drop (row_line_length * k + row_line_length) out.old) }
{
    let at = frames::ROW_LENGTH * k;
    frames::write_row(
        &mut out[at..at + frames::ROW_LENGTH],
        id as u16,
        shared as u8,
        size as u8,
        least as u8,
    )
    .unwrap();
}

// Writes a 52 line for each row.
fn put_rows(ids: &[u32], shared: &[u32], sizes: &[u32], least: &[u32], out: &mut [u8])
    requires { Shown (as_columns ids.now shared.now sizes.now least.now) (length ids.now) × (length out.old ≡ row_line_length * length ids.now) }
    ensures { out.new ≡ rows_text (as_columns ids.now shared.now sizes.now least.now) (length ids.now) }
{
    for (k, id) in ids.iter().enumerate() {
        put_row(*id, shared[k], sizes[k], least[k], out, k);
    }
}

// Writes the rows and the end of an answer, where they fit.
fn put_found(
    found: Found,
    ids: &[u32],
    shared: &[u32],
    sizes: &[u32],
    least: &[u32],
    out: &mut [u8],
) -> Result<usize, Refusal>
    requires { Shown (as_columns ids.now shared.now sizes.now least.now) found.rows }
    ensures { (written_in result ≡ fitting_of (found_text found.rows found.touches found.p found.q (as_columns ids.now shared.now sizes.now least.now)) (length out.old)) × (out.new ≡ fitted_of (found_text found.rows found.touches found.p found.q (as_columns ids.now shared.now sizes.now least.now)) out.old) }
{
    let n = found.rows as usize;
    let end = frames::ROW_LENGTH * n;
    let total = end + frames::END_LENGTH;
    if out.len() < total {
        return Err(Refusal::NoRoom);
    }
    put_rows(
        &ids[..n],
        &shared[..n],
        &sizes[..n],
        &least[..n],
        &mut out[..end],
    );
    frames::write_end(
        &mut out[end..total],
        found.rows as u16,
        found.touches,
        found.p,
        found.q,
    )
    .unwrap();
    Ok(total)
}

// Writes the lines of an answer, where they fit.
fn put_answer(
    answer: Answer,
    ids: &[u32],
    shared: &[u32],
    sizes: &[u32],
    least: &[u32],
    out: &mut [u8],
) -> Result<usize, Refusal>
    requires { Shown (as_columns ids.now shared.now sizes.now least.now) (rows_in (answer_in answer)) }
    ensures { (written_in result ≡ fitting_of (answer_text (answer_in answer) (as_columns ids.now shared.now sizes.now least.now)) (length out.old)) × (out.new ≡ fitted_of (answer_text (answer_in answer) (as_columns ids.now shared.now sizes.now least.now)) out.old) }
{
    match answer {
        Ok(found) => put_found(found, ids, shared, sizes, least, out),
        Err(refused) => frames::write_refusal(out, refused.refusal.number(), refused.touches),
    }
}

// The search of words that are known to be good without the check, of any others with it.
fn ask(
    known: bool,
    query: &[u8],
    measure: u8,
    p: u16,
    q: u16,
    allowance: u32,
    words: &[u32],
    ids: &mut [u32],
    shared: &mut [u32],
    sizes: &mut [u32],
    least: &mut [u32],
) -> Answer
    requires { known ≡ true → Good words.now }
    ensures { Searched query.now measure p q allowance words.now (as_columns ids.old shared.old sizes.old least.old) (as_columns ids.new shared.new sizes.new least.new) (answer_in result) }
{
    if known {
        search::search_good(
            query, measure, p, q, allowance, words, ids, shared, sizes, least,
        )
    } else {
        search::search(
            query, measure, p, q, allowance, words, ids, shared, sizes, least,
        )
    }
}

// Writes the lines that a query line is answered with, where they fit. Words that are known to be good are not checked.
fn answer_with(known: bool, line: &[u8], words: &[u32], out: &mut [u8]) -> Result<usize, Refusal>
    requires { known ≡ true → Good words.now }
    ensures { (written_in result ≡ fitting_of (answer_of words.now line.now) (length out.old)) × (out.new ≡ fitted_of (answer_of words.now line.now) out.old) }
{
    let mut query = [0u8; fields::LONGEST_NAME];
    let mut ids = [0u32; ROWS_LENT];
    let mut shared = [0u32; ROWS_LENT];
    let mut sizes = [0u32; ROWS_LENT];
    let mut least = [0u32; ROWS_LENT];
    let read = match frames::read_query(line, &mut query) {
        Ok(read) => read,
        Err(refusal) => return frames::write_refusal(out, refusal.number(), 0),
    };
    let answer = ask(
        known,
        &query[..read.len],
        read.measure,
        read.p,
        read.q,
        read.allowance,
        words,
        &mut ids,
        &mut shared,
        &mut sizes,
        &mut least,
    );
    put_answer(answer, &ids, &shared, &sizes, &least, out)
}

// Writes the lines that a query line is answered with, where they fit, from any words.
pub fn answer(line: &[u8], words: &[u32], out: &mut [u8]) -> Result<usize, Refusal>
    ensures { (written_in result ≡ fitting_of (answer_of words.now line.now) (length out.old)) × (out.new ≡ fitted_of (answer_of words.now line.now) out.old) }
{
    answer_with(false, line, words, out)
}

// What a line of an input came to: what writing its answer did, and where the next line starts.
#[derive(Clone, Copy)]
pub struct Responded {
    pub written: Result<usize, Refusal>,
    pub next: usize,
}

// Writes the answer to the line of an input that starts at `at`, from words that are known to be good. Past the end there is no line and nothing is
// written. A line that is no query has its answer too, and the next line comes after it.
pub fn respond_good(input: &[u8], at: usize, words: &[u32], out: &mut [u8]) -> Responded
    requires { Good words.now }
    ensures value { responded_in result ≡ responded_of words.now input.now at (length out.old) }
    ensures out_after { out.new ≡ fitted_of (line_text words.now input.now at) out.old }
{
    if input.len() <= at {
        return Responded {
            written: Ok(0),
            next: at,
        };
    }
    let end = lines::line_end(input, at);
    let written = answer_with(true, &input[at..end], words, out);
    Responded { written, next: end }
}
