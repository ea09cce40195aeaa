// The functions of `surface` under the names by which C calls them: include/rushgirdle.h declares them, and tools/library makes librushgirdle.a of
// this crate. Each states the contract of the function that it calls again. A slice crosses as a pointer and a length, a struct by value.
#![tactic(auto)]

ghost use Rattle.std.specs.Prelude.{◌≡◌, [], ◌∷◌, length};
ghost use Rattle.fields.specs.Layouts.{read_of, buffer_of, written_of, out_of};
ghost use Rattle.frames.specs.Frames.{name_frame, query_frame, row_frame, end_frame, refusal_frame};
ghost use Rattle.index.specs.Good.{good_of};
ghost use Rattle.lists.specs.Lists.{span_for};
ghost use Rattle.register.specs.Build.{built_of, words_after};
ghost use Rattle.upkeep.specs.Upkeep.{added_of, words_added, withdrawn_of, words_withdrawn};
ghost use Rattle.search.specs.Answers.{search_of, as_columns, room_of, columns_after};
ghost use Rattle.rows.specs.Rows.{rows_after};
ghost use Rattle.queries.specs.Queries.{as_outcomes as asAsked, come_of, outcomes_after as outcomesAsked, columns_after as columnsAsked};
ghost use Rattle.log_frames.specs.Frames.{log_frame};
ghost use Rattle.weeks.specs.Pairs.{as_columns as asPairs, room_of as pairRoom};
ghost use Rattle.importer.specs.Import.{settings, as_outcomes, outcome_room, imported_of, outcomes_after, pairs_after};
ghost use Rattle.surface.specs.Flat.{build_answer, list_answer, search_answer, many_answer, import_answer, write_answer, name_answer, query_answer, row_answer, end_answer, refusal_answer, log_answer};

use rows::Row;
use surface::{
    BuildAnswer, EndAnswer, ImportAnswer, ListAnswer, LogAnswer, ManyAnswer, NameAnswer,
    QueryAnswer, RefusalAnswer, RowAnswer, SearchAnswer, WriteAnswer,
};

// Builds the index of a register in the words.
#[unsafe(no_mangle)]
pub extern "C" fn rushgirdle_build(register: &[u8], words: &mut [u32]) -> BuildAnswer
    ensures value { result ≡ build_answer (built_of register.now (length words.old)) }
    ensures words_after { words.new ≡ words_after register.now words.old }
{
    surface::rushgirdle_build(register, words)
}

// Adds a name under an id.
#[unsafe(no_mangle)]
pub extern "C" fn rushgirdle_add(words: &mut [u32], id: u16, name: &[u8]) -> u8
    ensures value { result ≡ added_of words.old id name.now }
    ensures words_after { words.new ≡ words_added words.old id name.now }
{
    surface::rushgirdle_add(words, id, name)
}

// Withdraws an id.
#[unsafe(no_mangle)]
pub extern "C" fn rushgirdle_withdraw(words: &mut [u32], id: u16) -> u8
    ensures value { result ≡ withdrawn_of words.old id }
    ensures words_after { words.new ≡ words_withdrawn words.old id }
{
    surface::rushgirdle_withdraw(words, id)
}

// Whether the words are a good index.
#[unsafe(no_mangle)]
pub extern "C" fn rushgirdle_good(words: &[u32]) -> bool
    ensures { result ≡ good_of words.now }
{
    surface::rushgirdle_good(words)
}

// Where the list of a size and a feature lies among the words: its first word and how many; 0 and 0 where no row exists or the index isn't good.
#[unsafe(no_mangle)]
pub extern "C" fn rushgirdle_list(words: &[u32], size: u32, feature: u64) -> ListAnswer
    ensures { result ≡ list_answer (span_for words.now size feature) }
{
    surface::rushgirdle_list(words, size, feature)
}

// The counted search. Row k of an answer is place k of each of the four columns.
#[unsafe(no_mangle)]
pub extern "C" fn rushgirdle_search(
    query: &[u8],
    measure: u8,
    p: u16,
    q: u16,
    allowance: u32,
    words: &[u32],
    ids: &mut [u32],
    shared: &mut [u32],
    sizes: &mut [u32],
    least: &mut [u32],
) -> SearchAnswer
    ensures value { result ≡ search_answer (search_of query.now measure p q allowance words.now (room_of (as_columns ids.old shared.old sizes.old least.old))) }
    ensures least_after { as_columns ids.new shared.new sizes.new least.new ≡ columns_after query.now measure p q allowance words.now (as_columns ids.old shared.old sizes.old least.old) }
{
    surface::rushgirdle_search(
        query, measure, p, q, allowance, words, ids, shared, sizes, least,
    )
}

// The counted search, its answers written as records.
#[unsafe(no_mangle)]
pub extern "C" fn rushgirdle_search_rows(
    query: &[u8],
    measure: u8,
    p: u16,
    q: u16,
    allowance: u32,
    words: &[u32],
    rows: &mut [Row],
) -> SearchAnswer
    ensures { (result ≡ search_answer (search_of query.now measure p q allowance words.now (length rows.old))) × (rows.new ≡ rows_after query.now measure p q allowance words.now rows.old) }
{
    surface::rushgirdle_search_rows(query, measure, p, q, allowance, words, rows)
}

// Many queries at once: query k goes from the end before it to its own. Outcome k is place k of the columns of numbers, ends of rows and touches; the rows
// of all stand one after the other in the other four.
#[unsafe(no_mangle)]
pub extern "C" fn rushgirdle_search_many(
    bytes: &[u8],
    ends: &[u32],
    measure: u8,
    p: u16,
    q: u16,
    allowance: u32,
    words: &[u32],
    numbers: &mut [u32],
    until: &mut [u32],
    touches: &mut [u32],
    ids: &mut [u32],
    shared: &mut [u32],
    sizes: &mut [u32],
    least: &mut [u32],
) -> ManyAnswer
    ensures value { result ≡ many_answer (come_of bytes.now ends.now measure p q allowance words.now (asAsked numbers.old until.old touches.old) (as_columns ids.old shared.old sizes.old least.old)) }
    ensures touches_after { asAsked numbers.new until.new touches.new ≡ outcomesAsked bytes.now ends.now measure p q allowance words.now (asAsked numbers.old until.old touches.old) (as_columns ids.old shared.old sizes.old least.old) }
    ensures least_after { as_columns ids.new shared.new sizes.new least.new ≡ columnsAsked bytes.now ends.now measure p q allowance words.now (asAsked numbers.old until.old touches.old) (as_columns ids.old shared.old sizes.old least.old) }
{
    surface::rushgirdle_search_many(
        bytes, ends, measure, p, q, allowance, words, numbers, until, touches, ids, shared, sizes,
        least,
    )
}

// Imports a log. Outcome k is place k of the columns of cases and values, pair k place k of the other four.
#[unsafe(no_mangle)]
pub extern "C" fn rushgirdle_import(
    log: &[u8],
    measure: u8,
    p: u16,
    q: u16,
    allowance: u32,
    words: &[u32],
    cases: &mut [u32],
    values: &mut [u32],
    ids: &mut [u32],
    weeks: &mut [u32],
    sums: &mut [u32],
    counts: &mut [u32],
) -> ImportAnswer
    ensures value { result ≡ import_answer (imported_of log.now words.now (settings measure p q allowance) (outcome_room (as_outcomes cases.old values.old)) (pairRoom (asPairs ids.old weeks.old sums.old counts.old))) }
    ensures values_after { as_outcomes cases.new values.new ≡ outcomes_after log.now words.now (settings measure p q allowance) (as_outcomes cases.old values.old) (asPairs ids.old weeks.old sums.old counts.old) }
    ensures counts_after { asPairs ids.new weeks.new sums.new counts.new ≡ pairs_after log.now words.now (settings measure p q allowance) (as_outcomes cases.old values.old) (asPairs ids.old weeks.old sums.old counts.old) }
{
    surface::rushgirdle_import(
        log, measure, p, q, allowance, words, cases, values, ids, weeks, sums, counts,
    )
}

// Reads a 4E line, and puts the name at the start of the buffer.
#[unsafe(no_mangle)]
pub extern "C" fn rushgirdle_read_name(line: &[u8], name: &mut [u8]) -> NameAnswer
    ensures value { result ≡ name_answer (read_of name_frame line.now (length name.old)) }
    ensures name_after { name.new ≡ buffer_of name_frame line.now name.old }
{
    surface::rushgirdle_read_name(line, name)
}

// Reads a 51 line, and puts the query at the start of the buffer.
#[unsafe(no_mangle)]
pub extern "C" fn rushgirdle_read_query(line: &[u8], query: &mut [u8]) -> QueryAnswer
    ensures value { result ≡ query_answer (read_of query_frame line.now (length query.old)) }
    ensures query_after { query.new ≡ buffer_of query_frame line.now query.old }
{
    surface::rushgirdle_read_query(line, query)
}

// Reads a 52 line.
#[unsafe(no_mangle)]
pub extern "C" fn rushgirdle_read_row(line: &[u8]) -> RowAnswer
    ensures { result ≡ row_answer (read_of row_frame line.now 0) }
{
    surface::rushgirdle_read_row(line)
}

// Reads a 45 line.
#[unsafe(no_mangle)]
pub extern "C" fn rushgirdle_read_end(line: &[u8]) -> EndAnswer
    ensures { result ≡ end_answer (read_of end_frame line.now 0) }
{
    surface::rushgirdle_read_end(line)
}

// Reads a 58 line.
#[unsafe(no_mangle)]
pub extern "C" fn rushgirdle_read_refusal(line: &[u8]) -> RefusalAnswer
    ensures { result ≡ refusal_answer (read_of refusal_frame line.now 0) }
{
    surface::rushgirdle_read_refusal(line)
}

// Reads a 4C line, and puts the typed name at the start of the buffer.
#[unsafe(no_mangle)]
pub extern "C" fn rushgirdle_read_log(line: &[u8], name: &mut [u8]) -> LogAnswer
    ensures value { result ≡ log_answer (read_of log_frame line.now (length name.old)) }
    ensures name_after { name.new ≡ buffer_of log_frame line.now name.old }
{
    surface::rushgirdle_read_log(line, name)
}

// Writes a 4E line.
#[unsafe(no_mangle)]
pub extern "C" fn rushgirdle_write_name(out: &mut [u8], id: u16, name: &[u8]) -> WriteAnswer
    ensures value { result ≡ write_answer (written_of name_frame (id ∷ []) name.now (length out.old)) }
    ensures out_after { out.new ≡ out_of name_frame (id ∷ []) name.now out.old }
{
    surface::rushgirdle_write_name(out, id, name)
}

// Writes a 51 line.
#[unsafe(no_mangle)]
pub extern "C" fn rushgirdle_write_query(
    out: &mut [u8],
    measure: u8,
    p: u16,
    q: u16,
    allowance: u32,
    query: &[u8],
) -> WriteAnswer
    ensures value { result ≡ write_answer (written_of query_frame (measure ∷ p ∷ q ∷ allowance ∷ []) query.now (length out.old)) }
    ensures out_after { out.new ≡ out_of query_frame (measure ∷ p ∷ q ∷ allowance ∷ []) query.now out.old }
{
    surface::rushgirdle_write_query(out, measure, p, q, allowance, query)
}

// Writes a 52 line.
#[unsafe(no_mangle)]
pub extern "C" fn rushgirdle_write_row(
    out: &mut [u8],
    id: u16,
    shared: u8,
    size: u8,
    least: u8,
) -> WriteAnswer
    ensures value { result ≡ write_answer (written_of row_frame (id ∷ shared ∷ size ∷ least ∷ []) [] (length out.old)) }
    ensures out_after { out.new ≡ out_of row_frame (id ∷ shared ∷ size ∷ least ∷ []) [] out.old }
{
    surface::rushgirdle_write_row(out, id, shared, size, least)
}

// Writes a 45 line.
#[unsafe(no_mangle)]
pub extern "C" fn rushgirdle_write_end(
    out: &mut [u8],
    rows: u16,
    touches: u32,
    p: u16,
    q: u16,
) -> WriteAnswer
    ensures value { result ≡ write_answer (written_of end_frame (rows ∷ touches ∷ p ∷ q ∷ []) [] (length out.old)) }
    ensures out_after { out.new ≡ out_of end_frame (rows ∷ touches ∷ p ∷ q ∷ []) [] out.old }
{
    surface::rushgirdle_write_end(out, rows, touches, p, q)
}

// Writes a 58 line.
#[unsafe(no_mangle)]
pub extern "C" fn rushgirdle_write_refusal(out: &mut [u8], number: u8, touches: u32) -> WriteAnswer
    ensures value { result ≡ write_answer (written_of refusal_frame (number ∷ touches ∷ []) [] (length out.old)) }
    ensures out_after { out.new ≡ out_of refusal_frame (number ∷ touches ∷ []) [] out.old }
{
    surface::rushgirdle_write_refusal(out, number, touches)
}

// Writes a 4C line.
#[unsafe(no_mangle)]
pub extern "C" fn rushgirdle_write_log(
    out: &mut [u8],
    day: u16,
    reading: u16,
    name: &[u8],
) -> WriteAnswer
    ensures value { result ≡ write_answer (written_of log_frame (day ∷ reading ∷ []) name.now (length out.old)) }
    ensures out_after { out.new ≡ out_of log_frame (day ∷ reading ∷ []) name.now out.old }
{
    surface::rushgirdle_write_log(out, day, reading, name)
}
