// The functions for C, Rust and Python: include/rushgirdle.h declares them, and `surface_c` exports them. Each passes on what a layer answers, in a flat
// struct, and its contract cites that layer's own definitions. A slice crosses as a pointer and a length. Nothing is required of a caller beyond that.
#![tactic(auto)]

ghost use Rattle.std.specs.Prelude.{◌≡◌, [], ◌∷◌, length};
ghost use Rattle.fields.specs.Layouts.{read_of, buffer_of, written_in, written_of, out_of};
ghost use Rattle.frames.specs.Frames.{name_frame, query_frame, row_frame, end_frame, refusal_frame, name_out, row_out, end_out, refusal_out};
ghost use Rattle.index.specs.Good.{good_of};
ghost use Rattle.lists.specs.Lists.{span_for};
ghost use Rattle.register.specs.Build.{built_in, built_of, words_after};
ghost use Rattle.upkeep.specs.Upkeep.{added_of, words_added, withdrawn_of, words_withdrawn};
ghost use Rattle.search.specs.Answers.{answer_in, search_of, as_columns, room_of, columns_after};
ghost use Rattle.rows.specs.Rows.{rows_after};
ghost use Rattle.queries.specs.Queries.{as_outcomes as asAsked, come_in, come_of, outcomes_after as outcomesAsked, columns_after as columnsAsked};
ghost use Rattle.log_frames.specs.Frames.{log_frame, log_out};
ghost use Rattle.weeks.specs.Pairs.{as_columns as asPairs, room_of as pairRoom};
ghost use Rattle.importer.specs.Import.{settings, as_outcomes, outcome_room, imported_in, imported_of, outcomes_after, pairs_after};
ghost use Rattle.surface.specs.Flat.{build_answer, list_answer, search_answer, many_answer, import_answer, write_answer, name_answer, query_answer, row_answer, end_answer, refusal_answer, log_answer};

use frames::{End, Name};
use importer::Imported;
use log_frames::Log;
use queries::Come;
use refusals::{LineRefusal, Refusal};
use rows::Row;
use search::{Found, Refused};

// ---- the flat answers, each with its number first, and none above 16 bytes: so each is returned in two registers, on every processor alike

#[repr(C)]
#[derive(Clone, Copy)]
pub struct BuildAnswer {
    pub number: u8,
    pub line: u32,
}

#[repr(C)]
#[derive(Clone, Copy)]
pub struct ListAnswer {
    pub start: usize,
    pub count: usize,
}

#[repr(C)]
#[derive(Clone, Copy)]
pub struct SearchAnswer {
    pub number: u8,
    pub rows: u32,
    pub touches: u32,
    pub p: u16,
    pub q: u16,
}

#[repr(C)]
#[derive(Clone, Copy)]
pub struct ManyAnswer {
    pub number: u8,
    pub queries: u32,
    pub rows: u32,
}

#[repr(C)]
#[derive(Clone, Copy)]
pub struct ImportAnswer {
    pub number: u8,
    pub line: u32,
    pub lines: u32,
    pub pairs: u32,
}

#[repr(C)]
#[derive(Clone, Copy)]
pub struct WriteAnswer {
    pub number: u8,
    pub len: usize,
}

#[repr(C)]
#[derive(Clone, Copy)]
pub struct NameAnswer {
    pub number: u8,
    pub id: u16,
    pub len: usize,
}

#[repr(C)]
#[derive(Clone, Copy)]
pub struct QueryAnswer {
    pub number: u8,
    pub measure: u8,
    pub p: u16,
    pub q: u16,
    pub allowance: u32,
    pub len: u16,
}

#[repr(C)]
#[derive(Clone, Copy)]
pub struct RowAnswer {
    pub number: u8,
    pub id: u16,
    pub shared: u8,
    pub size: u8,
    pub least: u8,
}

#[repr(C)]
#[derive(Clone, Copy)]
pub struct EndAnswer {
    pub number: u8,
    pub rows: u16,
    pub touches: u32,
    pub p: u16,
    pub q: u16,
}

// The number of the reading, and the number that the frame says.
#[repr(C)]
#[derive(Clone, Copy)]
pub struct RefusalAnswer {
    pub number: u8,
    pub refusal: u8,
    pub touches: u32,
}

#[repr(C)]
#[derive(Clone, Copy)]
pub struct LogAnswer {
    pub number: u8,
    pub day: u16,
    pub reading: u16,
    pub len: usize,
}

// ---- what the layers answer, set out

impl From<Result<(), LineRefusal>> for BuildAnswer {
    ghost from_gives = { λ built answer. answer ≡ build_answer (built_in built) };

    fn from(built: Result<(), LineRefusal>) -> BuildAnswer {
        match built {
            Ok(()) => BuildAnswer { number: 0, line: 0 },
            Err(bad) => BuildAnswer {
                number: bad.refusal.number(),
                line: bad.line,
            },
        }
    }
}

impl From<Result<Found, Refused>> for SearchAnswer {
    ghost from_gives = { λ found answer. answer ≡ search_answer (answer_in found) };

    fn from(found: Result<Found, Refused>) -> SearchAnswer {
        match found {
            Ok(found) => SearchAnswer {
                number: 0,
                rows: found.rows,
                touches: found.touches,
                p: found.p,
                q: found.q,
            },
            Err(refused) => SearchAnswer {
                number: refused.refusal.number(),
                rows: 0,
                touches: refused.touches,
                p: 0,
                q: 0,
            },
        }
    }
}

impl From<Come> for ManyAnswer {
    ghost from_gives = { λ come answer. answer ≡ many_answer (come_in come) };

    fn from(come: Come) -> ManyAnswer {
        ManyAnswer {
            number: refusals::number_in(come.outcome),
            queries: come.queries,
            rows: come.rows,
        }
    }
}

impl From<Result<Imported, LineRefusal>> for ImportAnswer {
    ghost from_gives = { λ imported answer. answer ≡ import_answer (imported_in imported) };

    fn from(imported: Result<Imported, LineRefusal>) -> ImportAnswer {
        match imported {
            Ok(imported) => ImportAnswer {
                number: 0,
                line: 0,
                lines: imported.lines,
                pairs: imported.pairs,
            },
            Err(stopped) => ImportAnswer {
                number: stopped.refusal.number(),
                line: stopped.line,
                lines: 0,
                pairs: 0,
            },
        }
    }
}

impl From<Result<usize, Refusal>> for WriteAnswer {
    ghost from_gives = { λ written answer. answer ≡ write_answer (written_in written) };

    fn from(written: Result<usize, Refusal>) -> WriteAnswer {
        match written {
            Ok(len) => WriteAnswer { number: 0, len },
            Err(refusal) => WriteAnswer {
                number: refusal.number(),
                len: 0,
            },
        }
    }
}

impl From<Result<Name, Refusal>> for NameAnswer {
    ghost from_gives = { λ read answer. answer ≡ name_answer (name_out read) };

    fn from(read: Result<Name, Refusal>) -> NameAnswer {
        match read {
            Ok(name) => NameAnswer {
                number: 0,
                id: name.id,
                len: name.len,
            },
            Err(refusal) => NameAnswer {
                number: refusal.number(),
                id: 0,
                len: 0,
            },
        }
    }
}

impl From<Result<frames::Row, Refusal>> for RowAnswer {
    ghost from_gives = { λ read answer. answer ≡ row_answer (row_out read) };

    fn from(read: Result<frames::Row, Refusal>) -> RowAnswer {
        match read {
            Ok(row) => RowAnswer {
                number: 0,
                id: row.id,
                shared: row.shared,
                size: row.size,
                least: row.least,
            },
            Err(refusal) => RowAnswer {
                number: refusal.number(),
                id: 0,
                shared: 0,
                size: 0,
                least: 0,
            },
        }
    }
}

impl From<Result<End, Refusal>> for EndAnswer {
    ghost from_gives = { λ read answer. answer ≡ end_answer (end_out read) };

    fn from(read: Result<End, Refusal>) -> EndAnswer {
        match read {
            Ok(end) => EndAnswer {
                number: 0,
                rows: end.rows,
                touches: end.touches,
                p: end.p,
                q: end.q,
            },
            Err(refusal) => EndAnswer {
                number: refusal.number(),
                rows: 0,
                touches: 0,
                p: 0,
                q: 0,
            },
        }
    }
}

impl From<Result<frames::Refused, Refusal>> for RefusalAnswer {
    ghost from_gives = { λ read answer. answer ≡ refusal_answer (refusal_out read) };

    fn from(read: Result<frames::Refused, Refusal>) -> RefusalAnswer {
        match read {
            Ok(refused) => RefusalAnswer {
                number: 0,
                refusal: refused.number,
                touches: refused.touches,
            },
            Err(refusal) => RefusalAnswer {
                number: refusal.number(),
                refusal: 0,
                touches: 0,
            },
        }
    }
}

impl From<Result<Log, Refusal>> for LogAnswer {
    ghost from_gives = { λ read answer. answer ≡ log_answer (log_out read) };

    fn from(read: Result<Log, Refusal>) -> LogAnswer {
        match read {
            Ok(log) => LogAnswer {
                number: 0,
                day: log.day,
                reading: log.reading,
                len: log.len,
            },
            Err(refusal) => LogAnswer {
                number: refusal.number(),
                day: 0,
                reading: 0,
                len: 0,
            },
        }
    }
}

// ---- the index

// Builds the index of a register in the words.
pub fn rushgirdle_build(register: &[u8], words: &mut [u32]) -> BuildAnswer
    ensures value { result ≡ build_answer (built_of register.now (length words.old)) }
    ensures words_after { words.new ≡ words_after register.now words.old }
{
    register::build(register, words).into()
}

// Adds a name under an id.
pub fn rushgirdle_add(words: &mut [u32], id: u16, name: &[u8]) -> u8
    ensures value { result ≡ added_of words.old id name.now }
    ensures words_after { words.new ≡ words_added words.old id name.now }
{
    refusals::number_in(upkeep::add(words, id, name))
}

// Withdraws an id.
pub fn rushgirdle_withdraw(words: &mut [u32], id: u16) -> u8
    ensures value { result ≡ withdrawn_of words.old id }
    ensures words_after { words.new ≡ words_withdrawn words.old id }
{
    refusals::number_in(upkeep::withdraw(words, id))
}

// Whether the words are a good index.
pub fn rushgirdle_good(words: &[u32]) -> bool
    ensures { result ≡ good_of words.now }
{
    index::good(words)
}

// Where the list of a size and a feature lies among the words: its first word and how many; 0 and 0 where no row exists or the index isn't good.
pub fn rushgirdle_list(words: &[u32], size: u32, feature: u64) -> ListAnswer
    ensures { result ≡ list_answer (span_for words.now size feature) }
{
    if !index::good(words) {
        return ListAnswer { start: 0, count: 0 };
    }
    let l = lists::place_for_good(words, size, feature);
    ListAnswer {
        start: l.start,
        count: l.count,
    }
}

// The counted search. Row k of an answer is place k of each of the four columns.
pub fn rushgirdle_search(
    query: &[u8],
    measure: u8,
    p: u16,
    q: u16,
    allowance: u32,
    words: &[u32],
    ids: &mut [u32],
    shared: &mut [u32],
    sizes: &mut [u32],
    least: &mut [u32],
) -> SearchAnswer
    ensures value { result ≡ search_answer (search_of query.now measure p q allowance words.now (room_of (as_columns ids.old shared.old sizes.old least.old))) }
    ensures least_after { as_columns ids.new shared.new sizes.new least.new ≡ columns_after query.now measure p q allowance words.now (as_columns ids.old shared.old sizes.old least.old) }
{
    search::search(
        query, measure, p, q, allowance, words, ids, shared, sizes, least,
    )
    .into()
}

// The counted search, its answers written as records.
pub fn rushgirdle_search_rows(
    query: &[u8],
    measure: u8,
    p: u16,
    q: u16,
    allowance: u32,
    words: &[u32],
    rows: &mut [Row],
) -> SearchAnswer
    ensures { (result ≡ search_answer (search_of query.now measure p q allowance words.now (length rows.old))) × (rows.new ≡ rows_after query.now measure p q allowance words.now rows.old) }
{
    rows::search_rows(query, measure, p, q, allowance, words, rows).into()
}

// Many queries at once: query k goes from the end before it to its own. Outcome k is place k of the columns of numbers, ends of rows and touches; the rows
// of all stand one after the other in the other four.
pub fn rushgirdle_search_many(
    bytes: &[u8],
    ends: &[u32],
    measure: u8,
    p: u16,
    q: u16,
    allowance: u32,
    words: &[u32],
    numbers: &mut [u32],
    until: &mut [u32],
    touches: &mut [u32],
    ids: &mut [u32],
    shared: &mut [u32],
    sizes: &mut [u32],
    least: &mut [u32],
) -> ManyAnswer
    ensures value { result ≡ many_answer (come_of bytes.now ends.now measure p q allowance words.now (asAsked numbers.old until.old touches.old) (as_columns ids.old shared.old sizes.old least.old)) }
    ensures touches_after { asAsked numbers.new until.new touches.new ≡ outcomesAsked bytes.now ends.now measure p q allowance words.now (asAsked numbers.old until.old touches.old) (as_columns ids.old shared.old sizes.old least.old) }
    ensures least_after { as_columns ids.new shared.new sizes.new least.new ≡ columnsAsked bytes.now ends.now measure p q allowance words.now (asAsked numbers.old until.old touches.old) (as_columns ids.old shared.old sizes.old least.old) }
{
    queries::search_many(
        bytes, ends, measure, p, q, allowance, words, numbers, until, touches, ids, shared, sizes,
        least,
    )
    .into()
}

// ---- the import

// Imports a log. Outcome k is place k of the columns of cases and values, pair k place k of the other four.
pub fn rushgirdle_import(
    log: &[u8],
    measure: u8,
    p: u16,
    q: u16,
    allowance: u32,
    words: &[u32],
    cases: &mut [u32],
    values: &mut [u32],
    ids: &mut [u32],
    weeks: &mut [u32],
    sums: &mut [u32],
    counts: &mut [u32],
) -> ImportAnswer
    ensures value { result ≡ import_answer (imported_of log.now words.now (settings measure p q allowance) (outcome_room (as_outcomes cases.old values.old)) (pairRoom (asPairs ids.old weeks.old sums.old counts.old))) }
    ensures values_after { as_outcomes cases.new values.new ≡ outcomes_after log.now words.now (settings measure p q allowance) (as_outcomes cases.old values.old) (asPairs ids.old weeks.old sums.old counts.old) }
    ensures counts_after { asPairs ids.new weeks.new sums.new counts.new ≡ pairs_after log.now words.now (settings measure p q allowance) (as_outcomes cases.old values.old) (asPairs ids.old weeks.old sums.old counts.old) }
{
    importer::import(
        log, measure, p, q, allowance, words, cases, values, ids, weeks, sums, counts,
    )
    .into()
}

// ---- the frames

// Reads a 4E line, and puts the name at the start of the buffer.
pub fn rushgirdle_read_name(line: &[u8], name: &mut [u8]) -> NameAnswer
    ensures value { result ≡ name_answer (read_of name_frame line.now (length name.old)) }
    ensures name_after { name.new ≡ buffer_of name_frame line.now name.old }
{
    frames::read_name(line, name).into()
}

// Reads a 51 line, and puts the query at the start of the buffer.
pub fn rushgirdle_read_query(line: &[u8], query: &mut [u8]) -> QueryAnswer
    ensures value { result ≡ query_answer (read_of query_frame line.now (length query.old)) }
    ensures query_after { query.new ≡ buffer_of query_frame line.now query.old }
{
    match frames::read_query(line, query) {
        Ok(read) => QueryAnswer {
            number: 0,
            measure: read.measure,
            p: read.p,
            q: read.q,
            allowance: read.allowance,
            len: read.len as u16,
        },
        Err(refusal) => QueryAnswer {
            number: refusal.number(),
            measure: 0,
            p: 0,
            q: 0,
            allowance: 0,
            len: 0,
        },
    }
}

// Reads a 52 line.
pub fn rushgirdle_read_row(line: &[u8]) -> RowAnswer
    ensures { result ≡ row_answer (read_of row_frame line.now 0) }
{
    frames::read_row(line).into()
}

// Reads a 45 line.
pub fn rushgirdle_read_end(line: &[u8]) -> EndAnswer
    ensures { result ≡ end_answer (read_of end_frame line.now 0) }
{
    frames::read_end(line).into()
}

// Reads a 58 line.
pub fn rushgirdle_read_refusal(line: &[u8]) -> RefusalAnswer
    ensures { result ≡ refusal_answer (read_of refusal_frame line.now 0) }
{
    frames::read_refusal(line).into()
}

// Reads a 4C line, and puts the typed name at the start of the buffer.
pub fn rushgirdle_read_log(line: &[u8], name: &mut [u8]) -> LogAnswer
    ensures value { result ≡ log_answer (read_of log_frame line.now (length name.old)) }
    ensures name_after { name.new ≡ buffer_of log_frame line.now name.old }
{
    log_frames::read_log(line, name).into()
}

// Writes a 4E line.
pub fn rushgirdle_write_name(out: &mut [u8], id: u16, name: &[u8]) -> WriteAnswer
    ensures value { result ≡ write_answer (written_of name_frame (id ∷ []) name.now (length out.old)) }
    ensures out_after { out.new ≡ out_of name_frame (id ∷ []) name.now out.old }
{
    frames::write_name(out, id, name).into()
}

// Writes a 51 line.
pub fn rushgirdle_write_query(
    out: &mut [u8],
    measure: u8,
    p: u16,
    q: u16,
    allowance: u32,
    query: &[u8],
) -> WriteAnswer
    ensures value { result ≡ write_answer (written_of query_frame (measure ∷ p ∷ q ∷ allowance ∷ []) query.now (length out.old)) }
    ensures out_after { out.new ≡ out_of query_frame (measure ∷ p ∷ q ∷ allowance ∷ []) query.now out.old }
{
    frames::write_query(out, measure, p, q, allowance, query).into()
}

// Writes a 52 line.
pub fn rushgirdle_write_row(out: &mut [u8], id: u16, shared: u8, size: u8, least: u8) -> WriteAnswer
    ensures value { result ≡ write_answer (written_of row_frame (id ∷ shared ∷ size ∷ least ∷ []) [] (length out.old)) }
    ensures out_after { out.new ≡ out_of row_frame (id ∷ shared ∷ size ∷ least ∷ []) [] out.old }
{
    frames::write_row(out, id, shared, size, least).into()
}

// Writes a 45 line.
pub fn rushgirdle_write_end(out: &mut [u8], rows: u16, touches: u32, p: u16, q: u16) -> WriteAnswer
    ensures value { result ≡ write_answer (written_of end_frame (rows ∷ touches ∷ p ∷ q ∷ []) [] (length out.old)) }
    ensures out_after { out.new ≡ out_of end_frame (rows ∷ touches ∷ p ∷ q ∷ []) [] out.old }
{
    frames::write_end(out, rows, touches, p, q).into()
}

// Writes a 58 line.
pub fn rushgirdle_write_refusal(out: &mut [u8], number: u8, touches: u32) -> WriteAnswer
    ensures value { result ≡ write_answer (written_of refusal_frame (number ∷ touches ∷ []) [] (length out.old)) }
    ensures out_after { out.new ≡ out_of refusal_frame (number ∷ touches ∷ []) [] out.old }
{
    frames::write_refusal(out, number, touches).into()
}

// Writes a 4C line.
pub fn rushgirdle_write_log(out: &mut [u8], day: u16, reading: u16, name: &[u8]) -> WriteAnswer
    ensures value { result ≡ write_answer (written_of log_frame (day ∷ reading ∷ []) name.now (length out.old)) }
    ensures out_after { out.new ≡ out_of log_frame (day ∷ reading ∷ []) name.now out.old }
{
    log_frames::write_log(out, day, reading, name).into()
}
