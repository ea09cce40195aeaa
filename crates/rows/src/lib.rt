// Answer rows as records in a lent list. The search itself is over plain columns, in the crate `search`; here its rows become cells of one plain table,
// and those records. Only `put_rows` and `search_rows` have a list of records, and neither knows a record's fields.
// The rule: docs/RULE.md, "The counted search"; the definitions: specs/Rows.antt.
#![tactic(auto)]

ghost use Rattle.std.specs.Prelude.{◌≡◌, ◌++◌, ◌+◌, ◌*◌, ◌≤◌, length, drop};
ghost use Rattle.laws.specs.Lists.{tabulate};
ghost use Rattle.index.specs.Good.{most_names};
ghost use Rattle.search.specs.Answers.{answer_in, search_of, rows_in, as_columns, over};
ghost use Rattle.rows.specs.Rows.{rows_after, row_cells, row_in, row_across, cells_of, Filled};

use search::Answer;

// An answer row: a name's id, how many of the query's features it has, its size, and the least count of that size. Laid out as C has it, for the crate
// `surface`.
#[repr(C)]
#[derive(Clone, Copy)]
pub struct Row {
    pub id: u32,
    pub shared: u32,
    pub size: u32,
    pub least: u32,
}

// How many cells a row takes in a plain table.
pub const ROW_CELLS: usize = 4;

// How many rows an answer gives; none where it is refused.
fn rows_in(answer: Answer) -> usize
    ensures { result ≡ rows_in (answer_in answer) }
{
    match answer {
        Ok(found) => found.rows as usize,
        Err(_) => 0,
    }
}

// The search into columns that have room for all names, as if there were `room` rows.
fn fill_columns(
    query: &[u8],
    measure: u8,
    p: u16,
    q: u16,
    allowance: u32,
    words: &[u32],
    room: usize,
    ids: &mut [u32],
    shared: &mut [u32],
    sizes: &mut [u32],
    least: &mut [u32],
) -> Answer
    requires { (length ids.old ≡ most_names) × (length shared.old ≡ most_names) × (length sizes.old ≡ most_names) × (length least.old ≡ most_names) }
    ensures { Filled query.now measure p q allowance words.now room (answer_in result) (row_across (as_columns ids.new shared.new sizes.new least.new)) }
{
    let n = room.min(index::MOST_NAMES);
    search::search(
        query,
        measure,
        p,
        q,
        allowance,
        words,
        &mut ids[..n],
        &mut shared[..n],
        &mut sizes[..n],
        &mut least[..n],
    )
}

// Puts the first n rows of the columns into cells: row i from ROW_CELLS * i on.
fn put_cells(ids: &[u32], shared: &[u32], sizes: &[u32], least: &[u32], n: usize, cells: &mut [u32])
    requires { (n ≤ length ids.now) × (n ≤ length shared.now) × (n ≤ length sizes.now) × (n ≤ length least.now) × (row_cells * n ≤ length cells.old) }
    ensures { cells.new ≡ over (cells_of (tabulate (row_across (as_columns ids.now shared.now sizes.now least.now)) n)) cells.old }
{
    for i in 0..n {
        let at = ROW_CELLS * i;
        cells[at] = ids[i];
        cells[at + 1] = shared[i];
        cells[at + 2] = sizes[i];
        cells[at + 3] = least[i];
    }
}

// The search as if there were `room` rows, its rows put into cells.
fn find_rows(
    query: &[u8],
    measure: u8,
    p: u16,
    q: u16,
    allowance: u32,
    words: &[u32],
    room: usize,
    cells: &mut [u32],
) -> Answer
    requires { length cells.old ≡ row_cells * most_names }
    ensures { Filled query.now measure p q allowance words.now room (answer_in result) (row_in cells.new) }
{
    let mut ids = [0u32; index::MOST_NAMES];
    let mut shared = [0u32; index::MOST_NAMES];
    let mut sizes = [0u32; index::MOST_NAMES];
    let mut least = [0u32; index::MOST_NAMES];
    let answer = fill_columns(
        query,
        measure,
        p,
        q,
        allowance,
        words,
        room,
        &mut ids,
        &mut shared,
        &mut sizes,
        &mut least,
    );
    put_cells(&ids, &shared, &sizes, &least, rows_in(answer), cells);
    answer
}

// Row k of the cells.
fn row_at(cells: &[u32], k: usize) -> Row
    requires { row_cells * k + row_cells ≤ length cells.now }
    ensures { result ≡ row_in cells.now k }
{
    let at = ROW_CELLS * k;
    Row {
        id: cells[at],
        shared: cells[at + 1],
        size: cells[at + 2],
        least: cells[at + 3],
    }
}

// Writes the first n rows of the cells as records.
fn put_rows(cells: &[u32], n: usize, rows: &mut [Row])
    requires { (row_cells * n ≤ length cells.now) × (n ≤ length rows.old) }
    ensures { rows.new ≡ tabulate (row_in cells.now) n ++ drop n rows.old }
{
    for (k, row) in rows[..n].iter_mut().enumerate() {
        *row = row_at(cells, k);
    }
}

// The search of any words, its answers written as records.
pub fn search_rows(
    query: &[u8],
    measure: u8,
    p: u16,
    q: u16,
    allowance: u32,
    words: &[u32],
    rows: &mut [Row],
) -> Answer
    ensures { (answer_in result ≡ search_of query.now measure p q allowance words.now (length rows.old)) × (rows.new ≡ rows_after query.now measure p q allowance words.now rows.old) }
{
    let mut cells = [0u32; ROW_CELLS * index::MOST_NAMES];
    let answer = find_rows(
        query,
        measure,
        p,
        q,
        allowance,
        words,
        rows.len(),
        &mut cells,
    );
    put_rows(&cells, rows_in(answer), rows);
    answer
}
