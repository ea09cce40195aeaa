// The list of a size and a feature, and the rows of one size. The rule: docs/RULE.md, "Index words"; the definitions: specs/.
#![tactic(auto)]

ghost use Rattle.std.specs.Prelude.{◌≡◌, cond, ◌+◌, ◌^◌, ◌≤◌, ◌<◌, eqb, length};
ghost use Rattle.laws.specs.Lists.{Ascending};
ghost use Rattle.words.specs.Words.{row_count, row_size, postings_start, row_width, row_start, row_length, list_start, list_at, part_rows, part_feature, part_place, part_length};
ghost use Rattle.binary_search.specs.Seats.{seat_of};
ghost use Rattle.index.specs.Good.{Good};
ghost use Rattle.lists.specs.Part.{cut, Part};
ghost use Rattle.lists.specs.Lists.{span_in, span_for};
ghost use Rattle.lists.specs.Sizes.{rows_under, size_span};

use binary_search::Seat;

// ---- the rows of one size

// Where a list lies among the words.
#[derive(Clone, Copy)]
pub struct Place {
    pub start: usize,
    pub count: usize,
}

// So many rows from `known` on that the one behind them, where there is one, has no size below this one. Found in steps that double, as the rows of a
// size are few among all: none where the first of them has no size below.
fn reach(words: &[u32], size: u64, known: usize) -> usize
    requires { Good words.now × (known ≤ row_count words.now) }
    ensures { (known + result ≤ row_count words.now) × (known + result < row_count words.now → size ≤ row_size words.now (known + result)) }
{
    let rest = words::row_count(words) - known;
    let mut n = 0;
    // a `while`, as the steps double and are no count
    while n < rest {
        if size <= u64::from(words::row_size(words, known + n)) {
            return n;
        }
        n += n + 16;
    }
    rest
}

// How many rows of a good index have a size below this one, where so many are known to have.
pub fn rows_under(words: &[u32], size: u64, known: usize) -> usize
    requires { Good words.now × (known ≤ rows_under words.now size) }
    ensures { result ≡ rows_under words.now size }
{
    let n = reach(words, size, known);
    let first = words::row_start(words, known) + words::SIZE_COLUMN;
    known + binary_search::place_in_column(words, first, words::ROW_WIDTH, n, size)
}

// The rows of a size of a good index, those from `from` on and before `to`, as that part of the words.
pub fn rows_between(words: &[u32], size: u32, from: usize, to: usize) -> &[u32]
    requires { Good words.now × (from ≡ rows_under words.now size) × (to ≡ rows_under words.now (size + 1)) }
    ensures { Part words.entry result (size_span words.now size) }
{
    let start = words::row_start(words, from);
    let end = words::row_start(words, to);
    &words[start..end]
}

// The same, sought first.
pub fn rows_of_size(words: &[u32], size: u32) -> &[u32]
    requires { Good words.now }
    ensures { Part words.entry result (size_span words.now size) }
{
    let from = rows_under(words, u64::from(size), 0);
    let to = rows_under(words, u64::from(size) + 1, from);
    rows_between(words, size, from, to)
}

// Where a row's list lies if the row has the feature, the postings starting at `first`; no words at 0 otherwise. There is no jump to guess.
fn place_if(rows: &[u32], row: usize, first: usize, feature: u64) -> Place
    requires { (row < part_rows rows.now) × (first < 2 ^ 63) }
    ensures { (result.start ≡ cond (eqb (part_feature rows.now row) feature) (first + part_place rows.now row) 0) × (result.count ≡ cond (eqb (part_feature rows.now row) feature) (part_length rows.now row) 0) }
{
    let hit = usize::from(words::part_feature(rows, row) == feature);
    let start = first + words::part_place(rows, row);
    let count = words::part_length(rows, row);
    Place {
        start: start * hit,
        count: count * hit,
    }
}

// Where the list of a size and a feature of a good index lies, sought among the rows of the size; no words at 0 where there is no such row.
// `first` is where the postings start.
pub fn place_among(words: &[u32], rows: &[u32], first: usize, size: u32, feature: u64) -> Place
    requires { Good words.now × (rows.now ≡ cut (size_span words.now size) words.now) × (first ≡ postings_start words.now) }
    ensures { (result.start ≡ (span_in words.now size feature).start) × (result.count ≡ (span_in words.now size feature).count) }
{
    let n = words::part_rows(rows);
    if n == 0 {
        return Place { start: 0, count: 0 };
    }
    let at = binary_search::place_in_column(
        rows,
        words::FEATURE_COLUMN,
        words::ROW_WIDTH,
        n,
        feature,
    );
    let row = at.min(n - 1);
    place_if(rows, row, first, feature)
}

// ---- one list

// The same, with the rows of the size sought first.
pub fn place_for_good(words: &[u32], size: u32, feature: u64) -> Place
    requires { Good words.now }
    ensures { (result.start ≡ (span_in words.now size feature).start) × (result.count ≡ (span_in words.now size feature).count) }
{
    let rows = rows_of_size(words, size);
    let first = words::postings_start(words);
    place_among(words, rows, first, size, feature)
}

// Where an id stands in row r's list.
pub fn id_seat(words: &[u32], r: usize, id: u32) -> Seat
    requires { (row_start words.now r + row_width ≤ length words.now) × (list_start words.now r + row_length words.now r ≤ length words.now) × Ascending (list_at words.now r) }
    ensures { result ≡ seat_of (list_at words.now r) id }
{
    let start = words::postings_start(words) + words::row_place(words, r);
    let end = start + words::row_length(words, r);
    binary_search::seat_in(&words[start..end], id)
}

// The list of a size and a feature of a good index, as that part of the words; the empty part where there is no such row.
pub fn list_for_good(words: &[u32], size: u32, feature: u64) -> &[u32]
    requires { Good words.now }
    ensures { Part words.entry result (span_in words.now size feature) }
{
    let place = place_for_good(words, size, feature);
    let start = place.start;
    let end = start + place.count;
    &words[start..end]
}

// The same of any words: the empty part too where the index isn't good.
pub fn list_for(words: &[u32], size: u32, feature: u64) -> &[u32]
    ensures { Part words.entry result (span_for words.now size feature) }
{
    if index::good(words) {
        return list_for_good(words, size, feature);
    }
    &words[0..0]
}
