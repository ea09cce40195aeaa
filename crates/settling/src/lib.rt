// What is left to do once words were put into an index, or taken out of it: the head words, the places and the counts of the rows, and the words
// beyond. What is right stands in the crate changes, specs/Cuts.antt; one row's count in specs/Counts.antt.
#![tactic(auto)]

ghost use Rattle.std.specs.Prelude.{◌≡◌, List, ◌+◌, ◌*◌, ◌/◌, ◌^◌, ◌≤◌, ◌<◌, length, take, drop};
ghost use Rattle.laws.specs.Lists.{Ascending};
ghost use Rattle.words.specs.Words.{name_start, row_width};
ghost use Rattle.index_writer.specs.Built.{Row, lists_of};
ghost use Rattle.index_writer.specs.Written.{pad_to};
ghost use Rattle.settling.specs.Counts.{count_at};
ghost use Rattle.changes.specs.Cuts.{RowsShort, of_features, placed_from, settled};

use binary_search::Seat;

// The count of the row whose words start at `at`: one more than it says if it is of the size and its feature is among the features, which ascend.
fn count_at(rows: &[u32], at: usize, size: u32, features: &[u32]) -> u32
    requires { (at + row_width ≤ length rows.now) × Ascending features.now × (count_at rows.now at size features.now < 2 ^ 32) }
    ensures { result ≡ count_at rows.now at size features.now }
{
    let count = rows[at + words::LENGTH_COLUMN];
    if rows[at + words::SIZE_COLUMN] != size {
        return count;
    }
    let feature = rows[at + words::FEATURE_COLUMN];
    let seat = binary_search::seat_in(features, feature);
    match seat {
        Seat::At(_) => count + 1,
        Seat::Before(_) => count,
    }
}

// Works out the counts of the rows and the places of their lists.
fn place_rows(rows: &mut [u32], size: u32, features: &[u32])
    requires { Ascending features.now × ((rs : List Row) × RowsShort (of_features size features.now) rs rows.old × (length (lists_of rs) < 2 ^ 32)) }
    ensures { rows.new ≡ placed_from (length rows.old / row_width) 0 size features.now rows.old }
{
    let mut place: u32 = 0;
    for r in 0..rows.len() / words::ROW_WIDTH {
        let at = words::ROW_WIDTH * r;
        let count = count_at(rows, at, size, features);
        rows[at + words::PLACE_COLUMN] = place;
        rows[at + words::LENGTH_COLUMN] = count;
        place += count;
    }
}

// Sets the head words for n names, d rows and p postings, works the rows out anew, and sets the words beyond.
pub fn settle(words: &mut [u32], n: usize, d: usize, p: usize, size: u32, features: &[u32])
    requires { (name_start n + row_width * d + p ≤ length words.old) × (n < 2 ^ 32) × (d < 2 ^ 32) × (p < 2 ^ 32) × Ascending features.now × ((rs : List Row) × (length rs ≡ d) × RowsShort (of_features size features.now) rs (take (row_width * d) (drop (name_start n) words.old)) × (length (lists_of rs) < 2 ^ 32)) }
    ensures { words.new ≡ pad_to (length words.old) (take (name_start n + row_width * d + p) (settled n d p size features.now words.old)) }
{
    words[words::NAME_COUNT_AT] = n as u32;
    words[words::ROW_COUNT_AT] = d as u32;
    words[words::POSTING_COUNT_AT] = p as u32;
    let from = words::NAMES_START + words::NAME_WIDTH * n;
    let to = from + words::ROW_WIDTH * d;
    place_rows(&mut words[from..to], size, features);
    let end = to + p;
    index_writer::fill(&mut words[end..]);
}
