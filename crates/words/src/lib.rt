// The index words one by one: where each stands, and what it says. The rule: docs/RULE.md, "Index words"; the definitions: specs/.
#![tactic(auto)]

ghost use Rattle.std.specs.Prelude.{◌≡◌, ◌+◌, ◌*◌, ◌^◌, ◌≤◌, ◌<◌, length, get_or};
ghost use Rattle.words.specs.Words.{head_width, name_count, row_count, posting_count, name_width, name_start, name_id, name_size, row_width, row_start, row_size, row_feature, row_place, row_length, row_key, postings_start, part_rows, part_feature, part_place, part_length};

// How many words the head has, and which of them is which.
pub const HEAD_WIDTH: usize = 3;

pub const NAME_COUNT_AT: usize = 0;

pub const ROW_COUNT_AT: usize = 1;

pub const POSTING_COUNT_AT: usize = 2;

// How many words a name has, and the sizes that its word has room for.
pub const NAME_WIDTH: usize = 1;

pub const SIZE_ROOM: u32 = 256;

// Where the names start.
pub const NAMES_START: usize = HEAD_WIDTH;

// How many words a row has, and which of them is which.
pub const ROW_WIDTH: usize = 4;

pub const SIZE_COLUMN: usize = 0;

pub const FEATURE_COLUMN: usize = 1;

pub const PLACE_COLUMN: usize = 2;

pub const LENGTH_COLUMN: usize = 3;

// N, how many names.
pub fn name_count(words: &[u32]) -> usize
    requires { head_width ≤ length words.now }
    ensures { (result ≡ name_count words.now) × (result < 4294967296) }
{
    words[NAME_COUNT_AT] as usize
}

// D, how many rows.
pub fn row_count(words: &[u32]) -> usize
    requires { head_width ≤ length words.now }
    ensures { (result ≡ row_count words.now) × (result < 4294967296) }
{
    words[ROW_COUNT_AT] as usize
}

// P, how many postings.
pub fn posting_count(words: &[u32]) -> usize
    requires { head_width ≤ length words.now }
    ensures { (result ≡ posting_count words.now) × (result < 4294967296) }
{
    words[POSTING_COUNT_AT] as usize
}

// The id of name i.
pub fn name_id(words: &[u32], i: usize) -> u32
    requires { name_start i + name_width ≤ length words.now }
    ensures { result ≡ name_id words.now i }
{
    words[NAMES_START + NAME_WIDTH * i] / SIZE_ROOM
}

// The size of name i.
pub fn name_size(words: &[u32], i: usize) -> u32
    requires { name_start i + name_width ≤ length words.now }
    ensures { result ≡ name_size words.now i }
{
    words[NAMES_START + NAME_WIDTH * i] % SIZE_ROOM
}

// Where row r starts; with D for r, where the rows end.
pub fn row_start(words: &[u32], r: usize) -> usize
    requires { (head_width ≤ length words.now) × (row_width * r < 2 ^ 63) }
    ensures { (result ≡ row_start words.now r) × (result ≤ name_start 4294967295 + row_width * r) }
{
    NAMES_START + NAME_WIDTH * name_count(words) + ROW_WIDTH * r
}

// Where the postings start.
pub fn postings_start(words: &[u32]) -> usize
    requires { head_width ≤ length words.now }
    ensures { (result ≡ postings_start words.now) × (result ≤ name_start 4294967295 + row_width * 4294967295) }
{
    row_start(words, row_count(words))
}

// Word k of row r.
fn row_word(words: &[u32], r: usize, k: usize) -> u32
    requires { (k < row_width) × (row_start words.now r + row_width ≤ length words.now) }
    ensures { result ≡ get_or words.now (row_start words.now r + k) 0 }
{
    words[row_start(words, r) + k]
}

// The size of row r.
pub fn row_size(words: &[u32], r: usize) -> u32
    requires { row_start words.now r + row_width ≤ length words.now }
    ensures { result ≡ row_size words.now r }
{
    row_word(words, r, SIZE_COLUMN)
}

// The feature of row r.
pub fn row_feature(words: &[u32], r: usize) -> u64
    requires { row_start words.now r + row_width ≤ length words.now }
    ensures { (result ≡ row_feature words.now r) × (result < 4294967296) }
{
    u64::from(row_word(words, r, FEATURE_COLUMN))
}

// Where row r's list starts among the postings.
pub fn row_place(words: &[u32], r: usize) -> usize
    requires { row_start words.now r + row_width ≤ length words.now }
    ensures { (result ≡ row_place words.now r) × (result < 4294967296) }
{
    row_word(words, r, PLACE_COLUMN) as usize
}

// How many ids row r's list has.
pub fn row_length(words: &[u32], r: usize) -> usize
    requires { row_start words.now r + row_width ≤ length words.now }
    ensures { (result ≡ row_length words.now r) × (result < 4294967296) }
{
    row_word(words, r, LENGTH_COLUMN) as usize
}

// The size and the feature of row r as one number.
pub fn row_key(words: &[u32], r: usize) -> u64
    requires { row_start words.now r + row_width ≤ length words.now }
    ensures { result ≡ row_key words.now r }
{
    u64::from(row_size(words, r)) * 4294967296 + row_feature(words, r)
}

// ---- rows cut out of the words

// How many rows a part of the words has.
pub fn part_rows(rows: &[u32]) -> usize
    ensures { result ≡ part_rows rows.now }
{
    rows.len() / ROW_WIDTH
}

// Word k of row r of such a part.
fn part_word(rows: &[u32], r: usize, k: usize) -> u32
    requires { (r < part_rows rows.now) × (k < row_width) }
    ensures { result ≡ get_or rows.now (k + row_width * r) 0 }
{
    rows[k + ROW_WIDTH * r]
}

// The feature of row r of it.
pub fn part_feature(rows: &[u32], r: usize) -> u64
    requires { r < part_rows rows.now }
    ensures { result ≡ part_feature rows.now r }
{
    u64::from(part_word(rows, r, FEATURE_COLUMN))
}

// Where the list of row r of it starts among the postings.
pub fn part_place(rows: &[u32], r: usize) -> usize
    requires { r < part_rows rows.now }
    ensures { (result ≡ part_place rows.now r) × (result < 4294967296) }
{
    part_word(rows, r, PLACE_COLUMN) as usize
}

// How many ids the list of row r of it has.
pub fn part_length(rows: &[u32], r: usize) -> usize
    requires { r < part_rows rows.now }
    ensures { (result ≡ part_length rows.now r) × (result < 4294967296) }
{
    part_word(rows, r, LENGTH_COLUMN) as usize
}
