// Writes the index of name words and postings in order: the one writer of index words. A posting is a key, its feature × 256 + the place of its name.
// What the index of names is, that it is good and the only good one of its names: specs/ and proofs/.
#![tactic(auto)]

ghost use Rattle.std.specs.Prelude.{◌≡◌, List, [], ◌∷◌, ◌++◌, map, ℕ, ◌+◌, ◌*◌, ◌-◌, ◌/◌, ◌%◌, ◌≤◌, ◌<◌, length, get_or, take, drop, replicate};
ghost use Rattle.words.specs.Words.{head_width, row_width};
ghost use Rattle.index.specs.Good.{most_names, most_postings};
ghost use Rattle.index_writer.specs.Built.{runs_of, row_words, words_from};
ghost use Rattle.index_writer.specs.Keys.{place_span, word_at, id_at, triples_at, Keyed};
ghost use Rattle.index_writer.specs.Written.{blank, fits_in, pad_to, written_in};
ghost use Rattle.index_writer.specs.Steps.{begins_row, run_key, new_row, grown_row, RowsAt};

// A key is its feature times this, and the place of its name, which is below it.
pub const PLACE_SPAN: u64 = 256;

// ---- one posting

// The word of a key's name.
fn word_at(names: &[u32], key: u64) -> u32
    requires { key % place_span < length names.now }
    ensures { result ≡ word_at names.now key }
{
    let place = (key % PLACE_SPAN) as usize;
    names[place]
}

// The feature and the size of a posting as one number.
fn run_key(names: &[u32], key: u64) -> u64
    requires { key % place_span < length names.now }
    ensures { result ≡ run_key names.now key }
{
    key / PLACE_SPAN * PLACE_SPAN + u64::from(word_at(names, key) % words::SIZE_ROOM)
}

// Whether the posting at place i begins a row.
fn begins_row(names: &[u32], keys: &[u64], i: usize) -> bool
    requires { (i < length keys.now) × Keyed names.now keys.now }
    ensures { result ≡ begins_row (triples_at names.now keys.now) i }
{
    i == 0 || run_key(names, keys[i - 1]) != run_key(names, keys[i])
}

// ---- the rows

// Puts the four words of a row after d others, where there is room for it: size, feature, the place of its list, and a count of 1.
fn new_row(size: u32, feature: u32, place: u32, out: &mut [u32], d: usize)
    requires { d ≤ most_postings }
    ensures { out.new ≡ new_row size feature place out.old d }
{
    let at = words::ROW_WIDTH * d;
    let end = at + words::ROW_WIDTH;
    if end <= out.len() {
        out[at..end].copy_from_slice(&[size, feature, place, 1]);
    }
}

// Adds one to the count of the last of d rows, where there was room for it.
fn grow_row(out: &mut [u32], d: usize)
    requires { (1 ≤ d) × (d ≤ most_postings) × (row_width * d ≤ length out.old → get_or out.old (row_width * d - 1) 0 ≤ most_postings) }
    ensures { out.new ≡ grown_row out.old d }
{
    let end = words::ROW_WIDTH * d;
    if end <= out.len() {
        out[end - 1] += 1;
    }
}

// Puts the posting at place i into the rows, of which d are there: a new row where one begins, and otherwise one id more in the last row.
fn put_row(names: &[u32], keys: &[u64], i: usize, out: &mut [u32], d: usize) -> usize
    requires { (i < length keys.now) × Keyed names.now keys.now × RowsAt (triples_at names.now keys.now) i d out.old }
    ensures { RowsAt (triples_at names.now keys.now) (i + 1) result out.new }
{
    if begins_row(names, keys, i) {
        let key = keys[i];
        new_row(
            word_at(names, key) % words::SIZE_ROOM,
            (key / PLACE_SPAN) as u32,
            i as u32,
            out,
            d,
        );
        return d + 1;
    }
    grow_row(out, d);
    d
}

// Puts the rows of postings in order, as many of them as there is room for. Answers how many there are.
fn put_rows(names: &[u32], keys: &[u64], out: &mut [u32]) -> usize
    requires { Keyed names.now keys.now }
    ensures { RowsAt (triples_at names.now keys.now) (length keys.now) result out.new }
{
    let mut d = 0;
    for i in 0..keys.len() {
        d = put_row(names, keys, i, out, d);
    }
    d
}

// ---- the words

// Sets every word to 4,294,967,295: an index that every search refuses.
pub fn fill(words: &mut [u32])
    ensures { words.new ≡ replicate (length words.old) blank }
{
    words.fill(u32::MAX);
}

// Puts the ids of the postings, in order.
fn put_lists(names: &[u32], keys: &[u64], out: &mut [u32])
    requires { (length out.old ≡ length keys.now) × Keyed names.now keys.now }
    ensures { out.new ≡ map (id_at names.now) keys.now }
{
    for (i, key) in keys.iter().enumerate() {
        out[i] = word_at(names, *key) / words::SIZE_ROOM;
    }
}

// Puts the rows of postings in order, their lists after them, and sets what is beyond, where all of it fits. Answers how many rows there are.
fn put_tail(names: &[u32], keys: &[u64], words: &mut [u32]) -> usize
    requires { Keyed names.now keys.now × (length keys.now ≤ length words.old) }
    ensures { (result ≡ length (runs_of (triples_at names.now keys.now))) × (row_width * result + length keys.now ≤ length words.old → words.new ≡ pad_to (length words.old) (row_words 0 (runs_of (triples_at names.now keys.now)) ++ map (id_at names.now) keys.now)) }
{
    let p = keys.len();
    let room = words.len() - p;
    let d = put_rows(names, keys, &mut words[..room]);
    let rows = words::ROW_WIDTH * d;
    if room < rows {
        return d;
    }
    let end = rows + p;
    put_lists(names, keys, &mut words[rows..end]);
    fill(&mut words[end..]);
    d
}

// Puts the name words, in order. By a loop: between two lent slices the library's `copy_from_slice` needs a memmove from outside, and the archive for C
// goes by memcpy and memset alone.
fn put_names(names: &[u32], out: &mut [u32])
    requires { length out.old ≡ length names.now }
    ensures { out.new ≡ names.now }
{
    for (i, word) in names.iter().enumerate() {
        out[i] = *word;
    }
}

// Puts the head words, with d rows and p postings, and the name words before what is there.
fn put_head(names: &[u32], d: usize, p: usize, words: &mut [u32])
    requires { (length names.now ≤ most_names) × (d ≤ most_postings) × (p ≤ most_postings) × (head_width + length names.now ≤ length words.old) }
    ensures { words.new ≡ length names.now ∷ d ∷ p ∷ (names.now ++ drop (head_width + length names.now) words.old) }
{
    let n = names.len();
    let end = words::HEAD_WIDTH + n;
    put_names(names, &mut words[words::HEAD_WIDTH..end]);
    words[words::NAME_COUNT_AT] = n as u32;
    words[words::ROW_COUNT_AT] = d as u32;
    words[words::POSTING_COUNT_AT] = p as u32;
}

// Writes the index and sets what is beyond it, or sets every word where it does not fit. Answers whether it fits.
pub fn write_index(names: &[u32], keys: &[u64], words: &mut [u32]) -> bool
    requires { Keyed names.now keys.now }
    ensures { (result ≡ fits_in (length words.old) (words_from names.now (runs_of (triples_at names.now keys.now)))) × (words.new ≡ written_in (length words.old) (words_from names.now (runs_of (triples_at names.now keys.now)))) }
{
    let p = keys.len();
    let head = words::HEAD_WIDTH + names.len();
    let room = words.len();
    if room < head + p {
        fill(words);
        return false;
    }
    let d = put_tail(names, keys, &mut words[head..]);
    if room < head + p + words::ROW_WIDTH * d {
        fill(words);
        return false;
    }
    put_head(names, d, p, words);
    true
}
