// The sizes of a counted search: the least count of each, the lists of a size in order, one size, and all of them upward by a table of least
// counts. Over a good index, its names' ids and features in order. The rule: docs/RULE.md, "The counted search"; the definitions: specs/.
#![tactic(auto)]

ghost use Rattle.std.specs.Prelude.{◌≡◌, ◌++◌, ℕ, ◌+◌, ◌≤◌, ◌<◌, length, get_or, drop, replicate, leb, true, cond, ◌&&◌};
ghost use Rattle.likeness.specs.Sizes.{is_searched};
ghost use Rattle.likeness.specs.Least.{least_count};
ghost use Rattle.laws.specs.Lists.{tabulate};
ghost use Rattle.laws.specs.Sort.{sort_of};
ghost use Rattle.names.specs.Features.{most_features};
ghost use Rattle.index.specs.Good.{Good, most_names, ids_in};
ghost use Rattle.candidates.specs.Spending.{past_in, spent_in};
ghost use Rattle.lists.specs.Sizes.{rows_under};
ghost use Rattle.sizes.specs.Method.{sizes_end};
ghost use Rattle.sizes.specs.Tables.{sizes_below, present_at, leasts_of, Reachable, start_of, small_key, filled_of, Asked, Lent, Sized, Covered};

use names::FeatureSet;

// The sizes of names are below this.
pub const SIZES_END: usize = FeatureSet::CAPACITY + 1;

// Every name's size is below this: the last row's and one, as rows ascend by size.
fn sizes_below(words: &[u32]) -> usize
    requires { Good words.now }
    ensures { (result ≡ sizes_below words.now) × (result ≤ sizes_end) }
{
    let rows = words::row_count(words);
    if rows == 0 {
        return 0;
    }
    words::row_size(words, rows - 1) as usize + 1
}

// Which sizes the names have.
fn sizes_present(words: &[u32]) -> [bool; SIZES_END]
    requires { Good words.now }
    ensures { result ≡ tabulate (present_at words.now) sizes_end }
{
    let n = words::name_count(words);
    let mut table = [false; SIZES_END];
    for i in 0..n {
        let size = words::name_size(words, i) as usize;
        table[size] = true;
    }
    table
}

// ---- the least counts

// The least count of size y for a query of x features, where `present` says whether a name has the size; 0 where none has, or it isn't searched.
fn least_of(present: bool, measure: u8, p: u16, q: u16, x: u8, y: u8) -> u32
    ensures { result ≡ cond (present && is_searched measure p q x y) (least_count measure p q x y) 0 }
{
    if present && likeness::searched(measure, p, q, x, y) {
        u32::from(likeness::least_count(measure, p, q, x, y))
    } else {
        0
    }
}

// The least count of each size for a query of x features; 0 where no name has the size, or it isn't searched.
pub fn least_counts(words: &[u32], measure: u8, p: u16, q: u16, x: u8) -> [u32; SIZES_END]
    requires { Good words.now }
    ensures { result ≡ leasts_of words.now measure p q x }
{
    let present = sizes_present(words);
    let end = sizes_below(words);
    let mut leasts = [0u32; SIZES_END];
    for y in 0..end {
        leasts[y] = least_of(present[y], measure, p, q, x, y as u8);
    }
    leasts
}

// ---- the lists of a size

// Some rows of an index: those from one on and before another.
#[derive(Clone, Copy)]
struct Rows {
    from: usize,
    to: usize,
}

// The rows of a size that is searched, where so many rows are known to have a smaller one. Where the least count is 0 nothing is sought.
fn rows_at(words: &[u32], size: u32, least: usize, known: usize) -> Rows
    requires { Good words.now × (known ≤ rows_under words.now size) }
    ensures { (1 ≤ least → (result.from ≡ rows_under words.now size) × (result.to ≡ rows_under words.now (size + 1))) × (result.to ≤ rows_under words.now (size + 1)) }
{
    if least == 0 {
        return Rows {
            from: known,
            to: known,
        };
    }
    let from = lists::rows_under(words, u64::from(size), known);
    let to = lists::rows_under(words, u64::from(size) + 1, from);
    Rows { from, to }
}

// Where the features' lists at a size start, whose rows are those from `from` on and before `to`, and the key of each: its length × 256 + its place
// among the features. Answers whether as many as `least` of the lists have ids, and stops as soon as too many have none: what it has put by then is of
// no use.
fn find_lists(
    words: &[u32],
    features: &[u64],
    size: u32,
    from: usize,
    to: usize,
    least: usize,
    starts: &mut [usize],
    keys: &mut [u64],
) -> bool
    requires { Good words.now × (length features.now ≤ most_features) × (least ≤ length features.now) × (length starts.old ≡ most_features) × (length keys.old ≡ length features.now) × (from ≡ rows_under words.now size) × (to ≡ rows_under words.now (size + 1)) }
    ensures value { result ≡ leb least (filled_of words.now size features.now (length features.now)) }
    ensures starts_after { result ≡ true → (starts.new ≡ tabulate (start_of words.now size features.now) (length features.now) ++ drop (length features.now) starts.old) × (keys.new ≡ tabulate (small_key words.now size features.now) (length features.now) ++ drop (length features.now) keys.old) }
{
    let rows = lists::rows_between(words, size, from, to);
    let first = words::postings_start(words);
    let spared = features.len() - least;
    let mut empty = 0;
    for (j, feature) in features.iter().enumerate() {
        let place = lists::place_among(words, rows, first, size, *feature);
        let key = place.count as u64 * 256 + j as u64;
        starts[j] = place.start;
        keys[j] = key;
        empty += usize::from(key < 256);
        if spared < empty {
            return false;
        }
    }
    true
}

// ---- one size

// Where the features' lists at a size start, and their keys in order. Answers whether as many as `least` have ids; where not, no name
// of the size is an answer or costs a touch, and nothing is put in order.
fn order_lists(
    words: &[u32],
    features: &[u64],
    size: u32,
    from: usize,
    to: usize,
    least: usize,
    starts: &mut [usize],
    keys: &mut [u64],
    spare: &mut [u64],
) -> bool
    requires { Good words.now × (length features.now ≤ most_features) × (least ≤ length features.now) × (length starts.old ≡ most_features) × (length keys.old ≡ length features.now) × (length spare.old ≡ length features.now) × (from ≡ rows_under words.now size) × (to ≡ rows_under words.now (size + 1)) }
    ensures value { result ≡ leb least (filled_of words.now size features.now (length features.now)) }
    ensures keys_after { result ≡ true → (keys.new ≡ sort_of (tabulate (small_key words.now size features.now) (length features.now))) × ((j : ℕ) → j < length features.now → get_or starts.new j 0 ≡ start_of words.now size features.now j) }
{
    if !find_lists(words, features, size, from, to, least, starts, keys) {
        return false;
    }
    sorting::sort(keys, spare);
    true
}

// One size, whose rows are those from `from` on and before `to`: its lists in order, then the two phases; nothing where the least count is 0.
fn one_size(
    words: &[u32],
    ids: &[u32],
    features: &[u64],
    size: u32,
    from: usize,
    to: usize,
    least: usize,
    budget: usize,
    starts: &mut [usize],
    keys: &mut [u64],
    spare: &mut [u64],
    counts: &mut [u32],
    met: &mut [usize],
    answers: &mut [u32],
) -> Option<usize>
    requires good { Good words.now × (ids.now ≡ ids_in words.now) × Asked features.now × (least ≤ length features.now) × (length answers.old ≡ most_names) }
    requires lent { Lent features.now starts.old keys.old spare.old counts.old met.old }
    requires from_value { 1 ≤ least → (from ≡ rows_under words.now size) × (to ≡ rows_under words.now (size + 1)) }
    ensures { Sized words.now size features.now least budget answers.old answers.new counts.new (past_in result) (spent_in result) }
{
    if least == 0 {
        return Some(0);
    }
    if !order_lists(words, features, size, from, to, least, starts, keys, spare) {
        return Some(0);
    }
    candidates::walk_lists(
        words, ids, keys, starts, least, budget, counts, met, answers,
    )
}

// ---- all sizes

// All sizes upward, each with its least count, as long as their touches are within the allowance; over tables that are lent. The rows of a size are
// sought from where those of the one before it end.
fn each_size(
    words: &[u32],
    ids: &[u32],
    features: &[u64],
    leasts: &[u32],
    allowance: usize,
    starts: &mut [usize],
    keys: &mut [u64],
    spare: &mut [u64],
    counts: &mut [u32],
    met: &mut [usize],
    answers: &mut [u32],
) -> Option<usize>
    requires good { Good words.now × (ids.now ≡ ids_in words.now) × Asked features.now × Reachable features.now leasts.now × (answers.old ≡ replicate most_names 0) }
    requires lent { Lent features.now starts.old keys.old spare.old counts.old met.old }
    ensures { Covered words.now leasts.now features.now allowance answers.new (past_in result) (spent_in result) }
{
    let end = sizes_below(words);
    let mut touches = 0;
    let mut under = 0;
    for y in 0..end {
        let least = leasts[y] as usize;
        let rows = rows_at(words, y as u32, least, under);
        touches += one_size(
            words,
            ids,
            features,
            y as u32,
            rows.from,
            rows.to,
            least,
            allowance - touches,
            starts,
            keys,
            spare,
            counts,
            met,
            answers,
        )?;
        under = rows.to;
    }
    Some(touches)
}

// All sizes, over tables that are set to 0 once for all of them. The answers, by place, come as 0.
pub fn all_sizes(
    words: &[u32],
    ids: &[u32],
    features: &[u64],
    leasts: &[u32],
    allowance: usize,
    answers: &mut [u32],
) -> Option<usize>
    requires { Good words.now × (ids.now ≡ ids_in words.now) × Asked features.now × Reachable features.now leasts.now × (answers.old ≡ replicate most_names 0) }
    ensures { Covered words.now leasts.now features.now allowance answers.new (past_in result) (spent_in result) }
{
    let x = features.len();
    let mut starts = [0usize; FeatureSet::CAPACITY];
    let mut keys = [0u64; FeatureSet::CAPACITY];
    let mut spare = [0u64; FeatureSet::CAPACITY];
    let mut counts = [0u32; index::MOST_NAMES];
    let mut met = [0usize; index::MOST_NAMES];
    each_size(
        words,
        ids,
        features,
        leasts,
        allowance,
        &mut starts,
        &mut keys[..x],
        &mut spare[..x],
        &mut counts,
        &mut met,
        answers,
    )
}
