// The counted search over plain lent slices: what is judged before it, all sizes, and the rows. The rule: docs/RULE.md, "The counted search";
// the definitions: specs/, and the method step by step: specs/Method.antt of `sizes`.
#![tactic(auto)]

ghost use Rattle.std.specs.Prelude.{◌≡◌, List, ◌++◌, map, ℕ, ◌≤◌, ◌<◌, min, length, get_or, drop, true};
ghost use Rattle.likeness.specs.Measures.{good_measure, good_threshold};
ghost use Rattle.laws.specs.Sort.{sort_of};
ghost use Rattle.refusals.specs.Refusals.{outcome_number};
ghost use Rattle.names.specs.Names.{judge_of};
ghost use Rattle.names.specs.Features.{features_of};
ghost use Rattle.names.specs.Set.{filled};
ghost use Rattle.index.specs.Good.{good_of, Good, ids_in};
ghost use Rattle.words.specs.Words.{name_count, name_id, name_size};
ghost use Rattle.sizes.specs.Method.{sizes_end};
ghost use Rattle.search.specs.Answers.{before_work, answer_in, question_of, over, as_columns, Searched};
ghost use Rattle.search.specs.Places.{places_in};

use names::FeatureSet;
use refusals::Refusal;

// What a search finds: how many rows and touches, and the threshold p / q in lowest terms.
#[derive(Clone, Copy)]
pub struct Found {
    pub rows: u32,
    pub touches: u32,
    pub p: u16,
    pub q: u16,
}

// Why a search is refused, and the touches that are told with it.
#[derive(Clone, Copy)]
pub struct Refused {
    pub refusal: Refusal,
    pub touches: u32,
}

// What is refused before its work is counted has no touches.
impl From<Refusal> for Refused {
    ghost from_gives = { λ refusal r. r ≡ before_work refusal };

    fn from(refusal: Refusal) -> Refused {
        Refused {
            refusal,
            touches: 0,
        }
    }
}

// What a search answers. specs/Answers.antt sets out the number and the values of each case.
pub type Answer = Result<Found, Refused>;

// ---- the names

// Their ids in order, put at the front of a table.
fn name_ids(words: &[u32], table: &mut [u32])
    requires { Good words.now × (name_count words.now ≤ length table.old) }
    ensures { table.new ≡ ids_in words.now ++ drop (name_count words.now) table.old }
{
    let n = words::name_count(words);
    for (i, id) in table[..n].iter_mut().enumerate() {
        *id = words::name_id(words, i);
    }
}

// ---- the rows

// How many of the first n places are answers.
fn count_answers(answers: &[u32], n: usize) -> usize
    requires { n ≤ length answers.now }
    ensures { result ≡ length (places_in answers.now n) }
{
    let mut rows = 0;
    for &count in &answers[..n] {
        if 0 < count {
            rows += 1;
        }
    }
    rows
}

// Writes a row for each answer, in the names' order, as far as the last of `rows` answers. The least counts are by size.
fn write_rows(
    words: &[u32],
    answers: &[u32],
    leasts: &[u32],
    rows: usize,
    ids: &mut [u32],
    shared: &mut [u32],
    sizes: &mut [u32],
    least: &mut [u32],
)
    requires { Good words.now × (name_count words.now ≤ length answers.now) × (length leasts.now ≡ sizes_end) × (rows ≡ length (places_in answers.now (name_count words.now))) × (rows ≤ length ids.old) × (rows ≤ length shared.old) × (rows ≤ length sizes.old) × (rows ≤ length least.old) }
    ensures ids_after { ids.new ≡ over (map (name_id words.now) (places_in answers.now (name_count words.now))) ids.old }
    ensures shared_after { shared.new ≡ over (map (λ (i : ℕ). get_or answers.now i 0) (places_in answers.now (name_count words.now))) shared.old }
    ensures sizes_after { sizes.new ≡ over (map (name_size words.now) (places_in answers.now (name_count words.now))) sizes.old }
    ensures least_after { least.new ≡ over (map (λ (i : ℕ). get_or leasts.now (name_size words.now i) 0) (places_in answers.now (name_count words.now))) least.old }
{
    let mut k = 0;
    for (i, count) in answers.iter().enumerate() {
        if k == rows {
            break;
        }
        if 0 < *count {
            let size = words::name_size(words, i);
            ids[k] = words::name_id(words, i);
            shared[k] = *count;
            sizes[k] = size;
            least[k] = leasts[size as usize];
            k += 1;
        }
    }
}

// ---- the whole search

// The query's features, in ascending order.
fn sorted_features(query: &[u8]) -> FeatureSet
    ensures { result ≡ filled (sort_of (features_of query.now)) }
{
    let set = names::features(query);
    let x = set.len;
    let mut items = set.items;
    let mut spare = [0u64; FeatureSet::CAPACITY];
    sorting::sort(&mut items[..x], &mut spare[..x]);
    FeatureSet { items, len: x }
}

// The smaller of two rooms.
pub fn smaller(a: usize, b: usize) -> usize
    ensures { result ≡ min a b }
{
    a.min(b)
}

// The search of a good index with a good query, measure and threshold: 7, then 8, or the rows.
fn run(
    query: &[u8],
    measure: u8,
    p: u16,
    q: u16,
    allowance: u32,
    words: &[u32],
    ids: &mut [u32],
    shared: &mut [u32],
    sizes: &mut [u32],
    least: &mut [u32],
) -> Answer
    requires { Good words.now × (judge_of query.now ≡ 0) × (good_measure measure ≡ true) × (good_threshold p q ≡ true) }
    ensures { Searched query.now measure p q allowance words.now (as_columns ids.old shared.old sizes.old least.old) (as_columns ids.new shared.new sizes.new least.new) (answer_in result) }
{
    let n = words::name_count(words);
    let mut table = [0u32; index::MOST_NAMES];
    name_ids(words, &mut table);
    let set = sorted_features(query);
    let x = set.len;
    let features = set.items;
    let leasts = sizes::least_counts(words, measure, p, q, x as u8);
    let mut answers = [0u32; index::MOST_NAMES];
    let Some(spent) = sizes::all_sizes(
        words,
        &table[..n],
        &features[..x],
        &leasts,
        allowance as usize,
        &mut answers,
    ) else {
        return Err(Refused {
            refusal: Refusal::OverAllowance,
            touches: allowance,
        });
    };
    let touches = spent as u32;
    let rows = count_answers(&answers, n);
    let room = ids
        .len()
        .min(shared.len())
        .min(sizes.len())
        .min(least.len());
    if room < rows {
        return Err(Refused {
            refusal: Refusal::NoRoom,
            touches,
        });
    }
    write_rows(words, &answers, &leasts, rows, ids, shared, sizes, least);
    let t = likeness::lowest(p, q);
    Ok(Found {
        rows: rows as u32,
        touches,
        p: t.p,
        q: t.q,
    })
}

// What the query, the measure and the threshold are refused with, in that order.
fn question(query: &[u8], measure: u8, p: u16, q: u16) -> Result<(), Refusal>
    ensures { outcome_number result ≡ question_of query.now measure p q }
{
    names::judge(query)?;
    if !likeness::good_measure(measure) {
        return Err(Refusal::BadMeasure);
    }
    if !likeness::good_threshold(p, q) {
        return Err(Refusal::BadThreshold);
    }
    Ok(())
}

// The search of words that were checked before: `good` is what index::good answers of them.
pub fn search_checked(
    good: bool,
    query: &[u8],
    measure: u8,
    p: u16,
    q: u16,
    allowance: u32,
    words: &[u32],
    ids: &mut [u32],
    shared: &mut [u32],
    sizes: &mut [u32],
    least: &mut [u32],
) -> Answer
    requires { good ≡ good_of words.now }
    ensures { Searched query.now measure p q allowance words.now (as_columns ids.old shared.old sizes.old least.old) (as_columns ids.new shared.new sizes.new least.new) (answer_in result) }
{
    question(query, measure, p, q)?;
    if !good {
        return Err(Refusal::BadIndex.into());
    }
    run(
        query, measure, p, q, allowance, words, ids, shared, sizes, least,
    )
}

// The search of words that index::good has passed.
pub fn search_good(
    query: &[u8],
    measure: u8,
    p: u16,
    q: u16,
    allowance: u32,
    words: &[u32],
    ids: &mut [u32],
    shared: &mut [u32],
    sizes: &mut [u32],
    least: &mut [u32],
) -> Answer
    requires { Good words.now }
    ensures { Searched query.now measure p q allowance words.now (as_columns ids.old shared.old sizes.old least.old) (as_columns ids.new shared.new sizes.new least.new) (answer_in result) }
{
    search_checked(
        true, query, measure, p, q, allowance, words, ids, shared, sizes, least,
    )
}

// The search of any words.
pub fn search(
    query: &[u8],
    measure: u8,
    p: u16,
    q: u16,
    allowance: u32,
    words: &[u32],
    ids: &mut [u32],
    shared: &mut [u32],
    sizes: &mut [u32],
    least: &mut [u32],
) -> Answer
    ensures { Searched query.now measure p q allowance words.now (as_columns ids.old shared.old sizes.old least.old) (as_columns ids.new shared.new sizes.new least.new) (answer_in result) }
{
    let good = index::good(words);
    search_checked(
        good, query, measure, p, q, allowance, words, ids, shared, sizes, least,
    )
}
