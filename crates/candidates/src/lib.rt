// The two phases of one size: candidates from the signature lists, then the later lists. Over the lists of the size in order, and the names' ids.
// The rule: docs/RULE.md, "The counted search"; the definitions: specs/.
#![tactic(auto)]

ghost use Rattle.std.specs.Prelude.{◌≡◌, true, false, cond, MatchOption, ℕ, ◌+◌, ◌*◌, ◌/◌, ◌%◌, ◌≤◌, ◌<◌, length, get_or};
ghost use Rattle.laws.specs.Lists.{Ascending, member};
ghost use Rattle.names.specs.Features.{most_features};
ghost use Rattle.index.specs.Good.{most_names};
ghost use Rattle.candidates.specs.Spending.{past_in, spent_in};
ghost use Rattle.candidates.specs.Tables.{Known, MetBy, no_counts, tallied, tested, kept, cut_at, cut_lists, Readable, remain_table, Gathered, Narrowed, Walked};

use binary_search::Seat;

// ---- one list against the tables by a name's place

// One more at each name that the list holds; a name that is met first is put behind those met. Answers how many are met.
fn tally(ids: &[u32], list: &[u32], counts: &mut [u32], met: &mut [usize], already: usize) -> usize
    requires ids_len_bound { (length ids.now ≤ most_names) × Ascending ids.now × Ascending list.now × Known ids.now list.now }
    requires counts_len { (length counts.old ≡ most_names) × (length met.old ≡ most_names) × MetBy counts.old met.old already × ((i : ℕ) → get_or counts.old i 0 ≤ 65535) }
    ensures { (counts.new ≡ tallied ids.now list.now counts.old) × MetBy counts.new met.new result }
{
    let mut m = already;
    let mut next = 0;
    for id in list {
        let seat = binary_search::seat_near(ids, *id, next);
        let i = binary_search::place_of(seat);
        next = i + 1;
        let count = counts[i];
        if count == 0 {
            met[m] = i;
            m += 1;
        }
        counts[i] = count + 1;
    }
    m
}

// What a test of a candidate answers: its count after it, and where in the list the next candidate's id may stand.
#[derive(Clone, Copy)]
struct Tested {
    count: u32,
    next: usize,
}

// The count after a test: one more where the list holds the id, which may stand at `guess`.
fn counted(list: &[u32], id: u32, count: u32, guess: usize) -> Tested
    requires { Ascending list.now × (count ≤ 65535) }
    ensures { (result.count ≡ count + cond (member id list.now) 1 0) × (result.count ≤ 65536) }
{
    let seat = binary_search::seat_near(list, id, guess);
    match seat {
        Seat::At(at) => Tested {
            count: count + 1,
            next: at + 1,
        },
        Seat::Before(at) => Tested { count, next: at },
    }
}

// Tests each candidate against the list, and drops those whose count is then below what is needed. Answers how many remain.
fn sift(
    ids: &[u32],
    list: &[u32],
    counts: &mut [u32],
    met: &mut [usize],
    already: usize,
    needed: u32,
) -> usize
    requires ids_len_bound { (length ids.now ≤ most_names) × Ascending list.now }
    requires counts_len { (length counts.old ≡ most_names) × (length met.old ≡ most_names) × MetBy counts.old met.old already × ((i : ℕ) → get_or counts.old i 0 ≤ 65535) × ((i : ℕ) → 1 ≤ get_or counts.old i 0 → i < length ids.now) }
    ensures { (counts.new ≡ tested ids.now list.now needed counts.old) × MetBy counts.new met.new result }
{
    let mut m = 0;
    let mut next = 0;
    for k in 0..already {
        let i = met[k];
        let test = counted(list, ids[i], counts[i], next);
        let count = test.count;
        next = test.next;
        if count < needed {
            counts[i] = 0;
        } else {
            counts[i] = count;
            met[m] = i;
            m += 1;
        }
    }
    m
}

// ---- the lists of a size

// The k-th list in the keys' order, as that part of the words.
fn list_in<'a>(words: &'a [u32], keys: &[u64], starts: &[usize], k: usize) -> &'a [u32]
    requires { (k < length keys.now) × (get_or keys.now k 0 % 256 < length starts.now) × (get_or keys.now k 0 / 256 ≤ most_names) × (get_or starts.now (get_or keys.now k 0 % 256) 0 + get_or keys.now k 0 / 256 ≤ length words.now) }
    ensures { (result.now ≡ cut_at words.now keys.now starts.now k) × (length result.now ≤ most_names) }
{
    let key = keys[k];
    let j = (key % 256) as usize;
    let start = starts[j];
    let end = start + (key / 256) as usize;
    &words[start..end]
}

// ---- the two phases of a size

// What a phase has come to: so many touches and so many met.
#[derive(Clone, Copy)]
struct Walk {
    touches: usize,
    met: usize,
}

// The signature lists, tallied: each posting is a touch. `None` where they are more than the budget.
fn gather(
    words: &[u32],
    ids: &[u32],
    keys: &[u64],
    starts: &[usize],
    signatures: usize,
    budget: usize,
    counts: &mut [u32],
    met: &mut [usize],
) -> Option<Walk>
    requires ids_len_bound { (length ids.now ≤ most_names) × Ascending ids.now × Readable words.now ids.now keys.now starts.now × (signatures ≤ length keys.now) × (length keys.now ≤ most_features) }
    requires counts_value { (counts.old ≡ no_counts) × (length met.old ≡ most_names) }
    ensures { MatchOption result (Gathered ids.now (cut_lists words.now keys.now starts.now) signatures budget counts.new met.new true 0 0) (λ walk. Gathered ids.now (cut_lists words.now keys.now starts.now) signatures budget counts.new met.new false walk.touches walk.met) }
{
    let mut m = 0;
    let mut touches = 0;
    for k in 0..signatures {
        let list = list_in(words, keys, starts, k);
        if budget - touches < list.len() {
            return None;
        }
        touches += list.len();
        m = tally(ids, list, counts, met, m);
    }
    Some(Walk { touches, met: m })
}

// The later lists: each candidate that remains is tested once, a touch each. `None` where they are more than the budget.
fn narrow(
    words: &[u32],
    ids: &[u32],
    keys: &[u64],
    starts: &[usize],
    least: usize,
    budget: usize,
    counts: &mut [u32],
    met: &mut [usize],
    already: usize,
) -> Option<Walk>
    requires ids_len_bound { (length ids.now ≤ most_names) × Readable words.now ids.now keys.now starts.now × (length keys.now ≤ most_features) × (1 ≤ least) × (least ≤ length keys.now) }
    requires counts_value { (counts.old ≡ remain_table ids.now (cut_lists words.now keys.now starts.now) least 0) × (length met.old ≡ most_names) × MetBy counts.old met.old already }
    ensures { MatchOption result (Narrowed ids.now (cut_lists words.now keys.now starts.now) least budget counts.new met.new true 0 0) (λ walk. Narrowed ids.now (cut_lists words.now keys.now starts.now) least budget counts.new met.new false walk.touches walk.met) }
{
    let x = keys.len();
    let mut m = already;
    let mut touches = 0;
    for k in x - least + 1..x {
        if budget - touches < m {
            return None;
        }
        touches += m;
        let list = list_in(words, keys, starts, k);
        m = sift(ids, list, counts, met, m, (least - (x - k - 1)) as u32);
    }
    Some(Walk { touches, met: m })
}

// ---- both phases

// The counts of those met, moved into the answers by place: the counts are 0 again.
fn keep(counts: &mut [u32], met: &[usize], m: usize, answers: &mut [u32])
    requires { (length counts.old ≡ most_names) × MetBy counts.old met.now m × (length answers.old ≡ most_names) }
    ensures { (answers.new ≡ kept counts.old answers.old) × (counts.new ≡ no_counts) }
{
    for &i in &met[..m] {
        answers[i] = counts[i];
        counts[i] = 0;
    }
}

// The two phases over lists in order, and what is left kept among the answers. Answers how many touches they are, `None` where those are more than the
// budget. The counts and the places met are tables that the caller has made once: the counts come and go as 0.
pub fn walk_lists(
    words: &[u32],
    ids: &[u32],
    keys: &[u64],
    starts: &[usize],
    least: usize,
    budget: usize,
    counts: &mut [u32],
    met: &mut [usize],
    answers: &mut [u32],
) -> Option<usize>
    requires ids_len_bound { (length ids.now ≤ most_names) × Ascending ids.now × Readable words.now ids.now keys.now starts.now × (length keys.now ≤ most_features) × (1 ≤ least) × (least ≤ length keys.now) × (length answers.old ≡ most_names) }
    requires counts_value { (counts.old ≡ no_counts) × (length met.old ≡ most_names) }
    ensures { Walked ids.now (cut_lists words.now keys.now starts.now) least budget answers.old answers.new counts.new (past_in result) (spent_in result) }
{
    let signatures = keys.len() - least + 1;
    let first = gather(words, ids, keys, starts, signatures, budget, counts, met)?;
    let then = narrow(
        words,
        ids,
        keys,
        starts,
        least,
        budget - first.touches,
        counts,
        met,
        first.met,
    )?;
    keep(counts, met, then.met, answers);
    Some(first.touches + then.touches)
}
