// Pools open and close: a name is added to a good index, or withdrawn from it, in place. The rule: docs/RULE.md, "Adding and withdrawing a name"; the
// definitions: specs/. Where words go or stand is worked out before any is moved, so that a refusal changes none; then all move in one pass.
#![tactic(auto)]

ghost use Rattle.std.specs.Prelude.{◌≡◌, cond, ◌++◌, map, ℕ, ◌+◌, ◌*◌, ◌^◌, ◌≤◌, ◌<◌, length, get_or, take};
ghost use Rattle.laws.specs.Sort.{sort_of};
ghost use Rattle.refusals.specs.Refusals.{outcome_number};
ghost use Rattle.names.specs.Names.{judge_of};
ghost use Rattle.names.specs.Features.{features_of, most_features};
ghost use Rattle.words.specs.Words.{name_count, name_id};
ghost use Rattle.index.specs.Good.{Good};
ghost use Rattle.index_writer.specs.Written.{fits_in, pad_to};
ghost use Rattle.upkeep.specs.Upkeep.{changed_if, added_of, words_added, index_without, withdrawn_of, words_withdrawn};
ghost use Rattle.upkeep.specs.Adding.{most_moved, Addable, index_for, cuts_for, words_for};

use binary_search::Seat;
use refusals::Refusal;

// The most words that a change puts in or takes out: a name's, and for each feature those of a row and one posting.
pub const MOST_MOVED: usize = words::NAME_WIDTH
    + (words::ROW_WIDTH + 1) * names::FeatureSet::CAPACITY;

// ---- parts

// Copies features, which fit 32 bits.
fn narrow(items: &[u64], out: &mut [u32])
    requires { (length out.old ≡ length items.now) × ((i : ℕ) → i < length items.now → get_or items.now i 0 < 2 ^ 32) }
    ensures { out.new ≡ items.now }
{
    for (i, item) in items.iter().enumerate() {
        out[i] = *item as u32;
    }
}

// Puts the features of a good name into `out`, in ascending order. Answers how many there are.
#[inline(never)]
fn sorted_features(name: &[u8], out: &mut [u32]) -> usize
    requires { (judge_of name.now ≡ 0) × (length out.old ≡ most_features) }
    ensures { (result ≡ length (features_of name.now)) × (take result out.new ≡ sort_of (features_of name.now)) }
{
    let set = names::features_good(name);
    let k = set.len;
    let mut items = set.items;
    let mut spare = [0u64; names::FeatureSet::CAPACITY];
    sorting::sort(&mut items[..k], &mut spare[..k]);
    narrow(&items[..k], &mut out[..k]);
    k
}

// Puts places among the postings, which start at `first`, behind n others.
fn put_postings(postings: &[u32], first: usize, at: &mut [u32], n: usize)
    requires { (n + length postings.now ≤ length at.old) × ((i : ℕ) → i < length postings.now → first + get_or postings.now i 0 < 2 ^ 32) }
    ensures { take (n + length postings.now) at.new ≡ take n at.old ++ map (λ (p : ℕ). first + p) postings.now }
{
    for (j, posting) in postings.iter().enumerate() {
        at[n + j] = (first + *posting as usize) as u32;
    }
}

// ---- a name more

// Puts where the words of a name go, and which they are, into tables that are lent. Answers how many they are.
fn put_words(
    words: &[u32],
    id: u32,
    place: usize,
    features: &[u32],
    at: &mut [u32],
    values: &mut [u32],
    postings: &mut [u32],
) -> usize
    requires { Addable words.now id place features.now × (most_moved ≤ length at.old) × (most_moved ≤ length values.old) × (length postings.old ≡ length features.now) }
    ensures { (result ≡ length (cuts_for words.now id features.now)) × (take result at.new ≡ cuts_for words.now id features.now) × (take result values.new ≡ words_for words.now id features.now) }
{
    let k = features.len();
    at[0] = (words::NAMES_START + words::NAME_WIDTH * place) as u32;
    values[0] = id * words::SIZE_ROOM + k as u32;
    let rows = seats::put_seats(words, id, features, at, values, 1, postings);
    let many = rows + k;
    put_postings(postings, words::postings_start(words), at, rows);
    values[rows..many].fill(id);
    many
}

// Adds a name of an id that is not live, with tables that are lent. Refuses it where the index that would result does not fit.
fn add_with(
    words: &mut [u32],
    id: u32,
    place: usize,
    features: &[u32],
    at: &mut [u32],
    values: &mut [u32],
    postings: &mut [u32],
) -> Result<(), Refusal>
    requires { Addable words.old id place features.now × (most_moved ≤ length at.old) × (most_moved ≤ length values.old) × (length postings.old ≡ length features.now) }
    ensures { (outcome_number result ≡ cond (fits_in (length words.old) (index_for words.old id features.now)) 0 8) × (words.new ≡ changed_if (outcome_number result) (index_for words.old id features.now) words.old) }
{
    let k = features.len();
    let many = put_words(words, id, place, features, at, values, postings);
    let n = words::name_count(words);
    let d = words::row_count(words);
    let p = words::posting_count(words);
    let total = words::postings_start(words) + p;
    if words.len() < total + many {
        return Err(Refusal::NoRoom);
    }
    splicing::put_in(words, total, &at[..many], &values[..many]);
    let new = (many - 1 - k) / words::ROW_WIDTH;
    settling::settle(words, n + 1, d + new, p + k, k as u32, features);
    Ok(())
}

// Adds a name under an id. Refused first where the words are no good index; then for a bad name; where the id is live, where 256 names are, and where the
// index that would result does not fit. A refusal changes no word.
pub fn add(words: &mut [u32], id: u16, name: &[u8]) -> Result<(), Refusal>
    ensures { (outcome_number result ≡ added_of words.old id name.now) × (words.new ≡ words_added words.old id name.now) }
{
    if !index::good(words) {
        return Err(Refusal::BadIndex);
    }
    names::judge(name)?;
    let wide = u32::from(id);
    let seat = index::name_seat(words, wide);
    let Seat::Before(place) = seat else {
        return Err(Refusal::TakenId);
    };
    if words::name_count(words) == index::MOST_NAMES {
        return Err(Refusal::TooMany);
    }
    let mut features = [0u32; names::FeatureSet::CAPACITY];
    let k = sorted_features(name, &mut features);
    let mut at = [0u32; MOST_MOVED];
    let mut values = [0u32; MOST_MOVED];
    let mut postings = [0u32; names::FeatureSet::CAPACITY];
    add_with(
        words,
        wide,
        place,
        &features[..k],
        &mut at,
        &mut values,
        &mut postings[..k],
    )
}

// ---- a name less

// Withdraws the name at a place, with tables that are lent.
fn withdraw_with(words: &mut [u32], id: u32, place: usize, at: &mut [u32], postings: &mut [u32])
    requires { Good words.old × (place < name_count words.old) × (name_id words.old place ≡ id) × (most_moved ≤ length at.old) × (most_features ≤ length postings.old) }
    ensures { words.new ≡ pad_to (length words.old) (index_without words.old id) }
{
    let n = words::name_count(words);
    let d = words::row_count(words);
    let p = words::posting_count(words);
    let first = words::postings_start(words);
    let size = words::name_size(words, place);
    at[0] = (words::NAMES_START + words::NAME_WIDTH * place) as u32;
    let noted = vacancies::note_rows(words, id, size, at, 1, postings);
    let rows = noted.rows;
    let k = noted.postings;
    put_postings(&postings[..k], first, at, rows);
    let many = rows + k;
    splicing::take_out(words, first + p, &at[..many]);
    let empty = (rows - 1) / words::ROW_WIDTH;
    settling::settle(words, n - 1, d - empty, p - k, size, &postings[..0]);
}

// Withdraws an id. Refused where the words are no good index, then where the id is not live. A refusal changes no word.
pub fn withdraw(words: &mut [u32], id: u16) -> Result<(), Refusal>
    ensures { (outcome_number result ≡ withdrawn_of words.old id) × (words.new ≡ words_withdrawn words.old id) }
{
    if !index::good(words) {
        return Err(Refusal::BadIndex);
    }
    let wide = u32::from(id);
    let seat = index::name_seat(words, wide);
    let Seat::At(place) = seat else {
        return Err(Refusal::NotLive);
    };
    let mut at = [0u32; MOST_MOVED];
    let mut postings = [0u32; names::FeatureSet::CAPACITY];
    withdraw_with(words, wide, place, &mut at, &mut postings);
    Ok(())
}
