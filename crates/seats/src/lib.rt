// Where the words of a name go in a good index: its rows, and its id in their lists. What is right stands in the crate changes, specs/Cuts.antt.
#![tactic(auto)]

ghost use Rattle.std.specs.Prelude.{◌≡◌, [], ◌∷◌, ◌++◌, map, ℕ, ◌+◌, ◌*◌, ◌^◌, ◌≤◌, ◌<◌, length, take, replicate};
ghost use Rattle.std.proofs.lemmas.List.Edits.{sets};
ghost use Rattle.names.specs.Features.{most_features};
ghost use Rattle.words.specs.Words.{name_count, row_count, name_start, row_width, key_of};
ghost use Rattle.index.specs.Good.{Good};
ghost use Rattle.lists.specs.Sizes.{rows_under};
ghost use Rattle.index_writer.specs.Built.{lists_of};
ghost use Rattle.index_writer.specs.Contents.{all_rows_in};
ghost use Rattle.binary_search.specs.Seats.{seat_of};
ghost use Rattle.changes.specs.Rows.{keys_in};
ghost use Rattle.changes.specs.Cuts.{row_cuts, new_rows, posting_seat, posting_cuts};

use binary_search::Seat;

// ---- one row

// Where the row of a size and a feature stands among all rows, sought among those from `from` to `to`, which are those of the size.
fn row_seat(words: &[u32], size: u32, from: usize, to: usize, feature: u32) -> Seat
    requires { Good words.now × (from ≡ rows_under words.now size) × (to ≡ rows_under words.now (size + 1)) }
    ensures { result ≡ seat_of (keys_in (all_rows_in words.now)) (key_of size feature) }
{
    let feature = u64::from(feature);
    let first = words::row_start(words, from) + words::FEATURE_COLUMN;
    let r = from
        + binary_search::place_in_column(words, first, words::ROW_WIDTH, to - from, feature);
    if r < to && words::row_feature(words, r) == feature {
        return Seat::At(r);
    }
    Seat::Before(r)
}

// How many postings the first r rows have.
fn list_seat(words: &[u32], r: usize) -> usize
    requires { Good words.now × (r ≤ row_count words.now) }
    ensures { result ≡ length (lists_of (take r (all_rows_in words.now))) }
{
    if r < words::row_count(words) {
        return words::row_place(words, r);
    }
    words::posting_count(words)
}

// ---- a name more

// Puts the place of a new row's words, four times, and its words behind n others.
fn put_row(place: usize, size: u32, feature: u32, at: &mut [u32], values: &mut [u32], n: usize)
    requires { (place < 2 ^ 32) × (n + row_width ≤ length at.old) × (n + row_width ≤ length values.old) }
    ensures { (at.new ≡ sets at.old n (replicate row_width place)) × (values.new ≡ sets values.old n (size ∷ feature ∷ 0 ∷ 0 ∷ [])) }
{
    let word = place as u32;
    let end = n + words::ROW_WIDTH;
    at[n..end].fill(word);
    values[n..end].copy_from_slice(&[size, feature, 0, 0]);
}

// Where the id goes among the postings for a feature, and how many places of new rows there are then.
#[derive(Clone, Copy)]
struct Seated {
    posting: usize,
    count: usize,
}

// Seeks the seat of one feature. Where it has no row, a new row's places and words are put behind n others.
fn seat(
    words: &[u32],
    id: u32,
    size: u32,
    from: usize,
    to: usize,
    feature: u32,
    at: &mut [u32],
    values: &mut [u32],
    n: usize,
) -> Seated
    requires { Good words.now × (from ≡ rows_under words.now size) × (to ≡ rows_under words.now (size + 1)) × (n + row_width ≤ length at.old) × (n + row_width ≤ length values.old) }
    ensures { (result.posting ≡ posting_seat size id (all_rows_in words.now) feature) × (result.count ≡ n + length (row_cuts size (all_rows_in words.now) (feature ∷ []))) × (take result.count at.new ≡ take n at.old ++ map (λ (p : ℕ). name_start (name_count words.now) + p) (row_cuts size (all_rows_in words.now) (feature ∷ []))) × (take result.count values.new ≡ take n values.old ++ new_rows size (all_rows_in words.now) (feature ∷ [])) }
{
    let row = row_seat(words, size, from, to, feature);
    match row {
        Seat::At(r) => {
            let seat = lists::id_seat(words, r, id);
            Seated {
                posting: list_seat(words, r) + binary_search::place_of(seat),
                count: n,
            }
        }
        Seat::Before(r) => {
            put_row(words::row_start(words, r), size, feature, at, values, n);
            Seated {
                posting: list_seat(words, r),
                count: n + words::ROW_WIDTH,
            }
        }
    }
}

// Seeks the seats of a name's features, which ascend: puts the places and the words of new rows behind n others, and the places of its id among the
// postings into `postings`. Answers how many places and words there are then.
pub fn put_seats(
    words: &[u32],
    id: u32,
    features: &[u32],
    at: &mut [u32],
    values: &mut [u32],
    n: usize,
    postings: &mut [u32],
) -> usize
    requires { Good words.now × (length features.now ≤ most_features) × (length postings.old ≡ length features.now) × (n + row_width * length features.now ≤ length at.old) × (n + row_width * length features.now ≤ length values.old) }
    ensures { (result ≡ n + length (row_cuts (length features.now) (all_rows_in words.now) features.now)) × (take result at.new ≡ take n at.old ++ map (λ (p : ℕ). name_start (name_count words.now) + p) (row_cuts (length features.now) (all_rows_in words.now) features.now)) × (take result values.new ≡ take n values.old ++ new_rows (length features.now) (all_rows_in words.now) features.now) × (postings.new ≡ posting_cuts (length features.now) id (all_rows_in words.now) features.now) }
{
    let size = features.len() as u32;
    let wide = u64::from(size);
    let from = lists::rows_under(words, wide, 0);
    let to = lists::rows_under(words, wide + 1, from);
    let mut m = n;
    for (j, feature) in features.iter().enumerate() {
        let seated = seat(words, id, size, from, to, *feature, at, values, m);
        postings[j] = seated.posting as u32;
        m = seated.count;
    }
    m
}
