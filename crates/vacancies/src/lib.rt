// The words that go with a name of a good index: its id in the lists, and the rows that then list nobody. What is right stands in the crate changes,
// specs/Cuts.antt; of one row, in specs/Steps.antt here.
#![tactic(auto)]

ghost use Rattle.std.specs.Prelude.{◌≡◌, true, [], ◌∷◌, ◌++◌, map, ℕ, ◌+◌, ◌*◌, ◌^◌, ◌≤◌, ◌<◌, length, take};
ghost use Rattle.std.proofs.lemmas.List.Edits.{sets};
ghost use Rattle.names.specs.Features.{most_features};
ghost use Rattle.words.specs.Words.{name_count, row_count, name_id, name_size, row_width, rows_start, row_size};
ghost use Rattle.index.specs.Good.{Good};
ghost use Rattle.index_writer.specs.Contents.{all_rows_in};
ghost use Rattle.changes.specs.Cuts.{thin_row, empty_cuts, id_cuts, thinned_to};
ghost use Rattle.vacancies.specs.Steps.{RowLies, holds_id, thin_at, id_at, empty_at};

use binary_search::Seat;

// ---- one row

// Puts the places of a row's words behind n others.
fn put_places(place: usize, at: &mut [u32], n: usize)
    requires { (place + row_width ≤ 2 ^ 32) × (n + row_width ≤ length at.old) }
    ensures { at.new ≡ sets at.old n (place ∷ (place + 1) ∷ (place + 2) ∷ (place + 3) ∷ []) }
{
    let word = place as u32;
    at[n..n + words::ROW_WIDTH].copy_from_slice(&[word, word + 1, word + 2, word + 3]);
}

// How many places of rows' words and how many places among the postings there are.
#[derive(Clone, Copy)]
pub struct Noted {
    pub rows: usize,
    pub postings: usize,
}

// Where row r's list holds the id, puts its place among the postings behind k others and makes the row's count one less; where that is then 0, puts
// the places of the row's words behind n others. A row of another size does not hold it, and is passed over.
fn note_row(
    words: &mut [u32],
    r: usize,
    id: u32,
    size: u32,
    at: &mut [u32],
    n: usize,
    postings: &mut [u32],
    k: usize,
) -> Noted
    requires { RowLies words.old r × (holds_id words.old r id ≡ true → row_size words.old r ≡ size) × (n + row_width ≤ length at.old) × (holds_id words.old r id ≡ true → k < length postings.old) }
    ensures { (words.new ≡ thin_at words.old r id) × (result.postings ≡ k + length (id_at words.old r id)) × (take result.postings postings.new ≡ take k postings.old ++ id_at words.old r id) × (result.rows ≡ n + length (empty_at words.old r id)) × (take result.rows at.new ≡ take n at.old ++ empty_at words.old r id) }
{
    if words::row_size(words, r) != size {
        return Noted {
            rows: n,
            postings: k,
        };
    }
    let seat = lists::id_seat(words, r, id);
    let Seat::At(place) = seat else {
        return Noted {
            rows: n,
            postings: k,
        };
    };
    let count = words::row_length(words, r);
    postings[k] = (words::row_place(words, r) + place) as u32;
    let row = words::row_start(words, r);
    words[row + words::LENGTH_COLUMN] = (count - 1) as u32;
    if count == 1 {
        put_places(row, at, n);
        return Noted {
            rows: n + words::ROW_WIDTH,
            postings: k + 1,
        };
    }
    Noted {
        rows: n,
        postings: k + 1,
    }
}

// ---- all rows

// Goes over the rows of a good index that has a name of this id and size: puts the places of the id among the postings into `postings`, makes the
// counts of these rows one less, and puts the places of the words of those that are then empty behind n others.
pub fn note_rows(
    words: &mut [u32],
    id: u32,
    size: u32,
    at: &mut [u32],
    n: usize,
    postings: &mut [u32],
) -> Noted
    requires { Good words.old × ((i : ℕ) × (i < name_count words.old) × (name_id words.old i ≡ id) × (name_size words.old i ≡ size)) × (n + row_width * (most_features + 1) ≤ length at.old) × (most_features ≤ length postings.old) }
    ensures { (words.new ≡ thinned_to (row_count words.old) (rows_start words.old) id (all_rows_in words.old) words.old) × (result.postings ≡ length (id_cuts id (all_rows_in words.old))) × (take result.postings postings.new ≡ id_cuts id (all_rows_in words.old)) × (result.rows ≡ n + length (empty_cuts (map (thin_row id) (all_rows_in words.old)))) × (take result.rows at.new ≡ take n at.old ++ map (λ (p : ℕ). rows_start words.old + p) (empty_cuts (map (thin_row id) (all_rows_in words.old)))) }
{
    let d = words::row_count(words);
    let mut m = n;
    let mut k = 0;
    for r in 0..d {
        let noted = note_row(words, r, id, size, at, m, postings, k);
        m = noted.rows;
        k = noted.postings;
    }
    Noted {
        rows: m,
        postings: k,
    }
}
