// What a good index is, and the check of it. The rule: docs/RULE.md, "Index words"; the definitions: specs/.
#![tactic(auto)]

ghost use Rattle.std.specs.Prelude.{◌≡◌, true, ℕ, ◌+◌, ◌-◌, ◌*◌, ◌≤◌, ◌<◌, length, get_or, eqb};
ghost use Rattle.std.specs.Option.{unwrap_or};
ghost use Rattle.laws.specs.Below.{all_below};
ghost use Rattle.words.specs.Words.{name_count, row_count, name_width, name_start, name_size};
ghost use Rattle.binary_search.specs.Seats.{seat_of};
ghost use Rattle.index.specs.Good.{ids_in, head_good, name_good, names_good, rows_good, list_good, lists_good, good_of};
ghost use Rattle.index.specs.Check.{Named, Checked, Tallied, name_for, NameAt, NameFor, guess_room};

use binary_search::Seat;

// The most names, the most postings, the largest id, the least and the largest size of a good index.
pub const MOST_NAMES: usize = 256;

pub const MOST_POSTINGS: usize = MOST_NAMES * names::FeatureSet::CAPACITY;

pub const LARGEST_ID: u32 = 65535;

pub const LEAST_SIZE: u32 = 3;

pub const LARGEST_SIZE: u32 = names::FeatureSet::CAPACITY as u32;

fn head_good(words: &[u32]) -> bool
    ensures { result ≡ head_good words.now }
{
    words::HEAD_WIDTH <= words.len()
        && words::name_count(words) <= MOST_NAMES
        && words::posting_count(words) <= MOST_POSTINGS
        && words::postings_start(words) + words::posting_count(words) <= words.len()
}

fn name_good(words: &[u32], i: usize) -> bool
    requires { name_start i + name_width ≤ length words.now }
    ensures { result ≡ name_good words.now i }
{
    words::name_id(words, i) <= LARGEST_ID
        && (LEAST_SIZE..=LARGEST_SIZE).contains(&words::name_size(words, i))
}

fn names_good(words: &[u32]) -> bool
    requires { head_good words.now ≡ true }
    ensures { result ≡ names_good words.now }
{
    (0..words::name_count(words)).all(|i| {
        name_good(words, i) && (i == 0 || words::name_id(words, i - 1) < words::name_id(words, i))
    })
}

fn rows_good(words: &[u32]) -> bool
    requires { head_good words.now ≡ true }
    ensures { result ≡ rows_good words.now }
{
    let rows = words::row_count(words);
    let mut due = 0;
    for r in 0..rows {
        let count = words::row_length(words, r);
        if count < 1 {
            return false;
        }
        if words::row_place(words, r) != due {
            return false;
        }
        if 0 < r && words::row_key(words, r) <= words::row_key(words, r - 1) {
            return false;
        }
        due += count;
    }
    due == words::posting_count(words)
}

// Where the id stands among the names' ids.
pub fn name_seat(words: &[u32], id: u32) -> Seat
    requires { Named words.now }
    ensures { result ≡ seat_of (ids_in words.now) id }
{
    let names = words::name_count(words);
    if LARGEST_ID < id {
        return Seat::Before(names);
    }
    let first = u64::from(words::SIZE_ROOM) * u64::from(id);
    let at = binary_search::place_in_column(
        words,
        words::NAMES_START,
        words::NAME_WIDTH,
        names,
        first,
    );
    if at < names && words::name_id(words, at) == id {
        Seat::At(at)
    } else {
        Seat::Before(at)
    }
}

// The place of the name of that id and that size, if there is one.
fn name_for(words: &[u32], size: u32, id: u32) -> Option<usize>
    requires { Named words.now }
    ensures found { NameFor words.now size id result }
    ensures place { unwrap_or result (name_count words.now) ≡ name_for words.now size id }
{
    match name_seat(words, id) {
        Seat::At(at) if words::name_size(words, at) == size => Some(at),
        _ => None,
    }
}

// How many guesses there are of each of two kinds: by the last twelve bits of an id, and behind them by the first twelve of its sixteen.
const GUESSES: usize = 4096;

// Sets both guesses of each name's id: the name's place, the last one where names share a guess.
fn guess_names(words: &[u32], guesses: &mut [u8])
    requires { Named words.now × (guess_room ≤ length guesses.old) }
{
    for i in 0..words::name_count(words) {
        let id = words::name_id(words, i) as usize;
        guesses[id % GUESSES] = i as u8;
        guesses[GUESSES + id / 16 % GUESSES] = i as u8;
    }
}

// Whether the guess is the place of the name of that id and that size, the one that name_for finds.
fn is_name(words: &[u32], guess: usize, size: u32, id: u32) -> bool
    requires { Named words.now }
    ensures found { result ≡ true → NameAt words.now size id guess }
    ensures place { result ≡ true → guess ≡ name_for words.now size id }
{
    guess < words::name_count(words)
        && words::name_id(words, guess) == id
        && words::name_size(words, guess) == size
}

// As name_for, whatever the guesses are: a guess that is the name saves the search.
fn name_near(words: &[u32], guesses: &[u8], size: u32, id: u32) -> Option<usize>
    requires { Named words.now × (guess_room ≤ length guesses.now) }
    ensures found { NameFor words.now size id result }
    ensures place { unwrap_or result (name_count words.now) ≡ name_for words.now size id }
{
    let last = usize::from(guesses[id as usize % GUESSES]);
    if is_name(words, last, size, id) {
        return Some(last);
    }
    let first = usize::from(guesses[GUESSES + id as usize / 16 % GUESSES]);
    if is_name(words, first, size, id) {
        return Some(first);
    }
    name_for(words, size, id)
}

// Whether row r's list is good; where it is, the tally has one more at the place of each of its names.
fn list_good(words: &[u32], guesses: &[u8], r: usize, tally: &mut [u32]) -> bool
    requires { Checked words.now × (guess_room ≤ length guesses.now) × (r < row_count words.now) × (name_count words.now ≤ length tally.old) × Tallied words.now r tally.old }
    ensures value { result ≡ list_good words.now r }
    ensures tallied { result ≡ true → Tallied words.now (r + 1) tally.new }
{
    let first = words::postings_start(words) + words::row_place(words, r);
    let list = &words[first..first + words::row_length(words, r)];
    let size = words::row_size(words, r);
    let mut next = 0;
    for &id in list {
        if u64::from(id) < next {
            return false;
        }
        let Some(at) = name_near(words, guesses, size, id) else {
            return false;
        };
        tally[at] += 1;
        next = u64::from(id) + 1;
    }
    true
}

// Whether every row's list is good; where they are, the tally has how many lists hold each name.
fn rows_tallied(words: &[u32], guesses: &[u8], tally: &mut [u32]) -> bool
    requires { Checked words.now × (guess_room ≤ length guesses.now) × (name_count words.now ≤ length tally.old) × Tallied words.now 0 tally.old }
    ensures value { result ≡ all_below (row_count words.now) (list_good words.now) }
    ensures tallied { result ≡ true → Tallied words.now (row_count words.now) tally.new }
{
    for row in 0..words::row_count(words) {
        if !list_good(words, guesses, row, tally) {
            return false;
        }
    }
    true
}

// Whether each name's number in the tally is its size.
fn tally_good(words: &[u32], tally: &[u32]) -> bool
    requires { (head_good words.now ≡ true) × (name_count words.now ≤ length tally.now) }
    ensures { result ≡ all_below (name_count words.now) (λ (i : ℕ). eqb (get_or tally.now i 0) (name_size words.now i)) }
{
    (0..words::name_count(words)).all(|at| tally[at] == words::name_size(words, at))
}

fn lists_good(words: &[u32]) -> bool
    requires { Checked words.now }
    ensures { result ≡ lists_good words.now }
{
    let mut guesses = [0; 2 * GUESSES];
    guess_names(words, &mut guesses);
    let mut tally = [0; MOST_NAMES];
    rows_tallied(words, &guesses, &mut tally) && tally_good(words, &tally)
}

// Whether the words are a good index, whatever they are.
pub fn good(words: &[u32]) -> bool
    ensures { result ≡ good_of words.now }
{
    head_good(words) && names_good(words) && rows_good(words) && lists_good(words)
}
