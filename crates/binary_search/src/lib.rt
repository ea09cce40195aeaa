// The binary search of a column of words, with the powers of two that it goes by, and where a number stands in an ascending list. What is right is
// `count_below` of the crate laws, and `seat_of` of specs/Seats.antt.
#![tactic(auto)]

ghost use Rattle.std.specs.Prelude.{◌≡◌, cond, ℕ, ◌+◌, ◌*◌, ◌^◌, ◌≤◌, ◌<◌, length, ltb};
ghost use Rattle.laws.specs.Lists.{Ascending};
ghost use Rattle.laws.specs.Below.{count_below};
ghost use Rattle.binary_search.specs.Column.{column_at, Rising};
ghost use Rattle.binary_search.specs.Seats.{seat_place, seat_of};

// 2 to the power of k.
fn power(k: u32) -> usize
    requires { k < 64 }
    ensures { result ≡ 2 ^ k }
{
    1 << k
}

// 2 to the power of k where b holds, and 0 otherwise: by a shift, so that a search has no jump to guess.
fn power_if(b: bool, k: u32) -> usize
    requires { k < 64 }
    ensures { result ≡ cond b (2 ^ k) 0 }
{
    (b as usize) << k
}

// 1 where b holds, and 0 otherwise.
pub fn one_if(b: bool) -> usize
    ensures { result ≡ cond b 1 0 }
{
    b as usize
}

// How many of n words are below x: those of a column, the words `width` apart from `first` on, none above a later one. Words are compared as
// 32 bits, which is quicker, and all of them are below an x that does not fit.
pub fn place_in_column(words: &[u32], first: usize, width: usize, n: usize, x: u64) -> usize
    requires { (n ≤ length words.now) × ((i : ℕ) → i < n → first + width * i < length words.now) × Rising (column_at words.now first width) n }
    ensures { result ≡ count_below n (λ (i : ℕ). ltb (column_at words.now first width i) x) }
{
    if 0xFFFFFFFF < x {
        return n;
    }
    let y = x as u32;
    let top = (n + 1).ilog2();
    let rest = n + 1 - power(top);
    let mut base: usize = 0;
    if 0 < rest && words[first + width * (rest - 1)] < y {
        base = rest;
    }
    for k in (0..top).rev() {
        let at = base + power(k) - 1;
        base += power_if(words[first + width * at] < y, k);
    }
    base
}

// Where a number stands in an ascending list: at that place where it is there, and otherwise before the one at that place, or behind all. Either way so
// many are below it.
#[derive(Clone, Copy)]
pub enum Seat {
    At(usize),
    Before(usize),
}

// The place of a seat, either way.
pub fn place_of(seat: Seat) -> usize
    ensures { result ≡ seat_place seat }
{
    match seat {
        Seat::At(place) => place,
        Seat::Before(place) => place,
    }
}

// The seat of x in an ascending list.
pub fn seat_in(list: &[u32], x: u32) -> Seat
    requires { Ascending list.now }
    ensures { result ≡ seat_of list.now x }
{
    let at = place_in_column(list, 0, 1, list.len(), x as u64);
    if at < list.len() && list[at] == x {
        return Seat::At(at);
    }
    Seat::Before(at)
}

// The same; where x stands at `guess`, nothing is searched.
pub fn seat_near(list: &[u32], x: u32, guess: usize) -> Seat
    requires { Ascending list.now }
    ensures { result ≡ seat_of list.now x }
{
    if guess < list.len() && list[guess] == x {
        return Seat::At(guess);
    }
    seat_in(list, x)
}
