// Many queries of one index at once: it is checked once, and the queries are answered in order as far as there is room. The rule: docs/RULE.md,
// "Many queries at once"; the definitions: specs/.
#![tactic(auto)]

ghost use Rattle.std.specs.Prelude.{◌≡◌, ◌-◌, ◌≤◌, ◌<◌, min, length, eqb, cond};
ghost use Rattle.refusals.specs.Refusals.{outcome_number};
ghost use Rattle.index.specs.Good.{good_of};
ghost use Rattle.search.specs.Answers.{answer_in, number_in, rows_in, touches_in, as_columns, columns_over};
ghost use Rattle.queries.specs.Queries.{most, as_outcomes, outcomes_over, columns_from, answer_for, rows_given, rows_before, outcomes_below, columns_below, reached_of, come_in, Asked};

use refusals::Refusal;
use search::Answer;

// What a call answers: whether every query has its outcome, and otherwise that there was no room; how many have, and how many rows were written.
#[derive(Clone, Copy)]
pub struct Come {
    pub outcome: Result<(), Refusal>,
    pub queries: u32,
    pub rows: u32,
}

// So many queries and rows at most that 32 bits can say how many.
const MOST: usize = 4294967295;

// ---- one query

// The search of the bytes from one place to another, its rows written from place `used` on and before `room`; 11 where they don't lie in order within
// the bytes.
fn one(
    good: bool,
    bytes: &[u8],
    from: usize,
    to: usize,
    measure: u8,
    p: u16,
    q: u16,
    allowance: u32,
    words: &[u32],
    used: usize,
    room: usize,
    ids: &mut [u32],
    shared: &mut [u32],
    sizes: &mut [u32],
    least: &mut [u32],
) -> Answer
    requires { (good ≡ good_of words.now) × (used ≤ room) × (room ≤ length ids.old) × (room ≤ length shared.old) × (room ≤ length sizes.old) × (room ≤ length least.old) }
    ensures { (answer_in result ≡ answer_for bytes.now from to measure p q allowance words.now (room - used)) × (as_columns ids.new shared.new sizes.new least.new ≡ columns_from used (rows_given bytes.now from to measure p q allowance words.now (answer_in result)) (as_columns ids.old shared.old sizes.old least.old)) }
{
    let query = bytes.get(from..to).ok_or(Refusal::Malformed)?;
    search::search_checked(
        good,
        query,
        measure,
        p,
        q,
        allowance,
        words,
        &mut ids[used..room],
        &mut shared[used..room],
        &mut sizes[used..room],
        &mut least[used..room],
    )
}

// Whether a search is refused for want of room.
fn lacks_room(answer: Answer) -> bool
    ensures { result ≡ eqb (number_in (answer_in answer)) 8 }
{
    match answer {
        Ok(_) => false,
        Err(refused) => refused.refusal == Refusal::NoRoom,
    }
}

// What an answer tells of a query.
#[derive(Clone, Copy)]
struct Told {
    number: u32,
    rows: usize,
    touches: u32,
}

fn tell(answer: Answer) -> Told
    ensures { (result.number ≡ number_in (answer_in answer)) × (result.rows ≡ rows_in (answer_in answer)) × (result.touches ≡ touches_in (answer_in answer)) }
{
    match answer {
        Ok(found) => Told {
            number: 0,
            rows: found.rows as usize,
            touches: found.touches,
        },
        Err(refused) => Told {
            number: u32::from(refused.refusal.number()),
            rows: 0,
            touches: refused.touches,
        },
    }
}

// ---- all of them

// How far it came: so many queries, with so many rows.
#[derive(Clone, Copy)]
struct Reached {
    queries: usize,
    rows: usize,
}

// The first n queries in order, until the rows of one have no room before `room`.
fn each_query(
    good: bool,
    bytes: &[u8],
    ends: &[u32],
    measure: u8,
    p: u16,
    q: u16,
    allowance: u32,
    words: &[u32],
    n: usize,
    room: usize,
    numbers: &mut [u32],
    until: &mut [u32],
    touches: &mut [u32],
    ids: &mut [u32],
    shared: &mut [u32],
    sizes: &mut [u32],
    least: &mut [u32],
) -> Reached
    requires good_value { (good ≡ good_of words.now) × (n ≤ length ends.now) × (n ≤ length numbers.old) × (n ≤ length until.old) × (n ≤ length touches.old) }
    requires room_le_most { (room ≤ most) × (room ≤ length ids.old) × (room ≤ length shared.old) × (room ≤ length sizes.old) × (room ≤ length least.old) }
    ensures queries_value { (result.queries ≡ reached_of bytes.now ends.now measure p q allowance words.now room n) × (result.rows ≡ rows_before bytes.now ends.now measure p q allowance words.now result.queries) × (result.queries ≤ n) × (result.rows ≤ room) }
    ensures touches_after { as_outcomes numbers.new until.new touches.new ≡ outcomes_over (outcomes_below bytes.now ends.now measure p q allowance words.now result.queries) (as_outcomes numbers.old until.old touches.old) }
    ensures least_after { as_columns ids.new shared.new sizes.new least.new ≡ columns_over (columns_below bytes.now ends.now measure p q allowance words.now result.queries) (as_columns ids.old shared.old sizes.old least.old) }
{
    let mut used = 0;
    let mut from = 0;
    for k in 0..n {
        let to = ends[k] as usize;
        let answer = one(
            good, bytes, from, to, measure, p, q, allowance, words, used, room, ids, shared, sizes,
            least,
        );
        if lacks_room(answer) {
            return Reached {
                queries: k,
                rows: used,
            };
        }
        let of = tell(answer);
        used += of.rows;
        numbers[k] = of.number;
        until[k] = used as u32;
        touches[k] = of.touches;
        from = to;
    }
    Reached {
        queries: n,
        rows: used,
    }
}

// The places that four columns have in common, as far as 32 bits can count them.
fn room_of(a: usize, b: usize, c: usize, d: usize) -> usize
    ensures { result ≡ min (min a (min b (min c d))) most }
{
    a.min(b).min(c).min(d).min(MOST)
}

// The outcome of a call that reached so many of the queries asked.
fn outcome_of(reached: usize, asked: usize) -> Result<(), Refusal>
    ensures { outcome_number result ≡ cond (eqb reached asked) 0 8 }
{
    if reached == asked {
        Ok(())
    } else {
        Err(Refusal::NoRoom)
    }
}

// The names that are like each of many queries by one measure and threshold, within an allowance for each.
pub fn search_many(
    bytes: &[u8],
    ends: &[u32],
    measure: u8,
    p: u16,
    q: u16,
    allowance: u32,
    words: &[u32],
    numbers: &mut [u32],
    until: &mut [u32],
    touches: &mut [u32],
    ids: &mut [u32],
    shared: &mut [u32],
    sizes: &mut [u32],
    least: &mut [u32],
) -> Come
    ensures { Asked bytes.now ends.now measure p q allowance words.now (as_outcomes numbers.old until.old touches.old) (as_outcomes numbers.new until.new touches.new) (as_columns ids.old shared.old sizes.old least.old) (as_columns ids.new shared.new sizes.new least.new) (come_in result) }
{
    let good = index::good(words);
    let n = room_of(ends.len(), numbers.len(), until.len(), touches.len());
    let room = room_of(ids.len(), shared.len(), sizes.len(), least.len());
    let reached = each_query(
        good, bytes, ends, measure, p, q, allowance, words, n, room, numbers, until, touches, ids,
        shared, sizes, least,
    );
    let outcome = outcome_of(reached.queries, ends.len());
    let queries = reached.queries as u32;
    let rows = reached.rows as u32;
    Come {
        outcome,
        queries,
        rows,
    }
}
