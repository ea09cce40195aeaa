// Readings by id and week: sums and counts over entries in any order. Nothing here knows names, lines or an index.
// The definitions: specs/.
#![tactic(auto)]

ghost use Rattle.std.specs.Prelude.{◌≡◌, ◌+◌, ◌*◌, ◌≤◌, ◌<◌, cond, Some, None, length, get_or, set};
ghost use Rattle.laws.specs.Sort.{sort_of, Sorted};
ghost use Rattle.weeks.specs.Pairs.{week_of, pair_of, entry_of, id_in, week_in, pair_in, reading_in, present, amount, tally, pairs_of, as_columns, room_of, columns_of, columns_over, paired_in, paired_of, columns_after};
ghost use Rattle.weeks.specs.Steps.{first_at, with_entry};

use refusals::Refusal;

// How many pairs there are so far, and the sum and count of the last of them.
#[derive(Clone, Copy)]
pub struct Tally {
    pub pairs: usize,
    pub sum: u32,
    pub count: u32,
}

// The entry of a reading that belongs to an id.
pub fn entry(id: u32, day: u16, reading: u16) -> u64
    ensures { result ≡ entry_of (pair_of id (week_of day)) reading }
{
    let week = day / 7;
    (u64::from(id) * 65536 + u64::from(week)) * 65536 + u64::from(reading)
}

// Whether the entry at `i` has another pair than the one before it.
fn first_at(entries: &[u64], i: usize) -> bool
    requires { i < length entries.now }
    ensures { result ≡ first_at entries.now i }
{
    i == 0 || entries[i] / 65536 != entries[i - 1] / 65536
}

// The reading of an entry, where it has one.
fn reading_in(entry: u64) -> Option<u16>
    ensures { result ≡ cond (present entry) (Some (reading_in entry)) None }
{
    match (entry % 65536) as u16 {
        u16::MAX => None,
        reading => Some(reading),
    }
}

// What an entry adds to the sum of its pair.
fn amount_of(entry: u64) -> u32
    ensures { (result ≡ amount (pair_in entry) entry) × (result ≤ 65535) }
{
    reading_in(entry).map_or(0, u32::from)
}

// What an entry adds to the count of its pair.
fn tally_of(entry: u64) -> u32
    ensures { (result ≡ tally (pair_in entry) entry) × (result ≤ 1) }
{
    reading_in(entry).map_or(0, |_| 1)
}

// Takes the entry at `i` in.
fn with_entry(entries: &[u64], i: usize, t: Tally) -> Tally
    requires { (i < length entries.now) × (i ≤ 1024) × (t.pairs ≤ i) × (t.sum ≤ 65535 * i) × (t.count ≤ i) }
    ensures { result ≡ with_entry entries.now i t }
{
    let e = entries[i];
    let sum = amount_of(e);
    let count = tally_of(e);
    if first_at(entries, i) {
        let pairs = t.pairs + 1;
        return Tally { pairs, sum, count };
    }
    Tally {
        pairs: t.pairs,
        sum: t.sum + sum,
        count: t.count + count,
    }
}

// How many pairs sorted entries have.
fn count_pairs(entries: &[u64]) -> usize
    requires { Sorted entries.now × (length entries.now ≤ 1024) }
    ensures { result ≡ length (pairs_of entries.now) }
{
    let mut t = Tally {
        pairs: 0,
        sum: 0,
        count: 0,
    };
    for i in 0..entries.len() {
        t = with_entry(entries, i, t);
    }
    t.pairs
}

// Puts the pair of an entry, with its sum and count, at place `at` of the columns.
fn put_pair(
    at: usize,
    entry: u64,
    t: Tally,
    ids: &mut [u32],
    weeks: &mut [u32],
    sums: &mut [u32],
    counts: &mut [u32],
)
    requires { (at < length ids.old) × (at < length weeks.old) × (at < length sums.old) × (at < length counts.old) }
    ensures { as_columns ids.new weeks.new sums.new counts.new ≡ as_columns (set ids.old at (id_in (pair_in entry))) (set weeks.old at (week_in (pair_in entry))) (set sums.old at t.sum) (set counts.old at t.count) }
{
    let pair = entry / 65536;
    ids[at] = (pair / 65536) as u32;
    weeks[at] = (pair % 65536) as u32;
    sums[at] = t.sum;
    counts[at] = t.count;
}

// Writes the pairs of sorted entries at the start of the columns, which have the room.
fn put_pairs(
    entries: &[u64],
    ids: &mut [u32],
    weeks: &mut [u32],
    sums: &mut [u32],
    counts: &mut [u32],
)
    requires { Sorted entries.now × (length entries.now ≤ 1024) × (length (pairs_of entries.now) ≤ room_of (as_columns ids.old weeks.old sums.old counts.old)) }
    ensures { as_columns ids.new weeks.new sums.new counts.new ≡ columns_over (columns_of entries.now) (as_columns ids.old weeks.old sums.old counts.old) }
{
    let mut t = Tally {
        pairs: 0,
        sum: 0,
        count: 0,
    };
    for (i, entry) in entries.iter().enumerate() {
        t = with_entry(entries, i, t);
        put_pair(t.pairs - 1, *entry, t, ids, weeks, sums, counts);
    }
}

// Writes the pairs of entries at the start of the columns, where they have room, and answers how many there are. The entries are sorted then; `spare` is
// as long, and is written over.
pub fn pairs(
    entries: &mut [u64],
    spare: &mut [u64],
    ids: &mut [u32],
    weeks: &mut [u32],
    sums: &mut [u32],
    counts: &mut [u32],
) -> Result<u32, Refusal>
    requires { (length spare.old ≡ length entries.old) × (length entries.old ≤ 1024) }
    ensures value { paired_in result ≡ paired_of entries.old (room_of (as_columns ids.old weeks.old sums.old counts.old)) }
    ensures counts_after { as_columns ids.new weeks.new sums.new counts.new ≡ columns_after entries.old (as_columns ids.old weeks.old sums.old counts.old) }
    ensures entries_after { entries.new ≡ sort_of entries.old }
{
    sorting::sort(entries, spare);
    let n = count_pairs(entries);
    let room = ids.len().min(weeks.len()).min(sums.len()).min(counts.len());
    if room < n {
        return Err(Refusal::NoRoom);
    }
    put_pairs(entries, ids, weeks, sums, counts);
    Ok(n as u32)
}
