// What a name is, and its features. The rule: docs/RULE.md, "Names and features"; the definitions: specs/.
#![tactic(auto)]

ghost use Rattle.std.specs.Prelude.{◌≡◌, [], ℕ, ◌+◌, ◌/◌, ◌%◌, ◌≤◌, ◌<◌, length, get_or};
ghost use Rattle.laws.specs.Lists.{member};
ghost use Rattle.refusals.specs.Refusals.{outcome_number};
ghost use Rattle.names.specs.Names.{is_control, has_control, judge_of};
ghost use Rattle.names.specs.Features.{padded, gram_at, times_in, features_of, gram_length, characters, most_features};
ghost use Rattle.names.specs.Set.{filled, marks, Ends};

use refusals::Refusal;

// The most bytes that a name has.
pub const LONGEST: usize = 200;

// The features of one name: the first `len` of `items`, in order of appearance; the places after them are 0.
#[derive(Drop)]
pub struct FeatureSet {
    pub items: [u64; FeatureSet::CAPACITY],
    pub len: usize,
}

impl FeatureSet {
    // A feature for each byte, and two more.
    pub const CAPACITY: usize = LONGEST + 2;

    // The set that holds nothing.
    pub fn empty() -> Self
        ensures { result ≡ filled [] }
    {
        FeatureSet {
            items: [0; FeatureSet::CAPACITY],
            len: 0,
        }
    }
}

// Whether a byte of the name is 0.
fn has_zero(name: &[u8]) -> bool
    ensures { result ≡ member 0 name.now }
{
    name.contains(&0)
}

// Whether a byte is a control character: below 32, or 127.
fn is_control(byte: u8) -> bool
    ensures { result ≡ is_control byte }
{
    byte < 32 || byte == 127
}

// Whether a byte of the name is a control character.
fn has_control(name: &[u8]) -> bool
    ensures { result ≡ has_control name.now }
{
    name.iter().any(|byte| is_control(*byte))
}

// Refuses an empty name, then one that is too long, then one with a 0 byte, then one with another control character.
// A 0 byte is a control character too, so a good name is read through once.
pub fn judge(name: &[u8]) -> Result<(), Refusal>
    ensures { outcome_number result ≡ judge_of name.now }
{
    if name.is_empty() {
        return Err(Refusal::Empty);
    }
    if name.len() > LONGEST {
        return Err(Refusal::TooLong);
    }
    if !has_control(name) {
        return Ok(());
    }
    if has_zero(name) {
        return Err(Refusal::ZeroByte);
    }
    Err(Refusal::ControlCharacter)
}

// The character at place k of the padded name.
fn character_at(name: &[u8], k: usize) -> u64
    ensures { (result ≡ get_or (padded gram_length name.now) k 0) × (result < 256) }
{
    if k < 2 {
        return 0;
    }
    match name.get(k - 2) {
        Some(byte) => u64::from(*byte),
        None => 0,
    }
}

// The gram at place i, from one whose last two characters are its first two.
fn next_gram(name: &[u8], gram: u64, i: usize) -> u64
    requires { (i < most_features) × Ends name.now i gram }
    ensures { (result ≡ gram_at gram_length characters name.now i) × (result < 16777216) × Ends name.now (i + 1) result }
{
    gram % 65536 * 256 + character_at(name, i + 2)
}

// How many of the first k features are of the gram.
fn times_in(items: &[u64], gram: u64, k: usize) -> u64
    requires { (k ≤ length items.now) × (k ≤ most_features) }
    ensures { (result ≡ times_in (λ (j : ℕ). get_or items.now j 0 / 256) gram k) × (result ≤ k) }
{
    let mut n = 0;
    for item in &items[..k] {
        if *item / 256 == gram {
            n += 1;
        }
    }
    n
}

// The place of a gram's mark.
fn mark_place(gram: u64) -> usize
    ensures { (result ≡ gram % marks) × (result < marks) }
{
    (gram % 251) as usize
}

// As `times_in`, where a gram that is among the first k features has its mark: without one there is nothing to count.
fn times_marked(items: &[u64], marked: &[u8], gram: u64, k: usize) -> u64
    requires { (k ≤ length items.now) × (k ≤ most_features) × (length marked.now ≡ marks) × (get_or marked.now (gram % marks) 0 ≡ 0 → times_in (λ (j : ℕ). get_or items.now j 0 / 256) gram k ≡ 0) }
    ensures { (result ≡ times_in (λ (j : ℕ). get_or items.now j 0 / 256) gram k) × (result ≤ k) }
{
    if marked[mark_place(gram)] == 0 {
        return 0;
    }
    times_in(items, gram, k)
}

// The features of a good name.
pub fn features_good(name: &[u8]) -> FeatureSet
    requires { judge_of name.now ≡ 0 }
    ensures { result ≡ filled (features_of name.now) }
{
    let mut set = FeatureSet::empty();
    let mut marked = [0u8; 251];
    let size = name.len() + 2;
    let mut gram: u64 = 0;
    for i in 0..size {
        gram = next_gram(name, gram, i);
        let number = times_marked(&set.items, &marked, gram, i) + 1;
        set.items[i] = gram * 256 + number;
        marked[mark_place(gram)] = 1;
    }
    set.len = size;
    set
}

// The features of a name; the empty set where the name is refused.
pub fn features(name: &[u8]) -> FeatureSet
    ensures { result ≡ filled (features_of name.now) }
{
    match judge(name) {
        Ok(()) => features_good(name),
        Err(_) => FeatureSet::empty(),
    }
}
