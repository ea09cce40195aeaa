// Builds an index from the bytes of a register. The rule: docs/RULE.md; the definitions: specs/.
#![tactic(auto)]

ghost use Rattle.std.specs.Prelude.{◌≡◌, map, ℕ, ◌+◌, ◌*◌, ◌≤◌, ◌<◌, length, get_or, set};
ghost use Rattle.std.proofs.Math.Seq.{paste};
ghost use Rattle.names.specs.Names.{judge_of};
ghost use Rattle.names.specs.Features.{features_of};
ghost use Rattle.words.specs.Words.{size_room, feature_span};
ghost use Rattle.fields.specs.Layouts.{longest_name};
ghost use Rattle.index.specs.Good.{most_names, most_postings, largest_id};
ghost use Rattle.index_writer.specs.Keys.{place_span};
ghost use Rattle.register.specs.Build.{built_in, built_of, words_after};
ghost use Rattle.register.specs.Steps.{KeysFit, HeardIn, ReadIn};

use frames::Name;
use refusals::{LineRefusal, Refusal};

// How many words are room for the index of every register.
pub const MOST_WORDS: usize = words::HEAD_WIDTH
    + words::NAME_WIDTH * index::MOST_NAMES
    + (words::ROW_WIDTH + 1) * index::MOST_POSTINGS;

// A register of at most twice as many bytes has no more keys than this: a line has more than two bytes for each feature of its name.
const FEW_KEYS: usize = 8192;

// ---- one line

// Judges a line after `count` names, whose id has to be at least `next`, and puts its name at the start of the buffer.
fn judge_line(line: &[u8], name: &mut [u8], count: usize, next: u32) -> Result<Name, Refusal>
    requires { length name.old ≡ longest_name }
    ensures { HeardIn count next line.now name.new result }
{
    let read = frames::read_name(line, name)?;
    names::judge(&name[..read.len])?;
    if u32::from(read.id) < next {
        return Err(Refusal::TakenId);
    }
    if index::MOST_NAMES <= count {
        return Err(Refusal::TooMany);
    }
    Ok(read)
}

// ---- one name

// Puts the keys of a name's features into `keys`, from `at` on. The name stands at `place` among the names.
fn put_keys(features: &[u64], place: u64, keys: &mut [u64], at: usize)
    requires { ((i : ℕ) → i < length features.now → get_or features.now i 0 < feature_span) × (place < place_span) × (at + length features.now ≤ length keys.old) }
    ensures { keys.new ≡ paste keys.old at (map (λ (f : ℕ). f * place_span + place) features.now) (length features.now) }
{
    for (k, feature) in features.iter().enumerate() {
        keys[at + k] = *feature * index_writer::PLACE_SPAN + place;
    }
}

// Puts the word of a good name after n others, and its keys after p others. Answers how many keys there are then.
fn add_name(name: &[u8], id: u32, names: &mut [u32], n: usize, keys: &mut [u64], p: usize) -> usize
    requires { (judge_of name.now ≡ 0) × (id ≤ largest_id) × (n < most_names) × (n < length names.old) × (p + length (features_of name.now) ≤ length keys.old) }
    ensures { (result ≡ p + length (features_of name.now)) × (names.new ≡ set names.old n (id * size_room + length (features_of name.now))) × (keys.new ≡ paste keys.old p (map (λ (f : ℕ). f * place_span + n) (features_of name.now)) (length (features_of name.now))) }
{
    let set = names::features_good(name);
    let len = set.len;
    names[n] = id * words::SIZE_ROOM + len as u32;
    put_keys(&set.items[..len], n as u64, keys, p);
    p + len
}

// ---- all lines

// What good lines come to: how many names and postings there are.
#[derive(Clone, Copy)]
struct Taken {
    names: usize,
    postings: usize,
}

// Reads the lines until one is bad, and puts the words and the keys of their names into the tables.
fn take_lines(
    register: &[u8],
    name: &mut [u8],
    names: &mut [u32],
    keys: &mut [u64],
) -> Result<Taken, LineRefusal>
    requires { (length name.old ≡ longest_name) × (length names.old ≡ most_names) × KeysFit (length register.now) (length keys.old) }
    ensures { ReadIn register.now names.new keys.new result }
{
    let mut n = 0;
    let mut p = 0;
    let mut next = 0;
    for bytes in register.split_inclusive(|b| *b == b'\n') {
        let line = n as u32 + 1;
        let read = judge_line(bytes, name, n, next).map_err(|refusal| LineRefusal {
            refusal,
            line,
        })?;
        let id = u32::from(read.id);
        p = add_name(&name[..read.len], id, names, n, keys, p);
        n += 1;
        next = id + 1;
    }
    Ok(Taken {
        names: n,
        postings: p,
    })
}

// ---- the whole

// Builds the index of a register with tables that are lent.
fn build_with(
    register: &[u8],
    name: &mut [u8],
    names: &mut [u32],
    keys: &mut [u64],
    ordered: &mut [u64],
    words: &mut [u32],
) -> Result<(), LineRefusal>
    requires { (length name.old ≡ longest_name) × (length names.old ≡ most_names) × KeysFit (length register.now) (length keys.old) × (length ordered.old ≡ length keys.old) }
    ensures { (built_in result ≡ built_of register.now (length words.old)) × (words.new ≡ words_after register.now words.old) }
{
    let taken = match take_lines(register, name, names, keys) {
        Ok(taken) => taken,
        Err(refusal) => {
            index_writer::fill(words);
            return Err(refusal);
        }
    };
    let n = taken.names;
    let p = taken.postings;
    ordering::order(&names[..n], &mut keys[..p], &mut ordered[..p]);
    if !index_writer::write_index(&names[..n], &ordered[..p], words) {
        return Err(LineRefusal {
            refusal: Refusal::NoRoom,
            line: 0,
        });
    }
    Ok(())
}

// Builds the index of a register that has no more keys than KEYS, with tables of that size: a table is set to 0 before it is used.
fn build_sized<const KEYS: usize>(register: &[u8], words: &mut [u32]) -> Result<(), LineRefusal>
    requires { (KEYS ≤ most_postings) × KeysFit (length register.now) KEYS }
    ensures { (built_in result ≡ built_of register.now (length words.old)) × (words.new ≡ words_after register.now words.old) }
{
    let mut name = [0u8; fields::LONGEST_NAME];
    let mut names = [0u32; index::MOST_NAMES];
    let mut keys = [0u64; KEYS];
    let mut ordered = [0u64; KEYS];
    build_with(
        register,
        &mut name,
        &mut names,
        &mut keys,
        &mut ordered,
        words,
    )
}

// Builds the index of a register.
pub fn build(register: &[u8], words: &mut [u32]) -> Result<(), LineRefusal>
    ensures { (built_in result ≡ built_of register.now (length words.old)) × (words.new ≡ words_after register.now words.old) }
{
    if register.len() <= 2 * FEW_KEYS {
        return build_sized::<FEW_KEYS>(register, words);
    }
    build_sized::<{ index::MOST_POSTINGS }>(register, words)
}
