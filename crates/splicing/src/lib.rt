// Words put into, and taken out of, many places of a lent slice: in place, in one pass, each word moved once at most. What is right: specs/Splice.antt.
#![tactic(auto)]

ghost use Rattle.std.specs.Prelude.{◌≡◌, ◌++◌, ℕ, ◌+◌, ◌-◌, ◌≤◌, ◌<◌, length, get_or, take, drop};
ghost use Rattle.std.proofs.Math.Seq.{paste};
ghost use Rattle.laws.specs.Lists.{Ascending};
ghost use Rattle.laws.specs.Sort.{Sorted};
ghost use Rattle.laws.specs.Each.{Each};
ghost use Rattle.splicing.specs.Splice.{put_in, take_out};

// Moves the words from `from` to before `to` down by `by` places, the first first. Most blocks that `take_out` closes up hold no word, and a call of the
// library's `copy_within` for each of them took more than half as long again.
fn move_down(words: &mut [u32], from: usize, to: usize, by: usize)
    requires { (by ≤ from) × (from ≤ to) × (to ≤ length words.old) }
    ensures { words.new ≡ paste words.old (from - by) (drop from words.old) (to - from) }
{
    for k in from..to {
        words[k - by] = words[k];
    }
}

// Puts each value before the word at its place, from the last to the first: the words between two places move by as many as are still to be put. The
// words before `end` are in use, and a value at `end` comes after them.
pub fn put_in(words: &mut [u32], end: usize, at: &[u32], values: &[u32])
    requires { Sorted at.now × Each (λ (p : ℕ). p ≤ end) at.now × (length at.now ≡ length values.now) × (end + length at.now ≤ length words.old) }
    ensures { words.new ≡ put_in at.now values.now (take end words.old) ++ drop (end + length at.now) words.old }
{
    let mut to = end;
    for j in (0..at.len()).rev() {
        let from = at[j] as usize;
        words.copy_within(from..to, from + j + 1);
        words[from + j] = values[j];
        to = from;
    }
}

// Takes out the words at the places, from the first to the last: the words between two places move by as many as were taken out. The words before `end`
// are in use.
pub fn take_out(words: &mut [u32], end: usize, at: &[u32])
    requires { Ascending at.now × Each (λ (p : ℕ). p < end) at.now × (end ≤ length words.old) }
    ensures { words.new ≡ take_out at.now (take end words.old) ++ drop (end - length at.now) words.old }
{
    for (i, place) in at.iter().enumerate() {
        let from = *place as usize;
        let to = at.get(i + 1).map_or(end, |next| *next as usize);
        move_down(words, from + 1, to, i + 1);
    }
}
