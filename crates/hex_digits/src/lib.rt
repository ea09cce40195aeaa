// Hexadecimal lines: digits, pairs, numbers high byte first by width, and runs of bytes. Nothing here knows a frame.
#![tactic(auto)]

ghost use Rattle.std.specs.Prelude.{◌≡◌, ◌&&◌, true, [], ◌∷◌, ◌+◌, ◌*◌, ◌≤◌, ◌<◌, length, get_or, take, drop, cond, Some, None};
ghost use Rattle.std.proofs.lemmas.List.Edits.{sets};
ghost use Rattle.hex_digits.specs.Lines.{digit_of, value_of, is_digit, hex_of, well_formed, bytes_of};
ghost use Rattle.hex_digits.specs.Numbers.{number_of, bytes_for};

// The value of an upper-case digit, where the byte is one.
fn value(b: u8) -> Option<u8>
    ensures { result ≡ cond (is_digit b) (Some (value_of b)) None }
{
    match b {
        b'0'..=b'9' => Some(b - b'0'),
        b'A'..=b'F' => Some(b - b'A' + 10),
        _ => None,
    }
}

// The digit of a value below 16.
fn digit(n: u8) -> u8
    requires { n < 16 }
    ensures { result ≡ digit_of n }
{
    if n < 10 { b'0' + n } else { b'A' - 10 + n }
}

// Whether both bytes of a pair are digits.
fn is_pair(pair: &[u8; 2]) -> bool
    ensures { result ≡ is_digit (get_or pair.now 0 0) && is_digit (get_or pair.now 1 0) }
{
    value(pair[0]).is_some() && value(pair[1]).is_some()
}

// Whether the line is pairs of digits and then one line feed. A pair is looked at in one turn: a byte a turn took up to half as long again.
pub fn is_well_formed(line: &[u8]) -> bool
    ensures { result ≡ well_formed line.now }
{
    let (pairs, [last]) = line.as_chunks::<2>() else {
        return false;
    };
    *last == b'\n' && pairs.iter().all(|pair| is_pair(pair))
}

// The byte that the pair at k says; at most 272, and below 256 where its two bytes are digits.
pub fn byte_at(line: &[u8], k: usize) -> usize
    requires { 2 * k + 1 < length line.now }
    ensures { (result ≡ get_or (bytes_of line.now) k 0) × (result ≤ 272) }
{
    let high = usize::from(value(line[2 * k]).unwrap_or(16));
    let low = usize::from(value(line[2 * k + 1]).unwrap_or(16));
    high * 16 + low
}

// The number of the width that stands from byte `at` on, high byte first.
pub fn number_at(line: &[u8], at: usize, width: usize) -> u32
    requires { (well_formed line.now ≡ true) × (width ≤ 4) × (2 * (at + width) ≤ length line.now) }
    ensures { result ≡ number_of (take width (drop at (bytes_of line.now))) }
{
    let mut n: u32 = 0;
    for k in 0..width {
        n = n * 256 + byte_at(line, at + k) as u32;
    }
    n
}

// Copies the bytes that the line says, count of them from byte `at` on, to the start of the buffer.
pub fn copy_bytes(line: &[u8], at: usize, count: usize, buffer: &mut [u8])
    requires { (well_formed line.now ≡ true) × (2 * (at + count) ≤ length line.now) × (count ≤ length buffer.old) }
    ensures { buffer.new ≡ sets buffer.old 0 (take count (drop at (bytes_of line.now))) }
{
    for (k, byte) in buffer[..count].iter_mut().enumerate() {
        *byte = byte_at(line, at + k) as u8;
    }
}

// Writes the two digits of a byte from index `at` on.
pub fn put_pair(out: &mut [u8], at: usize, b: u8)
    requires { at + 2 ≤ length out.old }
    ensures { out.new ≡ sets out.old at (hex_of (b ∷ [])) }
{
    out[at] = digit(b / 16);
    out[at + 1] = digit(b % 16);
}

// Writes the digits of a number at its width, high byte first, from index `at` on.
pub fn put_number(out: &mut [u8], at: usize, n: u32, width: usize)
    requires { (width ≤ 4) × (at + 2 * width ≤ length out.old) }
    ensures { out.new ≡ sets out.old at (hex_of (bytes_for width n)) }
{
    put_bytes(out, at, &n.to_be_bytes()[4 - width..]);
}

// Writes the digits of the bytes from index `at` on.
pub fn put_bytes(out: &mut [u8], at: usize, bytes: &[u8])
    requires { at + 2 * length bytes.now ≤ length out.old }
    ensures { out.new ≡ sets out.old at (hex_of bytes.now) }
{
    for (k, b) in bytes.iter().enumerate() {
        put_pair(out, at + 2 * k, *b);
    }
}
