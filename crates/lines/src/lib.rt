// Bytes as lines, whatever they hold. What a line is: specs/Lines.antt.
#![tactic(auto)]

ghost use Rattle.std.specs.Prelude.{◌≡◌, ◌+◌, drop};
ghost use Rattle.lines.specs.Lines.{line_length};

// Where the line that starts at `from` ends: after its line feed, or at the end of the bytes. Beyond their end it is `from`.
pub fn line_end(bytes: &[u8], from: usize) -> usize
    ensures { result ≡ from + line_length (drop from bytes.now) }
{
    let rest = bytes.get(from..).unwrap_or(&[]);
    from + rest
        .iter()
        .position(|b| *b == b'\n')
        .map_or(rest.len(), |i| i + 1)
}
