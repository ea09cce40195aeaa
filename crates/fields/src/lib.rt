// A frame of any layout, read from a hexadecimal line and written to one. Nothing here knows the five frames.
#![tactic(auto)]

ghost use Rattle.std.specs.Prelude.{◌≡◌, true, cond, ◌+◌, ◌*◌, ◌≤◌, ◌<◌, length};
ghost use Rattle.std.proofs.lemmas.List.Edits.{sets};
ghost use Rattle.hex_digits.specs.Lines.{hex_of};
ghost use Rattle.fields.specs.Layouts.{head_size, narrow, field_bytes, name_bytes, line_of, is_frame, fields_in, name_in, read_of, reading_in, buffer_of, written_in, written_of, out_of, longest_name};

use refusals::Refusal;

// The most bytes that a frame's name has: its length is one byte.
pub const LONGEST_NAME: usize = 255;

// A layout: the kind, the widths of the fields in bytes, and whether a name follows. A width of 0 is no field.
#[derive(Clone, Copy)]
pub struct Layout {
    pub kind: u8,
    pub widths: [u8; Layout::FIELDS],
    pub named: bool,
}

impl Layout {
    // The most fields that a layout has.
    pub const FIELDS: usize = 4;
}

// What is read of a frame: its fields and the length of its name.
#[derive(Clone, Copy)]
pub struct Parts {
    pub fields: [u32; Layout::FIELDS],
    pub len: usize,
}

// How many bytes the kind and the fields take.
fn head_size(layout: Layout) -> usize
    ensures { (result ≡ head_size layout) × (result ≤ 4096) }
{
    let mut n = 1;
    for k in 0..Layout::FIELDS {
        n += layout.widths[k] as usize;
    }
    n
}

// Whether the line is a frame of the layout.
fn is_frame(line: &[u8], layout: Layout) -> bool
    ensures { result ≡ is_frame layout line.now }
{
    if !hex_digits::is_well_formed(line) {
        return false;
    }
    let n = line.len() / 2;
    if n == 0 {
        return false;
    }
    if hex_digits::byte_at(line, 0) != layout.kind as usize {
        return false;
    }
    let head = head_size(layout);
    if !layout.named {
        return n == head;
    }
    if n <= head {
        return false;
    }
    n == head + (1 + hex_digits::byte_at(line, head))
}

// The fields of a frame.
fn fields(line: &[u8], layout: Layout) -> [u32; Layout::FIELDS]
    requires { (is_frame layout line.now ≡ true) × (narrow layout.widths ≡ true) }
    ensures { result ≡ fields_in layout line.now }
{
    let mut read = [0u32; Layout::FIELDS];
    let mut at = 1;
    for k in 0..Layout::FIELDS {
        let width = layout.widths[k] as usize;
        read[k] = hex_digits::number_at(line, at, width);
        at += width;
    }
    read
}

// The length of the name in a frame.
fn name_len(line: &[u8], layout: Layout) -> usize
    requires { is_frame layout line.now ≡ true }
    ensures { result ≡ length (name_in layout line.now) }
{
    if layout.named {
        return line.len() / 2 - head_size(layout) - 1;
    }
    0
}

// Reads a line, but for copying its name.
pub fn read(line: &[u8], layout: Layout, room: usize) -> Result<Parts, Refusal>
    requires { narrow layout.widths ≡ true }
    ensures { reading_in layout result ≡ read_of layout line.now room }
{
    if !is_frame(line, layout) {
        return Err(Refusal::Malformed);
    }
    let len = name_len(line, layout);
    if room < len {
        return Err(Refusal::NoRoom);
    }
    let fields = fields(line, layout);
    Ok(Parts { fields, len })
}

// Reads a line of a layout with a name, and copies the name to the start of the buffer.
pub fn read_named(line: &[u8], layout: Layout, name: &mut [u8]) -> Result<Parts, Refusal>
    requires { (narrow layout.widths ≡ true) × (layout.named ≡ true) }
    ensures value { reading_in layout result ≡ read_of layout line.now (length name.old) }
    ensures name_after { name.new ≡ buffer_of layout line.now name.old }
{
    let read = read(line, layout, name.len());
    let Ok(parts) = read else {
        return read;
    };
    hex_digits::copy_bytes(line, head_size(layout) + 1, parts.len, name);
    read
}

// Writes the fields, each at its width, from index 2 on.
fn put_fields(out: &mut [u8], layout: Layout, fields: [u32; Layout::FIELDS])
    requires { (narrow layout.widths ≡ true) × (2 * head_size layout ≤ length out.old) }
    ensures { out.new ≡ sets out.old 2 (hex_of (field_bytes layout.widths fields)) }
{
    let mut at = 2;
    for k in 0..Layout::FIELDS {
        let width = layout.widths[k] as usize;
        hex_digits::put_number(out, at, fields[k], width);
        at += 2 * width;
    }
}

// Writes the name after its length from index `at` on, where the layout has a name.
fn put_name(out: &mut [u8], at: usize, named: bool, name: &[u8])
    requires { (length name.now ≤ longest_name) × (at + 2 * length (name_bytes named name.now) ≤ length out.old) }
    ensures { out.new ≡ sets out.old at (hex_of (name_bytes named name.now)) }
{
    if !named {
        return;
    }
    hex_digits::put_pair(out, at, name.len() as u8);
    hex_digits::put_bytes(out, at + 2, name);
}

// How long the line of a frame is, with a name of n bytes.
fn line_len(layout: Layout, n: usize) -> usize
    requires { n ≤ longest_name }
    ensures { (result ≡ 2 * (head_size layout + cond layout.named (1 + n) 0) + 1) × (result ≤ 16384) }
{
    let head = head_size(layout);
    if layout.named {
        return 2 * (head + (1 + n)) + 1;
    }
    2 * head + 1
}

// Writes the line of a frame at the start of the buffer, which has the room.
fn put_line(out: &mut [u8], layout: Layout, fields: [u32; Layout::FIELDS], name: &[u8])
    requires { (narrow layout.widths ≡ true) × (length name.now ≤ longest_name) × (length (line_of layout fields name.now) ≤ length out.old) }
    ensures { out.new ≡ sets out.old 0 (line_of layout fields name.now) }
{
    let head = head_size(layout);
    let feed = line_len(layout, name.len()) - 1;
    hex_digits::put_pair(out, 0, layout.kind);
    put_fields(out, layout, fields);
    put_name(out, 2 * head, layout.named, name);
    out[feed] = 10;
}

// Writes a frame.
pub fn write(
    out: &mut [u8],
    layout: Layout,
    fields: [u32; Layout::FIELDS],
    name: &[u8],
) -> Result<usize, Refusal>
    requires { narrow layout.widths ≡ true }
    ensures value { written_in result ≡ written_of layout fields name.now (length out.old) }
    ensures out_after { out.new ≡ out_of layout fields name.now out.old }
{
    if LONGEST_NAME < name.len() {
        return Err(Refusal::TooLong);
    }
    let len = line_len(layout, name.len());
    if out.len() < len {
        return Err(Refusal::NoRoom);
    }
    put_line(out, layout, fields, name);
    Ok(len)
}
