// The five frames: hexadecimal lines to fields and back, over lent slices. Each is a layout for the reader and the writer of the crate `fields`.
#![tactic(auto)]

ghost use Rattle.std.specs.Prelude.{◌≡◌, [], ◌∷◌, length};
ghost use Rattle.fields.specs.Layouts.{read_of, buffer_of, written_in, written_of, out_of};
ghost use Rattle.frames.specs.Frames.{name_frame, query_frame, row_frame, end_frame, refusal_frame, name_out, query_out, row_out, end_out, refusal_out};

use fields::Layout;
use refusals::Refusal;

// The layouts of the five frames.
const NAME: Layout = Layout {
    kind: 0x4E,
    widths: [2, 0, 0, 0],
    named: true,
};

const QUERY: Layout = Layout {
    kind: 0x51,
    widths: [1, 2, 2, 4],
    named: true,
};

const ROW: Layout = Layout {
    kind: 0x52,
    widths: [2, 1, 1, 1],
    named: false,
};

const END: Layout = Layout {
    kind: 0x45,
    widths: [2, 4, 2, 2],
    named: false,
};

const REFUSAL: Layout = Layout {
    kind: 0x58,
    widths: [1, 4, 0, 0],
    named: false,
};

// How long a 52 line is, a 45 line and a 58 line, their line feed included.
pub const ROW_LENGTH: usize = 13;

pub const END_LENGTH: usize = 23;

pub const REFUSAL_LENGTH: usize = 13;

// A 4E line: a registered name, which has so many bytes.
#[derive(Clone, Copy)]
pub struct Name {
    pub id: u16,
    pub len: usize,
}

// A 51 line: a query, whose name has so many bytes.
#[derive(Clone, Copy)]
pub struct Query {
    pub measure: u8,
    pub p: u16,
    pub q: u16,
    pub allowance: u32,
    pub len: usize,
}

// A 52 line: a row of an answer.
#[derive(Clone, Copy)]
pub struct Row {
    pub id: u16,
    pub shared: u8,
    pub size: u8,
    pub least: u8,
}

// A 45 line: the end of an answer.
#[derive(Clone, Copy)]
pub struct End {
    pub rows: u16,
    pub touches: u32,
    pub p: u16,
    pub q: u16,
}

// A 58 line: a refusal, by its number.
#[derive(Clone, Copy)]
pub struct Refused {
    pub number: u8,
    pub touches: u32,
}

// Reads a 4E line, and puts the name at the start of the buffer.
pub fn read_name(line: &[u8], name: &mut [u8]) -> Result<Name, Refusal>
    ensures result_value { name_out result ≡ read_of name_frame line.now (length name.old) }
    ensures name_after { name.new ≡ buffer_of name_frame line.now name.old }
{
    let parts = fields::read_named(line, NAME, name)?;
    let id = parts.fields[0] as u16;
    Ok(Name { id, len: parts.len })
}

// Writes a 4E line.
pub fn write_name(out: &mut [u8], id: u16, name: &[u8]) -> Result<usize, Refusal>
    ensures value { written_in result ≡ written_of name_frame (id ∷ []) name.now (length out.old) }
    ensures out_after { out.new ≡ out_of name_frame (id ∷ []) name.now out.old }
{
    fields::write(out, NAME, [u32::from(id), 0, 0, 0], name)
}

// Reads a 51 line, and puts the query at the start of the buffer.
pub fn read_query(line: &[u8], query: &mut [u8]) -> Result<Query, Refusal>
    ensures result_value { query_out result ≡ read_of query_frame line.now (length query.old) }
    ensures query_after { query.new ≡ buffer_of query_frame line.now query.old }
{
    let parts = fields::read_named(line, QUERY, query)?;
    let measure = parts.fields[0] as u8;
    let p = parts.fields[1] as u16;
    let q = parts.fields[2] as u16;
    let allowance = parts.fields[3];
    Ok(Query {
        measure,
        p,
        q,
        allowance,
        len: parts.len,
    })
}

// Writes a 51 line.
pub fn write_query(
    out: &mut [u8],
    measure: u8,
    p: u16,
    q: u16,
    allowance: u32,
    query: &[u8],
) -> Result<usize, Refusal>
    ensures value { written_in result ≡ written_of query_frame (measure ∷ p ∷ q ∷ allowance ∷ []) query.now (length out.old) }
    ensures out_after { out.new ≡ out_of query_frame (measure ∷ p ∷ q ∷ allowance ∷ []) query.now out.old }
{
    fields::write(
        out,
        QUERY,
        [u32::from(measure), u32::from(p), u32::from(q), allowance],
        query,
    )
}

// Reads a 52 line.
pub fn read_row(line: &[u8]) -> Result<Row, Refusal>
    ensures { row_out result ≡ read_of row_frame line.now 0 }
{
    let fields = fields::read(line, ROW, 0)?.fields;
    let id = fields[0] as u16;
    let shared = fields[1] as u8;
    let size = fields[2] as u8;
    let least = fields[3] as u8;
    Ok(Row {
        id,
        shared,
        size,
        least,
    })
}

// Writes a 52 line.
pub fn write_row(out: &mut [u8], id: u16, shared: u8, size: u8, least: u8) -> Result<usize, Refusal>
    ensures value { written_in result ≡ written_of row_frame (id ∷ shared ∷ size ∷ least ∷ []) [] (length out.old) }
    ensures out_after { out.new ≡ out_of row_frame (id ∷ shared ∷ size ∷ least ∷ []) [] out.old }
{
    fields::write(
        out,
        ROW,
        [
            u32::from(id),
            u32::from(shared),
            u32::from(size),
            u32::from(least),
        ],
        &[],
    )
}

// Reads a 45 line.
pub fn read_end(line: &[u8]) -> Result<End, Refusal>
    ensures { end_out result ≡ read_of end_frame line.now 0 }
{
    let fields = fields::read(line, END, 0)?.fields;
    let rows = fields[0] as u16;
    let touches = fields[1];
    let p = fields[2] as u16;
    let q = fields[3] as u16;
    Ok(End {
        rows,
        touches,
        p,
        q,
    })
}

// Writes a 45 line.
pub fn write_end(out: &mut [u8], rows: u16, touches: u32, p: u16, q: u16) -> Result<usize, Refusal>
    ensures value { written_in result ≡ written_of end_frame (rows ∷ touches ∷ p ∷ q ∷ []) [] (length out.old) }
    ensures out_after { out.new ≡ out_of end_frame (rows ∷ touches ∷ p ∷ q ∷ []) [] out.old }
{
    fields::write(
        out,
        END,
        [u32::from(rows), touches, u32::from(p), u32::from(q)],
        &[],
    )
}

// Reads a 58 line.
pub fn read_refusal(line: &[u8]) -> Result<Refused, Refusal>
    ensures { refusal_out result ≡ read_of refusal_frame line.now 0 }
{
    let fields = fields::read(line, REFUSAL, 0)?.fields;
    let number = fields[0] as u8;
    let touches = fields[1];
    Ok(Refused { number, touches })
}

// Writes a 58 line.
pub fn write_refusal(out: &mut [u8], number: u8, touches: u32) -> Result<usize, Refusal>
    ensures value { written_in result ≡ written_of refusal_frame (number ∷ touches ∷ []) [] (length out.old) }
    ensures out_after { out.new ≡ out_of refusal_frame (number ∷ touches ∷ []) [] out.old }
{
    fields::write(out, REFUSAL, [u32::from(number), touches, 0, 0], &[])
}
