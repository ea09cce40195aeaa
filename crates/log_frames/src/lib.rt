// The five frames of an import: hexadecimal lines to fields and back, over lent slices. Each is a layout for the reader and the writer of the crate `fields`.
#![tactic(auto)]

ghost use Rattle.std.specs.Prelude.{◌≡◌, [], ◌∷◌, length};
ghost use Rattle.fields.specs.Layouts.{read_of, buffer_of, written_in, written_of, out_of};
ghost use Rattle.log_frames.specs.Frames.{log_frame, outcome_frame, pair_frame, import_end_frame, import_refusal_frame, log_out, outcome_out, pair_out, import_end_out, import_refusal_out};

use fields::Layout;
use refusals::Refusal;

// The layouts of the five frames.
const LOG: Layout = Layout {
    kind: 0x4C,
    widths: [2, 2, 0, 0],
    named: true,
};

const OUTCOME: Layout = Layout {
    kind: 0x4F,
    widths: [1, 2, 0, 0],
    named: false,
};

const PAIR: Layout = Layout {
    kind: 0x50,
    widths: [2, 2, 4, 2],
    named: false,
};

const IMPORT_END: Layout = Layout {
    kind: 0x5A,
    widths: [2, 2, 0, 0],
    named: false,
};

const IMPORT_REFUSAL: Layout = Layout {
    kind: 0x59,
    widths: [1, 1, 2, 0],
    named: false,
};

// How long a 4F line is, a 50 line, a 5A line and a 59 line, their line feed included.
pub const OUTCOME_LENGTH: usize = 9;

pub const PAIR_LENGTH: usize = 23;

pub const IMPORT_END_LENGTH: usize = 11;

pub const IMPORT_REFUSAL_LENGTH: usize = 11;

// A 4C line: a log line, whose typed name has so many bytes.
#[derive(Clone, Copy)]
pub struct Log {
    pub day: u16,
    pub reading: u16,
    pub len: usize,
}

// A 4F line: the outcome of a log line.
#[derive(Clone, Copy)]
pub struct Outcome {
    pub case: u8,
    pub value: u16,
}

// A 50 line: what the readings of an id and a week come to.
#[derive(Clone, Copy)]
pub struct Pair {
    pub id: u16,
    pub week: u16,
    pub sum: u32,
    pub count: u16,
}

// A 5A line: the end of an import.
#[derive(Clone, Copy)]
pub struct ImportEnd {
    pub outcomes: u16,
    pub pairs: u16,
}

// A 59 line: a refusal of an import, by the part that it is about and its number.
#[derive(Clone, Copy)]
pub struct ImportRefused {
    pub part: u8,
    pub number: u8,
    pub line: u16,
}

// Reads a 4C line, and puts the typed name at the start of the buffer.
pub fn read_log(line: &[u8], name: &mut [u8]) -> Result<Log, Refusal>
    ensures result_value { log_out result ≡ read_of log_frame line.now (length name.old) }
    ensures name_after { name.new ≡ buffer_of log_frame line.now name.old }
{
    let parts = fields::read_named(line, LOG, name)?;
    let day = parts.fields[0] as u16;
    let reading = parts.fields[1] as u16;
    Ok(Log {
        day,
        reading,
        len: parts.len,
    })
}

// Writes a 4C line.
pub fn write_log(out: &mut [u8], day: u16, reading: u16, name: &[u8]) -> Result<usize, Refusal>
    ensures value { written_in result ≡ written_of log_frame (day ∷ reading ∷ []) name.now (length out.old) }
    ensures out_after { out.new ≡ out_of log_frame (day ∷ reading ∷ []) name.now out.old }
{
    fields::write(out, LOG, [u32::from(day), u32::from(reading), 0, 0], name)
}

// Reads a 4F line.
pub fn read_outcome(line: &[u8]) -> Result<Outcome, Refusal>
    ensures { outcome_out result ≡ read_of outcome_frame line.now 0 }
{
    let fields = fields::read(line, OUTCOME, 0)?.fields;
    let case = fields[0] as u8;
    let value = fields[1] as u16;
    Ok(Outcome { case, value })
}

// Writes a 4F line.
pub fn write_outcome(out: &mut [u8], case: u8, value: u16) -> Result<usize, Refusal>
    ensures value { written_in result ≡ written_of outcome_frame (case ∷ value ∷ []) [] (length out.old) }
    ensures out_after { out.new ≡ out_of outcome_frame (case ∷ value ∷ []) [] out.old }
{
    fields::write(out, OUTCOME, [u32::from(case), u32::from(value), 0, 0], &[])
}

// Reads a 50 line.
pub fn read_pair(line: &[u8]) -> Result<Pair, Refusal>
    ensures { pair_out result ≡ read_of pair_frame line.now 0 }
{
    let fields = fields::read(line, PAIR, 0)?.fields;
    let id = fields[0] as u16;
    let week = fields[1] as u16;
    let sum = fields[2];
    let count = fields[3] as u16;
    Ok(Pair {
        id,
        week,
        sum,
        count,
    })
}

// Writes a 50 line.
pub fn write_pair(
    out: &mut [u8],
    id: u16,
    week: u16,
    sum: u32,
    count: u16,
) -> Result<usize, Refusal>
    ensures value { written_in result ≡ written_of pair_frame (id ∷ week ∷ sum ∷ count ∷ []) [] (length out.old) }
    ensures out_after { out.new ≡ out_of pair_frame (id ∷ week ∷ sum ∷ count ∷ []) [] out.old }
{
    fields::write(
        out,
        PAIR,
        [u32::from(id), u32::from(week), sum, u32::from(count)],
        &[],
    )
}

// Reads a 5A line.
pub fn read_import_end(line: &[u8]) -> Result<ImportEnd, Refusal>
    ensures { import_end_out result ≡ read_of import_end_frame line.now 0 }
{
    let fields = fields::read(line, IMPORT_END, 0)?.fields;
    let outcomes = fields[0] as u16;
    let pairs = fields[1] as u16;
    Ok(ImportEnd { outcomes, pairs })
}

// Writes a 5A line.
pub fn write_import_end(out: &mut [u8], outcomes: u16, pairs: u16) -> Result<usize, Refusal>
    ensures value { written_in result ≡ written_of import_end_frame (outcomes ∷ pairs ∷ []) [] (length out.old) }
    ensures out_after { out.new ≡ out_of import_end_frame (outcomes ∷ pairs ∷ []) [] out.old }
{
    fields::write(
        out,
        IMPORT_END,
        [u32::from(outcomes), u32::from(pairs), 0, 0],
        &[],
    )
}

// Reads a 59 line.
pub fn read_import_refusal(line: &[u8]) -> Result<ImportRefused, Refusal>
    ensures { import_refusal_out result ≡ read_of import_refusal_frame line.now 0 }
{
    let fields = fields::read(line, IMPORT_REFUSAL, 0)?.fields;
    let part = fields[0] as u8;
    let number = fields[1] as u8;
    let at = fields[2] as u16;
    Ok(ImportRefused {
        part,
        number,
        line: at,
    })
}

// Writes a 59 line.
pub fn write_import_refusal(
    out: &mut [u8],
    part: u8,
    number: u8,
    line: u16,
) -> Result<usize, Refusal>
    ensures value { written_in result ≡ written_of import_refusal_frame (part ∷ number ∷ line ∷ []) [] (length out.old) }
    ensures out_after { out.new ≡ out_of import_refusal_frame (part ∷ number ∷ line ∷ []) [] out.old }
{
    fields::write(
        out,
        IMPORT_REFUSAL,
        [u32::from(part), u32::from(number), u32::from(line), 0],
        &[],
    )
}
