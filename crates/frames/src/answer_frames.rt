// The lines of answers, which are only written: rows of numbers, "more remain", refusals. Their kinds are the format's bytes.
ghost use Rattle.std.specs.Prelude.{◌≡◌, true, nat_le};
ghost use Rattle.std.specs.List.{list_all};
ghost use Rattle.frames.specs.AnswerLines.{write_fault_number, write_fault_line, narrow, row_line, more_line, refusal_line, wrote, wrote_row, row_written_in};
ghost use Rattle.frames.specs.Frames.{wrote_in, written_in};

use crate::writer::{fields, write_line};
use literals::Numbered;

// The longest kind and fields of a row, in bytes.
const LONGEST: usize = 512;

// Why a line is not written: the first that applies.
#[derive(Clone, Copy, PartialEq, Eq, Debug)]
pub enum WriteFault {
    // more than 255 columns, or a column above 65535
    TooWide,
    // a buffer too short for the line
    BufferShort,
}

impl Numbered for WriteFault {
    ghost number = { write_fault_number };

    ghost line = { write_fault_line };

    // The number of the refusal.
    fn number(&self) -> u8 {
        match self {
            WriteFault::TooWide => 22,
            WriteFault::BufferShort => 21,
        }
    }

    // The line of the refusal.
    fn line(&self) -> u32 {
        0
    }
}

// Whether a row has at most 255 columns, each a number of two bytes.
fn is_narrow(columns: &[u64]) -> bool
    ensures { result ≡ narrow columns.now }
{
    columns.len() <= 255 && each_is_narrow(columns)
}

// Whether each column is a number of two bytes.
fn each_is_narrow(columns: &[u64]) -> bool
    ensures { result ≡ list_all (λ c. nat_le c 65535) columns.now }
{
    columns.iter().all(|column| *column <= 65535)
}

// Writes the line of a narrow row.
fn write_narrow(columns: &[u64], out: &mut [u8]) -> Option<usize>
    requires { narrow columns.now ≡ true }
    ensures result { result ≡ wrote_in (row_line columns.now) out.old }
    ensures buffer { out.new ≡ written_in (row_line columns.now) out.old }
{
    let head = [0x31, columns.len() as u8];
    let body = fields::<2, LONGEST>(&head, columns);
    write_line(body.as_slice(), out)
}

// Writes the line of a row at the front of `out`, and leaves what is behind it.
// A refusal changes nothing.
pub fn write_row(columns: &[u64], out: &mut [u8]) -> Result<usize, WriteFault>
    ensures result { result ≡ wrote_row columns.now out.old }
    ensures buffer { out.new ≡ row_written_in columns.now out.old }
{
    if !is_narrow(columns) {
        return Err(WriteFault::TooWide);
    }
    write_narrow(columns, out).ok_or(WriteFault::BufferShort)
}

// Writes the line "more remain" at the front of `out`.
pub fn write_more(out: &mut [u8]) -> Result<usize, WriteFault>
    ensures result { result ≡ wrote more_line out.old }
    ensures buffer { out.new ≡ written_in more_line out.old }
{
    write_line(&[0x32], out).ok_or(WriteFault::BufferShort)
}

// Writes the line of a refusal, with its number and the line that it lies in, at the front of `out`.
pub fn write_refusal<R: Numbered>(refusal: &R, out: &mut [u8]) -> Result<usize, WriteFault>
    ensures result { result ≡ wrote
        (refusal_line (R.number refusal.now) (R.line refusal.now)) out.old }
    ensures buffer { out.new ≡ written_in
        (refusal_line (R.number refusal.now) (R.line refusal.now)) out.old }
{
    let [a, b, c, d] = refusal.line().to_be_bytes();
    write_line(&[0x3F, refusal.number(), a, b, c, d], out).ok_or(WriteFault::BufferShort)
}
