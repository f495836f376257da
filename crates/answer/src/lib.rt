// From the bytes of a book text to the bytes of the answer: what the program does, on values.
#![tactic(auto)]

ghost use Rattle.std.specs.Prelude.{◌≡◌, length, IfOk};
ghost use Rattle.frames.specs.Frames.{wrote_in, written_in};
ghost use Rattle.texts.specs.Rows.{table_rows, size_of};
ghost use Rattle.answer.specs.Answers.{answered_in, answered};

use frames::write_refusal;
use std::alloc::{AllocError, Global};
use tables::{AlternativeRow, RuleRow, WishRow};
use texts::{BookTables, Fault, Refusal};

// The longest input, in bytes.
pub const LONGEST: usize = 65_536;

// The lengths of the tables.
const RULES: usize = 512;

const WISHES: usize = 64;

const ALTERNATIVES: usize = 512;

// Writes the answer to an input at the front of a buffer, by means of these tables; its length. Where there is no room for it,
// there is none, and the buffer is as it was.
pub fn answer_into(input: &[u8], mut tables: BookTables<'_>, out: &mut [u8]) -> Option<usize>
    ensures result { result ≡ wrote_in (answered_in (size_of (table_rows tables.entry)) input.now) out.old }
    ensures buffer { out.new ≡ written_in (answered_in (size_of (table_rows tables.entry)) input.now) out.old }
{
    if input.len() > LONGEST {
        return write_refusal(&Refusal::from(Fault::TooLong), out).ok();
    }
    match tables.read(input) {
        Ok(size) => tables.front(size).write(out).ok(),
        Err(refusal) => write_refusal(&refusal, out).ok(),
    }
}

// The answer to an input; an error is want of memory.
pub fn answer(heap: Global, input: &[u8]) -> Result<Vec<u8>, AllocError>
    ensures { IfOk result (λ v. v.items ≡ answered input.now) }
{
    let mut rules = vec![in heap; RuleRow::FILLER; RULES]?;
    let mut wishes = vec![in heap; WishRow::FILLER; WISHES]?;
    let mut alternatives = vec![in heap; AlternativeRow::FILLER; ALTERNATIVES]?;
    let mut out = vec![in heap; 0u8; LONGEST]?;
    let tables = BookTables {
        rules: rules.as_mut_slice(),
        wishes: wishes.as_mut_slice(),
        alternatives: alternatives.as_mut_slice(),
    };
    let count = answer_into(input, tables, out.as_mut_slice()).unwrap();
    out.truncate(count);
    out.shrink_to_fit();
    Ok(out)
}
