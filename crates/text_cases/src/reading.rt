// Reading a text into tables of fillers; an accepted one is written again.
use crate::buffer::{UNTOUCHED, is_untouched};
use crate::text_tables::TextTables;
use literals::Numbered;
use std::alloc::{AllocError, Global};
use texts::{Fault, Refusal};

// Whether the tables give the text again, in a buffer of just its length. Text and tables stay two parameters, here and below,
// since reading the one changes the other, and the allocator is one, since it is only handed on.
fn gives_again<T: TextTables>(heap: Global, text: &[u8], tables: &T) -> Result<bool, AllocError> {
    let mut buffer = vec![in heap; UNTOUCHED; text.len()]?;
    let wrote = tables.write(buffer.as_mut_slice());
    Ok(wrote.is_ok_and(|count| count == text.len()) && buffer.as_slice() == text)
}

// Whether a buffer with one byte fewer is refused as too short, and left as it was.
fn refuses_less<T: TextTables>(heap: Global, text: &[u8], tables: &T) -> Result<bool, AllocError> {
    let mut buffer = vec![in heap; UNTOUCHED; text.len().saturating_sub(1)]?;
    let wrote = tables.write(buffer.as_mut_slice());
    Ok(wrote == Err(Fault::BufferShort.into()) && is_untouched(buffer.as_slice()))
}

fn accepted<T: TextTables>(heap: Global, text: &[u8], tables: &T) -> Result<String, AllocError> {
    let again = if gives_again(heap, text, tables)? {
        "written again the same"
    } else {
        "BAD writing"
    };
    let less = if refuses_less(heap, text, tables)? {
        ""
    } else {
        ", BAD answer to a short buffer"
    };
    let behind = if tables.has_fillers_behind() {
        ""
    } else {
        ", BAD rows behind"
    };
    format!(in heap; "accepted: {tables}, {again}{less}{behind}")
}

fn refused<T: TextTables>(
    heap: Global,
    refusal: Refusal,
    tables: &T,
) -> Result<String, AllocError> {
    let number = refusal.number();
    let line = refusal.line;
    let kept = if tables.has_fillers_behind() {
        ""
    } else {
        ", BAD tables"
    };
    format!(in heap; "refused: {number} at line {line}{kept}")
}

// What comes of reading a text into tables without rows in use.
pub fn read_text<T: TextTables>(
    heap: Global,
    text: &[u8],
    tables: &mut T,
) -> Result<String, AllocError> {
    match tables.read(text) {
        Ok(()) => accepted(heap, text, tables),
        Err(refusal) => refused(heap, refusal, tables),
    }
}
