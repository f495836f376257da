// Book texts: rules, then wishes with their alternatives, then the end frame.
ghost use Rattle.std.specs.Prelude.{◌≡◌, length, take};
ghost use Rattle.texts.specs.Meaning.{BookReading, BookWriting};
ghost use Rattle.texts.specs.Rows.{BookRead, book_rows, table_rows, size_of, fronts};
ghost use Rattle.texts.specs.Writing.{is_sound, book_text, write_book, written};

use crate::book_size::BookSize;
use crate::checks::{all_make_records, are_orderly};
use crate::fault::{Fault, Refusal};
use crate::frame_source::BookFrames;
use crate::judge::accept;
use crate::rows::fill;
use crate::seen::TextKind;
use crate::writing::write_text;
use tables::{AlternativeRow, RuleRow, WishRow};

// The tables of a book.
#[derive(Clone, Copy)]
pub struct Book<'a> {
    pub rules: &'a [RuleRow],
    pub wishes: &'a [WishRow],
    pub alternatives: &'a [AlternativeRow],
}

// Tables that a book is read into.
#[derive(Drop)]
pub struct BookTables<'a> {
    pub rules: &'a mut [RuleRow],
    pub wishes: &'a mut [WishRow],
    pub alternatives: &'a mut [AlternativeRow],
}

impl Book<'_> {
    // Whether each row makes a record, and the rows stand in order.
    fn is_sound(&self) -> bool
        ensures { result ≡ is_sound (book_rows self.now) }
    {
        all_make_records(self.rules)
            && all_make_records(self.wishes)
            && all_make_records(self.alternatives)
            && are_orderly(self.wishes, self.alternatives)
    }

    // Writes the text of the book at the front of a buffer; how many bytes it has. A refusal leaves the buffer as it was.
    #[tactic(auto, using(crate::proofs::RoundTrip::book_writing))]
    pub fn write(&self, out: &mut [u8]) -> Result<usize, Refusal>
        ensures result { result ≡ write_book (book_rows self.now) (length out.old) }
        ensures meaning { BookWriting (book_rows self.now) }
        ensures buffer { out.new ≡ written result (book_text (book_rows self.now)) out.old }
    {
        if !self.is_sound() {
            return Err(Fault::NoText.into());
        }
        write_text(BookFrames::of(*self), out)
    }
}

impl BookTables<'_> {
    // How many rows the tables have.
    fn size(&self) -> BookSize
        ensures { result ≡ size_of (table_rows self.now) }
    {
        BookSize {
            rules: self.rules.len(),
            wishes: self.wishes.len(),
            alternatives: self.alternatives.len(),
        }
    }

    // Reads a book text into the fronts of the tables; how many rows each has got. A refusal leaves the tables as they were.
    #[tactic(auto, using(crate::proofs::RoundTrip::book_reading))]
    pub fn read(&mut self, text: &[u8]) -> Result<BookSize, Refusal>
        ensures same_rules { self.new.rules.ghost_name ≡ self.old.rules.ghost_name }
        ensures same_wishes { self.new.wishes.ghost_name ≡ self.old.wishes.ghost_name }
        ensures same_alternatives { self.new.alternatives.ghost_name ≡ self.old.alternatives.ghost_name }
        ensures read { BookRead text.now (table_rows self.old) result (table_rows self.new) }
        ensures meaning { BookReading text.now }
    {
        let size = accept(TextKind::Book, text)?.book_size();
        if size.is_above(self.size()) {
            return Err(Fault::TableShort.into());
        }
        fill(TextKind::Book, text, self.rules);
        fill(TextKind::Book, text, self.wishes);
        fill(TextKind::Book, text, self.alternatives);
        Ok(size)
    }

    // The book of the first rows, so many of each table, or all that there are.
    pub fn front(&self, size: BookSize) -> Book<'_>
        ensures { book_rows result ≡ fronts size (table_rows self.now) }
    {
        Book {
            rules: first(self.rules, size.rules),
            wishes: first(self.wishes, size.wishes),
            alternatives: first(self.alternatives, size.alternatives),
        }
    }
}

// The first rows of a table, so many or all that there are.
fn first<R>(rows: &[R], count: usize) -> &[R]
    ensures { result.now ≡ take count rows.now }
{
    rows.get(..count).unwrap_or(rows)
}
