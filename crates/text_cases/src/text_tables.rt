// The tables of one text: made of fillers to be read into, or filled with the rows of a case.
use crate::case::lacking;
use crate::rows::{Row, rows_of};
use crate::table::Table;
use crate::text::text_of;
use anyhow::anyhow;
use literals::LiteralSet;
use std::alloc::Global;
use std::fmt;
use tables::{AlternativeRow, FIT_FILLER, RuleRow, WishRow};
use texts::{Book, BookTables, Refusal, read_catalogue, write_catalogue};

// What each kind of text does with its tables. Shown, tables are the numbers of their rows in use.
pub trait TextTables: fmt::Display + Sized + Drop {
    // Tables of the lengths that stand first in words, no row being in use, and the text of the words behind those.
    fn of_lengths(heap: Global, words: &[&str]) -> anyhow::Result<(Self, Vec<u8>)>;

    // Tables of the rows of these words, all in use.
    fn of_rows(heap: Global, words: &[&str]) -> anyhow::Result<Self>;

    fn read(&mut self, text: &[u8]) -> Result<(), Refusal>;

    // Whether the rows behind those in use are fillers.
    fn has_fillers_behind(&self) -> bool;

    // Writes the text of the rows in use.
    fn write(&self, out: &mut [u8]) -> Result<usize, Refusal>;
}

#[derive(Drop)]
pub struct BookCase {
    rules: Table<RuleRow>,
    wishes: Table<WishRow>,
    alternatives: Table<AlternativeRow>,
}

impl fmt::Display for BookCase {
    fn fmt<W: fmt::Write>(&self, f: &mut fmt::Formatter<W>) -> fmt::Result {
        let rules = self.rules.used;
        let wishes = self.wishes.used;
        let alternatives = self.alternatives.used;
        write!(
            f,
            "{rules} rules, {wishes} wishes, {alternatives} alternatives"
        )
    }
}

impl TextTables for BookCase {
    // Every word is read before the tables are made, so that a bad one costs no memory.
    fn of_lengths(heap: Global, words: &[&str]) -> anyhow::Result<(BookCase, Vec<u8>)> {
        let [rules, wishes, alternatives, text @ ..] = words else {
            return lacking();
        };
        let rules = rules.parse::<usize>()?;
        let wishes = wishes.parse::<usize>()?;
        let alternatives = alternatives.parse::<usize>()?;
        let text = text_of(heap, text)?;
        let tables = BookCase {
            rules: Table::of_fillers(heap, RuleRow::FILLER, rules)?,
            wishes: Table::of_fillers(heap, WishRow::FILLER, wishes)?,
            alternatives: Table::of_fillers(heap, AlternativeRow::FILLER, alternatives)?,
        };
        Ok((tables, text))
    }

    fn of_rows(heap: Global, words: &[&str]) -> anyhow::Result<BookCase> {
        let mut tables = BookCase {
            rules: Table::empty(heap, RuleRow::FILLER),
            wishes: Table::empty(heap, WishRow::FILLER),
            alternatives: Table::empty(heap, AlternativeRow::FILLER),
        };
        for row in rows_of(heap, words)?.as_slice() {
            match *row {
                Row::Rule(rule) => tables.rules.push(rule)?,
                Row::Wish(wish) => tables.wishes.push(wish)?,
                Row::Alternative(alternative) => tables.alternatives.push(alternative)?,
                Row::Fit(_) => return Err(anyhow!("a fit in a book")),
            }
        }
        Ok(tables)
    }

    fn read(&mut self, text: &[u8]) -> Result<(), Refusal> {
        let mut tables = BookTables {
            rules: self.rules.rows.as_mut_slice(),
            wishes: self.wishes.rows.as_mut_slice(),
            alternatives: self.alternatives.rows.as_mut_slice(),
        };
        let size = tables.read(text)?;
        self.rules.used = size.rules;
        self.wishes.used = size.wishes;
        self.alternatives.used = size.alternatives;
        Ok(())
    }

    fn has_fillers_behind(&self) -> bool {
        self.rules.has_fillers_behind()
            && self.wishes.has_fillers_behind()
            && self.alternatives.has_fillers_behind()
    }

    fn write(&self, out: &mut [u8]) -> Result<usize, Refusal> {
        let book = Book {
            rules: self.rules.front(),
            wishes: self.wishes.front(),
            alternatives: self.alternatives.front(),
        };
        book.write(out)
    }
}

#[derive(Drop)]
pub struct CatalogueCase {
    fits: Table<LiteralSet>,
}

impl fmt::Display for CatalogueCase {
    fn fmt<W: fmt::Write>(&self, f: &mut fmt::Formatter<W>) -> fmt::Result {
        let used = self.fits.used;
        write!(f, "{used} fits")
    }
}

impl TextTables for CatalogueCase {
    fn of_lengths(heap: Global, words: &[&str]) -> anyhow::Result<(CatalogueCase, Vec<u8>)> {
        let [fits, text @ ..] = words else {
            return lacking();
        };
        let fits = Table::of_fillers(heap, FIT_FILLER, fits.parse::<usize>()?)?;
        Ok((CatalogueCase { fits }, text_of(heap, text)?))
    }

    fn of_rows(heap: Global, words: &[&str]) -> anyhow::Result<CatalogueCase> {
        let mut fits = Table::empty(heap, FIT_FILLER);
        for row in rows_of(heap, words)?.as_slice() {
            match *row {
                Row::Fit(fit) => fits.push(fit)?,
                _ => return Err(anyhow!("only fits are in a catalogue")),
            }
        }
        Ok(CatalogueCase { fits })
    }

    fn read(&mut self, text: &[u8]) -> Result<(), Refusal> {
        self.fits.used = read_catalogue(text, self.fits.rows.as_mut_slice())?;
        Ok(())
    }

    fn has_fillers_behind(&self) -> bool {
        self.fits.has_fillers_behind()
    }

    fn write(&self, out: &mut [u8]) -> Result<usize, Refusal> {
        write_catalogue(self.fits.front(), out)
    }
}
