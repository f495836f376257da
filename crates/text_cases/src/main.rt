// Boundary cases of texts and of the lines of answers, one a line of standard input; prints what comes of each.
// A line that begins with `#` is a heading, and is printed as it is, as is an empty line. Any other is `NAME: CASE`, a case being
//   book RULES WISHES ALTERNATIVES TEXT    reads a book text into tables of these lengths
//   catalogue FITS TEXT                    reads a catalogue text into a table of this length
//   write-book ROOM ROWS                   writes the text of these rows to a buffer of so many bytes
//   write-catalogue ROOM ROWS              the same for fits
//   row ROOM COLUMNS, more ROOM, refusal ROOM NUMBER LINE    write a line of an answer
#![tactic(auto)]

mod buffer;
mod case;
mod reading;
mod rows;
mod table;
mod text;
mod text_tables;
mod words;
mod writing;

use case::print_case;
use std::io::{BufRead, BufReader};

fn main(rt: HostRuntime) -> anyhow::Result<()> {
    for line in BufReader::new(rt.alloc(), rt.stdin())?.lines(rt.alloc()) {
        print_case(&rt, line?.as_str())?;
    }
    Ok(())
}
