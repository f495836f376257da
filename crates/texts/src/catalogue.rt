// Catalogue texts: fits, then the end frame. The two calls are those of a book at one table; a trait over the tables of both
// would be longer than what they share.
ghost use Rattle.std.specs.Prelude.{◌≡◌, length};
ghost use Rattle.texts.specs.Meaning.{CatalogueReading, CatalogueWriting};
ghost use Rattle.texts.specs.Rows.{read_catalogue, row_count, rows_of, overwritten};
ghost use Rattle.texts.specs.Writing.{catalogue_text, write_catalogue, written};

use crate::checks::all_make_records;
use crate::fault::{Fault, Refusal};
use crate::frame_source::CatalogueFrames;
use crate::judge::accept;
use crate::rows::fill;
use crate::seen::TextKind;
use crate::writing::write_text;
use literals::LiteralSet;

// Reads a catalogue text into the front of a table; how many fits it has. A refusal leaves the table as it was.
#[tactic(auto, using(crate::proofs::RoundTrip::catalogue_reading))]
pub fn read_catalogue(text: &[u8], table: &mut [LiteralSet]) -> Result<usize, Refusal>
    ensures result { result ≡ row_count (read_catalogue text.now (length table.old)) }
    ensures meaning { CatalogueReading text.now }
    ensures table { table.new
        ≡ overwritten (rows_of (λ rows. rows) (read_catalogue text.now (length table.old))) table.old }
{
    let count = accept(TextKind::Catalogue, text)?.fits;
    if count > table.len() {
        return Err(Fault::TableShort.into());
    }
    fill(TextKind::Catalogue, text, table);
    Ok(count)
}

// Writes the text of a catalogue at the front of a buffer; how many bytes it has. A refusal leaves the buffer as it was.
#[tactic(auto, using(crate::proofs::RoundTrip::catalogue_writing))]
pub fn write_catalogue(rows: &[LiteralSet], out: &mut [u8]) -> Result<usize, Refusal>
    ensures result { result ≡ write_catalogue rows.now (length out.old) }
    ensures meaning { CatalogueWriting rows.now }
    ensures buffer { out.new ≡ written result (catalogue_text rows.now) out.old }
{
    if !all_make_records(rows) {
        return Err(Fault::NoText.into());
    }
    write_text(CatalogueFrames { rows }, out)
}
