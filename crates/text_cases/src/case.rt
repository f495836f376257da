// One case: its words tell what is tried.
use crate::reading::read_text;
use crate::text_tables::{BookCase, CatalogueCase, TextTables};
use crate::words::values_of;
use crate::writing::try_write;
use anyhow::anyhow;
use frames::{write_more, write_refusal, write_row};
use std::alloc::Global;

// A case that lacks words.
pub fn lacking<T>() -> anyhow::Result<T> {
    Err(anyhow!("a case lacks words"))
}

// The words tell how long the tables are, and then the text.
fn read_case<T: TextTables>(heap: Global, words: &[&str]) -> anyhow::Result<String> {
    let (mut tables, text) = T::of_lengths(heap, words)?;
    Ok(read_text(heap, text.as_slice(), &mut tables)?)
}

fn write_case<T: TextTables>(heap: Global, words: &[&str]) -> anyhow::Result<String> {
    let [room, rows @ ..] = words else {
        return lacking();
    };
    let tables = T::of_rows(heap, rows)?;
    Ok(try_write(heap, room.parse::<usize>()?, |out| tables.write(out))?)
}

fn row_case(heap: Global, words: &[&str]) -> anyhow::Result<String> {
    let [room, columns @ ..] = words else {
        return lacking();
    };
    let columns = values_of(heap, columns, |column| Ok(column.parse::<u64>()?))?;
    let columns = columns.as_slice();
    Ok(try_write(heap, room.parse::<usize>()?, |out| write_row(columns, out))?)
}

fn more_case(heap: Global, words: &[&str]) -> anyhow::Result<String> {
    let [room] = words else {
        return lacking();
    };
    Ok(try_write(heap, room.parse::<usize>()?, |out| write_more(out))?)
}

fn refusal_case(heap: Global, words: &[&str]) -> anyhow::Result<String> {
    let [room, number, line] = words else {
        return lacking();
    };
    let refusal = (number.parse::<u8>()?, line.parse::<u32>()?);
    Ok(try_write(heap, room.parse::<usize>()?, |out| {
        write_refusal(&refusal, out)
    })?)
}

// What comes of the case of these words, the first telling its kind: the input's own words for the calls.
fn try_case(heap: Global, words: &[&str]) -> anyhow::Result<String> {
    let [kind, words @ ..] = words else {
        return lacking();
    };
    match *kind {
        "book" => read_case::<BookCase>(heap, words),
        "catalogue" => read_case::<CatalogueCase>(heap, words),
        "write-book" => write_case::<BookCase>(heap, words),
        "write-catalogue" => write_case::<CatalogueCase>(heap, words),
        "row" => row_case(heap, words),
        "more" => more_case(heap, words),
        "refusal" => refusal_case(heap, words),
        _ => Err(anyhow!("no such case")),
    }
}

// Prints a heading, or the name of a case and what comes of it.
pub fn print_case(rt: &HostRuntime, line: &str) -> anyhow::Result<()> {
    if line.is_empty() || line.starts_with('#') {
        println!(rt; "{line}")?;
        return Ok(());
    }
    let Some((name, case)) = line.split_once(": ") else {
        return Err(anyhow!("a case begins with its name"));
    };
    let words: Vec<&str> = case.split_whitespace().collect(rt.alloc())?;
    let result = try_case(rt.alloc(), words.as_slice())?;
    println!(rt; "{name}: {result}")?;
    Ok(())
}

#[cfg(test)]
mod tests {
    use super::*;

    // What a case fails with; nothing where it has a result.
    fn failure(heap: Global, words: &[&str]) -> anyhow::Result<String> {
        match try_case(heap, words) {
            Ok(_) => Ok(String::new(heap)),
            Err(error) => Ok(format!(in heap; "{error}")?),
        }
    }

    // Of two words that are wrong, the one that is read first is told, and before memory is asked for.
    #[test]
    fn first_wrong_word(rt: HostRuntime) -> anyhow::Result<()> {
        let heap = rt.alloc();
        let digit = "invalid digit found in string";
        let large = "18446744073709551615";
        assert_eq!(rt;
            failure(heap, &["book", large, "z", "1", "10/"])?.as_str(),
            digit
        );
        assert_eq!(rt;
            failure(heap, &["book", large, "1", "1", "z*10/"])?.as_str(),
            digit
        );
        assert_eq!(rt;
            failure(heap, &["write-book", "100", "choice:256:1:x:0"])?.as_str(),
            digit
        );
        Ok(())
    }
}
