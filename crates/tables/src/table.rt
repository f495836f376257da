// The records of a table, one after another.
ghost use Rattle.std.specs.Prelude.{◌≡◌};
ghost use Rattle.std.specs.Iterator.{YieldsFirst, item_count};
ghost use Rattle.tables.specs.Tables.{records};

use crate::making::Record;

// They come in the order of their rows; a row that makes none is left out.
#[derive(Drop)]
pub struct Records<'a, R: Record> {
    rows: &'a [R::Row],
}

impl<'a, R: Record> Records<'a, R> {
    pub fn of(rows: &'a [R::Row]) -> Records<'a, R>
        ensures { result.rows.now ≡ rows.now }
    {
        Records { rows }
    }
}

impl<'a, R: Record> Iterator for Records<'a, R> {
    type Item = R;

    ghost next_gives = { YieldsFirst (λ s. records R.of s.rows.now) };

    ghost remaining = { item_count (λ s. records R.of s.rows.now) };

    fn next(&mut self) -> Option<R> {
        while let Some((row, rest)) = self.rows.split_first() {
            self.rows = rest;
            if let Ok(record) = R::new(*row) {
                return Some(record);
            }
        }
        None
    }
}
