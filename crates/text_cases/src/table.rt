// A table of a case: rows in use in front, and fillers behind them.
use std::alloc::{AllocError, Global};

// The count stands beside the rows since those behind the rows in use are looked at too.
#[derive(Drop)]
pub struct Table<R> {
    pub rows: Vec<R>,
    pub used: usize,
    filler: R,
}

impl<R: Copy + PartialEq> Table<R> {
    // So many fillers, no row being in use.
    pub fn of_fillers(heap: Global, filler: R, length: usize) -> Result<Table<R>, AllocError> {
        Ok(Table {
            rows: vec![in heap; filler; length]?,
            used: 0,
            filler,
        })
    }

    // No row at all.
    pub fn empty(heap: Global, filler: R) -> Table<R> {
        Table {
            rows: Vec::new(heap),
            used: 0,
            filler,
        }
    }

    // All rows in use, and one more.
    pub fn push(&mut self, row: R) -> Result<(), AllocError> {
        self.rows.push(row)?;
        self.used = self.rows.len();
        Ok(())
    }

    // The rows in use.
    pub fn front(&self) -> &[R] {
        let rows = self.rows.as_slice();
        rows.get(..self.used).unwrap_or(rows)
    }

    // Whether the rows behind those in use are fillers.
    pub fn has_fillers_behind(&self) -> bool {
        self.rows
            .iter()
            .skip(self.used)
            .all(|row| *row == self.filler)
    }
}
