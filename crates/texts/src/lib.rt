// Whole texts of frames: catalogues of fits and rule books, read into a caller's tables and written from them.
#![tactic(auto)]

mod book;
mod book_size;
mod catalogue;
mod checks;
mod fault;
mod frame_source;
mod judge;
mod rows;
mod seen;
mod writing;

pub use book::{Book, BookTables};
pub use book_size::BookSize;
pub use catalogue::{read_catalogue, write_catalogue};
pub use fault::{Fault, Refusal};
