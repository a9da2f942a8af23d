//! Cells as text, one a line: what a store prints, and reads again.
//!
//! The text of a cell is exact (`cell_text`), and a value is read as the cell that it has the form of, or is
//! none (`read_cell_text`). What is printed reads back as the same cell, and each cell that is read is one of which
//! this holds (`cells_read_back`).
#![tactic(auto)]

mod fault;
mod fields;
mod laws;
mod parts;
mod print;
mod read;
mod values;

pub use fault::CellFault;
pub use laws::cells_read_back;
pub use print::{cell_text, push_cell_text};
pub use read::read_cell_text;
