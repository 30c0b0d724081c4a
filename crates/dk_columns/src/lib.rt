//! Columns of values of one type, and rows that may be missing, by column.
//!
//! A `Mask` has a bit for each value, and no words where all are set. `SharedCells` is a column that many may hold, and
//! `OptionRows` stands on such columns, so that a copy of it copies no values.
//! It stands on the standard library, on `dk_values` and on `dk_rows`.
#![tactic(auto)]

pub mod cells;
pub mod lend_row;
pub mod mask;
pub mod numbers;
pub mod option_row;
pub mod option_rows;
pub mod shared_cells;
#[cfg(test)]
mod tests;
pub mod text_cells;

pub use cells::Cells;
pub use lend_row::LendRow;
pub use mask::Mask;
pub use numbers::Numbers;
pub use option_row::OptionRow;
pub use option_rows::OptionRows;
pub use shared_cells::SharedCells;
pub use text_cells::TextCells;
