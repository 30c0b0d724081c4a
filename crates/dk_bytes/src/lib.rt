//! The fields that every byte string of the store is made of, and the checksum.
//!
//! Numbers have their least byte first. What `put_u8` to `put_u64` append, a `Cursor` reads again; it refuses exactly
//! where fewer bytes are left, says where that is, and stays there. The other fields have `put` and `read` alike, and a
//! length: names, types and the columns of a table (`specs/ColumnFields.antt`), values of a column's type
//! (`specs/PlainValue.antt`), cells and rows (`specs/RowFields.antt`). What is read is spelled there; what is spelled
//! there is read; else the error names the first field that is short or breaks a rule. `specs/Reading.antt` says how
//! readings are joined, so that the grammars above are written in the same words. `checksum` is the fold that
//! `specs/Checksum.antt` defines. Stands on `dk_values` for values and schemas.
#![tactic(auto)]

mod bits;
mod column_type;
mod columns;
mod cursor;
mod field_error;
mod name;
mod narrow;
mod numbers;
mod plain_value;
mod present;
mod put;
mod row;
mod sum;
mod word;

pub use column_type::{put_type, read_type};
pub use columns::{columns_len, put_columns, read_columns};
pub use cursor::{Cursor, Short};
pub use field_error::{FieldError, SegError};
pub use name::{name_len, put_name, read_name, take_name};
pub use narrow::{is_zero_behind, packed_number};
pub use numbers::{bit_width, byte_count, pack, take_packed, unpack};
pub use plain_value::{
    are_plain, copy_value, is_same, plain_len, put_value, read_value, take_text,
};
pub use present::{is_present, present_count, split_present};
pub use put::{cut_if_failed, put_u8, put_u16, put_u32, put_u64};
pub use row::{cell_len, put_cell, put_row, read_cell, read_row, row_len};
pub use sum::checksum;
pub use word::{last_word, word_of};

#[cfg(test)]
mod tests;
