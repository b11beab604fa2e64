// Texts, as bytes: numbers read and written, fields and lines found, bytes written into a lent buffer.
#![tactic(auto)]

mod fields;
mod line_iter;
mod numbers;
mod parts;
mod writes;

pub use fields::{field, field_count, field_hex, field_is};
pub use line_iter::{LineIter, each_line, rest_from};
pub use numbers::{decimal_digits, digit_of, hex_value, write_decimal, write_hex};
pub use parts::{line_count, line_from, next_line, part, part_count, part_end, part_from, same};
pub use writes::{write_byte, write_text};
