//! Numbers and texts in bytes: big-endian fields, lines, decimal and hexadecimal numbers.
//!
//! Each call is the definition of its format, both ways: what it reads, it reads exactly where the
//! bytes have that form. None takes memory. The crate stands on `hex`, `itoa` and `memchr`.
#![tactic(auto)]

mod cut;
mod decimals;
mod field;
mod hexadecimal;
mod line;

pub use cut::{Cut, need};
pub use decimals::{decimal, put_decimal};
pub use field::{put_u16, put_u32, put_u64, u16_at, u32_at, u64_at};
pub use hexadecimal::hex_into;
pub use line::{line_count, split_line};
