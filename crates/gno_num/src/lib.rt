//! Numbers of the metric store: fixed-point values and fractions, stamps and spans in nanoseconds,
//! the printed forms of values, a list type, and the answers that all crates share.
#![tactic(auto)]

mod digits;
mod faults;
mod frac;
mod keys;
mod list;
mod number;
mod read;
mod span;
mod stamp;
mod text;
mod value;

pub use digits::{are_digits, number_onto, skip, split_digits};
pub use faults::{Counter, Damaged, DiskFault, Failed, Memory, Spent};
pub use frac::Frac;
pub use keys::{GROUPS_PER_SPLIT, floor, split_key};
pub use list::List;
pub use number::{Number, Scaled, fraction_at, read_number};
pub use read::{LONGEST_TOKEN, NumFault, read_value};
pub use span::Span;
pub use stamp::Stamp;
pub use text::{frac_text, scaled_text, value_text};
pub use value::Value;

#[cfg(test)]
mod tests;
