// The trait Field: little-endian fields of 1, 2, 4 and 8 bytes, read from a byte slice and written to one. And Placed: a signed
// number as one that is never negative, in the same order.
#![tactic(auto)]

mod field;
mod sign;

pub use field::Field;
pub use sign::{HALF4, HALF8, Placed};
