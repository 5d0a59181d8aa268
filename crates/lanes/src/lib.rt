//! Words compared several at a time, and masks of 256 bits.
#![tactic(auto)]

mod masks;
mod words;

pub use masks::{mask_and, mask_any, mask_count};
pub use words::{find_eq, least};
