//! The bound phase of an interval by several workers, over homes and L1s that each core takes as it
//! needs them, and what is kept of the accesses: of each a byte and what it counts, and a record of
//! each that makes events. The same workers can be asked for the rounds of a weave by domains.
#![tactic(auto)]

mod buffers;
mod carries;
mod gated_port;
mod hands;
mod hiring;
mod interval;
mod member;
mod ordering;
mod share;
mod table_port;
mod team;
mod way;
mod weaving;
mod work;
mod working;

pub use buffers::WorkBuffers;
pub use interval::bound_by;
pub use ordering::{Ordering, tell_all};
pub use weaving::weave_by;
pub use work::Work;
