//! One core as its program sees it: it executes RV64I with the extensions M and A (RISC-V
//! Unprivileged ISA manual), asks for accesses and takes their replies.
#![tactic(auto)]

mod arithmetic;
mod ask;
mod atomics;
mod calls;
mod control;
mod did;
mod execute;
pub mod laws;
mod leg;
mod loads_stores;
mod memory_range;
mod pairing;
mod port;
mod program;
mod progress;
mod ran;
mod replies;
mod single;
mod state;
mod step;
mod stint;
mod why;

pub use ask::Ask;
pub use did::Did;
pub use leg::Leg;
pub use memory_range::MemoryRange;
pub use port::Port;
pub use program::{Fetched, Program};
pub use progress::Destination;
pub use ran::Ran;
pub use replies::low_bytes;
pub use single::{Single, is_single};
pub use state::Core;
pub use step::Stepped;
pub use stint::{Came, Stint};
pub use why::Why;
