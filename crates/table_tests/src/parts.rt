//! The homes and L1s of a machine of two cores, shared in one thread and in two.
mod racing;
mod resting;
mod worked;
