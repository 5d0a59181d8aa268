//! What an object that reads and writes files keeps of its latest fault.
use zs_num::Bytes;

/// What a call does with a file.
#[derive(Clone, Copy)]
pub enum Operation {
    Read,
    Write,
}

/// A call that failed: what it was to do, and the name of the file.
#[derive(Drop)]
pub struct Fault {
    pub operation: Operation,
    /// The name, in UTF-8.
    pub name: Bytes,
}
