//! What a domain can do next.
use zs_num::{Cycle, Key};

/// What a domain can do next.
#[derive(Clone, Copy)]
pub enum Next {
    /// Every event of the domain is fired.
    Done,
    /// This event can fire.
    Fire { key: Key },
    /// An event that is not ready yet could come first: the crossing's parent finishes at the
    /// bound or later, as far as the domain knows.
    Blocked { crossing: u32, bound: Cycle },
}
