//! Components of which a copy is kept.
ghost use Rattle.std.specs.Prelude.{◌≡◌, IfOk};

use component::{Bank, Comp, Component, Comps, Controller, Link};
use std::alloc::Global;
use zs_num::NoMemory;

/// A component of which a copy can be made.
pub trait Kept {
    /// The same component once more.
    fn copy(&self) -> Self
        ensures { result ≡ self.now };
}

impl Kept for Comp {
    fn copy(&self) -> Self {
        match self {
            Comp::Bank(bank) => Comp::Bank(Bank {
                lookup: bank.lookup,
                remote: bank.remote,
                fill: bank.fill,
                occupancy: bank.occupancy,
                free: bank.free,
            }),
            Comp::Controller(controller) => Comp::Controller(Controller {
                read: controller.read,
                write: controller.write,
                occupancy: controller.occupancy,
                free: controller.free,
            }),
            Comp::Link(link) => Comp::Link(Link {
                hop: link.hop,
                occupancy: link.occupancy,
                free: link.free,
            }),
            Comp::Rows(rows) => Comp::Rows(*rows),
        }
    }
}

/// The same components once more.
pub(crate) fn copy_of<C: Component + Kept>(
    alloc: Global,
    comps: &Comps<C>,
) -> Result<Comps<C>, NoMemory>
    ensures { IfOk result (λ copy. copy ≡ comps.now) }
{
    Ok(Comps::of(copies(alloc, comps.as_slice())?))
}

/// The components of a list once more.
fn copies<C: Component + Kept>(alloc: Global, comps: &[C]) -> Result<Vec<C>, NoMemory>
    ensures { IfOk result (λ list. list.items ≡ comps.now) }
{
    let list = comps.iter().map(|comp| comp.copy()).collect(alloc)?;
    Ok(list)
}
