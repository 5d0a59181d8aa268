//! A core's pairing: what its next store-conditional says, and what an access leaves.
ghost use Rattle.std.specs.Prelude.{◌≡◌};
ghost use Rattle.zs_num.specs.Pairing.{is_paired, pairing_after};

use zs_num::{Pairing, Request};

/// Whether a store-conditional of this address and width is paired.
pub fn is_paired(pairing: Option<Pairing>, addr: u64, width: u8) -> bool
    ensures { result ≡ is_paired pairing addr width }
{
    match pairing {
        Some(pairing) => pairing.addr == addr && pairing.width == width,
        None => false,
    }
}

/// Makes the pairing what an access leaves. It is written only where the access changes it.
#[inline(always)]
pub fn pair(pairing: &mut Option<Pairing>, request: Request)
    ensures { pairing.new ≡ pairing_after pairing.old request }
{
    match request {
        Request::Lr { addr, width } => *pairing = Some(Pairing { addr, width }),
        Request::Sc { .. } => *pairing = None,
        Request::Load { .. }
        | Request::Store { .. }
        | Request::Amo { .. }
        | Request::Fetch { .. } => {}
    }
}
