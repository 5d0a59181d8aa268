//! The numbers of parts.
ghost use Rattle.std.specs.Prelude.{◌≡◌, ◌+◌, ◌<◌};
ghost use Rattle.zs_num.specs.Request.{bank_of};

use crate::table::PartsTable;
use division::remainder;
use zs_num::Request;

impl PartsTable {
    /// The number of the home of an access.
    pub(crate) fn home_number(&self, request: Request) -> usize
        requires { 0 < self.now.banks }
        ensures { result ≡ self.now.cores + bank_of self.now.banks request }
    {
        usize::from(self.cores) + remainder(request.line(), u64::from(self.banks)) as usize
    }

    /// How many parts there are.
    #[inline(always)]
    pub(crate) fn parts(&self) -> usize
        ensures { result ≡ self.now.cores + self.now.banks }
    {
        usize::from(self.cores) + usize::from(self.banks)
    }
}
