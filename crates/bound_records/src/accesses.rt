//! What the weave takes from a recorder.
ghost use Rattle.std.specs.Prelude.{◌≡◌, ◌<◌, Some, length, slice_get};
ghost use Rattle.bound_records.specs.Recorders.{kept_lists};

use crate::Recorder;
use access_record::RecordLog;
use weave_chains::Accesses;
use zs_num::Entry;

impl Accesses for Recorder {
    ghost lists = { kept_lists };

    fn cores(&self) -> u16 {
        self.records.len() as u16
    }

    fn count(&self, core: u16) -> u32 {
        records_of(&self.records, core).len()
    }

    #[inline(always)]
    fn access(&self, core: u16, place: u32) -> Entry {
        records_of(&self.records, core).entry(place)
    }
}

/// The records of a core.
#[inline(always)]
fn records_of(records: &[RecordLog], core: u16) -> &RecordLog
    requires { core < length records.now }
    ensures { slice_get records.now core ≡ Some result.now }
{
    &records[usize::from(core)]
}
