//! The versions of the format, of which the number of cores decides: in the lists of version 1 the
//! number of a core has one byte, and in those of version 2 two.
ghost use Rattle.std.specs.Prelude.{◌≡◌, ◌*◌, ◌<◌, ◌≤◌, ◌^◌};
ghost use Rattle.schedule_file.specs.ScheduleFile as file;

/// How many cores a file of version 1 is for at most.
const CORES_OF_VERSION_1: u16 = 64;

/// Whether a schedule for so many cores has a file of version 2.
#[tactic(auto, unfolding(crate::specs::ScheduleFile::is_wide))]
pub fn is_wide(cores: u16) -> bool
    ensures { result ≡ file.is_wide cores }
{
    cores > CORES_OF_VERSION_1
}

/// The version of the file of a schedule for so many cores.
#[tactic(auto, unfolding(crate::specs::ScheduleFile::version_for))]
pub fn version(cores: u16) -> u32
    ensures { result ≡ file.version_for cores }
{
    if is_wide(cores) { 2 } else { 1 }
}

/// How many bytes the numbers of so many turns have in it.
#[tactic(auto, unfolding(crate::specs::ScheduleFile::width_for))]
pub fn turns_len(cores: u16, count: usize) -> usize
    requires { count < 2 ^ 32 }
    ensures value { result ≡ file.width_for cores * count }
    ensures bound { result ≤ 2 * count }
{
    if is_wide(cores) { 2 * count } else { count }
}
