//! What the cores have reserved.
ghost use Rattle.std.specs.Prelude.{◌≡◌, ◌<◌, IsTrue, length, slice_index_or, None};
ghost use Rattle.flat_memory.specs.FlatMemory.{is_reservation, after_write, unless_written};

use zs_num::LINE;

/// What a load-reserved reserves: so many bytes from an address on (RISC-V Unprivileged ISA manual,
/// "Load-Reserved/Store-Conditional Instructions").
#[derive(Clone, Copy)]
pub struct Reservation {
    pub addr: u64,
    /// In bytes, 4 or 8.
    pub width: u8,
}

/// Whether these bytes are what a core has reserved.
pub fn is_reserved(reservation: Option<Reservation>, addr: u64, width: u8) -> bool
    ensures { result ≡ is_reservation reservation addr width }
{
    match reservation {
        Some(r) => r.addr == addr && r.width == width,
        None => false,
    }
}

/// What a core has still reserved when a core wrote to a line.
fn still(reservation: Option<Reservation>, is_writer: bool, addr: u64) -> Option<Reservation>
    ensures { result ≡ unless_written is_writer addr reservation }
{
    match reservation {
        Some(r) if !is_writer && r.addr / LINE == addr / LINE => None,
        _ => reservation,
    }
}

/// Ends what other cores have reserved in the line that a core wrote to.
pub fn end_others(reservations: &mut [Option<Reservation>], core: u16, addr: u64)
    ensures { reservations.new ≡ after_write core addr reservations.old }
{
    for (number, reservation) in reservations.iter_mut().enumerate() {
        *reservation = still(*reservation, number == usize::from(core), addr);
    }
}
