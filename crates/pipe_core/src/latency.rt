//! Which instructions write a register, and how long after their issue it is ready.
ghost use Rattle.std.specs.Prelude.{◌≡◌, ◌≤◌};
ghost use Rattle.machine_desc.specs.Machine.{IsPipe};
ghost use Rattle.pipe_core.specs.Pace.{all_ready, latency_of, writes_rd};

use machine_desc::Pipe;
use rv_decode::Name;

/// How long after its issue the register is ready that an instruction writes, in cycles.
#[tactic(auto, unfolding(crate::specs::Pace::latency_of))]
pub(crate) fn latency(pipe: &Pipe, name: Name) -> u64
    requires { IsPipe pipe.now }
    ensures value { result ≡ latency_of pipe.now name }
    ensures small { result ≤ 128 }
{
    match name {
        Name::Mul | Name::Mulh | Name::Mulhsu | Name::Mulhu | Name::Mulw => u64::from(pipe.mul),
        Name::Div
        | Name::Divu
        | Name::Rem
        | Name::Remu
        | Name::Divw
        | Name::Divuw
        | Name::Remw
        | Name::Remuw => u64::from(pipe.div),
        _ => 1,
    }
}

/// Whether an instruction writes the register of its field rd.
#[tactic(auto, unfolding(crate::specs::Pace::writes_rd))]
pub(crate) fn writes_rd(name: Name) -> bool
    ensures { result ≡ writes_rd name }
{
    match name {
        Name::Beq | Name::Bne | Name::Blt | Name::Bge | Name::Bltu | Name::Bgeu => false,
        Name::Sb | Name::Sh | Name::Sw | Name::Sd => false,
        Name::Ecall | Name::Ebreak | Name::Fence => false,
        _ => true,
    }
}

/// The greatest of some cycles, 0 where there are none.
pub(crate) fn latest(cycles: &[u64]) -> u64
    ensures { result ≡ all_ready cycles.now }
{
    let mut greatest = 0;
    for cycle in cycles {
        greatest = greatest.max(*cycle);
    }
    greatest
}
