//! The conditions of the branches.
ghost use Rattle.std.specs.Prelude.{◌≡◌, IsTrue};
ghost use Rattle.rv_alu.specs.Branch.{is_taken};
ghost use Rattle.rv_alu.specs.Computing.{is_branch};

use rv_decode::Name;

/// Whether the instruction is a conditional branch.
pub fn is_branch(name: Name) -> bool
    ensures { result ≡ is_branch name }
{
    match name {
        Name::Beq | Name::Bne | Name::Blt | Name::Bge | Name::Bltu | Name::Bgeu => true,
        _ => false,
    }
}

/// Whether a conditional branch is taken, by the numbers in its two source registers (RISC-V
/// Unprivileged ISA manual, "Conditional Branches").
#[tactic(auto, unfolding(crate::specs::Branch::is_taken))]
pub fn taken(name: Name, first: u64, second: u64) -> bool
    requires { IsTrue (is_branch name) }
    ensures { result ≡ is_taken name first second }
{
    match name {
        Name::Beq => first == second,
        Name::Bne => first != second,
        Name::Blt => first.cast_signed() < second.cast_signed(),
        Name::Bge => first.cast_signed() >= second.cast_signed(),
        Name::Bltu => first < second,
        Name::Bgeu => first >= second,
        _ => unreachable!(),
    }
}
