//! The names of the instructions of one opcode, by the field in which their rows differ. The groups
//! are those of the instruction table.
ghost use Rattle.std.specs.Prelude.{◌≡◌};
ghost use Rattle.rv_decode.specs.InstructionTable.{register_jump_rows, branch_rows, load_rows, store_rows, immediate_rows, left_shift_rows, right_shift_rows, word_immediate_rows, left_word_shift_rows, right_word_shift_rows, fence_rows, call_rows, operation_rows, alternate_operation_rows, extension_m_rows, word_operation_rows, alternate_word_operation_rows, extension_m_word_rows, word_atomic_rows, doubleword_atomic_rows};
ghost use Rattle.rv_decode.specs.Names.{named};

use crate::Name;

pub fn register_jump_name(funct3: u32) -> Option<Name>
    ensures { result ≡ named register_jump_rows.names funct3 }
{
    match funct3 {
        0 => Some(Name::Jalr),
        _ => None,
    }
}

pub fn branch_name(funct3: u32) -> Option<Name>
    ensures { result ≡ named branch_rows.names funct3 }
{
    match funct3 {
        0 => Some(Name::Beq),
        1 => Some(Name::Bne),
        4 => Some(Name::Blt),
        5 => Some(Name::Bge),
        6 => Some(Name::Bltu),
        7 => Some(Name::Bgeu),
        _ => None,
    }
}

pub fn load_name(funct3: u32) -> Option<Name>
    ensures { result ≡ named load_rows.names funct3 }
{
    match funct3 {
        0 => Some(Name::Lb),
        1 => Some(Name::Lh),
        2 => Some(Name::Lw),
        3 => Some(Name::Ld),
        4 => Some(Name::Lbu),
        5 => Some(Name::Lhu),
        6 => Some(Name::Lwu),
        _ => None,
    }
}

pub fn store_name(funct3: u32) -> Option<Name>
    ensures { result ≡ named store_rows.names funct3 }
{
    match funct3 {
        0 => Some(Name::Sb),
        1 => Some(Name::Sh),
        2 => Some(Name::Sw),
        3 => Some(Name::Sd),
        _ => None,
    }
}

pub fn immediate_name(funct3: u32) -> Option<Name>
    ensures { result ≡ named immediate_rows.names funct3 }
{
    match funct3 {
        0 => Some(Name::Addi),
        2 => Some(Name::Slti),
        3 => Some(Name::Sltiu),
        4 => Some(Name::Xori),
        6 => Some(Name::Ori),
        7 => Some(Name::Andi),
        _ => None,
    }
}

pub fn left_shift_name(top: u32) -> Option<Name>
    ensures { result ≡ named left_shift_rows.names top }
{
    match top {
        0 => Some(Name::Slli),
        _ => None,
    }
}

pub fn right_shift_name(top: u32) -> Option<Name>
    ensures { result ≡ named right_shift_rows.names top }
{
    match top {
        0 => Some(Name::Srli),
        0x10 => Some(Name::Srai),
        _ => None,
    }
}

pub fn word_immediate_name(funct3: u32) -> Option<Name>
    ensures { result ≡ named word_immediate_rows.names funct3 }
{
    match funct3 {
        0 => Some(Name::Addiw),
        _ => None,
    }
}

pub fn left_word_shift_name(funct7: u32) -> Option<Name>
    ensures { result ≡ named left_word_shift_rows.names funct7 }
{
    match funct7 {
        0 => Some(Name::Slliw),
        _ => None,
    }
}

pub fn right_word_shift_name(funct7: u32) -> Option<Name>
    ensures { result ≡ named right_word_shift_rows.names funct7 }
{
    match funct7 {
        0 => Some(Name::Srliw),
        0x20 => Some(Name::Sraiw),
        _ => None,
    }
}

pub fn fence_name(funct3: u32) -> Option<Name>
    ensures { result ≡ named fence_rows.names funct3 }
{
    match funct3 {
        0 => Some(Name::Fence),
        _ => None,
    }
}

pub fn call_name(funct12: u32) -> Option<Name>
    ensures { result ≡ named call_rows.names funct12 }
{
    match funct12 {
        0 => Some(Name::Ecall),
        1 => Some(Name::Ebreak),
        _ => None,
    }
}

pub fn operation_name(funct3: u32) -> Option<Name>
    ensures { result ≡ named operation_rows.names funct3 }
{
    match funct3 {
        0 => Some(Name::Add),
        1 => Some(Name::Sll),
        2 => Some(Name::Slt),
        3 => Some(Name::Sltu),
        4 => Some(Name::Xor),
        5 => Some(Name::Srl),
        6 => Some(Name::Or),
        7 => Some(Name::And),
        _ => None,
    }
}

pub fn alternate_operation_name(funct3: u32) -> Option<Name>
    ensures { result ≡ named alternate_operation_rows.names funct3 }
{
    match funct3 {
        0 => Some(Name::Sub),
        5 => Some(Name::Sra),
        _ => None,
    }
}

pub fn extension_m_name(funct3: u32) -> Option<Name>
    ensures { result ≡ named extension_m_rows.names funct3 }
{
    match funct3 {
        0 => Some(Name::Mul),
        1 => Some(Name::Mulh),
        2 => Some(Name::Mulhsu),
        3 => Some(Name::Mulhu),
        4 => Some(Name::Div),
        5 => Some(Name::Divu),
        6 => Some(Name::Rem),
        7 => Some(Name::Remu),
        _ => None,
    }
}

pub fn word_operation_name(funct3: u32) -> Option<Name>
    ensures { result ≡ named word_operation_rows.names funct3 }
{
    match funct3 {
        0 => Some(Name::Addw),
        1 => Some(Name::Sllw),
        5 => Some(Name::Srlw),
        _ => None,
    }
}

pub fn alternate_word_operation_name(funct3: u32) -> Option<Name>
    ensures { result ≡ named alternate_word_operation_rows.names funct3 }
{
    match funct3 {
        0 => Some(Name::Subw),
        5 => Some(Name::Sraw),
        _ => None,
    }
}

pub fn extension_m_word_name(funct3: u32) -> Option<Name>
    ensures { result ≡ named extension_m_word_rows.names funct3 }
{
    match funct3 {
        0 => Some(Name::Mulw),
        4 => Some(Name::Divw),
        5 => Some(Name::Divuw),
        6 => Some(Name::Remw),
        7 => Some(Name::Remuw),
        _ => None,
    }
}

pub fn word_atomic_name(funct5: u32) -> Option<Name>
    ensures { result ≡ named word_atomic_rows.names funct5 }
{
    match funct5 {
        0x03 => Some(Name::ScW),
        0x01 => Some(Name::AmoswapW),
        0x00 => Some(Name::AmoaddW),
        0x04 => Some(Name::AmoxorW),
        0x0c => Some(Name::AmoandW),
        0x08 => Some(Name::AmoorW),
        0x10 => Some(Name::AmominW),
        0x14 => Some(Name::AmomaxW),
        0x18 => Some(Name::AmominuW),
        0x1c => Some(Name::AmomaxuW),
        _ => None,
    }
}

pub fn doubleword_atomic_name(funct5: u32) -> Option<Name>
    ensures { result ≡ named doubleword_atomic_rows.names funct5 }
{
    match funct5 {
        0x03 => Some(Name::ScD),
        0x01 => Some(Name::AmoswapD),
        0x00 => Some(Name::AmoaddD),
        0x04 => Some(Name::AmoxorD),
        0x0c => Some(Name::AmoandD),
        0x08 => Some(Name::AmoorD),
        0x10 => Some(Name::AmominD),
        0x14 => Some(Name::AmomaxD),
        0x18 => Some(Name::AmominuD),
        0x1c => Some(Name::AmomaxuD),
        _ => None,
    }
}
