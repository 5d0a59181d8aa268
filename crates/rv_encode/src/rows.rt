//! The bits that each instruction's row of the instruction table states, with its format.
use rv_decode::Format;
use rv_decode::opcodes::{
    AMO, AUIPC, BRANCH, JAL, JALR, LOAD, LUI, MISC_MEM, OP, OP_32, OP_IMM, OP_IMM_32, STORE, SYSTEM,
};

/// The value and the format of the row of each name, in the order of the names (RISC-V Unprivileged
/// ISA manual, "RV32/64G Instruction Set Listings"). A value is the opcode, and the bits above it
/// that are fixed, as funct3 and funct7, in their places.
pub static ROWS: [(u32, Format); 87] = [
    // LUI, AUIPC, JAL, JALR
    (LUI, Format::U),
    (AUIPC, Format::U),
    (JAL, Format::J),
    (JALR, Format::I),
    // BEQ, BNE, BLT, BGE, BLTU, BGEU
    (BRANCH, Format::B),
    (0x0000_1000 | BRANCH, Format::B),
    (0x0000_4000 | BRANCH, Format::B),
    (0x0000_5000 | BRANCH, Format::B),
    (0x0000_6000 | BRANCH, Format::B),
    (0x0000_7000 | BRANCH, Format::B),
    // LB, LH, LW, LD, LBU, LHU, LWU
    (LOAD, Format::I),
    (0x0000_1000 | LOAD, Format::I),
    (0x0000_2000 | LOAD, Format::I),
    (0x0000_3000 | LOAD, Format::I),
    (0x0000_4000 | LOAD, Format::I),
    (0x0000_5000 | LOAD, Format::I),
    (0x0000_6000 | LOAD, Format::I),
    // SB, SH, SW, SD
    (STORE, Format::S),
    (0x0000_1000 | STORE, Format::S),
    (0x0000_2000 | STORE, Format::S),
    (0x0000_3000 | STORE, Format::S),
    // ADDI, SLTI, SLTIU, XORI, ORI, ANDI
    (OP_IMM, Format::I),
    (0x0000_2000 | OP_IMM, Format::I),
    (0x0000_3000 | OP_IMM, Format::I),
    (0x0000_4000 | OP_IMM, Format::I),
    (0x0000_6000 | OP_IMM, Format::I),
    (0x0000_7000 | OP_IMM, Format::I),
    // SLLI, SRLI, SRAI
    (0x0000_1000 | OP_IMM, Format::Shift),
    (0x0000_5000 | OP_IMM, Format::Shift),
    (0x4000_5000 | OP_IMM, Format::Shift),
    // ADDIW, SLLIW, SRLIW, SRAIW
    (OP_IMM_32, Format::I),
    (0x0000_1000 | OP_IMM_32, Format::WordShift),
    (0x0000_5000 | OP_IMM_32, Format::WordShift),
    (0x4000_5000 | OP_IMM_32, Format::WordShift),
    // FENCE, ECALL, EBREAK
    (MISC_MEM, Format::I),
    (SYSTEM, Format::Whole),
    (0x0010_0000 | SYSTEM, Format::Whole),
    // ADD, SUB, SLL, SLT, SLTU, XOR, SRL, SRA, OR, AND
    (OP, Format::R),
    (0x4000_0000 | OP, Format::R),
    (0x0000_1000 | OP, Format::R),
    (0x0000_2000 | OP, Format::R),
    (0x0000_3000 | OP, Format::R),
    (0x0000_4000 | OP, Format::R),
    (0x0000_5000 | OP, Format::R),
    (0x4000_5000 | OP, Format::R),
    (0x0000_6000 | OP, Format::R),
    (0x0000_7000 | OP, Format::R),
    // ADDW, SUBW, SLLW, SRLW, SRAW
    (OP_32, Format::R),
    (0x4000_0000 | OP_32, Format::R),
    (0x0000_1000 | OP_32, Format::R),
    (0x0000_5000 | OP_32, Format::R),
    (0x4000_5000 | OP_32, Format::R),
    // MUL, MULH, MULHSU, MULHU
    (0x0200_0000 | OP, Format::R),
    (0x0200_1000 | OP, Format::R),
    (0x0200_2000 | OP, Format::R),
    (0x0200_3000 | OP, Format::R),
    // DIV, DIVU, REM, REMU
    (0x0200_4000 | OP, Format::R),
    (0x0200_5000 | OP, Format::R),
    (0x0200_6000 | OP, Format::R),
    (0x0200_7000 | OP, Format::R),
    // MULW, DIVW, DIVUW, REMW, REMUW
    (0x0200_0000 | OP_32, Format::R),
    (0x0200_4000 | OP_32, Format::R),
    (0x0200_5000 | OP_32, Format::R),
    (0x0200_6000 | OP_32, Format::R),
    (0x0200_7000 | OP_32, Format::R),
    // LR.W, SC.W
    (0x1000_2000 | AMO, Format::LoadReserved),
    (0x1800_2000 | AMO, Format::Atomic),
    // AMOSWAP.W, AMOADD.W, AMOXOR.W, AMOAND.W, AMOOR.W
    (0x0800_2000 | AMO, Format::Atomic),
    (0x0000_2000 | AMO, Format::Atomic),
    (0x2000_2000 | AMO, Format::Atomic),
    (0x6000_2000 | AMO, Format::Atomic),
    (0x4000_2000 | AMO, Format::Atomic),
    // AMOMIN.W, AMOMAX.W, AMOMINU.W, AMOMAXU.W
    (0x8000_2000 | AMO, Format::Atomic),
    (0xa000_2000 | AMO, Format::Atomic),
    (0xc000_2000 | AMO, Format::Atomic),
    (0xe000_2000 | AMO, Format::Atomic),
    // LR.D, SC.D
    (0x1000_3000 | AMO, Format::LoadReserved),
    (0x1800_3000 | AMO, Format::Atomic),
    // AMOSWAP.D, AMOADD.D, AMOXOR.D, AMOAND.D, AMOOR.D
    (0x0800_3000 | AMO, Format::Atomic),
    (0x0000_3000 | AMO, Format::Atomic),
    (0x2000_3000 | AMO, Format::Atomic),
    (0x6000_3000 | AMO, Format::Atomic),
    (0x4000_3000 | AMO, Format::Atomic),
    // AMOMIN.D, AMOMAX.D, AMOMINU.D, AMOMAXU.D
    (0x8000_3000 | AMO, Format::Atomic),
    (0xa000_3000 | AMO, Format::Atomic),
    (0xc000_3000 | AMO, Format::Atomic),
    (0xe000_3000 | AMO, Format::Atomic),
];
