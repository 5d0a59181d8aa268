//! Laws that hold between results, in the words of the RISC-V Unprivileged ISA manual. Each is the
//! contract of a function that does nothing.
#![tactic(auto, unfolding(crate::specs::Arithmetic::result_of, crate::specs::Branch::is_taken))]

ghost use Rattle.std.specs.Prelude.{◌==◌, [], ◌∷◌, ◌≡◌, ◌≢◌, ℕ, ◌+◌, ◌-◌, ◌*◌, ◌%◌, ◌^◌, ◌<◌, ◌≤◌, not, pos, negsuc, ◌*ℤ◌};
ghost use Rattle.std.specs.Int.{w64};
ghost use Rattle.std.specs.List.{list_any};
ghost use Rattle.rv_decode.specs.Fields.{opcode_of};
ghost use Rattle.rv_decode.specs.NamedRows.{value_of};
ghost use Rattle.rv_decode.specs.Opcodes as opcode;
ghost use Rattle.rv_decode.specs.declared.name.Name.{Name};
ghost use Rattle.rv_alu.specs.Arithmetic.{result_of, signed_64};
ghost use Rattle.rv_alu.specs.Computing.{is_arithmetic, is_branch};
ghost use Rattle.rv_alu.specs.Branch.{is_taken};
ghost use Rattle.rv_alu.specs.Laws.{AreHalves, IsDivision, IsOverflow, signed_word};
ghost use Rattle.rv_alu.specs.Operations.{low_word};

use rv_decode::Name;

/// `alu` computes exactly the instructions whose row has the opcode OP-IMM, OP-IMM-32, OP or OP-32,
/// and `taken` decides exactly those of BRANCH.
pub fn opcodes()
    ensures arithmetic { (name : Name) → is_arithmetic name
        ≡ list_any (λ code. opcode_of (value_of name) == code)
        (opcode.op_imm ∷ opcode.op_imm_32 ∷ opcode.op ∷ opcode.op_32 ∷ []) }
    ensures branches { (name : Name)
        → is_branch name ≡ (opcode_of (value_of name) == opcode.branch) }
{}

/// DIV and REM divide, except by zero and where the quotient overflows.
pub fn signed_division()
    ensures { (a b : ℕ) → a < 2 ^ 64 → b < 2 ^ 64 → b ≢ 0 → ¬ IsOverflow w64 a b
        → (let quotient = signed_64 (result_of Name.Div a b) in
        let remainder = signed_64 (result_of Name.Rem a b) in
        IsDivision (signed_64 a) (signed_64 b) quotient remainder) }
{}

/// Where the quotient overflows, it is the dividend, and the remainder is 0.
pub fn signed_overflow()
    ensures quotient { (a b : ℕ) → IsOverflow w64 a b → result_of Name.Div a b ≡ a }
    ensures remainder { (a b : ℕ) → IsOverflow w64 a b → result_of Name.Rem a b ≡ 0 }
{}

/// DIVU and REMU divide, except by zero.
pub fn unsigned_division()
    ensures whole { (a b : ℕ) → b ≢ 0
        → result_of Name.Divu a b * b + result_of Name.Remu a b ≡ a }
    ensures size { (a b : ℕ) → b ≢ 0 → result_of Name.Remu a b < b }
{}

/// By zero the quotient has all bits set, and the remainder is the dividend.
pub fn division_by_zero()
    ensures signed_quotient { (a : ℕ) → signed_64 (result_of Name.Div a 0) ≡ negsuc 0 }
    ensures signed_remainder { (a : ℕ) → result_of Name.Rem a 0 ≡ a }
    ensures quotient { (a : ℕ) → result_of Name.Divu a 0 ≡ 2 ^ 64 - 1 }
    ensures remainder { (a : ℕ) → result_of Name.Remu a 0 ≡ a }
{}

/// The two halves of a product are the whole product.
pub fn product_halves()
    ensures signed { (a b : ℕ) → a < 2 ^ 64 → b < 2 ^ 64
        → AreHalves (signed_64 (result_of Name.Mulh a b)) (result_of Name.Mul a b)
        (signed_64 a *ℤ signed_64 b) }
    ensures mixed { (a b : ℕ) → a < 2 ^ 64 → b < 2 ^ 64
        → AreHalves (signed_64 (result_of Name.Mulhsu a b)) (result_of Name.Mul a b)
        (signed_64 a *ℤ pos b) }
    ensures unsigned { (a b : ℕ) → a < 2 ^ 64 → b < 2 ^ 64
        → AreHalves (pos (result_of Name.Mulhu a b)) (result_of Name.Mul a b) (pos (a * b)) }
{}

/// The word forms of sums and products are the low words of the doubleword forms, sign-extended.
pub fn words_of_sums()
    ensures sum { (a b : ℕ) → result_of Name.Addw a b ≡ signed_word (result_of Name.Add a b) }
    ensures difference { (a b : ℕ) → a < 2 ^ 64 → b < 2 ^ 64
        → result_of Name.Subw a b ≡ signed_word (result_of Name.Sub a b) }
    ensures product { (a b : ℕ) → result_of Name.Mulw a b ≡ signed_word (result_of Name.Mul a b) }
{}

/// The word forms of shifts, by five bits of the amount, are SLL in its low word, SRL of the low
/// word, and SRA of the sign-extended low word.
pub fn words_of_shifts()
    ensures left { (a b : ℕ)
        → result_of Name.Sllw a b ≡ signed_word (result_of Name.Sll a (b % 32)) }
    ensures right { (a b : ℕ)
        → result_of Name.Srlw a b ≡ signed_word (result_of Name.Srl (low_word a) (b % 32)) }
    ensures right_signed { (a b : ℕ)
        → result_of Name.Sraw a b ≡ result_of Name.Sra (signed_word a) (b % 32) }
{}

/// The bits that come in are copies of the sign: a number that is not negative is shifted as by
/// SRL, and the complement of a negative one is.
pub fn signed_shifts()
    ensures zeros { (a b : ℕ) → a < 2 ^ 63
        → result_of Name.Sra a b ≡ result_of Name.Srl a b }
    ensures ones { (a b : ℕ) → 2 ^ 63 ≤ a → a < 2 ^ 64
        → result_of Name.Sra a b + result_of Name.Srl (2 ^ 64 - 1 - a) b ≡ 2 ^ 64 - 1 }
{}

/// The word forms of divisions are the low words of the doubleword forms of the low words,
/// sign-extended: these low words are sign-extended for DIVW and REMW, and zero-extended for DIVUW
/// and REMUW.
pub fn words_of_divisions()
    ensures signed_quotient { (a b : ℕ)
        → result_of Name.Divw a b ≡ signed_word (result_of Name.Div (signed_word a) (signed_word b)) }
    ensures signed_remainder { (a b : ℕ)
        → result_of Name.Remw a b ≡ signed_word (result_of Name.Rem (signed_word a) (signed_word b)) }
    ensures quotient { (a b : ℕ)
        → result_of Name.Divuw a b ≡ signed_word (result_of Name.Divu (low_word a) (low_word b)) }
    ensures remainder { (a b : ℕ)
        → result_of Name.Remuw a b ≡ signed_word (result_of Name.Remu (low_word a) (low_word b)) }
{}

/// Each branch has an opposite one.
pub fn opposite_branches()
    ensures equal { (a b : ℕ) → is_taken Name.Bne a b ≡ not (is_taken Name.Beq a b) }
    ensures signed { (a b : ℕ) → is_taken Name.Bge a b ≡ not (is_taken Name.Blt a b) }
    ensures unsigned { (a b : ℕ) → is_taken Name.Bgeu a b ≡ not (is_taken Name.Bltu a b) }
{}
