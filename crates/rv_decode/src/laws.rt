//! Laws of the instruction table.
ghost use Rattle.std.specs.Prelude.{◌≡◌, ◌≢◌, ◌≤◌, ◌<◌, ◌↔◌, ℕ, ◌+◌, ◌*◌, ◌^◌, bit_and, Contains, AllPairs, IsTrue};
ghost use Rattle.rv_decode.specs.InstructionTable.{Row, table, matches, by_row, decoded, instruction};
ghost use Rattle.rv_decode.specs.InstructionWord.{bits_of, ones};
ghost use Rattle.rv_decode.specs.Matching.{OneRowMatches, NoRowMatches, IsByRow};
ghost use Rattle.rv_decode.specs.NamedRows.{format_of, value_of};
ghost use Rattle.rv_decode.specs.Ranges.{FitsItsFormat};
ghost use Rattle.rv_decode.specs.declared.name.Name.{Name};
ghost use Rattle.rv_decode.specs.declared.format.Format.{Format};
ghost use Rattle.rv_decode.specs.declared.inst.Inst.{Inst};

/// At most one row matches any word.
pub fn one_row()
    ensures { (word : ℕ) → OneRowMatches word }
{}

/// A word is the instruction by each row that matches it, an instruction only by such a row, and
/// none where no row matches.
pub fn words_are_by_rows()
    ensures matching { (word : ℕ) (row : Row) → Contains table row → IsTrue (matches row word)
        → decoded word ≡ Some (by_row row word) }
    ensures matched { (word : ℕ) (i : Inst) → decoded word ≡ Some i → IsByRow word i }
    ensures none { (word : ℕ) → (decoded word ≡ None) ↔ NoRowMatches word }
{}

/// The fields of every instruction that a word decodes to are in their ranges: registers below 32,
/// and registers and immediate in the ranges of its format.
pub fn fields_are_in_range()
    ensures registers { (word : ℕ) (i : Inst) → decoded word ≡ Some i
        → (i.rd < 32) × (i.rs1 < 32) × (i.rs2 < 32) }
    ensures formats { (word : ℕ) (i : Inst) → decoded word ≡ Some i → FitsItsFormat i }
{}

/// Each name is the name of one row, whose value and format are the name's, and the instruction by
/// a row has the row's name.
pub fn each_name_has_one_row()
    ensures once { AllPairs (λ row other. row.name ≢ other.name) table }
    ensures listed { (row : Row) → Contains table row
        → (value_of row.name ≡ row.value) × (format_of row.name ≡ row.format) }
    ensures each { (name : Name) → (row : Row) × Contains table row × (row.name ≡ name)
        × (row.value ≡ value_of name) × (row.format ≡ format_of name) }
    ensures kept { (format : Format) (name : Name) (word : ℕ)
        → (instruction format name word).name ≡ name }
{}

/// A word under the mask of some of its bits is these bits at their places, and under the sum of
/// two masks that have no bit in common it is the sum of what it is under each.
pub fn masks_add_up()
    ensures bits { (high low word : ℕ) → low ≤ high
        → bit_and word (ones high low) ≡ bits_of high low word * 2 ^ low }
    ensures sums { (mask other word : ℕ) → bit_and mask other ≡ 0
        → bit_and word (mask + other) ≡ bit_and word mask + bit_and word other }
{}
