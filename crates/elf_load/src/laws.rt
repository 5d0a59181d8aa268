//! Laws of the definitions by which executables are read. Each is the contract of a function that
//! does nothing.
ghost use Rattle.std.specs.Prelude.{◌≡◌, ◌↔◌, ◌+◌, ◌^◌, ◌≤◌, ℕ, true, List, Ok, Some};
ghost use Rattle.elf_load.specs.Checks.{overlap_refusal, overlaps};
ghost use Rattle.elf_load.specs.Image.{image_of};
ghost use Rattle.elf_load.specs.Meaning.{LiesIn, IsLeastPair};
ghost use Rattle.elf_load.specs.MemoryImage.{ranges_overlap, MemoryImage};
ghost use Rattle.elf_load.specs.SoundImage.{IsSoundImage};
ghost use Rattle.elf_load.specs.declared.bad_elf.BadElf.TheVariants as bad;
ghost use Rattle.elf_load.specs.declared.header.ProgramHeader.{ProgramHeader};

/// Two ranges overlap exactly where they have a number in common.
pub fn overlapping_ranges()
    ensures { (first count second others : ℕ) → (ranges_overlap first count second others ≡ true)
        ↔ ((x : ℕ) × LiesIn first count x × LiesIn second others x) }
{}

/// The segments that a refusal names are the least pair that have an address in common.
pub fn least_overlap()
    ensures { (headers : List ProgramHeader) (d : ProgramHeader) (first second : ℕ)
        → overlap_refusal headers ≡ Some (bad.Overlap first second)
        → IsLeastPair overlaps headers d first second }
{}

/// The image of a file is sound, and has the memory for which it was read.
pub fn images()
    ensures sound { (file : List ℕ) (base size : ℕ) (image : MemoryImage) → base + size ≤ 2 ^ 48
        → image_of file base size ≡ Ok image → IsSoundImage image }
    ensures memory { (file : List ℕ) (base size : ℕ) (image : MemoryImage)
        → image_of file base size ≡ Ok image → (image.base ≡ base) × (image.size ≡ size) }
{}
