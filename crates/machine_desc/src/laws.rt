//! Theorems about the definitions alone.
ghost use Rattle.std.specs.Prelude.{◌≡◌, Ok};
ghost use Rattle.machine_desc.specs.Description.{machine_of};
ghost use Rattle.machine_desc.specs.Plain.{plain_machine, plain_text};

use crate::PLAIN;

/// The built-in description is this text, byte for byte.
pub fn plain_is_its_text()
    ensures { PLAIN.now ≡ plain_text }
{
    let _text = PLAIN;
}

/// The built-in description reads as its machine.
pub fn plain_reads()
    ensures { machine_of PLAIN.now ≡ Ok plain_machine }
{
    let _text = PLAIN;
}
