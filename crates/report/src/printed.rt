//! The bytes of a console as they are printed.
ghost use Rattle.std.specs.Prelude.{◌≡◌, ◌++◌, OnOk, string_bytes};
ghost use Rattle.report.specs.ReportText.{printed, printed_byte};

use crate::fields::write_hexadecimal;
use std::alloc::AllocError;

/// Writes bytes as they are printed.
pub fn write_printed(text: &mut String, bytes: &[u8]) -> Result<(), AllocError>
    ensures { OnOk result (string_bytes text.new ≡ string_bytes text.old ++ printed bytes.now) }
{
    for byte in bytes {
        write_byte(text, *byte)?;
    }
    Ok(())
}

#[tactic(auto, unfolding(crate::specs::ReportText::printed_byte))]
fn write_byte(text: &mut String, byte: u8) -> Result<(), AllocError>
    ensures { OnOk result (string_bytes text.new ≡ string_bytes text.old ++ printed_byte byte) }
{
    if (0x20..=0x7E).contains(&byte) && byte != b'"' && byte != b'\\' {
        text.push(byte as char)
    } else {
        write_hexadecimal(text, "\\x", 2, u64::from(byte))
    }
}
