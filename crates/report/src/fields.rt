//! Numbers behind their labels.
ghost use Rattle.std.specs.Prelude.{◌≡◌, ◌<◌, ◌++◌, OnOk, map, string_bytes};
ghost use Rattle.report.specs.ReportText.{hex_digit, hexadecimal, labelled};

use std::alloc::AllocError;

/// Writes numbers, each behind its label.
pub fn write_labelled(text: &mut String, fields: &[(&str, u128)]) -> Result<(), AllocError>
    ensures { OnOk result (string_bytes text.new ≡ string_bytes text.old
        ++ labelled (map (λ field. (field.0.now, field.1)) fields.now)) }
{
    for (label, number) in fields {
        write!(text, "{label}{number}")?;
    }
    Ok(())
}

/// Writes a label, and a number in so many hexadecimal digits.
pub fn write_hexadecimal(
    text: &mut String,
    label: &str,
    digits: u8,
    number: u64,
) -> Result<(), AllocError>
    ensures { OnOk result (string_bytes text.new ≡ string_bytes text.old
        ++ (label.now ++ hexadecimal digits number)) }
{
    text.push_str(label)?;
    write_digits(text, digits, number)
}

fn write_digits(text: &mut String, digits: u8, number: u64) -> Result<(), AllocError>
    ensures { OnOk result (string_bytes text.new ≡ string_bytes text.old
        ++ hexadecimal digits number) }
{
    if digits == 0 {
        return Ok(());
    }
    write_digits(text, digits - 1, number / 16)?;
    text.push(hex_digit((number % 16) as u8))
}

/// A hexadecimal digit, in lower case.
fn hex_digit(number: u8) -> char
    requires { number < 16 }
    ensures value { result ≡ hex_digit number }
    ensures ascii { result < 128 }
{
    if number < 10 {
        (b'0' + number) as char
    } else {
        (b'a' + (number - 10)) as char
    }
}
