//! Fields of a file: numbers of one to eight bytes, little-endian.
ghost use Rattle.std.specs.Prelude.{◌≡◌, ◌++◌, IsTrue, OnOk};
ghost use Rattle.std.specs.List.{list_all};
ghost use Rattle.byteorder.specs.Endian.{little_bytes};
ghost use Rattle.elf_write.specs.File.{fields_bytes};
ghost use Rattle.elf_write.specs.Writable.{is_writable};

use byteorder::{ByteOrder, LittleEndian};
use zs_num::NoMemory;

/// A number, and in how many bytes it is written.
#[derive(Clone, Copy)]
pub struct Field {
    /// 1 to 8.
    pub width: usize,
    /// Below 256 to the power of the width.
    pub value: u64,
}

impl Field {
    pub fn new(width: usize, value: u64) -> Self
        ensures { result ≡ record { width = width; value = value } }
    {
        Field { width, value }
    }
}

/// Appends fields, one after the other.
pub fn write_fields(out: &mut Vec<u8>, fields: &[Field]) -> Result<(), NoMemory>
    requires { IsTrue (list_all is_writable fields.now) }
    ensures { OnOk result (out.new.items ≡ out.old.items ++ fields_bytes fields.now) }
{
    for field in fields {
        write_field(out, field)?;
    }
    Ok(())
}

fn write_field(out: &mut Vec<u8>, field: &Field) -> Result<(), NoMemory>
    requires { IsTrue (is_writable field.now) }
    ensures { OnOk result (out.new.items ≡ out.old.items
        ++ little_bytes field.now.width field.now.value) }
{
    let mut bytes = [0; 8];
    LittleEndian::write_uint(&mut bytes, field.value, field.width);
    out.extend_from_slice(&bytes[..field.width])?;
    Ok(())
}
