//! A file of a folder.
ghost use Rattle.std.specs.Prelude.{◌≡◌, IfOk, string_bytes};
ghost use Rattle.zsim.specs.Steps.{file_value};
ghost use Rattle.zsim.specs.Outputs.{named_file};
ghost use Rattle.zprof.specs.ProfileFiles.{in_folder};

use std::alloc::{AllocError, Global};
use std::marker::Model;
use zs_num::{Bytes, NoMemory};
use zsim::steps::OutputFile;

/// A file that is to be written, with its name.
#[derive(Drop)]
pub struct NamedFile {
    name: String,
    bytes: Bytes,
}

impl Model for NamedFile {
    ghost use Rattle.std.specs.Prelude.{string_bytes};
    ghost use Rattle.zsim.specs.Outputs.{NamedFile, named_file};

    ghost Value = { NamedFile };

    ghost view = { λ f. named_file (string_bytes f.name) f.bytes };
}

impl NamedFile {
    /// These bytes as a file of a folder.
    pub fn of(alloc: Global, folder: &str, name: &str, bytes: Bytes) -> Result<NamedFile, NoMemory>
        ensures { IfOk result (λ file. file ≡ named_file (in_folder folder.now name.now) bytes) }
    {
        let name = in_folder(alloc, folder, name)?;
        Ok(NamedFile { name, bytes })
    }

    /// The same by references.
    pub fn output(&self) -> OutputFile<'_>
        ensures { file_value result ≡ self.now }
    {
        OutputFile {
            name: self.name.as_str(),
            bytes: self.bytes.as_slice(),
        }
    }
}

/// The name of a file in a folder.
fn in_folder(alloc: Global, folder: &str, name: &str) -> Result<String, AllocError>
    ensures { IfOk result (λ path. string_bytes path ≡ in_folder folder.now name.now) }
{
    let mut path = String::from_str(alloc, folder)?;
    path.push_str("/")?;
    path.push_str(name)?;
    Ok(path)
}
