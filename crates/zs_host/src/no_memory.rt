//! Out of memory, as an answer of files and of sinks.
ghost use Rattle.std.specs.Prelude.{◌≡◌};
ghost use Rattle.zs_host.specs.declared.files.FileFail.TheVariants as file;
ghost use Rattle.zs_host.specs.declared.sink.SinkFail.TheVariants as sink;

use crate::{FileFail, SinkFail};
use std::alloc::AllocError;
use zs_num::NoMemory;

impl From<NoMemory> for FileFail {
    ghost from_gives = { λ _ e. e ≡ file.NoMemory };

    fn from(_: NoMemory) -> Self {
        FileFail::NoMemory
    }
}

impl From<AllocError> for SinkFail {
    ghost from_gives = { λ _ e. e ≡ sink.NoMemory };

    fn from(_: AllocError) -> Self {
        SinkFail::NoMemory
    }
}
