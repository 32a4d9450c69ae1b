//! `hash_device` writes the hash blocks of a data image for dm-verity, as they are stored on its hash device: the bytes
//! that `veritysetup format --no-superblock` writes there. Its arguments are the size of a block, the salt and the image.
//!
//! [`run`] is the whole program. `main` hands it the arguments, the standard streams and the files of the
//! system.
#![tactic(auto)]

mod run;

use blk_device::FileDevices;
use ipe_program::arguments;
use ipe_words::{StdSink, StdSource};
pub use run::run;
use std::io;
use std::process::ExitCode;

fn main(rt: HostRuntime) -> ExitCode {
    let status = match arguments(&rt) {
        Ok(words) => {
            let mut source = StdSource::new(rt.reader());
            let mut sink = StdSink::new(io::writer(&rt));
            let mut devices = FileDevices::new(&rt);
            run(rt.alloc(), &words, &mut source, &mut sink, &mut devices)
        }
        Err(status) => status,
    };
    ExitCode::from(status.number())
}

#[cfg(test)]
mod tests;
