//! `ipegate` replays a request file against the gate, and prints what the gate answers. It runs a made-up roll-out from a
//! seed, lints a policy, and tells the root of a data image and the digest of a file.
//!
//! [`run`] is the whole program. `main` hands it the arguments, the standard streams and the files of the system.
#![tactic(auto)]

use blk_device::FileDevices;
use ipe_program::{NoPace, arguments, run};
use ipe_words::{StdSink, StdSource};
use std::io;
use std::process::ExitCode;

fn main(rt: HostRuntime) -> ExitCode {
    let status = match arguments(&rt) {
        Ok(words) => {
            let mut source = StdSource::new(rt.reader());
            let mut sink = StdSink::new(io::writer(&rt));
            let mut devices = FileDevices::new(&rt);
            run(
                &rt,
                rt.alloc(),
                &words,
                &mut source,
                &mut sink,
                &mut devices,
                &NoPace,
                &mut None,
            )
        }
        Err(status) => status,
    };
    ExitCode::from(status.number())
}

#[cfg(test)]
mod access_tests;
#[cfg(test)]
mod command_tests;
#[cfg(test)]
mod damage_tests;
#[cfg(test)]
mod device_tests;
#[cfg(test)]
mod limit_tests;
#[cfg(test)]
mod lint_tests;
#[cfg(test)]
mod mark_tests;
#[cfg(test)]
mod measure_tests;
#[cfg(test)]
mod replay_tests;
#[cfg(test)]
mod root_tests;
#[cfg(test)]
mod sim_tests;
#[cfg(test)]
mod tests;
#[cfg(test)]
mod thread_tests;
