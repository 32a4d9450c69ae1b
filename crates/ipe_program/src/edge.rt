use ipe_words::Status;
use std::env;
use std::io::{self, ErrorKind};

/// The arguments of the process after the program's own name. One that isn't UTF-8 is wrong usage.
pub fn arguments(rt: &HostRuntime) -> Result<Vec<String>, Status> {
    match read_arguments(rt) {
        Ok(words) => Ok(words),
        Err(error) if error.kind() == ErrorKind::OutOfMemory => Err(Status::NoMemory),
        Err(_) => Err(Status::Usage),
    }
}

fn read_arguments(rt: &HostRuntime) -> io::Result<Vec<String>> {
    Ok(env::args(rt)?.skip(1).collect(rt.alloc())?)
}
