ghost use Rattle.std.specs.Prelude.{◌≡◌, ◌≢◌, IfOk, IfSome, None, OnErr, map, string_bytes};
ghost use Rattle.std.specs.Option.{option_map};
ghost use Rattle.hash_device.specs.Asked.{asked_by};
ghost use Rattle.ipe_tasks.specs.Asked.{HasTaskRule};
ghost use Rattle.ipe_program.specs.Shell.{Runs, handed, no_gate};
ghost use Rattle.ipe_program.specs.declared.asked.Asked.TheVariants.{Alone};

use blk_device::Devices;
use ipe_program::{Task, TreePart, serve_alone, tree_by};
use ipe_words::{Sink, Source, Status};
use std::alloc::{AllocError, Global};

/// The program: writes the hash blocks of a device's image as they are stored, the highest level first, or one line that
/// says why the device is refused. The source isn't read.
pub fn run<S: Source, K: Sink, D: Devices>(
    alloc: Global,
    words: &Vec<String>,
    source: &mut S,
    sink: &mut K,
    devices: &mut D,
) -> Status
    ensures { Runs (option_map Alone (asked_by (map string_bytes words.now.items))) result
        (handed S.remaining S.faults source.old source.new) (handed K.written K.faults sink.old sink.new)
        (handed D.contents D.faults devices.old devices.new) no_gate }
{
    match asked_by(alloc, words) {
        Ok(Some(task)) => serve_alone(alloc, &task, source, sink, devices),
        Ok(None) => Status::Usage,
        Err(AllocError) => Status::NoMemory,
    }
}

// What the arguments ask for, if they ask for anything.
fn asked_by(alloc: Global, words: &Vec<String>) -> Result<Option<Task>, AllocError>
    ensures task { IfOk result (λ task. task ≡ asked_by (map string_bytes words.now.items)) }
    ensures rule { IfOk result (λ task. IfSome task HasTaskRule) }
    ensures no_memory { OnErr result (asked_by (map string_bytes words.now.items) ≢ None) }
{
    match words.as_slice() {
        [size, salt, device] => tree_by(alloc, TreePart::HashBlocks, size, salt, device),
        _ => Ok(None),
    }
}
