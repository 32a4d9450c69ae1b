ghost use Rattle.std.specs.Prelude.{◌≡◌, ◌≢◌, IfOk, IfSome, None, OnErr, map, string_bytes};
ghost use Rattle.ipe_program.specs.Asked.{HasRule, asked_by};

use ipe_tasks::{Task, TreePart, measure_by, tree_by};
use line_words::decimal;
use std::alloc::{AllocError, Global};

/// What can be asked for.
#[derive(Debug, Drop)]
pub enum Asked {
    /// The transcript of the request file that is read. Its lines run on threads.
    Replay,
    /// What the roll-out of a seed comes to. It runs on threads.
    Sim(u64),
    /// What the calling thread does alone.
    Alone(Task),
}

/// What the arguments ask for, if they ask for anything.
pub(crate) fn asked_by(alloc: Global, words: &Vec<String>) -> Result<Option<Asked>, AllocError>
    ensures asked { IfOk result (λ asked. asked ≡ asked_by (map string_bytes words.now.items)) }
    ensures rule { IfOk result (λ asked. IfSome asked HasRule) }
    ensures no_memory { OnErr result (asked_by (map string_bytes words.now.items) ≢ None) }
{
    match words.as_slice() {
        [word] if word.as_str() == "replay" => Ok(Some(Asked::Replay)),
        [word] if word.as_str() == "lint" => Ok(Some(Asked::Alone(Task::Lint))),
        [word, seed] if word.as_str() == "sim" => {
            Ok(decimal(seed.as_bytes(), u64::MAX).map(Asked::Sim))
        }
        [word, size, salt] if word.as_str() == "measure" => {
            Ok(measure_by(alloc, size, salt)?.map(Asked::Alone))
        }
        [word, size, salt, device] if word.as_str() == "root" => {
            Ok(tree_by(alloc, TreePart::Root, size, salt, device)?.map(Asked::Alone))
        }
        _ => Ok(None),
    }
}
