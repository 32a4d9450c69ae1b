// Workers of a new gate, and the passes that they give back.
ghost use Rattle.std.specs.Prelude.{◌≡◌, IfOk, map};
ghost use Rattle.ipe_workers.specs.Making.{AreMade};
ghost use Rattle.ipe_workers.specs.Workers.{pass_of};

use crate::Worker;
use ipe_gate::Pass;
use ipe_objects::{Objects, View};
use std::alloc::{AllocError, Global};

/// A worker for each pass, in their order, which reads files through a view of its own.
pub fn make_workers(
    alloc: Global,
    objects: &Objects,
    passes: Vec<Pass>,
) -> Result<Vec<Worker>, AllocError>
    ensures { IfOk result (λ workers. AreMade objects.now passes.items workers.items) }
{
    let mut workers = Vec::new(alloc);
    for pass in passes {
        let view = View::new(alloc, objects)?;
        workers.push(Worker::new(alloc, pass, view))?;
    }
    Ok(workers)
}

/// The passes of workers, in their order, without the rest.
pub fn into_passes(alloc: Global, workers: Vec<Worker>) -> Result<Vec<Pass>, AllocError>
    ensures { IfOk result (λ passes. passes.items ≡ map pass_of workers.items) }
{
    workers
        .into_iter()
        .map(|worker| worker.into_pass())
        .collect(alloc)
}
