ghost use Rattle.std.specs.Prelude.{IfOk};
ghost use Rattle.ipe_roll_out.specs.RollOut.{IsRollOut};

use ipe_objects::Images;
use ipe_replay::{Closed, Pace, summarize, summary_line};
use ipe_sim::make_requests;
use std::alloc::{AllocError, Global};
use std::sync::Wait;
use std::thread::Threads;

/// Runs the roll-out of a seed: 8 workers with 80,000 hooks, beside 300 commands that load, replace, activate and delete 16
/// policies, in 10 phases. Gives the line that tells what it came to, with its line feed, and the gate that it ran on,
/// closed. All files are of the initial root file system, so no device is needed.
pub fn roll_out<R: Threads + Wait + Sync, P: Pace>(
    rt: &R,
    alloc: Global,
    seed: u64,
    pace: &P,
) -> Result<(Vec<u8>, Closed), AllocError>
    ensures { IfOk result (λ made. IsRollOut seed made.1 made.0.items) }
{
    let requests = make_requests(alloc, seed)?;
    let images = Images::from_vec(Vec::new(alloc));
    let (summary, closed) = summarize(rt, alloc, &requests, &images, pace)?;
    let line = summary_line(alloc, &summary)?;
    Ok((line, closed))
}
