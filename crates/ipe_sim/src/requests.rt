ghost use Rattle.std.specs.Prelude.{◌≡◌, IfOk, ◌+◌, ◌*◌};
ghost use Rattle.ipe_sim.specs.Draws.{state_after};
ghost use Rattle.ipe_sim.specs.Roll.{each, phase, roll, file};

use crate::asked::next_phase;
use crate::declared::{files, marks, texts};
use crate::generator::Generator;
use ipe_requests::{FileLine, Phases, Requests, SealLines, VolumeLines};
use line_words::Items;
use std::alloc::{AllocError, Global};

const PHASES: u32 = 10;

const FIRST_PHASE: u32 = 107;

const LINES_OF_A_PHASE: u32 = 8031;

fn phases(alloc: Global, files: &[FileLine], seed: u64) -> Result<Phases, AllocError>
    requires { files.now ≡ each 8 file }
    ensures { IfOk result (λ phases. phases ≡ each 10 (phase seed)) }
{
    let mut generator = Generator { state: seed };
    let mut phases = Vec::new(alloc);
    for number in 0..PHASES {
        let begins = FIRST_PHASE + LINES_OF_A_PHASE * number;
        phases.push(next_phase(alloc, files, &mut generator, begins)?)?;
    }
    Ok(Items::from_vec(phases))
}

/// The requests of the made-up roll-out of a seed: of 8 workers, with 300 commands and 80,000 hooks in 10 phases.
pub fn make_requests(alloc: Global, seed: u64) -> Result<Requests, AllocError>
    ensures { IfOk result (λ requests. requests ≡ roll seed) }
{
    let files = files(alloc)?;
    let phases = phases(alloc, files.as_slice(), seed)?;
    Ok(Requests {
        workers: 8,
        texts: texts(alloc)?,
        volumes: VolumeLines::from_vec(Vec::new(alloc)),
        files,
        seals: SealLines::from_vec(Vec::new(alloc)),
        marks: marks(alloc)?,
        phases,
    })
}
