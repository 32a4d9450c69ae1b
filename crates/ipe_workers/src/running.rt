// The lines of one worker.
ghost use Rattle.std.specs.Prelude.{◌∷◌, [], is_ok};
ghost use Rattle.ipe_requests.specs.Rules.{IsHookOf};
ghost use Rattle.ipe_workers.specs.Prepared.{ArePrepared, AreAsked};
ghost use Rattle.ipe_workers.specs.Workers.{HasRun, IsReady};

use crate::answering::{ask, content_after, hook_told, record_of};
use crate::{Pace, Work, Worker};
use ipe_requests::PhaseLine;
use ipe_weave::hooks_are_ruled_at_their_claims;
use std::alloc::AllocError;
use std::sync::Wait;

impl Worker {
    // A line, which is a hook of this worker or asks nothing of it.
    fn run_line<R: Wait, P: Pace>(
        &mut self,
        rt: &R,
        pace: &P,
        work: &Work,
        number: u32,
        line: &PhaseLine,
    ) -> Result<(), AllocError>
        requires prepared { ArePrepared work.now.objects.now work.now.images.now }
        requires declared { IsHookOf work.now.objects.now.script line.now }
        requires ready { IsReady work.now.objects.now work.now.images.now number (line.now ∷ []) self.old }
        ensures { HasRun work.now.objects.now work.now.images.now work.now.phase (is_ok result) (line.now ∷ [])
            self.old self.new }
    {
        hooks_are_ruled_at_their_claims();
        let PhaseLine::Hook {
            line: place,
            worker,
            request,
            subject,
            path,
        } = line
        else {
            return Ok(());
        };
        if *worker != number {
            return Ok(());
        }
        pace.before(rt, number, *place, Some(&self.pass));
        let ruling = ask(work, &mut self.pass, request, path);
        pace.after(rt, number, *place, Some(&self.pass));
        let access = record_of(work, *request, subject, path, &ruling)?;
        let content = content_after(work, &mut self.view, *request, path, &ruling)?;
        let entry = hook_told(work.phase, *place, number, &ruling, access, content);
        self.entries.push(entry)?;
        Ok(())
    }

    /// Runs those of a phase's lines that are this worker's own, and makes an entry for each. The worker of the pass 0 has
    /// the number 1. After out of memory it has run the first of its lines.
    pub fn run<R: Wait, P: Pace>(
        &mut self,
        rt: &R,
        pace: &P,
        work: &Work,
        number: u32,
        lines: &[PhaseLine],
    ) -> Result<(), AllocError>
        requires asked { AreAsked work.now.objects.now work.now.images.now lines.now }
        requires ready { IsReady work.now.objects.now work.now.images.now number lines.now self.old }
        ensures { HasRun work.now.objects.now work.now.images.now work.now.phase (is_ok result) lines.now self.old self.new }
    {
        for line in lines {
            self.run_line(rt, pace, work, number, line)?;
        }
        Ok(())
    }
}
