use ipe_gate::Pass;
use ipe_objects::View;
use ipe_transcript::Entry;
use std::alloc::Global;

/// What one worker needs, its entries of the present phase, and whether it ran all its lines of that.
#[derive(Drop)]
pub struct Worker {
    pub(crate) pass: Pass,
    pub(crate) view: View,
    pub(crate) entries: Vec<Entry>,
    pub(crate) done: bool,
}

impl Worker {
    ghost use Rattle.std.specs.Prelude.{◌≡◌, []};
    ghost use Rattle.ipe_workers.specs.Workers.{entries_in, is_done, pass_of, view_of};

    /// The worker that has this pass and reads files through this view. It has no entries yet.
    pub fn new(alloc: Global, pass: Pass, view: View) -> Worker
        ensures pass { pass_of result ≡ pass }
        ensures view { view_of result ≡ view }
        ensures entries { entries_in result ≡ [] }
    {
        Worker {
            pass,
            view,
            entries: Vec::new(alloc),
            done: true,
        }
    }

    /// The worker's pass.
    pub fn pass(&self) -> &Pass
        ensures { result.now ≡ pass_of self.now }
    {
        &self.pass
    }

    /// Whether it ran all its lines of the latest phase. It may be out of memory before.
    pub fn is_done(&self) -> bool
        ensures { result ≡ is_done self.now }
    {
        self.done
    }

    /// The worker's pass, without the rest.
    pub fn into_pass(self) -> Pass
        ensures { result ≡ pass_of self }
    {
        let Worker {
            pass,
            view: _,
            entries: _,
            done: _,
        } = self;
        pass
    }
}
