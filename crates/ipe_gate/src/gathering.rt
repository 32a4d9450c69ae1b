// How all come to have seen what any has.
ghost use Rattle.std.specs.Prelude.{◌≡◌, length};
ghost use Rattle.ipe_gate.specs.Gathering.{AreAtRest, HaveCaughtUp, IsGathering, IsRound, Knows};

use crate::{GateAdmin, Pass};

impl GateAdmin {
    /// Meets each pass in turn, and then each once more. Afterwards the administrator and every pass have seen all that
    /// any of them had seen before.
    pub fn gather(&mut self, passes: &mut [Pass])
        requires { AreAtRest self.old passes.old }
        ensures { IsGathering self.old self.new passes.old passes.new }
    {
        self.meet_each(passes);
        self.meet_each(passes);
    }

    // Meets each pass in turn.
    fn meet_each(&mut self, passes: &mut [Pass])
        requires { AreAtRest self.old passes.old }
        ensures admin { IsRound self.old self.new }
        ensures length { length passes.new ≡ length passes.old }
        ensures passes { HaveCaughtUp self.old passes.old passes.new }
        ensures known { Knows self.new passes.new }
    {
        for pass in passes.iter_mut() {
            self.meet(pass);
        }
    }
}
