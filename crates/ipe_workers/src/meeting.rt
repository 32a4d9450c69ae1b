// A round of meetings.
ghost use Rattle.ipe_workers.specs.Rounds.{AdminHeard, AllHeard, AreAtRest};

use crate::Worker;
use ipe_admin::Admin;

// The administrator meets the pass of each worker.
pub(crate) fn meet_all(admin: &mut Admin, workers: &mut [Worker])
    requires { AreAtRest admin.old workers.old }
    ensures admin { AdminHeard admin.old admin.new }
    ensures workers { AllHeard admin.old admin.new workers.old workers.new }
{
    for worker in workers.iter_mut() {
        admin.meet(&mut worker.pass);
    }
}
