ghost use Rattle.ipe_machine.specs.Epochs.{CommandsStayOrBegin};
ghost use Rattle.ipe_machine.specs.Law.{ActiveVersionNeverFalls, RunsGoOn};

/// The law that the version of the active policy never falls. The call does nothing: its contract is the law.
pub fn active_version_never_falls()
    ensures { ActiveVersionNeverFalls }
{}

/// The law that a command leaves the epoch and all that a claim is answered by, or begins the next epoch, and that a name
/// that is active stays loaded. The call does nothing: its contract is the law.
pub fn commands_stay_or_begin()
    ensures { CommandsStayOrBegin }
{}

/// The law that a run of events and then of more is a run of all of them. The call does nothing: its contract is the law.
pub fn runs_go_on()
    ensures { RunsGoOn }
{}
