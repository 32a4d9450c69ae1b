ghost use Rattle.std.specs.Prelude.{◌≡◌, IfOk, IsErrOf, None, Some, false};
ghost use Rattle.ipe_program.specs.Answers.{answer_of};
ghost use Rattle.ipe_tasks.specs.Asked.{HasTaskRule};
ghost use Rattle.ipe_program.specs.Table.{Fits, HasText, IsAnswer, row};
ghost use Rattle.ipe_program.specs.declared.asked.Asked.{Asked};
ghost use Rattle.ipe_words.specs.Count.{Rose};

use crate::Closed;
use blk_device::Devices;
use ipe_tasks::{Task, Told, TreeError, linted, measured, tree_told};
use ipe_words::Status;
use std::alloc::{AllocError, Global};

/// The whole text of an answer, the status that comes with it, and the gate of what ran and is done.
#[derive(Drop)]
pub(crate) struct Answer {
    pub(crate) text: Vec<u8>,
    pub(crate) status: Status,
    pub(crate) closed: Option<Closed>,
}

impl Answer {
    fn done(text: Vec<u8>) -> Self
        ensures { result ≡ record { text = text; status = Status.Done; closed = None } }
    {
        let status = Status::Done;
        let closed = None;
        Answer {
            text,
            status,
            closed,
        }
    }

    /// The answer that tells this.
    fn of(told: Told) -> Self
        ensures { result ≡ answer_of told }
    {
        match told {
            Told::Done(text) => Answer::done(text),
            Told::Refused(text) => Answer::refused(text),
        }
    }

    /// The text is of what ran on this gate.
    pub(crate) fn ran(text: Vec<u8>, gate: Closed) -> Self
        ensures { result ≡ record { text = text; status = Status.Done; closed = Some gate } }
    {
        let status = Status::Done;
        let closed = Some(gate);
        Answer {
            text,
            status,
            closed,
        }
    }

    pub(crate) fn refused(text: Vec<u8>) -> Self
        ensures { result ≡ record { text = text; status = Status.Refused; closed = None } }
    {
        let status = Status::Refused;
        let closed = None;
        Answer {
            text,
            status,
            closed,
        }
    }
}

/// Why there is no answer.
#[derive(Clone, Copy, Debug, PartialEq, Eq)]
pub(crate) enum Unanswered {
    ReadFault,
    DeviceFault,
    NoMemory,
}

impl From<AllocError> for Unanswered {
    ghost use Rattle.std.specs.Prelude.{◌≡◌};
    ghost use Rattle.ipe_program.specs.declared.answers.Unanswered.TheVariants.{NoMemory};

    ghost from_gives = { λ _ e. e ≡ NoMemory };

    fn from(_: AllocError) -> Self {
        Unanswered::NoMemory
    }
}

impl From<TreeError> for Unanswered {
    ghost use Rattle.std.specs.Prelude.{◌≡◌};
    ghost use Rattle.ipe_program.specs.Answers.{without_tree};

    ghost from_gives = { λ error e. e ≡ without_tree error };

    fn from(error: TreeError) -> Self {
        match error {
            TreeError::Failed => Unanswered::DeviceFault,
            TreeError::NoMemory => Unanswered::NoMemory,
        }
    }
}

/// The most bytes that are read for a task, if any are.
pub(crate) fn most_input(task: &Task) -> Option<u64>
    ensures { result ≡ (row (Asked.Alone task.now)).most_input }
{
    match task {
        Task::Lint => Some(1_048_576),
        Task::Measure(_) => Some(16_777_216),
        Task::Tree(..) => None,
    }
}

/// The answer to a task, by the input that was read for it and the devices.
pub(crate) fn answer_to<D: Devices>(
    alloc: Global,
    task: &Task,
    input: &[u8],
    devices: &mut D,
) -> Result<Answer, Unanswered>
    requires rule { HasTaskRule task.now }
    requires fits { Fits (row (Asked.Alone task.now)).most_input input.now }
    ensures answer { IfOk result (λ answer. IsAnswer (Asked.Alone task.now) answer.status input.now
        (D.contents devices.old) answer.closed answer.text.items) }
    ensures status { IfOk result (λ answer. HasText answer.status) }
    ensures no_gate { IfOk result (λ answer. answer.closed ≡ None) }
    ensures unread { IsErrOf result Unanswered.ReadFault → ⊥ }
    ensures device_fault { IsErrOf result Unanswered.DeviceFault → Rose (D.faults devices.old) (D.faults devices.new) }
    ensures devices_stay { (row (Asked.Alone task.now)).asks_devices ≡ false → devices.new ≡ devices.old }
    ensures contents_stay { D.contents devices.new ≡ D.contents devices.old }
{
    match task {
        Task::Lint => Ok(Answer::of(linted(alloc, input)?)),
        Task::Measure(tree) => Ok(Answer::done(measured(alloc, tree, input)?)),
        Task::Tree(part, tree) => Ok(Answer::of(tree_told(alloc, *part, tree, devices)?)),
    }
}
