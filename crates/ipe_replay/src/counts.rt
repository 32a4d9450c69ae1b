ghost use Rattle.std.specs.Prelude.{◌≡◌, ◌≤◌, count_by, length};
ghost use Rattle.ipe_lines.specs.Told.{one_list};
ghost use Rattle.ipe_replay.specs.Counts.{is_counted, is_counted_command, is_counted_hook, tally_of};

use ipe_machine::Place;
use ipe_transcript::{Entries, Entry};

// What is counted of entries: those of hooks, those of them with a place, the administrator's, and those of them with the
// code 0.
#[derive(Clone, Copy, Debug, PartialEq, Eq)]
pub(crate) enum Counted {
    Hooks,
    Placed,
    Commands,
    Done,
}

impl Counted {
    fn has_command(self, code: i32) -> bool
        ensures { result ≡ is_counted_command self code }
    {
        match self {
            Counted::Hooks | Counted::Placed => false,
            Counted::Commands => true,
            Counted::Done => code == 0,
        }
    }

    fn has_hook(self, place: &Option<Place>) -> bool
        ensures { result ≡ is_counted_hook self place.now }
    {
        match self {
            Counted::Hooks => true,
            Counted::Placed => place.is_some(),
            Counted::Commands | Counted::Done => false,
        }
    }

    fn has(self, entry: &Entry) -> bool
        ensures { result ≡ is_counted self entry.now }
    {
        match entry {
            Entry::Write { code, .. } | Entry::Read { code, .. } => self.has_command(*code),
            Entry::Hook { place, .. } => self.has_hook(place),
        }
    }
}

// How many of these entries are counted.
fn count_in(entries: &[Entry], what: Counted) -> usize
    ensures { result ≡ count_by (is_counted what) entries.now }
{
    entries.iter().filter(|entry| what.has(entry)).count()
}

// How many entries of all phases are counted.
fn count(phases: &[Entries], what: Counted) -> u64
    requires { length (one_list phases.now) ≤ 16777216 }
    ensures { result ≡ count_by (is_counted what) (one_list phases.now) }
{
    let mut count = 0;
    for phase in phases {
        count += count_in(phase.as_slice(), what) as u64;
    }
    count
}

// How many entries there are of each that is counted.
#[derive(Clone, Copy, Debug)]
pub(crate) struct Tally {
    pub(crate) hooks: u64,
    pub(crate) placed: u64,
    pub(crate) commands: u64,
    pub(crate) done: u64,
}

impl Tally {
    pub(crate) fn of(phases: &[Entries]) -> Tally
        requires { length (one_list phases.now) ≤ 16777216 }
        ensures { result ≡ tally_of (one_list phases.now) }
    {
        Tally {
            hooks: count(phases, Counted::Hooks),
            placed: count(phases, Counted::Placed),
            commands: count(phases, Counted::Commands),
            done: count(phases, Counted::Done),
        }
    }
}
