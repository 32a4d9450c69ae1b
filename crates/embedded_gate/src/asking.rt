ghost use Rattle.std.specs.Prelude.{◌≡◌, ◌+◌, ◌<◌, ◌≤◌, ◌^◌, IfOk, if◌then◌else◌, string_bytes};
ghost use Rattle.ipe_gate.specs.Seats.{calls_made, slot_held};
ghost use Rattle.embedded_gate.specs.Passes.{CameBack};
ghost use Rattle.embedded_gate.specs.Answers.{IsOneMore, IsWithin, TellsSerial, answers_text, is_of_a_policy, serial_told};

use ipe_gate::Pass;
use ipe_hooks::hook;
use ipe_image::{Hit, Ruling};
use ipe_policy::{Action, Context, Request};
use std::alloc::{AllocError, Global};

/// The word of an image that is its serial.
const SERIAL: u32 = 1;

/// How many answers a thread got; how many of them no policy of the program gives, and how many are of an older policy
/// than one before them; and the serial of the newest policy that answered.
#[derive(Clone, Copy, Debug)]
pub struct Tally {
    pub count: u32,
    pub of_none: u32,
    pub went_back: u32,
    pub newest: u64,
}

impl Tally {
    pub fn none() -> Tally
        ensures none { result.count ≡ 0 }
        ensures within { IsWithin result }
    {
        Tally {
            count: 0,
            of_none: 0,
            went_back: 0,
            newest: 0,
        }
    }

    // One more answer.
    fn note(&mut self, ruling: &Ruling)
        requires room { self.old.count < 4294967295 }
        requires within { IsWithin self.old }
        ensures more { IsOneMore self.old self.new ruling.now }
        ensures within { IsWithin self.new }
    {
        let serial = serial_of(&ruling.hit);
        let fits = is_of_a_policy(&ruling.hit);
        let of_none = counted(self.of_none, !fits);
        let went_back = counted(self.went_back, serial < self.newest);
        let newest = self.newest.max(serial);
        *self = Tally {
            count: self.count + 1,
            of_none,
            went_back,
            newest,
        };
    }
}

// One more where this holds.
fn counted(count: u32, more: bool) -> u32
    requires { count < 4294967295 }
    ensures counted { result ≡ (if more then count + 1 else count) }
    ensures most { result ≤ count + 1 }
{
    if more { count + 1 } else { count }
}

// The serial of the policy that decided, 0 for none.
fn serial_of(hit: &Option<Hit>) -> u64
    ensures { result ≡ serial_told hit.now }
{
    match hit {
        Some(hit) => hit.serial,
        None => 0,
    }
}

// Whether one of the program's policies decides so: the second denies, the first and the third allow.
fn is_of_a_policy(hit: &Option<Hit>) -> bool
    ensures { result ≡ is_of_a_policy hit.now }
{
    match hit {
        Some(hit) => match hit.found.action {
            Action::Allow => hit.serial == 1 || hit.serial == 3,
            Action::Deny => hit.serial == 2,
        },
        None => false,
    }
}

/// Asks the gate so many times whether a program of the initial root file system may run.
pub fn ask(mut pass: Pass, times: u32) -> (Pass, Tally)
    requires free { slot_held pass ≡ 0 }
    requires few { calls_made pass + times < 2 ^ 35 }
    ensures pass { CameBack pass result.0 times }
    ensures each { result.1.count ≡ times }
{
    let context = Context {
        boot: true,
        dm: None,
        fs: None,
    };
    let mut tally = Tally::none();
    for _ in 0..times {
        let ruling = hook(&mut pass, &Request::ExecCheck, &context);
        tally.note(&ruling);
    }
    (pass, tally)
}

/// The serial of the policy that is active, if one is, as its image tells it.
pub fn active_serial(pass: &mut Pass) -> Option<u64>
    requires free { slot_held pass.old ≡ 0 }
    requires few { calls_made pass.old < 2 ^ 35 }
    ensures { TellsSerial pass.old pass.new result }
{
    let claimed = pass.claim();
    if claimed.slot.is_none() {
        return None;
    }
    let serial = pass.word(SERIAL);
    pass.release();
    Some(serial)
}

/// What is told of a thread's answers: a line that is the same however the threads get on.
pub fn answers(alloc: Global, thread: u32, tally: &Tally) -> Result<String, AllocError>
    ensures { IfOk result (λ text. string_bytes text ≡ answers_text thread tally.now) }
{
    let mut text = String::new(alloc);
    let count = tally.count;
    let of_none = tally.of_none;
    let went_back = tally.went_back;
    write!(text, "thread {thread}: answers {count}")?;
    write!(text, ", of no policy {of_none}")?;
    write!(text, ", of an older one than before {went_back}")?;
    Ok(text)
}
