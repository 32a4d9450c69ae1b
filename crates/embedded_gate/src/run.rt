ghost use Rattle.std.specs.Prelude.{◌≡◌, ◌∷◌, ◌<◌, ◌≤◌, ◌^◌, [], IfOk, length};
ghost use Rattle.std.specs.Thread.{IsSync};
ghost use Rattle.ipe_gate_rule.specs.History.{epoch_of};
ghost use Rattle.ipe_gate.specs.Seats.{SameAdmin, admin_gate, admin_seen, calls_made, gate_of, passes_made, slot_held};
ghost use Rattle.embedded_gate.specs.Passes.{CameBack, IsIdle, IsOpen, IsPassOf, IsReplacement, Serves};
ghost use Rattle.embedded_gate.specs.Replacing.{IsReplaced, TellsInForce};

use crate::asking::{Tally, active_serial, ask};
use anyhow::Result;
use ipe_gate::{GateAdmin, Pass, Slot, start};
use ipe_image::{Image, compile};
use ipe_parse::parse;
use std::alloc::Global;
use std::thread::{Threads, join};

const FIRST: &str =
    "policy_name=site policy_version=1.0.0\nDEFAULT action=DENY\nop=EXECUTE boot_verified=TRUE action=ALLOW\n";

const SECOND: &str = "policy_name=site policy_version=1.0.1\nDEFAULT action=DENY\n";

const THIRD: &str = "policy_name=site policy_version=1.0.2\nDEFAULT action=ALLOW\n";

/// How often each thread asks while the policy is replaced.
const TIMES: u32 = 1000;

/// What the program prints: the serial of the policy in force at the start and after each replacement, the answers of
/// each thread meanwhile and once all had met the administrator, and the last epoch.
#[derive(Drop)]
pub struct Report {
    pub serials: [Option<u64>; 3],
    pub meanwhile: [Tally; 2],
    pub afterwards: [Tally; 2],
    pub epoch: u16,
}

/// The administrator and the main thread's own pass once the policy was replaced twice, and the serial of the policy in
/// force after each.
#[derive(Drop)]
pub struct Replaced {
    pub admin: GateAdmin,
    pub own: Pass,
    pub serials: [Option<u64>; 2],
}

fn image_of(alloc: Global, text: &str, serial: u64) -> Result<Image>
    requires { length text.now ≤ 1048576 }
{
    let policy = parse(alloc, text.as_bytes())?;
    Ok(compile(alloc, &policy, serial)?)
}

// The passes of a gate that has three.
fn all_three(mut passes: Vec<Pass>) -> (Pass, Pass, Pass)
    requires { length passes.items ≡ 3 }
    ensures { passes.items ≡ result.0 ∷ result.1 ∷ result.2 ∷ [] }
{
    let Some(third) = passes.pop() else {
        unreachable!();
    };
    let Some(second) = passes.pop() else {
        unreachable!();
    };
    let Some(first) = passes.pop() else {
        unreachable!();
    };
    (first, second, third)
}

// A gate with three passes whose active slot has this image.
fn open_gate(alloc: Global, image: &Image) -> Result<(GateAdmin, Slot, (Pass, Pass, Pass))>
    ensures { IfOk result (λ r. IsOpen r.0 r.1 r.2.0 r.2.1 r.2.2 image.now) }
{
    let (mut admin, passes) = start(alloc, 3)?;
    let passes = all_three(passes);
    let slot = admin.place(image);
    admin.switch(Some(slot), true, false);
    Ok((admin, slot, passes))
}

// Makes an image the active one, and lets go of the slot that was.
fn replace(admin: &mut GateAdmin, before: Slot, image: &Image) -> Slot
    requires serves { Serves admin.old before }
    requires room { epoch_of (admin_seen admin.old) < 65535 }
    ensures { IsReplacement admin.old admin.new result image.now }
{
    let slot = admin.place(image);
    admin.switch(Some(slot), true, false);
    admin.retire(before);
    slot
}

// The serial of the policy in force, by a pass that meets the administrator first.
fn serial_in_force(admin: &mut GateAdmin, own: &mut Pass) -> Option<u64>
    requires gate { gate_of own.old ≡ admin_gate admin.old }
    requires free { slot_held own.old ≡ 0 }
    requires few { calls_made own.old < 2 ^ 35 }
    ensures same { SameAdmin admin.old admin.new }
    ensures told { TellsInForce admin.old own.old own.new result }
{
    admin.meet(own);
    active_serial(own)
}

// Replaces the policy twice, and tells the serial of the one in force after each.
fn replace_twice(
    mut admin: GateAdmin,
    before: Slot,
    mut own: Pass,
    second: &Image,
    third: &Image,
) -> Replaced
    requires serves { Serves admin before }
    requires epoch { epoch_of (admin_seen admin) ≡ 1 }
    requires own { IsPassOf admin 2 1 own }
    ensures { IsReplaced admin result }
{
    let slot = replace(&mut admin, before, second);
    let after_second = serial_in_force(&mut admin, &mut own);
    replace(&mut admin, slot, third);
    let after_third = serial_in_force(&mut admin, &mut own);
    Replaced {
        admin,
        own,
        serials: [after_second, after_third],
    }
}

// Each pass asks in a thread of its own.
fn ask_both<R: Threads + Sync>(rt: &R, p: Pass, q: Pass) -> ((Pass, Tally), (Pass, Tally))
    requires p { IsIdle 0 p }
    requires q { IsIdle 0 q }
    ensures p { CameBack p result.0.0 TIMES }
    ensures q { CameBack q result.1.0 TIMES }
{
    join(
        rt,
        move || -> (Pass, Tally)
            requires { IsIdle 0 p }
            ensures { CameBack p result.0 TIMES }
        { ask(p, TIMES) },
        move || -> (Pass, Tally)
            requires { IsIdle 0 q }
            ensures { CameBack q result.0 TIMES }
        { ask(q, TIMES) },
    )
}

// Both ask while the administrator replaces the policy.
fn replace_meanwhile<R: Threads + Sync>(
    rt: &R,
    admin: GateAdmin,
    before: Slot,
    own: Pass,
    images: (&Image, &Image),
    p: Pass,
    q: Pass,
) -> (Replaced, ((Pass, Tally), (Pass, Tally)))
    requires serves { Serves admin before }
    requires epoch { epoch_of (admin_seen admin) ≡ 1 }
    requires own { IsPassOf admin 2 1 own }
    requires p { IsPassOf admin 0 0 p }
    requires q { IsPassOf admin 1 0 q }
    ensures replaced { IsReplaced admin result.0 }
    ensures p { IsPassOf result.0.admin 0 TIMES result.1.0.0 }
    ensures q { IsPassOf result.0.admin 1 TIMES result.1.1.0 }
{
    join(
        rt,
        move || -> Replaced
            requires { Serves admin before × (epoch_of (admin_seen admin) ≡ 1) × IsPassOf admin 2 1 own }
            ensures { IsReplaced admin result }
        { replace_twice(admin, before, own, images.0, images.1) },
        move || -> ((Pass, Tally), (Pass, Tally))
            requires { IsSync R.row × IsIdle 0 p × IsIdle 0 q }
            ensures { CameBack p result.0.0 TIMES × CameBack q result.1.0 TIMES }
        { ask_both(rt, p, q) },
    )
}

// The administrator meets both, which tells each of the last switch; each asks once more, and the gate is closed.
fn finish(alloc: Global, replaced: Replaced, mut p: Pass, mut q: Pass) -> Result<([Tally; 2], u16)>
    requires three { passes_made replaced.admin ≡ 3 }
    requires own { IsPassOf replaced.admin 2 3 replaced.own }
    requires p { IsPassOf replaced.admin 0 TIMES p }
    requires q { IsPassOf replaced.admin 1 TIMES q }
{
    let Replaced { mut admin, own, .. } = replaced;
    admin.meet(&mut p);
    admin.meet(&mut q);
    let (p, of_p) = ask(p, 1);
    let (q, of_q) = ask(q, 1);
    let passes = vec![in alloc; p, q, own]?;
    let closed = admin.close(passes);
    Ok(([of_p, of_q], closed.epoch))
}

/// The whole program, but for what it prints.
pub fn run<R: Threads + Sync>(rt: &R, alloc: Global) -> Result<Report> {
    let first = image_of(alloc, FIRST, 1)?;
    let second = image_of(alloc, SECOND, 2)?;
    let third = image_of(alloc, THIRD, 3)?;
    let (admin, slot, (p, q, mut own)) = open_gate(alloc, &first)?;
    let at_start = active_serial(&mut own);
    let (replaced, ((p, of_p), (q, of_q))) = replace_meanwhile(
        rt,
        admin,
        slot,
        own,
        (&second, &third),
        p,
        q,
    );
    let [after_second, after_third] = replaced.serials;
    let (afterwards, epoch) = finish(alloc, replaced, p, q)?;
    Ok(Report {
        serials: [at_start, after_second, after_third],
        meanwhile: [of_p, of_q],
        afterwards,
        epoch,
    })
}
