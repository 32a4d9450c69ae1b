ghost use Rattle.std.specs.Prelude.{◌≡◌, ◌∷◌, [], IfSome};
ghost use Rattle.ipe_gate.specs.Seats.{admin_gate, gate_of, passes_made};

use ipe_gate::{Claimed, Closed, GateAdmin, Old, Pass, Slot, start};
use ipe_image::{Image, compile};
use ipe_policy::{Action, Name, Policy, Statement, Statements, Version};
use std::alloc::Global;
use std::test::*;

fn image(alloc: Global, serial: u64) -> Result<Image, Fail> {
    let items = vec![in alloc;
        Statement::GlobalDefault {
            action: Action::Deny
        },
    ]?;
    let policy = Policy {
        name: Name::read(b"a").ok_or("a name")?,
        version: Version {
            major: 1,
            minor: 0,
            rev: 0,
        },
        items: Statements::from_vec(items),
    };
    Ok(compile(alloc, &policy, serial).map_err(|_| "an image")?)
}

fn place(admin: &mut GateAdmin, image: &Image) -> Result<Slot, Fail>
    ensures { (admin_gate admin.new ≡ admin_gate admin.old) × (passes_made admin.new ≡ passes_made admin.old) }
{
    if admin.bound() > 32 {
        Err("too many slots are bound")?;
    }
    Ok(admin.place(image))
}

// Places an image and lets go of it again.
fn place_and_retire(admin: &mut GateAdmin, image: &Image) -> Result<Slot, Fail>
    ensures { (admin_gate admin.new ≡ admin_gate admin.old) × (passes_made admin.new ≡ passes_made admin.old) }
{
    if admin.bound() > 32 {
        Err("too many slots are bound")?;
    }
    let slot = admin.place(image);
    admin.retire(slot);
    Ok(slot)
}

// Places an image, makes it active, and lets go of the one that was.
fn replace(admin: &mut GateAdmin, image: &Image) -> Result<(Slot, Old), Fail>
    ensures { (admin_gate admin.new ≡ admin_gate admin.old) × (passes_made admin.new ≡ passes_made admin.old) }
{
    if admin.bound() > 32 || admin.epoch() == u16::MAX {
        Err("there is no room")?;
    }
    let before = admin.active();
    let slot = admin.place(image);
    let old = admin.switch(Some(slot), true, false);
    if let Some(before) = before {
        admin.retire(before);
    }
    Ok((slot, old))
}

fn claim(pass: &mut Pass) -> Result<Claimed, Fail>
    ensures { (gate_of pass.new ≡ gate_of pass.old) × (pass.new.number ≡ pass.old.number) }
{
    if pass.holds().is_some() || pass.calls() > 1000 {
        Err("the pass holds a slot")?;
    }
    Ok(pass.claim())
}

fn release(pass: &mut Pass) -> Result<(), Fail>
    ensures { (gate_of pass.new ≡ gate_of pass.old) × (pass.new.number ≡ pass.old.number) }
{
    if pass.holds().is_none() {
        Err("the pass holds nothing")?;
    }
    pass.release();
    Ok(())
}

fn serial(pass: &mut Pass) -> Result<u64, Fail>
    ensures { (gate_of pass.new ≡ gate_of pass.old) × (pass.new.number ≡ pass.old.number) }
{
    if pass.holds().is_none() {
        Err("the pass holds nothing")?;
    }
    Ok(pass.word(1))
}

fn numbers(claimed: &Claimed) -> (u16, u64, u32) {
    (
        claimed.epoch,
        claimed.count,
        claimed.slot.map_or(0, Slot::number),
    )
}

fn both(mut passes: Vec<Pass>) -> Option<(Pass, Pass)>
    ensures { IfSome result (λ r. passes.items ≡ r.0 ∷ r.1 ∷ []) }
{
    let second = passes.pop()?;
    let first = passes.pop()?;
    passes.is_empty().then_some((first, second))
}

fn finish(alloc: Global, mut admin: GateAdmin, mut p: Pass, mut q: Pass) -> Result<Closed, Fail>
    requires two { passes_made admin ≡ 2 }
    requires p { (gate_of p ≡ admin_gate admin) × (p.number ≡ 0) }
    requires q { (gate_of q ≡ admin_gate admin) × (q.number ≡ 1) }
{
    if p.holds().is_some() || q.holds().is_some() {
        Err("a pass holds a slot")?;
    }
    admin.meet(&mut p);
    admin.meet(&mut q);
    let passes = vec![in alloc; p, q]?;
    Ok(admin.close(passes))
}

#[test]
fn a_slot_is_placed_again_once_its_claims_are_returned(rt: HostRuntime) -> Result<(), Fail> {
    let alloc = rt.alloc();
    let (mut admin, passes) = start(alloc, 2)?;
    let Some((mut p, mut q)) = both(passes) else {
        return Ok(Err("two passes")?);
    };
    let (first, old) = replace(&mut admin, &image(alloc, 1)?)?;
    assert_eq!(rt; (first.number(), old.epoch, old.count), (1, 0, 0));
    assert_eq!(rt; numbers(&claim(&mut p)?), (1, 0, 1));
    assert_eq!(rt; replace(&mut admin, &image(alloc, 2)?)?.0.number(), 2);
    assert_eq!(rt; replace(&mut admin, &image(alloc, 3)?)?.0.number(), 3);
    let (fourth, old) = replace(&mut admin, &image(alloc, 4)?)?;
    assert_eq!(rt; (fourth.number(), old.epoch, old.count), (2, 3, 0));
    let fifth = image(alloc, 5)?;
    for _ in 0..40 {
        assert_eq!(rt; place_and_retire(&mut admin, &fifth)?.number(), 3);
    }
    assert_eq!(rt; serial(&mut p)?, 1);
    assert_eq!(rt; numbers(&claim(&mut q)?), (4, 0, 2));
    release(&mut q)?;
    release(&mut p)?;
    assert_eq!(rt; place(&mut admin, &fifth)?.number(), 1);
    let closed = finish(alloc, admin, p, q)?;
    assert_eq!(rt; (closed.epoch, closed.count), (4, 1));
    Ok(())
}

#[test]
fn the_last_slot_is_found_while_thirty_are_held(rt: HostRuntime) -> Result<(), Fail> {
    let alloc = rt.alloc();
    let (mut admin, mut passes) = start(alloc, 30)?;
    let image = image(alloc, 1)?;
    let mut active = replace(&mut admin, &image)?.0.number();
    for pass in passes.iter_mut() {
        assert_eq!(rt; claim(pass)?.slot.map_or(0, Slot::number), active);
        let next = replace(&mut admin, &image)?.0.number();
        assert_eq!(rt; next, active.wrapping_add(1));
        active = next;
    }
    assert_eq!(rt; (active, admin.bound()), (31, 1));
    for number in 32..63 {
        assert_eq!(rt; place(&mut admin, &image)?.number(), number);
    }
    assert_eq!(rt; admin.bound(), 32);
    assert_eq!(rt; place(&mut admin, &image)?.number(), 63);
    Ok(())
}

#[test]
fn nothing_is_held_where_nothing_is_active(rt: HostRuntime) -> Result<(), Fail> {
    let (admin, mut passes) = start(rt.alloc(), 1)?;
    let mut pass = passes.pop().ok_or("a pass")?;
    let claimed = claim(&mut pass)?;
    assert_eq!(rt; numbers(&claimed), (0, 0, 0));
    assert_eq!(rt; (claimed.enforce, claimed.success), (true, false));
    assert_eq!(rt; (pass.holds().is_none(), pass.calls()), (true, 1));
    assert_eq!(rt; (admin.epoch(), admin.active().is_none()), (0, true));
    Ok(())
}
