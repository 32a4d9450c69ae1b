ghost use Rattle.ipe_signer.specs.declared.signer.Verdict.TheVariants.{Trusted};

use crate::{
    Act, Admin, Command, Done, Outcome, Pass, Refusal, Text, Value, read_node, write_node,
};
use ipe_policy::Name;
use ipe_signer::{Purpose, Signer, Verdict};
use std::alloc::Global;
use std::test::*;

const A: &str = "policy_name=a policy_version=1.0.0\nDEFAULT action=DENY\n";

const A_OPEN: &str = "policy_name=a policy_version=1.0.1\nDEFAULT action=ALLOW\n";

const X: &str = "policy_name=x policy_version=2.0.0\nDEFAULT action=DENY\n";

#[derive(Debug, Drop)]
struct TrustsAll;

impl Signer for TrustsAll {
    ghost verdict_of = { λ signer purpose digest. Trusted };

    fn verdict(&self, _purpose: Purpose, _digest: &[u8]) -> Verdict {
        Verdict::Trusted
    }
}

fn name_of(word: &str) -> Result<Name, Fail> {
    Ok(Name::read(word.as_bytes()).ok_or("a name")?)
}

fn text_of(alloc: Global, text: &str) -> Result<Text, Fail> {
    Ok(Text::from_vec(text.as_bytes().to_vec(alloc)?))
}

// What an act comes to, by one who may administer.
fn run(alloc: Global, admin: &mut Admin, act: Act) -> Result<Outcome, Fail> {
    if admin.registry().next_serial() > 1000 {
        Err("too many loads")?;
    }
    let command = Command { may: true, act };
    Ok(admin.command(alloc, &TrustsAll, &command)?)
}

// What a write to a node comes to.
fn write(alloc: Global, admin: &mut Admin, path: &str, text: &str) -> Result<Outcome, Fail> {
    if admin.registry().next_serial() > 1000 {
        Err("too many loads")?;
    }
    Ok(write_node(
        alloc,
        &TrustsAll,
        admin,
        path.as_bytes(),
        text.as_bytes(),
        true,
    )?)
}

// What a claim finds: its epoch, its count and its slot, and the serial of the image in it.
fn claim(pass: &mut Pass) -> Result<(u16, u64, u32, u64), Fail> {
    if pass.holds().is_some() || pass.calls() > 1000 {
        Err("the pass holds a slot")?;
    }
    let claimed = pass.claim();
    let slot = claimed.slot.map_or(0, |slot| slot.number());
    Ok((claimed.epoch, claimed.count, slot, serial(pass)?))
}

fn serial(pass: &mut Pass) -> Result<u64, Fail> {
    if pass.holds().is_none() {
        Err("the pass holds nothing")?;
    }
    Ok(pass.word(1))
}

#[test]
fn a_policy_is_replaced_while_a_pass_holds_it(rt: HostRuntime) -> Result<(), Fail> {
    let alloc = rt.alloc();
    let (mut admin, mut passes) = Admin::start(alloc, 2)?;
    let mut second = passes.pop().ok_or("a pass")?;
    let mut first = passes.pop().ok_or("a pass")?;
    let load = run(alloc, &mut admin, Act::Load(text_of(alloc, A)?))?;
    assert_eq!(rt; (load.epoch, load.reply), (0, Ok(Done::Loaded)));
    let activation = run(alloc, &mut admin, Act::Activate(name_of("a")?, Value::True))?;
    assert_eq!(rt;
        (activation.epoch, activation.reply),
        (1, Ok(Done::Activated))
    );
    assert_eq!(rt; claim(&mut first)?, (1, 0, 1, 1));
    let update = Act::Update(name_of("a")?, text_of(alloc, A_OPEN)?);
    let updated = run(alloc, &mut admin, update)?;
    assert_eq!(rt; (updated.epoch, updated.reply), (2, Ok(Done::Updated)));
    assert_eq!(rt; updated.records.as_slice().len(), 2);
    assert_eq!(rt; serial(&mut first)?, 1);
    assert_eq!(rt; claim(&mut second)?, (2, 0, 2, 2));
    Ok(())
}

#[test]
fn a_slot_is_free_once_its_policy_is_deleted(rt: HostRuntime) -> Result<(), Fail> {
    let alloc = rt.alloc();
    let (mut admin, mut passes) = Admin::start(alloc, 1)?;
    let mut pass = passes.pop().ok_or("a pass")?;
    let load = run(alloc, &mut admin, Act::Load(text_of(alloc, A)?))?;
    assert_eq!(rt; load.reply, Ok(Done::Loaded));
    let deletion = run(alloc, &mut admin, Act::Delete(name_of("a")?, Value::True))?;
    assert_eq!(rt; (deletion.epoch, deletion.reply), (0, Ok(Done::Deleted)));
    let load = run(alloc, &mut admin, Act::Load(text_of(alloc, X)?))?;
    assert_eq!(rt; load.reply, Ok(Done::Loaded));
    let activation = run(alloc, &mut admin, Act::Activate(name_of("x")?, Value::True))?;
    assert_eq!(rt; activation.reply, Ok(Done::Activated));
    assert_eq!(rt; claim(&mut pass)?, (1, 0, 1, 2));
    let refused = run(alloc, &mut admin, Act::Delete(name_of("x")?, Value::True))?;
    assert_eq!(rt; refused.reply, Err(Refusal::IsActive));
    Ok(())
}

#[test]
fn nodes_act_on_the_running_gate(rt: HostRuntime) -> Result<(), Fail> {
    let alloc = rt.alloc();
    let (mut admin, _passes) = Admin::start(alloc, 1)?;
    assert_eq!(rt;
        write(alloc, &mut admin, "nothing", "1")?.reply,
        Err(Refusal::NoEntry)
    );
    assert_eq!(rt;
        write(alloc, &mut admin, "new_policy", A)?.reply,
        Ok(Done::Loaded)
    );
    let off = write(alloc, &mut admin, "enforce", "0")?;
    assert_eq!(rt; (off.epoch, off.reply), (1, Ok(Done::Changed)));
    let shown = read_node(alloc, &admin, b"enforce")?.map_err(|_| "a node")?;
    assert_eq!(rt; shown.as_slice(), b"0".as_slice());
    Ok(())
}
