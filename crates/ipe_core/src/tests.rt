ghost use Rattle.ipe_signer.specs.declared.signer.Verdict.TheVariants.{Trusted};

use super::*;
use ipe_policy::{
    Action, Comm, Context, DevName, DigestBytes, Found, Name, Object, PathName, Request, Subject,
    Which,
};
use sha2::{Digest, Sha256};
use std::alloc::Global;
use std::process::Abort;
use std::test::Fail;

const A: &str =
    "policy_name=a policy_version=1.0.0\nDEFAULT action=DENY\nop=EXECUTE boot_verified=TRUE action=ALLOW\n";

const A_OPEN: &str = "policy_name=a policy_version=1.0.0\nDEFAULT action=ALLOW\n";

const A_LOWER: &str = "policy_name=a policy_version=0.9.9\nDEFAULT action=DENY\n";

const X: &str = "policy_name=x policy_version=2.0.0\nDEFAULT action=DENY\n";

const Y_LOWER: &str = "policy_name=y policy_version=1.9.9\nDEFAULT action=DENY\n";

const Y: &str = "policy_name=y policy_version=2.0.0\nDEFAULT action=DENY\n";

#[derive(Debug, Drop)]
struct TrustsAll;

impl Signer for TrustsAll {
    ghost verdict_of = { λ signer purpose digest. Trusted };

    fn verdict(&self, _purpose: Purpose, _digest: &[u8]) -> Verdict {
        Verdict::Trusted
    }
}

// What an administrator writes.
#[derive(Clone, Copy, Debug)]
enum Write {
    Load(&'static str),
    Update(&'static str, &'static str),
    Activate(&'static str, &'static str),
    Delete(&'static str, &'static str),
    Enforce(&'static str),
}

fn name_of(word: &str) -> Result<Name, Fail> {
    Ok(Name::read(word.as_bytes()).ok_or("a name")?)
}

fn text_of(alloc: Global, text: &str) -> Result<Text, Fail> {
    Ok(Text::from_vec(text.as_bytes().to_vec(alloc)?))
}

fn act_of(alloc: Global, write: Write) -> Result<Act, Fail> {
    Ok(match write {
        Write::Load(text) => Act::Load(text_of(alloc, text)?),
        Write::Update(name, text) => Act::Update(name_of(name)?, text_of(alloc, text)?),
        Write::Activate(name, word) => Act::Activate(name_of(name)?, Value::read(word.as_bytes())),
        Write::Delete(name, word) => Act::Delete(name_of(name)?, Value::read(word.as_bytes())),
        Write::Enforce(word) => Act::Enforce(Value::read(word.as_bytes())),
    })
}

// The epoch after an act, and the code: 0, or the number of the error below 0.
fn answer_to<S: Signer>(
    rt: &impl Abort,
    alloc: Global,
    signer: &S,
    state: &mut State,
    act: Act,
) -> Result<(u16, i32), Fail> {
    let event = Event::Command(Command { may: true, act });
    assert!(rt; state.allows(&event));
    match step(alloc, signer, state, &event)? {
        Reply::Command(CoreOutcome { epoch, reply }) => match reply {
            Ok(_) => Ok((epoch, 0)),
            Err(refusal) => Ok((epoch, -refusal.errno().number())),
        },
        Reply::Claimed(_) | Reply::Returned => Err("a command's reply")?,
    }
}

// Steps a machine whose signer trusts all by each write, and compares the epoch and the code.
fn run_writes(
    rt: &impl Abort,
    alloc: Global,
    state: &mut State,
    writes: &[(Write, u16, i32)],
) -> Result<(), Fail> {
    for (write, epoch, code) in writes {
        let act = act_of(alloc, *write)?;
        let answer = answer_to(rt, alloc, &TrustsAll, state, act)?;
        assert_eq!(rt; answer, (*epoch, *code), "{write:?}");
    }
    Ok(())
}

// A claim of pass 0, by the check of a boot file that is to be executed.
fn boot_file_check() -> Result<Event, Fail> {
    Ok(Event::Claim {
        pass: 0,
        request: Request::ExecCheck,
        subject: Subject {
            pid: 7,
            comm: Comm::read(b"sh").ok_or("a task's name")?,
        },
        object: Object::File {
            path: PathName::read(b"/bin/sh").ok_or("a path")?,
            dev: DevName::read(b"vda").ok_or("a device")?,
            ino: 12,
        },
        context: Context {
            boot: true,
            dm: None,
            fs: None,
        },
    })
}

// The ruling on the check of a boot file.
fn program_check(rt: &impl Abort, alloc: Global, state: &mut State) -> Result<CoreRuling, Fail> {
    let event = boot_file_check()?;
    assert!(rt; state.allows(&event));
    match step(alloc, &TrustsAll, state, &event)? {
        Reply::Claimed(ruling) => Ok(ruling),
        Reply::Command(_) | Reply::Returned => Err("a claim's reply")?,
    }
}

#[test]
fn events_are_replied_to_one_after_another(rt: HostRuntime) -> Result<(), Fail> {
    let alloc = rt.alloc();
    let mut state = State::new(alloc, 30)?;
    let event = Event::Command(Command {
        may: true,
        act: Act::Load(text_of(alloc, A)?),
    });
    assert!(rt; state.allows(&event));
    let mut items = Vec::new(alloc);
    items.push(event)?;
    let replies = run_events(alloc, &TrustsAll, &mut state, &Events::from_vec(items))?;
    let loaded = Reply::Command(CoreOutcome {
        epoch: 0,
        reply: Ok(Done::Loaded),
    });
    assert_eq!(rt; replies.as_slice(), [loaded].as_slice());
    assert_eq!(rt; state.registry().entries().len(), 1);
    Ok(())
}

// Two machines of one signer that have come equally far, one by steps and one by runs.
#[derive(Drop)]
struct Machines {
    signer: TrustList,
    stepped: State,
    run: State,
}

// Two new machines for one pass, of whose signer this text is trusted.
fn machines_that_trust(alloc: Global, text: &str) -> Result<Machines, Fail> {
    Ok(Machines {
        signer: signer_of(alloc, text, &[(Purpose::Policy, Verdict::Trusted)])?,
        stepped: State::new(alloc, 1)?,
        run: State::new(alloc, 1)?,
    })
}

impl Machines {
    // Both give this reply to an event that is allowed.
    fn reply_alike(
        &mut self,
        rt: &impl Abort,
        alloc: Global,
        event: Event,
        reply: Reply,
    ) -> Result<(), Fail> {
        assert!(rt; self.stepped.allows(&event));
        assert_eq!(rt;
            step(alloc, &self.signer, &mut self.stepped, &event)?,
            reply
        );
        assert!(rt; self.run.allows(&event));
        let events = Events::from_vec(vec![in alloc; event]?);
        let replies = run_events(alloc, &self.signer, &mut self.run, &events)?;
        assert_eq!(rt; replies.as_slice(), [reply].as_slice());
        Ok(())
    }

    // Both reply to an administrator's write that it is done, at this epoch.
    fn do_write(
        &mut self,
        rt: &impl Abort,
        alloc: Global,
        write: Write,
        epoch: u16,
        done: Done,
    ) -> Result<(), Fail> {
        let event = Event::Command(Command {
            may: true,
            act: act_of(alloc, write)?,
        });
        let reply = Reply::Command(CoreOutcome {
            epoch,
            reply: Ok(done),
        });
        self.reply_alike(rt, alloc, event, reply)
    }

    // Both rule so on the check of a boot file.
    fn rule_on_boot_file(
        &mut self,
        rt: &impl Abort,
        alloc: Global,
        ruling: CoreRuling,
    ) -> Result<(), Fail> {
        let claim = boot_file_check()?;
        self.reply_alike(rt, alloc, claim, Reply::Claimed(ruling))
    }
}

// The smallest whole story. Each line of the policy's text ends with its line feed.
#[test]
fn a_policy_is_loaded_and_activated_and_rules_on_a_boot_file(rt: HostRuntime) -> Result<(), Fail> {
    let alloc = rt.alloc();
    let allowed = CoreRuling {
        code: 0,
        place: Some(Place { epoch: 1, count: 0 }),
        serial: Some(1),
        found: Some(Found {
            action: Action::Allow,
            which: Which::Rule(1),
        }),
        enforce: true,
        record_due: false,
    };
    let mut machines = machines_that_trust(alloc, A)?;
    machines.do_write(&rt, alloc, Write::Load(A), 0, Done::Loaded)?;
    machines.do_write(&rt, alloc, Write::Activate("a", "1\n"), 1, Done::Activated)?;
    machines.rule_on_boot_file(&rt, alloc, allowed)?;
    machines.reply_alike(&rt, alloc, Event::Return { pass: 0 }, Reply::Returned)
}

#[test]
fn a_claim_without_a_policy_is_answered_0(rt: HostRuntime) -> Result<(), Fail> {
    let alloc = rt.alloc();
    let mut state = State::new(alloc, 1)?;
    let ruling = CoreRuling {
        code: 0,
        place: Some(Place { epoch: 0, count: 0 }),
        serial: None,
        found: None,
        enforce: true,
        record_due: false,
    };
    assert_eq!(rt; program_check(&rt, alloc, &mut state)?, ruling);
    Ok(())
}

#[test]
fn versions_compare_across_names(rt: HostRuntime) -> Result<(), Fail> {
    let alloc = rt.alloc();
    let mut state = State::new(alloc, 1)?;
    let writes = [
        (Write::Load(X), 0, 0),
        (Write::Load(Y_LOWER), 0, 0),
        (Write::Activate("x", "1\n"), 1, 0),
        (Write::Activate("y", "1\n"), 1, -116),
        (Write::Update("y", Y), 1, 0),
        (Write::Activate("y", "1\n"), 2, 0),
        (Write::Activate("x", "1\n"), 3, 0),
        (Write::Activate("x", "1\n"), 3, 0),
    ];
    run_writes(&rt, alloc, &mut state, &writes)
}

#[test]
fn an_update_of_the_active_policy_rules_at_once(rt: HostRuntime) -> Result<(), Fail> {
    let alloc = rt.alloc();
    let mut state = State::new(alloc, 1)?;
    let writes = [
        (Write::Load(A), 0, 0),
        (Write::Activate("a", "1\n"), 1, 0),
        (Write::Update("a", A_OPEN), 2, 0),
    ];
    run_writes(&rt, alloc, &mut state, &writes)?;
    let ruling = program_check(&rt, alloc, &mut state)?;
    assert_eq!(rt; ruling.code, 0);
    assert_eq!(rt; ruling.place, Some(Place { epoch: 2, count: 0 }));
    assert_eq!(rt; ruling.serial, Some(2));
    assert_eq!(rt;
        ruling.found.map(|found| found.which),
        Some(Which::GlobalDefault)
    );
    let refused = [
        (Write::Update("a", A_LOWER), 2, -116),
        (Write::Update("a", X), 2, -22),
        (Write::Update("x", X), 2, -2),
    ];
    run_writes(&rt, alloc, &mut state, &refused)
}

#[test]
fn the_active_policy_stays(rt: HostRuntime) -> Result<(), Fail> {
    let alloc = rt.alloc();
    let mut state = State::new(alloc, 1)?;
    let writes = [
        (Write::Load(A), 0, 0),
        (Write::Activate("a", "1\n"), 1, 0),
        (Write::Delete("a", "1\n"), 1, -1),
        (Write::Load(Y), 1, 0),
        (Write::Activate("y", "1\n"), 2, 0),
        (Write::Delete("a", "1\n"), 2, 0),
        (Write::Delete("a", "1\n"), 2, -2),
        (Write::Delete("y", "0\n"), 2, -22),
    ];
    run_writes(&rt, alloc, &mut state, &writes)
}

// The signer by whom this text is marked so.
fn signer_of(alloc: Global, text: &str, marks: &[(Purpose, Verdict)]) -> Result<TrustList, Fail> {
    let digest = Sha256::digest(text.as_bytes());
    let mut items = Vec::new(alloc);
    for (purpose, verdict) in marks {
        items.push(Mark {
            purpose: *purpose,
            verdict: *verdict,
            digest: DigestBytes::read(&digest).ok_or("a digest")?,
        })?;
    }
    Ok(TrustList::new(alloc, Marks::from_vec(items))?)
}

// The code of a load of this text, where it is marked so.
fn load_marked(
    rt: &impl Abort,
    alloc: Global,
    text: &str,
    marks: &[(Purpose, Verdict)],
) -> Result<i32, Fail> {
    let signer = signer_of(alloc, text, marks)?;
    load_by(rt, alloc, &signer, text)
}

// The code of a first load of this text, by what this signer says.
fn load_by<S: Signer>(rt: &impl Abort, alloc: Global, signer: &S, text: &str) -> Result<i32, Fail> {
    let mut state = State::new(alloc, 1)?;
    let act = Act::Load(text_of(alloc, text)?);
    Ok(answer_to(rt, alloc, signer, &mut state, act)?.1)
}

#[test]
fn the_last_mark_of_a_policy_decides(rt: HostRuntime) -> Result<(), Fail> {
    let alloc = rt.alloc();
    let trusted = (Purpose::Policy, Verdict::Trusted);
    let revoked = (Purpose::Policy, Verdict::Revoked);
    let root = (Purpose::Root, Verdict::Trusted);
    assert_eq!(rt; load_marked(&rt, alloc, A, &[])?, -126);
    assert_eq!(rt; load_marked(&rt, alloc, A, &[root])?, -126);
    assert_eq!(rt; load_marked(&rt, alloc, A, &[revoked])?, -129);
    assert_eq!(rt; load_marked(&rt, alloc, A, &[trusted, revoked])?, -129);
    assert_eq!(rt; load_marked(&rt, alloc, A, &[revoked, trusted])?, 0);
    assert_eq!(rt;
        load_marked(&rt, alloc, "policy_name=a\n", &[trusted])?,
        -74
    );
    Ok(())
}

// The answer to a load of a text of one byte more than may be.
fn load_too_big<S: Signer>(rt: &impl Abort, alloc: Global, signer: &S) -> Result<(u16, i32), Fail> {
    let mut state = State::new(alloc, 1)?;
    let act = Act::Load(Text::from_vec(vec![in alloc; b'#'; 1_048_577]?));
    answer_to(rt, alloc, signer, &mut state, act)
}

#[test]
fn a_text_over_the_limit_is_too_big(rt: HostRuntime) -> Result<(), Fail> {
    let alloc = rt.alloc();
    assert_eq!(rt; load_too_big(&rt, alloc, &TrustsAll)?, (0, -7));
    let signer = TrustList::new(alloc, Marks::from_vec(Vec::new(alloc)))?;
    assert_eq!(rt; load_too_big(&rt, alloc, &signer)?, (0, -7));
    Ok(())
}

// The code of a load of a policy of this number.
fn load_numbered(
    rt: &impl Abort,
    alloc: Global,
    state: &mut State,
    number: u32,
) -> Result<i32, Fail> {
    let text = format!(in alloc;
        "policy_name=p{number} policy_version=1.0.0\nDEFAULT action=DENY\n"
    )?;
    let act = Act::Load(text_of(alloc, text.as_str())?);
    Ok(answer_to(rt, alloc, &TrustsAll, state, act)?.1)
}

#[test]
fn thirty_two_policies_are_loaded(rt: HostRuntime) -> Result<(), Fail> {
    let alloc = rt.alloc();
    let mut state = State::new(alloc, 1)?;
    for number in 0..32 {
        assert_eq!(rt;
            load_numbered(&rt, alloc, &mut state, number)?,
            0,
            "{number}"
        );
    }
    assert_eq!(rt; load_numbered(&rt, alloc, &mut state, 32)?, -28);
    assert_eq!(rt; load_numbered(&rt, alloc, &mut state, 7)?, -17);
    Ok(())
}

// A policy with so many rules without properties: an image of 25 words and one for each rule.
fn rules(alloc: Global, number: u32) -> Result<Text, Fail> {
    let mut text = String::from_str(
        alloc,
        "policy_name=w policy_version=1.0.0\nDEFAULT action=DENY\n",
    )?;
    for _ in 0..number {
        text.push_str("op=EXECUTE action=ALLOW\n")?;
    }
    text_of(alloc, text.as_str())
}

#[test]
fn an_image_of_4097_words_is_too_wide(rt: HostRuntime) -> Result<(), Fail> {
    let alloc = rt.alloc();
    let mut state = State::new(alloc, 1)?;
    let wide = Act::Load(rules(alloc, 4072)?);
    assert_eq!(rt;
        answer_to(&rt, alloc, &TrustsAll, &mut state, wide)?,
        (0, -27)
    );
    let widest = Act::Load(rules(alloc, 4071)?);
    assert_eq!(rt;
        answer_to(&rt, alloc, &TrustsAll, &mut state, widest)?,
        (0, 0)
    );
    Ok(())
}

#[test]
fn the_last_epoch_has_no_next(rt: HostRuntime) -> Result<(), Fail> {
    let alloc = rt.alloc();
    let mut state = State::new(alloc, 1)?;
    run_writes(&rt, alloc, &mut state, &[(Write::Load(A), 0, 0)])?;
    for epoch in 1..=65_535 {
        let value = if epoch % 2 == 1 {
            Value::False
        } else {
            Value::True
        };
        let answer = answer_to(&rt, alloc, &TrustsAll, &mut state, Act::Enforce(value))?;
        assert_eq!(rt; answer, (epoch, 0));
    }
    let writes = [
        (Write::Enforce("0"), 65_535, 0),
        (Write::Enforce("1"), 65_535, -75),
        (Write::Activate("a", "1"), 65_535, -75),
        (Write::Update("a", A_OPEN), 65_535, 0),
    ];
    run_writes(&rt, alloc, &mut state, &writes)
}
