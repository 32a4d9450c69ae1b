ghost use Rattle.std.specs.Prelude.{◌≡◌, ◌++◌, codes, IfOk, List, ℕ, OnOk, Some};
ghost use Rattle.std.specs.Fmt.{decimal};
ghost use Rattle.ipe_policy.specs.declared.evaluation.Context.{Context};
ghost use Rattle.ipe_policy.specs.declared.statement.Statement.{Statement};
ghost use Rattle.ipe_policy.specs.Evaluation.{deciding_statement};
ghost use Rattle.ipe_policy.specs.Spelling.{bit_text, op_word};
ghost use Rattle.ipe_image.specs.Answer.{IsHit, IsRuling};
ghost use Rattle.ipe_audit.specs.Records.{access_text, decided_text, hook_word, object_text};

use ipe_image::{Hit, rule_text};
use ipe_policy::{Hook, Object, Op, Subject, bit_text};
use std::alloc::{AllocError, Global};

fn hook_word(hook: Hook) -> &'static [u8]
    ensures { result.now ≡ hook_word hook }
{
    match hook {
        Hook::BprmCheck => b"BPRM_CHECK",
        Hook::Mmap => b"MMAP",
        Hook::Mprotect => b"MPROTECT",
        Hook::KernelRead => b"KERNEL_READ",
        Hook::KernelLoad => b"KERNEL_LOAD",
    }
}

fn append_object(alloc: Global, line: &mut Vec<u8>, object: &Object) -> Result<(), AllocError>
    ensures { OnOk result (line.new.items ≡ line.old.items ++ object_text object.now) }
{
    match object {
        Object::NoFile => line.extend_from_slice(b"path=? dev=? ino=?"),
        Object::File { path, dev, ino } => {
            let ino = ino.to_string(alloc)?;
            line.extend_from_slice(b"path=\"")?;
            line.extend_from_slice(path.as_slice())?;
            line.extend_from_slice(b"\" dev=\"")?;
            line.extend_from_slice(dev.as_slice())?;
            line.extend_from_slice(b"\" ino=")?;
            line.extend_from_slice(ino.as_bytes())
        }
    }
}

// The operation and the hook, with which the line begins.
fn asked(alloc: Global, op: Op, hook: Hook) -> Result<Vec<u8>, AllocError>
    ensures { IfOk result (λ line. line.items ≡ codes "type=1420 ipe_op=" ++ op_word op ++ codes " ipe_hook="
        ++ hook_word hook) }
{
    let mut line = b"type=1420 ipe_op=".to_vec(alloc)?;
    line.extend_from_slice(op.word().as_bytes())?;
    line.extend_from_slice(b" ipe_hook=")?;
    line.extend_from_slice(hook_word(hook))?;
    Ok(line)
}

fn append_switch(line: &mut Vec<u8>, enforce: bool) -> Result<(), AllocError>
    ensures { OnOk result (line.new.items ≡ line.old.items ++ codes " enforcing=" ++ bit_text enforce) }
{
    line.extend_from_slice(b" enforcing=")?;
    line.extend_from_slice(bit_text(enforce))
}

fn append_task(alloc: Global, line: &mut Vec<u8>, subject: &Subject) -> Result<(), AllocError>
    ensures { OnOk result (line.new.items ≡ line.old.items ++ codes " pid=" ++ decimal subject.now.pid
        ++ codes " comm=\"" ++ subject.now.comm ++ codes "\" ") }
{
    let pid = subject.pid.to_string(alloc)?;
    line.extend_from_slice(b" pid=")?;
    line.extend_from_slice(pid.as_bytes())?;
    line.extend_from_slice(b" comm=\"")?;
    line.extend_from_slice(subject.comm.as_slice())?;
    line.extend_from_slice(b"\" ")
}

fn append_rule(line: &mut Vec<u8>, rule: &[u8]) -> Result<(), AllocError>
    ensures { OnOk result (line.new.items ≡ line.old.items ++ codes " rule=\"" ++ rule.now ++ codes "\"") }
{
    line.extend_from_slice(b" rule=\"")?;
    line.extend_from_slice(rule)?;
    line.extend_from_slice(b"\"")
}

fn access_by(
    alloc: Global,
    op: Op,
    hook: Hook,
    enforce: bool,
    subject: &Subject,
    object: &Object,
    rule: &[u8],
) -> Result<Vec<u8>, AllocError>
    ensures { IfOk result (λ line. line.items ≡ access_text op hook enforce subject.now object.now rule.now) }
{
    let mut line = asked(alloc, op, hook)?;
    append_switch(&mut line, enforce)?;
    append_task(alloc, &mut line, subject)?;
    append_object(alloc, &mut line, object)?;
    append_rule(&mut line, rule)?;
    Ok(line)
}

/// The record of an access that a policy's deciding statement decided, of type 1420, without an end of line. `enforce` is
/// the switch at the claim, and the hit what the policy's image answered for the operation.
pub fn access_line(
    alloc: Global,
    op: Op,
    hook: Hook,
    enforce: bool,
    subject: &Subject,
    object: &Object,
    hit: &Hit,
) -> Result<Vec<u8>, AllocError>
    requires { IsHit op hit.now }
    ensures { (serial : ℕ) (items : List Statement) (context : Context) → IsRuling serial items op context hit.now →
        IfOk result (λ line. decided_text op hook enforce subject.now object.now (deciding_statement items op context)
        ≡ Some line.items) }
{
    let rule = rule_text(alloc, op, hit)?;
    let line = access_by(alloc, op, hook, enforce, subject, object, &rule)?;
    Ok(line)
}
