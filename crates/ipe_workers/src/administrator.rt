// The lines of the administrator.
ghost use Rattle.std.specs.Prelude.{◌≡◌, ◌+◌, ◌<◌, ◌≤◌, ◌^◌, ◌==◌, ◌∷◌, [], IfOk, None, OnErr, is_ok, length, neg_ℤ, not, pos};
ghost use Rattle.ipe_words.specs.Number.{errno_number};
ghost use Rattle.ipe_machine.specs.Refusals.{errno_of};
ghost use Rattle.ipe_nodes.specs.Nodes.{node_read};
ghost use Rattle.ipe_transcript.specs.Entries.{code_of};
ghost use Rattle.ipe_transcript.specs.declared.transcript.Entry.TheVariants as entry;
ghost use Rattle.ipe_admin.specs.Outcomes.{IsOutcome, policies_in};
ghost use Rattle.ipe_weave.specs.Lines.{Read, told};
ghost use Rattle.ipe_weave.specs.Told.{told_entry};
ghost use Rattle.ipe_requests.specs.Rules.{IsHookOf};
ghost use Rattle.ipe_lines.specs.Asked.{asked_by, text_bytes, verdicts_of};
ghost use Rattle.ipe_workers.specs.Administering.{HasAdministered, IsWritten};
ghost use Rattle.ipe_workers.specs.Prepared.{AreAsked};

use crate::Work;
use ipe_admin::{Admin, Done, Outcome, Refusal, read_node, write_node, writes_are_lines};
use ipe_objects::Declared;
use ipe_requests::{PhaseLine, WriteContent};
use ipe_signer::Signer;
use ipe_transcript::Entry;
use ipe_weave::administrator_runs_one_more;
use ipe_words::Bytes;
use std::alloc::AllocError;

// The bytes of the text that is declared under an id.
fn text_bytes<'x>(declared: &'x Declared, id: &[u8]) -> &'x [u8]
    ensures { result.now ≡ text_bytes declared.now id.now }
{
    match declared.text(id) {
        Some(text) => text.bytes.as_slice(),
        None => &[],
    }
}

// Writes to a node what a line says. A text and digits are handed on as they are.
fn write<S: Signer>(
    work: &Work,
    signer: &S,
    admin: &mut Admin,
    may: bool,
    node: &[u8],
    content: &WriteContent,
) -> Result<Outcome, AllocError>
    requires signer { S.verdict_of signer.now ≡ verdicts_of work.now.objects.now.script }
    requires serials { (policies_in admin.old).next < 2 ^ 63 }
    ensures ok { IfOk result (IsOutcome (verdicts_of work.now.objects.now.script)
        (asked_by work.now.objects.now.script may node.now content.now) admin.old admin.new) }
    ensures err { OnErr result (admin.new ≡ admin.old) }
{
    let declared: &Declared = work.objects.declared();
    match content {
        WriteContent::Text(id) => {
            let bytes = text_bytes(declared, id.as_slice());
            write_node(work.alloc, signer, admin, node, bytes, may)
        }
        WriteContent::Echo(word) => {
            let mut bytes = word.as_slice().to_vec(work.alloc)?;
            bytes.push(b'\n')?;
            write_node(work.alloc, signer, admin, node, &bytes, may)
        }
        WriteContent::Hex(bytes) => {
            write_node(work.alloc, signer, admin, node, bytes.as_slice(), may)
        }
    }
}

// The number of a refusal's error, below 0.
fn refused_code(refusal: &Refusal) -> i32
    ensures { result ≡ neg_ℤ (pos (errno_number (errno_of refusal.now))) }
{
    -refusal.errno().number()
}

// 0, or the number of the error below 0.
fn code_of(answer: &Result<Done, Refusal>) -> i32
    ensures { result ≡ code_of answer.now }
{
    match answer {
        Ok(_) => 0,
        Err(refusal) => refused_code(refusal),
    }
}

// What is told of a write, before which the epoch was this.
fn written(phase: u32, line: u32, may: bool, before: u16, outcome: Outcome) -> Entry
    ensures { result ≡ entry.Write phase line may (code_of outcome.reply) outcome.epoch
        (not (outcome.epoch == before)) outcome.records }
{
    let Outcome {
        epoch,
        reply,
        records,
    } = outcome;
    Entry::Write {
        phase,
        line,
        may,
        code: code_of(&reply),
        epoch,
        switched: epoch != before,
        records,
    }
}

// Carries out a write, and tells it.
fn write_entry<S: Signer>(
    work: &Work,
    signer: &S,
    admin: &mut Admin,
    line: u32,
    may: bool,
    node: &[u8],
    content: &WriteContent,
) -> Result<Entry, AllocError>
    requires signer { S.verdict_of signer.now ≡ verdicts_of work.now.objects.now.script }
    requires serials { (policies_in admin.old).next < 2 ^ 63 }
    ensures ok { IfOk result (IsWritten (verdicts_of work.now.objects.now.script) work.now.phase line may
        (asked_by work.now.objects.now.script may node.now content.now) admin.old admin.new) }
    ensures err { OnErr result (admin.new ≡ admin.old) }
{
    let before = admin.registry().epoch();
    let outcome = write(work, signer, admin, may, node, content)?;
    Ok(written(work.phase, line, may, before, outcome))
}

// Reads a node, and tells it.
fn read_entry(work: &Work, admin: &Admin, line: u32, node: &[u8]) -> Result<Entry, AllocError>
    ensures { IfOk result (λ made. made
        ≡ told_entry work.now.phase None (record { number = line; task = Read node.now })
        (told (policies_in admin.now).epoch (node_read (policies_in admin.now) node.now))) }
{
    let epoch = admin.registry().epoch();
    let (code, bytes) = match read_node(work.alloc, admin, node)? {
        Ok(bytes) => (0, Some(Bytes::from_vec(bytes))),
        Err(refusal) => (refused_code(&refusal), None),
    };
    Ok(Entry::Read {
        phase: work.phase,
        line,
        code,
        epoch,
        bytes,
    })
}

// A line, which is a write or a read of the administrator's or asks nothing of it.
fn administer_line<S: Signer>(
    work: &Work,
    signer: &S,
    admin: &mut Admin,
    line: &PhaseLine,
    entries: &mut Vec<Entry>,
) -> Result<(), AllocError>
    requires signer { S.verdict_of signer.now ≡ verdicts_of work.now.objects.now.script }
    requires declared { IsHookOf work.now.objects.now.script line.now }
    requires serials { (policies_in admin.old).next < 2 ^ 63 }
    ensures { HasAdministered work.now.objects.now work.now.images.now work.now.phase (is_ok result) (line.now ∷ [])
        admin.old admin.new entries.old.items entries.new.items }
{
    writes_are_lines();
    administrator_runs_one_more();
    match line {
        PhaseLine::Write {
            line: number,
            may,
            node,
            content,
        } => {
            let node = node.as_slice();
            let entry = write_entry(work, signer, admin, *number, *may, node, content)?;
            entries.push(entry)?;
            Ok(())
        }
        PhaseLine::Read { line: number, node } => {
            let entry = read_entry(work, admin, *number, node.as_slice())?;
            entries.push(entry)?;
            Ok(())
        }
        PhaseLine::Hook { .. } => Ok(()),
    }
}

// Runs those of a phase's lines that are the administrator's own, and adds an entry for each. After out of memory it has
// run the first of its lines.
pub(crate) fn administer<S: Signer>(
    work: &Work,
    signer: &S,
    admin: &mut Admin,
    lines: &[PhaseLine],
    entries: &mut Vec<Entry>,
) -> Result<(), AllocError>
    requires signer { S.verdict_of signer.now ≡ verdicts_of work.now.objects.now.script }
    requires asked { AreAsked work.now.objects.now work.now.images.now lines.now }
    requires serials { (policies_in admin.old).next + length lines.now ≤ 2 ^ 62 }
    ensures { HasAdministered work.now.objects.now work.now.images.now work.now.phase (is_ok result) lines.now
        admin.old admin.new entries.old.items entries.new.items }
{
    for line in lines {
        administer_line(work, signer, admin, line, entries)?;
    }
    Ok(())
}
