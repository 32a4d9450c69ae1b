// What a hook of a line is answered, and what is told of it.
ghost use Rattle.std.specs.Prelude.{◌≡◌, ◌<◌, ◌^◌, List, IfOk};
ghost use Rattle.ipe_policy.specs.Request.{evaluated_op};
ghost use Rattle.ipe_gate_rule.specs.declared.event.Event.{Event};
ghost use Rattle.ipe_gate.specs.Seats.{calls_made, slot_held};
ghost use Rattle.ipe_hooks.specs.Hooks.{IsHookFor};
ghost use Rattle.ipe_hooks.specs.Law.{machine_ruling};
ghost use Rattle.ipe_requests.specs.Known.{reads_file};
ghost use Rattle.ipe_requests.specs.Rules.{IsPathOf};
ghost use Rattle.ipe_objects.specs.Ready.{tables_of};
ghost use Rattle.ipe_lines.specs.Asked.{access_of, context_at, no_context, object_at};
ghost use Rattle.ipe_lines.specs.Told.{content_after};
ghost use Rattle.ipe_workers.specs.Prepared.{ArePrepared, files_in};
ghost use Rattle.ipe_workers.specs.Ruled.{IsRuled, hook_told, recorded};

use crate::Work;
use ipe_audit::{LineBytes, access_line};
use ipe_gate::Pass;
use ipe_hooks::hook;
use ipe_image::{Ruling, images_are_read_as_themselves};
use ipe_machine::Place;
use ipe_objects::{Declared, Objects, View, read_file};
use ipe_policy::{Context, DevName, Object, PathName, Request, Subject};
use ipe_requests::{FileForm, FilePath};
use ipe_transcript::{Content, Entry};
use std::alloc::AllocError;

// The context of the file of a hook's path; `none` without a path, or where its file isn't declared.
fn context_at<'x>(work: &'x Work<'_>, path: &Option<FilePath>, none: &'x Context) -> &'x Context
    requires prepared { ArePrepared work.now.objects.now work.now.images.now }
    requires none { none.now ≡ no_context }
    ensures { result.now ≡ context_at (files_in work.now.objects.now work.now.images.now) path.now }
{
    let objects: &Objects = work.objects;
    match path {
        Some(path) => match objects.context_of(path.as_slice()) {
            Some(context) => context,
            None => none,
        },
        None => none,
    }
}

// The gate's ruling on a hook, in the context of its file.
pub(crate) fn ask(
    work: &Work,
    pass: &mut Pass,
    request: &Request,
    path: &Option<FilePath>,
) -> Ruling
    requires prepared { ArePrepared work.now.objects.now work.now.images.now }
    requires free { slot_held pass.old ≡ 0 }
    requires few { calls_made pass.old < 2 ^ 35 }
    ensures { IsHookFor (evaluated_op request.now) pass.old pass.new
        (context_at (files_in work.now.objects.now work.now.images.now) path.now) result }
{
    let none = Context::none();
    let context = context_at(work, path, &none);
    hook(pass, request, context)
}

fn file_object(path: &PathName, dev: &DevName, ino: u64) -> Result<Object, AllocError>
    ensures { IfOk result (λ object. object ≡ Object.File path.now dev.now ino) }
{
    Ok(Object::File {
        path: path.clone()?,
        dev: dev.clone()?,
        ino,
    })
}

// What a hook of a path is about.
fn object_at(work: &Work, path: &Option<FilePath>) -> Result<Object, AllocError>
    ensures { IfOk result
        (λ object. object ≡ object_at (files_in work.now.objects.now work.now.images.now) path.now) }
{
    let Some(path) = path else {
        return Ok(Object::NoFile);
    };
    let declared: &Declared = work.objects.declared();
    let Some(file) = declared.file(path.as_slice()) else {
        return Ok(Object::NoFile);
    };
    let name = file.path.name();
    match &file.form {
        FileForm::Boot { dev, ino, .. } => file_object(name, dev, *ino),
        FileForm::Volume { volume, ino, .. } => file_object(name, volume, *ino),
        FileForm::Plain { dev, ino, .. } => file_object(name, dev, *ino),
    }
}

// The record of an access, where one is due. What the hook's own claim found decided it.
pub(crate) fn record_of(
    work: &Work,
    request: Request,
    subject: &Subject,
    path: &Option<FilePath>,
    ruling: &Ruling,
) -> Result<Option<LineBytes>, AllocError>
    requires { (before : List Event) × IsRuled before
        (access_of (files_in work.now.objects.now work.now.images.now) request subject.now path.now) ruling.now }
    ensures { (before : List Event) → IsRuled before
        (access_of (files_in work.now.objects.now work.now.images.now) request subject.now path.now) ruling.now →
        IfOk result (λ made. made ≡ recorded before
        (access_of (files_in work.now.objects.now work.now.images.now) request subject.now path.now)) }
{
    images_are_read_as_themselves();
    if !ruling.record_due {
        return Ok(None);
    }
    let Some(op) = request.op() else {
        return Ok(None);
    };
    let Some(hit) = &ruling.hit else {
        return Ok(None);
    };
    let object = object_at(work, path)?;
    let enforce = ruling.enforce;
    let line = access_line(
        work.alloc,
        op,
        request.hook(),
        enforce,
        subject,
        &object,
        hit,
    )?;
    Ok(Some(LineBytes::from_vec(line)))
}

// A program check and a kernel read read the file.
fn reads_file(request: Request) -> bool
    ensures { result ≡ reads_file request }
{
    matches!(request, Request::ExecCheck | Request::KernelRead(_))
}

// What the file of a hook's path comes to, where it is read after a ruling.
pub(crate) fn content_after(
    work: &Work,
    view: &mut View,
    request: Request,
    path: &Option<FilePath>,
    ruling: &Ruling,
) -> Result<Option<Content>, AllocError>
    requires prepared { ArePrepared work.now.objects.now work.now.images.now }
    requires declared { IsPathOf work.now.objects.now.script path.now }
    requires view { view.old ≡ tables_of work.now.objects.now.script }
    ensures content { (subject : _) → IfOk result (λ content. content ≡
        content_after (files_in work.now.objects.now work.now.images.now)
        (access_of (files_in work.now.objects.now work.now.images.now) request subject path.now)
        (machine_ruling ruling.now)) }
    ensures same { view.new ≡ view.old }
{
    let Some(path) = path else {
        return Ok(None);
    };
    if !reads_file(request) || ruling.code != 0 {
        return Ok(None);
    }
    let content = read_file(work.alloc, work.objects, work.images, view, path.as_slice())?;
    Ok(Some(content))
}

// What is told of a hook of a worker with its ruling, its record, and what its file came to.
pub(crate) fn hook_told(
    phase: u32,
    line: u32,
    worker: u32,
    ruling: &Ruling,
    access: Option<LineBytes>,
    content: Option<Content>,
) -> Entry
    ensures { result ≡ hook_told phase line worker ruling.now access content }
{
    Entry::Hook {
        phase,
        line,
        worker,
        code: ruling.code,
        place: ruling.place.map(|place| Place {
            epoch: place.epoch,
            count: place.count,
        }),
        serial: ruling.hit.as_ref().map(|hit| hit.serial),
        by: ruling.hit.as_ref().map(|hit| hit.found.which),
        access,
        content,
    }
}
