ghost use Rattle.std.specs.Prelude.{◌≡◌, true, IfOk, Some};
ghost use Rattle.ipe_image.specs.Image.{image_of};
ghost use Rattle.ipe_image.specs.Reader.{filled};
ghost use Rattle.ipe_image.specs.Reading.{image_in};
ghost use Rattle.ipe_records.specs.Records.{access_of, is_access_due};
ghost use Rattle.ipe_records.specs.Ruled.{IsImageOf, IsKept, IsRuledBy, parts_in};

use ipe_audit::{LineBytes, access_line};
use ipe_image::{CompileError, Hit, Image, SliceReader, compile, decide_words};
use ipe_policy::{Context, Object, Op, Request, Subject};
use ipe_registry::{Entry, Registry};
use std::alloc::{AllocError, Global};

/// The image of a loaded policy, which isn't too wide, with its serial.
pub fn image_of(alloc: Global, entry: &Entry) -> Result<Image, AllocError>
    ensures image { IfOk result (λ image. image ≡ image_of (parts_in entry.now)) }
    ensures told { IfOk result (λ image. image_in image ≡ Some (parts_in entry.now)) }
    ensures filled { IfOk result (λ image. image_in (filled 4096 image) ≡ Some (parts_in entry.now)) }
{
    match compile(alloc, &entry.policy, entry.serial) {
        Ok(image) => Ok(image),
        Err(CompileError::NoMemory) => Err(AllocError),
        Err(CompileError::TooWide { .. }) => unreachable!(),
    }
}

// The image that is kept, or else the policy's, compiled.
fn kept_or_made(alloc: Global, kept: Option<Image>, entry: &Entry) -> Result<Image, AllocError>
    requires { IsImageOf entry.now kept }
    ensures { IfOk result (λ image. image_in (filled 4096 image) ≡ Some (parts_in entry.now)) }
{
    match kept {
        Some(image) => Ok(image),
        None => image_of(alloc, entry),
    }
}

// What a policy's image answers. The image is kept for the next record.
fn hit_of(
    alloc: Global,
    kept: &mut Option<Image>,
    entry: &Entry,
    op: Op,
    context: &Context,
) -> Result<Hit, AllocError>
    requires { IsImageOf entry.now kept.old }
    ensures hit { IfOk result (IsRuledBy entry.now op context.now) }
    ensures kept { IsImageOf entry.now kept.new }
{
    let image = kept_or_made(alloc, kept.take(), entry)?;
    let mut reader = SliceReader::new(image.words());
    let hit = decide_words(&mut reader, op, context);
    *kept = Some(image);
    Ok(hit)
}

/// The record of an access that is due on these policies. The image of the active policy is taken from `kept`, or
/// compiled and kept there for the next record.
pub fn access_record(
    alloc: Global,
    registry: &Registry,
    kept: &mut Option<Image>,
    request: Request,
    subject: &Subject,
    object: &Object,
    context: &Context,
) -> Result<Option<LineBytes>, AllocError>
    requires kept { IsKept registry.now kept.old }
    requires due { is_access_due registry.now request context.now ≡ true }
    ensures access { IfOk result (λ access. access ≡
        access_of registry.now request subject.now object.now context.now) }
    ensures kept { IsKept registry.now kept.new }
{
    let (Some(op), Some(entry)) = (request.op(), registry.active_entry()) else {
        return Ok(None);
    };
    let hit = hit_of(alloc, kept, entry, op, context)?;
    let enforce = registry.enforce();
    let line = access_line(alloc, op, request.hook(), enforce, subject, object, &hit)?;
    Ok(Some(LineBytes::from_vec(line)))
}
