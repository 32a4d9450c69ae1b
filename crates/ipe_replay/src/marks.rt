ghost use Rattle.std.specs.Prelude.{◌≡◌, IfOk, None, map, replicate};
ghost use Rattle.sha2.specs.Sha256.{sha256};
ghost use Rattle.ipe_lines.specs.Asked.{digest_of, mark_of, marks_of, purpose_of, says, text_bytes};
ghost use Rattle.ipe_replay.specs.Digests.{AreDigests, bytes_at};

use ipe_objects::Declared;
use ipe_policy::DigestBytes;
use ipe_requests::{MarkDigest, MarkLine, MarkPurpose, MarkVerdict, Requests};
use ipe_signer::{Mark, Marks, Purpose, TrustList, Verdict};
use sha2::{Digest, Sha256};
use std::alloc::{AllocError, Global};

fn purpose_of(purpose: MarkPurpose) -> Purpose
    ensures { result ≡ purpose_of purpose }
{
    match purpose {
        MarkPurpose::Policy => Purpose::Policy,
        MarkPurpose::Root => Purpose::Root,
        MarkPurpose::File => Purpose::File,
    }
}

fn says(verdict: MarkVerdict) -> Verdict
    ensures { result ≡ says verdict }
{
    match verdict {
        MarkVerdict::Trusted => Verdict::Trusted,
        MarkVerdict::Unknown => Verdict::Unknown,
        MarkVerdict::Revoked => Verdict::Revoked,
    }
}

fn sha256_of(text: &[u8]) -> DigestBytes
    ensures { result ≡ sha256 text.now }
{
    let digest = Sha256::digest(text);
    DigestBytes::read(&digest).unwrap()
}

fn bytes_at<'x>(declared: &'x Declared, place: usize) -> &'x [u8]
    ensures { result.now ≡ bytes_at declared.now place }
{
    match declared.texts().get(place) {
        Some(text) => text.bytes.as_slice(),
        None => &[],
    }
}

// The digest of the text at a place, which is found once. A place beyond the texts has the digest of no bytes.
#[tactic(auto, using(crate::proofs::DigestLemmas::one_more))]
fn text_digest_at(
    declared: &Declared,
    known: &mut [Option<DigestBytes>],
    place: usize,
) -> Result<DigestBytes, AllocError>
    requires { AreDigests declared.now known.old }
    ensures digest { IfOk result (λ bytes. bytes ≡ sha256 (bytes_at declared.now place)) }
    ensures known { AreDigests declared.now known.new }
{
    if let Some(Some(digest)) = known.get(place) {
        return digest.clone();
    }
    let digest = sha256_of(bytes_at(declared, place));
    let copy = digest.clone()?;
    if place < known.len() {
        known[place] = Some(copy);
    }
    Ok(digest)
}

// The digest of the text of an id.
fn text_digest_of(
    declared: &Declared,
    known: &mut [Option<DigestBytes>],
    id: &[u8],
) -> Result<DigestBytes, AllocError>
    requires { AreDigests declared.now known.old }
    ensures digest { IfOk result (λ bytes. bytes ≡ sha256 (text_bytes declared.now id.now)) }
    ensures known { AreDigests declared.now known.new }
{
    match declared.text_place(id) {
        Some(place) => text_digest_at(declared, known, place),
        None => Ok(sha256_of(&[])),
    }
}

fn digest_of(
    declared: &Declared,
    known: &mut [Option<DigestBytes>],
    digest: &MarkDigest,
) -> Result<DigestBytes, AllocError>
    requires { AreDigests declared.now known.old }
    ensures digest { IfOk result (λ bytes. bytes ≡ digest_of declared.now digest.now) }
    ensures known { AreDigests declared.now known.new }
{
    match digest {
        MarkDigest::Text(id) => text_digest_of(declared, known, id.as_slice()),
        MarkDigest::Hex(bytes) => bytes.clone(),
    }
}

fn mark_of(
    declared: &Declared,
    known: &mut [Option<DigestBytes>],
    mark: &MarkLine,
) -> Result<Mark, AllocError>
    requires { AreDigests declared.now known.old }
    ensures mark { IfOk result (λ made. made ≡ mark_of declared.now mark.now) }
    ensures known { AreDigests declared.now known.new }
{
    Ok(Mark {
        purpose: purpose_of(mark.purpose),
        verdict: says(mark.verdict),
        digest: digest_of(declared, known, &mark.digest)?,
    })
}

// No digest is known yet.
fn no_digests(alloc: Global, texts: usize) -> Result<Vec<Option<DigestBytes>>, AllocError>
    ensures { IfOk result (λ known. known.items ≡ replicate texts None) }
{
    let mut known = Vec::with_capacity(alloc, texts)?;
    for _ in 0..texts {
        known.push(None)?;
    }
    Ok(known)
}

// The signer that the lines of marks are. A text is hashed when a mark first names it, and once.
#[tactic(auto, using(crate::proofs::DigestLemmas::none_known))]
fn signer_by(
    alloc: Global,
    declared: &Declared,
    lines: &[MarkLine],
) -> Result<TrustList, AllocError>
    ensures { IfOk result (λ signer. signer ≡ map (mark_of declared.now) lines.now) }
{
    let mut known = no_digests(alloc, declared.texts().len())?;
    let mut marks = Vec::new(alloc);
    for line in lines {
        marks.push(mark_of(declared, &mut known, line)?)?;
    }
    TrustList::new(alloc, Marks::from_vec(marks))
}

// The signer that a request file's marks are.
pub(crate) fn signer_of(alloc: Global, requests: &Requests) -> Result<TrustList, AllocError>
    ensures { IfOk result (λ signer. signer ≡ marks_of requests.now) }
{
    let declared = Declared::of(alloc, requests)?;
    signer_by(alloc, &declared, requests.marks.as_slice())
}
