ghost use Rattle.std.specs.Prelude.{◌≡◌, List, ℕ, IfOk, OnOk, if◌then◌else◌};
ghost use Rattle.line_words.specs.Words.{is_text};
ghost use Rattle.ipe_signer.specs.Marks.{last_verdict, verdict_at};

use crate::{Purpose, Signer, Verdict};
use indexmap::IndexMap;
use ipe_policy::DigestBytes;
use line_words::Items;
use std::alloc::{AllocError, Global};
use std::marker::Model;

/// A verdict on a digest as a thing of a purpose.
#[derive(Debug, Drop)]
pub struct Mark {
    pub purpose: Purpose,
    pub verdict: Verdict,
    pub digest: DigestBytes,
}

/// Marks, in the order in which they were made.
pub type Marks = Items<Mark>;

// The verdicts on digests as things of one purpose.
type ByDigest = IndexMap<Vec<u8>, Verdict>;

/// A signer that is a list of marks: the last one of a purpose and digest decides, and without one the verdict is
/// Unknown. A verdict is found by one look-up, however many marks there are.
#[derive(Debug, Drop)]
pub struct TrustList {
    marks: Marks,
    policies: ByDigest,
    roots: ByDigest,
    files: ByDigest,
}

impl Model for TrustList {
    ghost use Rattle.std.specs.Prelude.{◌≡◌, List, ℕ};
    ghost use Rattle.ipe_signer.specs.declared.signer.Purpose.TheVariants.{Policy, Root, File};
    ghost use Rattle.ipe_signer.specs.declared.trust_list.Mark.{Mark};
    ghost use Rattle.ipe_signer.specs.Marks.{last_verdict, verdict_at};

    ghost Value = { List Mark };

    ghost view = { λ s. s.marks };

    ghost invariant = { λ s. ((digest : List ℕ) → verdict_at s.policies.entries digest ≡ last_verdict s.marks Policy digest)
        × ((digest : List ℕ) → verdict_at s.roots.entries digest ≡ last_verdict s.marks Root digest)
        × ((digest : List ℕ) → verdict_at s.files.entries digest ≡ last_verdict s.marks File digest) };
}

fn note(alloc: Global, verdicts: &mut ByDigest, mark: &Mark) -> Result<(), AllocError>
    ensures { OnOk result ((digest : List ℕ) → verdict_at verdicts.new.entries digest
        ≡ (if is_text digest mark.now.digest then mark.now.verdict else verdict_at verdicts.old.entries digest)) }
{
    verdicts.insert(mark.digest.as_slice().to_vec(alloc)?, mark.verdict)?;
    Ok(())
}

// The verdicts of the marks of this purpose.
fn verdicts_of(alloc: Global, marks: &[Mark], purpose: Purpose) -> Result<ByDigest, AllocError>
    ensures { IfOk result (λ verdicts. (digest : List ℕ) →
        verdict_at verdicts.entries digest ≡ last_verdict marks.now purpose digest) }
{
    let mut verdicts = IndexMap::new(alloc);
    for mark in marks {
        if mark.purpose == purpose {
            note(alloc, &mut verdicts, mark)?;
        }
    }
    Ok(verdicts)
}

impl TrustList {
    /// The signer of these marks.
    pub fn new(alloc: Global, marks: Marks) -> Result<TrustList, AllocError>
        ensures { IfOk result (λ list. list ≡ marks) }
    {
        Ok(TrustList {
            policies: verdicts_of(alloc, marks.as_slice(), Purpose::Policy)?,
            roots: verdicts_of(alloc, marks.as_slice(), Purpose::Root)?,
            files: verdicts_of(alloc, marks.as_slice(), Purpose::File)?,
            marks,
        })
    }
}

// The verdict on a digest; Unknown where there is none.
fn found(verdicts: &ByDigest, digest: &[u8]) -> Verdict
    ensures { result ≡ verdict_at verdicts.now.entries digest.now }
{
    verdicts.get(digest).copied().unwrap_or(Verdict::Unknown)
}

impl Signer for TrustList {
    ghost use Rattle.ipe_signer.specs.Marks.{last_verdict};

    ghost verdict_of = { last_verdict };

    fn verdict(&self, purpose: Purpose, digest: &[u8]) -> Verdict {
        match purpose {
            Purpose::Policy => found(&self.policies, digest),
            Purpose::Root => found(&self.roots, digest),
            Purpose::File => found(&self.files, digest),
        }
    }
}
