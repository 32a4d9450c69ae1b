ghost use Rattle.std.specs.Prelude.{◌≡◌, List, ℕ};
ghost use Rattle.ipe_signer.specs.declared.signer.Purpose.{Purpose};
ghost use Rattle.ipe_signer.specs.declared.signer.Verdict.{Verdict};

/// What a digest is asked about as.
#[derive(Clone, Copy, Debug, PartialEq, Eq)]
pub enum Purpose {
    Policy,
    Root,
    File,
}

/// What a signer says of a digest.
#[derive(Clone, Copy, Debug, PartialEq, Eq)]
pub enum Verdict {
    Trusted,
    Unknown,
    Revoked,
}

/// One who vouches for digests. It has one verdict for each purpose and digest, which no call changes.
pub trait Signer {
    ghost verdict_of: { Self → Purpose → List ℕ → Verdict };

    /// The verdict on a digest as a thing of this purpose.
    fn verdict(&self, purpose: Purpose, digest: &[u8]) -> Verdict
        ensures { result ≡ verdict_of self.now purpose digest.now };
}
