ghost use Rattle.std.specs.Prelude.{◌≡◌};
ghost use Rattle.ipe_signer.specs.declared.signer.Purpose;
ghost use Rattle.ipe_props.specs.Signedness.{is_trusted, signed_volume, signed_file};

use ipe_policy::{Digest, Signed};
use ipe_signer::{Purpose, Signer, Verdict};

fn is_trusted(verdict: Verdict) -> bool
    ensures { result ≡ is_trusted verdict }
{
    matches!(verdict, Verdict::Trusted)
}

/// The dm-verity part of the context of a file whose volume has this root: the volume is signed where its table has the
/// option `root_hash_sig_key_desc` and the signer trusts the root.
pub fn dm_props<S: Signer>(signer: &S, root: &Digest, has_option: bool) -> Signed
    ensures digest { result.digest ≡ root.now }
    ensures signed { result.signed ≡ signed_volume (S.verdict_of signer.now) root.now has_option }
{
    Signed {
        digest: root.clone().unwrap(),
        signed: has_option && is_trusted(signer.verdict(Purpose::Root, root.bytes.as_slice())),
    }
}

/// The fs-verity part of the context of a file with this digest: the file is signed where the signer trusts the digest.
pub fn fs_props<S: Signer>(signer: &S, digest: &Digest) -> Signed
    ensures digest { result.digest ≡ digest.now }
    ensures signed { result.signed ≡ signed_file (S.verdict_of signer.now) digest.now }
{
    Signed {
        digest: digest.clone().unwrap(),
        signed: is_trusted(signer.verdict(Purpose::File, digest.bytes.as_slice())),
    }
}
