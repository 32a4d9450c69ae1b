use super::*;
use ipe_policy::{AlgName, Digest, DigestBytes};
use ipe_signer::{Mark, Marks, Purpose, TrustList, Verdict};
use std::test::Fail;

fn digest_of(byte: u8) -> Result<Digest, Fail> {
    Ok(Digest {
        alg: AlgName::read(b"sha256").ok_or("an algorithm")?,
        bytes: DigestBytes::read(&[byte; 32]).ok_or("a digest")?,
    })
}

#[test]
fn a_root_and_a_file_are_trusted_apart(rt: HostRuntime) -> Result<(), Fail> {
    let mut marks = Vec::new(rt.alloc());
    for (purpose, byte) in [(Purpose::Root, 1), (Purpose::File, 2)] {
        marks.push(Mark {
            purpose,
            verdict: Verdict::Trusted,
            digest: digest_of(byte)?.bytes,
        })?;
    }
    let signer = TrustList::new(rt.alloc(), Marks::from_vec(marks))?;
    for (byte, volume, file) in [(1, true, false), (2, false, true), (3, false, false)] {
        let digest = digest_of(byte)?;
        assert_eq!(rt; dm_props(&signer, &digest, true).signed, volume);
        assert!(rt; !dm_props(&signer, &digest, false).signed);
        assert_eq!(rt; fs_props(&signer, &digest).signed, file);
    }
    Ok(())
}
