use super::*;
use sha2::{Digest, Sha256};
use std::test::Fail;

const SALT: [u8; 8] = [1, 2, 3, 4, 5, 6, 7, 8];

// A known value: `fsverity measure` of an empty file.
#[test]
fn an_empty_file(rt: HostRuntime) -> Result<(), Fail> {
    let measured = measure_bytes(rt.alloc(), &[], 4096, &[])?;
    let digest = hex::encode(rt.alloc(), measured.descriptor().digest())?;
    assert_eq!(rt;
        digest.as_str(),
        "3d248ca542a24fc62d1c43b916eae5016878e2533c88238480b26128a1f1af95"
    );
    assert!(rt; measured.tree().is_empty());
    Ok(())
}

// The digests of the other files come from Python's hashlib, over blocks that are cut and filled there.
#[test]
fn a_short_block_after_a_salt(rt: HostRuntime) -> Result<(), Fail> {
    let measured = measure_bytes(rt.alloc(), b"hello\n", 1024, &SALT)?;
    let digest = hex::encode(rt.alloc(), measured.descriptor().digest())?;
    assert_eq!(rt;
        digest.as_str(),
        "8aa217b75b8db286240effcd74babc284694f9a68695be37d576ae2caa5db2e7"
    );
    assert!(rt; measured.tree().is_empty());
    Ok(())
}

#[test]
fn two_blocks_have_one_above(rt: HostRuntime) -> Result<(), Fail> {
    let measured = measure_bytes(rt.alloc(), &[0; 1025], 1024, &[])?;
    let digest = hex::encode(rt.alloc(), measured.descriptor().digest())?;
    assert_eq!(rt;
        digest.as_str(),
        "52758078de7bba1d5099f3ed82bb66a7f0e7543b8115c335884f9b68ec537e9d"
    );
    assert_eq!(rt; measured.tree().len(), 1024);
    assert_eq!(rt; measured.descriptor().blocks(), 2);
    assert_eq!(rt; measured.descriptor().tree_blocks(), 1);
    Ok(())
}

#[test]
fn forty_blocks_have_two_levels(rt: HostRuntime) -> Result<(), Fail> {
    let file = vec![in rt.alloc(); 0; 40_000]?;
    let measured = measure_bytes(rt.alloc(), &file, 1024, &[])?;
    let digest = hex::encode(rt.alloc(), measured.descriptor().digest())?;
    assert_eq!(rt;
        digest.as_str(),
        "954af275baf515bf97e1e48fa36f44da7193d64503a73bfce13060b5cfbccbec"
    );
    let tree = hex::encode(rt.alloc(), Sha256::digest(measured.tree()))?;
    assert_eq!(rt;
        tree.as_str(),
        "a4acfabc720358e381e2a28ef95758379e74df1fe2bff3cf3cb589a6cf1c186d"
    );
    assert_eq!(rt; measured.descriptor().tree_blocks(), 3);
    Ok(())
}

#[test]
fn what_is_written_is_read(rt: HostRuntime) -> Result<(), Fail> {
    let measured = measure_bytes(rt.alloc(), b"hello\n", 1024, &SALT)?;
    let bytes = measured.descriptor().write();
    let descriptor = Descriptor::read(&bytes, 6)
        .ok()
        .ok_or("a descriptor is read")?;
    assert_eq!(rt; descriptor.block_size(), 1024);
    assert_eq!(rt; descriptor.size(), 6);
    assert_eq!(rt; descriptor.salt(), SALT.as_slice());
    assert_eq!(rt; descriptor.root(), measured.descriptor().root());
    Ok(())
}

#[test]
fn the_byte_that_is_wrong(rt: HostRuntime) -> Result<(), Fail> {
    let measured = measure_bytes(rt.alloc(), b"hello\n", 1024, &SALT)?;
    let good = measured.descriptor().write();
    let cases: [(u8, u8, u16); 11] = [
        (0, 2, 0),
        (1, 2, 1),
        (2, 9, 2),
        (3, 33, 3),
        (4, 1, 4),
        (8, 7, 8),
        (15, 1, 8),
        (48, 1, 48),
        (88, 1, 88),
        (112, 1, 112),
        (255, 1, 255),
    ];
    for (place, value, named) in cases {
        let mut bytes = good;
        bytes[usize::from(place)] = value;
        let fault = Descriptor::read(&bytes, 6).err();
        assert_eq!(rt; fault, Some(BadDescriptor { byte: named }), "at {place}");
    }
    Ok(())
}
