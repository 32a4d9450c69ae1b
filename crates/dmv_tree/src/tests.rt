use super::*;
use sha2::{Digest, Sha256};
use std::test::Fail;

#[test]
fn layouts_by_hand(rt: HostRuntime) {
    let cases = [
        (1, 4096, 0, 0),
        (128, 4096, 1, 1),
        (129, 4096, 2, 3),
        (4096, 512, 3, 273),
    ];
    for (blocks, block_size, levels, hash_blocks) in cases {
        let shape = layout(blocks, block_size);
        assert_eq!(rt; shape.levels, levels, "at {blocks} of {block_size}");
        assert_eq!(rt;
            shape.hash_blocks,
            hash_blocks,
            "at {blocks} of {block_size}"
        );
    }
}

#[test]
fn one_block_is_its_own_root(rt: HostRuntime) -> Result<(), Fail> {
    let tree = build(rt.alloc(), &[0; 512], 512, &[])?;
    let root = hex::encode(rt.alloc(), tree.root())?;
    assert_eq!(rt;
        root.as_str(),
        "076a27c79e5ace2a3d47f9dd2e83e4ff6ea8872b3c2218f66c92b89b55f36560"
    );
    assert!(rt; tree.bytes().is_empty());
    Ok(())
}

// The root and the digest of the stored bytes come from Python's hashlib.
#[test]
fn seventeen_blocks_have_two_levels(rt: HostRuntime) -> Result<(), Fail> {
    let mut image = vec![in rt.alloc(); 7; 17 * 512]?;
    image[600] = 1;
    image[8703] = 2;
    let tree = build(rt.alloc(), &image, 512, b"salt")?;
    let root = hex::encode(rt.alloc(), tree.root())?;
    assert_eq!(rt;
        root.as_str(),
        "19d8035ce2b3c7fc998461fa68f328667fc900cf5c03a96ea0856bbe19501cc9"
    );
    assert_eq!(rt; tree.bytes().len(), 1536);
    let stored = hex::encode(rt.alloc(), Sha256::digest(tree.bytes()))?;
    assert_eq!(rt;
        stored.as_str(),
        "0c47b196ed51400451f5ee04239b05592812cba6c482832b74f23b29c31ee561"
    );
    Ok(())
}
