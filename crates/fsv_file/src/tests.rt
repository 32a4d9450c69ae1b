ghost use Rattle.std.specs.Prelude.{◌≡◌, codes};

use super::*;
use blk_device::{
    DevError, Devices, ImageDevices, MemoryDevices, NamedBytes, VerityError, has_at_least,
};
use fsv_tree::{Descriptor, Measured, measure_bytes};
use ipe_words::Bytes;
use std::alloc::{AllocError, Global};
use std::test::Fail;

// A device that holds a file's descriptor, and then its stored tree.
fn sealed(alloc: Global, measured: &Measured) -> Result<Vec<u8>, AllocError> {
    let mut bytes = measured.descriptor().write().to_vec(alloc)?;
    bytes.extend_from_slice(measured.tree())?;
    Ok(bytes)
}

fn named(alloc: Global, bytes: Vec<u8>) -> Result<NamedBytes, AllocError> {
    let mut items = Vec::new(alloc);
    let name = Bytes::from_vec(b"seal".to_vec(alloc)?);
    items.push((name, Bytes::from_vec(bytes)))?;
    Ok(NamedBytes::from_vec(items))
}

// Checks a block where the device is large enough, or isn't there, after a call that asks for its size.
fn check<D: Devices>(
    devices: &mut D,
    descriptor: &Descriptor,
    file: &mut FsvFile,
    block: &[u8],
    i: u64,
) -> Option<Result<(), VerityError>>
    requires same_file { file.old.descriptor ≡ descriptor.now }
    requires seal { file.old.device ≡ codes "seal" }
    ensures descriptor { file.new.descriptor ≡ file.old.descriptor }
    ensures device { file.new.device ≡ file.old.device }
{
    if i >= descriptor.blocks() || block.len() != descriptor.block_size() as usize {
        return None;
    }
    match has_at_least(devices, b"seal", file.tree_end()) {
        Ok(true) | Err(DevError::Missing) => Some(file.check_block(devices, block, i)),
        Ok(false) | Err(DevError::Failed) => None,
    }
}

// Turns one bit of the byte at a place.
fn flip(bytes: &mut Vec<u8>, place: usize) {
    if let Some(byte) = bytes.get_mut(place) {
        *byte ^= 1;
    }
}

fn corrupt(level: u8, block: u64) -> Option<Result<(), VerityError>> {
    Some(Err(VerityError::Corrupt { level, block }))
}

// Two blocks of 1,024 zeros, of which the file has 1,025 bytes, and one hash block above them.
#[test]
fn blocks_are_checked_over_one_level(rt: HostRuntime) -> Result<(), Fail> {
    let alloc = rt.alloc();
    let measured = measure_bytes(alloc, &[0; 1025], 1024, &[])?;
    let descriptor = measured.descriptor();
    let mut file = FsvFile::attach(alloc, descriptor, b"seal", 256)?;
    assert_eq!(rt; file.tree_end(), 1280);

    let disk = sealed(alloc, &measured)?;
    let fine = named(alloc, disk.clone()?)?;
    let mut devices = ImageDevices::new(&fine);
    let zeros = [0; 1024];
    let mut other = [0; 1024];
    other[0] = 1;
    assert_eq!(rt;
        check(&mut devices, descriptor, &mut file, &zeros, 1),
        Some(Ok(()))
    );
    assert_eq!(rt;
        check(&mut devices, descriptor, &mut file, &other, 1),
        corrupt(0, 1)
    );

    let mut flipped = disk;
    flip(&mut flipped, 256);
    let bad = named(alloc, flipped)?;
    let mut devices = ImageDevices::new(&bad);
    assert_eq!(rt;
        check(&mut devices, descriptor, &mut file, &zeros, 1),
        corrupt(1, 0)
    );
    Ok(())
}

// Forty blocks have one hash block on top, over two of the level below it. Byte 2,304 is the first of the second of these,
// which stands over blocks 32 to 39.
#[test]
fn a_bad_hash_block_spoils_the_blocks_below_it_alone(rt: HostRuntime) -> Result<(), Fail> {
    let alloc = rt.alloc();
    let bytes = vec![in alloc; 7; 40960]?;
    let measured = measure_bytes(alloc, &bytes, 1024, &[1, 2, 3])?;
    let descriptor = measured.descriptor();
    let mut file = FsvFile::attach(alloc, descriptor, b"seal", 256)?;
    let mut disk = sealed(alloc, &measured)?;
    flip(&mut disk, 2304);
    let items = named(alloc, disk)?;
    let mut devices = ImageDevices::new(&items);
    let block = [7; 1024];
    let below_the_good_one = check(&mut devices, descriptor, &mut file, &block, 31);
    assert_eq!(rt; below_the_good_one, Some(Ok(())));
    let below_the_bad_one = check(&mut devices, descriptor, &mut file, &block, 32);
    assert_eq!(rt; below_the_bad_one, corrupt(1, 1));
    Ok(())
}

#[test]
fn a_failed_read_is_no_answer(rt: HostRuntime) -> Result<(), Fail> {
    let alloc = rt.alloc();
    let measured = measure_bytes(alloc, &[0; 1025], 1024, &[])?;
    let descriptor = measured.descriptor();
    let mut file = FsvFile::attach(alloc, descriptor, b"seal", 256)?;
    let zeros = [0; 1024];

    // The second call is the first that reads.
    let plan = vec![in alloc; 2]?;
    let mut devices = MemoryDevices::new(named(alloc, sealed(alloc, &measured)?)?, plan);
    let failed = Some(Err(VerityError::DeviceFault));
    assert_eq!(rt;
        check(&mut devices, descriptor, &mut file, &zeros, 0),
        failed
    );
    assert_eq!(rt;
        check(&mut devices, descriptor, &mut file, &zeros, 0),
        Some(Ok(()))
    );

    let mut none = MemoryDevices::new(NamedBytes::from_vec(Vec::new(alloc)), Vec::new(alloc));
    let missing = Some(Err(VerityError::Missing));
    assert_eq!(rt; check(&mut none, descriptor, &mut file, &zeros, 0), missing);
    Ok(())
}
