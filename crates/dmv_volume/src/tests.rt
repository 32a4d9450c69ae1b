ghost use Rattle.blk_device.specs.Contents.{HasAtLeast};
ghost use Rattle.std.specs.Prelude.{◌≡◌, IfOk, IsTrue, length};

use super::*;
use blk_device::{
    DevError, Devices, ImageDevices, MemoryDevices, NamedBytes, VerityError, has_at_least,
};
use ipe_words::Bytes;
use std::alloc::{AllocError, Global};
use std::test::Fail;

// Four blocks of 512 bytes, byte k of which is k % 251. The root comes from Python's hashlib.
const FOUR: &str =
    "1 data hash 512 512 4 0 sha256 13c4f78cd533533f4c1a8b311386681f0e2091f5cef8fb785db62ed43beeb145 -";

fn pattern(alloc: Global) -> Result<Vec<u8>, AllocError>
    ensures { IfOk result (λ image. length image.items ≡ 2048) }
{
    let mut image = vec![in alloc; 0; 2048]?;
    for (k, byte) in image.iter_mut().enumerate() {
        *byte = (k % 251) as u8;
    }
    Ok(image)
}

fn hashes(alloc: Global, image: &[u8]) -> Result<Vec<u8>, AllocError>
    requires { length image.now ≡ 2048 }
{
    let tree = dmv_tree::build(alloc, image, 512, &[])?;
    tree.bytes().to_vec(alloc)
}

fn named(alloc: Global, data: Vec<u8>, hashes: Vec<u8>) -> Result<NamedBytes, AllocError> {
    let mut items = Vec::new(alloc);
    let name = Bytes::from_vec(b"data".to_vec(alloc)?);
    items.push((name, Bytes::from_vec(data)))?;
    let name = Bytes::from_vec(b"hash".to_vec(alloc)?);
    items.push((name, Bytes::from_vec(hashes)))?;
    Ok(NamedBytes::from_vec(items))
}

// Whether a device has so many bytes, or isn't there.
fn has_room<D: Devices>(devices: &mut D, name: &[u8], need: u64) -> bool
    ensures room { IsTrue result → HasAtLeast (D.contents devices.old) name.now need }
    ensures same { D.contents devices.new ≡ D.contents devices.old }
{
    matches!(
        has_at_least(devices, name, need),
        Ok(true) | Err(DevError::Missing)
    )
}

// Reads a block where both devices are large enough, after two calls that ask for their sizes.
fn read<D: Devices>(
    devices: &mut D,
    table: &Table,
    volume: &mut Volume,
    i: u64,
    out: &mut [u8],
) -> Option<Result<(), VerityError>>
    requires table { volume.old.table ≡ table.now }
    ensures same { volume.new ≡ record volume.old { path = volume.new.path } }
{
    let size = u64::from(table.block_size());
    let hashes = table.hash_start() + table.hash_blocks();
    if i >= table.blocks() || out.len() as u64 != size {
        return None;
    }
    if !has_room(devices, table.device(), table.blocks() * size) {
        return None;
    }
    if !has_room(devices, table.hash_device(), hashes * size) {
        return None;
    }
    Some(volume.read_block(devices, i, out))
}

// What is answered of each of the four blocks.
fn answers(
    alloc: Global,
    data: Vec<u8>,
    hashes: Vec<u8>,
) -> Result<[Option<Result<(), VerityError>>; 4], Fail> {
    let table = Table::read(alloc, FOUR.as_bytes())?;
    let mut volume = Volume::attach(alloc, &table)?;
    let items = named(alloc, data, hashes)?;
    let mut devices = ImageDevices::new(&items);
    let mut out = [0; 512];
    let first = read(&mut devices, &table, &mut volume, 0, &mut out);
    let second = read(&mut devices, &table, &mut volume, 1, &mut out);
    let third = read(&mut devices, &table, &mut volume, 2, &mut out);
    let fourth = read(&mut devices, &table, &mut volume, 3, &mut out);
    Ok([first, second, third, fourth])
}

fn corrupt(level: u8, block: u64) -> Option<Result<(), VerityError>> {
    Some(Err(VerityError::Corrupt { level, block }))
}

// The word that a line is refused for.
fn bad_word(alloc: Global, line: &str) -> Option<u32> {
    match Table::read(alloc, line.as_bytes()) {
        Err(TableError::Bad { word }) => Some(word),
        _ => None,
    }
}

#[test]
fn lines_are_read_word_by_word(rt: HostRuntime) -> Result<(), Fail> {
    let root = "076a27c79e5ace2a3d47f9dd2e83e4ff6ea8872b3c2218f66c92b89b55f36560";
    let line = format!(in rt.alloc();
        "1 z.img z.img 512 512 1 0 sha256 {root} - 2 root_hash_sig_key_desc app-key"
    )?;
    let table = Table::read(rt.alloc(), line.as_bytes())?;
    assert_eq!(rt; table.device(), b"z.img".as_slice());
    assert_eq!(rt; table.hash_device(), b"z.img".as_slice());
    assert_eq!(rt; table.block_size(), 512);
    assert_eq!(rt; table.blocks(), 1);
    assert_eq!(rt; table.hash_start(), 0);
    assert_eq!(rt; hex::encode(rt.alloc(), table.root())?.as_str(), root);
    assert!(rt; table.salt().is_empty());
    assert!(rt; table.has_option());
    assert_eq!(rt; table.hash_blocks(), 0);
    Ok(())
}

#[test]
fn the_first_bad_word_is_named(rt: HostRuntime) -> Result<(), Fail> {
    let root = "076a27c79e5ace2a3d47f9dd2e83e4ff6ea8872b3c2218f66c92b89b55f36560";
    let cases = [
        ("1 a b 512 512 1 0 sha1", "-", 8),
        ("1 a b 512 1024 1 0 sha256", "-", 5),
        ("1 a b 512 512 0 0 sha256", "-", 6),
        ("1 a b 512 512 1 00 sha256", "-", 7),
        ("1  b 512 512 1 0 sha256", "-", 2),
        ("1 a b 512 512 1 0 sha256", "abc", 10),
        (
            "1 a b 512 512 1 0 sha256",
            "-  root_hash_sig_key_desc k",
            11,
        ),
        ("1 a b 512 512 1 0 sha256", "- 2", 12),
        (
            "1 a b 512 512 1 0 sha256",
            "- 2 root_hash_sig_key_desc k ",
            14,
        ),
    ];
    for (front, back, word) in cases {
        let line = format!(in rt.alloc(); "{front} {root} {back}")?;
        assert_eq!(rt;
            bad_word(rt.alloc(), line.as_str()),
            Some(word),
            "at {line}"
        );
    }
    Ok(())
}

#[test]
fn a_flipped_byte_is_found(rt: HostRuntime) -> Result<(), Fail> {
    let alloc = rt.alloc();
    let image = pattern(alloc)?;
    let tree = hashes(alloc, &image)?;
    let fine = Some(Ok(()));
    for k in 0..image.len() {
        let mut data = image.clone()?;
        data[k] ^= 1;
        let mut wanted = [fine; 4];
        wanted[k / 512] = corrupt(0, (k / 512) as u64);
        assert_eq!(rt; answers(alloc, data, tree.clone()?)?, wanted, "at {k}");
    }
    for k in 0..tree.len() {
        let mut flipped = tree.clone()?;
        flipped[k] ^= 1;
        let wanted = [corrupt(1, 0); 4];
        assert_eq!(rt; answers(alloc, image.clone()?, flipped)?, wanted, "at {k}");
    }
    Ok(())
}

// Data and hash blocks are on one device. The root comes from Python's hashlib.
#[test]
fn a_failed_read_is_no_answer(rt: HostRuntime) -> Result<(), Fail> {
    let alloc = rt.alloc();
    let line =
        "1 data data 512 512 4 4 sha256 aa3a7f6236114854f9c667663c7b14f5de261e4f83c3f4cb2164133020c27aba aB01";
    let table = Table::read(alloc, line.as_bytes())?;
    let mut volume = Volume::attach(alloc, &table)?;
    let image = pattern(alloc)?;
    let tree = dmv_tree::build(alloc, &image, 512, &[0xab, 0x01])?;
    let mut disk = image.clone()?;
    disk.extend_from_slice(tree.bytes())?;
    // The third call is the first that reads.
    let plan = vec![in alloc; 3]?;
    let mut devices = MemoryDevices::new(named(alloc, disk, Vec::new(alloc))?, plan);
    let mut out = [1; 512];
    assert_eq!(rt;
        read(&mut devices, &table, &mut volume, 1, &mut out),
        Some(Err(VerityError::DeviceFault))
    );
    assert_eq!(rt; out, [0; 512]);
    assert_eq!(rt; volume.path().len(), 0);
    assert_eq!(rt;
        read(&mut devices, &table, &mut volume, 1, &mut out),
        Some(Ok(()))
    );
    assert_eq!(rt; out.as_slice(), &image[512..1024]);
    assert_eq!(rt; volume.path().len(), 2);
    assert_eq!(rt; volume.path().get(1), Some(&image[512..1024]));
    Ok(())
}
