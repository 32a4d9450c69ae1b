use super::*;
use ipe_words::Bytes;
use std::alloc::{AllocError, Global};
use std::fs;
use std::test::Fail;

// Asks for the size first, and so makes two calls.
#[tactic(auto, using(crate::proofs::Reading::can_read))]
fn read(
    devices: &mut impl Devices,
    name: &[u8],
    at: u64,
    out: &mut [u8],
) -> Result<usize, DevError> {
    let size = devices.size(name)?;
    if at >= size {
        return Ok(0);
    }
    devices.read_at(name, at, out)
}

fn items(alloc: Global) -> Result<NamedBytes, AllocError> {
    let mut items = Vec::new(alloc);
    for (name, bytes) in [("disk", "abcdef"), ("disk", "xyz"), ("none", "")] {
        let name = Bytes::from_vec(name.as_bytes().to_vec(alloc)?);
        let bytes = Bytes::from_vec(bytes.as_bytes().to_vec(alloc)?);
        items.push((name, bytes))?;
    }
    Ok(NamedBytes::from_vec(items))
}

#[test]
fn images_give_what_is_there(rt: HostRuntime) -> Result<(), Fail> {
    let items = items(rt.alloc())?;
    let mut devices = ImageDevices::new(&items);
    let mut out = [0u8; 4];
    assert_eq!(rt; devices.size(b"disk"), Ok(6));
    assert_eq!(rt; read(&mut devices, b"disk", 1, &mut out), Ok(4));
    assert_eq!(rt; out.as_slice(), b"bcde".as_slice());
    assert_eq!(rt; read(&mut devices, b"disk", 4, &mut out), Ok(2));
    assert_eq!(rt; out.as_slice(), b"efde".as_slice());
    assert_eq!(rt; devices.size(b"none"), Ok(0));
    assert_eq!(rt; devices.size(b"dis"), Err(DevError::Missing));
    Ok(())
}

#[test]
fn memory_fails_where_it_is_planned(rt: HostRuntime) -> Result<(), Fail> {
    let plan = vec![in rt.alloc(); 2, 3]?;
    let mut devices = MemoryDevices::new(items(rt.alloc())?, plan);
    let mut out = [0u8; 4];
    assert_eq!(rt;
        read(&mut devices, b"disk", 0, &mut out),
        Err(DevError::Failed)
    );
    assert_eq!(rt; out, [0; 4]);
    assert_eq!(rt;
        read(&mut devices, b"disk", 0, &mut out),
        Err(DevError::Failed)
    );
    assert_eq!(rt; read(&mut devices, b"disk", 0, &mut out), Ok(4));
    assert_eq!(rt; out.as_slice(), b"abcd".as_slice());
    Ok(())
}

#[test]
fn files_are_devices(rt: HostRuntime) -> Result<(), Fail> {
    let path = "blk_device_files_are_devices";
    fs::write(&rt, path, "abcdef")?;
    let mut devices = FileDevices::new(&rt);
    let mut out = [0u8; 4];
    let size = devices.size(path.as_bytes());
    let read = devices.read_at(path.as_bytes(), 3, &mut out);
    let end = devices.read_at(path.as_bytes(), 6, &mut out);
    fs::remove_file(&rt, path)?;
    assert_eq!(rt; size, Ok(6));
    assert_eq!(rt; read, Ok(3));
    assert_eq!(rt; out.as_slice(), b"def\0".as_slice());
    assert_eq!(rt; end, Err(DevError::Failed));
    assert_eq!(rt; devices.size(path.as_bytes()), Err(DevError::Missing));
    assert_eq!(rt; devices.size(b"\xff"), Err(DevError::Failed));
    // A directory is no device.
    assert_eq!(rt; devices.size(b"."), Err(DevError::Failed));
    Ok(())
}

// Asks for the size first, and so makes two calls.
fn read_whole(
    alloc: Global,
    devices: &mut impl Devices,
    name: &[u8],
) -> Result<Vec<u8>, ReadDeviceError> {
    match devices.size(name) {
        Ok(size) => read_device(alloc, devices, name, size),
        Err(DevError::Failed) => Err(ReadDeviceError::Failed),
        Err(DevError::Missing) => Err(ReadDeviceError::Missing),
    }
}

#[test]
fn devices_are_read_whole(rt: HostRuntime) -> Result<(), Fail> {
    let plan = vec![in rt.alloc(); 2]?;
    let mut devices = MemoryDevices::new(items(rt.alloc())?, plan);
    let failed = read_whole(rt.alloc(), &mut devices, b"disk");
    assert_eq!(rt; failed.err(), Some(ReadDeviceError::Failed));
    let whole = read_whole(rt.alloc(), &mut devices, b"disk")?;
    assert_eq!(rt; whole.as_slice(), b"abcdef".as_slice());
    let missing = read_whole(rt.alloc(), &mut devices, b"dis");
    assert_eq!(rt; missing.err(), Some(ReadDeviceError::Missing));
    Ok(())
}
