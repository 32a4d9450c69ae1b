use super::*;
use blk_device::{ImageDevices, NamedBytes};
use ipe_words::{Bytes, MemorySink, MemorySource, Status};
use std::test::Fail;

const POLICY: &str = "policy_name=a policy_version=1.0.0
DEFAULT action=DENY
op=EXECUTE boot_verified=TRUE action=ALLOW
";

#[test]
fn a_policy_is_linted(rt: HostRuntime) -> Result<(), Fail> {
    let alloc = rt.alloc();
    let text = POLICY.as_bytes().to_vec(alloc)?;
    let mut source = MemorySource::new(text, 7, Vec::new(alloc));
    let mut sink = MemorySink::new(alloc, 7, 100, Vec::new(alloc))?;
    let status = lint(alloc, &mut source, &mut sink);
    assert_eq!(rt; status, Status::Done);
    assert_eq!(rt; sink.written(), b"ok a 1.0.0 rules=1 words=27\n".as_slice());
    Ok(())
}

// The digest comes from Python's hashlib.
#[test]
fn a_file_is_measured(rt: HostRuntime) -> Result<(), Fail> {
    let alloc = rt.alloc();
    let mut source = MemorySource::new(b"hello\n".to_vec(alloc)?, 7, Vec::new(alloc));
    let mut sink = MemorySink::new(alloc, 7, 100, Vec::new(alloc))?;
    let salt = [1, 2, 3, 4, 5, 6, 7, 8];
    let status = measure(alloc, 1024, &salt, &mut source, &mut sink);
    assert_eq!(rt; status, Status::Done);
    let digest = "sha256:8aa217b75b8db286240effcd74babc284694f9a68695be37d576ae2caa5db2e7\n";
    assert_eq!(rt; sink.written(), digest.as_bytes());
    Ok(())
}

// The root comes from Python's hashlib.
#[test]
fn an_image_has_its_root(rt: HostRuntime) -> Result<(), Fail> {
    let alloc = rt.alloc();
    let name = Bytes::from_vec(b"z.img".to_vec(alloc)?);
    let image = Bytes::from_vec(vec![in alloc; 7; 17 * 512]?);
    let items = NamedBytes::from_vec(vec![in alloc; (name, image)]?);
    let mut devices = ImageDevices::new(&items);
    let mut sink = MemorySink::new(alloc, 7, 200, Vec::new(alloc))?;
    let salt = [0xAB, 0x0C];
    let status = root(alloc, 512, &salt, b"z.img", &mut sink, &mut devices);
    assert_eq!(rt; status, Status::Done);
    let line =
        "sha256:916d106970ca185098bb5668f21c6d8c920f9655b38db0b4c247968bb8175faf levels=2 hash_blocks=3\n";
    assert_eq!(rt; sink.written(), line.as_bytes());
    Ok(())
}
