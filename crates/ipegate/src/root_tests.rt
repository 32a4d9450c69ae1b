use super::tests::{answered, served};
use blk_device::{MemoryDevices, NamedBytes};
use ipe_words::{Bytes, MemorySink, MemorySource};
use std::alloc::{AllocError, Global};
use std::sync::Wait;
use std::test::Fail;
use std::thread::Threads;

/// The root of one block of zeros, without a salt.
const ZERO_BLOCK: &str =
    "sha256:076a27c79e5ace2a3d47f9dd2e83e4ff6ea8872b3c2218f66c92b89b55f36560 levels=0 hash_blocks=0\n";

/// The status and what was written of the device `z.img`, where the calls of these numbers fail.
fn rooted<R: Threads + Wait + Sync>(
    rt: &R,
    alloc: Global,
    block_size_and_salt: [&str; 2],
    image: Vec<u8>,
    failing_calls: &[u32],
    failing_writes: &[u32],
) -> Result<(u8, Vec<u8>), AllocError> {
    let [block_size, salt] = block_size_and_salt;
    let name = Bytes::from_vec(b"z.img".to_vec(alloc)?);
    let mut items = Vec::new(alloc);
    items.push((name, Bytes::from_vec(image)))?;
    let items = NamedBytes::from_vec(items);
    let mut devices = MemoryDevices::new(items, failing_calls.to_vec(alloc)?);
    let mut source = MemorySource::new(Vec::new(alloc), 1, Vec::new(alloc));
    let mut sink = MemorySink::new(alloc, 16, 4096, failing_writes.to_vec(alloc)?)?;
    let status = served(
        rt,
        alloc,
        &["root", block_size, salt, "z.img"],
        &mut source,
        &mut sink,
        &mut devices,
    )?;
    Ok((status, sink.written().to_vec(alloc)?))
}

// The roots come from Python's hashlib.
#[test]
fn images_have_their_roots(rt: HostRuntime) -> Result<(), Fail> {
    for (block_size, salt, byte, bytes, answer) in [
        ("512", "-", 0, 512, ZERO_BLOCK),
        (
            "512",
            "AB0c",
            7,
            17 * 512,
            "sha256:916d106970ca185098bb5668f21c6d8c920f9655b38db0b4c247968bb8175faf levels=2 hash_blocks=3\n",
        ),
        (
            "4096",
            "-",
            7,
            129 * 4096,
            "sha256:683c19f4f681d73b593bf26ab747dbc09d6643d7ec2531905bfdaeb18690eac7 levels=2 hash_blocks=3\n",
        ),
        (
            "512",
            "-",
            7,
            4096 * 512,
            "sha256:2ad8b44f37d7a23142920d0cbdf15429dfb2be06a72dbcf56224110d7f1fab3d levels=3 hash_blocks=273\n",
        ),
    ] {
        let image = vec![in rt.alloc(); byte; bytes]?;
        let (status, written) = rooted(&rt, rt.alloc(), [block_size, salt], image, &[], &[])?;
        assert_eq!(rt; status, 0, "{answer}");
        assert_eq!(rt; written.as_slice(), answer.as_bytes(), "{answer}");
    }
    Ok(())
}

#[test]
fn devices_are_refused(rt: HostRuntime) -> Result<(), Fail> {
    let (status, written) = answered(&rt, rt.alloc(), &["root", "512", "-", "z.img"], b"")?;
    assert_eq!(rt; status, 3);
    assert_eq!(rt;
        written.as_slice(),
        b"refused: device z.img: missing\n".as_slice()
    );
    for (bytes, why) in [
        (16_777_728, "too large"),
        (0, "bad size"),
        (513, "bad size"),
        (4_097 * 512, "bad size"),
    ] {
        let image = vec![in rt.alloc(); 0; bytes]?;
        let (status, written) = rooted(&rt, rt.alloc(), ["512", "-"], image, &[], &[])?;
        assert_eq!(rt; status, 3, "{bytes}");
        let answer = format!(in rt.alloc(); "refused: device z.img: {why}\n")?;
        assert_eq!(rt; written.as_slice(), answer.as_bytes(), "{bytes}");
    }
    Ok(())
}

#[test]
fn faults_of_devices_and_sinks_are_told(rt: HostRuntime) -> Result<(), Fail> {
    // The first call asks for the size, the second reads.
    for call in [1, 2] {
        let image = vec![in rt.alloc(); 0; 512]?;
        let (status, written) = rooted(&rt, rt.alloc(), ["512", "-"], image, &[call], &[])?;
        assert_eq!(rt; status, 6);
        assert_eq!(rt; written.len(), 0);
    }
    let image = vec![in rt.alloc(); 0; 512]?;
    let (status, written) = rooted(&rt, rt.alloc(), ["512", "-"], image, &[], &[2])?;
    assert_eq!(rt; status, 5);
    assert_eq!(rt; written.as_slice(), b"sha256:076a27c79".as_slice());
    Ok(())
}

#[test]
fn words_that_ask_for_no_root_are_refused(rt: HostRuntime) -> Result<(), Fail> {
    for (block_size, salt, device) in [
        ("500", "-", "a"),
        ("512", "abc", "a"),
        ("512", "", "a"),
        ("512", "ag", "a"),
        ("512", "-", ""),
        ("512", "-", "a b"),
    ] {
        let (status, written) = answered(
            &rt,
            rt.alloc(),
            &["root", block_size, salt, device],
            b"",
        )?;
        assert_eq!(rt; status, 2, "{block_size} {salt} {device}");
        assert_eq!(rt; written.len(), 0);
    }
    let (status, written) = answered(&rt, rt.alloc(), &["root", "512", "-"], b"")?;
    assert_eq!(rt; status, 2);
    assert_eq!(rt; written.len(), 0);
    Ok(())
}
