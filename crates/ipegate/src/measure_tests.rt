use super::tests::{answered, served};
use blk_device::{ImageDevices, NamedBytes};
use ipe_words::{MemorySink, MemorySource};
use std::alloc::{AllocError, Global};
use std::sync::Wait;
use std::test::Fail;
use std::thread::Threads;

/// The status and what was written of an input, where the calls of these numbers fail.
fn measured<R: Threads + Wait + Sync>(
    rt: &R,
    alloc: Global,
    block_size_and_salt: [&str; 2],
    input: Vec<u8>,
    failing_reads: &[u32],
    failing_writes: &[u32],
) -> Result<(u8, Vec<u8>), AllocError> {
    let [block_size, salt] = block_size_and_salt;
    let mut source = MemorySource::new(input, 1 << 20, failing_reads.to_vec(alloc)?);
    let mut sink = MemorySink::new(alloc, 16, 4096, failing_writes.to_vec(alloc)?)?;
    let items = NamedBytes::from_vec(Vec::new(alloc));
    let mut devices = ImageDevices::new(&items);
    let status = served(
        rt,
        alloc,
        &["measure", block_size, salt],
        &mut source,
        &mut sink,
        &mut devices,
    )?;
    Ok((status, sink.written().to_vec(alloc)?))
}

/// 40 blocks of 1,024 bytes, each filled with its number from 0.
fn forty_blocks(alloc: Global) -> Result<Vec<u8>, AllocError> {
    let mut bytes = Vec::new(alloc);
    for number in 0..40u8 {
        bytes.extend_from_slice(&[number; 1024])?;
    }
    Ok(bytes)
}

// The digests come from Python's hashlib.
#[test]
fn files_have_their_digests(rt: HostRuntime) -> Result<(), Fail> {
    let alloc = rt.alloc();
    for (block_size, salt, input, answer) in [
        (
            "4096",
            "-",
            Vec::new(alloc),
            "sha256:3d248ca542a24fc62d1c43b916eae5016878e2533c88238480b26128a1f1af95\n",
        ),
        (
            "1024",
            "0102030405060708",
            b"hello\n".to_vec(alloc)?,
            "sha256:8aa217b75b8db286240effcd74babc284694f9a68695be37d576ae2caa5db2e7\n",
        ),
        (
            "1024",
            "-",
            vec![in alloc; 7; 1]?,
            "sha256:5133dfa7824b753a0e7bfe10115671f2766bb2a2f83d5647f7a1a2992a00d010\n",
        ),
        // One block less one byte.
        (
            "1024",
            "-",
            vec![in alloc; 7; 1023]?,
            "sha256:6c7fe0da8cea0a209c79251b4b243e7cb7ac5d62596f3ca96818604bcecb1014\n",
        ),
        // One block: its digest is the root.
        (
            "1024",
            "-",
            vec![in alloc; 7; 1024]?,
            "sha256:e4d87c32265d0ee7ab8eb76261fb6771017708292d8accc0c6a8ef4e8a3c64fd\n",
        ),
        // One block and one byte.
        (
            "1024",
            "-",
            vec![in alloc; 7; 1025]?,
            "sha256:477bc4ba2bbe261a40baefdd06d7ac5473f785afde85b7709cd77c9b7de45ced\n",
        ),
        (
            "2048",
            "-",
            vec![in alloc; 7; 2049]?,
            "sha256:3dc505dcf7d40a4257fdc5794831bff1ec6fe5257570adc7f809fffcdc19f3b9\n",
        ),
        // Two levels above the blocks.
        (
            "1024",
            "AB0c",
            forty_blocks(alloc)?,
            "sha256:026b9265ed9c705c9cc7706efecff3655cdd28ba0d44e3b8f4a3350e054ad340\n",
        ),
    ] {
        let (status, written) = measured(&rt, alloc, [block_size, salt], input, &[], &[])?;
        assert_eq!(rt; status, 0, "{answer}");
        assert_eq!(rt; written.as_slice(), answer.as_bytes(), "{answer}");
    }
    Ok(())
}

#[test]
fn a_file_above_the_limit_is_too_long(rt: HostRuntime) -> Result<(), Fail> {
    let input = vec![in rt.alloc(); 0; 16_777_217]?;
    let (status, written) = measured(&rt, rt.alloc(), ["4096", "-"], input, &[], &[])?;
    assert_eq!(rt; status, 3);
    assert_eq!(rt; written.as_slice(), b"refused: too long\n".as_slice());
    Ok(())
}

#[test]
fn faults_of_sources_and_sinks_are_told(rt: HostRuntime) -> Result<(), Fail> {
    let (status, written) = measured(
        &rt,
        rt.alloc(),
        ["4096", "-"],
        Vec::new(rt.alloc()),
        &[1],
        &[],
    )?;
    assert_eq!(rt; status, 4);
    assert_eq!(rt; written.len(), 0);
    let (status, written) = measured(
        &rt,
        rt.alloc(),
        ["4096", "-"],
        Vec::new(rt.alloc()),
        &[],
        &[2],
    )?;
    assert_eq!(rt; status, 5);
    assert_eq!(rt; written.as_slice(), b"sha256:3d248ca54".as_slice());
    Ok(())
}

#[test]
fn words_that_measure_nothing_are_refused(rt: HostRuntime) -> Result<(), Fail> {
    let digits = "0123456789abcdef0123456789abcdef0123456789abcdef0123456789abcdef";
    let (status, _) = answered(&rt, rt.alloc(), &["measure", "1024", digits], b"")?;
    assert_eq!(rt; status, 0);
    let more_digits = format!(in rt.alloc(); "{digits}01")?;
    for (block_size, salt) in [
        ("512", "-"),
        ("1024", "abc"),
        ("1024", ""),
        ("1024", "ag"),
        ("1024", more_digits.as_str()),
    ] {
        let (status, written) = answered(&rt, rt.alloc(), &["measure", block_size, salt], b"")?;
        assert_eq!(rt; status, 2, "{block_size} {salt}");
        assert_eq!(rt; written.len(), 0);
    }
    let (status, written) = answered(&rt, rt.alloc(), &["measure", "1024", "-", "-"], b"")?;
    assert_eq!(rt; status, 2);
    assert_eq!(rt; written.len(), 0);
    Ok(())
}
