use super::device_tests::{REVOKED_ROOT, device};
use super::replay_tests::{FIRST_CHECK, FIRST_CHECK_ANSWER};
use super::tests::{answered, served};
use blk_device::{ImageDevices, MemoryDevices, NamedBytes};
use ipe_words::{MemorySink, MemorySource};
use std::alloc::{AllocError, Global};
use std::sync::Wait;
use std::test::Fail;
use std::thread::Threads;

/// The status and what was written, in pieces of 16 bytes, where the calls of these numbers fail.
fn replayed_in_pieces<R: Threads + Wait + Sync>(
    rt: &R,
    alloc: Global,
    input: &[u8],
    failing_reads: &[u32],
    failing_writes: &[u32],
) -> Result<(u8, Vec<u8>), AllocError> {
    let mut source = MemorySource::new(input.to_vec(alloc)?, 16, failing_reads.to_vec(alloc)?);
    let mut sink = MemorySink::new(alloc, 16, 4096, failing_writes.to_vec(alloc)?)?;
    let items = NamedBytes::from_vec(Vec::new(alloc));
    let mut devices = ImageDevices::new(&items);
    let status = served(rt, alloc, &["replay"], &mut source, &mut sink, &mut devices)?;
    Ok((status, sink.written().to_vec(alloc)?))
}

/// How many calls it takes to hand on so many bytes.
fn pieces(bytes: &[u8]) -> u32 {
    bytes
        .chunks(16)
        .map(|_| 1u32)
        .fold(0, |sum, one| sum.saturating_add(one))
}

/// After the last piece one more call finds the end.
#[test]
fn each_read_may_fail(rt: HostRuntime) -> Result<(), Fail> {
    let input = FIRST_CHECK.as_bytes();
    let calls = pieces(input).saturating_add(1);
    for call in 1..=calls {
        let (status, written) = replayed_in_pieces(&rt, rt.alloc(), input, &[call], &[])?;
        assert_eq!(rt; status, 4, "{call}");
        assert_eq!(rt; written.len(), 0, "{call}");
    }
    let beyond = calls.saturating_add(1);
    let (status, _) = replayed_in_pieces(&rt, rt.alloc(), input, &[beyond], &[])?;
    assert_eq!(rt; status, 0);
    Ok(())
}

#[test]
fn each_write_may_fail(rt: HostRuntime) -> Result<(), Fail> {
    let input = FIRST_CHECK.as_bytes();
    let answer = FIRST_CHECK_ANSWER.as_bytes();
    let mut before = Vec::new(rt.alloc());
    let mut call: u32 = 0;
    for piece in answer.chunks(16) {
        call = call.saturating_add(1);
        let (status, written) = replayed_in_pieces(&rt, rt.alloc(), input, &[], &[call])?;
        assert_eq!(rt; status, 5, "{call}");
        assert_eq!(rt; written.as_slice(), before.as_slice(), "{call}");
        before.extend_from_slice(piece)?;
    }
    let beyond = call.saturating_add(1);
    let (status, written) = replayed_in_pieces(&rt, rt.alloc(), input, &[], &[beyond])?;
    assert_eq!(rt; status, 0);
    assert_eq!(rt; written.as_slice(), answer);
    Ok(())
}

/// The status and what was written, where the call of this number on the device fails.
fn replayed_with_failing_device<R: Threads + Wait + Sync>(
    rt: &R,
    alloc: Global,
    call: u32,
) -> Result<(u8, Vec<u8>), AllocError> {
    let input = REVOKED_ROOT.as_bytes().to_vec(alloc)?;
    let mut source = MemorySource::new(input, 4096, Vec::new(alloc));
    let mut sink = MemorySink::new(alloc, 4096, 65_536, Vec::new(alloc))?;
    let items = device(alloc, vec![in alloc; 0; 512]?)?;
    let mut devices = MemoryDevices::new(items, [call].to_vec(alloc)?);
    let status = served(rt, alloc, &["replay"], &mut source, &mut sink, &mut devices)?;
    Ok((status, sink.written().to_vec(alloc)?))
}

/// The device is asked for its size, and then for its bytes until all are there.
#[test]
fn each_call_on_a_device_may_fail(rt: HostRuntime) -> Result<(), Fail> {
    let mut failed: u32 = 0;
    for call in 1..=64 {
        let (status, written) = replayed_with_failing_device(&rt, rt.alloc(), call)?;
        if status == 0 {
            break;
        }
        assert_eq!(rt; status, 6, "{call}");
        assert_eq!(rt; written.len(), 0, "{call}");
        failed = call;
    }
    assert!(rt; 2 <= failed && failed < 64, "{failed}");
    Ok(())
}

/// The line that refuses a line.
fn refusal(alloc: Global, line: u32, kind: &str) -> Result<String, AllocError> {
    format!(in alloc; "refused line {line}: {kind}\n")
}

#[test]
fn a_request_file_that_is_cut_short_is_refused(rt: HostRuntime) -> Result<(), Fail> {
    let input = FIRST_CHECK.as_bytes();
    let mut line: u32 = 1;
    let mut kind = "Unended";
    let mut cut = Vec::new(rt.alloc());
    for byte in input {
        let (status, written) = answered(&rt, rt.alloc(), &["replay"], cut.as_slice())?;
        assert_eq!(rt; status, 3, "{line}");
        let refused = refusal(rt.alloc(), line, kind)?;
        assert_eq!(rt; written.as_slice(), refused.as_bytes(), "{line}");
        cut.push(*byte)?;
        if *byte == b'\n' {
            line = line.saturating_add(1);
            kind = "Unended";
        } else {
            kind = "NoNewline";
        }
    }
    for (byte, kind) in [(b'\n', "After"), (b'x', "NoNewline")] {
        let mut more = input.to_vec(rt.alloc())?;
        more.push(byte)?;
        let (status, written) = answered(&rt, rt.alloc(), &["replay"], more.as_slice())?;
        assert_eq!(rt; status, 3, "{kind}");
        let refused = refusal(rt.alloc(), 17, kind)?;
        assert_eq!(rt; written.as_slice(), refused.as_bytes(), "{kind}");
    }
    Ok(())
}

/// A file that is all four blocks of a volume, whose one hash block follows them. All data are zeros.
const FOUR_BLOCKS: &str = "ipe-requests 1
workers 1
volume app 1 z.img z.img 512 512 4 4 sha256 94751a914e24561b49aa59b8d667ef510b55eb2870535216f17d4f62b63fb68b -
file /app/tool volume app 0 2048 12
phase
w1 exec 1 tool /app/tool
end
";

/// The digest of a block of zeros.
const DIGEST: [u8; 32] =
    *b"\x07\x6a\x27\xc7\x9e\x5a\xce\x2a\x3d\x47\xf9\xdd\x2e\x83\xe4\xff\x6e\xa8\x87\x2b\x3c\x22\x18\xf6\x6c\x92\xb8\x9b\x55\xf3\x65\x60";

/// The data blocks and the hash block.
fn four_blocks(alloc: Global) -> Result<Vec<u8>, AllocError> {
    let mut image = vec![in alloc; 0; 2048]?;
    for _ in 0..4 {
        image.extend_from_slice(&DIGEST)?;
    }
    image.extend_from_slice(&[0; 384])?;
    Ok(image)
}

/// The content line of the file over this image.
fn content<R: Threads + Wait + Sync>(
    rt: &R,
    alloc: Global,
    input: &str,
    image: Vec<u8>,
) -> Result<Option<String>, AllocError> {
    let mut source = MemorySource::new(input.as_bytes().to_vec(alloc)?, 4096, Vec::new(alloc));
    let mut sink = MemorySink::new(alloc, 4096, 4096, Vec::new(alloc))?;
    let items = device(alloc, image)?;
    let mut devices = ImageDevices::new(&items);
    served(rt, alloc, &["replay"], &mut source, &mut sink, &mut devices)?;
    let text = String::from_utf8(sink.written().to_vec(alloc)?).unwrap_or(String::new(alloc));
    match text.lines().find(|line| line.starts_with("content ")) {
        Some(line) => Ok(Some(String::from_str(alloc, line)?)),
        None => Ok(None),
    }
}

/// A flipped byte of the data is found in its block, and one of the hash block above all of them.
#[test]
fn each_flipped_byte_of_a_volume_is_found(rt: HostRuntime) -> Result<(), Fail> {
    let whole = content(&rt, rt.alloc(), FOUR_BLOCKS, four_blocks(rt.alloc())?)?;
    let digest = "content sha256:e5a00aa9991ac8a5ee3109844d84a55583bd20572ad3ffcd42792f3c36b183ad";
    assert_eq!(rt; whole.ok_or("no content")?.as_str(), digest);
    for flipped in 0..2560 {
        let (level, block) = if flipped < 2048 {
            (0, flipped / 512)
        } else {
            (1, 0)
        };
        let mut image = four_blocks(rt.alloc())?;
        if let Some(byte) = image.get_mut(flipped) {
            *byte = !*byte;
        }
        let found = content(&rt, rt.alloc(), FOUR_BLOCKS, image)?.ok_or("no content")?;
        let corrupt = format!(in rt.alloc(); "content corrupt volume level={level} block={block}")?;
        assert_eq!(rt; found.as_str(), corrupt.as_str(), "{flipped}");
    }
    Ok(())
}

/// A sealed file of two blocks of 1,024 bytes, so that its tree has one, which would end beyond the device.
const SEALED: &str = "ipe-requests 1
workers 1
file /srv/agent plain z.img 0 1025 vda 7
seal /srv/agent z.img 2048
phase
w1 exec 1 agent /srv/agent
end
";

/// Version 1, SHA-256, blocks of 2 to the power of 10 bytes, no salt, and 1,025 bytes of data. The root hash is zeros.
const DESCRIPTOR: [u8; 10] = [1, 1, 10, 0, 0, 0, 0, 0, 1, 4];

#[test]
fn a_tree_beyond_the_device_is_a_bad_descriptor(rt: HostRuntime) -> Result<(), Fail> {
    let mut image = vec![in rt.alloc(); 0; 2048]?;
    image.extend_from_slice(&DESCRIPTOR)?;
    image.extend_from_slice(&[0; 246])?;
    let found = content(&rt, rt.alloc(), SEALED, image)?.ok_or("no content")?;
    assert_eq!(rt; found.as_str(), "content bad-descriptor byte=256");
    Ok(())
}

#[test]
fn a_line_that_breaks_a_rule_is_refused(rt: HostRuntime) -> Result<(), Fail> {
    let volume =
        "volume app 1 z.img z.img 512 512 4 4 sha256 94751a914e24561b49aa59b8d667ef510b55eb2870535216f17d4f62b63fb68b -";
    let mut devices = String::new(rt.alloc());
    for number in 1..=9 {
        let file = format!(in rt.alloc(); "file /f{number} plain d{number} 0 0 vda 1\n")?;
        devices.push_str(file.as_str())?;
    }
    for (head, lines, line, kind) in [
        ("0", "", 2, "Number"),
        ("31", "", 2, "Number"),
        ("1", "text a 0\ntext a 0\n", 4, "Twice"),
        ("1", "seal /a z.img 0\n", 3, "Unknown"),
        ("1", devices.as_str(), 11, "Limit"),
    ] {
        let input = format!(in rt.alloc(); "ipe-requests 1\nworkers {head}\n{lines}end\n")?;
        let (status, written) = answered(&rt, rt.alloc(), &["replay"], input.as_bytes())?;
        assert_eq!(rt; status, 3, "{input}");
        let refused = refusal(rt.alloc(), line, kind)?;
        assert_eq!(rt; written.as_slice(), refused.as_bytes(), "{input}");
    }
    let input = format!(in rt.alloc();
        "ipe-requests 1\nworkers 1\n{volume}\nfile /a volume app 0 2560 1\nend\n"
    )?;
    let (status, written) = answered(&rt, rt.alloc(), &["replay"], input.as_bytes())?;
    assert_eq!(rt; status, 3);
    assert_eq!(rt; written.as_slice(), b"refused line 4: Range\n".as_slice());
    Ok(())
}

/// What stands before the writes: a policy is loaded, and another one.
const LOADED: &str = "ipe-requests 1
workers 1
text a 2
policy_name=a policy_version=1.0.0
DEFAULT action=DENY
mark policy trusted text a
phase
admin write new_policy text a
";

/// The switch is on at first, so that each of 65,535 writes turns it; the last one turns it off.
#[test]
fn no_epoch_comes_after_the_last(rt: HostRuntime) -> Result<(), Fail> {
    let alloc = rt.alloc();
    let mut input = String::from_str(alloc, LOADED)?;
    for turn in 0..65_535 {
        let line = if turn % 2 == 0 {
            "admin write enforce echo 0\n"
        } else {
            "admin write enforce echo 1\n"
        };
        input.push_str(line)?;
    }
    input.push_str("admin write enforce echo 0\nadmin write enforce echo 1\n")?;
    input.push_str(
        "admin write policies/a/active echo 1\nadmin write policies/a/update text a\nend\n",
    )?;
    let mut source = MemorySource::new(input.into_bytes(), 65_536, Vec::new(alloc));
    let mut sink = MemorySink::new(alloc, 65_536, 16_777_216, Vec::new(alloc))?;
    let items = NamedBytes::from_vec(Vec::new(alloc));
    let mut devices = ImageDevices::new(&items);
    let status = served(
        &rt,
        alloc,
        &["replay"],
        &mut source,
        &mut sink,
        &mut devices,
    )?;
    assert_eq!(rt; status, 0);
    let text = String::from_utf8(sink.written().to_vec(alloc)?).unwrap_or(String::new(alloc));
    let mut line: u32 = 9;
    let mut epoch: u32 = 1;
    for found in text
        .lines()
        .filter(|found| found.starts_with("line="))
        .skip(1)
    {
        let (code, at) = match line {
            9..=65_543 => (0, epoch),
            65_544 => (0, 65_535),
            65_545 | 65_546 => (-75, 65_535),
            _ => (0, 65_535),
        };
        let wanted = format!(in alloc; "line={line} admin code={code} epoch={at}")?;
        assert_eq!(rt; found, wanted.as_str());
        line = line.saturating_add(1);
        epoch = epoch.saturating_add(1);
    }
    assert_eq!(rt; line, 65_548);
    Ok(())
}
