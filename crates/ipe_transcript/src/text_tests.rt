use super::*;
use ipe_audit::{LineBytes, Lines};
use ipe_machine::Place;
use ipe_policy::Which;
use ipe_words::Bytes;
use std::alloc::Global;
use std::test::Fail;

fn line(alloc: Global, text: &str) -> Result<LineBytes, Fail> {
    Ok(LineBytes::from_vec(text.as_bytes().to_vec(alloc)?))
}

fn two_records(alloc: Global) -> Result<Lines, Fail> {
    let mut lines = Vec::new(alloc);
    lines.push(line(alloc, "type=1422 a")?)?;
    lines.push(line(alloc, "type=1421 b")?)?;
    Ok(Lines::from_vec(lines))
}

fn write(alloc: Global) -> Result<Entry, Fail> {
    Ok(Entry::Write {
        phase: 1,
        line: 12,
        may: false,
        code: -1,
        epoch: 65_535,
        switched: false,
        records: two_records(alloc)?,
    })
}

fn read(line: u32, bytes: Option<Bytes>) -> Entry {
    Entry::Read {
        phase: 1,
        line,
        code: 0,
        epoch: 3,
        bytes,
    }
}

fn denied(alloc: Global) -> Result<Entry, Fail> {
    Ok(Entry::Hook {
        phase: 1,
        line: 10,
        worker: 1,
        code: -13,
        place: Some(Place { epoch: 3, count: 0 }),
        serial: Some(2),
        by: Some(Which::Rule(4)),
        access: Some(line(alloc, "type=1420 c")?),
        content: None,
    })
}

fn unevaluated() -> Entry {
    Entry::Hook {
        phase: 1,
        line: 11,
        worker: 1,
        code: 0,
        place: None,
        serial: None,
        by: None,
        access: None,
        content: None,
    }
}

#[test]
fn entries_are_printed(rt: HostRuntime) -> Result<(), Fail> {
    let alloc = rt.alloc();
    let mut entries = Vec::new(alloc);
    entries.push(read(7, Some(Bytes::from_vec(b"1\n".to_vec(alloc)?))))?;
    entries.push(read(8, Some(Bytes::from_vec(Vec::new(alloc)))))?;
    entries.push(read(9, None))?;
    entries.push(denied(alloc)?)?;
    entries.push(unevaluated())?;
    entries.push(write(alloc)?)?;
    let transcript = Transcript::order(alloc, 1, Entries::from_vec(entries))?;
    let answer = "ipe-transcript 1
phase 1
line=7 admin code=0 epoch=3 bytes=310a
line=8 admin code=0 epoch=3 bytes=-
line=9 admin code=0 epoch=3
line=10 w1 code=-13 epoch=3 count=0 policy=2 by=rule:4
type=1420 c
line=11 w1 code=0 epoch=- count=- policy=- by=-
line=12 guest code=-1 epoch=65535
type=1422 a
type=1421 b
end
";
    let text = print_transcript(alloc, &transcript)?;
    assert_eq!(rt; text.as_slice(), answer.as_bytes());
    Ok(())
}

fn read_file(alloc: Global, line: u32, content: Content) -> Result<Entry, Fail> {
    Ok(Entry::Hook {
        phase: 1,
        line,
        worker: 1,
        code: 0,
        place: Some(Place {
            epoch: 0,
            count: u64::from(line),
        }),
        serial: None,
        by: None,
        access: Some(LineBytes::from_vec(b"type=1420 a".to_vec(alloc)?)),
        content: Some(content),
    })
}

#[test]
fn contents_stand_after_access_records(rt: HostRuntime) -> Result<(), Fail> {
    let alloc = rt.alloc();
    let mut entries = Vec::new(alloc);
    let hash = Content::Hash([0xa0; 32]);
    entries.push(read_file(alloc, 1, hash)?)?;
    let volume = Content::VolumeCorrupt { level: 2, block: 7 };
    entries.push(read_file(alloc, 2, volume)?)?;
    let file = Content::FileCorrupt {
        level: 0,
        block: 4095,
    };
    entries.push(read_file(alloc, 3, file)?)?;
    let descriptor = Content::BadDescriptor { byte: 255 };
    entries.push(read_file(alloc, 4, descriptor)?)?;
    let transcript = Transcript::order(alloc, 1, Entries::from_vec(entries))?;
    let answer = "ipe-transcript 1
phase 1
line=1 w1 code=0 epoch=0 count=1 policy=- by=-
type=1420 a
content sha256:a0a0a0a0a0a0a0a0a0a0a0a0a0a0a0a0a0a0a0a0a0a0a0a0a0a0a0a0a0a0a0a0
line=2 w1 code=0 epoch=0 count=2 policy=- by=-
type=1420 a
content corrupt volume level=2 block=7
line=3 w1 code=0 epoch=0 count=3 policy=- by=-
type=1420 a
content corrupt file level=0 block=4095
line=4 w1 code=0 epoch=0 count=4 policy=- by=-
type=1420 a
content bad-descriptor byte=255
end
";
    let text = print_transcript(alloc, &transcript)?;
    assert_eq!(rt; text.as_slice(), answer.as_bytes());
    Ok(())
}
