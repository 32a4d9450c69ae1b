use super::*;
use ipe_audit::Lines;
use ipe_machine::Place;
use ipe_policy::Which;
use std::alloc::Global;
use std::test::Fail;

fn write(alloc: Global, line: u32, code: i32, epoch: u16, switched: bool) -> Entry {
    Entry::Write {
        phase: 1,
        line,
        may: true,
        code,
        epoch,
        switched,
        records: Lines::from_vec(Vec::new(alloc)),
    }
}

fn claimed(line: u32, worker: u32, epoch: u16, count: u64) -> Entry {
    Entry::Hook {
        phase: 1,
        line,
        worker,
        code: 0,
        place: Some(Place { epoch, count }),
        serial: Some(1),
        by: Some(Which::OpDefault),
        access: None,
        content: None,
    }
}

fn unplaced(line: u32, worker: u32) -> Entry {
    Entry::Hook {
        phase: 1,
        line,
        worker,
        code: 0,
        place: None,
        serial: None,
        by: None,
        access: None,
        content: None,
    }
}

fn read(phase: u32, line: u32) -> Entry {
    Entry::Read {
        phase,
        line,
        code: 0,
        epoch: 2,
        bytes: None,
    }
}

// Phase 1 as its actors give it, a phase without entries, a phase with one, and an entry of no phase.
fn entries(alloc: Global) -> Result<Entries, Fail> {
    let mut entries = Vec::new(alloc);
    entries.push(write(alloc, 3, 0, 1, true))?;
    entries.push(write(alloc, 4, -22, 1, false))?;
    entries.push(write(alloc, 6, 0, 2, true))?;
    entries.push(unplaced(5, 1))?;
    entries.push(claimed(8, 1, 1, 0))?;
    entries.push(unplaced(9, 1))?;
    entries.push(claimed(7, 2, 2, 0))?;
    entries.push(unplaced(10, 2))?;
    entries.push(read(3, 14))?;
    entries.push(read(4, 16))?;
    Ok(Entries::from_vec(entries))
}

#[test]
fn entries_stand_in_their_order(rt: HostRuntime) -> Result<(), Fail> {
    let alloc = rt.alloc();
    let transcript = Transcript::order(alloc, 3, entries(alloc)?)?;
    let answer = "ipe-transcript 1
phase 1
line=5 w1 code=0 epoch=- count=- policy=- by=-
line=3 admin code=0 epoch=1
line=4 admin code=-22 epoch=1
line=8 w1 code=0 epoch=1 count=0 policy=1 by=op
line=9 w1 code=0 epoch=- count=- policy=- by=-
line=6 admin code=0 epoch=2
line=7 w2 code=0 epoch=2 count=0 policy=1 by=op
line=10 w2 code=0 epoch=- count=- policy=- by=-
phase 2
phase 3
line=14 admin code=0 epoch=2
end
";
    let text = print_transcript(alloc, &transcript)?;
    assert_eq!(rt; text.as_slice(), answer.as_bytes());
    Ok(())
}
