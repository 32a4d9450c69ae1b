//! A transcript: the entries of a request file's phases, in their order.

ghost use Rattle.std.specs.Prelude.{◌≡◌, IfOk};
ghost use Rattle.ipe_transcript.specs.Entries.{actor_of, line_of, phase_of};
ghost use Rattle.ipe_transcript.specs.Order.{AreOrdered};

use crate::filing::{order_phase, part_by_phase};
use ipe_audit::{LineBytes, Lines};
use ipe_machine::Place;
use ipe_policy::Which;
use ipe_words::Bytes;
use std::alloc::{AllocError, Global};
use std::marker::Model;

/// What a file that was read after an allowed hook came to.
#[derive(Debug, Drop)]
pub enum Content {
    /// The SHA-256 digest of the file's bytes.
    Hash([u8; 32]),
    /// The first block of its volume's hash tree that is not the one that was hashed, by its level and its number.
    VolumeCorrupt { level: u8, block: u64 },
    /// The first block of the file's own hash tree that is not the one that was hashed, by its level and its number.
    FileCorrupt { level: u8, block: u64 },
    /// The first byte of the file's descriptor that is not as it must be.
    BadDescriptor { byte: u16 },
}

/// What a transcript tells of a line of the request file: its phase, from 1, its number, who acted, the code (0, or the
/// number of the error below 0), and what else belongs to its kind.
#[derive(Debug, Drop)]
pub enum Entry {
    /// A write, the epoch after it, whether it raised the epoch, and the records that it makes. The text doesn't tell
    /// whether it raised the epoch.
    Write {
        phase: u32,
        line: u32,
        may: bool,
        code: i32,
        epoch: u16,
        switched: bool,
        records: Lines,
    },
    /// A read, and what was read where it was answered.
    Read {
        phase: u32,
        line: u32,
        code: i32,
        epoch: u16,
        bytes: Option<Bytes>,
    },
    /// A hook of a worker, its place where it claimed, the policy and the statement that decided, the record where one
    /// is due, and the file's content where it was read.
    Hook {
        phase: u32,
        line: u32,
        worker: u32,
        code: i32,
        place: Option<Place>,
        serial: Option<u64>,
        by: Option<Which>,
        access: Option<LineBytes>,
        content: Option<Content>,
    },
}

impl Entry {
    /// The number of its phase, from 1.
    pub fn phase(&self) -> u32
        ensures { result ≡ phase_of self.now }
    {
        match self {
            Entry::Write { phase, .. } | Entry::Read { phase, .. } | Entry::Hook { phase, .. } => {
                *phase
            }
        }
    }

    /// The number of its line in the request file.
    pub fn line(&self) -> u32
        ensures { result ≡ line_of self.now }
    {
        match self {
            Entry::Write { line, .. } | Entry::Read { line, .. } | Entry::Hook { line, .. } =>
                *line,
        }
    }

    /// Who acted: 0 for the administrator, K for worker K.
    pub fn actor(&self) -> u32
        ensures { result ≡ actor_of self.now }
    {
        match self {
            Entry::Write { .. } | Entry::Read { .. } => 0,
            Entry::Hook { worker, .. } => *worker,
        }
    }
}

/// Entries, in whatever order, which contracts see as a list.
#[derive(Debug, Drop)]
pub struct Entries {
    items: Vec<Entry>,
}

impl Model for Entries {
    ghost use Rattle.std.specs.Prelude.{List};
    ghost use Rattle.ipe_transcript.specs.declared.transcript.Entry.{Entry};

    ghost Value = { List Entry };

    ghost view = { λ entries. entries.items.items };
}

impl Entries {
    /// These entries.
    pub fn from_vec(items: Vec<Entry>) -> Entries
        ensures { result ≡ items.items }
    {
        Entries { items }
    }

    /// The entries, one after another.
    pub fn as_slice(&self) -> &[Entry]
        ensures { result.now ≡ self.now }
    {
        self.items.as_slice()
    }

    /// The entries themselves.
    pub fn into_vec(self) -> Vec<Entry>
        ensures { result.items ≡ self }
    {
        self.items
    }
}

/// A transcript: the entries of each phase, from the first on, in the order in which they are printed. Contracts see it as
/// the list of these lists.
#[derive(Debug, Drop)]
pub struct Transcript {
    phases: Vec<Entries>,
}

impl Model for Transcript {
    ghost use Rattle.std.specs.Prelude.{List};
    ghost use Rattle.ipe_transcript.specs.declared.transcript.Entry.{Entry};

    ghost Value = { List (List Entry) };

    ghost view = { λ transcript. transcript.phases.items };
}

impl Transcript {
    /// The entries of phases 1 to `phases`, those of each phase in their order: by epoch; in an epoch the command that
    /// began it, then the commands that changed neither policy nor switch by line, then the hooks with a claim by count;
    /// a hook without a claim after its worker's previous entry, or at the phase's beginning. Entries of other phases are
    /// left out, and a phase may have none.
    pub fn order(alloc: Global, phases: u32, entries: Entries) -> Result<Transcript, AllocError>
        ensures { IfOk result (λ transcript. AreOrdered phases entries transcript) }
    {
        let mut ordered = Vec::new(alloc);
        for part in part_by_phase(alloc, phases, entries.into_vec())? {
            ordered.push(order_phase(alloc, part)?)?;
        }
        Ok(Transcript { phases: ordered })
    }

    /// The entries of each phase, from the first on.
    pub fn phases(&self) -> &[Entries]
        ensures { result.now ≡ self.now }
    {
        self.phases.as_slice()
    }
}
