use crate::path::FilePath;
use dmv_volume::Table;
use ipe_policy::{DevName, DigestBytes, PathName, Request, Subject};
use line_words::{Bytes, Items};

/// A policy's text, or the bytes of a file, under an id: so many lines, each with its line feed.
#[derive(Debug, Drop)]
pub struct TextLine {
    pub line: u32,
    pub id: DevName,
    pub lines: u32,
    pub bytes: Bytes,
}

/// A verity volume under an id: the words of its table as they are written, and what they say.
#[derive(Debug, Drop)]
pub struct VolumeLine {
    pub line: u32,
    pub id: DevName,
    pub words: Bytes,
    pub table: Table,
}

/// Where a file's bytes are: a text, in the initial root file system; `size` bytes of a volume from its data block `first`
/// on; or `size` bytes of a device from byte `at` on, without dm-verity.
#[derive(Debug, Drop)]
pub enum FileForm {
    Boot {
        dev: DevName,
        ino: u64,
        text: DevName,
    },
    Volume {
        volume: DevName,
        first: u64,
        size: u64,
        ino: u64,
    },
    Plain {
        device: Bytes,
        at: u64,
        size: u64,
        dev: DevName,
        ino: u64,
    },
}

/// A file under a path.
#[derive(Debug, Drop)]
pub struct FileLine {
    pub line: u32,
    pub path: FilePath,
    pub form: FileForm,
}

/// A file has fs-verity: its descriptor stands at byte `at` of a device, the blocks of its tree after the descriptor's
/// 256 bytes.
#[derive(Debug, Drop)]
pub struct SealLine {
    pub line: u32,
    pub path: PathName,
    pub device: Bytes,
    pub at: u64,
}

/// What a mark vouches for a digest as.
#[derive(Clone, Copy, Debug, PartialEq, Eq)]
pub enum MarkPurpose {
    Policy,
    Root,
    File,
}

/// What a mark says of a digest.
#[derive(Clone, Copy, Debug, PartialEq, Eq)]
pub enum MarkVerdict {
    Trusted,
    Unknown,
    Revoked,
}

/// The digest of a mark: the SHA-256 of a text, or these 32 bytes.
#[derive(Debug, Drop)]
pub enum MarkDigest {
    Text(DevName),
    Hex(DigestBytes),
}

/// A mark of a digest.
#[derive(Debug, Drop)]
pub struct MarkLine {
    pub line: u32,
    pub purpose: MarkPurpose,
    pub verdict: MarkVerdict,
    pub digest: MarkDigest,
}

/// What is written to a node: a text; a word, after which a line feed is written; or bytes.
#[derive(Debug, Drop)]
pub enum WriteContent {
    Text(DevName),
    Echo(Bytes),
    Hex(Bytes),
}

/// A line of a phase: a write to a node by one who has the administrator's right, or hasn't (`may`), a read of a node by
/// the administrator, or a hook call of a worker. A hook has no path exactly where it is a kernel load, or an `mprotect`
/// of memory that no file stands behind.
#[derive(Debug, Drop)]
pub enum PhaseLine {
    Write {
        line: u32,
        may: bool,
        node: Bytes,
        content: WriteContent,
    },
    Read {
        line: u32,
        node: Bytes,
    },
    Hook {
        line: u32,
        worker: u32,
        request: Request,
        subject: Subject,
        path: Option<FilePath>,
    },
}

/// The lines of one phase.
#[derive(Debug, Drop)]
pub struct Phase {
    pub line: u32,
    pub lines: PhaseLines,
}

/// The declared texts.
pub type TextLines = Items<TextLine>;

/// The declared volumes.
pub type VolumeLines = Items<VolumeLine>;

/// The declared files.
pub type FileLines = Items<FileLine>;

/// The sealed files.
pub type SealLines = Items<SealLine>;

/// The marks.
pub type MarkLines = Items<MarkLine>;

/// The phases.
pub type Phases = Items<Phase>;

/// The lines of a phase.
pub type PhaseLines = Items<PhaseLine>;
