use crate::known::OpenText;
use crate::script::{FileLine, MarkLine, PhaseLine, SealLine, VolumeLine};

/// What is wrong with a line.
#[derive(Clone, Copy, Debug, PartialEq, Eq)]
pub enum ScriptKind {
    /// The file ends before its line `end`.
    Unended,
    /// After the last line there is no line feed.
    NoNewline,
    /// Something stands after the line `end`.
    After,
    /// The first line isn't `ipe-requests 1`.
    Header,
    /// The line has none of the forms that may stand in its place.
    Form,
    /// A word is no number, or one out of its range.
    Number,
    /// A word breaks its rule.
    Name,
    /// A word isn't so many digits.
    Hex,
    /// A word of a volume's table breaks its rule.
    Table,
    /// A text, volume or file is declared already, or a file sealed.
    Twice,
    /// A text, volume or file isn't declared before.
    Unknown,
    /// A file ends beyond its volume's data blocks.
    Range,
    /// There are too many lines of this kind, devices, or bytes to read.
    Limit,
}

/// The shapes that a line may have.
#[derive(Clone, Copy, Debug, PartialEq, Eq)]
pub enum Shape {
    Header,
    Workers,
    Text,
    Volume,
    FileBoot,
    FileVolume,
    FilePlain,
    Seal,
    MarkText,
    MarkHex,
    Phase,
    WriteText,
    WriteEcho,
    WriteHex,
    Read,
    Exec,
    Mmap,
    Mprotect,
    KernelRead,
    KernelLoad,
    End,
}

/// What a line says.
#[derive(Debug, Drop)]
pub enum Line {
    Header,
    Workers(u32),
    Text(OpenText),
    Volume(VolumeLine),
    File(FileLine),
    Seal(SealLine),
    Mark(MarkLine),
    Phase(u32),
    Asked(PhaseLine),
    End,
}

/// The sections of a file, in their order, and what stands before its first line.
#[derive(Clone, Copy, Debug, PartialEq, Eq)]
pub enum Section {
    Start,
    Header,
    Workers,
    Texts,
    Volumes,
    Files,
    Seals,
    Marks,
    Phase,
    Asked,
    Ended,
}
