//! Request files: what their lines declare and ask, or the first bad line and what is wrong with it.
#![tactic(auto)]

// The value, or the fault is the function's answer.
macro_rules! good {
    ($read:expr) => {
        match $read {
            Ok(value) => value,
            Err(fault) => return Ok(Err(fault)),
        }
    };
}

mod command;
mod declare;
mod hook;
mod known;
mod law;
mod line;
mod mark;
mod open_list;
mod path;
mod print;
mod reader;
mod requests;
mod script;
mod shape;
mod word;

pub use law::{
    bytes_are_requests_or_have_a_first_bad_line, requests_are_read_of_their_spelling,
    requests_keep_their_rules, words_have_one_shape,
};
pub use line::ScriptKind;
pub use path::FilePath;
pub use print::print_requests;
pub use reader::{ScriptError, parse_requests};
pub use requests::Requests;
pub use script::{
    FileForm, FileLine, FileLines, MarkDigest, MarkLine, MarkLines, MarkPurpose, MarkVerdict,
    Phase, PhaseLine, PhaseLines, Phases, SealLine, SealLines, TextLine, TextLines, VolumeLine,
    VolumeLines, WriteContent,
};
