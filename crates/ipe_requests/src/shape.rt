ghost use Rattle.std.specs.Prelude.{◌≡◌, ◌&&◌, ◌||◌, IsTrue, IfOk, codes, drop, length};
ghost use Rattle.line_words.specs.Words.{is_text};
ghost use Rattle.line_words.specs.Lines.{seen, words_of};
ghost use Rattle.ipe_requests.specs.Table.{cells, line_of, may_follow};
ghost use Rattle.ipe_requests.specs.declared.line.Shape.TheVariants as Shape;
ghost use Rattle.ipe_requests.specs.Table.Rule.{Right, Worker};
ghost use Rattle.ipe_requests.specs.Reading.{are_many, has_form, may_be, misplaced, read_line, read_shape, reads, shape_of};

use crate::command::{read, write_echo, write_hex, write_text};
use crate::declare::{file_boot, file_plain, file_volume, seal, text, volume, workers};
use crate::hook::{exec, kernel_load, kernel_read, mmap, mprotect};
use crate::known::Known;
use crate::line::{Line, ScriptKind, Section, Shape};
use crate::mark::{mark_hex, mark_text};
use line_words::{blanks, words_of};
use std::alloc::{AllocError, Global};

const MOST_WORDS: usize = 15;

// Two words are these texts.
fn are(one: &[u8], first: &[u8], two: &[u8], second: &[u8]) -> bool
    ensures { result ≡ (is_text first.now one.now && is_text second.now two.now) }
{
    one == first && two == second
}

// `admin` or `guest`
fn may_administer(who: &[u8]) -> bool
    ensures { result ≡ may_be Right who.now }
{
    who == b"admin".as_slice() || who == b"guest".as_slice()
}

// `admin write` or `guest write`
fn is_write(who: &[u8], verb: &[u8]) -> bool
    ensures { result ≡ (may_be Right who.now && is_text (codes "write") verb.now) }
{
    may_administer(who) && verb == b"write".as_slice()
}

// A hook of a worker.
fn is_hook(who: &[u8], word: &[u8], hook: &[u8]) -> bool
    ensures { result ≡ (may_be Worker who.now && is_text hook.now word.now) }
{
    who.starts_with(b"w") && word == hook
}

fn are_many(words: &[&[u8]]) -> bool
    ensures { result ≡ are_many (seen words.now) }
{
    words.len() == 10 || words.len() == 13
}

// What stands in a volume's file after the word `volume`.
fn are_of_volume(words: &[&[u8]]) -> bool
    ensures { result ≡ has_form (drop 3 (cells Shape.FileVolume)) (seen words.now) }
{
    matches!(words, [_, _, _, _])
}

// What stands in a plain file after the word `plain`.
fn are_plain(words: &[&[u8]]) -> bool
    ensures { result ≡ has_form (drop 3 (cells Shape.FilePlain)) (seen words.now) }
{
    matches!(words, [_, _, _, _, _])
}

impl Shape {
    // Whether words have this shape, by their number and the fixed ones among them.
    pub fn fits(self, words: &[&[u8]]) -> bool
        ensures { result ≡ has_form (cells self) (seen words.now) }
    {
        match (self, words) {
            (Shape::Header, [one, two]) => are(one, b"ipe-requests", two, b"1"),
            (Shape::Workers, [one, _]) => *one == b"workers".as_slice(),
            (Shape::Text, [one, _, _]) => *one == b"text".as_slice(),
            (Shape::Volume, [one, _, table @ ..]) => *one == b"volume".as_slice()
                && are_many(table),
            (Shape::FileBoot, [one, _, two, _, _, _]) => are(one, b"file", two, b"boot"),
            (Shape::FileVolume, [one, _, two, behind @ ..]) => {
                are(one, b"file", two, b"volume") && are_of_volume(behind)
            }
            (Shape::FilePlain, [one, _, two, behind @ ..]) => {
                are(one, b"file", two, b"plain") && are_plain(behind)
            }
            (Shape::Seal, [one, _, _, _]) => *one == b"seal".as_slice(),
            (Shape::MarkText, [one, _, _, two, _]) => are(one, b"mark", two, b"text"),
            (Shape::MarkHex, [one, _, _, two, _]) => are(one, b"mark", two, b"hex"),
            (Shape::Phase, [one]) => *one == b"phase".as_slice(),
            (Shape::WriteText, [who, verb, _, of, _]) => is_write(who, verb)
                && *of == b"text".as_slice(),
            (Shape::WriteEcho, [who, verb, _, of, _]) => is_write(who, verb)
                && *of == b"echo".as_slice(),
            (Shape::WriteHex, [who, verb, _, of, _]) => is_write(who, verb)
                && *of == b"hex".as_slice(),
            (Shape::Read, [one, two, _]) => are(one, b"admin", two, b"read"),
            (Shape::Exec, [who, hook, _, _, _]) => is_hook(who, hook, b"exec"),
            (Shape::Mmap, [who, hook, _, _, _, _]) => is_hook(who, hook, b"mmap"),
            (Shape::Mprotect, [who, hook, _, _, _, _, _]) => is_hook(who, hook, b"mprotect"),
            (Shape::KernelRead, [who, hook, _, _, _, _]) => is_hook(who, hook, b"read"),
            (Shape::KernelLoad, [who, hook, _, _, _]) => is_hook(who, hook, b"load"),
            (Shape::End, [one]) => *one == b"end".as_slice(),
            _ => false,
        }
    }
}

// What the words of a line of a shape say.
fn read_words(
    alloc: Global,
    known: &Known,
    shape: Shape,
    line: &[u8],
    words: &[&[u8]],
) -> Result<Result<Line, ScriptKind>, AllocError>
    requires form { IsTrue (has_form (cells shape) (seen words.now)) }
    requires words { seen words.now ≡ words_of line.now }
    ensures { IfOk result (λ read. read ≡ reads known.now shape (seen words.now)) }
{
    match shape {
        Shape::Header => Ok(Ok(Line::Header)),
        Shape::Workers => Ok(workers(known, words)),
        Shape::Text => Ok(text(alloc, known, words)),
        Shape::Volume => volume(alloc, known, line, words),
        Shape::FileBoot => file_boot(alloc, known, words),
        Shape::FileVolume => file_volume(alloc, known, words),
        Shape::FilePlain => file_plain(alloc, known, words),
        Shape::Seal => seal(alloc, known, words),
        Shape::MarkText => Ok(mark_text(known, words)),
        Shape::MarkHex => Ok(mark_hex(known, words)),
        Shape::Phase => Ok(Ok(Line::Phase(known.count))),
        Shape::WriteText => write_text(alloc, known, words),
        Shape::WriteEcho => write_echo(alloc, known, words),
        Shape::WriteHex => write_hex(alloc, known, words),
        Shape::Read => read(alloc, known, words),
        Shape::Exec => exec(alloc, known, words),
        Shape::Mmap => mmap(alloc, known, words),
        Shape::Mprotect => mprotect(alloc, known, words),
        Shape::KernelRead => kernel_read(alloc, known, words),
        Shape::KernelLoad => Ok(kernel_load(known, words)),
        Shape::End => Ok(Ok(Line::End)),
    }
}

impl Section {
    // The shapes that may stand after a line of this section.
    fn shapes_behind(self) -> &'static [Shape]
        ensures { result.now ≡ may_follow self }
    {
        match self {
            Section::Start => &[Shape::Header],
            Section::Header => &[Shape::Workers],
            Section::Workers | Section::Texts => &[
                Shape::Text,
                Shape::Volume,
                Shape::FileBoot,
                Shape::FileVolume,
                Shape::FilePlain,
                Shape::Seal,
                Shape::MarkText,
                Shape::MarkHex,
                Shape::Phase,
                Shape::End,
            ],
            Section::Volumes => &[
                Shape::Volume,
                Shape::FileBoot,
                Shape::FileVolume,
                Shape::FilePlain,
                Shape::Seal,
                Shape::MarkText,
                Shape::MarkHex,
                Shape::Phase,
                Shape::End,
            ],
            Section::Files => &[
                Shape::FileBoot,
                Shape::FileVolume,
                Shape::FilePlain,
                Shape::Seal,
                Shape::MarkText,
                Shape::MarkHex,
                Shape::Phase,
                Shape::End,
            ],
            Section::Seals => &[
                Shape::Seal,
                Shape::MarkText,
                Shape::MarkHex,
                Shape::Phase,
                Shape::End,
            ],
            Section::Marks => &[Shape::MarkText, Shape::MarkHex, Shape::Phase, Shape::End],
            Section::Phase | Section::Asked => &[
                Shape::WriteText,
                Shape::WriteEcho,
                Shape::WriteHex,
                Shape::Read,
                Shape::Exec,
                Shape::Mmap,
                Shape::Mprotect,
                Shape::KernelRead,
                Shape::KernelLoad,
                Shape::Phase,
                Shape::End,
            ],
            Section::Ended => &[],
        }
    }

    // The shape of a line after one of this section.
    fn shape_of(self, words: &[&[u8]]) -> Option<Shape>
        ensures { result ≡ shape_of (may_follow self) (seen words.now) }
    {
        self.shapes_behind()
            .iter()
            .copied()
            .find(|shape| shape.fits(words))
    }

    // The fault of a line that has no shape after one of this section.
    fn misplaced(self) -> ScriptKind
        ensures { result ≡ misplaced self }
    {
        match self {
            Section::Start => ScriptKind::Header,
            Section::Ended => ScriptKind::After,
            _ => ScriptKind::Form,
        }
    }
}

// What a line says by its words.
fn read_known(
    alloc: Global,
    known: &Known,
    line: &[u8],
    words: &[&[u8]],
) -> Result<Result<Line, ScriptKind>, AllocError>
    requires { seen words.now ≡ words_of line.now }
    ensures { IfOk result (λ read. read ≡ read_shape known.now (seen words.now) known.now.section
        (shape_of (may_follow known.now.section) (seen words.now))) }
{
    match known.section.shape_of(words) {
        Some(shape) => read_words(alloc, known, shape, line, words),
        None => Ok(Err(known.section.misplaced())),
    }
}

// What a line that isn't raw says after those before it, or what is wrong with it. A line of more words than any shape has
// is not cut.
pub fn read_line(
    alloc: Global,
    known: &Known,
    line: &[u8],
) -> Result<Result<Line, ScriptKind>, AllocError>
    ensures { IfOk result (λ read. read ≡ read_line known.now line.now) }
{
    if blanks(line) >= MOST_WORDS {
        return Ok(Err(known.section.misplaced()));
    }
    let words = words_of(alloc, line)?;
    read_known(alloc, known, line, words.as_slice())
}
