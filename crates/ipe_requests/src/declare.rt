ghost use Rattle.std.specs.Prelude.{◌≡◌, ◌<◌, length, IsTrue, IfOk, Ok};
ghost use Rattle.line_words.specs.Lines.{seen, words_of};
ghost use Rattle.ipe_requests.specs.TableWords.{table_of};
ghost use Rattle.ipe_requests.specs.declared.line.Line.TheVariants as Declared;
ghost use Rattle.ipe_requests.specs.declared.line.Shape.TheVariants as Shape;
ghost use Rattle.ipe_requests.specs.Table.{cells};
ghost use Rattle.ipe_requests.specs.Reading.{and_then, has_form, read_table, reads, rest};

use crate::known::{Known, OpenText};
use crate::line::{Line, ScriptKind};
use crate::open_list::OpenList;
use crate::path::FilePath;
use crate::script::{FileForm, FileLine, SealLine, VolumeLine};
use crate::word::{
    name, new_file, new_text, new_volume, number, old_text, old_volume, unsealed_file, visible,
};
use dmv_volume::{Table, TableError, lines_are_whole_or_have_one_bad_word};
use ipe_policy::PathName;
use line_words::{Bytes, cut_at};
use std::alloc::{AllocError, Global};

const MOST_DEVICE_NAME: usize = 255;

const MOST_SIZE: u64 = 16_777_216;

// `workers W`
pub fn workers(known: &Known, words: &[&[u8]]) -> Result<Line, ScriptKind>
    requires { IsTrue (has_form (cells Shape.Workers) (seen words.now)) }
    ensures { result ≡ reads known.now Shape.Workers (seen words.now) }
{
    let [_, count] = words else {
        return Err(ScriptKind::Form);
    };
    Ok(Line::Workers(number(known, count, 1, 30)? as u32))
}

// `text ID N`
pub fn text(alloc: Global, known: &Known, words: &[&[u8]]) -> Result<Line, ScriptKind>
    requires { IsTrue (has_form (cells Shape.Text) (seen words.now)) }
    ensures { result ≡ reads known.now Shape.Text (seen words.now) }
{
    let [_, id, lines] = words else {
        return Err(ScriptKind::Form);
    };
    let id = new_text(known, id)?;
    let lines = number(known, lines, 0, 1_048_576)? as u32;
    Ok(Line::Text(OpenText {
        line: known.count,
        id,
        lines,
        bytes: OpenList::new(alloc),
    }))
}

// What stands after the first blank of a line.
fn behind_word(line: &[u8]) -> &[u8]
    requires { 1 < length (words_of line.now) }
    ensures { words_of result.now ≡ rest (words_of line.now) }
{
    cut_at(line, b' ').1
}

// The table that words parted by blanks say.
#[tactic(auto, unfolding(crate::specs::TableWords::table_of))]
fn table_of(alloc: Global, text: &[u8]) -> Result<Option<Table>, AllocError>
    ensures { IfOk result (λ table. table ≡ table_of (words_of text.now)) }
{
    lines_are_whole_or_have_one_bad_word();
    match Table::read(alloc, text) {
        Ok(table) => Ok(Some(table)),
        Err(TableError::Bad { .. }) => Ok(None),
        Err(TableError::NoMemory) => Err(AllocError),
    }
}

// A volume's table, with its words as they are written.
fn table(alloc: Global, text: &[u8]) -> Result<Result<(Bytes, Table), ScriptKind>, AllocError>
    ensures { IfOk result (λ read. read ≡ read_table (words_of text.now)) }
{
    let Some(table) = table_of(alloc, text)? else {
        return Ok(Err(ScriptKind::Table));
    };
    Ok(Ok((Bytes::from_vec(text.to_vec(alloc)?), table)))
}

// `volume ID TABLE`
pub fn volume(
    alloc: Global,
    known: &Known,
    line: &[u8],
    words: &[&[u8]],
) -> Result<Result<Line, ScriptKind>, AllocError>
    requires form { IsTrue (has_form (cells Shape.Volume) (seen words.now)) }
    requires words { seen words.now ≡ words_of line.now }
    ensures { IfOk result (λ read. read ≡ reads known.now Shape.Volume (seen words.now)) }
{
    let [_, id, ..] = words else {
        return Ok(Err(ScriptKind::Form));
    };
    let id = good!(new_volume(known, id));
    let (words, table) = good!(table(alloc, behind_word(behind_word(line)))?);
    Ok(Ok(Line::Volume(VolumeLine {
        line: known.count,
        id,
        words,
        table,
    })))
}

// The line of a file under this path.
fn file_line(
    alloc: Global,
    known: &Known,
    path: PathName,
    form: FileForm,
) -> Result<Result<Line, ScriptKind>, AllocError>
    ensures { IfOk result (λ read. read ≡ Ok (Declared.File (record { line = known.now.count; path = path; form = form }))) }
{
    Ok(Ok(Line::File(FileLine {
        line: known.count,
        path: FilePath::new(alloc, path)?,
        form,
    })))
}

// `file PATH boot DEV INO ID`
pub fn file_boot(
    alloc: Global,
    known: &Known,
    words: &[&[u8]],
) -> Result<Result<Line, ScriptKind>, AllocError>
    requires { IsTrue (has_form (cells Shape.FileBoot) (seen words.now)) }
    ensures { IfOk result (λ read. read ≡ reads known.now Shape.FileBoot (seen words.now)) }
{
    let [_, path, _, dev, ino, text] = words else {
        return Ok(Err(ScriptKind::Form));
    };
    let path = good!(new_file(known, path));
    let dev = good!(name(known, dev));
    let ino = good!(number(known, ino, 0, u64::MAX));
    let text = good!(old_text(known, text));
    let form = FileForm::Boot { dev, ino, text };
    file_line(alloc, known, path, form)
}

// `file PATH volume ID FIRST SIZE INO`
pub fn file_volume(
    alloc: Global,
    known: &Known,
    words: &[&[u8]],
) -> Result<Result<Line, ScriptKind>, AllocError>
    requires { IsTrue (has_form (cells Shape.FileVolume) (seen words.now)) }
    ensures { IfOk result (λ read. read ≡ reads known.now Shape.FileVolume (seen words.now)) }
{
    let [_, path, _, volume, first, size, ino] = words else {
        return Ok(Err(ScriptKind::Form));
    };
    let path = good!(new_file(known, path));
    let volume = good!(old_volume(known, volume));
    let first = good!(number(known, first, 0, 4095));
    let size = good!(number(known, size, 0, MOST_SIZE));
    let ino = good!(number(known, ino, 0, u64::MAX));
    let form = FileForm::Volume {
        volume,
        first,
        size,
        ino,
    };
    file_line(alloc, known, path, form)
}

// What the words of a plain file say: its path, and where its bytes are.
fn plain(
    alloc: Global,
    known: &Known,
    words: &[&[u8]],
) -> Result<Result<(PathName, FileForm), ScriptKind>, AllocError>
    requires { IsTrue (has_form (cells Shape.FilePlain) (seen words.now)) }
    ensures { IfOk result (λ read. reads known.now Shape.FilePlain (seen words.now)
        ≡ and_then (λ said. Ok (Declared.File (record { line = known.now.count; path = said.0; form = said.1 }))) read) }
{
    let [_, path, _, device, at, size, dev, ino] = words else {
        return Ok(Err(ScriptKind::Form));
    };
    let path = good!(new_file(known, path));
    let device = good!(visible(alloc, known, device, MOST_DEVICE_NAME)?);
    let at = good!(number(known, at, 0, MOST_SIZE));
    let size = good!(number(known, size, 0, MOST_SIZE));
    let dev = good!(name(known, dev));
    let ino = good!(number(known, ino, 0, u64::MAX));
    Ok(Ok((
        path,
        FileForm::Plain {
            device,
            at,
            size,
            dev,
            ino,
        },
    )))
}

// `file PATH plain DEVICE AT SIZE DEV INO`
pub fn file_plain(
    alloc: Global,
    known: &Known,
    words: &[&[u8]],
) -> Result<Result<Line, ScriptKind>, AllocError>
    requires { IsTrue (has_form (cells Shape.FilePlain) (seen words.now)) }
    ensures { IfOk result (λ read. read ≡ reads known.now Shape.FilePlain (seen words.now)) }
{
    let (path, form) = good!(plain(alloc, known, words)?);
    file_line(alloc, known, path, form)
}

// `seal PATH DEVICE AT`
pub fn seal(
    alloc: Global,
    known: &Known,
    words: &[&[u8]],
) -> Result<Result<Line, ScriptKind>, AllocError>
    requires { IsTrue (has_form (cells Shape.Seal) (seen words.now)) }
    ensures { IfOk result (λ read. read ≡ reads known.now Shape.Seal (seen words.now)) }
{
    let [_, path, device, at] = words else {
        return Ok(Err(ScriptKind::Form));
    };
    let path = good!(unsealed_file(known, path));
    let device = good!(visible(alloc, known, device, MOST_DEVICE_NAME)?);
    let at = good!(number(known, at, 0, MOST_SIZE));
    Ok(Ok(Line::Seal(SealLine {
        line: known.count,
        path,
        device,
        at,
    })))
}
