ghost use Rattle.std.specs.Prelude.{◌≡◌, [], None, position, IfOk, OnOk};
ghost use Rattle.std.specs.Option.{option_copied};
ghost use Rattle.line_words.specs.Words.{is_text};
ghost use Rattle.ipe_requests.specs.Known.{item_of, nothing, with_device};
ghost use Rattle.ipe_requests.specs.declared.line.Line.TheVariants as Line;

mod counts;
mod limits;

use crate::line::{Line, Section};
use crate::open_list::OpenList;
use crate::path::FilePath;
use crate::script::{
    FileForm, FileLine, MarkLine, Phase, PhaseLine, SealLine, TextLine, VolumeLine,
};
use ipe_policy::{DevName, PathName};
use line_words::{Items, WordIndex};
use std::alloc::{AllocError, Global};

const LEAST_READ: u64 = 4096;

/// Things that are declared, each found by its name in one look-up.
#[derive(Drop)]
pub struct Declared<T> {
    pub names: WordIndex,
    pub items: OpenList<T>,
}

/// A text whose lines are still to come, with those that have come.
#[derive(Debug, Drop)]
pub struct OpenText {
    pub line: u32,
    pub id: DevName,
    pub lines: u32,
    pub bytes: OpenList<u8>,
}

/// What the lines before a line come to. `due` counts the lines of the open text that are still to come. `count` is the
/// number of the last line.
#[derive(Drop)]
pub struct Known {
    pub section: Section,
    pub count: u32,
    pub due: u32,
    pub text: Option<OpenText>,
    pub workers: u32,
    pub texts: Declared<TextLine>,
    pub volumes: Declared<VolumeLine>,
    pub files: Declared<FileLine>,
    pub seals: Declared<SealLine>,
    pub marks: OpenList<MarkLine>,
    pub phases: OpenList<Phase>,
    pub opened: Option<u32>,
    pub asked: OpenList<PhaseLine>,
    pub devices: WordIndex,
    pub commands: u64,
    pub hooks: u64,
    pub work: u64,
    pub reads: u64,
    pub longest: u64,
}

fn add_device(alloc: Global, devices: &mut WordIndex, name: &[u8]) -> Result<(), AllocError>
    ensures { OnOk result (devices.new ≡ with_device devices.old name.now) }
{
    if devices.place_of(name).is_some() {
        return Ok(());
    }
    devices.add(alloc, name)
}

impl<T: Drop> Declared<T> {
    fn new(alloc: Global) -> Self
        ensures { result ≡ nothing }
    {
        Declared {
            names: WordIndex::new(alloc),
            items: OpenList::new(alloc),
        }
    }

    pub fn into_items(self) -> Items<T>
        ensures { result ≡ self.items }
    {
        let Declared { items, .. } = self;
        items.into_items()
    }

    // The thing that is declared under a name.
    fn get(&self, name: &[u8]) -> Option<&T>
        ensures { option_copied result ≡ item_of self.now name.now }
    {
        let place = self.names.place_of(name)?;
        self.items.as_slice().get(place)
    }
}

impl Known {
    ghost use Rattle.ipe_requests.specs.Known.{at_first, with_open, with_raw, with_text, phases_of, with_asked, with_form, with_line, IsNew};

    /// Before the first line.
    pub fn at_first(alloc: Global) -> Known
        ensures { result ≡ at_first }
    {
        Known {
            section: Section::Start,
            count: 0,
            due: 0,
            text: None,
            workers: 0,
            texts: Declared::new(alloc),
            volumes: Declared::new(alloc),
            files: Declared::new(alloc),
            seals: Declared::new(alloc),
            marks: OpenList::new(alloc),
            phases: OpenList::new(alloc),
            opened: None,
            asked: OpenList::new(alloc),
            devices: WordIndex::new(alloc),
            commands: 0,
            hooks: 0,
            work: 0,
            reads: 0,
            longest: LEAST_READ,
        }
    }

    // A text of which so many lines are still to come. One without such lines is whole.
    fn open_text(&mut self, text: OpenText, due: u32) -> Result<(), AllocError>
        ensures { OnOk result (self.new ≡ with_open self.old text due) }
    {
        if due > 0 {
            self.due = due;
            self.text = Some(text);
            return Ok(());
        }
        let OpenText {
            line,
            id,
            lines,
            bytes,
        } = text;
        let bytes = bytes.into_items();
        let size = bytes.as_slice().len() as u64;
        self.texts.items.push(TextLine {
            line,
            id,
            lines,
            bytes,
        })?;
        self.due = 0;
        self.text = None;
        self.longest = self.longest.max(size);
        Ok(())
    }

    /// Takes a line of the open text.
    pub fn add_raw(&mut self, bytes: &[u8]) -> Result<(), AllocError>
        ensures { OnOk result (self.new ≡ with_raw self.old self.old.text bytes.now) }
    {
        match self.text.take() {
            Some(mut text) => {
                text.bytes.add_line(bytes)?;
                self.open_text(text, self.due.saturating_sub(1))
            }
            None => Ok(()),
        }
    }

    fn add_text(&mut self, alloc: Global, text: OpenText) -> Result<(), AllocError>
        requires { position (is_text text.id) self.old.texts.names ≡ None }
        ensures { OnOk result (self.new ≡ with_text self.old text) }
    {
        self.texts.names.add(alloc, text.id.as_slice())?;
        self.section = Section::Texts;
        let due = text.lines;
        self.open_text(text, due)
    }

    // Puts the phase that has begun last among the phases.
    pub fn close_phase(&mut self, alloc: Global) -> Result<(), AllocError>
        ensures { OnOk result (self.new ≡ record self.old { phases = phases_of self.old; opened = None; asked = [] }) }
    {
        let lines = std::mem::replace(&mut self.asked, OpenList::new(alloc));
        if let Some(line) = self.opened {
            self.opened = None;
            let lines = lines.into_items();
            self.phases.push(Phase { line, lines })?;
        }
        Ok(())
    }

    /// The path of a declared file that stands in this place. It is the file's own, so that a hook takes no memory for it.
    pub fn path_at(
        &self,
        alloc: Global,
        place: usize,
        name: PathName,
    ) -> Result<FilePath, AllocError>
        ensures { IfOk result (λ path. path ≡ name) }
    {
        match self.files.items.as_slice().get(place) {
            Some(file) if file.path.as_slice() == name.as_slice() => file.path.share(),
            _ => FilePath::new(alloc, name),
        }
    }

    fn add_asked(&mut self, what: PhaseLine) -> Result<(), AllocError>
        ensures { OnOk result (self.new ≡ with_asked self.old what) }
    {
        self.count_asked(&what);
        self.section = Section::Asked;
        self.asked.push(what)
    }

    fn add_volume(&mut self, alloc: Global, volume: VolumeLine) -> Result<(), AllocError>
        requires { position (is_text volume.id) self.old.volumes.names ≡ None }
        ensures { OnOk result (self.new ≡ with_line self.old (Line.Volume volume)) }
    {
        add_device(alloc, &mut self.devices, volume.table.device())?;
        add_device(alloc, &mut self.devices, volume.table.hash_device())?;
        self.volumes.names.add(alloc, volume.id.as_slice())?;
        self.volumes.items.push(volume)?;
        self.section = Section::Volumes;
        Ok(())
    }

    fn add_form(&mut self, alloc: Global, form: &FileForm) -> Result<(), AllocError>
        ensures { OnOk result (self.new ≡ record self.old { devices = with_form self.old.devices form.now }) }
    {
        match form {
            FileForm::Plain { device, .. } => {
                add_device(alloc, &mut self.devices, device.as_slice())
            }
            FileForm::Boot { .. } | FileForm::Volume { .. } => Ok(()),
        }
    }

    fn add_file(&mut self, alloc: Global, file: FileLine) -> Result<(), AllocError>
        requires { position (is_text file.path) self.old.files.names ≡ None }
        ensures { OnOk result (self.new ≡ with_line self.old (Line.File file)) }
    {
        self.add_form(alloc, &file.form)?;
        self.files.names.add(alloc, file.path.as_slice())?;
        self.files.items.push(file)?;
        self.section = Section::Files;
        Ok(())
    }

    fn add_seal(&mut self, alloc: Global, seal: SealLine) -> Result<(), AllocError>
        requires { position (is_text seal.path) self.old.seals.names ≡ None }
        ensures { OnOk result (self.new ≡ with_line self.old (Line.Seal seal)) }
    {
        add_device(alloc, &mut self.devices, seal.device.as_slice())?;
        self.seals.names.add(alloc, seal.path.as_slice())?;
        self.seals.items.push(seal)?;
        self.section = Section::Seals;
        Ok(())
    }

    fn add_mark(&mut self, mark: MarkLine) -> Result<(), AllocError>
        ensures { OnOk result (self.new ≡ with_line self.old (Line.Mark mark)) }
    {
        self.marks.push(mark)?;
        self.section = Section::Marks;
        Ok(())
    }

    fn add_phase(&mut self, alloc: Global, line: u32) -> Result<(), AllocError>
        ensures { OnOk result (self.new ≡ with_line self.old (Line.Phase line)) }
    {
        self.close_phase(alloc)?;
        self.opened = Some(line);
        self.section = Section::Phase;
        Ok(())
    }

    fn end(&mut self, alloc: Global) -> Result<(), AllocError>
        ensures { OnOk result (self.new ≡ with_line self.old Line.End) }
    {
        self.close_phase(alloc)?;
        self.section = Section::Ended;
        Ok(())
    }

    /// Takes what a line says.
    pub fn add(&mut self, alloc: Global, line: Line) -> Result<(), AllocError>
        requires { IsNew self.old line }
        ensures { OnOk result (self.new ≡ with_line self.old line) }
    {
        match line {
            Line::Header => {
                self.section = Section::Header;
                Ok(())
            }
            Line::Workers(count) => {
                self.section = Section::Workers;
                self.workers = count;
                Ok(())
            }
            Line::Text(text) => self.add_text(alloc, text),
            Line::Volume(volume) => self.add_volume(alloc, volume),
            Line::File(file) => self.add_file(alloc, file),
            Line::Seal(seal) => self.add_seal(alloc, seal),
            Line::Mark(mark) => self.add_mark(mark),
            Line::Phase(line) => self.add_phase(alloc, line),
            Line::Asked(what) => self.add_asked(what),
            Line::End => self.end(alloc),
        }
    }
}
