ghost use Rattle.std.specs.Prelude.{◌≡◌, ◌+◌, ◌*◌, length, nat_le, nat_lt};

use crate::known::Known;
use crate::line::Line;
use crate::script::FileForm;
use dmv_volume::Table;

const MOST_TEXTS: usize = 256;

const MOST_VOLUMES: usize = 64;

const MOST_FILES: usize = 1024;

const MOST_DEVICES: usize = 8;

const MOST_MARKS: usize = 4096;

const MOST_PHASES: usize = 1000;

const MOST_COMMANDS: u64 = 100_000;

const MOST_HOOKS: u64 = 200_000;

const MOST_WORK: u64 = 1 << 30;

const MOST_READS: u64 = 1 << 26;

impl Known {
    ghost use Rattle.ipe_requests.specs.Known.{phases_of, has_few_lines, asks_little, is_within_limits, ends_beyond, is_out_of_range};

    fn has_few_phases(&self) -> bool
        ensures { result ≡ nat_le (length (phases_of self.now)) 1000 }
    {
        match self.opened {
            Some(_) => self.phases.len() < MOST_PHASES,
            None => self.phases.len() <= MOST_PHASES,
        }
    }

    fn has_few_lines(&self) -> bool
        ensures { result ≡ has_few_lines self.now }
    {
        self.texts.names.len() <= MOST_TEXTS
            && self.volumes.names.len() <= MOST_VOLUMES
            && self.files.names.len() <= MOST_FILES
            && self.devices.len() <= MOST_DEVICES
            && self.marks.len() <= MOST_MARKS
            && self.has_few_phases()
    }

    fn asks_little(&self) -> bool
        ensures { result ≡ asks_little self.now }
    {
        self.commands <= MOST_COMMANDS
            && self.hooks <= MOST_HOOKS
            && self.work <= MOST_WORK
            && self.reads <= MOST_READS
    }

    /// Whether no limit is exceeded.
    pub fn is_within_limits(&self) -> bool
        ensures { result ≡ is_within_limits self.now }
    {
        self.has_few_lines() && self.asks_little()
    }

    fn ends_beyond(&self, form: &FileForm) -> bool
        ensures { result ≡ ends_beyond self.now form.now }
    {
        let FileForm::Volume {
            volume,
            first,
            size,
            ..
        } = form
        else {
            return false;
        };
        match self.volumes.get(volume.as_slice()) {
            Some(named) => is_beyond(&named.table, *first, *size),
            None => false,
        }
    }

    /// Whether a line's range ends beyond what it is a range of.
    pub fn is_out_of_range(&self, line: &Line) -> bool
        ensures { result ≡ is_out_of_range self.now line.now }
    {
        match line {
            Line::File(file) => self.ends_beyond(&file.form),
            _ => false,
        }
    }
}

// So many bytes from a block on end beyond the data blocks.
fn is_beyond(table: &Table, first: u64, size: u64) -> bool
    ensures { result ≡ nat_lt (table.now.blocks * table.now.block_size) (first * table.now.block_size + size) }
{
    let block_size = u64::from(table.block_size());
    let end = first.saturating_mul(block_size).saturating_add(size);
    table.blocks() * block_size < end
}
