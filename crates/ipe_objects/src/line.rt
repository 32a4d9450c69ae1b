ghost use Rattle.std.specs.Prelude.{◌≡◌, List, max, min, IfOk, if◌then◌else◌};
ghost use Rattle.std.specs.List.{flat_map};
ghost use Rattle.line_words.specs.Words.{is_text};
ghost use Rattle.dmv_volume.specs.Reading.{data_need, hash_need};
ghost use Rattle.ipe_objects.specs.Devices.{Naming, named_by_file, named_by_seal, named_by_volume, named_devices, need_in, need_of, with_named};

use crate::names::Names;
use dmv_volume::Table;
use ipe_requests::{FileForm, FileLine, Requests, SealLine, VolumeLine};
use std::alloc::{AllocError, Global};

/// A line that names devices, each with the bytes that it needs of it.
pub trait NamesDevices {
    ghost namings: { Self → List Naming };

    /// The names with those of the line.
    fn with_names(&self, alloc: Global, names: Names) -> Result<Names, AllocError>
        ensures { IfOk result (λ more. more ≡ with_named names (namings self.now)) };

    /// How many bytes the line needs of the device of this name. A need stands still at 2^64 - 1.
    fn need(&self, name: &[u8]) -> u64
        ensures { result ≡ min (need_in (namings self.now) name.now) u64.MAX };
}

/// How many bytes the device of a table's data has to have.
pub fn data_need(table: &Table) -> u64
    ensures { result ≡ data_need table.now }
{
    table.blocks() * u64::from(table.block_size())
}

fn hash_need(table: &Table) -> u64
    ensures { result ≡ hash_need table.now }
{
    (table.hash_start() + table.hash_blocks()) * u64::from(table.block_size())
}

// The need, where it is of the device of this name.
fn need_if(name: &[u8], device: &[u8], need: u64) -> u64
    ensures { result ≡ (if is_text name.now device.now then need else 0) }
{
    if device == name { need } else { 0 }
}

impl NamesDevices for VolumeLine {
    ghost namings = { named_by_volume };

    fn with_names(&self, alloc: Global, names: Names) -> Result<Names, AllocError> {
        let names = names.with(alloc, self.table.device())?;
        names.with(alloc, self.table.hash_device())
    }

    fn need(&self, name: &[u8]) -> u64 {
        let data = need_if(name, self.table.device(), data_need(&self.table));
        let hashes = need_if(name, self.table.hash_device(), hash_need(&self.table));
        data.max(hashes)
    }
}

impl NamesDevices for FileLine {
    ghost namings = { named_by_file };

    fn with_names(&self, alloc: Global, names: Names) -> Result<Names, AllocError> {
        match &self.form {
            FileForm::Plain { device, .. } => names.with(alloc, device.as_slice()),
            FileForm::Boot { .. } | FileForm::Volume { .. } => Ok(names),
        }
    }

    fn need(&self, name: &[u8]) -> u64 {
        match &self.form {
            FileForm::Plain {
                device,
                at,
                size,
                ..
            } => need_if(name, device.as_slice(), at.saturating_add(*size)),
            FileForm::Boot { .. } | FileForm::Volume { .. } => 0,
        }
    }
}

impl NamesDevices for SealLine {
    ghost namings = { named_by_seal };

    fn with_names(&self, alloc: Global, names: Names) -> Result<Names, AllocError> {
        names.with(alloc, self.device.as_slice())
    }

    fn need(&self, name: &[u8]) -> u64 {
        need_if(name, self.device.as_slice(), self.at.saturating_add(256))
    }
}

// The names with those of lines.
fn with_lines<T: NamesDevices>(
    alloc: Global,
    names: Names,
    lines: &[T],
) -> Result<Names, AllocError>
    ensures { IfOk result (λ more. more ≡ with_named names (flat_map T.namings lines.now)) }
{
    let mut more = names;
    for line in lines {
        more = line.with_names(alloc, more)?;
    }
    Ok(more)
}

fn greater(a: u64, b: u64) -> u64
    ensures { result ≡ max a b }
{
    if a < b { b } else { a }
}

// How many bytes lines need of the device of this name.
fn need_of_lines<T: NamesDevices>(lines: &[T], name: &[u8]) -> u64
    ensures { result ≡ min (need_in (flat_map T.namings lines.now) name.now) u64.MAX }
{
    let mut need = 0;
    for line in lines {
        need = greater(need, line.need(name));
    }
    need
}

/// The devices that a request file names.
pub fn named_devices(alloc: Global, requests: &Requests) -> Result<Names, AllocError>
    ensures { IfOk result (λ names. names ≡ named_devices requests.now) }
{
    let names = with_lines(alloc, Names::new(alloc), requests.volumes.as_slice())?;
    let names = with_lines(alloc, names, requests.files.as_slice())?;
    with_lines(alloc, names, requests.seals.as_slice())
}

/// How many bytes a request file needs of a device. A need stands still at 2^64 - 1.
pub fn need_of(requests: &Requests, name: &[u8]) -> u64
    ensures { result ≡ min (need_of requests.now name.now) u64.MAX }
{
    let volumes = need_of_lines(requests.volumes.as_slice(), name);
    let files = need_of_lines(requests.files.as_slice(), name);
    let seals = need_of_lines(requests.seals.as_slice(), name);
    greater(greater(volumes, files), seals)
}
