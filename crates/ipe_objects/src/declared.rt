ghost use Rattle.std.specs.Prelude.{◌≡◌, ◌≤◌, Contains, drop, length, map, position, slice_get, take, IfOk};
ghost use Rattle.std.specs.Option.{option_and_then, option_copied};
ghost use Rattle.line_words.specs.Words.{is_text};
ghost use Rattle.ipe_requests.specs.declared.script.FileLine.{FileLine};
ghost use Rattle.ipe_requests.specs.declared.script.VolumeLine.{VolumeLine};
ghost use Rattle.ipe_requests.specs.Requests.{file_of, text_of, volume_of};
ghost use Rattle.ipe_objects.specs.Devices.{AreImages, bytes_under, most_bytes};
ghost use Rattle.ipe_objects.specs.Files.{bytes_by, range_of, seal_of};

use crate::images::Images;
use crate::line::data_need;
use crate::places::{Places, item_of};
use dmv_volume::Table;
use ipe_requests::{
    FileForm, FileLine, Requests, SealLine, TextLine, VolumeLine,
    requests_are_read_of_their_spelling,
};
use std::alloc::{AllocError, Global};
use std::marker::Model;

/// What a request file declares, each thing found by its name in one look-up.
#[derive(Drop)]
pub struct Declared<'a> {
    requests: &'a Requests,
    texts: Places,
    volumes: Places,
    files: Places,
    seals: Places,
}

impl<'a> Model for Declared<'a> {
    ghost use Rattle.ipe_requests.specs.Requests.{Script};
    ghost use Rattle.ipe_objects.specs.Ready.{AreDeclared};

    ghost Value = { Script };

    ghost view = { λ s. s.requests.now };

    ghost invariant = { λ s. AreDeclared s.requests.now s.texts s.volumes s.files s.seals };
}

impl<'a> Declared<'a> {
    /// What this request file declares.
    pub fn of(alloc: Global, requests: &'a Requests) -> Result<Declared<'a>, AllocError>
        ensures { IfOk result (λ declared. declared ≡ requests.now) }
    {
        Ok(Declared {
            requests,
            texts: Places::of(alloc, requests.texts.as_slice())?,
            volumes: Places::of(alloc, requests.volumes.as_slice())?,
            files: Places::of(alloc, requests.files.as_slice())?,
            seals: Places::of(alloc, requests.seals.as_slice())?,
        })
    }

    /// The files, in the order of their lines.
    pub fn files(&self) -> &[FileLine]
        ensures { result.now ≡ self.now.files }
    {
        let requests: &Requests = self.requests;
        requests.files.as_slice()
    }

    /// The volumes, in the order of their lines.
    pub fn volumes(&self) -> &[VolumeLine]
        ensures { result.now ≡ self.now.volumes }
    {
        let requests: &Requests = self.requests;
        requests.volumes.as_slice()
    }

    /// The texts, in the order of their lines.
    pub fn texts(&self) -> &[TextLine]
        ensures { result.now ≡ self.now.texts }
    {
        let requests: &Requests = self.requests;
        requests.texts.as_slice()
    }

    /// The place of the text of an id among the texts.
    pub fn text_place(&self, id: &[u8]) -> Option<usize>
        ensures { option_and_then (slice_get self.now.texts) result ≡ text_of self.now id.now }
    {
        self.texts.get(id)
    }

    /// The text of an id.
    pub fn text(&self, id: &[u8]) -> Option<&TextLine>
        ensures { option_copied result ≡ text_of self.now id.now }
    {
        let requests: &Requests = self.requests;
        item_of(&self.texts, requests.texts.as_slice(), id)
    }

    /// The place of the volume of an id among the volumes.
    pub fn volume_place(&self, id: &[u8]) -> Option<usize>
        ensures { result ≡ position (is_text id.now) (map (λ (volume : VolumeLine). volume.id) self.now.volumes) }
    {
        self.volumes.get(id)
    }

    /// The volume of an id.
    pub fn volume(&self, id: &[u8]) -> Option<&VolumeLine>
        ensures { option_copied result ≡ volume_of self.now id.now }
    {
        let requests: &Requests = self.requests;
        item_of(&self.volumes, requests.volumes.as_slice(), id)
    }

    /// The place of the file of a path among the files.
    pub fn file_place(&self, path: &[u8]) -> Option<usize>
        ensures { result ≡ position (is_text path.now) (map (λ (file : FileLine). file.path) self.now.files) }
    {
        self.files.get(path)
    }

    /// The file of a path.
    pub fn file(&self, path: &[u8]) -> Option<&FileLine>
        ensures { option_copied result ≡ file_of self.now path.now }
    {
        let requests: &Requests = self.requests;
        item_of(&self.files, requests.files.as_slice(), path)
    }

    /// The seal of the file of a path.
    pub fn seal(&self, path: &[u8]) -> Option<&SealLine>
        ensures { option_copied result ≡ seal_of self.now path.now }
    {
        let requests: &Requests = self.requests;
        item_of(&self.seals, requests.seals.as_slice(), path)
    }

    /// The size of a declared file: at most 16,777,216 bytes.
    pub fn size(&self, images: &Images, file: &FileLine) -> u64
        requires images { AreImages self.now images.now }
        requires declared { Contains self.now.files file.now }
        ensures size { result ≡ length (bytes_by self.now images.now file.now.form) }
        ensures few { result ≤ most_bytes }
    {
        requests_are_read_of_their_spelling(self.requests);
        self.bytes(images, &file.form).len() as u64
    }

    /// The bytes of a file.
    pub fn bytes<'x>(&'x self, images: &'x Images, form: &FileForm) -> &'x [u8]
        ensures { result.now ≡ bytes_by self.now images.now form.now }
    {
        match form {
            FileForm::Boot { text, .. } => match self.text(text.as_slice()) {
                Some(declared) => declared.bytes.as_slice(),
                None => &[],
            },
            FileForm::Volume {
                volume,
                first,
                size,
                ..
            } => match self.volume(volume.as_slice()) {
                Some(declared) => range_of(images, *first, *size, &declared.table),
                None => &[],
            },
            FileForm::Plain {
                device,
                at,
                size,
                ..
            } => part(bytes_under(images, device.as_slice()), *at, *size),
        }
    }
}

/// The bytes under a name.
pub fn bytes_under<'x>(images: &'x Images, name: &[u8]) -> &'x [u8]
    ensures { result.now ≡ bytes_under images.now name.now }
{
    match images.get(name) {
        Some(bytes) => bytes,
        None => &[],
    }
}

// So many bytes from one on, as many as there are.
fn part<'x>(bytes: &'x [u8], at: u64, size: u64) -> &'x [u8]
    ensures { result.now ≡ take size (drop at bytes.now) }
{
    let rest = &bytes[bytes.len().min(at as usize)..];
    &rest[..rest.len().min(size as usize)]
}

/// So many bytes of a volume's data from a data block on.
pub fn range_of<'x>(images: &'x Images, first: u64, size: u64, table: &Table) -> &'x [u8]
    ensures { result.now ≡ range_of images.now first size table.now }
{
    let data = part(bytes_under(images, table.device()), 0, data_need(table));
    let at = first.saturating_mul(u64::from(table.block_size()));
    part(data, at, size)
}
