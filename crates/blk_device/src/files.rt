ghost use Rattle.ipe_words.specs.Count.{Rose, counted};
ghost use Rattle.std.specs.Prelude.{◌≡◌, ◌<◌, ◌≤◌, Err, length, IfOk, IsErrOf, if◌then◌else◌};

use super::{DevError, Devices};
use std::io::{ErrorKind, Read, Seek, SeekFrom};
use std::marker::Model;
use std::os::unix::fs::FileTypeExt;
use std::rt::Files;
use std::{fs, io, str};

/// The files and block devices of a system as devices. A name is a path, seen from the present folder. Of one that
/// isn't there nothing is counted. Every other error is a fault, and so is a path of something else, as a directory or a
/// pipe, and a file that gives nothing. Nothing is tried again.
#[derive(Drop)]
pub struct FileDevices<R> {
    files: R,
    faults: u64,
}

impl<R> Model for FileDevices<R> {
    ghost use Rattle.ipe_words.specs.Count.{Adapter};

    ghost Value = { Adapter R };

    ghost view = { λ s. record { inner = s.files; faults = s.faults } };
}

impl<R> FileDevices<R> {
    /// The files that this runtime opens.
    pub fn new(files: R) -> FileDevices<R>
        ensures { result ≡ record { inner = files; faults = 0 } }
    {
        FileDevices { files, faults: 0 }
    }

    // What an error answers: only a file that isn't there is missing.
    fn answer(&mut self, error: io::Error) -> DevError
        ensures counts { result ≡ DevError.Failed → self.new ≡ record self.old { faults = counted self.old.faults } }
        ensures others { result ≡ DevError.Missing → self.new ≡ self.old }
        ensures never_falls { self.old.faults ≤ self.new.faults }
    {
        if error.kind() == ErrorKind::NotFound {
            return DevError::Missing;
        }
        self.fault()
    }

    // Counts a fault.
    fn fault(&mut self) -> DevError
        ensures error { result ≡ DevError.Failed }
        ensures counted { self.new ≡ record self.old { faults = counted self.old.faults } }
        ensures never_falls { self.old.faults ≤ self.new.faults }
    {
        self.faults = self.faults.saturating_add(1);
        DevError::Failed
    }
}

impl<R: Files> Devices for FileDevices<R> {
    ghost use Rattle.std.specs.Prelude.{None};

    ghost contents = { λ _. None };

    ghost faults = { λ s. s.faults };

    fn size(&mut self, name: &[u8]) -> Result<u64, DevError>
        ensures failed { IsErrOf result DevError.Failed → Rose self.old.faults self.new.faults }
        ensures never_falls { self.old.faults ≤ self.new.faults }

        // Each failure is counted once, and nothing else is.
        ensures counts { IsErrOf result DevError.Failed → self.new.faults ≡ counted self.old.faults }
        ensures others { (result ≡ Err DevError.Failed → ⊥) → self.new.faults ≡ self.old.faults }
    {
        match size_of(&self.files, name) {
            Ok(size) => Ok(size),
            Err(error) => Err(self.answer(error)),
        }
    }

    fn read_at(&mut self, name: &[u8], at: u64, out: &mut [u8]) -> Result<usize, DevError>
        ensures bound { IfOk result (λ n. n ≤ length out.old) }
        ensures progress { IfOk result (λ n. 0 < length out.old → 0 < n) }
        ensures failed { IsErrOf result DevError.Failed → Rose self.old.faults self.new.faults }
        ensures never_falls { self.old.faults ≤ self.new.faults }

        // Each failure is counted once, and nothing else is.
        ensures counts { IsErrOf result DevError.Failed → self.new.faults ≡ counted self.old.faults }
        ensures others { (result ≡ Err DevError.Failed → ⊥) → self.new.faults ≡ self.old.faults }
    {
        match read_from(&self.files, name, at, out) {
            Ok(count) if count > 0 || out.is_empty() => Ok(count),
            Ok(_) => Err(self.fault()),
            Err(error) => Err(self.answer(error)),
        }
    }
}

fn size_of<R: Files>(files: &R, name: &[u8]) -> io::Result<u64> {
    open(files, name)?.seek(SeekFrom::End(0))
}

fn read_from<R: Files>(files: &R, name: &[u8], at: u64, out: &mut [u8]) -> io::Result<usize>
    ensures { IfOk result (λ n. n ≤ length out.old) }
{
    let mut file = open(files, name)?;
    file.seek(SeekFrom::Start(at))?;
    file.read(out)
}

// A pipe isn't opened, since that would wait for one who writes to it.
fn open<R: Files>(files: &R, name: &[u8]) -> io::Result<R::File> {
    let path = str::from_utf8(name).map_err(|_| io::Error::from(ErrorKind::InvalidInput))?;
    let kind = fs::metadata(files, path)?.file_type();
    if !kind.is_file() && !kind.is_block_device() {
        return Err(io::Error::from(ErrorKind::InvalidInput));
    }
    fs::open(files, path)
}
