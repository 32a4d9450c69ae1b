ghost use Rattle.blk_device.specs.Contents.{content};
ghost use Rattle.dmv_volume.specs.Reading.{data_need, hash_need};
ghost use Rattle.fsv_file.specs.File.{file_block_size, blocks_of, path_to, tree_of_file};
ghost use Rattle.hash_tree.specs.Tree.{filled};
ghost use Rattle.sha2.specs.Sha256.{sha256};
ghost use Rattle.stored_tree.specs.Checked.{failing};
ghost use Rattle.stored_tree.specs.Stored.{end_of};
ghost use Rattle.std.specs.List.{range_with_len};
ghost use Rattle.std.specs.Prelude.{◌≡◌, ◌+◌, ◌<◌, ◌≤◌, Contains, length, min, IfOk, IsSomeAnd};
ghost use Rattle.ipe_objects.specs.Contents.{content_of, file_fault, own_content, range_fault, volume_fault, volume_fault_at};
ghost use Rattle.ipe_objects.specs.Devices.{AreImages, HasRoom, bytes_under};
ghost use Rattle.ipe_objects.specs.Files.{bytes_by, seal_of};
ghost use Rattle.ipe_objects.specs.Firsts.{first_some};
ghost use Rattle.ipe_objects.specs.Ready.{tables_of};

use crate::declared::{Declared, range_of};
use crate::images::Images;
use crate::objects::Objects;
use crate::seals::descriptor_of;
use crate::view::View;
use blk_device::{ImageDevices, VerityError};
use dmv_volume::{Table, Volume};
use fsv_file::FsvFile;
use fsv_tree::Descriptor;
use ipe_requests::{FileForm, FileLine};
use ipe_transcript::Content;
use sha2::{Digest, Sha256};
use std::alloc::{AllocError, Global};

/// The level and the number of a block that fails.
pub type Fault = Option<(u8, u64)>;

// The block that fails on the path to data block i of a volume.
fn block_fault(images: &Images, table: &Table, volume: &mut Volume, i: u64, out: &mut [u8]) -> Fault
    requires table { volume.old.table ≡ table.now }
    requires data { IsSomeAnd (content table.now.device images.now) (HasRoom (data_need table.now)) }
    requires hashes { IsSomeAnd (content table.now.hash_device images.now) (HasRoom (hash_need table.now)) }
    requires block { i < table.now.blocks }
    requires out { length out.old ≡ table.now.block_size }
    ensures fault { result ≡ volume_fault_at images.now table.now i }
    ensures same { volume.new.table ≡ volume.old.table }
{
    let mut devices = ImageDevices::new(images);
    match volume.read_block(&mut devices, i, out) {
        Ok(()) => None,
        Err(VerityError::Corrupt { level, block }) => Some((level, block)),
        Err(VerityError::DeviceFault) => unreachable!(),
        Err(VerityError::Missing) => unreachable!(),
    }
}

// The first block that fails among the paths to so many data blocks of a volume from one on. Each is read into `out`.
fn blocks_fault(
    images: &Images,
    table: &Table,
    volume: &mut Volume,
    first: u64,
    count: u64,
    out: &mut [u8],
) -> Fault
    requires table { volume.old.table ≡ table.now }
    requires data { IsSomeAnd (content table.now.device images.now) (HasRoom (data_need table.now)) }
    requires hashes { IsSomeAnd (content table.now.hash_device images.now) (HasRoom (hash_need table.now)) }
    requires within { first + count ≤ table.now.blocks }
    requires few { first + count ≤ 4096 }
    requires out { length out.old ≡ table.now.block_size }
    ensures fault { result ≡ first_some (volume_fault_at images.now table.now) (range_with_len first count) }
    ensures same { volume.new.table ≡ volume.old.table }
{
    for i in first..first + count {
        match block_fault(images, table, volume, i, out) {
            Some(fault) => return Some(fault),
            None => {}
        }
    }
    None
}

// The block that fails on the path to block i of a file, which is handed in.
fn sealed_fault(images: &Images, file: &mut FsvFile, block: &[u8], i: u64) -> Fault
    requires block { i < blocks_of file.old.descriptor }
    requires one_block { length block.now ≡ file_block_size file.old.descriptor }
    requires tree { IsSomeAnd (content file.old.device images.now) (HasRoom (end_of (tree_of_file file.old))) }
    ensures fault { result
        ≡ failing (tree_of_file file.old) i (path_to file.old (bytes_under images.now file.old.device) i block.now) }
    ensures same { file.new ≡ record file.old { path = file.new.path } }
{
    let mut devices = ImageDevices::new(images);
    match file.check_block(&mut devices, block, i) {
        Ok(()) => None,
        Err(VerityError::Corrupt { level, block }) => Some((level, block)),
        Err(VerityError::DeviceFault) => unreachable!(),
        Err(VerityError::Missing) => unreachable!(),
    }
}

// A short block, filled with zeros to a size.
fn padded(alloc: Global, part: &[u8], size: usize) -> Result<Vec<u8>, AllocError>
    requires { length part.now ≤ size }
    ensures { IfOk result (λ full. full.items ≡ filled size part.now) }
{
    let mut full = Vec::with_capacity(alloc, size)?;
    full.extend_from_slice(part)?;
    full.resize(size, 0)?;
    Ok(full)
}

// The same of a block that may be a short one. Only that is copied.
fn part_fault(
    alloc: Global,
    images: &Images,
    file: &mut FsvFile,
    size: usize,
    part: &[u8],
    i: u64,
) -> Result<Fault, AllocError>
    requires block { i < blocks_of file.old.descriptor }
    requires size { size ≡ file_block_size file.old.descriptor }
    requires part { length part.now ≤ size }
    requires tree { IsSomeAnd (content file.old.device images.now) (HasRoom (end_of (tree_of_file file.old))) }
    ensures fault { IfOk result (λ fault. fault
        ≡ failing (tree_of_file file.old) i (path_to file.old (bytes_under images.now file.old.device) i (filled size part.now))) }
    ensures same { file.new ≡ record file.old { path = file.new.path } }
{
    if part.len() == size {
        return Ok(sealed_fault(images, file, part, i));
    }
    let full = padded(alloc, part, size)?;
    Ok(sealed_fault(images, file, &full, i))
}

fn lesser(a: usize, b: usize) -> usize
    ensures { result ≡ min a b }
{
    if a < b { a } else { b }
}

// The first block that fails among the paths to a file's blocks.
fn file_fault(
    alloc: Global,
    images: &Images,
    bytes: &[u8],
    descriptor: &Descriptor,
    file: &mut FsvFile,
) -> Result<Fault, AllocError>
    requires descriptor { file.old.descriptor ≡ descriptor.now }
    requires size { length bytes.now ≡ descriptor.now.size }
    requires tree { IsSomeAnd (content file.old.device images.now) (HasRoom (end_of (tree_of_file file.old))) }
    ensures { IfOk result (λ fault. fault ≡ file_fault images.now bytes.now file.old) }
{
    let size = descriptor.block_size() as usize;
    for i in 0..descriptor.blocks() {
        let at = i as usize * size;
        let part = &bytes[at..lesser(bytes.len(), at + size)];
        match part_fault(alloc, images, file, size, part, i)? {
            Some(fault) => return Ok(Some(fault)),
            None => {}
        }
    }
    Ok(None)
}

fn hash_of(bytes: &[u8]) -> Content
    ensures { result ≡ Content.Hash (sha256 bytes.now) }
{
    Content::Hash(Sha256::digest(bytes))
}

// The first block that fails among the paths to the data blocks in which so many bytes from a block on are.
fn range_fault(
    alloc: Global,
    images: &Images,
    table: &Table,
    volume: &mut Volume,
    first: u64,
    size: u64,
) -> Result<Fault, AllocError>
    requires table { volume.old.table ≡ table.now }
    requires data { IsSomeAnd (content table.now.device images.now) (HasRoom (data_need table.now)) }
    requires hashes { IsSomeAnd (content table.now.hash_device images.now) (HasRoom (hash_need table.now)) }
    ensures fault { IfOk result (λ fault. fault ≡ range_fault images.now first size table.now) }
    ensures same { volume.new.table ≡ volume.old.table }
{
    let bytes = range_of(images, first, size, table).len() as u64;
    if bytes == 0 {
        return Ok(None);
    }
    let count = bytes.div_ceil(u64::from(table.block_size()));
    let mut out = vec![in alloc; 0; table.block_size() as usize]?;
    Ok(blocks_fault(images, table, volume, first, count, &mut out))
}

// What fails first of the volume that a file is on.
fn volume_fault(
    alloc: Global,
    declared: &Declared,
    images: &Images,
    view: &mut View,
    file: &FileLine,
) -> Result<Fault, AllocError>
    requires images { AreImages declared.now images.now }
    requires view { view.old ≡ tables_of declared.now }
    ensures fault { IfOk result (λ fault. fault ≡ volume_fault declared.now images.now file.now.form) }
    ensures same { view.new ≡ view.old }
{
    let FileForm::Volume {
        volume: id,
        first,
        size,
        ..
    } = &file.form
    else {
        return Ok(None);
    };
    let Some(place) = declared.volume_place(id.as_slice()) else {
        return Ok(None);
    };
    let table = &declared.volumes()[place].table;
    let volume = &mut view.volumes[place];
    range_fault(alloc, images, table, volume, *first, *size)
}

// What a file comes to, nothing of whose volume fails.
fn own_content(
    alloc: Global,
    declared: &Declared,
    images: &Images,
    file: &FileLine,
) -> Result<Content, AllocError>
    requires images { AreImages declared.now images.now }
    requires declared { Contains declared.now.files file.now }
    ensures { IfOk result (λ content. content ≡ own_content images.now (bytes_by declared.now images.now file.now.form)
        (seal_of declared.now file.now.path)) }
{
    let bytes = declared.bytes(images, &file.form);
    let Some(seal) = declared.seal(file.path.as_slice()) else {
        return Ok(hash_of(bytes));
    };
    let descriptor = match descriptor_of(images, seal, declared.size(images, file)) {
        Ok(descriptor) => descriptor,
        Err(bad) => return Ok(Content::BadDescriptor { byte: bad.byte }),
    };
    let mut sealed = FsvFile::attach(alloc, &descriptor, seal.device.as_slice(), seal.at + 256)?;
    match file_fault(alloc, images, bytes, &descriptor, &mut sealed)? {
        Some((level, block)) => Ok(Content::FileCorrupt { level, block }),
        None => Ok(hash_of(bytes)),
    }
}

/// Reads the file of a path, block by block: first the blocks of its volume are checked, then, where it has a seal, its
/// descriptor is read and its own blocks are checked. The first fault ends the reading, and without one the file is
/// hashed. A path that isn't declared has no bytes.
pub fn read_file(
    alloc: Global,
    objects: &Objects,
    images: &Images,
    view: &mut View,
    path: &[u8],
) -> Result<Content, AllocError>
    requires images { AreImages objects.now.script images.now }
    requires view { view.old ≡ tables_of objects.now.script }
    ensures content { IfOk result (λ content. content ≡ content_of objects.now.script images.now path.now) }
    ensures same { view.new ≡ view.old }
{
    let declared = objects.declared();
    let Some(file) = declared.file(path) else {
        return Ok(hash_of(&[]));
    };
    match volume_fault(alloc, declared, images, view, file)? {
        Some((level, block)) => Ok(Content::VolumeCorrupt { level, block }),
        None => own_content(alloc, declared, images, file),
    }
}
