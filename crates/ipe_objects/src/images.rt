ghost use Rattle.blk_device.specs.Contents.{HasContent, content};
ghost use Rattle.ipe_words.specs.Count.{Rose};
ghost use Rattle.std.specs.Prelude.{◌≡◌, ◌≤◌, ◌++◌, ◌∷◌, [], IfOk, IfSome, IsErrOf, OnOk};
ghost use Rattle.ipe_objects.specs.Devices.{AreImages, HasRoom, named_devices};
ghost use Rattle.ipe_objects.specs.Loading.{Answers, AreOf, first_refusal, refusal};

use crate::line::{named_devices, need_of};
use blk_device::{DevError, Devices, NamedBytes, ReadDeviceError, read_device};
use ipe_requests::Requests;
use line_words::Bytes;
use std::alloc::{AllocError, Global};

/// The most bytes of a device.
const MOST_BYTES: u64 = 16_777_216;

/// The contents of a request file's devices, by their names.
pub type Images = NamedBytes;

/// Why a request file's devices weren't loaded.
#[derive(Debug, Drop)]
pub enum ImagesError {
    /// A device failed, and counted it.
    DeviceFault,
    /// No device has the name.
    Missing { name: Bytes },
    /// The device has more than 16,777,216 bytes.
    TooLarge { name: Bytes },
    /// The device has fewer bytes than the request file needs of it.
    TooSmall { name: Bytes },
    /// There was no memory for the contents.
    NoMemory,
}

impl From<AllocError> for ImagesError {
    ghost use Rattle.std.specs.Prelude.{◌≡◌};
    ghost use Rattle.ipe_objects.specs.declared.images.ImagesError.TheVariants.{NoMemory};

    ghost from_gives = { λ _ e. e ≡ NoMemory };

    fn from(_: AllocError) -> Self {
        ImagesError::NoMemory
    }
}

// Loads the device of this name, which needs so many bytes.
fn load_device<D: Devices>(
    alloc: Global,
    devices: &mut D,
    name: Bytes,
    need: u64,
) -> Result<(Bytes, Bytes), ImagesError>
    ensures name { IfOk result (λ item. item.0 ≡ name) }
    ensures room { IfOk result (λ item. HasRoom need item.1) }
    ensures content { IfOk result (λ item. HasContent (D.contents devices.old) name item.1) }
    ensures answer { IfSome (D.contents devices.old) (λ told. Answers result (refusal need name (content name told))) }
    ensures failed { IsErrOf result ImagesError.DeviceFault → Rose (D.faults devices.old) (D.faults devices.new) }
    ensures same { D.contents devices.new ≡ D.contents devices.old }
    ensures never_falls { D.faults devices.old ≤ D.faults devices.new }
{
    let size = match devices.size(name.as_slice()) {
        Ok(size) => size,
        Err(DevError::Failed) => return Err(ImagesError::DeviceFault),
        Err(DevError::Missing) => return Err(ImagesError::Missing { name }),
    };
    if size > MOST_BYTES {
        return Err(ImagesError::TooLarge { name });
    }
    if size < need {
        return Err(ImagesError::TooSmall { name });
    }
    match read_device(alloc, devices, name.as_slice(), size) {
        Ok(bytes) => Ok((name, Bytes::from_vec(bytes))),
        Err(ReadDeviceError::Failed) => Err(ImagesError::DeviceFault),
        Err(ReadDeviceError::Missing) => Err(ImagesError::Missing { name }),
        Err(ReadDeviceError::NoMemory) => Err(ImagesError::NoMemory),
    }
}

fn add(items: &mut Vec<(Bytes, Bytes)>, item: (Bytes, Bytes)) -> Result<(), AllocError>
    ensures { OnOk result (items.new.items ≡ items.old.items ++ item ∷ []) }
{
    items.push(item)?;
    Ok(())
}

/// Loads the devices that a request file names, in the order of their first naming, each whole. The first that can't be
/// loaded ends the call.
pub fn load_images<D: Devices>(
    alloc: Global,
    requests: &Requests,
    devices: &mut D,
) -> Result<Images, ImagesError>
    ensures images { IfOk result (λ images. AreImages requests.now images) }
    ensures content { IfOk result (λ images. AreOf (D.contents devices.old) (named_devices requests.now) images) }

    // Where the contents are told, the first device that is missing, too large or too small is named, and there is none
    // where all were loaded, unless a device failed or memory ran out.
    ensures answer { IfSome (D.contents devices.old) (λ told. Answers result (first_refusal requests.now told)) }
    ensures failed { IsErrOf result ImagesError.DeviceFault → Rose (D.faults devices.old) (D.faults devices.new) }
    ensures same { D.contents devices.new ≡ D.contents devices.old }
    ensures never_falls { D.faults devices.old ≤ D.faults devices.new }
{
    let names = named_devices(alloc, requests)?;
    let mut items = Vec::new(alloc);
    for name in names.as_slice() {
        let need = need_of(requests, name.as_slice());
        let name = name.as_slice().to_vec(alloc)?;
        match load_device(alloc, devices, Bytes::from_vec(name), need) {
            Ok(item) => add(&mut items, item)?,
            Err(error) => return Err(error),
        }
    }
    Ok(NamedBytes::from_vec(items))
}
