ghost use Rattle.ipe_objects.specs.Devices.{AreImages};
ghost use Rattle.ipe_signer.specs.declared.signer.Verdict.TheVariants.{Trusted};

use blk_device::{MemoryDevices, NamedBytes};
use ipe_objects::{Images, ImagesError, Objects, View, load_images, read_file};
use ipe_policy::Signed;
use ipe_requests::{Requests, parse_requests};
use ipe_signer::{Purpose, Signer, Verdict};
use ipe_transcript::Content;
use line_words::{Bytes, hex_bytes};
use std::alloc::{AllocError, Global};
use std::process::Abort;
use std::test::Fail;

// A text, four data blocks with their tree, a block that is its own tree, and a sealed file on a plain device.
const REQUESTS: &str = "ipe-requests 1
workers 1
text init 1
hello
volume app 1 app.img app.hash 512 512 4 0 sha256 aa3a7f6236114854f9c667663c7b14f5de261e4f83c3f4cb2164133020c27aba ab01
volume zero 1 z.img z.img 512 512 1 0 sha256 076a27c79e5ace2a3d47f9dd2e83e4ff6ea8872b3c2218f66c92b89b55f36560 - 2 root_hash_sig_key_desc app-key
file /init boot rootfs 2 init
file /tool volume app 1 700 12
file /zero volume zero 0 512 3
file /sealed plain disk 0 1500 sda 4
seal /sealed disk 1500
phase
end
";

// Byte k of the data is k % 251. The root and the tree are those of `veritysetup format` with salt ab01, the digest of 700
// bytes of the data from byte 512 on is that of `sha256sum`.
const APP_ROOT: &str = "aa3a7f6236114854f9c667663c7b14f5de261e4f83c3f4cb2164133020c27aba";

const APP_TREE: &str = "ae8b9bbbd52745eb416375bd4f38248995b802b766a90a260a7c1e0b5d7096564\
                        5c10c98a4cfb6dc27bba0618545a66d01f890159875ccf5066f92bbdf5fd0eaef\
                        ae1fbe9d49e73525a4f8538e20a969666c7bc680f86ab5a904ae47ab4ff3ba532\
                        41c898e029dda66b6ba7f8dc486c7e3370c27ac17cfab5dbef2b981650687";

const TOOL_DIGEST: &str = "ae69e9ec113ec5055d55bae2b08988fd82931a136d85830a0211c01bb75289b1";

const ZERO_DIGEST: &str = "076a27c79e5ace2a3d47f9dd2e83e4ff6ea8872b3c2218f66c92b89b55f36560";

const HELLO_DIGEST: &str = "5891b5b522d5df086d0ff0b110fbd9d21bb4fc7163af34d08286a2e846f6be03";

// Byte k of the sealed file is 7 * k % 253. Its file digest, the front of its descriptor and that of its tree are those of
// `fsverity digest` with blocks of 1,024 bytes and salt 0102030405, the digest of its bytes is that of `sha256sum`.
const SEAL_DIGEST: &str = "dd25c2925f4c48916c9ae2891e6272c908ba66b549e71f3068dbc4ebc8568d67";

const SEAL_DESCRIPTOR: &str = "01010a0500000000dc05000000000000\
                               dde988854fbaae1e10031cc81863841e458170ebc4c902173db6959eb38199e2\
                               0000000000000000000000000000000000000000000000000000000000000000\
                               0102030405";

const SEAL_TREE: &str = "c1c0b0bc95eaff49a46fb5617d8064f24913491201ee6d5daf4f6ff51ddf061d\
                         a57ab75074b0263a2edabd6b6544eb53b8aa8ab1149927d9cb6eb8c6ed746c3e";

const SEALED_DIGEST: &str = "07f642eb54639205eb4e41bd3f3f6ddff1985096ace814f09b73c0b892092fd3";

#[derive(Debug, Drop)]
struct TrustsAll;

impl Signer for TrustsAll {
    ghost verdict_of = { λ signer purpose digest. Trusted };

    fn verdict(&self, _purpose: Purpose, _digest: &[u8]) -> Verdict {
        Verdict::Trusted
    }
}

fn requests(alloc: Global) -> Result<Requests, Fail> {
    let bytes = REQUESTS.as_bytes();
    if bytes.len() > 16_777_216 {
        Err("too long")?;
    }
    Ok(parse_requests(alloc, bytes)?)
}

// The bytes that digits spell, and zeros after them, so many in all.
fn spelled(alloc: Global, digits: &str, size: usize) -> Result<Vec<u8>, Fail> {
    let bytes = hex_bytes(alloc, 2, 512, digits.as_bytes())?.ok_or("digits")?;
    let mut all = bytes.as_slice().to_vec(alloc)?;
    all.resize(size, 0)?;
    Ok(all)
}

// The data of the volume with a tree.
fn pattern(alloc: Global) -> Result<Vec<u8>, AllocError> {
    let mut bytes = Vec::new(alloc);
    for k in 0..2048u32 {
        bytes.push((k % 251) as u8)?;
    }
    Ok(bytes)
}

// The sealed file.
fn sealed(alloc: Global) -> Result<Vec<u8>, AllocError> {
    let mut bytes = Vec::new(alloc);
    for k in 0..1500u32 {
        bytes.push((7 * k % 253) as u8)?;
    }
    Ok(bytes)
}

fn add(
    alloc: Global,
    items: &mut Vec<(Bytes, Bytes)>,
    name: &str,
    bytes: Vec<u8>,
) -> Result<(), AllocError> {
    let name = Bytes::from_vec(name.as_bytes().to_vec(alloc)?);
    items.push((name, Bytes::from_vec(bytes)))?;
    Ok(())
}

// The device that holds the sealed file, its descriptor and its tree.
fn disk(alloc: Global) -> Result<Vec<u8>, Fail> {
    let mut disk = sealed(alloc)?;
    disk.extend_from_slice(&spelled(alloc, SEAL_DESCRIPTOR, 256)?)?;
    disk.extend_from_slice(&spelled(alloc, SEAL_TREE, 1024)?)?;
    Ok(disk)
}

// The bytes of the device of this name.
fn device(alloc: Global, name: &str) -> Result<Vec<u8>, Fail> {
    match name {
        "app.img" => Ok(pattern(alloc)?),
        "app.hash" => spelled(alloc, APP_TREE, 512),
        "z.img" => Ok(vec![in alloc; 0; 512]?),
        _ => disk(alloc),
    }
}

// The devices, with one bit of the byte at a place turned on the device of a name.
fn devices(alloc: Global, flipped: &str, place: usize) -> Result<NamedBytes, Fail> {
    let mut items = Vec::new(alloc);
    for name in ["app.img", "app.hash", "z.img", "disk"] {
        let mut bytes = device(alloc, name)?;
        if name == flipped {
            match bytes.get_mut(place) {
                Some(byte) => *byte ^= 1,
                None => Err("no such byte")?,
            }
        }
        add(alloc, &mut items, name, bytes)?;
    }
    Ok(NamedBytes::from_vec(items))
}

// What a file comes to over the images of these requests: the hash, or what fails.
fn read_over(
    alloc: Global,
    requests: &Requests,
    images: &Images,
    path: &str,
) -> Result<Result<[u8; 32], (&'static str, u8, u64)>, Fail>
    requires { AreImages requests.now images.now }
{
    let objects = Objects::build(alloc, &TrustsAll, requests, images)?;
    let mut view = View::new(alloc, &objects)?;
    let content = read_file(alloc, &objects, images, &mut view, path.as_bytes())?;
    Ok(match content {
        Content::Hash(digest) => Ok(digest),
        Content::VolumeCorrupt { level, block } => Err(("volume", level, block)),
        Content::FileCorrupt { level, block } => Err(("file", level, block)),
        Content::BadDescriptor { byte } => Err(("descriptor", 0, u64::from(byte))),
    })
}

// What a file comes to over these devices.
fn read(
    alloc: Global,
    items: NamedBytes,
    path: &str,
) -> Result<Result<[u8; 32], (&'static str, u8, u64)>, Fail> {
    let requests = requests(alloc)?;
    let mut devices = MemoryDevices::new(items, Vec::new(alloc));
    let images = load_images(alloc, &requests, &mut devices)?;
    read_over(alloc, &requests, &images, path)
}

#[test]
fn files_come_to_the_hashes_of_their_bytes(rt: HostRuntime) -> Result<(), Fail> {
    let alloc = rt.alloc();
    for (path, wanted) in [
        ("/init", HELLO_DIGEST),
        ("/tool", TOOL_DIGEST),
        ("/zero", ZERO_DIGEST),
        ("/sealed", SEALED_DIGEST),
    ] {
        let found = read(alloc, devices(alloc, "", 0)?, path)?.map_err(|(what, _, _)| what)?;
        assert_eq!(rt;
            found.as_slice(),
            spelled(alloc, wanted, 32)?.as_slice(),
            "at {path}"
        );
    }
    Ok(())
}

// Blocks 1 and 2 of the volume have the bytes of /tool, and its one hash block is filled with zeros from byte 128 on. The
// descriptor of /sealed begins at byte 1,500 of its device, and the tree at byte 1,756.
#[test]
fn the_first_thing_that_fails_is_told(rt: HostRuntime) -> Result<(), Fail> {
    let alloc = rt.alloc();
    for (device, place, path, wanted) in [
        ("app.img", 600, "/tool", ("volume", 0, 1)),
        ("app.img", 1535, "/tool", ("volume", 0, 2)),
        ("app.hash", 200, "/tool", ("volume", 1, 0)),
        ("z.img", 511, "/zero", ("volume", 0, 0)),
        ("disk", 0, "/sealed", ("file", 0, 0)),
        ("disk", 1499, "/sealed", ("file", 0, 1)),
        ("disk", 1500, "/sealed", ("descriptor", 0, 0)),
        ("disk", 1510, "/sealed", ("descriptor", 0, 8)),
        ("disk", 1756, "/sealed", ("file", 1, 0)),
    ] {
        let found = read(alloc, devices(alloc, device, place)?, path)?;
        assert_eq!(rt; found, Err(wanted), "at {device} {place}");
    }
    // The file has no byte in the last block.
    let beside = read(alloc, devices(alloc, "app.img", 1536)?, "/tool")?;
    let digest = beside.map_err(|(what, _, _)| what)?;
    assert_eq!(rt;
        digest.as_slice(),
        spelled(alloc, TOOL_DIGEST, 32)?.as_slice()
    );
    Ok(())
}

// This digest is told, signed or not, or none is.
fn assert_signed(
    rt: &impl Abort,
    alloc: Global,
    found: Option<&Signed>,
    wanted: Option<(&str, bool)>,
) -> Result<(), Fail> {
    let Some((digits, signed)) = wanted else {
        assert!(rt; found.is_none());
        return Ok(());
    };
    let found = found.ok_or("a digest")?;
    assert_eq!(rt;
        found.digest.bytes.as_slice(),
        spelled(alloc, digits, 32)?.as_slice()
    );
    assert_eq!(rt; found.signed, signed);
    Ok(())
}

// The context of the file of a path has this.
fn assert_context(
    rt: &impl Abort,
    alloc: Global,
    objects: &Objects,
    path: &str,
    (boot, dm, fs): (bool, Option<(&str, bool)>, Option<(&str, bool)>),
) -> Result<(), Fail> {
    let context = objects.context_of(path.as_bytes()).ok_or("a context")?;
    assert_eq!(rt; context.boot, boot, "at {path}");
    assert_signed(rt, alloc, context.dm.as_ref(), dm)?;
    assert_signed(rt, alloc, context.fs.as_ref(), fs)
}

// The contexts of the files over the images of these requests. A root is signed where the table has the option.
fn assert_contexts(
    rt: &impl Abort,
    alloc: Global,
    requests: &Requests,
    images: &Images,
) -> Result<(), Fail>
    requires { AreImages requests.now images.now }
{
    let objects = Objects::build(alloc, &TrustsAll, requests, images)?;
    for (path, wanted) in [
        ("/init", (true, None, None)),
        ("/tool", (false, Some((APP_ROOT, false)), None)),
        ("/zero", (false, Some((ZERO_DIGEST, true)), None)),
        ("/sealed", (false, None, Some((SEAL_DIGEST, true)))),
    ] {
        assert_context(rt, alloc, &objects, path, wanted)?;
    }
    assert!(rt; objects.context_of(b"/other").is_none());
    Ok(())
}

#[test]
fn contexts_are_those_of_the_lines(rt: HostRuntime) -> Result<(), Fail> {
    let alloc = rt.alloc();
    let requests = requests(alloc)?;
    let mut devices = MemoryDevices::new(devices(alloc, "", 0)?, Vec::new(alloc));
    let images = load_images(alloc, &requests, &mut devices)?;
    assert_contexts(&rt, alloc, &requests, &images)
}

// What is told of a device that isn't loaded: why, and its name.
fn told(error: ImagesError) -> Option<(&'static str, Bytes)> {
    match error {
        ImagesError::Missing { name } => Some(("missing", name)),
        ImagesError::TooLarge { name } => Some(("too large", name)),
        ImagesError::TooSmall { name } => Some(("too small", name)),
        ImagesError::DeviceFault | ImagesError::NoMemory => None,
    }
}

// Why the devices of these names and sizes aren't loaded, if they aren't.
fn refused(alloc: Global, sizes: &[(&str, usize)]) -> Result<Option<ImagesError>, Fail> {
    let requests = requests(alloc)?;
    let mut items = Vec::new(alloc);
    for (name, size) in sizes {
        add(alloc, &mut items, name, vec![in alloc; 0; *size]?)?;
    }
    let mut devices = MemoryDevices::new(NamedBytes::from_vec(items), Vec::new(alloc));
    Ok(load_images(alloc, &requests, &mut devices).err())
}

// The devices of these names and sizes aren't loaded, for this reason and the device of this name.
fn assert_refused(
    rt: &impl Abort,
    alloc: Global,
    sizes: &[(&str, usize)],
    (why, name): (&str, &str),
) -> Result<(), Fail> {
    let error = refused(alloc, sizes)?.ok_or("refused")?;
    let (found, device) = told(error).ok_or("a device")?;
    assert_eq!(rt; (found, device.as_slice()), (why, name.as_bytes()));
    Ok(())
}

// The devices are app.img, app.hash, z.img and disk in the order of their naming.
#[test]
fn the_first_device_that_cannot_be_loaded_is_named(rt: HostRuntime) -> Result<(), Fail> {
    let alloc = rt.alloc();
    let sizes = [("disk", 1), ("app.hash", 512)];
    assert_refused(&rt, alloc, &sizes, ("missing", "app.img"))?;
    let sizes = [("disk", 1), ("app.img", 2048), ("app.hash", 511)];
    assert_refused(&rt, alloc, &sizes, ("too small", "app.hash"))?;
    let sizes = [("z.img", 16_777_217), ("app.img", 2048), ("app.hash", 512)];
    assert_refused(&rt, alloc, &sizes, ("too large", "z.img"))?;
    let sizes = [
        ("disk", 1755),
        ("app.img", 2048),
        ("app.hash", 512),
        ("z.img", 512),
    ];
    assert_refused(&rt, alloc, &sizes, ("too small", "disk"))
}

#[test]
fn a_device_that_fails_is_no_image(rt: HostRuntime) -> Result<(), Fail> {
    let alloc = rt.alloc();
    let requests = requests(alloc)?;

    // The second call is the first that reads.
    let plan = vec![in alloc; 2]?;
    let mut devices = MemoryDevices::new(devices(alloc, "", 0)?, plan);
    assert!(rt;
        matches!(
            load_images(alloc, &requests, &mut devices),
            Err(ImagesError::DeviceFault)
        )
    );
    Ok(())
}
