use super::run;
use blk_device::{ImageDevices, NamedBytes};
use ipe_words::{Bytes, MemorySink, MemorySource, Status};
use sha2::{Digest, Sha256};
use std::test::Fail;

// The digest of the stored bytes comes from Python's hashlib.
#[test]
fn the_hash_blocks_of_seventeen_blocks_are_written(rt: HostRuntime) -> Result<(), Fail> {
    let alloc = rt.alloc();
    let mut image = vec![in alloc; 7; 17 * 512]?;
    image[600] = 1;
    image[8703] = 2;
    let name = Bytes::from_vec(b"image".to_vec(alloc)?);
    let items = NamedBytes::from_vec(vec![in alloc; (name, Bytes::from_vec(image))]?);
    let mut words = Vec::new(alloc);
    for word in ["512", "73616c74", "image"] {
        words.push(String::from_str(alloc, word)?)?;
    }
    let mut source = MemorySource::new(Vec::new(alloc), 1, Vec::new(alloc));
    let mut sink = MemorySink::new(alloc, 4096, 4096, Vec::new(alloc))?;
    let mut devices = ImageDevices::new(&items);
    let status = run(alloc, &words, &mut source, &mut sink, &mut devices);
    assert_eq!(rt; status, Status::Done);
    assert_eq!(rt; sink.written().len(), 1536);
    let stored = hex::encode(alloc, Sha256::digest(sink.written()))?;
    assert_eq!(rt;
        stored.as_str(),
        "0c47b196ed51400451f5ee04239b05592812cba6c482832b74f23b29c31ee561"
    );
    Ok(())
}
