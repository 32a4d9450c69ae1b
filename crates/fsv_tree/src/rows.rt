ghost use Rattle.fsv_tree.specs.Descriptor.{IsFirstBreak, IsSound, breaks};
ghost use Rattle.std.specs.Int.{w64, from_le_bytes};
ghost use Rattle.std.specs.Prelude.{◌≡◌, ◌<◌, take, drop, MatchOption};

// The size that bytes 8 to 15 say.
fn size_said(bytes: &[u8; 256]) -> u64
    ensures { result ≡ from_le_bytes w64 (take 8 (drop 8 bytes.now)) }
{
    let mut row = [0; 8];
    row.copy_from_slice(&bytes[8..16]);
    u64::from_le_bytes(row)
}

// Whether the byte at a place breaks the row that it stands in.
fn breaks_row(bytes: &[u8; 256], size: u64, place: u16) -> bool
    requires { place < 256 }
    ensures { result ≡ breaks bytes.now size place }
{
    let byte = bytes[usize::from(place)];
    match place {
        0 | 1 => byte != 1,
        2 => byte < 10 || byte > 12,
        3 => byte > 32,
        8 => size_said(bytes) != size,
        9..=15 => false,
        16..=47 => size == 0 && byte != 0,
        80..=111 => u16::from(bytes[3]) <= place - 80 && byte != 0,
        _ => byte != 0,
    }
}

// The first byte that breaks its row.
pub(crate) fn first_break(bytes: &[u8; 256], size: u64) -> Option<u16>
    ensures { MatchOption result (IsSound bytes.now size) (λ place. IsFirstBreak bytes.now size place) }
{
    for place in 0..256 {
        if breaks_row(bytes, size, place) {
            return Some(place);
        }
    }
    None
}
