ghost use Rattle.std.specs.Prelude.{◌≡◌, ◌≤◌, ◌+◌, ◌-◌, ◌*◌, ℕ, IfSome, IfNone};
ghost use Rattle.std.specs.Option.{SomeIff};
ghost use Rattle.std.specs.Fmt.{decimal as decimal_text};
ghost use Rattle.line_words.specs.Words.{number_of};

/// The number that the bytes write in decimal, without a leading zero, where it is at most `max`.
pub fn decimal(bytes: &[u8], max: u64) -> Option<u64>
    ensures found { IfSome result (λ n. (bytes.now ≡ decimal_text n) × (n ≤ max)) }
    ensures none { IfNone result ((n : ℕ) → n ≤ max → bytes.now ≡ decimal_text n → ⊥) }
    ensures number { result ≡ number_of max bytes.now }
{
    spelled(bytes, max)
}

// The number whose text the bytes are.
fn spelled(bytes: &[u8], max: u64) -> Option<u64>
    ensures found { IfSome result (λ n. (bytes.now ≡ decimal_text n) × (n ≤ max)) }
    ensures none { IfNone result ((n : ℕ) → n ≤ max → bytes.now ≡ decimal_text n → ⊥) }
{
    if bytes.is_empty() {
        return None;
    }
    if bytes[0] == b'0' && bytes.len() > 1 {
        return None;
    }
    let mut value = 0;
    for byte in bytes {
        value = with_digit(value, *byte, max)?;
    }
    Some(value)
}

// The number with one more digit after it. It ends a long input early, since the number soon passes any `max`.
fn with_digit(value: u64, byte: u8, max: u64) -> Option<u64>
    ensures { SomeIff result ((48 ≤ byte) × (byte ≤ 57) × (value * 10 + (byte - 48) ≤ max))
        (value * 10 + (byte - 48)) }
{
    if !byte.is_ascii_digit() {
        return None;
    }
    let digit = u64::from(byte - b'0');
    let longer = value.checked_mul(10)?.checked_add(digit)?;
    if longer <= max { Some(longer) } else { None }
}
