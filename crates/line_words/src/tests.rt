use super::*;
use std::test::Fail;

#[test]
fn words_are_found_where_they_were_added(rt: HostRuntime) -> Result<(), Fail> {
    let mut index = WordIndex::new(rt.alloc());
    assert!(rt; index.is_empty());
    index.add(rt.alloc(), b"first")?;
    index.add(rt.alloc(), b"other")?;
    assert_eq!(rt; index.len(), 2);
    for (word, place) in [
        ("first", Some(0)),
        ("other", Some(1)),
        ("third", None),
        ("", None),
    ] {
        assert_eq!(rt; index.place_of(word.as_bytes()), place, "{word}");
    }
    Ok(())
}

#[test]
fn reads_decimal_numbers(rt: HostRuntime) {
    let cases = [
        ("0", u64::MAX, Some(0)),
        ("00", u64::MAX, None),
        ("7", 7, Some(7)),
        ("7", 6, None),
        ("07", u64::MAX, None),
        ("18446744073709551615", u64::MAX, Some(u64::MAX)),
        ("18446744073709551616", u64::MAX, None),
        ("", u64::MAX, None),
        ("1a", u64::MAX, None),
    ];
    for (text, max, number) in cases {
        assert_eq!(rt; decimal(text.as_bytes(), max), number, "at {text}");
    }
}
