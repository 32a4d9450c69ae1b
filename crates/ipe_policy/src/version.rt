ghost use Rattle.std.specs.Prelude.{◌≡◌, ◌≤◌, IsTrue, Some, length};
ghost use Rattle.std.specs.List.{list_all};
ghost use Rattle.line_words.specs.Words.{digits_onto, is_digit};
ghost use Rattle.ipe_policy.specs.Version.{is_part, part_of, version_of, packed};
ghost use Rattle.ipe_policy.specs.Spelling.{version_text};

use line_words::cut_at;
use std::fmt;

/// The version of a policy, X.Y.Z.
#[derive(Clone, Copy, Debug, PartialEq, Eq)]
pub struct Version {
    pub major: u16,
    pub minor: u16,
    pub rev: u16,
}

// The number that some digits spell, where they are at most five.
fn number(digits: &[u8]) -> u32
    requires few { length digits.now ≤ 5 }
    requires digits { IsTrue (list_all is_digit digits.now) }
    ensures { result ≡ digits_onto 0 digits.now }
{
    let mut value: u32 = 0;
    for digit in digits {
        value = value * 10 + u32::from(*digit - b'0');
    }
    value
}

fn all_digits(bytes: &[u8]) -> bool
    ensures { result ≡ list_all is_digit bytes.now }
{
    bytes.iter().all(|byte| byte.is_ascii_digit())
}

fn is_part(bytes: &[u8]) -> bool
    ensures { result ≡ is_part bytes.now }
{
    !bytes.is_empty() && bytes.len() <= 5 && all_digits(bytes)
}

// One to five digits, with a value of at most 65,535.
fn part(bytes: &[u8]) -> Option<u16>
    ensures { result ≡ part_of bytes.now }
{
    if !is_part(bytes) {
        return None;
    }
    u16::try_from(number(bytes)).ok()
}

impl Version {
    /// The version that a word X.Y.Z spells: each part has one to five digits and is at most 65,535.
    pub fn read(bytes: &[u8]) -> Option<Version>
        ensures { result ≡ version_of bytes.now }
    {
        let (major, rest) = cut_at(bytes, b'.');
        let (minor, rev) = cut_at(rest, b'.');
        Some(Version {
            major: part(major)?,
            minor: part(minor)?,
            rev: part(rev)?,
        })
    }

    /// The number by which versions compare.
    pub fn packed(self) -> u64
        ensures { result ≡ packed self }
    {
        u64::from(self.major) * (1 << 32) + u64::from(self.minor) * (1 << 16) + u64::from(self.rev)
    }
}

impl fmt::Display for Version {
    ghost output = { λ version. Some (version_text version) };

    /// X.Y.Z without leading zeros.
    fn fmt<W: fmt::Write>(&self, f: &mut fmt::Formatter<W>) -> fmt::Result {
        write!(f, "{}.{}.{}", self.major, self.minor, self.rev)
    }
}
