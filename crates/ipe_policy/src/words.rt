ghost use Rattle.std.specs.Prelude.{◌≡◌, ◌≤◌, List, ℕ, IsTrue, SomeIff, length, ⊤};
ghost use Rattle.std.specs.List.{list_all};
ghost use Rattle.ipe_policy.specs.Words.{is_alg_byte, is_alg_name, is_comm, is_dev_name, is_digest, is_id_byte, is_name, is_name_byte, is_path, is_quotable};

use arrayvec::ArrayVec;
use line_words::{has_length, is_digit, is_lower, is_visible};
use std::alloc::AllocError;
use std::marker::Model;

fn is_alg_byte(byte: u8) -> bool
    ensures { result ≡ is_alg_byte byte }
{
    is_lower(byte) || is_digit(byte) || byte == b'-'
}

fn is_id_byte(byte: u8) -> bool
    ensures { result ≡ is_id_byte byte }
{
    is_lower(byte) || is_digit(byte) || byte == b'_' || byte == b'-'
}

fn is_quotable(byte: u8) -> bool
    ensures { result ≡ is_quotable byte }
{
    is_visible(byte) && byte != b'"'
}

fn is_name_byte(byte: u8) -> bool
    ensures { result ≡ is_name_byte byte }
{
    is_quotable(byte) && byte != b'/' && byte != b'#'
}

fn all_alg_bytes(bytes: &[u8]) -> bool
    ensures { result ≡ list_all is_alg_byte bytes.now }
{
    bytes.iter().all(|byte| is_alg_byte(*byte))
}

fn all_id_bytes(bytes: &[u8]) -> bool
    ensures { result ≡ list_all is_id_byte bytes.now }
{
    bytes.iter().all(|byte| is_id_byte(*byte))
}

fn all_quotable(bytes: &[u8]) -> bool
    ensures { result ≡ list_all is_quotable bytes.now }
{
    bytes.iter().all(|byte| is_quotable(*byte))
}

fn all_name_bytes(bytes: &[u8]) -> bool
    ensures { result ≡ list_all is_name_byte bytes.now }
{
    bytes.iter().all(|byte| is_name_byte(*byte))
}

fn is_alg_name(bytes: &[u8]) -> bool
    ensures { result ≡ is_alg_name bytes.now }
{
    has_length(bytes, 1, 16) && all_alg_bytes(bytes)
}

fn is_name(bytes: &[u8]) -> bool
    ensures { result ≡ is_name bytes.now }
{
    has_length(bytes, 1, 255)
        && all_name_bytes(bytes)
        && bytes != b".".as_slice()
        && bytes != b"..".as_slice()
}

fn is_comm(bytes: &[u8]) -> bool
    ensures { result ≡ is_comm bytes.now }
{
    has_length(bytes, 1, 15) && all_quotable(bytes)
}

fn is_path(bytes: &[u8]) -> bool
    ensures { result ≡ is_path bytes.now }
{
    has_length(bytes, 1, 255) && all_quotable(bytes) && bytes.starts_with(b"/")
}

fn is_dev_name(bytes: &[u8]) -> bool
    ensures { result ≡ is_dev_name bytes.now }
{
    has_length(bytes, 1, 32) && all_id_bytes(bytes)
}

// A buffer of these bytes.
fn held<const N: usize>(bytes: &[u8]) -> ArrayVec<u8, N>
    requires { length bytes.now ≤ N }
    ensures { result.items ≡ bytes.now }
{
    let mut held = ArrayVec::new();
    let _fits = held.try_extend_from_slice(bytes);
    held
}

/// The name of a hash algorithm: 1 to 16 bytes of `a-z`, `0-9` and `-`.
#[derive(Debug, PartialEq, Eq, Drop)]
pub struct AlgName {
    bytes: ArrayVec<u8, 16>,
}

impl Model for AlgName {
    ghost Value = { List ℕ };

    ghost view = { λ s. s.bytes.items };

    ghost invariant = { λ s. IsTrue (is_alg_name s.bytes.items) };

    ghost inverse = { λ bytes. record { bytes = record { items = bytes } } };
}

impl Clone for AlgName {
    ghost is_clone = { λ a b. b ≡ a };

    ghost is_infallible = { λ _. ⊤ };

    fn clone(&self) -> Result<Self, AllocError> {
        Ok(AlgName {
            bytes: held(self.bytes.as_slice()),
        })
    }
}

impl AlgName {
    /// These bytes, where they meet the rule.
    pub fn read(bytes: &[u8]) -> Option<Self>
        ensures { SomeIff result (IsTrue (is_alg_name bytes.now)) bytes.now }
    {
        if !is_alg_name(bytes) {
            return None;
        }
        Some(AlgName { bytes: held(bytes) })
    }

    /// The bytes.
    pub fn as_slice(&self) -> &[u8]
        ensures bytes { result.now ≡ self.now }
        ensures rule { IsTrue (is_alg_name self.now) }
    {
        self.bytes.as_slice()
    }
}

/// A digest: 0 to 64 bytes.
#[derive(Debug, PartialEq, Eq, Drop)]
pub struct DigestBytes {
    bytes: ArrayVec<u8, 64>,
}

impl Model for DigestBytes {
    ghost Value = { List ℕ };

    ghost view = { λ s. s.bytes.items };

    ghost invariant = { λ s. IsTrue (is_digest s.bytes.items) };

    ghost inverse = { λ bytes. record { bytes = record { items = bytes } } };
}

impl Clone for DigestBytes {
    ghost is_clone = { λ a b. b ≡ a };

    ghost is_infallible = { λ _. ⊤ };

    fn clone(&self) -> Result<Self, AllocError> {
        Ok(DigestBytes {
            bytes: held(self.bytes.as_slice()),
        })
    }
}

impl DigestBytes {
    /// These bytes, where they meet the rule.
    pub fn read(bytes: &[u8]) -> Option<Self>
        ensures { SomeIff result (IsTrue (is_digest bytes.now)) bytes.now }
    {
        if bytes.len() > 64 {
            return None;
        }
        Some(DigestBytes { bytes: held(bytes) })
    }

    /// The bytes.
    pub fn as_slice(&self) -> &[u8]
        ensures bytes { result.now ≡ self.now }
        ensures rule { IsTrue (is_digest self.now) }
    {
        self.bytes.as_slice()
    }
}

/// A policy's name: 1 to 255 visible ASCII bytes without `/`, `"` and `#`, and neither `.` nor `..`.
#[derive(Debug, PartialEq, Eq, Drop)]
pub struct Name {
    bytes: ArrayVec<u8, 255>,
}

impl Model for Name {
    ghost Value = { List ℕ };

    ghost view = { λ s. s.bytes.items };

    ghost invariant = { λ s. IsTrue (is_name s.bytes.items) };

    ghost inverse = { λ bytes. record { bytes = record { items = bytes } } };
}

impl Clone for Name {
    ghost is_clone = { λ a b. b ≡ a };

    ghost is_infallible = { λ _. ⊤ };

    fn clone(&self) -> Result<Self, AllocError> {
        Ok(Name {
            bytes: held(self.bytes.as_slice()),
        })
    }
}

impl Name {
    /// These bytes, where they meet the rule.
    pub fn read(bytes: &[u8]) -> Option<Self>
        ensures { SomeIff result (IsTrue (is_name bytes.now)) bytes.now }
    {
        if !is_name(bytes) {
            return None;
        }
        Some(Name { bytes: held(bytes) })
    }

    /// The bytes.
    pub fn as_slice(&self) -> &[u8]
        ensures bytes { result.now ≡ self.now }
        ensures rule { IsTrue (is_name self.now) }
    {
        self.bytes.as_slice()
    }
}

/// The name of a task: 1 to 15 visible ASCII bytes without `"`.
#[derive(Debug, PartialEq, Eq, Drop)]
pub struct Comm {
    bytes: ArrayVec<u8, 15>,
}

impl Model for Comm {
    ghost Value = { List ℕ };

    ghost view = { λ s. s.bytes.items };

    ghost invariant = { λ s. IsTrue (is_comm s.bytes.items) };

    ghost inverse = { λ bytes. record { bytes = record { items = bytes } } };
}

impl Clone for Comm {
    ghost is_clone = { λ a b. b ≡ a };

    ghost is_infallible = { λ _. ⊤ };

    fn clone(&self) -> Result<Self, AllocError> {
        Ok(Comm {
            bytes: held(self.bytes.as_slice()),
        })
    }
}

impl Comm {
    /// These bytes, where they meet the rule.
    pub fn read(bytes: &[u8]) -> Option<Self>
        ensures { SomeIff result (IsTrue (is_comm bytes.now)) bytes.now }
    {
        if !is_comm(bytes) {
            return None;
        }
        Some(Comm { bytes: held(bytes) })
    }

    /// The bytes.
    pub fn as_slice(&self) -> &[u8]
        ensures bytes { result.now ≡ self.now }
        ensures rule { IsTrue (is_comm self.now) }
    {
        self.bytes.as_slice()
    }
}

/// The path of a file: `/`, and then at most 254 visible ASCII bytes without `"`.
#[derive(Debug, PartialEq, Eq, Drop)]
pub struct PathName {
    bytes: ArrayVec<u8, 255>,
}

impl Model for PathName {
    ghost Value = { List ℕ };

    ghost view = { λ s. s.bytes.items };

    ghost invariant = { λ s. IsTrue (is_path s.bytes.items) };

    ghost inverse = { λ bytes. record { bytes = record { items = bytes } } };
}

impl Clone for PathName {
    ghost is_clone = { λ a b. b ≡ a };

    ghost is_infallible = { λ _. ⊤ };

    fn clone(&self) -> Result<Self, AllocError> {
        Ok(PathName {
            bytes: held(self.bytes.as_slice()),
        })
    }
}

impl PathName {
    /// These bytes, where they meet the rule.
    pub fn read(bytes: &[u8]) -> Option<Self>
        ensures { SomeIff result (IsTrue (is_path bytes.now)) bytes.now }
    {
        if !is_path(bytes) {
            return None;
        }
        Some(PathName { bytes: held(bytes) })
    }

    /// The bytes.
    pub fn as_slice(&self) -> &[u8]
        ensures bytes { result.now ≡ self.now }
        ensures rule { IsTrue (is_path self.now) }
    {
        self.bytes.as_slice()
    }
}

/// The name of a device, or another short name: 1 to 32 bytes of `a-z`, `0-9`, `_` and `-`.
#[derive(Debug, PartialEq, Eq, Drop)]
pub struct DevName {
    bytes: ArrayVec<u8, 32>,
}

impl Model for DevName {
    ghost Value = { List ℕ };

    ghost view = { λ s. s.bytes.items };

    ghost invariant = { λ s. IsTrue (is_dev_name s.bytes.items) };

    ghost inverse = { λ bytes. record { bytes = record { items = bytes } } };
}

impl Clone for DevName {
    ghost is_clone = { λ a b. b ≡ a };

    ghost is_infallible = { λ _. ⊤ };

    fn clone(&self) -> Result<Self, AllocError> {
        Ok(DevName {
            bytes: held(self.bytes.as_slice()),
        })
    }
}

impl DevName {
    /// These bytes, where they meet the rule.
    pub fn read(bytes: &[u8]) -> Option<Self>
        ensures { SomeIff result (IsTrue (is_dev_name bytes.now)) bytes.now }
    {
        if !is_dev_name(bytes) {
            return None;
        }
        Some(DevName { bytes: held(bytes) })
    }

    /// The bytes.
    pub fn as_slice(&self) -> &[u8]
        ensures bytes { result.now ≡ self.now }
        ensures rule { IsTrue (is_dev_name self.now) }
    {
        self.bytes.as_slice()
    }
}
