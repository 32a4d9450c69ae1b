ghost use Rattle.std.specs.Prelude.{◌≡◌};
ghost use Rattle.ipe_parse.specs.Lines.{words};
ghost use Rattle.ipe_parse.specs.Tokens.{header_of, header_parts, header_words};

use crate::BadKind;
use crate::header::Header;
use crate::token::behind;
use ipe_policy::{Name, Version};

fn header_parts(name: &[u8], version: &[u8]) -> Result<Header, BadKind>
    ensures { result ≡ header_parts name.now version.now }
{
    let name = Name::read(name).ok_or(BadKind::BadName)?;
    let version = Version::read(version).ok_or(BadKind::BadVersion)?;
    Ok(Header { name, version })
}

fn header_words(name: &[u8], version: &[u8]) -> Result<Header, BadKind>
    ensures { result ≡ header_words name.now version.now }
{
    let name = behind(b"policy_name=", name);
    let version = behind(b"policy_version=", version);
    match (name, version) {
        (Some(name), Some(version)) => header_parts(name, version),
        _ => Err(BadKind::NoHeader),
    }
}

/// The header of a line: exactly two tokens.
pub(crate) fn header_of(tokens: &[&[u8]]) -> Result<Header, BadKind>
    ensures { result ≡ header_of (words tokens.now) }
{
    match tokens {
        [name, version] => header_words(name, version),
        _ => Err(BadKind::NoHeader),
    }
}
