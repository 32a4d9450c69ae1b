ghost use Rattle.std.specs.Prelude.{◌≡◌};
ghost use Rattle.ipe_machine.specs.Refusals.{value_of};

use ipe_policy::Name;
use line_words::Bytes;

/// The text of a policy, as bytes.
pub type Text = Bytes;

/// What is written to a switch, to `active` or to `delete`.
#[derive(Clone, Copy, Debug, PartialEq, Eq)]
pub enum Value {
    True,
    False,
    Bad,
}

impl Value {
    /// `1`, `y`, `Y` and `on` are true, `0`, `n`, `N` and `off` false, each with at most one line feed after it.
    pub fn read(bytes: &[u8]) -> Value
        ensures { result ≡ value_of bytes.now }
    {
        let word = bytes.strip_suffix(b"\n").unwrap_or(bytes);
        match word {
            b"1" | b"y" | b"Y" | b"on" => Value::True,
            b"0" | b"n" | b"N" | b"off" => Value::False,
            _ => Value::Bad,
        }
    }
}

/// What an administrator asks for.
#[derive(Debug, Drop)]
pub enum Act {
    Load(Text),
    Update(Name, Text),
    Activate(Name, Value),
    Delete(Name, Value),
    Enforce(Value),
    SuccessAudit(Value),
}

/// An act, and whether the one who asks has the right to administer.
#[derive(Debug, Drop)]
pub struct Command {
    pub may: bool,
    pub act: Act,
}
