ghost use Rattle.std.specs.Prelude.{◌≡◌};
ghost use Rattle.ipe_parse.specs.Given.{given_of};

use ipe_policy::{Op, Statement};

/// The default that a statement gives.
#[derive(Clone, Copy)]
pub(crate) enum Given {
    Nothing,
    OfOp(Op),
    Global,
}

pub(crate) fn given_by(statement: &Statement) -> Given
    ensures { result ≡ given_of statement.now }
{
    match statement {
        Statement::Rule { .. } => Given::Nothing,
        Statement::OpDefault { op, .. } => Given::OfOp(*op),
        Statement::GlobalDefault { .. } => Given::Global,
    }
}
