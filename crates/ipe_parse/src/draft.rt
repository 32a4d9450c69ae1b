ghost use Rattle.std.specs.Prelude.{◌≡◌, ◌<◌, ◌++◌, ◌∷◌, [], false, OnOk};
ghost use Rattle.ipe_parse.specs.Defaults.{Flags, IsOnce, first_missing, has_op_default, repeats_default};

use crate::given::{Given, given_by};
use ipe_policy::{Op, Statement};
use std::alloc::{AllocFailed, Global};

/// The statements of the lines read so far, with a flag for each default that they give.
#[derive(Debug, Drop)]
pub(crate) struct Draft {
    pub(crate) items: Vec<Statement>,
    pub(crate) op_given: [bool; 7],
    pub(crate) global_given: bool,
    pub ghost flags: { Flags op_given global_given items.items },
    pub ghost once: { IsOnce items.items },
}

impl Draft {
    /// No statement yet.
    pub(crate) fn new(alloc: Global) -> Draft
        ensures { result.items.items ≡ [] }
    {
        Draft {
            items: Vec::new(alloc),
            op_given: [false; 7],
            global_given: false,
        }
    }

    fn has_op_default(&self, op: Op) -> bool
        ensures { result ≡ has_op_default op self.now.items.items }
    {
        self.op_given[op.number() as usize]
    }

    /// Whether the statement gives a default that is given already.
    pub(crate) fn repeats(&self, statement: &Statement) -> bool
        ensures { result ≡ repeats_default self.now.items.items statement.now }
    {
        match statement {
            Statement::Rule { .. } => false,
            Statement::OpDefault { op, .. } => self.has_op_default(*op),
            Statement::GlobalDefault { .. } => self.global_given,
        }
    }

    /// Adds a statement that repeats no default.
    pub(crate) fn push(&mut self, statement: Statement) -> Result<(), AllocFailed<Statement>>
        requires { repeats_default self.old.items.items statement ≡ false }
        ensures { OnOk result (self.new.items.items ≡ self.old.items.items ++ statement ∷ []) }
    {
        let given = given_by(&statement);
        self.items.push(statement)?;
        match given {
            Given::Nothing => {}
            Given::OfOp(op) => self.op_given[op.number() as usize] = true,
            Given::Global => self.global_given = true,
        }
        Ok(())
    }

    /// The first operation without a default, where there is no global one.
    pub(crate) fn first_missing(&self) -> Option<Op>
        ensures { result ≡ first_missing self.now.items.items }
    {
        if self.global_given {
            return None;
        }
        for op in Op::ALL {
            if !self.has_op_default(op) {
                return Some(op);
            }
        }
        None
    }
}
