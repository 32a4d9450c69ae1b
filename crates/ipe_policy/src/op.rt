ghost use Rattle.std.specs.Prelude.{◌≡◌, ◌<◌, ◌++◌, codes};
ghost use Rattle.ipe_policy.specs.Spelling.{action_token, op_word};
ghost use Rattle.ipe_policy.specs.Statement.{op_number};

/// What a request asks leave for, in the order of the operations.
#[derive(Clone, Copy, Debug, PartialEq, Eq)]
pub enum Op {
    Execute,
    Firmware,
    Kmodule,
    KexecImage,
    KexecInitramfs,
    Policy,
    X509Cert,
}

/// What a statement answers.
#[derive(Clone, Copy, Debug, PartialEq, Eq)]
pub enum Action {
    Allow,
    Deny,
}

impl Op {
    /// All operations, in order.
    pub const ALL: [Op; 7] = [
        Op::Execute,
        Op::Firmware,
        Op::Kmodule,
        Op::KexecImage,
        Op::KexecInitramfs,
        Op::Policy,
        Op::X509Cert,
    ];

    /// The place of the operation in their order.
    pub fn number(self) -> u32
        ensures number { result ≡ op_number self }
        ensures below { result < 7 }
    {
        self as u32
    }

    /// The word that stands for the operation in a policy and in an audit record.
    pub fn word(self) -> &'static str
        ensures { result.now ≡ op_word self }
    {
        match self {
            Op::Execute => "EXECUTE",
            Op::Firmware => "FIRMWARE",
            Op::Kmodule => "KMODULE",
            Op::KexecImage => "KEXEC_IMAGE",
            Op::KexecInitramfs => "KEXEC_INITRAMFS",
            Op::Policy => "POLICY",
            Op::X509Cert => "X509_CERT",
        }
    }
}

impl Action {
    /// The word that stands for the action, as after `action=`.
    pub fn word(self) -> &'static str
        ensures { codes "action=" ++ result.now ≡ action_token self }
    {
        match self {
            Action::Allow => "ALLOW",
            Action::Deny => "DENY",
        }
    }
}
