use ipe_policy::PathName;
use std::alloc::{AllocError, Global};
use std::marker::Model;
use std::sync::Arc;

/// The path of a declared file. The file and all hooks that name it have one copy of its bytes.
#[derive(Debug, Drop)]
pub struct FilePath {
    name: Arc<PathName, Global>,
}

impl Model for FilePath {
    ghost use Rattle.std.specs.Prelude.{List, ℕ};
    ghost use Rattle.std.specs.Arc.{arc_value};

    ghost Value = { List ℕ };

    ghost view = { λ s. arc_value s.name };
}

impl FilePath {
    ghost use Rattle.std.specs.Prelude.{◌≡◌, IfOk, IsTrue};
    ghost use Rattle.ipe_policy.specs.Words.{is_path};

    /// This path, with no other that has its copy.
    pub fn new(alloc: Global, name: PathName) -> Result<Self, AllocError>
        ensures { IfOk result (λ path. path ≡ name) }
    {
        Ok(FilePath {
            name: Arc::new(alloc, name)?,
        })
    }

    /// The same path, with the same copy.
    pub fn share(&self) -> Result<Self, AllocError>
        ensures { IfOk result (λ path. path ≡ self.now) }
    {
        Ok(FilePath {
            name: Arc::try_clone(&self.name)?,
        })
    }

    /// The path as a name.
    pub fn name(&self) -> &PathName
        ensures { result.now ≡ self.now }
    {
        &*self.name
    }

    /// The bytes.
    pub fn as_slice(&self) -> &[u8]
        ensures bytes { result.now ≡ self.now }
        ensures rule { IsTrue (is_path self.now) }
    {
        self.name().as_slice()
    }
}
