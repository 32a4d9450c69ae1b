use crate::known::Known;
use crate::script::{FileLines, MarkLines, Phases, SealLines, TextLines, VolumeLines};
use std::marker::Model;

/// What a request file declares and asks. Its spelling is read as itself.
#[derive(Debug, Drop)]
pub struct Requests {
    pub workers: u32,
    pub texts: TextLines,
    pub volumes: VolumeLines,
    pub files: FileLines,
    pub seals: SealLines,
    pub marks: MarkLines,
    pub phases: Phases,
}

impl Model for Requests {
    ghost use Rattle.ipe_requests.specs.Law.{IsOfFile};
    ghost use Rattle.ipe_requests.specs.Requests.{Script};

    ghost Value = { Script };

    ghost view = { λ s. record {
      workers = s.workers;
      texts = s.texts;
      volumes = s.volumes;
      files = s.files;
      seals = s.seals;
      marks = s.marks;
      phases = s.phases;
    } };

    ghost invariant = { λ s. IsOfFile (record {
      workers = s.workers;
      texts = s.texts;
      volumes = s.volumes;
      files = s.files;
      seals = s.seals;
      marks = s.marks;
      phases = s.phases;
    }) };
}

impl Known {
    ghost use Rattle.std.specs.Prelude.{◌≡◌, None};
    ghost use Rattle.ipe_requests.specs.Law.{IsOfFile};
    ghost use Rattle.ipe_requests.specs.Requests.{script_of};

    /// What the lines declare and ask.
    pub fn into_requests(self) -> Requests
        requires closed { self.opened ≡ None }
        requires file { IsOfFile (script_of self) }
        ensures { result ≡ script_of self }
    {
        let Known {
            workers,
            texts,
            volumes,
            files,
            seals,
            marks,
            phases,
            ..
        } = self;
        Requests {
            workers,
            texts: texts.into_items(),
            volumes: volumes.into_items(),
            files: files.into_items(),
            seals: seals.into_items(),
            marks: marks.into_items(),
            phases: phases.into_items(),
        }
    }
}
