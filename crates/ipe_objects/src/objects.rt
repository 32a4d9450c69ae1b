ghost use Rattle.std.specs.Prelude.{◌≡◌, Contains, List, ℕ, length, IfOk};
ghost use Rattle.std.specs.Option.{option_copied};
ghost use Rattle.ipe_objects.specs.Contexts.{context_by, context_of, dm_part, fs_part, sealed_part, sha256_digest, volume_part};
ghost use Rattle.ipe_objects.specs.Devices.{AreImages};
ghost use Rattle.ipe_objects.specs.Ready.{context_in};

use crate::declared::Declared;
use crate::images::Images;
use crate::seals::descriptor_of;
use dmv_volume::Table;
use fsv_tree::Descriptor;
use ipe_policy::{AlgName, Context, Digest, DigestBytes, Signed};
use ipe_props::{dm_props, fs_props};
use ipe_requests::{FileForm, FileLine, Requests};
use ipe_signer::Signer;
use std::alloc::{AllocError, Global};
use std::marker::Model;

/// The files that a request file declares, each with its context.
#[derive(Drop)]
pub struct Objects<'a> {
    declared: Declared<'a>,
    contexts: Vec<Context>,
}

impl<'a> Model for Objects<'a> {
    ghost use Rattle.ipe_objects.specs.Ready.{Ready};

    ghost Value = { Ready };

    ghost view = { λ s. record { script = s.declared; contexts = s.contexts.items } };
}

impl<'a> Objects<'a> {
    /// The files of a request file whose devices have these images, with the contexts that a signer's verdicts give them.
    pub fn build<S: Signer>(
        alloc: Global,
        signer: &S,
        requests: &'a Requests,
        images: &Images,
    ) -> Result<Objects<'a>, AllocError>
        requires { AreImages requests.now images.now }
        ensures script { IfOk result (λ objects. objects.script ≡ requests.now) }
        ensures contexts { IfOk result (λ objects. (path : List ℕ) →
            context_in objects path ≡ context_of requests.now images.now (S.verdict_of signer.now) path) }
    {
        let declared = Declared::of(alloc, requests)?;
        let mut contexts = Vec::new(alloc);
        for file in declared.files() {
            contexts.push(context_by(&declared, signer, images, file))?;
        }
        Ok(Objects { declared, contexts })
    }

    /// The context of the file of a path, unless none is declared.
    pub fn context_of(&self, path: &[u8]) -> Option<&Context>
        ensures { option_copied result ≡ context_in self.now path.now }
    {
        self.contexts.get(self.declared.file_place(path)?)
    }

    /// What is declared.
    pub fn declared(&self) -> &Declared<'a>
        ensures { result.now ≡ self.now.script }
    {
        &self.declared
    }
}

// A digest of SHA-256.
fn sha256_digest(bytes: &[u8]) -> Digest
    requires { length bytes.now ≡ 32 }
    ensures { result ≡ sha256_digest bytes.now }
{
    Digest {
        alg: AlgName::read(b"sha256").unwrap(),
        bytes: DigestBytes::read(bytes).unwrap(),
    }
}

fn volume_part<S: Signer>(signer: &S, table: &Table) -> Signed
    ensures { result ≡ volume_part (S.verdict_of signer.now) table.now }
{
    dm_props(signer, &sha256_digest(table.root()), table.has_option())
}

fn dm_part<S: Signer>(declared: &Declared, signer: &S, form: &FileForm) -> Option<Signed>
    ensures { result ≡ dm_part declared.now (S.verdict_of signer.now) form.now }
{
    let FileForm::Volume { volume, .. } = form else {
        return None;
    };
    let volume = declared.volume(volume.as_slice())?;
    Some(volume_part(signer, &volume.table))
}

fn sealed_part<S: Signer>(signer: &S, descriptor: &Descriptor) -> Signed
    ensures { result ≡ sealed_part (S.verdict_of signer.now) descriptor.now }
{
    fs_props(signer, &sha256_digest(&descriptor.digest()))
}

fn fs_part<S: Signer>(
    declared: &Declared,
    signer: &S,
    images: &Images,
    file: &FileLine,
) -> Option<Signed>
    requires images { AreImages declared.now images.now }
    requires declared { Contains declared.now.files file.now }
    ensures { result ≡ fs_part declared.now images.now (S.verdict_of signer.now) file.now }
{
    let seal = declared.seal(file.path.as_slice())?;
    let size = declared.size(images, file);
    match descriptor_of(images, seal, size) {
        Ok(descriptor) => Some(sealed_part(signer, &descriptor)),
        Err(_) => None,
    }
}

// The context of a declared file.
fn context_by<S: Signer>(
    declared: &Declared,
    signer: &S,
    images: &Images,
    file: &FileLine,
) -> Context
    requires images { AreImages declared.now images.now }
    requires declared { Contains declared.now.files file.now }
    ensures { result ≡ context_by declared.now images.now (S.verdict_of signer.now) file.now }
{
    Context {
        boot: matches!(&file.form, FileForm::Boot { .. }),
        dm: dm_part(declared, signer, &file.form),
        fs: fs_part(declared, signer, images, file),
    }
}
