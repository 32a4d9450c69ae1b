ghost use Rattle.std.specs.Prelude.{◌≡◌};
ghost use Rattle.ipe_requests.specs.Known.{gives_text, reads_file};

use crate::known::Known;
use crate::path::FilePath;
use crate::script::{FileForm, PhaseLine, WriteContent};
use ipe_policy::{DevName, Request};

impl Known {
    ghost use Rattle.ipe_requests.specs.Known.{text_size, size_of, file_size, hook_work, write_work, read_size, with_counts};

    fn text_size(&self, id: &DevName) -> u64
        ensures { result ≡ text_size self.now id.now }
    {
        match self.texts.get(id.as_slice()) {
            Some(text) => text.bytes.as_slice().len() as u64,
            None => 0,
        }
    }

    fn size_of(&self, form: &FileForm) -> u64
        ensures { result ≡ size_of self.now form.now }
    {
        match form {
            FileForm::Boot { text, .. } => self.text_size(text),
            FileForm::Volume { size, .. } | FileForm::Plain { size, .. } => *size,
        }
    }

    fn file_size(&self, path: &FilePath) -> u64
        ensures { result ≡ file_size self.now path.now }
    {
        match self.files.get(path.as_slice()) {
            Some(file) => self.size_of(&file.form),
            None => 0,
        }
    }

    // The bytes of a text that is written.
    fn write_work(&self, content: &WriteContent) -> u64
        ensures { result ≡ write_work self.now content.now }
    {
        match content {
            WriteContent::Text(id) => self.text_size(id),
            WriteContent::Echo(_) | WriteContent::Hex(_) => 0,
        }
    }

    // The bytes that a hook reads.
    fn hook_work(&self, request: Request, path: &Option<FilePath>) -> u64
        ensures { result ≡ hook_work self.now request path.now }
    {
        match path {
            Some(path) if reads_file(request) => self.file_size(path),
            _ => 0,
        }
    }

    // The bytes that a read of a node may give.
    fn read_size(&self, node: &[u8]) -> u64
        ensures { result ≡ read_size self.now node.now }
    {
        if gives_text(node) { self.longest } else { 0 }
    }

    // Counts a line of a phase.
    pub fn count_asked(&mut self, what: &PhaseLine)
        ensures { self.new ≡ with_counts self.old what.now }
    {
        match what {
            PhaseLine::Write { content, .. } => {
                self.work = self.work.saturating_add(self.write_work(content));
                self.commands = self.commands.saturating_add(1);
            }
            PhaseLine::Read { node, .. } => {
                self.reads = self.reads.saturating_add(self.read_size(node.as_slice()));
                self.commands = self.commands.saturating_add(1);
            }
            PhaseLine::Hook { request, path, .. } => {
                self.work = self.work.saturating_add(self.hook_work(*request, path));
                self.hooks = self.hooks.saturating_add(1);
            }
        }
    }
}

// A program check and a kernel read read the file.
fn reads_file(request: Request) -> bool
    ensures { result ≡ reads_file request }
{
    matches!(request, Request::ExecCheck | Request::KernelRead(_))
}

// The bytes of such a node are a policy's text.
fn gives_text(node: &[u8]) -> bool
    ensures { result ≡ gives_text node.now }
{
    node.ends_with(b"/pkcs7") || node.ends_with(b"/policy")
}
