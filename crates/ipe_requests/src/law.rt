ghost use Rattle.std.specs.Prelude.{◌≡◌, ℕ, ◌≤◌, List, length, Ok};
ghost use Rattle.std.specs.List.{AllByRecursion};
ghost use Rattle.ipe_requests.specs.Law.{IsOfFile, OneShape, RequestsOrFirstBad};
ghost use Rattle.ipe_requests.specs.Requests.{Script, requests_of};
ghost use Rattle.ipe_requests.specs.Rules.{EachLine, HasWorkers, IsFileOf, IsHookOf, IsMarkOf, IsNumbered, IsSealOf, IsWriteOf, PhasesRise, count_lines};

use crate::requests::Requests;

/// Bytes are the requests of exactly one value, or have exactly one first bad line, and never both. The call does nothing:
/// its contract is the law.
pub fn bytes_are_requests_or_have_a_first_bad_line()
    ensures { RequestsOrFirstBad }
{}

/// No two shapes that may stand in one place fit the same words, so the order in which they are tried is of no account. The
/// call does nothing: its contract is the law.
pub fn words_have_one_shape()
    ensures { OneShape }
{}

/// What is declared and asked is read of its own spelling, which has at most 16,777,216 bytes. The call does nothing: its
/// contract is the law.
pub fn requests_are_read_of_their_spelling(requests: &Requests)
    ensures { IsOfFile requests.now }
{
    let _workers = &requests.workers;
}

/// Whatever a request file declares and asks keeps the rules of its words: its workers are from 1 to 30; the numbers of a
/// phase's lines rise; a hook's worker is one of them, and its path that of a declared file; where the bytes of a file are is
/// declared, and a file of a volume ends within its data blocks; sealed files, marked texts and written texts are declared.
/// There are no more lines in the phases, and no line has a higher number, than the file has bytes. The call does nothing: its
/// contract is the law.
pub fn requests_keep_their_rules()
    ensures workers { (input : List ℕ) (script : Script) → requests_of input ≡ Ok script → HasWorkers script }
    ensures rising { (input : List ℕ) (script : Script) → requests_of input ≡ Ok script → PhasesRise script }
    ensures hooks { (input : List ℕ) (script : Script) → requests_of input ≡ Ok script →
        EachLine (IsHookOf script) script }
    ensures files { (input : List ℕ) (script : Script) → requests_of input ≡ Ok script →
        AllByRecursion (IsFileOf script) script.files }
    ensures seals { (input : List ℕ) (script : Script) → requests_of input ≡ Ok script →
        AllByRecursion (IsSealOf script) script.seals }
    ensures marks { (input : List ℕ) (script : Script) → requests_of input ≡ Ok script →
        AllByRecursion (IsMarkOf script) script.marks }
    ensures writes { (input : List ℕ) (script : Script) → requests_of input ≡ Ok script →
        EachLine (IsWriteOf script) script }
    ensures few { (input : List ℕ) (script : Script) → requests_of input ≡ Ok script → count_lines script ≤ length input }
    ensures numbered { (input : List ℕ) (script : Script) → requests_of input ≡ Ok script →
        EachLine (IsNumbered (length input)) script }
{}
