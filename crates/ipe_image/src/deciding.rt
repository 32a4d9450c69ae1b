ghost use Rattle.std.specs.Prelude.{◌≡◌, ◌+◌, ◌≤◌, ◌++◌, ℕ, IsTrue, Some, drop, length, is_some, take};
ghost use Rattle.arrayvec.specs.ArrayVec.{array_vec_len};
ghost use Rattle.ipe_policy.specs.Statement.{RuleParts};
ghost use Rattle.ipe_image.specs.Answer.{IsAnswer, IsHit};
ghost use Rattle.ipe_image.specs.Found.{BeginsWithImage, IsFirstMatch, IsRecordAt};
ghost use Rattle.ipe_image.specs.Decision.{default_in};
ghost use Rattle.ipe_image.specs.Heads.{told_of_rule};
ghost use Rattle.ipe_image.specs.Image.{rule_record, words_of_op};
ghost use Rattle.ipe_image.specs.Parts.{ImageParts};
ghost use Rattle.ipe_image.specs.Reading.{image_in};

use crate::head::{RuleHead, action_of};
use crate::property::all_hold;
use crate::{Hit, WordReader};
use arrayvec::ArrayVec;
use ipe_policy::{Action, Context, Found, Op, Which};

// Where the words say what the serial, the global default and the operations' defaults are, where the records of each
// operation begin, and how many it has.
const SERIAL: u32 = 1;

const GLOBAL_DEFAULT: u32 = 2;

const OP_DEFAULTS: u32 = 3;

const OP_PLACES: u32 = 11;

const OP_COUNTS: u32 = 18;

/// The words of a rule's record.
type Record = ArrayVec<u64, 192>;

/// A rule that matches, with its record.
#[derive(Drop)]
pub(crate) struct Matched {
    pub number: u32,
    pub action: Action,
    pub record: Record,
}

// Puts so many words from a place on after those of the buffer.
fn append_words<R: WordReader>(reader: &mut R, at: u32, count: u32, buffer: &mut Record)
    requires fits { array_vec_len buffer.old + count ≤ 192 }
    requires within { at + count ≤ length (R.words reader.old) }
    requires small { at + count ≤ 4096 }
    ensures stays { R.words reader.new ≡ R.words reader.old }
    ensures kept { R.kept reader.new ≡ R.kept reader.old }
    ensures items { buffer.new.items ≡ buffer.old.items ++ take count (drop at (R.words reader.old)) }
    ensures reads { R.reads reader.new ≤ R.reads reader.old + count }
{
    for i in 0..count {
        buffer.push(reader.word(at + i));
    }
}

// Puts the record at a place into the buffer, where another one was, and tells what its head tells.
fn read_record<R: WordReader>(reader: &mut R, at: u32, buffer: &mut Record) -> RuleHead
    requires { (number : ℕ) × (rule : RuleParts) × IsRecordAt (R.words reader.old) at number rule }
    ensures stays { R.words reader.new ≡ R.words reader.old }
    ensures kept { R.kept reader.new ≡ R.kept reader.old }
    ensures head { (number : ℕ) (rule : RuleParts) → IsRecordAt (R.words reader.old) at number rule →
        result ≡ told_of_rule number rule }
    ensures record { (number : ℕ) (rule : RuleParts) → IsRecordAt (R.words reader.old) at number rule →
        buffer.new.items ≡ rule_record number rule }
    ensures reads { R.reads reader.new ≤ R.reads reader.old + result.words }
{
    let first = reader.word(at);
    let head = RuleHead::read(first);
    buffer.clear();
    buffer.push(first);
    append_words(reader, at + 1, head.words - 1, buffer);
    head
}

// The first rule of the operation whose properties all hold.
fn first_match<R: WordReader>(reader: &mut R, op: Op, context: &Context) -> Option<Matched>
    requires { (parts : ImageParts) × BeginsWithImage (R.words reader.old) parts }
    ensures stays { R.words reader.new ≡ R.words reader.old }
    ensures kept { R.kept reader.new ≡ R.kept reader.old }
    ensures found { (parts : ImageParts) → BeginsWithImage (R.words reader.old) parts →
        IsFirstMatch parts op context.now result }
    ensures reads { (parts : ImageParts) → BeginsWithImage (R.words reader.old) parts →
        R.reads reader.new ≤ R.reads reader.old + 2 + words_of_op parts.rules op }
{
    let place = reader.word(OP_PLACES + op.number());
    let count = reader.word(OP_COUNTS + op.number());
    let mut at = place as u32;
    let mut record = Record::new();
    for _index in 0..count {
        let head = read_record(reader, at, &mut record);
        if all_hold(&record.as_slice()[1..], context) {
            return Some(Matched {
                number: head.number,
                action: head.action,
                record,
            });
        }
        at += head.words;
    }
    None
}

// The operation's default, else the global one.
fn default_in<R: WordReader>(reader: &mut R, op: Op) -> Found
    requires { (parts : ImageParts) × BeginsWithImage (R.words reader.old) parts }
    ensures stays { R.words reader.new ≡ R.words reader.old }
    ensures kept { R.kept reader.new ≡ R.kept reader.old }
    ensures found { (parts : ImageParts) → BeginsWithImage (R.words reader.old) parts →
        default_in parts op ≡ Some result }
    ensures reads { R.reads reader.new ≤ R.reads reader.old + 2 }
{
    if let Some(action) = action_of(reader.word(OP_DEFAULTS + op.number())) {
        return Found {
            action,
            which: Which::OpDefault,
        };
    }
    match action_of(reader.word(GLOBAL_DEFAULT)) {
        Some(action) => Found {
            action,
            which: Which::GlobalDefault,
        },
        None => unreachable!(),
    }
}

/// What the image with which the words begin decides of a file: the first rule of the operation whose properties all
/// hold, else the operation's default, else the global default. It goes over the records of the operation alone, reads
/// each of their words once, stops at the first match, and takes no memory.
pub fn decide_words<R: WordReader>(reader: &mut R, op: Op, context: &Context) -> Hit
    requires { IsTrue (is_some (image_in (R.words reader.old))) }
    ensures stays { R.words reader.new ≡ R.words reader.old }
    ensures kept { R.kept reader.new ≡ R.kept reader.old }
    ensures answer { (parts : ImageParts) → image_in (R.words reader.old) ≡ Some parts →
        IsAnswer parts op context.now result }
    ensures hit { IsHit op result }
    ensures reads { (parts : ImageParts) → image_in (R.words reader.old) ≡ Some parts →
        R.reads reader.new ≤ R.reads reader.old + 5 + words_of_op parts.rules op }
{
    let serial = reader.word(SERIAL);
    match first_match(reader, op, context) {
        Some(rule) => Hit {
            serial,
            found: Found {
                action: rule.action,
                which: Which::Rule(rule.number),
            },
            rule: rule.record,
        },
        None => Hit {
            serial,
            found: default_in(reader, op),
            rule: ArrayVec::new(),
        },
    }
}
