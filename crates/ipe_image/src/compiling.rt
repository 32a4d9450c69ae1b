ghost use Rattle.std.specs.Prelude.{◌≡◌, ◌≤◌, [], ◌++◌, ◌∷◌, IfOk, IfErr, IsTrue, OnOk, Some, is_some, length, map, slice_get};
ghost use Rattle.std.specs.List.{filter_map};
ghost use Rattle.ipe_policy.specs.Policy.{global_defaults, op_defaults};
ghost use Rattle.ipe_policy.specs.Spelling.{words_of_image};
ghost use Rattle.ipe_policy.specs.Statement.{operations, rule_of};
ghost use Rattle.ipe_image.specs.Compiling.{HasNoImage};
ghost use Rattle.ipe_image.specs.Image.{default_word, grouped, image_of, place_if_any, place_of, records, rules_of};
ghost use Rattle.ipe_image.specs.Parts.{parts_of};
ghost use Rattle.ipe_image.specs.Reader.{filled};
ghost use Rattle.ipe_image.specs.Reading.{image_in};

use crate::head::action_number;
use crate::record::append_records;
use arrayvec::ArrayVec;
use ipe_policy::{
    Action, Op, Policy, Statement, global_default, image_words, op_default, rule_count,
};
use std::alloc::{AllocError, Global};
use std::marker::Model;
use thiserror::Error;

/// The most words of an image.
const MOST_WORDS: u64 = 4096;

/// How many words stand before the records.
const RECORDS: u64 = 25;

/// Why a policy has no image.
#[derive(Debug, Drop, Error)]
pub enum CompileError {
    #[error("the policy needs {words} words of at most 4096")]
    TooWide { words: u64 },
    #[error("out of memory")]
    NoMemory,
}

impl From<AllocError> for CompileError {
    ghost use Rattle.std.specs.Prelude.{◌≡◌};
    ghost use Rattle.ipe_image.specs.declared.compiling.CompileError.TheVariants.{NoMemory};

    ghost from_gives = { λ _ e. e ≡ NoMemory };

    fn from(_: AllocError) -> Self {
        CompileError::NoMemory
    }
}

/// The image of a policy: at most 4,096 words.
#[derive(Debug, Drop)]
pub struct Image {
    words: Vec<u64>,
}

impl Model for Image {
    ghost use Rattle.std.specs.Prelude.{◌≤◌, IsTrue, List, ℕ, is_some, length};
    ghost use Rattle.ipe_image.specs.Reading.{image_in};

    ghost Value = { List ℕ };

    ghost view = { λ s. s.words.items };

    ghost invariant = { λ s. (length s.words.items ≤ 4096) × IsTrue (is_some (image_in s.words.items)) };
}

impl Image {
    /// The words, in order.
    pub fn words(&self) -> &[u64]
        ensures words { result.now ≡ self.now }
        ensures few { length self.now ≤ 4096 }
        ensures told { IsTrue (is_some (image_in self.now)) }
        ensures filled { IsTrue (is_some (image_in (filled 4096 self.now))) }
    {
        self.words.as_slice()
    }
}

fn default_word(default: Option<Action>) -> u64
    ensures { result ≡ default_word default }
{
    match default {
        Some(action) => action_number(action),
        None => 0,
    }
}

// Puts the default of each operation after the words, in their order.
fn append_defaults(image: &mut Vec<u64>, items: &[Statement]) -> Result<(), AllocError>
    ensures { OnOk result (image.new.items ≡ image.old.items
        ++ map (λ op. default_word (slice_get (op_defaults op items.now) 0)) operations) }
{
    for op in Op::ALL {
        image.push(default_word(op_default(items, op)))?;
    }
    Ok(())
}

/// The records of a policy's rules, grouped by operation, with the place of the first one of each and their number.
#[derive(Drop)]
struct Tables {
    places: ArrayVec<u64, 7>,
    counts: ArrayVec<u64, 7>,
    records: Vec<u64>,
}

// The place of the first of so many records, 0 where there is none.
fn place_if_any(place: u64, count: u64) -> u64
    ensures { result ≡ place_if_any place count }
{
    if count == 0 { 0 } else { place }
}

fn group_rules(alloc: Global, items: &[Statement]) -> Result<Tables, AllocError>
    requires { length items.now ≤ 1048576 }
    ensures places { IfOk result (λ tables. tables.places.items
        ≡ map (place_of (filter_map rule_of items.now)) operations) }
    ensures counts { IfOk result (λ tables. tables.counts.items
        ≡ map (λ op. length (rules_of (filter_map rule_of items.now) op)) operations) }
    ensures records { IfOk result (λ tables. tables.records.items
        ≡ records (grouped (filter_map rule_of items.now))) }
{
    let mut tables = Tables {
        places: ArrayVec::new(),
        counts: ArrayVec::new(),
        records: Vec::new(alloc),
    };
    for op in Op::ALL {
        let place = RECORDS + tables.records.len() as u64;
        let count = append_records(&mut tables.records, items, op)?;
        tables.places.push(place_if_any(place, count));
        tables.counts.push(count);
    }
    Ok(tables)
}

// Puts the words before the tables after the words.
fn append_head(
    image: &mut Vec<u64>,
    items: &[Statement],
    words: u64,
    serial: u64,
) -> Result<(), AllocError>
    ensures { OnOk result (image.new.items ≡ image.old.items
        ++ words ∷ serial ∷ default_word (slice_get (global_defaults items.now) 0)
        ∷ (map (λ op. default_word (slice_get (op_defaults op items.now) 0)) operations
        ++ length (filter_map rule_of items.now) ∷ [])) }
{
    image.push(words)?;
    image.push(serial)?;
    image.push(default_word(global_default(items)))?;
    append_defaults(image, items)?;
    image.push(rule_count(items) as u64)?;
    Ok(())
}

// Puts the tables and the records after the words.
fn append_tables(image: &mut Vec<u64>, tables: Tables) -> Result<(), AllocError>
    ensures { OnOk result (image.new.items ≡ image.old.items
        ++ ((tables.places.items ++ tables.counts.items) ++ tables.records.items)) }
{
    image.extend_from_slice(tables.places.as_slice())?;
    image.extend_from_slice(tables.counts.as_slice())?;
    image.extend_from_slice(tables.records.as_slice())
}

/// The image of a policy, with this serial. A policy is too wide where it needs more than 4,096 words.
pub fn compile(alloc: Global, policy: &Policy, serial: u64) -> Result<Image, CompileError>
    ensures image { IfOk result (λ image. image ≡ image_of (parts_of serial policy.now.items)) }
    ensures fits { OnOk result (words_of_image policy.now.items ≤ 4096) }
    ensures told { IfOk result (λ image. image_in image ≡ Some (parts_of serial policy.now.items)) }
    ensures filled { IfOk result (λ image. image_in (filled 4096 image) ≡ Some (parts_of serial policy.now.items)) }
    ensures refused { IfErr result (HasNoImage (words_of_image policy.now.items)) }
{
    let words = image_words(policy);
    if words > MOST_WORDS {
        return Err(CompileError::TooWide { words });
    }
    let items = policy.items.as_slice();
    let mut image = Vec::with_capacity(alloc, words as usize)?;
    let tables = group_rules(alloc, items)?;
    append_head(&mut image, items, words, serial)?;
    append_tables(&mut image, tables)?;
    Ok(Image { words: image })
}
