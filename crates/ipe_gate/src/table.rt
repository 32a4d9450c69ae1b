use atomic_table::Table;
use ipe_gate_rule::{GateRule, View};
use std::alloc::Global;

/// The words of a gate, under its rule.
pub type GateTable = Table<(), View, (), GateRule, Global>;

// The least numbers of each part of ACTIVE: a word is a count, and then these times the other parts.
pub(crate) const EPOCH: u64 = 0x100_0000_0000;

pub(crate) const SLOT: u64 = 0x100_0000_0000_0000;

pub(crate) const ENFORCE: u64 = 0x4000_0000_0000_0000;

pub(crate) const SUCCESS: u64 = 0x8000_0000_0000_0000;
