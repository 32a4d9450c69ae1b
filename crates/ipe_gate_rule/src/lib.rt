//! The rule of the gate's words: one history of atomic steps for all seats, whatever the order in which threads take
//! them.
//!
//! The words are [`ACTIVE`](WORDS) (word 0: a count of claims, the epoch, the active slot and the two switches), the
//! number of returns of each of the slots 1 to 63 (words 1 to 63), and 63 regions of 4,096 words. A history is written
//! with its newest event first. What its words are, which events may follow it and what each seat knows of it is said
//! in specs/; each kind of step is proved to keep it in proofs/Steps.antt and proofs/Joining.antt.
#![tactic(auto)]

mod event;
mod laws;
mod play;
mod rule;
mod view;

pub use event::Event;
pub use laws::{
    active_slot_has_image, claims_in_order, contents_stay, one_history, slots_come_free,
};
pub use play::{
    NewPass, TakeIn, Tale, ToCatchUp, ToClaim, ToLook, ToRead, ToReturn, ToStore, ToSwitch,
};
pub use rule::{GateRule, WORDS};
pub use view::{Role, View};
