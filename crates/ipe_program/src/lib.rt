//! The program `ipegate` as a library: from arguments, a source and devices to a sink.
//!
//! [`run`] reads what its arguments ask for and serves it. What can be asked for is the enum [`Asked`], and [`serve`] is the
//! one shell around all of it: it reads the source as far as that is wanted, makes the whole answer, and writes it.
//!
//! A replay runs on threads, in each phase the administrator and all workers beside each other. When its transcript is
//! written whole, [`run`] and [`serve`] hand out the gate that it ran on, closed: that gate's one history stands for the
//! order of what is written. So does a roll-out, of which one line tells what it came to. All else that can be asked for is a [`Task`], done by the calling thread alone:
//! [`serve_alone`] serves one, and [`lint`], [`measure`] and [`root`] serve theirs without arguments. These start no thread
//! and wait for none.
#![tactic(auto)]

mod answers;
mod asked;
mod edge;
mod replay;
mod shell;

pub use asked::Asked;
pub use edge::arguments;
pub use ipe_replay::{Closed, NoPace, Pace, Pass};
pub use ipe_tasks::{FileTree, ImageTree, Refusal, Task, TreePart, tree_by};
pub use shell::{lint, measure, root, run, serve, serve_alone};

#[cfg(test)]
mod tests;
