use ipe_gate::Pass;
use std::sync::Wait;

/// What is called round each hook line, before it and after it: with the worker's number, from 1, the number of the line
/// and the worker's own pass, which holds no claim then.
pub trait Pace: Sync {
    fn before<R: Wait>(&self, rt: &R, worker: u32, line: u32, pass: Option<&Pass>);

    fn after<R: Wait>(&self, rt: &R, worker: u32, line: u32, pass: Option<&Pass>);
}

/// Does nothing.
pub struct NoPace;

impl Pace for NoPace {
    fn before<R: Wait>(&self, _rt: &R, _worker: u32, _line: u32, _pass: Option<&Pass>) {}

    fn after<R: Wait>(&self, _rt: &R, _worker: u32, _line: u32, _pass: Option<&Pass>) {}
}
