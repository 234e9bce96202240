// What may stand round each command of a session.
use std::sync::Wait;

/// Called before and after each command of a session, with the command's line. Nothing is claimed of it: a test may hold a session at a line.
pub trait Gate: Sync {
    fn before<R: Wait>(&self, rt: &R, line: u32);

    fn after<R: Wait>(&self, rt: &R, line: u32);
}

/// Does nothing.
#[derive(Clone, Copy, Debug)]
pub struct NoGate;

impl Gate for NoGate {
    fn before<R: Wait>(&self, _rt: &R, _line: u32) {}

    fn after<R: Wait>(&self, _rt: &R, _line: u32) {}
}
