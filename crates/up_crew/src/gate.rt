use std::sync::Wait;

/// What is asked before each line of an actor, and with line 0 after the actor's last one. It may wait, and nothing else: so a
/// test has lines done in an order of its own.
pub trait Gate {
    fn before<R: Wait>(&self, rt: &R, who: u32, line: u32);
}

/// A gate that never waits.
pub struct OpenGate;

impl Gate for OpenGate {
    fn before<R: Wait>(&self, _rt: &R, _who: u32, _line: u32) {}
}
