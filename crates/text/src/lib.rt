// What leaves the engine as text, put into bytes that the caller lends: the identifier of an event, and the runner's line.
#![tactic(auto)]

mod digits;
pub mod event;
pub mod line;
