// Runs an encoded list of calls and cuts through the real calls. The answers do not depend on the cuts.

#![tactic(auto)]

mod answers;
mod exported;
mod playing;
mod running;

pub use exported::gbasave_replay;
