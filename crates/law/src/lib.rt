// The law over every list of calls.
#![tactic(auto)]

mod laws;

pub use laws::histories_are_lawful;
