// A policy for tests: it picks by a lent list of numbers wherever a policy may, so that a test can force any order.
#![tactic(auto)]

mod scripted;

pub use scripted::Scripted;
