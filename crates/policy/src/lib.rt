// Replacement policies: what one means, Tree-PLRU and CLOCK.
#![tactic(auto)]

mod clock;
mod dial;
mod laws;
mod meaning;
mod plru;
mod tree;

pub use clock::Clock;
pub use laws::policy_laws;
pub use meaning::{Policy, PolicyRefusal, accept};
pub use plru::TreePlru;
