// The values that settle how the rules are read, as one statement.
#![tactic(auto)]

ghost use Rattle.settled.specs.Settled.{Settled};

/// Computed once, of the definitions that the contracts use.
pub fn settled_values()
    ensures { Settled }
{}
