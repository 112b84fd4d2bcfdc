// What the two policies keep, whatever they were told before.
ghost use Rattle.policy.specs.Laws.{PlruSparesTheLast, ClockPicksUnmarked};

/// Tree-PLRU never picks the way touched last, after touches in any order; CLOCK picks the first way from its hand that is
/// neither marked nor touched last, where there is one.
pub fn policy_laws()
    ensures plru { PlruSparesTheLast }
    ensures clock { ClockPicksUnmarked }
{}
