// What holds of every history that the calls can make.
ghost use Rattle.law.specs.Runs.{EveryHistoryIsLawful};

/// Whatever is called on a freshly made machine, over any memory and any policy, in whatever order: an accepted access
/// reaches a frame that a map put at its page and that was not released since, and that frame is what the walk gave at
/// some call after the hart's last covering fence; and a fault of the walk is the walk's own.
pub fn histories_are_lawful()
    ensures { EveryHistoryIsLawful }
{}
