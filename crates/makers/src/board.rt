// A maker's struct round a machine.
ghost use Rattle.std.specs.Prelude.{◌≡◌};

use machine::Machine;

/// A machine and how often its board was started. A struct that only holds a machine states no bound.
#[derive(Drop)]
pub struct Board<M, P> {
    pub machine: Machine<M, P>,
    pub starts: u64,
}

impl<M, P> Board<M, P> {
    /// The machine and the count, as they are now.
    pub fn into_parts(self) -> (Machine<M, P>, u64)
        ensures machine { result.0 ≡ self.machine }
        ensures starts { result.1 ≡ self.starts }
    {
        let Board { machine, starts } = self;
        (machine, starts)
    }
}
