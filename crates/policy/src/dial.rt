// One hart's dial of CLOCK.
ghost use Rattle.std.specs.Prelude.{◌<◌};

/// A mark for each way, a hand that stands at one, and the way touched last.
#[derive(Clone, Copy)]
pub struct Dial {
    pub marks: [bool; 16],
    pub hand: usize,
    pub last: Option<usize>,
    ghost on: { hand < 16 },
}
