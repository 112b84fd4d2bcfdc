// What a replacement policy means, for harts 0 to 7 and ways 0 to 15.
ghost use Rattle.std.specs.Prelude.{◌≡◌, ℕ, ◌<◌, true, is_err, Some, Option, ◌≢◌};
ghost use Rattle.policy.specs.Answers.{refusal_number, touch_of, pick_of, last_after};

use thiserror::Error;

/// Why a policy refuses.
#[derive(Clone, Copy, PartialEq, Eq, Debug, Error)]
pub enum PolicyRefusal {
    /// The hart is above 7.
    #[error("10: no such hart")]
    NoHart,
    #[error("7: the way is above 15")]
    NoWay,
}

impl PolicyRefusal {
    /// The number of this refusal.
    pub fn number(self) -> u8
        ensures { result ≡ refusal_number self }
    {
        match self {
            PolicyRefusal::NoHart => 10,
            PolicyRefusal::NoWay => 7,
        }
    }
}

/// Whether a touch is one that a policy takes: every policy refuses a hart above 7, then a way above 15.
pub fn accept(hart: usize, way: usize) -> Result<(), PolicyRefusal>
    ensures { result ≡ touch_of hart way }
{
    if hart >= 8 {
        Err(PolicyRefusal::NoHart)
    } else if way >= 16 {
        Err(PolicyRefusal::NoWay)
    } else {
        Ok(())
    }
}

// Hart and way are numbers, as a maker's policy is called with any, and refuses.
/// A policy means, for each hart, the way touched last (`last`) and the way that it would pick now (`choice`), which is
/// a way and never the one touched last.
pub trait Policy {
    ghost last: { Self → ℕ → Option ℕ };

    ghost choice: { Self → ℕ → ℕ };

    /// Tells that a hart used a way. Refuses 10 for a hart above 7, then 7 for a way above 15.
    fn touch(&mut self, hart: usize, way: usize) -> Result<(), PolicyRefusal>
        ensures answer { result ≡ touch_of hart way }
        ensures last { (h : ℕ) → h < 8 → last self.new h ≡ last_after (last self.old) hart way h }
        ensures refused { is_err result ≡ true → self.new ≡ self.old };

    /// The way that this hart is to fill next. Refuses 10 for a hart above 7.
    fn pick(&mut self, hart: usize) -> Result<usize, PolicyRefusal>
        ensures answer { result ≡ pick_of (choice self.old hart) hart }
        ensures last { (h : ℕ) → h < 8 → last self.new h ≡ last self.old h }
        ensures refused { is_err result ≡ true → self.new ≡ self.old };

    ghost within: { (p : Self) (hart : ℕ) → hart < 8 → choice p hart < 16 };

    ghost apart: { (p : Self) (hart : ℕ) → hart < 8 → last p hart ≢ Some (choice p hart) };
}
