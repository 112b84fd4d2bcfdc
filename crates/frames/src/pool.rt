// The pool's state, and what always holds of it.
ghost use Rattle.std.specs.Prelude.{◌≡◌, ℕ, ◌+◌, ◌<◌, ◌≤◌, length, take, ◌≢◌, slice_index, slice_index_or};
ghost use Rattle.frames.specs.declared.state.FrameState.TheVariants.{Free};
ghost use Rattle.frames.specs.Busy.{busy};

use crate::pile::Pile;
use crate::state::FrameState;

// No model: that asks a `Copy` value to give its fields back, and a pool's forgets what lies above the pile.
/// Frames below `mark` were used at least once; of them, those on the pile are free and the others busy. `limit` frames
/// are the pool's.
#[derive(Clone, Copy)]
pub struct Pool {
    pub states: [FrameState; 1024],
    pub pile: Pile,
    pub mark: u16,
    pub limit: u16,
    ghost full: { (length states ≡ 1024) × (length pile.frames ≡ 1024) },
    ghost bounds: { (mark ≤ limit) × (limit ≤ 1024) },
    ghost balance: { pile.height + busy states ≡ mark },
    ghost piled: { (i : ℕ) → i < pile.height → (slice_index pile.frames i < mark) × (slice_index_or states (slice_index pile.frames i) Free ≡ Free) },
    ghost apart: { (i j : ℕ) → i < j → j < pile.height → slice_index pile.frames i ≢ slice_index pile.frames j },
    ghost unused: { (f : ℕ) → mark ≤ f → slice_index_or states f Free ≡ Free },
}

impl Pool {
    /// The states of the pool's frames, in order.
    pub(crate) fn live(&self) -> &[FrameState]
        ensures { result.now ≡ take self.now.limit self.now.states }
    {
        &self.states[..usize::from(self.limit)]
    }
}
