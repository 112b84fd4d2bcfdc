// Picks by a script.
ghost use Rattle.std.specs.Prelude.{◌≡◌, ℕ, ◌<◌, true, Some, None, is_err, slice_index, slice_index_or};
ghost use Rattle.policy.specs.Answers.{touch_of, pick_of, last_after};
ghost use Rattle.adversary.specs.Steered.{steered, cursor_after, lasts_after};
ghost use Rattle.adversary.specs.Steering.{steered_within, steered_apart};

use policy::{Policy, PolicyRefusal, accept};

// A place in a lent list, and no iterator: what is promised is said by the place.
/// The numbers still to be picked begin at `cursor`; past the script's end every number is 0.
#[derive(Clone, Copy)]
pub struct Scripted<'a> {
    script: &'a [usize],
    cursor: usize,
    last: [Option<usize>; 8],
}

/// A number's way, or the next one where that was touched last.
fn steer(number: usize, last: Option<usize>) -> usize
    ensures { result ≡ steered number last }
{
    let way = number % 16;
    if last == Some(way) {
        (way + 1) % 16
    } else {
        way
    }
}

impl<'a> Scripted<'a> {
    /// At the script's start, no way touched.
    pub fn new(script: &'a [usize]) -> Scripted<'a>
        ensures script { result.script.now ≡ script.now }
        ensures cursor { result.cursor ≡ 0 }
        ensures last { (h : ℕ) → h < 8 → slice_index_or result.last h None ≡ None }
    {
        Scripted {
            script,
            cursor: 0,
            last: [None; 8],
        }
    }
}

impl<'a> Policy for Scripted<'a> {
    ghost last = { λ p h. slice_index_or p.last h None };

    ghost choice = { λ p h. steered (slice_index p.script.now p.cursor) (slice_index_or p.last h None) };

    ghost within = { λ p hart h. steered_within (slice_index p.script.now p.cursor) (slice_index_or p.last hart None) };

    ghost apart = { λ p hart h. steered_apart (slice_index p.script.now p.cursor) (slice_index_or p.last hart None) };

    fn touch(&mut self, hart: usize, way: usize) -> Result<(), PolicyRefusal>
        ensures answer { result ≡ touch_of hart way }
        ensures last { (h : ℕ) → h < 8 → slice_index_or self.new.last h None ≡ last_after (λ k. slice_index_or self.old.last k None) hart way h }
        ensures refused { is_err result ≡ true → self.new ≡ self.old }
        ensures script { self.new.script ≡ self.old.script }
        ensures cursor { self.new.cursor ≡ self.old.cursor }
        ensures lasts { self.new.last ≡ lasts_after hart way self.old.last }
    {
        accept(hart, way)?;
        self.last[hart] = Some(way);
        Ok(())
    }

    fn pick(&mut self, hart: usize) -> Result<usize, PolicyRefusal>
        ensures answer { result ≡ pick_of (steered (slice_index self.old.script.now self.old.cursor) (slice_index_or self.old.last hart None)) hart }
        ensures last { (h : ℕ) → h < 8 → slice_index_or self.new.last h None ≡ slice_index_or self.old.last h None }
        ensures refused { is_err result ≡ true → self.new ≡ self.old }
        ensures script { self.new.script ≡ self.old.script }
        ensures cursor { self.new.cursor ≡ cursor_after hart self.old.cursor }
        ensures lasts { self.new.last ≡ self.old.last }
    {
        let last = self.last.get(hart).copied().ok_or(PolicyRefusal::NoHart)?;
        let number = self.script.get(self.cursor).copied().unwrap_or(0);
        self.cursor = self.cursor.saturating_add(1);
        Ok(steer(number, last))
    }
}
