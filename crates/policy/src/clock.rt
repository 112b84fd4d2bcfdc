// CLOCK: for each hart marks and a hand, which a pick moves to the next way that is neither marked nor touched last.
ghost use Rattle.std.specs.Prelude.{◌≡◌, ℕ, ◌<◌, true, false, replicate, is_err, Some, None, Option, slice_set};
ghost use Rattle.std.proofs.Common.{ap, ◌∙◌};
ghost use Rattle.policy.specs.Answers.{touch_of, pick_of, last_after};
ghost use Rattle.policy.specs.Clock.{marks_of, hand_of, last_of, marks_after_touch, marks_after_pick, hand_after_pick, dial_of};
ghost use Rattle.policy.specs.Dial.{is_last, swept};
ghost use Rattle.policy.specs.Dials.{swept_within, swept_apart, last_is};
ghost use Rattle.std.proofs.lemmas.Bool.{both_ways};

use crate::dial::Dial;
use crate::{Policy, PolicyRefusal, accept};

/// A pick finds its way within this many looks.
const LOOKS: usize = 18;

/// Whether a way is the one touched last.
fn is_last(last: Option<usize>, way: usize) -> bool
    ensures { result ≡ is_last last way }
{
    last == Some(way)
}

impl Dial {
    fn fresh() -> Dial
        ensures marks { result.marks ≡ replicate 16 false }
        ensures hand { result.hand ≡ 0 }
        ensures last { result.last ≡ None }
    {
        Dial {
            marks: [false; 16],
            hand: 0,
            last: None,
        }
    }

    fn touch(&mut self, way: usize)
        requires { way < 16 }
        ensures marks { self.new.marks ≡ slice_set self.old.marks way true }
        ensures hand { self.new.hand ≡ self.old.hand }
        ensures last { self.new.last ≡ Some way }
    {
        self.marks[way] = true;
        self.last = Some(way);
    }

    /// Looks from the hand upward: passes the way touched last as it is, unmarks and passes a marked one, picks the first
    /// other.
    fn sweep(&mut self) -> usize
        ensures way { result ≡ (swept self.old.marks self.old.hand self.old.last).way }
        ensures marks { self.new.marks ≡ (swept self.old.marks self.old.hand self.old.last).marks }
        ensures hand { self.new.hand ≡ (swept self.old.marks self.old.hand self.old.last).hand }
        ensures last { self.new.last ≡ self.old.last }
    {
        // No iterator: a look writes what the next one reads, and two of its ends go on.
        for _look in 0..LOOKS {
            let way = self.hand;
            self.hand = (way + 1) % 16;
            if is_last(self.last, way) {
                continue;
            }
            if !self.marks[way] {
                return way;
            }
            self.marks[way] = false;
        }
        self.hand
    }
}

#[derive(Clone, Copy)]
pub struct Clock {
    dials: [Dial; 8],
}

impl Clock {
    /// All hands at 0, no way marked, none touched.
    pub fn new() -> Clock
        ensures marks { (h : ℕ) → h < 8 → marks_of result h ≡ replicate 16 false }
        ensures hands { (h : ℕ) → h < 8 → hand_of result h ≡ 0 }
        ensures last { (h : ℕ) → h < 8 → last_of result h ≡ None }
    {
        Clock {
            dials: [Dial::fresh(); 8],
        }
    }
}

impl Policy for Clock {
    ghost last = { λ p h. last_of p h };

    ghost choice = { λ p h. (swept (marks_of p h) (hand_of p h) (last_of p h)).way };

    ghost within = { unfold swept in λ p hart h. swept_within 18 (marks_of p hart) (hand_of p hart) (last_of p hart) (dial_of p hart).on };

    ghost apart = { λ p hart h e.
        let way : ℕ = (swept (marks_of p hart) (hand_of p hart) (last_of p hart)).way in
        both_ways (is_last (last_of p hart) way) (swept_apart (marks_of p hart) (hand_of p hart) (last_of p hart) (dial_of p hart).on)
        (ap (λ (o : Option ℕ). is_last o way) e ∙ last_is way) };

    fn touch(&mut self, hart: usize, way: usize) -> Result<(), PolicyRefusal>
        ensures answer { result ≡ touch_of hart way }
        ensures last { (h : ℕ) → h < 8 → last_of self.new h ≡ last_after (last_of self.old) hart way h }
        ensures refused { is_err result ≡ true → self.new ≡ self.old }
        ensures marks { (h : ℕ) → h < 8 → marks_of self.new h ≡ marks_after_touch self.old hart way h }
        ensures hands { (h : ℕ) → h < 8 → hand_of self.new h ≡ hand_of self.old h }
    {
        accept(hart, way)?;
        self.dials[hart].touch(way);
        Ok(())
    }

    fn pick(&mut self, hart: usize) -> Result<usize, PolicyRefusal>
        ensures answer { result ≡ pick_of (swept (marks_of self.old hart) (hand_of self.old hart) (last_of self.old hart)).way hart }
        ensures last { (h : ℕ) → h < 8 → last_of self.new h ≡ last_of self.old h }
        ensures refused { is_err result ≡ true → self.new ≡ self.old }
        ensures marks { (h : ℕ) → h < 8 → marks_of self.new h ≡ marks_after_pick self.old hart h }
        ensures hands { (h : ℕ) → h < 8 → hand_of self.new h ≡ hand_after_pick self.old hart h }
    {
        // No `get_mut`: of an array it leaves nothing known of the other harts' dials.
        if hart >= 8 {
            return Err(PolicyRefusal::NoHart);
        }
        Ok(self.dials[hart].sweep())
    }
}
