// The acts of the story, over any memory and any policy.
use crate::stage::{Stage, fence, load, store};
use anyhow::anyhow;
use machine::{Answer, Call, Unmapped};
use memory::Memory;
use policy::Policy;
use sv39::Rights;

/// How many harts draw.
pub const HARTS: usize = 8;
/// The strip's page, in either panel's space.
const STRIP: u64 = 0x1000;
/// The harts in the order in which they fence, but for the last.
const ORDER: [usize; 7] = [5, 0, 1, 2, 3, 4, 6];

const LAST: usize = 7;
/// What hart 0 draws in panel 0, and in panel 1; the others draw the numbers after it.
const OLD: u64 = 100;

const NEW: u64 = 200;
/// What the last hart draws by its old way.
const LATE: u64 = 170;

const DRAWN_ON: Rights = Rights {
    r: true,
    w: true,
    x: false,
    u: true,
};

/// The doubleword of the strip that a hart draws.
fn place_of(hart: usize) -> u64 {
    STRIP + 8 * (hart % HARTS) as u64
}

impl<'a, M: Memory, P: Policy> Stage<'a, M, P> {
    /// Two spaces; every hart begins in panel 0's.
    fn open_panels(&mut self) -> anyhow::Result<()> {
        self.heading("Two panels, a space for each; eight harts, all in panel 0's.")?;
        self.tell(Call::Space)??;
        self.tell(Call::Space)??;
        for hart in 0..HARTS {
            self.tell(Call::Enter { hart, space: 0 })??;
        }
        Ok(())
    }

    /// Takes a frame and maps it as a panel's strip.
    fn map_strip(&mut self, space: usize) -> anyhow::Result<()> {
        let frame = self.grant()?;
        self.tell(Call::Map {
            space,
            address: STRIP,
            frame,
            rights: DRAWN_ON,
        })??;
        Ok(())
    }

    /// Every hart draws its doubleword, then reads its neighbour's.
    fn draw(&mut self) -> anyhow::Result<()> {
        self.heading(
            "A strip of terrain in panel 0: every hart draws, and reads what its neighbour drew.",
        )?;
        self.map_strip(0)?;
        for hart in 0..HARTS {
            self.tell(store(hart, place_of(hart), OLD + hart as u64))??;
        }
        for hart in 0..HARTS {
            self.tell(load(hart, place_of(hart + 1)))??;
        }
        Ok(())
    }

    /// Unmaps the strip of panel 0; answers the debt and the frame.
    fn unmap(&mut self) -> anyhow::Result<Unmapped> {
        let call = Call::Unmap {
            space: 0,
            address: STRIP,
        };
        match self.tell(call)?? {
            Answer::Unmapped(unmapped) => Ok(unmapped),
            _ => Err(anyhow!("an unmap answered no debt")),
        }
    }

    /// Tries to settle a debt while a hart is missing, and shows the debt.
    fn try_settle(&mut self, debt: u64) -> anyhow::Result<()> {
        self.tell_refused(Call::Settle { debt })?;
        self.show_debt(debt)
    }

    /// The strip goes. A fence made before counts for nothing, an old way still hits, and the frame goes to nobody.
    fn take_away(&mut self) -> anyhow::Result<Unmapped> {
        self.heading(
            "Hart 0 fences too early, then the strip is unmapped: its frame is owed, an old way still hits it.",
        )?;
        self.tell(fence(0, 0, STRIP))??;
        let strip = self.unmap()?;
        self.show_frame(strip.frame)?;
        self.try_settle(strip.debt)?;
        self.tell(load(3, place_of(3)))??;
        let frame = self.grant()?;
        self.tell(Call::Back { frame })??;
        Ok(strip)
    }

    /// A hart fences the strip, and reads it no more.
    fn fence_strip(&mut self, hart: usize) -> anyhow::Result<()> {
        self.tell(fence(hart, 0, STRIP))??;
        self.tell_refused(load(hart, place_of(hart)))
    }

    /// All harts but one fence; the debt is not settled meanwhile.
    fn fence_most(&mut self, debt: u64) -> anyhow::Result<()> {
        self.heading(
            "Hart after hart fences; after each a settle is tried, and tells the lowest hart that is missing.",
        )?;
        for hart in ORDER {
            self.fence_strip(hart)?;
            self.try_settle(debt)?;
        }
        Ok(())
    }

    /// The last hart draws once more by its old way, then fences, and the frame is released.
    fn fence_last(&mut self, strip: Unmapped) -> anyhow::Result<()> {
        self.heading(
            "The last hart still draws by its old way; then it fences, and the settle releases the frame.",
        )?;
        self.tell(store(LAST, place_of(LAST), LATE))??;
        self.fence_strip(LAST)?;
        self.tell(Call::Settle { debt: strip.debt })??;
        self.show_frame(strip.frame)
    }

    /// The frame is granted again, zeroed, and drawn on in panel 1 by half of the harts.
    fn draw_again(&mut self) -> anyhow::Result<()> {
        self.heading(
            "The frame is granted again, zeroed, and mapped in panel 1, where four harts draw on it.",
        )?;
        self.map_strip(1)?;
        for hart in 4..HARTS {
            self.tell(Call::Enter { hart, space: 1 })??;
            self.tell(load(hart, place_of(hart)))??;
            self.tell(store(hart, place_of(hart), NEW + hart as u64))??;
        }
        Ok(())
    }

    /// What each hart sees of either panel's strip.
    fn look_back(&mut self) -> anyhow::Result<()> {
        self.heading(
            "Every hart looks into both panels: panel 0 has no strip, panel 1 shows what was drawn there.",
        )?;
        for hart in 0..HARTS {
            let drawn = place_of(4 + hart % 4);
            self.tell(Call::Enter { hart, space: 0 })??;
            self.tell_refused(load(hart, drawn))?;
            self.tell(Call::Enter { hart, space: 1 })??;
            self.tell(load(hart, drawn))??;
        }
        Ok(())
    }

    /// The whole story.
    pub fn perform(&mut self) -> anyhow::Result<()> {
        self.heading(
            "Each line is a call and its answer; further in stands what the machine says when it is asked. An access names its hart, mode and address, and answers hit or walk, the frame, and what was read.",
        )?;
        self.open_panels()?;
        self.draw()?;
        let strip = self.take_away()?;
        self.fence_most(strip.debt)?;
        self.fence_last(strip)?;
        self.draw_again()?;
        self.look_back()
    }
}
