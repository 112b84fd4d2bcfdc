// The pile of released frames: the last put on goes first.
ghost use Rattle.std.specs.Prelude.{◌≡◌, ◌+◌, ◌-◌, ◌≤◌, replicate, if◌then◌else◌, Some, None, nat_lt, slice_index, slice_set};

/// An array with its height, since a `Pool` is `Copy` and an `ArrayVec` is not.
#[derive(Clone, Copy)]
pub struct Pile {
    pub frames: [u16; 1024],
    pub height: usize,
    ghost low: { height ≤ 1024 },
}

impl Pile {
    pub fn empty() -> Pile
        ensures height { result.height ≡ 0 }
        ensures frames { result.frames ≡ replicate 1024 0 }
    {
        Pile {
            frames: [0; 1024],
            height: 0,
        }
    }

    /// Takes the frame on top off, if there is one.
    pub fn pop(&mut self) -> Option<u16>
        ensures top { result ≡ (if nat_lt 0 self.old.height then Some (slice_index self.old.frames (self.old.height - 1)) else None) }
        ensures height { self.new.height ≡ self.old.height - 1 }
        ensures frames { self.new.frames ≡ self.old.frames }
    {
        if self.height == 0 {
            return None;
        }
        self.height -= 1;
        Some(self.frames[self.height])
    }

    /// Puts a frame on top; where the pile is full nothing changes.
    pub fn push(&mut self, frame: u16)
        ensures height { self.new.height ≡ (if nat_lt self.old.height 1024 then self.old.height + 1 else self.old.height) }
        ensures frames { self.new.frames ≡ (if nat_lt self.old.height 1024 then slice_set self.old.frames self.old.height frame else self.old.frames) }
    {
        if self.height < 1024 {
            self.frames[self.height] = frame;
            self.height += 1;
        }
    }
}
