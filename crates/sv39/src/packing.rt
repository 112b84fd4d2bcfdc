// Entries from doublewords, from numbers, and back.
ghost use Rattle.std.specs.Prelude.{◌≡◌, ◌+◌, ◌*◌, ◌/◌, ◌%◌, ◌^◌, ◌<◌, ◌≤◌};
ghost use Rattle.sv39.specs.Making.{Made, leaf_flags, pointer_flags, rights_of, with_flags};
ghost use Rattle.sv39.specs.Layout.{bit, flags_of, packed_flags, unpacked, packed};

use crate::{Entry, Flags, Rights, TooWide};

/// Bit `k` of a doubleword.
fn bit_of(word: u64, k: u32) -> bool
    requires { k < 64 }
    ensures { result ≡ bit word k }
{
    word >> k & 1 == 1
}

impl Flags {
    /// The flags in the low eight bits of a doubleword.
    fn unpack(word: u64) -> Flags
        ensures { result ≡ flags_of word }
    {
        Flags {
            v: bit_of(word, 0),
            r: bit_of(word, 1),
            w: bit_of(word, 2),
            x: bit_of(word, 3),
            u: bit_of(word, 4),
            g: bit_of(word, 5),
            a: bit_of(word, 6),
            d: bit_of(word, 7),
        }
    }

    /// The flags as the low eight bits of a doubleword.
    fn pack(self) -> u64
        ensures value { result ≡ packed_flags self }
        ensures bound { result < 2 ^ 8 }
    {
        let low = self.v as u64 + 2 * (self.r as u64) + 4 * (self.w as u64) + 8 * (self.x as u64);
        let high = self.u as u64 + 2 * (self.g as u64) + 4 * (self.a as u64) + 8 * (self.d as u64);
        low + 16 * high
    }
}

impl Rights {
    /// The flags of a leaf with these rights: V and A set, D if it may be written, G clear.
    pub fn leaf_flags(self) -> Flags
        ensures { result ≡ leaf_flags self }
    {
        let Rights { r, w, x, u } = self;
        Flags {
            v: true,
            r,
            w,
            x,
            u,
            a: true,
            d: w,
            ..Flags::default()
        }
    }
}

/// The rights that a leaf with these flags gives.
impl From<Flags> for Rights {
    ghost from_gives = { λ flags r. r ≡ rights_of flags };

    fn from(flags: Flags) -> Rights {
        let Flags { r, w, x, u, .. } = flags;
        Rights { r, w, x, u }
    }
}

// A trait over all refusals would have a number for each type all the same.
impl TooWide {
    /// The number of this refusal.
    pub fn number(self) -> u8
        ensures { result ≡ 6 }
    {
        6
    }
}

impl Entry {
    /// An entry from its fields; refused where one is too wide.
    pub fn new(flags: Flags, rsw: u8, ppn: u64, top: u16) -> Result<Entry, TooWide>
        ensures { Made flags rsw ppn top result }
    {
        if rsw < 4 && ppn < 1 << 44 && top < 1024 {
            Ok(Entry {
                flags,
                rsw,
                ppn,
                top,
            })
        } else {
            Err(TooWide)
        }
    }

    /// The leaf of a frame with these rights.
    pub fn leaf(frame: u64, rights: Rights) -> Result<Entry, TooWide>
        ensures { Made (leaf_flags rights) 0 frame 0 result }
    {
        Entry::new(rights.leaf_flags(), 0, frame, 0)
    }

    /// The pointer to the table in a frame.
    pub fn pointer(frame: u64) -> Result<Entry, TooWide>
        ensures { Made pointer_flags 0 frame 0 result }
    {
        let flags = Flags {
            v: true,
            ..Flags::default()
        };
        Entry::new(flags, 0, frame, 0)
    }

    /// This entry with other flags.
    pub fn with_flags(self, flags: Flags) -> Entry
        ensures { result ≡ with_flags self flags }
    {
        // `..self` is not supported where a struct has a ghost field.
        let Entry {
            flags: _,
            rsw,
            ppn,
            top,
        } = self;
        Entry {
            flags,
            rsw,
            ppn,
            top,
        }
    }

    /// This entry with another RSW.
    pub fn with_rsw(self, rsw: u8) -> Result<Entry, TooWide>
        ensures { Made self.flags rsw self.ppn self.top result }
    {
        Entry::new(self.flags, rsw, self.ppn, self.top)
    }

    /// This entry with another PPN.
    pub fn with_ppn(self, ppn: u64) -> Result<Entry, TooWide>
        ensures { Made self.flags self.rsw ppn self.top result }
    {
        Entry::new(self.flags, self.rsw, ppn, self.top)
    }

    /// This entry with other top bits.
    pub fn with_top(self, top: u16) -> Result<Entry, TooWide>
        ensures { Made self.flags self.rsw self.ppn top result }
    {
        Entry::new(self.flags, self.rsw, self.ppn, top)
    }

    /// The entry that a doubleword holds.
    pub fn unpack(word: u64) -> Entry
        ensures value { result ≡ unpacked word }
        ensures back { packed result ≡ word }
    {
        Entry {
            flags: Flags::unpack(word),
            rsw: (word >> 8 & 3) as u8,
            ppn: word >> 10 & 0xfff_ffff_ffff,
            top: (word >> 54) as u16,
        }
    }

    /// The doubleword of this entry.
    pub fn pack(self) -> u64
        ensures value { result ≡ packed self }
        ensures back { unpacked result ≡ self }
    {
        self.flags.pack() + ((self.rsw as u64) << 8) + (self.ppn << 10) + ((self.top as u64) << 54)
    }
}
