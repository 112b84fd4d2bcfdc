// What a debt is.
use tlb::PageId;

// A set of bits, as the rules have it: eight harts fit a byte, and a mark is one bit.
/// A page of a space that some TLB may still hold as it was. `frame` is the one that settling it releases: none where
/// only rights were taken away. Bit h of `marks` is set once hart h has fenced the page since the debt arose.
#[derive(Clone, Copy, PartialEq, Eq, Debug)]
pub struct Debt {
    pub number: u64,
    pub of: PageId,
    pub frame: Option<u64>,
    pub marks: u8,
}
