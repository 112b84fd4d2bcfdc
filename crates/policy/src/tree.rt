// One hart's tree of Tree-PLRU.
ghost use Rattle.std.specs.Prelude.{◌≡◌, length, Some, ◌≢◌};
ghost use Rattle.policy.specs.Tree.{followed};

/// Node n, from 1 to 15, has the children 2n (bit clear) and 2n + 1 (bit set); way w is leaf 16 + w. The bits never lead
/// to the way touched last.
#[derive(Clone, Copy)]
pub struct Tree {
    pub nodes: [bool; 16],
    pub last: Option<usize>,
    ghost full: { length nodes ≡ 16 },
    ghost apart: { last ≢ Some (followed nodes) },
}
