// The laws of the walk that everything above it leans on.
ghost use Rattle.walker.specs.Laws.{ReadsFew, GoesByPage, LeafServes};

/// What holds of every walk: it reads at most three doublewords, and they decide it; it goes by the page of its
/// address; and a leaf that it found serves every other access that the leaf's flags let pass.
pub fn walk_laws()
    ensures reads { ReadsFew }
    ensures pages { GoesByPage }
    ensures serves { LeafServes }
{}
