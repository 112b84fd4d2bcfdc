// What map and protect ask of rights.
ghost use Rattle.std.specs.Prelude.{◌≡◌};
ghost use Rattle.machine.specs.Rights.{valid, due};

use sv39::{Flags, Rights};

/// Whether a leaf may have these rights: not W without R, and one of R, W and X.
pub fn is_valid(rights: Rights) -> bool
    ensures { result ≡ valid rights }
{
    rights.r || rights.x && !rights.w
}

/// Whether a leaf with these flags loses one of R, W and X under other rights, or its U changes.
pub fn is_due(flags: Flags, rights: Rights) -> bool
    ensures { result ≡ due flags rights }
{
    flags.r && !rights.r || flags.w && !rights.w || flags.x && !rights.x || flags.u != rights.u
}
