//! Where reading by the table stops.
ghost use Rattle.std.specs.Prelude.{◌≡◌};
ghost use Rattle.tp_syntax.specs.declared.stuck.Stuck.TheVariants as stuck;

use tp_common::memory::Memory;

/// Why reading stops.
#[derive(Clone, Copy)]
pub enum Stuck {
    /// So many tokens are left. The first of them, or the end of the text, can't stand there.
    At(usize),
    /// An allocation was refused, which says nothing about the text.
    Memory,
}

impl From<Memory> for Stuck {
    ghost from_gives = { λ _ made. made ≡ stuck.Memory };

    fn from(_refused: Memory) -> Stuck {
        Stuck::Memory
    }
}
