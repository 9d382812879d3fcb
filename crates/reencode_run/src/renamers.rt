//! The renamers of a command, and their refusals.
ghost use Rattle.std.specs.Prelude.{◌≡◌};

use reencode_hooks::{Chain, ChainError, Renamer, Unmapped};

/// The renamers of a command.
#[derive(Drop)]
pub enum Renamers {
    /// One.
    Alone(Renamer),
    /// Two, one after the other.
    Both(Chain<Renamer, Renamer>),
}

/// An index that a strict renamer has no entry for.
#[derive(Clone, Copy, Debug, PartialEq)]
pub enum Refusal {
    /// The one renamer has none.
    Alone(Unmapped),
    /// Of two renamers the first has none, or the second.
    Both(ChainError<Unmapped, Unmapped>),
}

/// What a reencoder of renamers refuses with.
pub trait Refuses {
    ghost use Rattle.reencode_run.specs.declared.renamers.Refusal.{Refusal};

    ghost refusal: { Self → Refusal };

    /// The refusal of the renamers.
    fn refusal(self) -> Refusal
        ensures { result ≡ refusal self };
}

impl Refuses for Unmapped {
    ghost use Rattle.reencode_run.specs.declared.renamers.Refusal.{Refusal};

    ghost refusal = { λ u. Refusal.Alone u };

    fn refusal(self) -> Refusal {
        Refusal::Alone(self)
    }
}

impl Refuses for ChainError<Unmapped, Unmapped> {
    ghost use Rattle.reencode_run.specs.declared.renamers.Refusal.{Refusal};

    ghost refusal = { λ e. Refusal.Both e };

    fn refusal(self) -> Refusal {
        Refusal::Both(self)
    }
}
