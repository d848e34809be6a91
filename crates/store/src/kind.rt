// The rules of a kind of store, as code: which version a read shows, and whether a write may go on.
ghost use Rattle.std.specs.Prelude.{◌≡◌, ℕ, Bool, true, nat_le};
ghost use Rattle.store.specs.Meaning.{Rules, Inside};
ghost use Rattle.store.specs.Kinds.{Tested, newest_rules, snapshot_rules};
ghost use Rattle.store.specs.Lasts.{newest_inside, newest_tested, snapshot_inside, snapshot_tested};

// Kept: both rules take two stamps as numbers, since they compare just these two; a struct of them would be made for each version.
/// A kind of store: its two rules. A read shows the last version whose stamp passes a test against the begin stamp.
pub trait Kind: Drop {
    ghost rules: { Rules };

    ghost test: { ℕ → ℕ → Bool };

    /// Whether a read that began at `began` may see a version of this stamp: the last such is shown.
    fn shows(stamp: u16, began: u16) -> bool
        ensures { result ≡ test stamp began };

    /// Whether a write that began at `began` may overwrite a version of this stamp.
    fn admits(stamp: u16, began: u16) -> bool
        ensures { result ≡ rules.admits stamp began };

    ghost inside: { Inside rules };

    ghost tested: { Tested rules test };
}

/// The kind that shows the newest version, and lets every write through.
#[derive(Clone, Copy)]
pub struct Newest;

impl Kind for Newest {
    ghost rules = { newest_rules };

    ghost test = { λ stamp began. true };

    ghost inside = { newest_inside };

    ghost tested = { newest_tested };

    fn shows(_stamp: u16, _began: u16) -> bool {
        true
    }

    fn admits(_stamp: u16, _began: u16) -> bool {
        true
    }
}

/// The kind that shows the versions of the console's begin, and lets a write through only where none is newer.
#[derive(Clone, Copy)]
pub struct Snapshot;

impl Kind for Snapshot {
    ghost rules = { snapshot_rules };

    ghost test = { nat_le };

    ghost inside = { snapshot_inside };

    ghost tested = { snapshot_tested };

    fn shows(stamp: u16, began: u16) -> bool {
        stamp <= began
    }

    fn admits(stamp: u16, began: u16) -> bool {
        stamp <= began
    }
}
