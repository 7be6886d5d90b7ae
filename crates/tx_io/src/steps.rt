//! Steps of the work, and who counts them.

ghost use Rattle.std.specs.Prelude.{◌≡◌, [], ◌∷◌};
ghost use Rattle.std.specs.List.{FoldsTo};
ghost use Rattle.tx_io.specs.Ticks.{ticked};

/// A step of the work.
#[derive(Clone, Copy, Debug, PartialEq, Eq)]
pub enum Tick {
    /// One selector was tested against one row.
    Test,
    /// One trial of the arrangement of a container was made.
    Arranged,
    /// One cell was composed.
    Cell,
}

/// What counts steps, one tick at a time.
pub trait Ledger {
    ghost use Rattle.tx_io.specs.declared.steps.Tick.{Tick};

    /// What a ledger may be after a tick, by what it was before.
    ghost ticked: { Self → Tick → Self → Type 0 };

    /// Counts one tick. It can't fail.
    fn tick(&mut self, what: Tick)
        ensures { ticked self.old what self.new };
}

/// The steps that some work takes, as its ledger counts them.
#[derive(Drop)]
pub struct Steps<L: Ledger> {
    pub ledger: L,
}

impl<L: Ledger> Steps<L> {
    /// Counts one tick.
    pub fn tick(&mut self, what: Tick)
        ensures { FoldsTo L.ticked self.old.ledger (what ∷ []) self.new.ledger }
    {
        self.ledger.tick(what);
    }
}

/// The numbers of the ticks so far, of each sort. A number saturates at its type's end.
#[derive(Clone, Copy, Debug, Default, PartialEq, Eq)]
pub struct Counted {
    pub tests: u64,
    pub arranged: u64,
    pub cells: u64,
}

impl Ledger for Counted {
    ghost ticked = { λ before what after. after ≡ ticked before what };

    fn tick(&mut self, what: Tick)
        ensures { self.new ≡ ticked self.old what }
    {
        match what {
            Tick::Test => self.tests = self.tests.saturating_add(1),
            Tick::Arranged => self.arranged = self.arranged.saturating_add(1),
            Tick::Cell => self.cells = self.cells.saturating_add(1),
        }
    }
}

/// A ledger that counts nothing and costs nothing.
#[derive(Clone, Copy, Debug, Default, PartialEq, Eq)]
pub struct Uncounted;

impl Ledger for Uncounted {
    ghost ticked = { λ _ _ _. Unit {0} };

    fn tick(&mut self, _what: Tick) {}
}
