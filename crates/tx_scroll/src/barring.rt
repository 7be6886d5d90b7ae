//! The trials of a container, one after another.

ghost use Rattle.std.specs.Prelude.{◌≡◌, ◌<◌, ◌≤◌, ℕ, length, All, IfOk, Option, [], ◌∷◌};
ghost use Rattle.std.specs.List.{FoldsTo};
ghost use Rattle.tx_read.specs.Answer.{Gives};
ghost use Rattle.tx_io.specs.declared.steps.Tick.TheVariants.{Arranged};
ghost use Rattle.tx_layout.specs.Ask.{told, Means};
ghost use Rattle.tx_layout.specs.Arrangement.{AreWithinReach};
ghost use Rattle.tx_layout.specs.Style.{IsBoxStyle, IsGridStyle};
ghost use Rattle.tx_scroll.specs.Bars.{outcome, made_of, tried_in_order, made, arranged_in, barred};
ghost use Rattle.tx_scroll.specs.Ticks.{TicksBy, TicksAtMost};

use crate::trials::{Barred, Trial, fits, trials, viewport};
use std::alloc::Global;
use tx_geom::{AlignX, AlignY, LayoutKind, Overflow, Size};
use tx_io::{Ledger, Steps};
use tx_layout::{Ask, BoxStyle, GridStyle, LayoutFault, arrange};

// What comes of one trial.
#[tactic(auto, unfolding(crate::specs::Bars::arranged_in))]
fn tried<F: Fn(Ask) -> Result<u32, LayoutFault>, L: Ledger>(
    alloc: Global,
    trial: Trial,
    kind: LayoutKind,
    grid: &GridStyle,
    align: (AlignX, AlignY),
    children: &[BoxStyle],
    content: Size,
    screen: Size,
    measure: &F,
    steps: &mut Steps<L>,
) -> Result<Barred, LayoutFault>
    requires grid { IsGridStyle grid.now }
    requires callable { (ask : Ask) → ask.child < length children.now → F.pre measure.now ask }
    requires styles { All IsBoxStyle children.now }
    requires count { length children.now ≤ 65536 }
    ensures exact { (meaning : Ask → Option ℕ)
        → Means (F.post measure.now) (length children.now) meaning
        → Gives (λ b. b) told result (outcome (arranged_in meaning kind grid.now align children.now screen) content trial) }
    ensures near { IfOk result (λ b. AreWithinReach b.arrangement.placed) }
    ensures ticked { FoldsTo L.ticked steps.old.ledger (Arranged ∷ []) steps.new.ledger }
{
    let viewport = viewport(content, trial);
    let arrangement = arrange(
        alloc, kind, grid, align, children, viewport, screen, measure, steps,
    )?;
    Ok(Barred {
        across: trial.across,
        down: trial.down,
        viewport,
        arrangement,
    })
}

// What comes of trials in this order: of the first one that is refused or fits, else of the last.
fn first_fit<F: Fn(Ask) -> Result<u32, LayoutFault>, L: Ledger>(
    alloc: Global,
    trials: &[Trial],
    x: Overflow,
    y: Overflow,
    kind: LayoutKind,
    grid: &GridStyle,
    align: (AlignX, AlignY),
    children: &[BoxStyle],
    content: Size,
    screen: Size,
    measure: &F,
    steps: &mut Steps<L>,
) -> Result<Barred, LayoutFault>
    requires some { 0 < length trials.now }
    requires grid { IsGridStyle grid.now }
    requires callable { (ask : Ask) → ask.child < length children.now → F.pre measure.now ask }
    requires styles { All IsBoxStyle children.now }
    requires count { length children.now ≤ 65536 }
    ensures exact { (meaning : Ask → Option ℕ)
        → Means (F.post measure.now) (length children.now) meaning
        → Gives (λ b. b) told result (tried_in_order (arranged_in meaning kind grid.now align children.now screen) x y content trials.now) }
    ensures ticked { (meaning : Ask → Option ℕ)
        → Means (F.post measure.now) (length children.now) meaning
        → TicksBy L.ticked result (length (made_of (arranged_in meaning kind grid.now align children.now screen) x y content trials.now)) steps.old.ledger steps.new.ledger }
    ensures near { IfOk result (λ b. AreWithinReach b.arrangement.placed) }
    ensures few { TicksAtMost L.ticked (length trials.now) steps.old.ledger steps.new.ledger }
{
    let Some((trial, later)) = trials.split_first() else {
        unreachable!()
    };
    let barred = tried(
        alloc, *trial, kind, grid, align, children, content, screen, measure, steps,
    )?;
    if later.is_empty() || fits(x, y, *trial, barred.arrangement.over) {
        return Ok(barred);
    }
    first_fit(
        alloc, later, x, y, kind, grid, align, children, content, screen, measure, steps,
    )
}

/// The scroll bars of a container with this content area, and its children in the viewport that the
/// bars leave.
///
/// A vertical bar takes the last two columns of the content area, or the one that there is, and a
/// horizontal one the last row. These are tried in turn: no bar, the vertical one, the horizontal
/// one, both, without those that give a hidden axis a bar or a scroll axis none. The first trial
/// counts in which the children go past the room for them in no auto axis without a bar, else the
/// last.
///
/// Each trial that is made is one call of [`tx_layout::arrange`] and one arrangement in `steps`, also
/// one that is refused. No trial is made after one that fits or is refused. The call is refused
/// exactly where a trial that is made is, with the direction of its first refused step. Else it fails
/// only where there is no memory. The conditions are those of [`tx_layout::arrange`].
pub fn bars<F: Fn(Ask) -> Result<u32, LayoutFault>, L: Ledger>(
    alloc: Global,
    x: Overflow,
    y: Overflow,
    kind: LayoutKind,
    grid: &GridStyle,
    align: (AlignX, AlignY),
    children: &[BoxStyle],
    content: Size,
    screen: Size,
    measure: &F,
    steps: &mut Steps<L>,
) -> Result<Barred, LayoutFault>
    requires grid { IsGridStyle grid.now }
    requires callable { (ask : Ask) → ask.child < length children.now → F.pre measure.now ask }
    requires styles { All IsBoxStyle children.now }
    requires count { length children.now ≤ 65536 }
    ensures exact { (meaning : Ask → Option ℕ)
        → Means (F.post measure.now) (length children.now) meaning
        → Gives (λ b. b) told result (barred meaning x y kind grid.now align children.now content screen) }
    ensures ticked { (meaning : Ask → Option ℕ)
        → Means (F.post measure.now) (length children.now) meaning
        → TicksBy L.ticked result (length (made (arranged_in meaning kind grid.now align children.now screen) x y content)) steps.old.ledger steps.new.ledger }
    ensures near { IfOk result (λ b. AreWithinReach b.arrangement.placed) }
    ensures few { TicksAtMost L.ticked 4 steps.old.ledger steps.new.ledger }
{
    first_fit(
        alloc,
        trials(x, y),
        x,
        y,
        kind,
        grid,
        align,
        children,
        content,
        screen,
        measure,
        steps,
    )
}
