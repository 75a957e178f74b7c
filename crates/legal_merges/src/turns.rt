// An order, judged place by place.
ghost use Rattle.std.specs.Prelude.{◌≡◌, ◌<◌, ◌≤◌, ◌+◌, ℕ, [], ◌∷◌, ◌++◌, Some, List, IfOk, length, slice_get};
ghost use Rattle.std.specs.Bool.{OnTrue, OnFalse};
ghost use Rattle.execution_definitions.specs.Shapes.{Shape};
ghost use Rattle.legal_merges.specs.kept.Turns.{AreTurns, IsTable, IsOnWay, MayCome};
ghost use Rattle.legal_merges.specs.kept.Judging.{IsOnSomeWay, IsOfSomeTable, IsTaken, IsNextOf, AreDone, AreAllDone, HasWaited};

use crate::step::{Step, Waits};
use ss_base::OutOfMemory;
use std::alloc::Global;

/// What may come next, after places that begin a legal merge.
#[derive(Drop)]
pub struct Turns {
    // What is kept of each call.
    steps: Vec<Step>,
    // The next place of its turn after each, or the number of calls.
    afters: Vec<usize>,
    // The next place of each turn, or the number of calls.
    nexts: Vec<usize>,
}

/// Before the first place, with `lanes` lanes.
pub fn first_turns(alloc: Global, steps: Vec<Step>, lanes: u32) -> Result<Turns, OutOfMemory>
    requires at_most_64 { lanes ≤ 64 }
    requires table { IsOfSomeTable lanes steps.items }
    ensures { IfOk result (λ turns. (calls : List Shape) → IsTable lanes calls steps.items →
        IsOnWay lanes calls [] turns) }
{
    let count = steps.len();
    let mut nexts = vec![in alloc; count; lanes as usize + 1]?;
    let mut afters = vec![in alloc; count; count]?;
    for place in (0..count).rev() {
        let turn = steps[place].turn as usize;
        afters[place] = nexts[turn];
        nexts[turn] = place;
    }
    Ok(Turns {
        steps,
        afters,
        nexts,
    })
}

impl Turns {
    /// The next place of a turn; the number of calls, where there is none.
    pub fn next_of(&self, turn: usize) -> usize
        requires { IsOnSomeWay self.now }
        ensures { (n : ℕ) (calls : List Shape) (done : List ℕ) → IsOnWay n calls done self.now →
            IsNextOf n calls done turn result }
    {
        match next_at(&self.nexts, turn) {
            Some(next) => next,
            None => self.steps.len(),
        }
    }

    /// Takes a place, where it may come next: with it the places begin a legal merge.
    pub fn take(&mut self, place: usize) -> bool
        requires { IsOnSomeWay self.old }
        ensures { (n : ℕ) (calls : List Shape) (done : List ℕ) → IsOnWay n calls done self.old →
            IsTaken n calls done place self.new result }
    {
        let Some(step) = step_at(&self.steps, place) else {
            return false;
        };
        if !may_come(&self.nexts, step, place) {
            return false;
        }
        self.nexts[step.turn as usize] = self.afters[place];
        true
    }

    /// No call is left.
    pub fn are_done(&self) -> bool
        requires { IsOnSomeWay self.now }
        ensures { (n : ℕ) (calls : List Shape) (done : List ℕ) → IsOnWay n calls done self.now →
            AreAllDone calls done result }
    {
        are_done(&self.nexts, self.steps.len())
    }
}

fn step_at(steps: &[Step], place: usize) -> Option<Step>
    ensures { result ≡ slice_get steps.now place }
{
    steps.get(place).copied()
}

fn next_at(nexts: &[usize], turn: usize) -> Option<usize>
    ensures { result ≡ slice_get nexts.now turn }
{
    nexts.get(turn).copied()
}

fn are_done(nexts: &[usize], count: usize) -> bool
    ensures yes { OnTrue result (AreDone nexts.now count) }
    ensures no { OnFalse result (AreDone nexts.now count → ⊥) }
{
    nexts.iter().all(|next| *next >= count)
}

fn may_come(nexts: &[usize], step: Step, place: usize) -> bool
    requires turn { step.turn < length nexts.now }
    requires waits { AreTurns (length nexts.now) step.waits }
    ensures yes { OnTrue result (MayCome nexts.now step place) }
    ensures no { OnFalse result (MayCome nexts.now step place → ⊥) }
{
    nexts[step.turn as usize] == place && place <= nexts[0] && has_waited(nexts, step.waits, place)
}

// No turn that is waited for has its next place before this one.
fn has_waited(nexts: &[usize], waits: Waits, place: usize) -> bool
    requires { AreTurns (length nexts.now) waits }
    ensures yes { OnTrue result (HasWaited nexts.now waits place) }
    ensures no { OnFalse result (HasWaited nexts.now waits place → ⊥) }
{
    match waits {
        Waits::For(turn) => place <= nexts[turn as usize],
        Waits::ForAll => nexts.iter().all(|next| place <= *next),
    }
}
