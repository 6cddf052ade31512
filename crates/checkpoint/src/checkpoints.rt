//! A mark over a whole state.
ghost use Rattle.std.specs.Prelude.{◌≡◌, OnOk, IfOk};
ghost use Rattle.target_law.specs.Cycles.{StateValue};
ghost use Rattle.target_law.specs.Marks.{IsMarkedAt, IsUnmarked};
ghost use Rattle.target_law.specs.Proper.{IsProper};
ghost use Rattle.target_law.specs.Views.{state_of};
ghost use Rattle.checkpoint.specs.Marked.{IsMarkedWhole};

use crate::marks::{keep_chans, keep_cores, mark_chans, mark_cores, undo_chans, undo_cores};
use slack_base::OutOfMemory;
use target_law::{State, Target};

/// A mark over a whole state: each core and each channel of it holds its own value of then, and this holds the clock.
#[derive(Drop)]
pub struct Checkpoint {
    /// The clock of the state when it was marked.
    pub clock: u64,
}

impl Checkpoint {
    /// Marks a state, in place of what was marked before. The state's value stays as it is. Where memory is wanting, the
    /// state is lost: nothing is said of its value and of its marks.
    pub fn take<T: Target>(target: &T, state: &mut State<T>) -> Result<Checkpoint, OutOfMemory>
        requires { IsProper (T.rules target.now) (T.owns target.now) (state_of T.values state.old) }
        ensures state { OnOk result (state_of T.values state.new ≡ state_of T.values state.old) }
        ensures marked { OnOk result (IsMarkedAt T.values (state_of T.values state.old) state.new) }
        ensures clock { IfOk result (λ checkpoint. checkpoint.clock ≡ state.old.clock) }
    {
        mark_cores(target, state.cores.as_mut_slice())?;
        mark_chans(target, state.chans.as_mut_slice())?;
        Ok(Checkpoint { clock: state.clock })
    }

    /// Takes the state back to the mark, and ends the mark. It takes no memory.
    pub fn restore<T: Target>(self, target: &T, state: &mut State<T>)
        requires { IsMarkedWhole T.values state.old }
        ensures state { (s : StateValue T.Inner T.Channel) → s.clock ≡ self.clock → IsMarkedAt T.values s state.old → state_of T.values state.new ≡ s }
        ensures unmarked { IsUnmarked T.values state.new }
    {
        undo_cores(target, state.cores.as_mut_slice());
        undo_chans(target, state.chans.as_mut_slice());
        state.clock = self.clock;
    }

    /// Ends the mark. The state's value stays as it is. It takes no memory.
    pub fn commit<T: Target>(self, target: &T, state: &mut State<T>)
        requires { IsMarkedWhole T.values state.old }
        ensures state { state_of T.values state.new ≡ state_of T.values state.old }
        ensures unmarked { IsUnmarked T.values state.new }
    {
        keep_cores(target, state.cores.as_mut_slice());
        keep_chans(target, state.chans.as_mut_slice());
    }
}
