//! Marks of all cores, and of all channels.
ghost use Rattle.std.specs.Prelude.{◌≡◌, All, Some, None, IsSome, OnOk, map};
ghost use Rattle.target_law.specs.Numbered.{AllNumbered};
ghost use Rattle.target_law.specs.Proper.{IsCoreOf, IsChanOf};

use slack_base::OutOfMemory;
use target_law::Target;

/// Marks each core.
pub fn mark_cores<C: Send + Drop, T: Target<Core = C>>(
    target: &T,
    cores: &mut [C],
) -> Result<(), OutOfMemory>
    requires { AllNumbered (IsCoreOf (T.rules target.now) (T.owns target.now)) 0 (map T.values.core cores.old) }
    ensures cores { OnOk result (map T.values.core cores.new ≡ map T.values.core cores.old) }
    ensures saved { OnOk result (map T.values.saved_core cores.new ≡ map Some (map T.values.core cores.old)) }
{
    for core in cores.iter_mut() {
        target.mark_core(core)?;
    }
    Ok(())
}

/// Marks each channel.
pub fn mark_chans<D: Send + Drop, T: Target<Chan = D>>(
    target: &T,
    chans: &mut [D],
) -> Result<(), OutOfMemory>
    requires { AllNumbered (IsChanOf (T.rules target.now) (T.owns target.now)) 0 (map T.values.chan chans.old) }
    ensures chans { OnOk result (map T.values.chan chans.new ≡ map T.values.chan chans.old) }
    ensures saved { OnOk result (map T.values.saved_chan chans.new ≡ map Some (map T.values.chan chans.old)) }
{
    for chan in chans.iter_mut() {
        target.mark_chan(chan)?;
    }
    Ok(())
}

/// Takes each core back to its mark, and ends the marks.
pub fn undo_cores<C: Send + Drop, T: Target<Core = C>>(target: &T, cores: &mut [C])
    requires { All (λ core. IsSome (T.values.saved_core core)) cores.old }
    ensures cores { map T.values.saved_core cores.old ≡ map Some (map T.values.core cores.new) }
    ensures unmarked { All (λ core. T.values.saved_core core ≡ None) cores.new }
{
    for core in cores.iter_mut() {
        target.undo_core(core);
    }
}

/// Takes each channel back to its mark, and ends the marks.
pub fn undo_chans<D: Send + Drop, T: Target<Chan = D>>(target: &T, chans: &mut [D])
    requires { All (λ chan. IsSome (T.values.saved_chan chan)) chans.old }
    ensures chans { map T.values.saved_chan chans.old ≡ map Some (map T.values.chan chans.new) }
    ensures unmarked { All (λ chan. T.values.saved_chan chan ≡ None) chans.new }
{
    for chan in chans.iter_mut() {
        target.undo_chan(chan);
    }
}

/// Ends the mark of each core.
pub fn keep_cores<C: Send + Drop, T: Target<Core = C>>(target: &T, cores: &mut [C])
    requires { All (λ core. IsSome (T.values.saved_core core)) cores.old }
    ensures cores { map T.values.core cores.new ≡ map T.values.core cores.old }
    ensures unmarked { All (λ core. T.values.saved_core core ≡ None) cores.new }
{
    for core in cores.iter_mut() {
        target.keep_core(core);
    }
}

/// Ends the mark of each channel.
pub fn keep_chans<D: Send + Drop, T: Target<Chan = D>>(target: &T, chans: &mut [D])
    requires { All (λ chan. IsSome (T.values.saved_chan chan)) chans.old }
    ensures chans { map T.values.chan chans.new ≡ map T.values.chan chans.old }
    ensures unmarked { All (λ chan. T.values.saved_chan chan ≡ None) chans.new }
{
    for chan in chans.iter_mut() {
        target.keep_chan(chan);
    }
}
