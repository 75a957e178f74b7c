// The options, and the modes, by the words that name them.
ghost use Rattle.std.specs.Prelude.{◌≡◌};
ghost use Rattle.command_line.specs.Pieces.{setting_named, flag_named};
ghost use Rattle.command_line.specs.Options.{mode_named};

/// How delegated operations are to be run, where there are delegates. Here it is a word alone.
#[derive(Clone, Copy, Debug, PartialEq, Eq)]
pub enum Mode {
    /// Each delegate takes its operations from a lane, while the program goes on.
    Lanes,
    /// Each delegate runs its pending operations where the program waits for them.
    Batch,
}

/// An option. `Trace` and `Order` have no value.
#[derive(Clone, Copy)]
pub(crate) enum Setting {
    Delegates,
    Mode,
    Ring,
    Stop,
    Trace,
    Order,
}

/// The option of this name that has a value.
#[tactic(auto, unfolding(crate::specs::Pieces::setting_named))]
pub(crate) fn setting_named(word: &str) -> Option<Setting>
    ensures { result ≡ setting_named word.now }
{
    match word {
        "--delegates" => Some(Setting::Delegates),
        "--mode" => Some(Setting::Mode),
        "--ring" => Some(Setting::Ring),
        "--stop" => Some(Setting::Stop),
        _ => None,
    }
}

/// The option of this name that has no value.
#[tactic(auto, unfolding(crate::specs::Pieces::flag_named))]
pub(crate) fn flag_named(word: &str) -> Option<Setting>
    ensures { result ≡ flag_named word.now }
{
    match word {
        "--trace" => Some(Setting::Trace),
        "--order" => Some(Setting::Order),
        _ => None,
    }
}

/// The mode of this name.
#[tactic(auto, unfolding(crate::specs::Options::mode_named))]
pub(crate) fn mode_named(word: &str) -> Option<Mode>
    ensures { result ≡ mode_named word.now }
{
    match word {
        "lanes" => Some(Mode::Lanes),
        "batch" => Some(Mode::Batch),
        _ => None,
    }
}
