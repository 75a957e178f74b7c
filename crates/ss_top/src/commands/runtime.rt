// How the calls of a command are run, and the one place that chooses a runtime.
ghost use Rattle.command_line.specs.CommandLine.{CanBeRun};

use command_line::Mode;
use delegates::Gate;
use std::sync::Arc;

/// How calls are run: with how many delegates, in which mode, and, where these run in threads, with
/// how many messages in a lane and through which gate.
#[derive(Drop)]
pub(crate) struct How<G: Gate + 'static> {
    pub delegates: u32,
    pub mode: Mode,
    pub ring: u32,
    pub gate: Arc<G>,
    ghost can: { CanBeRun delegates ring },
}

impl<G: Gate + 'static> How<G> {
    /// As a command asks for.
    pub fn of(delegates: u32, mode: Mode, ring: u32, gate: Arc<G>) -> How<G>
        requires { CanBeRun delegates ring }
    {
        How {
            delegates,
            mode,
            ring,
            gate,
        }
    }
}

/// What `$work` gives with a runtime of its own, with so many delegates. With 0 of them each operation
/// runs at its call.
macro_rules! with_runtime {
    ($alloc:expr, $how:expr, |$runtime:ident| $work:expr) => {{
        let How {
            delegates,
            mode,
            ring,
            gate,
        } = $how;
        if delegates == 0 {
            let $runtime = Plain::new($alloc)?;
            $work
        } else {
            match mode {
                Mode::Lanes => {
                    let $runtime = Lanes::new($alloc, delegates, ring as usize, gate)?;
                    $work
                }
                Mode::Batch => {
                    let $runtime = Batch::new($alloc, delegates)?;
                    $work
                }
            }
        }
    }};
}

pub(crate) use with_runtime;
