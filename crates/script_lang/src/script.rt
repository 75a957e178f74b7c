// A script that was read.
ghost use Rattle.std.specs.Prelude.{◌≡◌, IfOk, slice_get};
ghost use Rattle.std.specs.Option.{option_map, option_copied};
ghost use Rattle.script_lang.specs.ScriptCalls.{calls_of, call_of};
ghost use Rattle.script_lang.specs.Parsing.Epochs.{is_open_after};

use crate::command::{Command, Placed};
use crate::word32::Word32;
use delegation::Call;
use ss_base::{ObjectId, OutOfMemory};
use std::alloc::Global;
use std::marker::Model;
use text_table::TextList;

/// A script. Contracts see its listing: the commands, each with its line, and the names of the
/// objects by their numbers.
#[derive(Drop, Debug)]
pub struct Script {
    commands: Vec<Placed>,
    names: TextList,
}

impl Model for Script {
    ghost use Rattle.script_lang.specs.Listings.{Listing};

    ghost Value = { Listing };

    ghost view = { λ script. record {
      commands = script.commands.items;
      names = script.names;
    } };
}

// The call of a command.
pub(crate) fn call_of(command: Command) -> Call<Word32>
    ensures { result ≡ call_of command }
{
    match command {
        Command::Make { value, by } => Call::Make {
            value: Word32(value),
            by,
        },
        Command::MakeFixed { value } => Call::MakeFixed {
            value: Word32(value),
        },
        Command::Begin => Call::Begin,
        Command::End => Call::End,
        Command::Delegate {
            object,
            deed,
            reading,
        } => Call::Delegate {
            object,
            op: deed,
            reading,
        },
        Command::Write { object, deed } => Call::Write { object, op: deed },
        Command::Get { object } => Call::Get { object },
        Command::Total => Call::Total,
    }
}

// Whether an epoch is open after a command, where it was or wasn't before.
pub(crate) fn is_open_after(command: Command, is_open: bool) -> bool
    ensures { result ≡ is_open_after command is_open }
{
    match command {
        Command::Begin => true,
        Command::End => false,
        _ => is_open,
    }
}

impl Script {
    pub(crate) fn of(commands: Vec<Placed>, names: TextList) -> Script
        ensures { result ≡ record { commands = commands.items; names = names } }
    {
        Script { commands, names }
    }

    /// The commands, each with its line.
    pub(crate) fn commands(&self) -> &[Placed]
        ensures { result.now ≡ self.now.commands }
    {
        &self.commands
    }

    /// The calls of the commands in order, and an `End` where they end within an epoch.
    pub fn calls(&self, alloc: Global) -> Result<Vec<Call<Word32>>, OutOfMemory>
        ensures { IfOk result (λ calls. calls.items ≡ calls_of self.now) }
    {
        let mut calls = Vec::with_capacity(alloc, self.commands.len() + 1)?;
        let mut is_open = false;
        for placed in &self.commands {
            calls.push(call_of(placed.command))?;
            is_open = is_open_after(placed.command, is_open);
        }
        if is_open {
            calls.push(Call::End)?;
        }
        Ok(calls)
    }

    /// The line of a command, counted from 1. `None` exactly where the number is no command's: the
    /// `End` that a script lacks has a number and no line. It takes no memory.
    pub fn line(&self, call: u64) -> Option<u32>
        ensures { result ≡ option_map (λ placed. placed.line) (slice_get self.now.commands call) }
    {
        Some(self.commands.get(call as usize)?.line)
    }

    /// The name of an object. `None` exactly where the script makes no such object. It takes no
    /// memory.
    pub fn name(&self, object: ObjectId) -> Option<&str>
        ensures { option_copied result ≡ slice_get self.now.names object.0 }
    {
        (object.0 < self.names.len()).then(|| self.names.text(object.0))
    }
}
