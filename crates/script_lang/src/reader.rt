// Reads a script line by line.
ghost use Rattle.std.specs.Prelude.{◌≡◌, map, Ok, Err, OnOk};
ghost use Rattle.std.specs.Option.{option_copied};
ghost use Rattle.script_lang.specs.Commands.{line_command};
ghost use Rattle.script_lang.specs.Lines.{line_words};
ghost use Rattle.script_lang.specs.Parsing.Reading.{nothing_read, makes_object, name_made};
ghost use Rattle.script_lang.specs.Parsing.Reading.{listing_with, after_line};

use crate::command::{Command, Placed};
use crate::commands::line_command;
use crate::fault::{ParseFault, ScriptFault};
use crate::names::Names;
use crate::script::Script;
use crate::words::{Words, is_skipped};
use ss_base::OutOfMemory;
use std::alloc::Global;
use std::marker::Model;

/// What was read of a script. Contracts see its listing.
#[derive(Drop)]
pub(crate) struct Reader {
    commands: Vec<Placed>,
    names: Names,
}

impl Model for Reader {
    ghost use Rattle.script_lang.specs.Listings.{Listing};

    ghost Value = { Listing };

    ghost view = { λ reader. record { commands = reader.commands.items; names = reader.names } };
}

fn makes_object(command: Command) -> bool
    ensures { result ≡ makes_object command }
{
    matches!(command, Command::Make { .. } | Command::MakeFixed { .. })
}

// The name that a command makes, which is its line's second word.
#[tactic(auto, unfolding(crate::specs::Parsing::Reading::name_made))]
fn name_made<'a>(command: Command, words: &[&'a [u8]]) -> Option<&'a [u8]>
    ensures { option_copied result ≡ name_made command (map (λ word. word.now) words.now) }
{
    if !makes_object(command) {
        return None;
    }
    words.get(1).copied()
}

impl Reader {
    /// Nothing is read yet. It takes no memory.
    pub(crate) fn new(alloc: Global) -> Reader
        ensures { result ≡ nothing_read }
    {
        Reader {
            commands: Vec::new(alloc),
            names: Names::new(alloc),
        }
    }

    // Appends the command of a line. After an `OutOfMemory` nothing is said of this reader.
    fn push(&mut self, placed: Placed, words: &[&[u8]]) -> Result<(), OutOfMemory>
        requires { line_command self.old.names (map (λ word. word.now) words.now)
            ≡ Ok placed.command }
        ensures { OnOk result (self.new ≡ listing_with self.old placed.line
            (map (λ word. word.now) words.now) placed.command) }
    {
        if let Some(name) = name_made(placed.command, words) {
            self.names.push(name)?;
        }
        self.commands.push(placed)?;
        Ok(())
    }

    /// Reads the next line. After an error nothing is said of this reader.
    pub(crate) fn read_line(&mut self, line: u32, text: &[u8]) -> Result<(), ParseFault>
        ensures ok { OnOk result (after_line self.old line (line_words text.now) ≡ Ok self.new) }
        ensures fault { (fault : ScriptFault) → result ≡ Err (ParseFault.Text fault)
            → after_line self.old line (line_words text.now) ≡ Err fault }
    {
        let kept = Words::of(text);
        let words = kept.as_slice();
        if is_skipped(words) {
            return Ok(());
        }
        match line_command(&self.names, words) {
            Ok(command) => Ok(self.push(Placed { command, line }, words)?),
            Err(kind) => Err(ParseFault::Text(ScriptFault { line, kind })),
        }
    }

    /// The script that was read.
    pub(crate) fn into_script(self) -> Script
        ensures { result ≡ self }
    {
        let Reader { commands, names } = self;
        Script::of(commands, names.into_texts())
    }
}
