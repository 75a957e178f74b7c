// The command that the words of a command line are.
ghost use Rattle.std.specs.Prelude.{◌≡◌, ◌≤◌, ◌<◌, ◌^◌, ◌↔◌, None, Some, map, string_bytes};
ghost use Rattle.std.specs.Prelude.{IfOk, IfSome, IsSome};
ghost use Rattle.std.specs.Option.{option_copied, option_map, option_and_then};
ghost use Rattle.command_line.specs.CommandLine.{index_of, script_of, replay_of, gen_of};
ghost use Rattle.command_line.specs.CommandLine.{only_word, two_words, numbers_in};
ghost use Rattle.command_line.specs.CommandLine.{outcome, CanBeAsked};
ghost use Rattle.command_line.specs.Options.{said_by};
ghost use Rattle.command_line.specs.kept.Rests.{words_in, rest_pieces};
ghost use Rattle.command_line.specs.declared.command.WordsFault.TheVariants as fault;

use crate::numbers::number_in;
use crate::options::Said;
use crate::pieces::Rest;
use crate::setting::Mode;
use ss_base::{OutOfMemory, Text, Texts};
use std::alloc::Global;
use thiserror::Error;

/// A command with what its words gave. The name `-` is standard input.
///
/// Each has the number of its delegates, 0 to 64. Those that are run have their mode, and how many
/// messages a lane holds, 1 to 4,096.
#[derive(Drop, Debug)]
pub enum Command {
    /// Prints the index of the documents under these names, without the terms of the stop list.
    Index {
        delegates: u32,
        mode: Mode,
        ring: u32,
        stop: Option<Text>,
        names: Texts,
    },
    /// Runs the script under this name, and shows its trace, if that is asked for.
    Script {
        delegates: u32,
        mode: Mode,
        ring: u32,
        trace: bool,
        name: Text,
    },
    /// Replays the script under the schedule with 1 to 64 delegates, and shows the order of its
    /// calls, if that is asked for.
    Replay {
        delegates: u32,
        order: bool,
        script: Text,
        schedule: Text,
    },
    /// Prints a summary of the index of so many generated documents of so many words each.
    Gen {
        delegates: u32,
        mode: Mode,
        ring: u32,
        docs: u32,
        words: u32,
        seed: u32,
    },
}

/// Why words gave no command.
#[derive(Clone, Copy, Debug, PartialEq, Eq, Error)]
pub enum WordsFault {
    /// They are no command.
    #[error("the words are no command")]
    Usage,
    /// There was no memory for the command.
    #[error("out of memory")]
    OutOfMemory,
}

impl From<OutOfMemory> for WordsFault {
    ghost from_gives = { λ _ given. given ≡ fault.OutOfMemory };

    fn from(_: OutOfMemory) -> Self {
        WordsFault::OutOfMemory
    }
}

/// The greatest seed of a generator.
const SEED_LIMIT: u32 = (1 << 31) - 1;

// The words of no option.
fn texts_of(alloc: Global, words: Rest<'_>) -> Result<Texts, OutOfMemory>
    requires { IsSome (rest_pieces words) }
    ensures { IfOk result (λ texts. texts ≡ words_in words.entry) }
{
    let mut texts = Texts::new(alloc);
    let mut rest = words;
    'words: while let Some((word, others)) = rest.split_word() {
        texts.push(Text::of(alloc, word)?)?;
        rest = others;
    }
    Ok(texts)
}

// A text of a word that may be there.
fn word_text(alloc: Global, word: Option<&str>) -> Result<Option<Text>, OutOfMemory>
    ensures { IfOk result (λ text. text ≡ option_copied word.entry) }
{
    match word {
        Some(word) => Ok(Some(Text::of(alloc, word)?)),
        None => Ok(None),
    }
}

// The one word of no option, if there is no other.
fn only_word<'a>(words: Rest<'a>) -> Option<&'a str>
    requires { IsSome (rest_pieces words) }
    ensures { option_copied result ≡ only_word (words_in words.entry) }
{
    let (word, others) = words.split_word()?;
    if others.split_word().is_some() {
        return None;
    }
    Some(word)
}

// The two words of no option, if there is no other.
fn two_words<'a>(words: Rest<'a>) -> Option<(&'a str, &'a str)>
    requires { IsSome (rest_pieces words) }
    ensures { option_map (λ words. (words.0.now, words.1.now)) result
        ≡ two_words (words_in words.entry) }
{
    let (first, others) = words.split_word()?;
    Some((first, only_word(others)?))
}

// The three numbers that the words of no option say.
fn numbers_in(words: Rest<'_>) -> Option<(u32, u32, u32)>
    requires { IsSome (rest_pieces words) }
    ensures numbers { result ≡ numbers_in (words_in words.entry) }
    ensures within { IfSome result (λ numbers. (1 ≤ numbers.0) × (numbers.2 < 2 ^ 31)) }
{
    let (docs, others) = words.split_word()?;
    let (words, seed) = two_words(others)?;
    Some((
        number_in(1, u32::MAX, docs)?,
        number_in(0, u32::MAX, words)?,
        number_in(0, SEED_LIMIT, seed)?,
    ))
}

// `index`, by the words behind it.
fn index_command(alloc: Global, words: &[String]) -> Result<Command, WordsFault>
    ensures ok { IfOk result (λ command.
        option_and_then index_of (said_by (map string_bytes words.now)) ≡ Some command) }
    ensures usage { (result ≡ Err WordsFault.Usage)
        ↔ (option_and_then index_of (said_by (map string_bytes words.now)) ≡ None) }
    ensures asked { IfOk result CanBeAsked }
{
    let said = Said::of(words).ok_or(WordsFault::Usage)?;
    if !said.options.suit_index() {
        return Err(WordsFault::Usage);
    }
    let how = said.options.how().ok_or(WordsFault::Usage)?;
    if said.words.split_word().is_none() {
        return Err(WordsFault::Usage);
    }
    Ok(Command::Index {
        delegates: how.delegates,
        mode: how.mode,
        ring: how.ring,
        stop: word_text(alloc, said.options.stop)?,
        names: texts_of(alloc, said.words)?,
    })
}

// `script`, by the words behind it.
fn script_command(alloc: Global, words: &[String]) -> Result<Command, WordsFault>
    ensures ok { IfOk result (λ command.
        option_and_then script_of (said_by (map string_bytes words.now)) ≡ Some command) }
    ensures usage { (result ≡ Err WordsFault.Usage)
        ↔ (option_and_then script_of (said_by (map string_bytes words.now)) ≡ None) }
    ensures asked { IfOk result CanBeAsked }
{
    let said = Said::of(words).ok_or(WordsFault::Usage)?;
    if !said.options.suit_script() {
        return Err(WordsFault::Usage);
    }
    let how = said.options.how().ok_or(WordsFault::Usage)?;
    let name = only_word(said.words).ok_or(WordsFault::Usage)?;
    Ok(Command::Script {
        delegates: how.delegates,
        mode: how.mode,
        ring: how.ring,
        trace: said.options.trace.is_some(),
        name: Text::of(alloc, name)?,
    })
}

// `replay`, by the words behind it.
fn replay_command(alloc: Global, words: &[String]) -> Result<Command, WordsFault>
    ensures ok { IfOk result (λ command.
        option_and_then replay_of (said_by (map string_bytes words.now)) ≡ Some command) }
    ensures usage { (result ≡ Err WordsFault.Usage)
        ↔ (option_and_then replay_of (said_by (map string_bytes words.now)) ≡ None) }
    ensures asked { IfOk result CanBeAsked }
{
    let said = Said::of(words).ok_or(WordsFault::Usage)?;
    if !said.options.suit_replay() {
        return Err(WordsFault::Usage);
    }
    let delegates = said.options.delegates(1).ok_or(WordsFault::Usage)?;
    let (script, schedule) = two_words(said.words).ok_or(WordsFault::Usage)?;
    Ok(Command::Replay {
        delegates,
        order: said.options.order.is_some(),
        script: Text::of(alloc, script)?,
        schedule: Text::of(alloc, schedule)?,
    })
}

// `gen`, by the words behind it.
fn gen_command(words: &[String]) -> Option<Command>
    ensures command { result ≡ option_and_then gen_of (said_by (map string_bytes words.now)) }
    ensures asked { IfSome result CanBeAsked }
{
    let said = Said::of(words)?;
    if !said.options.suit_gen() {
        return None;
    }
    let how = said.options.how()?;
    let (docs, words, seed) = numbers_in(said.words)?;
    Some(Command::Gen {
        delegates: how.delegates,
        mode: how.mode,
        ring: how.ring,
        docs,
        words,
        seed,
    })
}

/// The command that the words after the program's name are, as the definition `outcome` says.
pub fn command_of(alloc: Global, words: &[String]) -> Result<Command, WordsFault>
    ensures ok { IfOk result (λ command. outcome (map string_bytes words.now) ≡ Some command) }
    ensures usage { (result ≡ Err WordsFault.Usage)
        ↔ (outcome (map string_bytes words.now) ≡ None) }
    ensures asked { IfOk result CanBeAsked }
{
    let Some((name, words)) = words.split_first() else {
        return Err(WordsFault::Usage);
    };
    match name.as_str() {
        "index" => index_command(alloc, words),
        "script" => script_command(alloc, words),
        "replay" => replay_command(alloc, words),
        "gen" => gen_command(words).ok_or(WordsFault::Usage),
        _ => Err(WordsFault::Usage),
    }
}
