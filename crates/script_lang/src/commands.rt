// The command that a line of words is.
ghost use Rattle.std.specs.Prelude.{◌≡◌, map};
ghost use Rattle.std.specs.Option.{option_copied};
ghost use Rattle.script_lang.specs.Parsing.Commands.{make, make_fixed, delegate, mix, write, show};
ghost use Rattle.script_lang.specs.Parsing.Commands.{object_line, fixed_line, alone, do_line, mix_line};
ghost use Rattle.script_lang.specs.Parsing.Commands.{write_line, show_line, line_of};
ghost use Rattle.script_lang.specs.Commands.{line_command};

use crate::command::Command;
use crate::fault::ScriptKind;
use crate::keyword::{Keyword, is_in, keyword_of, serializer_named};
use crate::names::Names;
use crate::parts::{act_of, deed_of, may_name, number, object_of};
use crate::word32::Act;
use execution_definitions::By;

#[tactic(auto, unfolding(crate::specs::Parsing::Commands::make))]
fn make(names: &Names, name: &[u8], value: &[u8], by: Option<By>) -> Result<Command, ScriptKind>
    ensures { result ≡ make names.now name.now value.now by }
{
    let by = by.ok_or(ScriptKind::BadShape)?;
    may_name(names, name)?;
    let value = number(value)?;
    Ok(Command::Make { value, by })
}

#[tactic(auto, unfolding(crate::specs::Parsing::Commands::make_fixed))]
fn make_fixed(names: &Names, name: &[u8], value: &[u8]) -> Result<Command, ScriptKind>
    ensures { result ≡ make_fixed names.now name.now value.now }
{
    may_name(names, name)?;
    let value = number(value)?;
    Ok(Command::MakeFixed { value })
}

#[tactic(auto, unfolding(crate::specs::Parsing::Commands::delegate))]
fn delegate(
    names: &Names,
    name: &[u8],
    word: &[u8],
    text: Option<&[u8]>,
    set: Option<&[u8]>,
) -> Result<Command, ScriptKind>
    ensures { result ≡ delegate names.now name.now word.now
        (option_copied text.entry) (option_copied set.entry) }
{
    let act = act_of(word, text).ok_or(ScriptKind::BadShape)?;
    let object = object_of(names, name)?;
    let deed = deed_of(act, set)?;
    Ok(Command::Delegate {
        object,
        deed,
        reading: None,
    })
}

#[tactic(auto, unfolding(crate::specs::Parsing::Commands::mix))]
fn mix(
    names: &Names,
    first: &[u8],
    second: &[u8],
    set: Option<&[u8]>,
) -> Result<Command, ScriptKind>
    ensures { result ≡ mix names.now first.now second.now (option_copied set.entry) }
{
    let object = object_of(names, first)?;
    let reading = object_of(names, second)?;
    let deed = deed_of(Ok(Act::Mix), set)?;
    Ok(Command::Delegate {
        object,
        deed,
        reading: Some(reading),
    })
}

#[tactic(auto, unfolding(crate::specs::Parsing::Commands::write))]
fn write(
    names: &Names,
    name: &[u8],
    word: &[u8],
    text: Option<&[u8]>,
) -> Result<Command, ScriptKind>
    ensures { result ≡ write names.now name.now word.now (option_copied text.entry) }
{
    let act = act_of(word, text).ok_or(ScriptKind::BadShape)?;
    let object = object_of(names, name)?;
    let deed = deed_of(act, None)?;
    Ok(Command::Write { object, deed })
}

#[tactic(auto, unfolding(crate::specs::Parsing::Commands::show))]
fn show(names: &Names, name: &[u8]) -> Result<Command, ScriptKind>
    ensures { result ≡ show names.now name.now }
{
    let object = object_of(names, name)?;
    Ok(Command::Get { object })
}

fn object_line(names: &Names, words: &[&[u8]]) -> Result<Command, ScriptKind>
    ensures { result ≡ object_line names.now (map (λ word. word.now) words.now) }
{
    match words {
        [name, value] => make(names, name, value, Some(By::Object)),
        [name, value, word] => make(names, name, value, serializer_named(word)),
        _ => Err(ScriptKind::BadShape),
    }
}

fn fixed_line(names: &Names, words: &[&[u8]]) -> Result<Command, ScriptKind>
    ensures { result ≡ fixed_line names.now (map (λ word. word.now) words.now) }
{
    match words {
        [name, value] => make_fixed(names, name, value),
        _ => Err(ScriptKind::BadShape),
    }
}

fn alone(command: Command, words: &[&[u8]]) -> Result<Command, ScriptKind>
    ensures { result ≡ alone command (map (λ word. word.now) words.now) }
{
    match words {
        [] => Ok(command),
        _ => Err(ScriptKind::BadShape),
    }
}

fn do_line(names: &Names, words: &[&[u8]]) -> Result<Command, ScriptKind>
    ensures { result ≡ do_line names.now (map (λ word. word.now) words.now) }
{
    match words {
        [name, act] => delegate(names, name, act, None, None),
        [name, act, value] => delegate(names, name, act, Some(value), None),
        [name, act, word, set] if is_in(word) => delegate(names, name, act, None, Some(set)),
        [name, act, value, word, set] if is_in(word) => {
            delegate(names, name, act, Some(value), Some(set))
        }
        _ => Err(ScriptKind::BadShape),
    }
}

fn mix_line(names: &Names, words: &[&[u8]]) -> Result<Command, ScriptKind>
    ensures { result ≡ mix_line names.now (map (λ word. word.now) words.now) }
{
    match words {
        [first, second] => mix(names, first, second, None),
        [first, second, word, set] if is_in(word) => mix(names, first, second, Some(set)),
        _ => Err(ScriptKind::BadShape),
    }
}

fn write_line(names: &Names, words: &[&[u8]]) -> Result<Command, ScriptKind>
    ensures { result ≡ write_line names.now (map (λ word. word.now) words.now) }
{
    match words {
        [name, act] => write(names, name, act, None),
        [name, act, value] => write(names, name, act, Some(value)),
        _ => Err(ScriptKind::BadShape),
    }
}

fn show_line(names: &Names, words: &[&[u8]]) -> Result<Command, ScriptKind>
    ensures { result ≡ show_line names.now (map (λ word. word.now) words.now) }
{
    match words {
        [name] => show(names, name),
        _ => Err(ScriptKind::BadShape),
    }
}

// The command of the words behind a command word.
#[tactic(auto, unfolding(crate::specs::Parsing::Commands::line_of))]
fn line_of(names: &Names, keyword: Keyword, words: &[&[u8]]) -> Result<Command, ScriptKind>
    ensures { result ≡ line_of names.now keyword (map (λ word. word.now) words.now) }
{
    match keyword {
        Keyword::Object => object_line(names, words),
        Keyword::Fixed => fixed_line(names, words),
        Keyword::Isolate => alone(Command::Begin, words),
        Keyword::Join => alone(Command::End, words),
        Keyword::Do => do_line(names, words),
        Keyword::Mix => mix_line(names, words),
        Keyword::Write => write_line(names, words),
        Keyword::Show => show_line(names, words),
        Keyword::Total => alone(Command::Total, words),
    }
}

/// The command of a line of words, where these names were made, or the line's first fault. It takes
/// no memory.
pub(crate) fn line_command(names: &Names, words: &[&[u8]]) -> Result<Command, ScriptKind>
    ensures { result ≡ line_command names.now (map (λ word. word.now) words.now) }
{
    let Some((word, words)) = words.split_first() else {
        return Err(ScriptKind::UnknownCommand);
    };
    match keyword_of(word) {
        Some(keyword) => line_of(names, keyword, words),
        None => Err(ScriptKind::UnknownCommand),
    }
}
