// The texts on the error stream. None takes memory.
ghost use Rattle.std.specs.Prelude.{◌≡◌, ◌++◌, Some, decimal};
ghost use Rattle.std.specs.List.{flat_map};
ghost use Rattle.std.specs.Option.{option_copied};
ghost use Rattle.ss_base.specs.Faults.{HasCause};
ghost use Rattle.ss_base.specs.Sinks.{GainsAll};
ghost use Rattle.ss_top.specs.Inputs.{documents_from, index_inputs, inputs_of, name_of};
ghost use Rattle.ss_top.specs.Runs.{Tells};
ghost use Rattle.ss_top.specs.Texts.{status_text, limit_text, usage_text};
ghost use Rattle.ss_top.specs.Texts.{memory_text, read_fault_text, document_limit_text};
ghost use Rattle.ss_top.specs.Texts.{line_text, kind_text, fault_text, object_name, object_text};
ghost use Rattle.ss_top.specs.Texts.{two_sets_text, private_text, refusal_text};
ghost use Rattle.ss_top.specs.Printings.{script_names};

use crate::ending::Ended;
use crate::{LimitHit, Status, TextFault, Which};
use command_line::Command;
use execution_definitions::Refusal;
use itoa::Buffer;
use script_lang::{Script, ScriptKind};
use ss_base::{Failed, ObjectId, SetId, Sink, Text, Texts, write_all};

const USAGE: &[u8] =
    b"usage: ssidx index [--delegates N] [--mode lanes|batch] [--ring N] [--stop FILE] NAME...
       ssidx script [--delegates N] [--mode lanes|batch] [--ring N] [--trace] NAME
       ssidx replay [--delegates N] [--order] SCRIPT SCHEDULE
       ssidx gen [--delegates N] [--mode lanes|batch] [--ring N] DOCS WORDS SEED
";

const MEMORY: &[u8] = b"ssidx: out of memory\n";

// Writes the parts of a text one after the other.
fn write_parts<E: Sink>(err: &mut E, parts: &[&[u8]]) -> Result<(), Failed>
    ensures cause { HasCause (E.faults err.old) (E.faults err.new) result }
    ensures gained { GainsAll (E.gained err.old) (E.gained err.new) result
        (flat_map (λ part. part.now) parts.now) }
{
    for part in parts {
        write_all(err, part)?;
    }
    Ok(())
}

// Writes a text in parts.
fn tell<E: Sink>(err: &mut E, parts: &[&[u8]])
    ensures { Tells (E.gained err.old) (E.gained err.new) (E.faults err.old) (E.faults err.new)
        (flat_map (λ part. part.now) parts.now) }
{
    // A stream that fails can't be told so, and no status depends on it.
    let _ = write_parts(err, parts);
}

/// Writes the usage text, or a front part of it where the stream fails. It takes no memory.
#[tactic(auto, unfolding(crate::specs::Texts::usage_text))]
pub fn tell_usage<E: Sink>(err: &mut E)
    ensures { Tells (E.gained err.old) (E.gained err.new) (E.faults err.old) (E.faults err.new)
        usage_text }
{
    tell(err, &[USAGE]);
}

/// Writes that there was no memory, or a front part of that where the stream fails. It takes none.
#[tactic(auto, unfolding(crate::specs::Texts::memory_text))]
pub fn tell_memory<E: Sink>(err: &mut E)
    ensures { Tells (E.gained err.old) (E.gained err.new) (E.faults err.old) (E.faults err.new)
        memory_text }
{
    tell(err, &[MEMORY]);
}

// The name with this number, counted from 1.
fn name_at(names: &Texts, number: u32) -> Option<&str>
    ensures { option_copied result
        ≡ name_of (documents_from 1 names.now) (Which.Name number) }
{
    let place = (number as usize).checked_sub(1)?;
    Some(names.as_slice().get(place)?.as_str())
}

// The name of an input of `index`, as it was given.
fn index_name<'a>(stop: &'a Option<Text>, names: &'a Texts, which: Which) -> Option<&'a str>
    ensures { option_copied result
        ≡ name_of (index_inputs stop.now names.now) which }
{
    match which {
        Which::Stop => Some(stop.as_ref()?.as_str()),
        Which::Name(number) => name_at(names, number),
        Which::Script => None,
        Which::Schedule => None,
    }
}

// The name of an input, as it was given, where the command has that input.
fn given_name(command: &Command, which: Which) -> Option<&str>
    ensures { option_copied result ≡ name_of (inputs_of command.now) which }
{
    match command {
        Command::Index { stop, names, .. } => index_name(stop, names, which),
        Command::Script { name, .. } => match which {
            Which::Script => Some(name.as_str()),
            Which::Stop => None,
            Which::Name(_) => None,
            Which::Schedule => None,
        },
        Command::Replay {
            script,
            schedule,
            ..
        } => match which {
            Which::Script => Some(script.as_str()),
            Which::Schedule => Some(schedule.as_str()),
            Which::Stop => None,
            Which::Name(_) => None,
        },
        Command::Gen { .. } => None,
    }
}

// Writes which input couldn't be read.
fn tell_read_fault<E: Sink>(err: &mut E, name: &str)
    ensures { Tells (E.gained err.old) (E.gained err.new) (E.faults err.old) (E.faults err.new)
        (read_fault_text name.now) }
{
    tell(err, &[b"ssidx: cannot read ", name.as_bytes(), b"\n"]);
}

// Writes which document is too long. A generated one has no name.
fn tell_document<E: Sink>(err: &mut E, document: u32, name: Option<&str>)
    ensures { Tells (E.gained err.old) (E.gained err.new) (E.faults err.old) (E.faults err.new)
        (document_limit_text document (option_copied name.entry)) }
{
    match name {
        Some(name) => tell_named_document(err, document, name),
        None => tell_number(
            err,
            b"ssidx: limit: document ",
            u64::from(document),
            b" is over 8388608 bytes\n",
        ),
    }
}

// Writes which document under this name is too long.
fn tell_named_document<E: Sink>(err: &mut E, document: u32, name: &str)
    ensures { Tells (E.gained err.old) (E.gained err.new) (E.faults err.old) (E.faults err.new)
        (document_limit_text document (Some name.now)) }
{
    let mut buffer = Buffer::new();
    let number = buffer.format(document).as_bytes();
    tell(
        err,
        &[
            b"ssidx: limit: document ",
            number,
            b" is over 8388608 bytes: ",
            name.as_bytes(),
            b"\n",
        ],
    );
}

// Writes a text with a number in it.
fn tell_number<E: Sink>(err: &mut E, before: &[u8], number: u64, after: &[u8])
    ensures { Tells (E.gained err.old) (E.gained err.new) (E.faults err.old) (E.faults err.new)
        (before.now ++ decimal number ++ after.now) }
{
    let mut buffer = Buffer::new();
    let number = buffer.format(number).as_bytes();
    tell(err, &[before, number, after]);
}

// Writes which limit was passed.
fn tell_limit<E: Sink>(err: &mut E, command: &Command, hit: LimitHit)
    ensures { Tells (E.gained err.old) (E.gained err.new) (E.faults err.old) (E.faults err.new)
        (limit_text (Some command.now) hit) }
{
    match hit {
        LimitHit::Names(n) => tell_number(err, b"ssidx: limit: ", n, b" names are over 65536\n"),
        LimitHit::Document(i) => tell_document(err, i, given_name(command, Which::Name(i))),
        LimitHit::AllDocuments(i) => tell_number(
            err,
            b"ssidx: limit: documents to ",
            u64::from(i),
            b" are over 67108864 bytes\n",
        ),
        LimitHit::StopBytes => tell(err, &[b"ssidx: limit: stop list is over 8388608 bytes\n"]),
        LimitHit::ScriptBytes => tell(err, &[b"ssidx: limit: script is over 1048576 bytes\n"]),
        LimitHit::ScriptLines => tell(err, &[b"ssidx: limit: script is over 65536 lines\n"]),
        LimitHit::ScheduleBytes => tell(err, &[b"ssidx: limit: schedule is over 1048576 bytes\n"]),
    }
}

// Writes what there is to say of a line.
fn tell_line<E: Sink>(err: &mut E, line: u32, what: &[u8])
    ensures { Tells (E.gained err.old) (E.gained err.new) (E.faults err.old) (E.faults err.new)
        (line_text line what.now) }
{
    let mut buffer = Buffer::new();
    let number = buffer.format(line).as_bytes();
    tell(err, &[b"ssidx: line ", number, b": ", what, b"\n"]);
}

// What is wrong with a line.
#[tactic(auto, unfolding(crate::specs::Texts::kind_text))]
fn kind_text(kind: ScriptKind) -> &'static [u8]
    ensures { result.now ≡ kind_text kind }
{
    match kind {
        ScriptKind::UnknownCommand => b"unknown command",
        ScriptKind::BadShape => b"wrong words for this command",
        ScriptKind::BadName => b"bad name",
        ScriptKind::NameTaken => b"name is taken",
        ScriptKind::NameUnknown => b"unknown name",
        ScriptKind::BadNumber => b"bad number",
    }
}

// Writes what is wrong with an input's text.
fn tell_fault<E: Sink>(err: &mut E, fault: TextFault)
    ensures { Tells (E.gained err.old) (E.gained err.new) (E.faults err.old) (E.faults err.new)
        (fault_text fault) }
{
    match fault {
        TextFault::Script(fault) => tell_line(err, fault.line, kind_text(fault.kind)),
        TextFault::Schedule { word } => tell_number(
            err,
            b"ssidx: schedule word ",
            u64::from(word),
            b": not p or a lane\n",
        ),
    }
}

// The name of an object of a script, and no bytes without one.
fn object_name(script: &Option<Script>, object: ObjectId) -> &str
    ensures { result.now ≡ object_name (script_names script.now) object }
{
    match script {
        Some(script) => script.name(object).unwrap_or(""),
        None => "",
    }
}

// Writes what there is to say of an object.
fn tell_object<E: Sink>(err: &mut E, line: u32, name: &str, what: &[u8])
    ensures { Tells (E.gained err.old) (E.gained err.new) (E.faults err.old) (E.faults err.new)
        (line_text line (object_text name.now what.now)) }
{
    let mut buffer = Buffer::new();
    let number = buffer.format(line).as_bytes();
    tell(
        err,
        &[
            b"ssidx: line ",
            number,
            b": ",
            b"object ",
            name.as_bytes(),
            what,
            b"\n",
        ],
    );
}

// Writes that an object is in a set, and not in another.
fn tell_two_sets<E: Sink>(err: &mut E, line: u32, name: &str, first: SetId, second: SetId)
    ensures { Tells (E.gained err.old) (E.gained err.new) (E.faults err.old) (E.faults err.new)
        (line_text line (two_sets_text name.now first.0 second.0)) }
{
    let mut buffer = Buffer::new();
    let number = buffer.format(line).as_bytes();
    let mut first_buffer = Buffer::new();
    let first_set = first_buffer.format(first.0).as_bytes();
    let mut second_buffer = Buffer::new();
    let second_set = second_buffer.format(second.0).as_bytes();
    tell(
        err,
        &[
            b"ssidx: line ",
            number,
            b": ",
            b"object ",
            name.as_bytes(),
            b" is in set ",
            first_set,
            b", not in set ",
            second_set,
            b"\n",
        ],
    );
}

// Writes that an object is private to a set.
fn tell_private<E: Sink>(err: &mut E, line: u32, name: &str, set: SetId)
    ensures { Tells (E.gained err.old) (E.gained err.new) (E.faults err.old) (E.faults err.new)
        (line_text line (private_text name.now set.0)) }
{
    let mut buffer = Buffer::new();
    let number = buffer.format(line).as_bytes();
    let mut set_buffer = Buffer::new();
    let set = set_buffer.format(set.0).as_bytes();
    tell(
        err,
        &[
            b"ssidx: line ",
            number,
            b": ",
            b"object ",
            name.as_bytes(),
            b" is private to set ",
            set,
            b"\n",
        ],
    );
}

// Writes why a call on a line is refused. A script can't have the last three refusals.
#[tactic(auto, unfolding(crate::specs::Texts::refusal_text))]
fn tell_refusal<E: Sink>(err: &mut E, script: &Option<Script>, line: u32, refusal: Refusal)
    ensures { Tells (E.gained err.old) (E.gained err.new) (E.faults err.old) (E.faults err.new)
        (line_text line (refusal_text (script_names script.now) refusal)) }
{
    match refusal {
        Refusal::NotIsolating => tell_line(err, line, b"no epoch of isolation is open"),
        Refusal::Isolating => tell_line(err, line, b"an epoch of isolation is open"),
        Refusal::ReadOnly(object) => {
            tell_object(err, line, object_name(script, object), b" is read-only");
        }
        Refusal::TwoSets {
            object,
            first,
            second,
        } => tell_two_sets(err, line, object_name(script, object), first, second),
        Refusal::Shared(object) => {
            tell_object(err, line, object_name(script, object), b" is read-shared");
        }
        Refusal::SelfRead(object) => {
            tell_object(err, line, object_name(script, object), b" reads itself");
        }
        Refusal::Private { object, set } => {
            tell_private(err, line, object_name(script, object), set);
        }
        Refusal::UnknownObject(_) => tell_line(err, line, b"no object has this number"),
        Refusal::TooManyObjects => tell_line(err, line, b"too many objects"),
        Refusal::TooManyCalls => tell_line(err, line, b"too many calls"),
    }
}

/// Writes what there is to say of how a command ended.
pub(crate) fn tell_status<E: Sink>(err: &mut E, command: &Command, ended: &Ended)
    ensures { Tells (E.gained err.old) (E.gained err.new) (E.faults err.old) (E.faults err.new)
        (status_text (Some command.now) (script_names ended.now.script) ended.now.status) }
{
    match ended.status {
        Status::Done => {}
        Status::Usage => tell_usage(err),
        Status::ReadFault(which) => {
            tell_read_fault(err, given_name(command, which).unwrap_or(""));
        }
        Status::WriteFault => tell(err, &[b"ssidx: cannot write\n"]),
        Status::OutOfMemory => tell_memory(err),
        Status::Limit(hit) => tell_limit(err, command, hit),
        Status::Refused { line, refusal } => tell_refusal(err, &ended.script, line, refusal),
        Status::Text(fault) => tell_fault(err, fault),
    }
}
