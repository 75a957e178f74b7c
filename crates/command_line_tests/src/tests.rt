// Lines of words, and the command that each is.
use command_line::{Command, WordsFault, command_of};
use std::alloc::Global;
use std::test::Fail;

// A command as one line: its name, how it is run, its stop list, and its other words.
fn told(alloc: Global, command: &Command) -> Result<String, Fail> {
    match command {
        Command::Index {
            delegates,
            mode,
            ring,
            stop,
            names,
        } => {
            let mut text = format!(in alloc; "index {delegates} {mode:?} {ring}")?;
            if let Some(stop) = stop {
                text.push_str(" without ")?;
                text.push_str(stop.as_str())?;
            }
            for name in names.as_slice() {
                text.push_str(" ")?;
                text.push_str(name.as_str())?;
            }
            Ok(text)
        }
        Command::Script {
            delegates,
            mode,
            ring,
            trace,
            name,
        } => {
            let run = format!(in alloc; "{delegates} {mode:?} {ring}")?;
            let shown = if *trace { " with its trace" } else { "" };
            let name = name.as_str();
            Ok(format!(in alloc; "script {run}{shown} {name}")?)
        }
        Command::Replay {
            delegates,
            order,
            script,
            schedule,
        } => {
            let shown = if *order { " with its order" } else { "" };
            let script = script.as_str();
            let schedule = schedule.as_str();
            Ok(format!(in alloc; "replay {delegates}{shown} {script} {schedule}")?)
        }
        Command::Gen {
            delegates,
            mode,
            ring,
            docs,
            words,
            seed,
        } => {
            let run = format!(in alloc; "{delegates} {mode:?} {ring}")?;
            Ok(format!(in alloc; "gen {run} {docs} {words} {seed}")?)
        }
    }
}

fn words_of(alloc: Global, words: &[&str]) -> Result<Vec<String>, Fail> {
    let mut list = Vec::new(alloc);
    for word in words {
        list.push(String::from_str(alloc, word)?)?;
    }
    Ok(list)
}

// What a line is: its command as one line, or the text of its error.
fn answered(alloc: Global, line: &[&str]) -> Result<String, Fail> {
    let words = words_of(alloc, line)?;
    match command_of(alloc, &words) {
        Ok(command) => told(alloc, &command),
        Err(fault) => Ok(format!(in alloc; "{fault}")?),
    }
}

const COMMANDS: [(&[&str], &str); 67] = [
    (&["index", "a"], "index 4 Lanes 256 a"),
    (&["index", "-"], "index 4 Lanes 256 -"),
    (&["index", "a", "b", "a"], "index 4 Lanes 256 a b a"),
    (&["index", "index"], "index 4 Lanes 256 index"),
    (&["index", "=", "a=b"], "index 4 Lanes 256 = a=b"),
    // Behind `--` all words are names.
    (&["index", "--", "-x"], "index 4 Lanes 256 -x"),
    (&["index", "--", "--"], "index 4 Lanes 256 --"),
    (&["index", "--", "-"], "index 4 Lanes 256 -"),
    (
        &["index", "--", "--stop", "s"],
        "index 4 Lanes 256 --stop s",
    ),
    (&["index", "--", "--ring=0"], "index 4 Lanes 256 --ring=0"),
    (&["index", "a", "--", "-x", "b"], "index 4 Lanes 256 a -x b"),
    // The stop list, in each place and in both forms.
    (
        &["index", "--stop", "s", "a"],
        "index 4 Lanes 256 without s a",
    ),
    (
        &["index", "a", "--stop", "s"],
        "index 4 Lanes 256 without s a",
    ),
    (
        &["index", "a", "--stop", "s", "b"],
        "index 4 Lanes 256 without s a b",
    ),
    (&["index", "--stop=s", "a"], "index 4 Lanes 256 without s a"),
    (
        &["index", "a", "--stop=s", "--", "b"],
        "index 4 Lanes 256 without s a b",
    ),
    (
        &["index", "--stop", "-", "a"],
        "index 4 Lanes 256 without - a",
    ),
    (&["index", "--stop=-", "a"], "index 4 Lanes 256 without - a"),
    (
        &["index", "--stop=-x", "a"],
        "index 4 Lanes 256 without -x a",
    ),
    (
        &["index", "--stop=--", "a"],
        "index 4 Lanes 256 without -- a",
    ),
    (&["index", "--stop==", "a"], "index 4 Lanes 256 without = a"),
    (
        &["index", "--stop=a=b", "c"],
        "index 4 Lanes 256 without a=b c",
    ),
    // Delegates, modes and rings at their limits.
    (&["index", "--delegates", "0", "a"], "index 0 Lanes 256 a"),
    (&["index", "--delegates=0", "a"], "index 0 Lanes 256 a"),
    (&["index", "a", "--delegates", "64"], "index 64 Lanes 256 a"),
    (&["index", "--delegates=64", "a"], "index 64 Lanes 256 a"),
    (
        &["index", "--delegates", "0000000064", "a"],
        "index 64 Lanes 256 a",
    ),
    (&["index", "--mode", "lanes", "a"], "index 4 Lanes 256 a"),
    (&["index", "--mode", "batch", "a"], "index 4 Batch 256 a"),
    (&["index", "a", "--mode=batch"], "index 4 Batch 256 a"),
    (&["index", "--ring", "1", "a"], "index 4 Lanes 1 a"),
    (&["index", "--ring=1", "a"], "index 4 Lanes 1 a"),
    (&["index", "a", "--ring", "4096"], "index 4 Lanes 4096 a"),
    (&["index", "--ring=4096", "a"], "index 4 Lanes 4096 a"),
    (
        &["index", "--ring=1", "--delegates", "2", "--", "-x"],
        "index 2 Lanes 1 -x",
    ),
    (
        &[
            "index",
            "--delegates",
            "1",
            "--mode",
            "batch",
            "--ring",
            "2",
            "--stop",
            "s",
            "a",
        ],
        "index 1 Batch 2 without s a",
    ),
    (
        &[
            "index",
            "a",
            "--stop=s",
            "b",
            "--ring=2",
            "c",
            "--mode=batch",
            "--delegates=1",
        ],
        "index 1 Batch 2 without s a b c",
    ),
    (&["script", "s"], "script 4 Lanes 256 s"),
    (&["script", "-"], "script 4 Lanes 256 -"),
    (&["script", "--", "-s"], "script 4 Lanes 256 -s"),
    (&["script", "--delegates", "1", "s"], "script 1 Lanes 256 s"),
    (
        &["script", "s", "--mode=batch", "--ring", "4096"],
        "script 4 Batch 4096 s",
    ),
    // A trace, in each place, and behind `--` a name.
    (
        &["script", "--trace", "s"],
        "script 4 Lanes 256 with its trace s",
    ),
    (
        &["script", "s", "--trace"],
        "script 4 Lanes 256 with its trace s",
    ),
    (
        &["script", "--trace", "-"],
        "script 4 Lanes 256 with its trace -",
    ),
    (
        &["script", "--trace", "--", "--trace"],
        "script 4 Lanes 256 with its trace --trace",
    ),
    (&["script", "--", "--trace"], "script 4 Lanes 256 --trace"),
    (
        &[
            "script",
            "--ring=1",
            "--trace",
            "s",
            "--mode",
            "batch",
            "--delegates=0",
        ],
        "script 0 Batch 1 with its trace s",
    ),
    // A replay, with its delegates at their limits.
    (&["replay", "s", "p"], "replay 4 s p"),
    (&["replay", "-", "p"], "replay 4 - p"),
    (&["replay", "s", "-"], "replay 4 s -"),
    (&["replay", "-", "-"], "replay 4 - -"),
    (&["replay", "s", "s"], "replay 4 s s"),
    (&["replay", "--", "-s", "--order"], "replay 4 -s --order"),
    (&["replay", "--delegates", "1", "s", "p"], "replay 1 s p"),
    (&["replay", "s", "--delegates=64", "p"], "replay 64 s p"),
    (
        &["replay", "s", "p", "--delegates", "0000000001"],
        "replay 1 s p",
    ),
    (
        &["replay", "--order", "s", "p"],
        "replay 4 with its order s p",
    ),
    (
        &["replay", "s", "--order", "p"],
        "replay 4 with its order s p",
    ),
    (
        &["replay", "s", "p", "--order"],
        "replay 4 with its order s p",
    ),
    (
        &["replay", "s", "--order", "--delegates", "2", "--", "-p"],
        "replay 2 with its order s -p",
    ),
    (&["gen", "1", "3", "0"], "gen 4 Lanes 256 1 3 0"),
    (
        &["gen", "4294967295", "4294967295", "2147483647"],
        "gen 4 Lanes 256 4294967295 4294967295 2147483647",
    ),
    (
        &["gen", "0000000001", "0000000000", "0000000000"],
        "gen 4 Lanes 256 1 0 0",
    ),
    (
        &["gen", "1", "--delegates", "2", "3", "--ring=1", "0"],
        "gen 2 Lanes 1 1 3 0",
    ),
    (&["gen", "--", "1", "3", "0"], "gen 4 Lanes 256 1 3 0"),
    (
        &["gen", "--mode", "batch", "--", "1", "3", "0"],
        "gen 4 Batch 256 1 3 0",
    ),
];

#[test]
fn options_and_other_words_stand_in_any_order(rt: HostRuntime) -> Result<(), Fail> {
    let alloc = rt.alloc();
    for (line, wanted) in &COMMANDS {
        let answer = answered(alloc, *line)?;
        assert_eq!(rt; answer.as_str(), *wanted);
    }
    Ok(())
}

const NO_COMMAND: [&[&str]; 9] = [
    &[],
    &[""],
    &["help"],
    &["--help"],
    &["-h"],
    &["--version"],
    &["Index", "a"],
    &["--", "index", "a"],
    &["--delegates", "1", "index", "a"],
];

#[test]
fn what_names_no_command_is_usage(rt: HostRuntime) -> Result<(), Fail> {
    let alloc = rt.alloc();
    for line in &NO_COMMAND {
        let answer = answered(alloc, *line)?;
        assert_eq!(rt; answer.as_str(), "the words are no command");
    }
    Ok(())
}

const NO_INDEX: [&[&str]; 68] = [
    &["index"],
    &["index", "--help"],
    &["index", "-h", "a"],
    &["index", "a", "--version"],
    // Empty words, words that begin with `-`, and what isn't an option of this command.
    &["index", ""],
    &["index", "a", ""],
    &["index", "--"],
    &["index", "--", ""],
    &["index", "--", "a", ""],
    &["index", "-x"],
    &["index", "a", "-x"],
    &["index", "---", "a"],
    &["index", "--=a", "a"],
    &["index", "--trace", "a"],
    &["index", "--order", "a"],
    &["index", "--delegate", "1", "a"],
    &["index", "--Delegates", "1", "a"],
    &["index", "-delegates", "1", "a"],
    &["index", "--delegates 1", "a"],
    &["index", "--delegates:1", "a"],
    // Each option without a value, with a value that is none, and twice.
    &["index", "--delegates"],
    &["index", "a", "--delegates"],
    &["index", "--delegates", "1"],
    &["index", "--delegates", "", "a"],
    &["index", "--delegates=", "a"],
    &["index", "--delegates", "65", "a"],
    &["index", "--delegates=65", "a"],
    &["index", "--delegates", "-1", "a"],
    &["index", "--delegates=-1", "a"],
    &["index", "--delegates", "+1", "a"],
    &["index", "--delegates", "-", "a"],
    &["index", "--delegates", "--", "a"],
    &["index", "--delegates", "x", "a"],
    &["index", "--delegates", "00000000001", "a"],
    &["index", "--delegates", "4294967296", "a"],
    &["index", "--delegates", "1", "--delegates", "1", "a"],
    &["index", "--delegates=1", "a", "--delegates", "2"],
    &["index", "--mode"],
    &["index", "a", "--mode"],
    &["index", "--mode", "a"],
    &["index", "--mode", "", "a"],
    &["index", "--mode=", "a"],
    &["index", "--mode", "Lanes", "a"],
    &["index", "--mode=plain", "a"],
    &["index", "--mode=lanes=", "a"],
    &["index", "--mode", "-batch", "a"],
    &["index", "--mode", "lanes", "--mode", "lanes", "a"],
    &["index", "--mode=batch", "a", "--mode=lanes"],
    &["index", "--ring"],
    &["index", "a", "--ring"],
    &["index", "--ring", "0", "-"],
    &["index", "--ring=0", "-"],
    &["index", "--ring", "4097", "a"],
    &["index", "--ring=4097", "a"],
    &["index", "--ring=", "a"],
    &["index", "--ring", "-", "a"],
    &["index", "--ring", "1", "--ring", "1", "-"],
    &["index", "--ring=1", "a", "--ring=2"],
    &["index", "--stop"],
    &["index", "a", "--stop"],
    &["index", "--stop", "s"],
    &["index", "--stop", "", "a"],
    &["index", "--stop=", "a"],
    &["index", "--stop", "-s", "a"],
    &["index", "--stop", "--", "a"],
    &["index", "--stop", "--ring=1", "a"],
    &["index", "--stop", "s", "--stop", "s", "a"],
    &["index", "--stop=s", "a", "--stop", "t"],
];

#[test]
fn what_is_no_index_is_usage(rt: HostRuntime) -> Result<(), Fail> {
    let alloc = rt.alloc();
    for line in &NO_INDEX {
        let answer = answered(alloc, *line)?;
        assert_eq!(rt; answer.as_str(), "the words are no command");
    }
    Ok(())
}

const NO_SCRIPT: [&[&str]; 21] = [
    &["script"],
    &["script", ""],
    &["script", "-s"],
    &["script", "a", "b"],
    &["script", "--", "a", "b"],
    &["script", "--help"],
    &["script", "--stop", "t", "s"],
    &["script", "--stop=t", "s"],
    &["script", "--ring", "0", "s"],
    &["script", "--delegates", "65", "s"],
    // A trace without a script, with a value, twice, and misspelt.
    &["script", "--trace"],
    &["script", "--trace=", "s"],
    &["script", "--trace=1", "s"],
    &["script", "--trace=s"],
    &["script", "--trace", "s", "t"],
    &["script", "--trace", "--trace", "s"],
    &["script", "--trace", "s", "--trace"],
    &["script", "--Trace", "s"],
    &["script", "-trace", "s"],
    &["script", "--traces", "s"],
    &["script", "--order", "s"],
];

#[test]
fn what_is_no_script_is_usage(rt: HostRuntime) -> Result<(), Fail> {
    let alloc = rt.alloc();
    for line in &NO_SCRIPT {
        let answer = answered(alloc, *line)?;
        assert_eq!(rt; answer.as_str(), "the words are no command");
    }
    Ok(())
}

const NO_REPLAY: [&[&str]; 27] = [
    // A replay of too few names or too many, and what isn't an option of it.
    &["replay"],
    &["replay", "s"],
    &["replay", "s", "p", "q"],
    &["replay", "--order"],
    &["replay", "--order", "s"],
    &["replay", "s", ""],
    &["replay", "", "p"],
    &["replay", "--", "s"],
    &["replay", "--", "s", ""],
    &["replay", "-s", "p"],
    &["replay", "--help"],
    &["replay", "--trace", "s", "p"],
    &["replay", "--mode", "lanes", "s", "p"],
    &["replay", "--mode=batch", "s", "p"],
    &["replay", "--ring", "1", "s", "p"],
    &["replay", "--ring=256", "s", "p"],
    &["replay", "--stop", "t", "s", "p"],
    &["replay", "--stop=t", "s", "p"],
    // Delegates of a replay out of their bounds, and an order with a value, and twice.
    &["replay", "--delegates", "0", "s", "p"],
    &["replay", "--delegates=0", "s", "p"],
    &["replay", "--delegates", "65", "s", "p"],
    &["replay", "--delegates=", "s", "p"],
    &["replay", "s", "p", "--delegates"],
    &["replay", "--delegates", "1", "--delegates", "1", "s", "p"],
    &["replay", "--order=", "s", "p"],
    &["replay", "--order=1", "s", "p"],
    &["replay", "--order", "s", "--order", "p"],
];

#[test]
fn what_is_no_replay_is_usage(rt: HostRuntime) -> Result<(), Fail> {
    let alloc = rt.alloc();
    for line in &NO_REPLAY {
        let answer = answered(alloc, *line)?;
        assert_eq!(rt; answer.as_str(), "the words are no command");
    }
    Ok(())
}

const NO_GEN: [&[&str]; 13] = [
    &["gen", "1", "1"],
    &["gen", "1", "1", "1", "1"],
    &["gen", "0", "1", "1"],
    &["gen", "4294967296", "1", "1"],
    &["gen", "1", "4294967296", "1"],
    &["gen", "1", "1", "2147483648"],
    &["gen", "1", "1", "00000000001"],
    &["gen", "1", "+1", "1"],
    &["gen", "1", "", "1"],
    &["gen", "--", "1", "-1", "1"],
    &["gen", "--stop", "s", "1", "1", "1"],
    &["gen", "--trace", "1", "1", "1"],
    &["gen", "--order", "1", "1", "1"],
];

#[test]
fn what_is_no_gen_is_usage(rt: HostRuntime) -> Result<(), Fail> {
    let alloc = rt.alloc();
    for line in &NO_GEN {
        let answer = answered(alloc, *line)?;
        assert_eq!(rt; answer.as_str(), "the words are no command");
    }
    Ok(())
}

#[test]
fn an_error_says_what_is_wrong(rt: HostRuntime) -> Result<(), Fail> {
    let alloc = rt.alloc();
    for (fault, text) in [
        (WordsFault::Usage, "the words are no command"),
        (WordsFault::OutOfMemory, "out of memory"),
    ] {
        let told = format!(in alloc; "{fault}")?;
        assert_eq!(rt; told.as_str(), text);
    }
    Ok(())
}
