// What no clause says: that scripts are read where there is memory, and that the definitions mean
// what they are meant to, by examples worked out by hand.
ghost use Rattle.std.specs.Prelude.{◌≡◌};

use crate::{
    Act, Deed, ParseFault, ScheduleStop, Script, ScriptFault, ScriptKind, Shown, Word32, parse,
    parse_schedule, run_script, shown_by,
};
use class_laws::{Class, Reducible, WrapSum, no_reading};
use delegation::{Call, Plain, run_calls};
use execution_definitions::Refusal;
use ss_base::{Event, Lane, ObjectId, OutOfMemory, SetId, limits};
use std::alloc::Global;
use std::sync::Wait;
use std::test::Fail;
use std::thread::Threads;

// The script of bytes that are few enough.
fn parsed(alloc: Global, bytes: &[u8]) -> Result<Script, ParseFault> {
    if bytes.len() > limits::SCRIPT_BYTES {
        return Err(ParseFault::OutOfMemory);
    }
    parse(alloc, bytes)
}

// A call as a line of text: `-` stands where nothing is read.
fn push_call(text: &mut String, call: &Call<Word32>) -> Result<(), OutOfMemory> {
    match call {
        Call::Make { value, by } => {
            let value = value.0;
            writeln!(text, "make {value} {by:?}")?;
        }
        Call::MakeFixed { value } => {
            let value = value.0;
            writeln!(text, "make_fixed {value}")?;
        }
        Call::Begin => writeln!(text, "begin")?,
        Call::Delegate {
            object,
            op,
            reading,
        } => {
            let object = object.0;
            let act = op.act;
            let set = op.set;
            match reading {
                Some(read) => {
                    let read = read.0;
                    writeln!(text, "delegate {object} {act:?} {set} {read}")?;
                }
                None => writeln!(text, "delegate {object} {act:?} {set} -")?,
            }
        }
        Call::Write { object, op } => {
            let object = object.0;
            let act = op.act;
            let set = op.set;
            writeln!(text, "write {object} {act:?} {set}")?;
        }
        Call::Get { object } => {
            let object = object.0;
            writeln!(text, "get {object}")?;
        }
        Call::End => writeln!(text, "end")?,
        Call::Total => writeln!(text, "total")?,
    }
    Ok(())
}

// The calls of a script, one on each line.
fn told(alloc: Global, script: &Script) -> Result<String, OutOfMemory> {
    let mut text = String::new(alloc);
    for call in &script.calls(alloc)? {
        push_call(&mut text, call)?;
    }
    Ok(text)
}

// Scripts and their calls.
const SCRIPTS: [(&str, &str); 12] = [
    ("", ""),
    (
        "object x 1\nobject y 2 object\nobject z 3 sequence\nobject w 4 own\nfixed f 5\nisolate\n\
         do x add 6\ndo y mul 7 in 8\ndo z set 9 in 10\ndo w give\ndo w give in 11\nmix x f\n\
         mix w f in 12\njoin\nwrite x add 13\nwrite f give\nshow x\ntotal\n",
        "make 1 Object\nmake 2 Object\nmake 3 Sequence\nmake 4 Own\nmake_fixed 5\nbegin\n\
         delegate 0 Add(6) 0 -\ndelegate 1 Mul(7) 8 -\ndelegate 2 Set(9) 10 -\n\
         delegate 3 Give 0 -\ndelegate 3 Give 11 -\ndelegate 0 Mix 0 4\ndelegate 3 Mix 12 4\n\
         end\nwrite 0 Add(13) 0\nwrite 4 Give 0\nget 0\ntotal\n",
    ),
    ("total", "total\n"),
    ("\n# jump\n#jump\n \t\r\n\ttotal \r\n  #", "total\n"),
    ("isolate", "begin\nend\n"),
    ("isolate\njoin", "begin\nend\n"),
    ("isolate\njoin\nisolate\n", "begin\nend\nbegin\nend\n"),
    ("isolate\nisolate\ntotal", "begin\nbegin\ntotal\nend\n"),
    ("join", "end\n"),
    (
        "object abcdefghijklmnopqrstuvwxyz_01234 4294967295",
        "make 4294967295 Object\n",
    ),
    ("fixed A 0000000007", "make_fixed 7\n"),
    (
        "fixed x 0\ndo x give in 18446744073709551615\ndo x give in 00000000000000000001",
        "make_fixed 0\ndelegate 0 Give 18446744073709551615 -\ndelegate 0 Give 1 -\n",
    ),
];

#[test]
fn scripts_stand_for_calls(rt: HostRuntime) -> Result<(), Fail> {
    let alloc = rt.alloc();
    for (text, calls) in &SCRIPTS {
        let script = parsed(alloc, text.as_bytes())?;
        let told = told(alloc, &script)?;
        assert_eq!(rt; told.as_str(), *calls, "at {text}");
    }
    Ok(())
}

// Texts, with the line in them that is wrong and what is wrong with it.
const FAULTS: [(&str, u32, ScriptKind); 31] = [
    ("jump", 1, ScriptKind::UnknownCommand),
    ("Total", 1, ScriptKind::UnknownCommand),
    ("jump a b c d e f g h", 1, ScriptKind::UnknownCommand),
    ("show", 1, ScriptKind::BadShape),
    ("total 1", 1, ScriptKind::BadShape),
    ("isolate # all", 1, ScriptKind::BadShape),
    ("object x", 1, ScriptKind::BadShape),
    ("object 9x y each", 1, ScriptKind::BadShape),
    ("object x 1\nobject y 1 own 2", 2, ScriptKind::BadShape),
    ("do x add 1 in", 1, ScriptKind::BadShape),
    ("do x give in", 1, ScriptKind::BadShape),
    ("do x give 1", 1, ScriptKind::BadShape),
    ("do x add 1 in 2 3", 1, ScriptKind::BadShape),
    ("mix x", 1, ScriptKind::BadShape),
    ("write x add 1 in 2", 1, ScriptKind::BadShape),
    ("object 9x 1", 1, ScriptKind::BadName),
    ("object _x y", 1, ScriptKind::BadName),
    ("fixed x-y 1", 1, ScriptKind::BadName),
    (
        "fixed abcdefghijklmnopqrstuvwxyz_012345 1",
        1,
        ScriptKind::BadName,
    ),
    ("object x 1\nobject x y", 2, ScriptKind::NameTaken),
    ("fixed x 1\nobject x 1", 2, ScriptKind::NameTaken),
    ("show x", 1, ScriptKind::NameUnknown),
    ("do x add in", 1, ScriptKind::NameUnknown),
    ("mix x y", 1, ScriptKind::NameUnknown),
    ("object x 1\nmix x y in z", 2, ScriptKind::NameUnknown),
    ("object x 1\ndo x add in", 2, ScriptKind::BadNumber),
    ("object x 4294967296", 1, ScriptKind::BadNumber),
    ("object x 00000000001", 1, ScriptKind::BadNumber),
    ("object x +1", 1, ScriptKind::BadNumber),
    (
        "object x 1\ndo x give in 18446744073709551616",
        2,
        ScriptKind::BadNumber,
    ),
    (
        "object x 1\ndo x give in 000000000000000000001",
        2,
        ScriptKind::BadNumber,
    ),
];

#[test]
fn the_first_bad_line_is_told_wherever_it_stands(rt: HostRuntime) -> Result<(), Fail> {
    let alloc = rt.alloc();
    // Lines before and lines behind. The last is wrong too, and isn't told.
    for (before, skipped, behind) in [
        ("", 0u32, ""),
        ("", 0, "\n"),
        ("", 0, "\r\n\ntotal\njump"),
        ("total\n\n# jump\n", 3, "\njump\n"),
        ("total\r\ntotal\n", 2, ""),
    ] {
        for (text, line, kind) in &FAULTS {
            let whole = format!(in alloc; "{before}{text}{behind}")?;
            let fault = ParseFault::Text(ScriptFault {
                line: line.saturating_add(skipped),
                kind: *kind,
            });
            assert_eq!(rt;
                parsed(alloc, whole.as_bytes()).err(),
                Some(fault),
                "at {whole}"
            );
        }
    }
    Ok(())
}

// Each kind of fault, with its text.
const KINDS: [(ScriptKind, &str); 6] = [
    (ScriptKind::UnknownCommand, "unknown command"),
    (ScriptKind::BadShape, "wrong words for this command"),
    (ScriptKind::BadName, "bad name"),
    (ScriptKind::NameTaken, "name is taken"),
    (ScriptKind::NameUnknown, "unknown name"),
    (ScriptKind::BadNumber, "bad number"),
];

#[test]
fn faults_tell_the_line_and_what_is_wrong(rt: HostRuntime) -> Result<(), Fail> {
    let alloc = rt.alloc();
    for (kind, text) in &KINDS {
        let fault = ParseFault::Text(ScriptFault {
            line: 7,
            kind: *kind,
        });
        let told = format!(in alloc; "{kind}; {fault}")?;
        let wanted = format!(in alloc; "{text}; line 7: {text}")?;
        assert_eq!(rt; told.as_str(), wanted.as_str());
    }
    let fault = ParseFault::OutOfMemory;
    assert_eq!(rt; format!(in alloc; "{fault}")?.as_str(), "out of memory");
    Ok(())
}

#[test]
fn calls_have_lines_and_objects_names(rt: HostRuntime) -> Result<(), Fail> {
    let alloc = rt.alloc();
    let script = parsed(
        alloc,
        b"\n# two\nobject first 1\n\nfixed Second_2 2\nisolate\n",
    )?;
    let lines = [
        script.line(0),
        script.line(1),
        script.line(2),
        script.line(3),
        script.line(u64::MAX),
    ];
    assert_eq!(rt; lines, [Some(3), Some(5), Some(6), None, None]);
    assert_eq!(rt; script.name(ObjectId(0)), Some("first"));
    assert_eq!(rt; script.name(ObjectId(1)), Some("Second_2"));
    assert_eq!(rt; script.name(ObjectId(2)), None);
    Ok(())
}

// Acts on a value, where the last is read: the value after, and the contribution.
const ACTS: [(Act, u32, u32, u32, u64); 6] = [
    (Act::Add(1), 4294967295, 9, 0, 0),
    (Act::Mul(2), 2147483649, 9, 2, 0),
    (Act::Set(7), 5, 9, 7, 0),
    (Act::Give, 5, 9, 5, 5),
    (Act::Mix, 2, 3, 65, 0),
    (Act::Mix, 138547333, 3, 30, 0),
];

#[test]
fn acts_change_values_and_contribute(rt: HostRuntime) -> Result<(), Fail> {
    let alloc = rt.alloc();
    for (act, value, read, after, gives) in &ACTS {
        let deed = Deed { act: *act, set: 3 };
        let mut word = Word32(*value).copy(alloc)?;
        let mut red = WrapSum::unit(alloc);
        word.apply(alloc, &deed, Some(&Word32(*read)), &mut red)?;
        assert_eq!(rt; word, Word32(*after), "at {act:?}");
        assert_eq!(rt; red, WrapSum(*gives), "at {act:?}");
        assert_eq!(rt; Word32::own_set(&deed), 3);
    }
    let mix = Deed {
        act: Act::Mix,
        set: 0,
    };
    let mut word = Word32(2);
    let mut red = WrapSum(1);
    word.apply(alloc, &mix, no_reading(), &mut red)?;
    assert_eq!(rt; word, Word32(62));
    assert_eq!(rt; red, WrapSum(1));
    Ok(())
}

const TWO_SETS: Refusal = Refusal::TwoSets {
    object: ObjectId(0),
    first: SetId(1),
    second: SetId(2),
};

const PRIVATE: Refusal = Refusal::Private {
    object: ObjectId(1),
    set: SetId(1),
};

// Scripts, with what they show, and the line and the refusal that they stop at.
const SHOWN: [(&str, &str, Option<(u32, Refusal)>); 19] = [
    ("", "", None),
    (
        "object x 5\nisolate\ndo x add 3\ndo x mul 2\njoin\nshow x\n",
        "x 16\n",
        None,
    ),
    (
        "object x 5 own\nisolate\ndo x add 1 in 1\ndo x add 1 in 2\n",
        "",
        Some((4, TWO_SETS)),
    ),
    (
        "object x 2\nobject y 3\nisolate\nmix x y\ndo y add 1\n",
        "",
        Some((5, Refusal::Shared(ObjectId(1)))),
    ),
    (
        "object x 2\nobject y 3\nisolate\nmix x y\njoin\nisolate\ndo y add 1\njoin\n\
         show x\nshow y\n",
        "x 65\ny 4\n",
        None,
    ),
    (
        "object x 2\nobject y 3\nisolate\ndo y add 1\nmix x y\n",
        "",
        Some((5, PRIVATE)),
    ),
    (
        "object x 2\nobject y 3\nisolate\nmix x x\ndo y add 1\n",
        "",
        Some((4, Refusal::SelfRead(ObjectId(0)))),
    ),
    (
        "object x 5\nisolate\ndo x add 1\nshow x\ndo x add 1\njoin\nshow x\n",
        "x 6\nx 7\n",
        None,
    ),
    (
        "object x 2\nobject y 3\nisolate\nmix x y\njoin\nisolate\ndo y set 4\njoin\n\
         isolate\nmix x y\njoin\nshow x\n",
        "x 2019\n",
        None,
    ),
    (
        "object a 1\nobject b 2\nobject c 3\nisolate\ndo a give\ndo b give\nshow a\n\
         do c give\njoin\ntotal\n",
        "a 1\ntotal 6\n",
        None,
    ),
    ("object x 1\njoin\n", "", Some((2, Refusal::NotIsolating))),
    ("isolate\ntotal\n", "", Some((2, Refusal::Isolating))),
    (
        "fixed f 1\nisolate\ndo f give\n",
        "",
        Some((3, Refusal::ReadOnly(ObjectId(0)))),
    ),
    (
        "object x 7\nwrite x mul 3\nshow x\ntotal\n",
        "x 21\ntotal 0\n",
        None,
    ),
    (
        "object x 5\nobject y 6\nisolate\ndo x add 1\ndo y add 1\ndo x mul 2\njoin\nshow x\n",
        "x 12\n",
        None,
    ),
    (
        "object x 5 own\nisolate\ndo x add 1 in 1\nshow x\ndo x mul 2 in 2\nshow x\njoin\n",
        "x 6\nx 12\n",
        None,
    ),
    (
        "object x 2\nobject y 3\nisolate\ndo y add 1\nshow y\nmix x y\njoin\nshow x\n",
        "y 4\nx 66\n",
        None,
    ),
    (
        "object x 2\nobject y 3\nisolate\nmix x y\nshow y\ndo y add 1\n",
        "y 3\n",
        Some((6, Refusal::Shared(ObjectId(1)))),
    ),
    (
        "object x 4294967295\n# one\nisolate\nshow x\n\ntotal\nshow x\n",
        "x 4294967295\n",
        Some((6, Refusal::Isolating)),
    ),
];

// What a script shows on the runtime without delegates.
fn run<R: Threads + Wait + Copy + Send + Sync + 'static>(
    rt: &R,
    alloc: Global,
    text: &str,
) -> Result<Shown, ParseFault> {
    let script = parsed(alloc, text.as_bytes())?;
    let mut plain = Plain::new(alloc)?;
    Ok(run_script(rt, alloc, &mut plain, &script)?)
}

// What it shows with the replies that this runtime gave.
fn run_for_replies<R: Threads + Wait + Copy + Send + Sync + 'static>(
    rt: &R,
    alloc: Global,
    text: &str,
) -> Result<Shown, ParseFault> {
    let script = parsed(alloc, text.as_bytes())?;
    let mut plain = Plain::new(alloc)?;
    let calls = script.calls(alloc)?;
    let ran = run_calls(rt, alloc, &mut plain, calls)?;
    Ok(shown_by(alloc, &script, &ran.replies, ran.stopped)?)
}

#[test]
fn replies_show_values_and_the_stop(rt: HostRuntime) -> Result<(), Fail> {
    for (text, lines, stopped) in &SHOWN {
        let shown = run_for_replies(&rt, rt.alloc(), text)?;
        assert_eq!(rt; shown.text.as_slice(), lines.as_bytes(), "at {text}");
        assert_eq!(rt; shown.stopped, *stopped, "at {text}");
    }
    Ok(())
}

#[test]
fn scripts_show_values_and_stop(rt: HostRuntime) -> Result<(), Fail> {
    for (text, lines, stopped) in &SHOWN {
        let shown = run(&rt, rt.alloc(), text)?;
        assert_eq!(rt; shown.text.as_slice(), lines.as_bytes(), "at {text}");
        assert_eq!(rt; shown.stopped, *stopped, "at {text}");
    }
    Ok(())
}

#[test]
fn a_script_of_65536_lines_is_shown(rt: HostRuntime) -> Result<(), Fail> {
    let alloc = rt.alloc();
    let mut text = String::new(alloc);
    text.push_str("object x 1\nisolate\n")?;
    for _ in 0..65_533u32 {
        text.push_str("do x add 1\n")?;
    }
    text.push_str("show x\n")?;
    let shown = run(&rt, alloc, &text)?;
    assert_eq!(rt; shown.text.as_slice(), b"x 65534\n".as_slice());
    assert_eq!(rt; shown.stopped, None);
    Ok(())
}

// The steps of a schedule of bytes that are few enough.
fn scheduled(alloc: Global, bytes: &[u8]) -> Result<Vec<Event>, ScheduleStop> {
    if bytes.len() > limits::SCHEDULE_BYTES {
        return Err(ScheduleStop::OutOfMemory);
    }
    parse_schedule(alloc, bytes)
}

#[test]
fn schedules_are_read(rt: HostRuntime) -> Result<(), Fail> {
    let alloc = rt.alloc();
    let lane_0 = Event::Delegate(Lane(0));
    let lane_63 = Event::Delegate(Lane(63));
    let steps = scheduled(alloc, b"p 0 \tp\r\n00\n63")?;
    let wanted = [Event::Program, lane_0, Event::Program, lane_0, lane_63];
    assert_eq!(rt; steps.as_slice(), wanted.as_slice());
    assert!(rt; scheduled(alloc, b" \n")?.is_empty());
    Ok(())
}

const BAD_SCHEDULES: [(&str, u32); 5] = [
    ("p 64", 2),
    ("063", 1),
    ("p p\nP p", 3),
    ("pp", 1),
    ("p 1 -1 64", 3),
];

#[test]
fn the_first_bad_word_is_told(rt: HostRuntime) -> Result<(), Fail> {
    for (text, number) in &BAD_SCHEDULES {
        let answer = scheduled(rt.alloc(), text.as_bytes());
        assert_eq!(rt;
            answer.err(),
            Some(ScheduleStop::Word(*number)),
            "at {text}"
        );
    }
    Ok(())
}
