// What no clause says: that memory is found, and what the texts look like.
use crate::{print_index, print_order, print_summary, print_trace, push_term};
use inverted_index::{Index, Term};
use postings::Postings;
use ss_base::{CallNo, LaneLog, ObjectId, Run, SetId, Text};
use std::alloc::{AllocError, Global};
use std::test::Fail;

#[test]
fn a_term_is_escaped(rt: HostRuntime) -> Result<(), Fail> {
    let alloc = rt.alloc();
    let mut text = Vec::new(alloc);
    push_term(alloc, &mut text, "a\\b ")?;
    assert_eq!(rt; text.as_slice(), b"a\\x5cb\\x20".as_slice());
    Ok(())
}

// The index of `b a b` and `a`.
fn index_of_two(alloc: Global) -> Result<Index, Fail> {
    let mut of_a = Postings::new(alloc);
    of_a.append(1, &[2])?;
    of_a.append(2, &[1])?;
    let mut of_b = Postings::new(alloc);
    of_b.append(1, &[1, 3])?;
    let mut terms = Vec::new(alloc);
    terms.push(Term {
        text: Text::of(alloc, "a")?,
        total: 2,
        postings: of_a,
    })?;
    terms.push(Term {
        text: Text::of(alloc, "b")?,
        total: 2,
        postings: of_b,
    })?;
    Ok(Index {
        documents: 2,
        words: 4,
        longest: 1,
        terms,
    })
}

#[test]
fn an_index_is_printed(rt: HostRuntime) -> Result<(), Fail> {
    let alloc = rt.alloc();
    let index = index_of_two(alloc)?;
    let text = print_index(alloc, &index)?;
    let wanted = b"documents 2\nwords 4\nlongest 1\nterms 2\na 2 1:2;2:1\nb 2 1:1,3\n";
    assert_eq!(rt; text.as_slice(), wanted.as_slice());
    Ok(())
}

#[test]
fn an_index_is_summed_up(rt: HostRuntime) -> Result<(), Fail> {
    let alloc = rt.alloc();
    let index = index_of_two(alloc)?;
    let text = print_summary(alloc, &index)?;
    let wanted = b"documents 2\nwords 4\nterms 2\npositions 7\n";
    assert_eq!(rt; text.as_slice(), wanted.as_slice());
    Ok(())
}

// The run of a call on the object whose number is that of the set.
fn run(call: u64, epoch: u64, set: u32) -> Run {
    Run {
        call: CallNo(call),
        epoch,
        set: SetId(u64::from(set)),
        object: ObjectId(set),
    }
}

fn log(alloc: Global, runs: &[Run]) -> Result<LaneLog, AllocError> {
    Ok(LaneLog {
        runs: Vec::from_slice(alloc, runs)?,
    })
}

// Two objects, of which the first is operated on twice, on one lane and on two.
#[test]
fn a_trace_is_the_same_on_any_lanes(rt: HostRuntime) -> Result<(), Fail> {
    let alloc = rt.alloc();
    let wanted = b"epoch 1 set 0: 3 5\nepoch 1 set 1: 4\n".as_slice();
    let one = [log(alloc, &[run(3, 1, 0), run(4, 1, 1), run(5, 1, 0)])?];
    let text = print_trace(alloc, &one)?;
    assert_eq!(rt; text.as_slice(), wanted);
    let two = [
        log(alloc, &[run(3, 1, 0), run(5, 1, 0)])?,
        log(alloc, &[run(4, 1, 1)])?,
    ];
    let text = print_trace(alloc, &two)?;
    assert_eq!(rt; text.as_slice(), wanted);
    Ok(())
}

#[test]
fn epochs_rise_before_sets(rt: HostRuntime) -> Result<(), Fail> {
    let alloc = rt.alloc();
    let logs = [
        log(alloc, &[run(3, 1, 2), run(7, 2, 0)])?,
        log(alloc, &[run(4, 1, 1), run(8, 2, 1)])?,
    ];
    let wanted = b"epoch 1 set 1: 4\nepoch 1 set 2: 3\nepoch 2 set 0: 7\nepoch 2 set 1: 8\n";
    let text = print_trace(alloc, &logs)?;
    assert_eq!(rt; text.as_slice(), wanted.as_slice());
    Ok(())
}

#[test]
fn no_runs_have_no_lines(rt: HostRuntime) -> Result<(), Fail> {
    let alloc = rt.alloc();
    let logs = [log(alloc, &[])?, log(alloc, &[])?];
    assert!(rt; print_trace(alloc, &logs)?.is_empty());
    Ok(())
}

#[test]
fn an_order_is_one_line(rt: HostRuntime) -> Result<(), Fail> {
    let alloc = rt.alloc();
    let order = [
        CallNo(0),
        CallNo(1),
        CallNo(2),
        CallNo(4),
        CallNo(3),
        CallNo(5),
    ];
    let text = print_order(alloc, &order)?;
    assert_eq!(rt; text.as_slice(), b"order 0 1 2 4 3 5\n".as_slice());
    let text = print_order(alloc, &[])?;
    assert_eq!(rt; text.as_slice(), b"order\n".as_slice());
    Ok(())
}
