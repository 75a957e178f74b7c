// The order in which calls took effect.
ghost use Rattle.std.specs.Prelude.{◌≡◌, ◌++◌, IfOk, OnOk};
ghost use Rattle.std.specs.List.{flat_map};
ghost use Rattle.report.specs.Traces.{call_text, order_text};

use crate::print::push_number;
use ss_base::{CallNo, OutOfMemory};
use std::alloc::Global;

/// Appends a call behind a space.
pub(crate) fn push_call(text: &mut Vec<u8>, call: CallNo) -> Result<(), OutOfMemory>
    ensures { OnOk result (text.new.items ≡ text.old.items ++ call_text call.0) }
{
    text.push(b' ')?;
    push_number(text, call.0)
}

// Appends calls, each behind a space.
fn push_calls(text: &mut Vec<u8>, calls: &[CallNo]) -> Result<(), OutOfMemory>
    ensures { OnOk result (text.new.items ≡ text.old.items
        ++ flat_map (λ call. call_text call.0) calls.now) }
{
    for call in calls {
        push_call(text, *call)?;
    }
    Ok(())
}

/// The order in which calls took effect, as one line: the word `order`, and the number of each call
/// behind a space.
pub fn print_order(alloc: Global, order: &[CallNo]) -> Result<Vec<u8>, OutOfMemory>
    ensures { IfOk result (λ text. text.items ≡ order_text order.now) }
{
    let mut text = Vec::new(alloc);
    text.extend_from_slice(b"order")?;
    push_calls(&mut text, order)?;
    text.push(b'\n')?;
    Ok(text)
}
