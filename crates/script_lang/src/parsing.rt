// From the bytes of a script to the script.
ghost use Rattle.std.specs.Prelude.{◌≡◌, ◌≤◌, length, IfOk, Ok, Err};
ghost use Rattle.ss_base.specs.declared.limits.TheConstants.{SCRIPT_BYTES};
ghost use Rattle.script_lang.specs.Lines.{is_line_end};
ghost use Rattle.script_lang.specs.Listings.{listing_of};

use crate::fault::{ParseFault, ScriptFault};
use crate::reader::Reader;
use crate::script::Script;
use std::alloc::Global;

pub(crate) fn is_line_end(byte: u8) -> bool
    ensures { result ≡ is_line_end byte }
{
    byte == b'\n'
}

/// The script of these bytes, which are at most `SCRIPT_BYTES`.
///
/// `Text` tells the first line that is wrong. Without a want of memory it comes exactly where the
/// text is wrong.
pub fn parse(alloc: Global, bytes: &[u8]) -> Result<Script, ParseFault>
    requires { length bytes.now ≤ SCRIPT_BYTES }
    ensures ok { IfOk result (λ script. listing_of bytes.now ≡ Ok script) }
    ensures fault { (fault : ScriptFault) → result ≡ Err (ParseFault.Text fault)
        → listing_of bytes.now ≡ Err fault }
{
    let mut reader = Reader::new(alloc);
    let mut line = 0;
    for text in bytes.split(|byte| is_line_end(*byte)) {
        line += 1;
        reader.read_line(line, text)?;
    }
    Ok(reader.into_script())
}
