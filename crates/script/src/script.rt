// A whole script.
ghost use Rattle.std.specs.{Prelude.{◌≡◌, ◌<◌, ◌==◌, ◌↔◌, IsTrue, IfOk, IfErr, IfSome, List, OnErr, OnOk, length}, List.{position}};
ghost use Rattle.script.specs.Script.{Asks, call_if_asked, IsEmptyOrComment, IsBadLine, IsFirstBadLine, IsFirstLine, IsScript};
ghost use Rattle.adapter.specs.declared.access.DeviceStep.{DeviceStep};
ghost use Rattle.ata_types.specs.declared.call.Call.{Call};

use crate::call_buffer::CallBuffer;
use crate::line::parse_line_into;
use thiserror::Error;

/// A line is spelled as none.
#[derive(Clone, Copy, Debug, PartialEq, Eq, Error)]
#[error("bad")]
pub struct Misspelled;

/// The first line of a script that is spelled as none has this number. The first line of the text has number 1.
#[derive(Clone, Copy, Debug, PartialEq, Eq, Error)]
#[error("line {0}: bad")]
pub struct BadLine(pub u64);

/// Whether a line is empty or begins with `#`.
fn is_empty_or_comment(text: &[u8]) -> bool
    ensures { IsTrue result ↔ IsEmptyOrComment text.now }
{
    matches!(text, [] | [b'#', ..])
}

/// Reads the call that a line of a script asks for, without its line feed, and returns whether it asks for any. An
/// empty line doesn't, nor does one that begins with `#`. In that case, and if the line is bad, the call in the place
/// is any call.
pub fn parse_script_line(text: &[u8], call: &mut CallBuffer) -> Result<bool, Misspelled>
    ensures ok { IfOk result (λ some. Asks text.now (call_if_asked some call.new)) }
    ensures bad { OnErr result (IsBadLine text.now) }
{
    if is_empty_or_comment(text) {
        return Ok(false);
    }
    match parse_line_into(text, call) {
        Some(()) => Ok(true),
        None => Err(Misspelled),
    }
}

/// Checks the lines of a script: what is between its line feeds, and what comes after the last one. The fault names the
/// first bad line. Lines that ask nothing are counted, too. It takes no memory, and keeps no line: `parse_script_line`
/// reads each again.
pub fn check_script(text: &[u8]) -> Result<(), BadLine>
    ensures ok { OnOk result ((calls : List (Call DeviceStep)) × IsScript text.now calls) }
    ensures bad { IfErr result (λ bad. IsFirstBadLine text.now bad.0) }
{
    let mut number = 0;
    let mut asked = CallBuffer::new();
    let mut rest = Some(text);
    while let Some(left) = rest {
        let (line, after) = first_line(left);
        number += 1;
        match parse_script_line(line, &mut asked) {
            Ok(_some) => {}
            Err(_misspelled) => return Err(BadLine(number)),
        }
        rest = after;
    }
    Ok(())
}

/// Returns the place of the line feed that ends the first line of a text, if one does.
fn line_feed(text: &[u8]) -> Option<usize>
    ensures { result ≡ position (λ b. b == 10) text.now }
{
    for place in 0..text.len() {
        if text[place] == b'\n' {
            return Some(place);
        }
    }
    None
}

/// Returns the first line of a text, without its line feed, and what comes after it. It returns `None` if no line feed
/// ends that line, which is the last then.
pub fn first_line(text: &[u8]) -> (&[u8], Option<&[u8]>)
    ensures is_first_line { IsFirstLine text.now result.0.now result.1 }
    ensures rest_is_shorter { IfSome result.1 (λ after. length after.now < length text.now) }
{
    match line_feed(text) {
        Some(at) => (&text[..at], Some(&text[at + 1..])),
        None => (text, None),
    }
}
