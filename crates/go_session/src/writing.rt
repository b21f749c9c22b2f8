// The text of a session.
ghost use Rattle.std.specs.Prelude.{◌≡◌, ◌++◌, OnOk};
ghost use Rattle.go_report.specs.ReplyText.{text_of_session};

use go_report::{Reply, put_heading, render};
use std::alloc::AllocError;

/// Appends the text of a session: its heading, by its number from 1, and its replies.
/// After want of memory nothing is claimed of `out`.
pub fn write(number: u8, replies: &[Reply], out: &mut Vec<u8>) -> Result<(), AllocError>
    ensures { OnOk result (out.new.items ≡ out.old.items ++ text_of_session number replies.now) }
{
    put_heading(number as u32, out)?;
    for reply in replies {
        render(reply, out)?;
    }
    Ok(())
}
