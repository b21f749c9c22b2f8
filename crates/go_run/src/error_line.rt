// The line that tells on standard error how the program ended.
ghost use Rattle.std.specs.Prelude.{◌≡◌, ◌++◌, OnOk};
ghost use Rattle.go_run.specs.Status.{error_line, cause_of, script_cause, too_much_cause, bad_word_of, no_log_cause, asked_cause, other_vertices_cause};

use crate::status::Status;
use go_blocks::BadKind;
use go_text::{FaultKind, put_number, put_text};
use std::alloc::AllocError;

/// Gives the error line of a status into `out`, which is cleared first; nothing for `Done`.
/// After want of memory nothing is claimed of `out`.
pub fn message(status: &Status, out: &mut Vec<u8>) -> Result<(), AllocError>
    ensures { OnOk result (out.new.items ≡ error_line status.now) }
{
    out.clear();
    if let Status::Done = status {
        return Ok(());
    }
    put_text(out, b"graphone: ")?;
    put_cause(status, out)?;
    put_text(out, b"\n")
}

// Appends what a status says.
fn put_cause(status: &Status, out: &mut Vec<u8>) -> Result<(), AllocError>
    ensures { OnOk result (out.new.items ≡ out.old.items ++ cause_of status.now) }
{
    match status {
        Status::Done => Ok(()),
        Status::Words => put_text(out, b"bad arguments"),
        Status::Script { name, line, kind } => put_script(name.bytes(), *line, *kind, out),
        Status::NoFile { name } => put_named(name.bytes(), b": not there", out),
        Status::TooMuch { counted, limit } => put_too_much(*counted, *limit, out),
        Status::ReadFault { name } => put_named(name.bytes(), b": read fault", out),
        Status::NotALog { at, kind } => put_no_log(*at, *kind, out),
        Status::OtherVertices { file, asked } => put_other_vertices(*file, *asked, out),
        Status::DiskFault => put_text(out, b"disk fault"),
        Status::WriteFault => put_text(out, b"write fault"),
        Status::Memory => put_text(out, b"out of memory"),
    }
}

// Appends a name and what is said of it.
fn put_named(name: &[u8], text: &[u8], out: &mut Vec<u8>) -> Result<(), AllocError>
    ensures { OnOk result (out.new.items ≡ out.old.items ++ (name.now ++ text.now)) }
{
    put_text(out, name)?;
    put_text(out, text)
}

// Appends the name, line and kind of a script's fault.
fn put_script(name: &[u8], line: u64, kind: FaultKind, out: &mut Vec<u8>) -> Result<(), AllocError>
    ensures { OnOk result (out.new.items ≡ out.old.items ++ script_cause name.now line kind) }
{
    put_named(name, b": line ", out)?;
    put_number(out, line)?;
    put_named(b": ", kind.word().as_bytes(), out)
}

// Appends a count that is over its limit.
fn put_too_much(counted: u64, limit: u64, out: &mut Vec<u8>) -> Result<(), AllocError>
    ensures { OnOk result (out.new.items ≡ out.old.items ++ too_much_cause counted limit) }
{
    put_text(out, b"too much: ")?;
    put_number(out, counted)?;
    put_text(out, b" of ")?;
    put_number(out, limit)
}

// Appends what is wrong with bytes that are no log file, and where.
fn put_no_log(at: u64, kind: BadKind, out: &mut Vec<u8>) -> Result<(), AllocError>
    ensures { OnOk result (out.new.items ≡ out.old.items ++ no_log_cause at kind) }
{
    put_text(out, b"not a log: ")?;
    put_named(bad_word(kind).as_bytes(), b" at ", out)?;
    put_number(out, at)
}

// The word for what is wrong with bytes that are no log file.
fn bad_word(kind: BadKind) -> &'static str
    ensures { result.now ≡ bad_word_of kind }
{
    match kind {
        BadKind::Magic => "magic",
        BadKind::Version => "version",
        BadKind::Vertices => "vertices",
        BadKind::Count => "count",
        BadKind::Short => "short",
        BadKind::Word => "word",
    }
}

// Appends the numbers of vertices that a log has and that were asked for.
fn put_other_vertices(file: u32, asked: u32, out: &mut Vec<u8>) -> Result<(), AllocError>
    ensures { OnOk result (out.new.items ≡ out.old.items ++ other_vertices_cause file asked) }
{
    put_text(out, b"log has ")?;
    put_number(out, u64::from(file))?;
    put_asked(asked, out)
}

// Appends the number of vertices that was asked for.
fn put_asked(asked: u32, out: &mut Vec<u8>) -> Result<(), AllocError>
    ensures { OnOk result (out.new.items ≡ out.old.items ++ asked_cause asked) }
{
    put_text(out, b" vertices, asked ")?;
    put_number(out, u64::from(asked))
}
