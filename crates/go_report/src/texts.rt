// The texts of replies and headings, appended to a list of bytes.

ghost use Rattle.std.specs.Prelude.{◌≡◌, ◌++◌, OnOk, OnErr, is_ok, if◌then◌else◌, take};
ghost use Rattle.go_report.specs.ReplyText.{text_of, heading_of, StillBegins};

use crate::lines::{
    put_busy, put_degree, put_entries, put_level, put_levels, put_list, put_loaded, put_place_at,
    put_position, put_rank, put_span,
};
use crate::reply::Reply;
use go_text::put_text;
use go_word::Edge;
use std::alloc::AllocError;

/// Appends the text of a reply, which ends with a line feed. At an error `out` is as before.
///
/// In time linear in the text. No memory is taken but for growths of `out`.
pub fn render(reply: &Reply, out: &mut Vec<u8>) -> Result<(), AllocError>
    ensures ok { OnOk result (out.new.items ≡ out.old.items ++ text_of reply.now) }
    ensures err { OnErr result (out.new.items ≡ out.old.items) }
{
    let before = out.len();
    let put = put_reply(reply, out);
    cut_back(put, before, out)
}

/// Appends the heading of a session, by its number, as `session 1` and a line feed. At an error `out` is as before.
pub fn put_heading(session: u32, out: &mut Vec<u8>) -> Result<(), AllocError>
    ensures ok { OnOk result (out.new.items ≡ out.old.items ++ heading_of session) }
    ensures err { OnErr result (out.new.items ≡ out.old.items) }
{
    let before = out.len();
    let put = put_position(b"session ", u64::from(session), out);
    cut_back(put, before, out)
}

// Where an append has failed, cuts off what it left behind the first `before` bytes.
fn cut_back(put: Result<(), AllocError>, before: usize, out: &mut Vec<u8>) -> Result<(), AllocError>
    ensures passed_on { result ≡ put }
    ensures cut { out.new.items ≡ (if is_ok put then out.old.items else take before out.old.items) }
{
    if put.is_err() {
        out.truncate(before);
    }
    put
}

// Appends the text of a reply, or at an error leaves a part of it behind what stood there.
fn put_reply(reply: &Reply, out: &mut Vec<u8>) -> Result<(), AllocError>
    ensures ok { OnOk result (out.new.items ≡ out.old.items ++ text_of reply.now) }
    ensures err { OnErr result (StillBegins out.old.items out.new.items) }
{
    match reply {
        Reply::Added { position } => put_position(b"add ", *position, out),
        Reply::Deleted { position } => put_position(b"del ", *position, out),
        Reply::Offered { position } => put_position(b"offer ", *position, out),
        Reply::Busy { head, released } => put_busy(*head, *released, out),
        Reply::Loaded { name, count, last } => put_loaded(name.get(), *count, last.get(), out),
        Reply::Viewed { place, front } => put_place_at(b"view ", *place, *front, out),
        Reply::Degree { vertex, degree } => put_degree(*vertex, *degree, out),
        Reply::Neighbours { vertex, list } => put_list(b"neigh ", *vertex, list.as_slice(), out),
        Reply::Level {
            root,
            vertex,
            level,
        } => put_level(*root, *vertex, *level, out),
        Reply::Levels {
            root,
            counts,
            unreached,
        } => put_levels(*root, counts.get().as_slice(), *unreached, out),
        Reply::Rank { list } => put_rank(list.as_slice(), out),
        Reply::Hop { vertex, list } => put_list(b"hop ", *vertex, list.as_slice(), out),
        Reply::Dropped { place } => put_position(b"drop ", u64::from(*place), out),
        Reply::Streamed { place, cursor } => put_place_at(b"stream ", *place, *cursor, out),
        Reply::Updated {
            place,
            from,
            to,
            list,
        } => put_updated(*place, *from, *to, list.get().as_slice(), out),
        Reply::Closed { place } => put_position(b"close ", u64::from(*place), out),
        Reply::Until { asked } => put_position(b"until ", *asked, out),
        Reply::Synced { front } => put_position(b"sync ", *front, out),
        Reply::Compacted => put_text(out, b"compact\n"),
    }
}

// Appends what a stream gave: a heading, and then a line for each entry.
fn put_updated(
    place: u8,
    from: u64,
    to: u64,
    list: &[Edge],
    out: &mut Vec<u8>,
) -> Result<(), AllocError>
    ensures ok { OnOk result (out.new.items ≡ out.old.items ++ text_of (Reply.Updated place from to list.now)) }
    ensures err { OnErr result (StillBegins out.old.items out.new.items) }
{
    put_span(place, from, to, out)?;
    put_entries(list, out)
}
