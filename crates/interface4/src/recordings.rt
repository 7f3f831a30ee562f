// Recordings of events, on words and on bytes: the route rows that one rebuilds, and whether two rebuild the same.
ghost use Rattle.std.specs.Prelude.{◌≡◌, length};
ghost use Rattle.lists.specs.Lists.{flat, put};
ghost use Rattle.endian.specs.Endian.{bytes_of};
ghost use Rattle.definition_recording.specs.Recording.{rebuild_call, same_call};
ghost use Rattle.definition_bytes.specs.Recording.{rebuild_on_bytes, same_on_bytes};
ghost use Rattle.call_reply.specs.Answer.{reply_of};

use call_reply::Reply;

#[unsafe(no_mangle)]
pub extern "C" fn interface4w_rebuild(recording: &[u32], rows: &mut [u32]) -> Reply
    ensures value { result ≡ reply_of (rebuild_call (length rows.old) recording.now) }
    ensures rows_after { rows.new ≡ put 0 (flat (rebuild_call (length rows.old) recording.now).rows) rows.old }
{
    Reply::of(call_recording::rebuild(recording, rows))
}

#[unsafe(no_mangle)]
pub extern "C" fn interface4_rebuild(recording: &[u8], rows: &mut [u8]) -> Reply
    ensures value { result ≡ reply_of (rebuild_on_bytes (length rows.old) recording.now) }
    ensures rows_after { rows.new ≡ put 0 (bytes_of (flat (rebuild_on_bytes (length rows.old) recording.now).rows)) rows.old }
{
    Reply::of(call_recording::rebuild_bytes(recording, rows))
}

#[unsafe(no_mangle)]
pub extern "C" fn interface4w_same(first: &[u32], second: &[u32]) -> Reply
    ensures { result ≡ reply_of (same_call first.now second.now) }
{
    Reply::of(call_recording::same(first, second))
}

#[unsafe(no_mangle)]
pub extern "C" fn interface4_same(first: &[u8], second: &[u8]) -> Reply
    ensures { result ≡ reply_of (same_on_bytes first.now second.now) }
{
    Reply::of(call_recording::same_bytes(first, second))
}
