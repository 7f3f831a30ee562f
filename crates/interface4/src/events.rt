// An event as a message for a socket, on words and on bytes.
ghost use Rattle.std.specs.Prelude.{◌≡◌, length};
ghost use Rattle.lists.specs.Lists.{flat, put};
ghost use Rattle.netlink_event.specs.Writer.{write_call, write_on_bytes};
ghost use Rattle.call_reply.specs.Answer.{reply_of};

use call_event::MESSAGE_BYTES;
use call_reply::Reply;
use layout::EVENT_WORDS;
use refusal::Refusal;

// The bytes of one event row.
const ROW_BYTES: usize = 4 * EVENT_WORDS;

#[unsafe(no_mangle)]
pub extern "C" fn interface4w_write(
    event: &[u32],
    message: &mut [u8],
    sequence: u32,
    port: u32,
    clock: u64,
) -> Reply
    ensures value { result ≡ reply_of (write_call (length message.old) sequence port clock event.now) }
    ensures message_after { message.new ≡ put 0 (flat (write_call (length message.old) sequence port clock event.now).rows) message.old }
{
    Reply::of(call_event::write(event, message, sequence, port, clock))
}

#[unsafe(no_mangle)]
pub extern "C" fn interface4_write(
    event: &[u8],
    message: &mut [u8],
    sequence: u32,
    port: u32,
    clock: u64,
) -> Reply
    ensures value { result ≡ reply_of (write_on_bytes (length message.old) sequence port clock event.now) }
    ensures message_after { message.new ≡ put 0 (flat (write_on_bytes (length message.old) sequence port clock event.now).rows) message.old }
{
    if message.len() < MESSAGE_BYTES {
        return Reply::from(Refusal::WrongLength);
    }
    if event.len() != ROW_BYTES {
        return Reply::from(Refusal::Malformed);
    }
    let mut e = [0u32; EVENT_WORDS];
    endian::words_of(event, &mut e);
    interface4w_write(&e, message, sequence, port, clock)
}
