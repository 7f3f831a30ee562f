// Rows of words, given back as bytes.
ghost use Rattle.std.specs.Prelude.{◌≡◌, ◌≤◌, ◌*◌, length, take};
ghost use Rattle.lists.specs.Lists.{put};
ghost use Rattle.endian.specs.Endian.{bytes_of};
ghost use Rattle.endian.specs.Laws.{Below};

use layout::{ADD_V4_WORDS, DEL_V4_WORDS};

// The words of an address's requests.
const ADD_V4: u32 = ADD_V4_WORDS as u32;

const DEL_V4: u32 = DEL_V4_WORDS as u32;

// n rows of so many words, at the start of out.
// It writes to what it is lent: C hands over the buffer.
pub fn give_rows(rows: &[u32], size: usize, n: u32, out: &mut [u8])
    requires { (size * n ≤ length rows.now) × (4 * (size * n) ≤ length out.old) }
    ensures out_after { out.new ≡ put 0 (bytes_of (take (size * n) rows.now)) out.old }
    ensures below { Below 4294967296 rows.now }
{
    let end = size * (n as usize);
    endian::bytes_of(&rows[0..end], out);
}

// A request's words, at the start of out. Those of an address, the shortest, go by counts that are known here: by a few moves in place of
// a call, which would wait for what was just written.
pub fn give_request(words: &[u32], n: u32, out: &mut [u8])
    requires { (1 * n ≤ length words.now) × (4 * (1 * n) ≤ length out.old) }
    ensures { out.new ≡ put 0 (bytes_of (take (1 * n) words.now)) out.old }
{
    if n == DEL_V4 {
        give_rows(words, 1, DEL_V4, out);
    } else if n == ADD_V4 {
        give_rows(words, 1, ADD_V4, out);
    } else {
        give_rows(words, 1, n, out);
    }
}
