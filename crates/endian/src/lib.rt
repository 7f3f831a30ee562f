// Words as bytes, four a word, the lowest first. Plain loops: the back end makes each one memcpy.
#![tactic(auto)]

ghost use Rattle.std.specs.Prelude.{◌≡◌, ◌*◌, ◌≤◌, length};
ghost use Rattle.lists.specs.Lists.{put};
ghost use Rattle.endian.specs.Endian.{words_of, bytes_of};

// The words that the bytes are, at the start of out. Fewer than four bytes at the end are no word.
// Into lent words: a request, a row and what `streams` reads have several lengths, so an array by value would be a second function.
pub fn words_of(bytes: &[u8], out: &mut [u32])
    requires { length bytes.now ≤ 4 * length out.old }
    ensures { out.new ≡ put 0 (words_of bytes.now) out.old }
{
    let (quads, _rest) = bytes.as_chunks::<4>();
    // By place: behind `out.iter_mut().zip(quads)` a proof knows only how long out is.
    for (i, quad) in quads.iter().enumerate() {
        out[i] = u32::from_le_bytes(*quad);
    }
}

// The bytes that the words are, at the start of out: into lent bytes, as `words_of`.
pub fn bytes_of(words: &[u32], out: &mut [u8])
    requires { 4 * length words.now ≤ length out.old }
    ensures { out.new ≡ put 0 (bytes_of words.now) out.old }
{
    // By index: tried with `first_chunk_mut` and `unwrap`, and with `if let`, which take as long, but it didn't prove that out holds the
    // word then; behind `as_chunks_mut` a proof knows only how long it is.
    for (i, word) in words.iter().enumerate() {
        let [a, b, c, d] = word.to_le_bytes();
        out[4 * i] = a;
        out[4 * i + 1] = b;
        out[4 * i + 2] = c;
        out[4 * i + 3] = d;
    }
}
