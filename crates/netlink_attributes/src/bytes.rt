// Numbers in lent bytes: those of a header, where what is read past an end is 0, as in the definitions, and those of a payload, which has
// just their bytes.
ghost use Rattle.std.specs.Prelude.{ℕ, ◌≡◌, ◌≢◌, ◌<◌, ◌≤◌, get_or, length, MatchOption};
ghost use Rattle.netlink.specs.Attributes.{u16};
ghost use Rattle.netlink.specs.Reader.{u32, byte, number, address, preferred_in, valid_in, label, label_words};

use netlink::codes;

pub fn byte(p: &[u8], i: usize) -> u8
    ensures { result ≡ get_or p.now i 0 }
{
    p.get(i).copied().unwrap_or(0)
}

pub fn half(p: &[u8], i: usize) -> u16
    requires { i < 32 }
    ensures { result ≡ u16 p.now i }
{
    u16::from_le_bytes([byte(p, i), byte(p, i + 1)])
}

pub fn word(p: &[u8], i: usize) -> u32
    requires { i < 32 }
    ensures { result ≡ u32 p.now i }
{
    u32::from_le_bytes([byte(p, i), byte(p, i + 1), byte(p, i + 2), byte(p, i + 3)])
}

// ---- payloads
#[inline]
pub fn number(p: &[u8]) -> Option<u32>
    ensures { MatchOption result (length p.now ≢ 4) (λ n. (length p.now ≡ 4) × (n ≡ number p.now)) }
{
    p.as_array::<4>().map(|four| u32::from_le_bytes(*four))
}

#[inline]
pub fn address(p: &[u8]) -> Option<u32>
    ensures { MatchOption result (length p.now ≢ 4) (λ n. (length p.now ≡ 4) × (n ≡ address p.now)) }
{
    p.as_array::<4>().map(|four| u32::from_be_bytes(*four))
}

#[inline]
pub fn one_byte(p: &[u8]) -> Option<u8>
    ensures { MatchOption result (length p.now ≢ 1) (λ n. (length p.now ≡ 1) × (n ≡ byte p.now)) }
{
    p.as_array::<1>().map(|one| one[0])
}

// The preferred and the valid lifetime of cache information.
#[inline]
pub fn lifetimes(p: &[u8]) -> Option<(u32, u32)>
    ensures { MatchOption result (length p.now ≢ 16) (λ n. (length p.now ≡ 16) × (n.0 ≡ preferred_in p.now) × (n.1 ≡ valid_in p.now)) }
{
    if p.len() == codes::CACHEINFO_BYTES {
        Some((word(p, 0), word(p, 4)))
    } else {
        None
    }
}

// The bytes before the first zero.
fn label(p: &[u8]) -> &[u8]
    ensures { result.now ≡ label p.now }
{
    let end = p.iter().position(|b| *b == 0).unwrap_or(p.len());
    &p[..end]
}

// A label's bytes, and zeros behind them.
#[inline(always)]
fn zero_padded(label: &[u8]) -> [u8; 16]
    requires { length label.now ≤ 15 }
    ensures { (i : ℕ) → get_or result i 0 ≡ get_or label.now i 0 }
{
    let mut bytes = [0; 16];
    bytes[..label.len()].copy_from_slice(label);
    bytes
}

// A label's length and its words; none of more than fifteen bytes.
#[inline(always)]
pub fn label_words(p: &[u8]) -> Option<[u32; 5]>
    ensures { MatchOption result (15 < length (label p.now)) (λ w. (length (label p.now) ≤ 15) × (w ≡ label_words (label p.now))) }
{
    let label = label(p);
    if codes::LABEL_MAX < label.len() {
        return None;
    }
    let bytes = zero_padded(label);
    Some([
        label.len() as u32,
        word(&bytes, 0),
        word(&bytes, 4),
        word(&bytes, 8),
        word(&bytes, 12),
    ])
}
