// Attributes of a netlink message in lent bytes, taken one after the other in one pass.
#![tactic(auto)]

ghost use Rattle.std.specs.Prelude.{◌≡◌, ◌+◌, ◌<◌, ◌≤◌, ◌%◌, ⊤, length, MatchOption};
ghost use Rattle.netlink.specs.Attributes.{u16};

pub mod bytes;
pub mod fields;

// The bytes of an attribute's header.
const HEADER: usize = 4;

#[derive(Clone, Copy)]
pub struct Attribute<'a> {
    pub code: usize,
    pub payload: &'a [u8],
}

// The attributes at the start of some bytes, one after the other: the place at which the next one begins. Padding that is left out at
// the end puts it past the end, by up to three bytes.
#[derive(Clone, Copy)]
pub struct Attributes<'a> {
    pub bytes: &'a [u8],
    pub at: usize,
    ghost within: { at < length bytes.now + 4 },
}

impl<'a> Attributes<'a> {
    ghost use Rattle.netlink_attributes.specs.Steps.{rest, short};

    pub fn of(bytes: &'a [u8]) -> Self
        ensures { rest result ≡ bytes.now }
    {
        Attributes { bytes, at: 0 }
    }

    // What is left is no attribute's header.
    pub fn is_short(&self) -> bool
        ensures { result ≡ short (rest self.now) }
    {
        self.bytes.len() < self.at + HEADER
    }
}

// The bytes of an attribute that holds one number, as most do.
const NUMBER: usize = 8;

// The code of such an attribute, where it is below 256, as all with a field are.
#[inline(always)]
fn number_code(p: &[u8]) -> Option<usize>
    requires { 4 ≤ length p.now }
    ensures { MatchOption result ⊤ (λ n. (u16 p.now 0 ≡ 8) × (n ≡ u16 p.now 2 % 16384)) }
{
    if usize::from(u16::from_le_bytes([p[0], p[1]])) == NUMBER && p[3] == 0 {
        Some(usize::from(p[2]))
    } else {
        None
    }
}

impl<'a> Iterator for Attributes<'a> {
    ghost use Rattle.std.specs.Iterator.{item_count};
    ghost use Rattle.netlink_attributes.specs.Steps.{ahead, Gives};

    type Item = Attribute<'a>;

    ghost next_gives = { Gives };

    ghost remaining = { item_count ahead };

    // First one that holds a number: what takes it knows the payload's size, and the next one's place waits for no length. The tests
    // stand in front of the slices, not in a `get`, so that what is built steps from header to header by an addition alone.
    #[inline]
    fn next(&mut self) -> Option<Attribute<'a>> {
        if self.at + NUMBER <= self.bytes.len() {
            let left = &self.bytes[self.at..];
            if let Some(code) = number_code(left) {
                self.at += NUMBER;
                return Some(Attribute {
                    code,
                    payload: &left[HEADER..NUMBER],
                });
            }
        }
        if self.is_short() {
            return None;
        }
        let left = &self.bytes[self.at..];
        let length = usize::from(u16::from_le_bytes([left[0], left[1]]));
        if length < HEADER {
            return None;
        }
        if left.len() < length {
            return None;
        }
        self.at += length.next_multiple_of(HEADER);
        Some(Attribute {
            code: usize::from(u16::from_le_bytes([left[2], left[3]]) % 16384),
            payload: &left[HEADER..length],
        })
    }
}
