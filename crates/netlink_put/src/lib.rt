// A message of rtnetlink, written piece by piece to lent bytes. What lies behind it is kept.
#![tactic(auto)]

ghost use Rattle.std.specs.Prelude.{◌≡◌, ◌+◌, ◌≤◌, ◌<◌, length};
ghost use Rattle.netlink.specs.Attributes.{padded};
ghost use Rattle.netlink_event.specs.Written.{when, always, written_all};

// Lent bytes, and how many at their front are written.
#[derive(Drop)]
pub struct Writer<'a> {
    pub out: &'a mut [u8],
    pub len: usize,
    ghost within: { len ≤ length out.now },
}

impl<'a> Writer<'a> {
    ghost use Rattle.std.specs.Prelude.{[], ◌∷◌};
    ghost use Rattle.netlink_event.specs.Written.{bytes4};
    ghost use Rattle.netlink_put.specs.Wrote.{Appends, Adds, Sets, unset_header};

    // Nothing is written yet.
    pub fn new(out: &'a mut [u8]) -> Writer<'a>
        ensures same { result.out.ghost_name ≡ out.entry.ghost_name }
        ensures now { result.out.now ≡ out.old }
        ensures len { result.len ≡ 0 }
    {
        Writer { out, len: 0 }
    }

    // Some bytes.
    pub fn push(&mut self, piece: &[u8])
        requires { self.old.len + length piece.now ≤ length self.old.out.now }
        ensures { Appends self.old piece.now self.new }
    {
        let end = self.len + piece.len();
        self.out[self.len..end].copy_from_slice(piece);
        self.len = end;
    }

    // An attribute: its length and its code, the payload, and zeros up to a multiple of four.
    pub fn attribute(&mut self, code: usize, payload: &[u8])
        requires narrow { code < 65536 }
        requires short { length payload.now ≤ 140 }
        requires room { self.old.len + padded (length payload.now + 4) ≤ length self.old.out.now }
        ensures bound { length (written_all (always code payload.now ∷ [])) ≤ padded (length payload.now + 4) }
        ensures text { Adds self.old (always code payload.now ∷ []) self.new }
    {
        let padding = payload.len().next_multiple_of(4) - payload.len();
        self.push(&((4 + payload.len()) as u16).to_le_bytes());
        self.push(&(code as u16).to_le_bytes());
        self.push(payload);
        self.push(&[0; 3][..padding]);
    }

    // One that may be absent, which takes no bytes then.
    pub fn optional(&mut self, present: bool, code: usize, payload: &[u8])
        requires narrow { code < 65536 }
        requires short { length payload.now ≤ 140 }
        requires room { self.old.len + padded (length payload.now + 4) ≤ length self.old.out.now }
        ensures bound { length (written_all (when present code payload.now ∷ [])) ≤ padded (length payload.now + 4) }
        ensures text { Adds self.old (when present code payload.now ∷ []) self.new }
    {
        if present {
            self.attribute(code, payload);
        }
    }

    // netlink's header, with 0 for the message's length.
    pub fn header(&mut self, kind: u16, flags: u16, sequence: u32, port: u32)
        requires { self.old.len + 16 ≤ length self.old.out.now }
        ensures { Appends self.old (unset_header kind flags sequence port) self.new }
    {
        self.push(&[0; 4]);
        self.push(&kind.to_le_bytes());
        self.push(&flags.to_le_bytes());
        self.push(&sequence.to_le_bytes());
        self.push(&port.to_le_bytes());
    }

    // The message's length, that of all that is written, at its front.
    pub fn set_length(&mut self)
        requires { (4 ≤ length self.old.out.now) × (self.old.len < 4294967296) }
        ensures { Sets self.old (bytes4 self.old.len) self.new }
    {
        self.out[..4].copy_from_slice(&(self.len as u32).to_le_bytes());
    }
}
