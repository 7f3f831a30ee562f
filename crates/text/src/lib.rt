// Routes as text, in ASCII, written piece by piece to lent bytes.
#![tactic(auto)]

ghost use Rattle.std.specs.Prelude.{◌≡◌, ◌+◌, ◌*◌, ◌≤◌, length};
ghost use Rattle.lists.specs.Lists.{each};
ghost use Rattle.text.specs.Print.{dotted, count_line, refused_line};
ghost use Rattle.text.specs.Print.{line as Print·line};
ghost use Rattle.text.specs.Print.{render as Print·render};

use itoa::{Buffer, Integer};
use layout::{RouteRow, route};

// Lent bytes, and how many at their front are written.
// No `Display` and `write!`: as a proof sees it they may fail, where `app_show::show` can't.
#[derive(Drop)]
pub struct Text<'a> {
    pub out: &'a mut [u8],
    pub len: usize,
    ghost within: { len ≤ length out.now },
}

impl<'a> Text<'a> {
    ghost use Rattle.text.specs.Wrote.{Appends};

    // Nothing is written yet.
    pub fn new(out: &'a mut [u8]) -> Text<'a>
        ensures same { result.out.ghost_name ≡ out.entry.ghost_name }
        ensures now { result.out.now ≡ out.old }
        ensures len { result.len ≡ 0 }
    {
        Text { out, len: 0 }
    }

    // Some characters.
    fn push(&mut self, piece: &[u8])
        requires { self.old.len + length piece.now ≤ length self.old.out.now }
        ensures { Appends self.old piece.now self.new }
    {
        let end = self.len + piece.len();
        self.out[self.len..end].copy_from_slice(piece);
        self.len = end;
    }

    // A number's digits.
    fn number<I: Integer>(&mut self, n: I)
        requires { self.old.len + I.MAX_STR_LEN ≤ length self.old.out.now }
        ensures bound { length (I.text n) ≤ I.MAX_STR_LEN }
        ensures text { Appends self.old (I.text n) self.new }
    {
        self.push(Buffer::new().format(n).as_bytes());
    }

    // An address: 15 bytes at most.
    fn address(&mut self, ip: u32)
        requires { self.old.len + 15 ≤ length self.old.out.now }
        ensures bound { length (dotted ip) ≤ 15 }
        ensures text { Appends self.old (dotted ip) self.new }
    {
        let [a, b, c, d] = ip.to_be_bytes();
        self.number(a);
        self.push(b".");
        self.number(b);
        self.push(b".");
        self.number(c);
        self.push(b".");
        self.number(d);
    }

    // A route's line: 75 bytes at most. A slice: a public function asks for no narrower type than it did.
    pub fn line(&mut self, r: &[u32])
        requires words { 6 ≤ length r.now }
        requires room { self.old.len + 75 ≤ length self.old.out.now }
        ensures bound { length (Print·line r.now) ≤ 75 }
        ensures text { Appends self.old (Print·line r.now) self.new }
    {
        self.push(b"(");
        self.number(r[route::TABLE]);
        self.push(b" (");
        self.address(r[route::DST]);
        self.push(b" ");
        self.number(r[route::LEN]);
        self.push(b") ");
        self.number(r[route::KIND]);
        self.push(b" ");
        self.number(r[route::TOS]);
        self.push(b" ");
        self.number(r[route::PRIORITY]);
        self.push(b")\n");
    }

    // How many rows there are: 20 bytes at most.
    pub fn count_line(&mut self, n: u32)
        requires { self.old.len + 20 ≤ length self.old.out.now }
        ensures bound { length (count_line n) ≤ 20 }
        ensures text { Appends self.old (count_line n) self.new }
    {
        self.push(b"(routes ");
        self.number(n);
        self.push(b")\n");
    }

    // A refusal: 21 bytes at most. Three calls, as in `count_line`: one method for both would be a third contract.
    pub fn refused_line(&mut self, n: u32)
        requires { self.old.len + 21 ≤ length self.old.out.now }
        ensures bound { length (refused_line n) ≤ 21 }
        ensures text { Appends self.old (refused_line n) self.new }
    {
        self.push(b"(refused ");
        self.number(n);
        self.push(b")\n");
    }

    // The rows' lines, one behind the other.
    pub fn lines(&mut self, rows: &[RouteRow])
        requires { self.old.len + 75 * length rows.now ≤ length self.old.out.now }
        ensures bound { length (each Print·line rows.now) ≤ 75 * length rows.now }
        ensures text { Appends self.old (each Print·line rows.now) self.new }
    {
        for r in rows {
            self.line(r);
        }
    }

    // A listing of at most 256 rows: their count, then their lines, 19,220 bytes at most.
    pub fn render(&mut self, rows: &[RouteRow])
        requires few { length rows.now ≤ 256 }
        requires room { self.old.len + 20 + 75 * length rows.now ≤ length self.old.out.now }
        ensures bound { length (Print·render rows.now) ≤ 20 + 75 * length rows.now }
        ensures text { Appends self.old (Print·render rows.now) self.new }
    {
        self.count_line(rows.len() as u32);
        self.lines(rows);
    }
}
