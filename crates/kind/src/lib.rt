// What a route is.
#![tactic(auto)]

ghost use Rattle.std.specs.Prelude.{◌≡◌, not, eqb};
ghost use Rattle.kind.specs.Kind.{code_of, kind_of, is_kind, error_of, rejection, least_scope};

use std::error::Error;
use std::fmt;

#[derive(Clone, Copy, Debug, PartialEq, Eq)]
pub enum Kind {
    Unicast,
    Local,
    Broadcast,
    Blackhole,
    Unreachable,
    Prohibit,
    Throw,
}

// The least scope of each code, as document 01 has it: a table.
const LEAST_SCOPES: [u32; 12] = [255, 0, 254, 253, 253, 0, 0, 0, 0, 0, 255, 255];

// A code that is none of the seven.
#[derive(Clone, Copy, Debug, PartialEq, Eq)]
pub struct UnknownKind(pub u32);

impl TryFrom<u32> for Kind {
    type Error = UnknownKind;

    ghost try_from_gives = { λ code r. r ≡ kind_of code };

    #[tactic(auto, unfolding(crate::specs::Kind::kind_of))]
    fn try_from(code: u32) -> Result<Self, UnknownKind> {
        match code {
            1 => Ok(Kind::Unicast),
            2 => Ok(Kind::Local),
            3 => Ok(Kind::Broadcast),
            6 => Ok(Kind::Blackhole),
            7 => Ok(Kind::Unreachable),
            8 => Ok(Kind::Prohibit),
            9 => Ok(Kind::Throw),
            _ => Err(UnknownKind(code)),
        }
    }
}

impl From<Kind> for u32 {
    ghost from_gives = { λ kind code. code ≡ code_of kind };

    fn from(kind: Kind) -> u32 {
        match kind {
            Kind::Unicast => 1,
            Kind::Local => 2,
            Kind::Broadcast => 3,
            Kind::Blackhole => 6,
            Kind::Unreachable => 7,
            Kind::Prohibit => 8,
            Kind::Throw => 9,
        }
    }
}

impl Kind {
    // What a lookup that ends at a route of this kind gives, where it rejects: EINVAL, EHOSTUNREACH, EACCES and EAGAIN.
    #[tactic(auto, unfolding(crate::specs::Kind::error_of))]
    pub fn error(self) -> Option<u32>
        ensures { result ≡ rejection (error_of (code_of self)) }
    {
        match self {
            Kind::Unicast | Kind::Local | Kind::Broadcast => None,
            Kind::Blackhole => Some(22),
            Kind::Unreachable => Some(113),
            Kind::Prohibit => Some(13),
            Kind::Throw => Some(11),
        }
    }
}

impl fmt::Display for UnknownKind {
    fn fmt<W: fmt::Write>(&self, f: &mut fmt::Formatter<W>) -> fmt::Result {
        write!(f, "no kind of route has code {}", self.0)
    }
}

impl Error for UnknownKind {}

// Whether a code is one of the seven.
// This and the three below are asked of a code and no `Kind`: rows and requests hold codes, as the C interface has them.
pub fn is_kind(code: u32) -> bool
    ensures { result ≡ is_kind code }
{
    Kind::try_from(code).is_ok()
}

// Whether a kind of this code rejects.
pub fn rejects(code: u32) -> bool
    ensures { result ≡ not (eqb (error_of code) 0) }
{
    error_of(code).is_some()
}

// The error of a code whose kind rejects.
#[tactic(auto, unfolding(crate::specs::Kind::error_of, crate::specs::Kind::kind_of))]
pub fn error_of(code: u32) -> Option<u32>
    ensures { result ≡ rejection (error_of code) }
{
    Kind::try_from(code).ok()?.error()
}

// The least scope that a request for a route of this code may have. Of a code: 0, 4, 10 and 11, which no kind has, have one too.
pub fn least_scope(code: u32) -> u32
    ensures { result ≡ least_scope code }
{
    if 12 <= code {
        return 0;
    }
    LEAST_SCOPES[code as usize]
}
