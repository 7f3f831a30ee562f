// Fields that attributes are taken into as they come, in one pass.
ghost use Rattle.std.specs.Prelude.{◌≡◌};
ghost use Rattle.std.specs.List.{fold};
ghost use Rattle.netlink.specs.Attributes.{Attribute as Reader·Attribute, attributes, right};
ghost use Rattle.netlink_attributes.specs.Steps.{shown};

use crate::{Attribute, Attributes};

pub trait Fields {
    ghost step: { Self → Reader·Attribute → Self };

    fn take(&mut self, a: Attribute)
        ensures { self.new ≡ step self.old (shown a.entry) };
}

// Takes all attributes; whether every length is right.
#[inline(always)]
pub fn walk<F: Fields>(bytes: &[u8], fields: &mut F) -> bool
    ensures lengths { result ≡ right bytes.now }
    ensures taken { fields.new ≡ fold F.step fields.old (attributes bytes.now) }
{
    let mut attributes = Attributes::of(bytes);
    while let Some(a) = attributes.next() {
        fields.take(a);
    }
    attributes.is_short()
}
