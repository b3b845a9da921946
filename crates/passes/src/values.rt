// The values of a network's events, as they are read.
ghost use Rattle.std.specs.Prelude.{◌≡◌, length};
ghost use Rattle.passes.specs.Values.{InRange};

use crate::arc::Arc;
use crate::arrays::Network;

// None is so large that a sum would not fit.
#[derive(Clone, Copy)]
pub(crate) struct Values<'a> {
    pub(crate) net: &'a Network<'a>,
    pub(crate) all: &'a [i64],
    ghost long: { length all.now ≡ net.now.events },
    ghost in_range: { InRange all.now },
}

impl<'a> Values<'a> {
    ghost use Rattle.std.specs.Prelude.{◌≡◌, ◌<◌, ◌+ℤ◌};
    ghost use Rattle.walks.specs.Certificate.{weighted};
    ghost use Rattle.passes.specs.Arcs.{arc_of};
    ghost use Rattle.passes.specs.Values.{value};

    // The value that comes along an arc: that where it begins, and its weight.
    pub(crate) fn along(self, arc: Arc) -> i64
        requires { arc.from < self.net.now.events }
        ensures { result ≡ value self.entry.all.now arc.from +ℤ (weighted (arc_of arc)).adds }
    {
        self.all[arc.from] + arc.weight()
    }
}
