// What passes or sweeps leave of a network's events, whatever they found.
ghost use Rattle.std.specs.Prelude.{◌≡◌, length};

use crate::arrays::Network;

#[derive(Clone, Copy)]
pub(crate) struct Left<'a> {
    pub(crate) net: &'a Network<'a>,
    pub(crate) sums: &'a [i64],
    pub(crate) parents: &'a [u16],
    ghost long: { length sums.now ≡ net.now.events },
}
