// A block whose axes and strides are within the limits.
#![tactic(auto)]

ghost use Rattle.spatial.specs.Refusals.{Limited};

use crate::Block;

#[derive(Clone, Copy)]
pub struct Bounded<'a> {
    pub block: Block<'a>,
    ghost limited: { Limited block },
}
