ghost use Rattle.parts.specs.Law.{HandIns as OnlyHandIns};
ghost use Rattle.parts.specs.Left.{left};
ghost use Rattle.stream.specs.OnlyHandIns.{HandIns-prop};

use crate::named::Named;
use parts::Parts;

/// The hand-ins of a stream that have not been judged yet.
#[derive(Clone, Copy)]
pub(crate) struct HandIns<'a> {
    pub(crate) parts: Parts<'a>,
    ghost only: { OnlyHandIns (left parts) } by { HandIns-prop (left parts) },
}

/// A stream that can be judged: the model that it names, the bytes of its pair, and its hand-ins.
#[derive(Clone, Copy)]
pub(crate) struct Opened<'a> {
    pub(crate) model: Named,
    pub(crate) file: &'a [u8],
    pub(crate) hand_ins: HandIns<'a>,
}
