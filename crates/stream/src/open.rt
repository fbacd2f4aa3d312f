ghost use Rattle.stream.specs.Opened.{OpenedAs};

use crate::named::{Named, UNFIT};
use crate::opened::{HandIns, Opened};
use parts::{Part, Parts};
use trace::Refusal;

/// The most bytes that a stream can have.
const LONGEST: usize = 32768;

impl<'a> Opened<'a> {
    // Takes the first two parts of a stream.
    pub(crate) fn new(stream: &'a [u8]) -> Result<Opened<'a>, Refusal>
        ensures { OpenedAs stream.now result }
    {
        if stream.len() > LONGEST {
            return Err(UNFIT);
        }
        let mut parts = Parts::new(stream);
        let Some(Part::Model { byte, .. }) = parts.next() else {
            return Err(UNFIT);
        };
        let model = Named::try_from(byte)?;
        let Some(Part::Pair { bytes, .. }) = parts.next() else {
            // a pair follows the model byte, of no bytes where the stream ends
            unreachable()
        };
        Ok(Opened {
            model,
            file: bytes,
            hand_ins: HandIns { parts },
        })
    }
}
