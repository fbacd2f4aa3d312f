ghost use Rattle.stream.specs.Models.{NamedBy};

use trace::{Cause, Refusal};

/// Why a stream cannot be judged.
pub(crate) const UNFIT: Refusal = Refusal {
    cause: Cause::Stream,
    place: 0,
};

/// The models that a stream can name.
#[derive(Clone, Copy)]
pub(crate) enum Named {
    Sc,
    Ibm390,
    Tso,
    Pso,
    Clr,
}

// The model that a byte names.
impl TryFrom<u8> for Named {
    type Error = Refusal;

    ghost try_from_gives = { NamedBy };

    fn try_from(byte: u8) -> Result<Named, Refusal> {
        match byte {
            1 => Ok(Named::Sc),
            2 => Ok(Named::Ibm390),
            3 => Ok(Named::Tso),
            4 => Ok(Named::Pso),
            5 => Ok(Named::Clr),
            _ => Err(UNFIT),
        }
    }
}
