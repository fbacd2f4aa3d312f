ghost use Rattle.std.specs.Prelude.{◌≡◌, take};
ghost use Rattle.std.specs.Iterator.{item_count};
ghost use Rattle.parts.specs.Cut.{part_length, parts_of};
ghost use Rattle.parts.specs.Law.{Rejoins};
ghost use Rattle.parts.specs.Left.{left, Takes};

use crate::cutter::{Parts, Stage};
use crate::part::Part;

// The file that the bytes begin with: as many of them as it states, or all where they end before.
fn first_file(bytes: &[u8]) -> &[u8]
    ensures { result.now ≡ take (part_length bytes.now) bytes.now }
{
    let [_, high, low, ..] = bytes else {
        return bytes;
    };
    let whole = 3 + usize::from(u16::from_be_bytes([*high, *low]));
    &bytes[..whole.min(bytes.len())]
}

impl<'a> Parts<'a> {
    /// All parts of a stream.
    pub fn new(stream: &'a [u8]) -> Parts<'a>
        ensures parts { left result ≡ parts_of stream.now }
        ensures rejoins { Rejoins stream.now }
    {
        Parts {
            stream,
            at: 0,
            stage: Stage::Model,
        }
    }
}

impl<'a> Iterator for Parts<'a> {
    type Item = Part<'a>;

    ghost next_gives = { λ before part after. Takes before part after × (after.stream ≡ before.stream) };

    ghost remaining = { item_count left };

    /// The next part, if there is one.
    fn next(&mut self) -> Option<Part<'a>> {
        let at = self.at;
        let stream = self.stream;
        match self.stage {
            Stage::Model => {
                let byte = *stream.get(at)?;
                self.at = at + 1;
                self.stage = Stage::Pair;
                Some(Part::Model { byte, at })
            }
            Stage::Pair => {
                let bytes = first_file(&stream[at..]);
                self.at = at + bytes.len();
                self.stage = Stage::HandIns;
                Some(Part::Pair { bytes, at })
            }
            Stage::HandIns => {
                if at == stream.len() {
                    return None;
                }
                let bytes = first_file(&stream[at..]);
                self.at = at + bytes.len();
                Some(Part::HandIn { bytes, at })
            }
        }
    }
}
