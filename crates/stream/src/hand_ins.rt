ghost use Rattle.std.specs.Iterator.{item_count};
ghost use Rattle.stream.specs.Files.{files, Takes};

use crate::opened::HandIns;
use parts::Part;

impl<'a> Iterator for HandIns<'a> {
    type Item = &'a [u8];

    ghost next_gives = { Takes };

    ghost remaining = { item_count files };

    fn next(&mut self) -> Option<&'a [u8]> {
        match self.parts.next() {
            Some(Part::HandIn { bytes, .. }) => Some(bytes),
            _ => None,
        }
    }
}
