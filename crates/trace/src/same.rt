ghost use Rattle.std.specs.Prelude.{◌≡◌, MatchBool, ◌≢◌};

use crate::event::Event;

/// Whether two words have the same length and the same event at each place.
pub fn same_word(a: &[Event], b: &[Event]) -> bool
    ensures { MatchBool result (a.now ≡ b.now) (a.now ≢ b.now) }
{
    if a.len() != b.len() {
        return false;
    }
    // event by event, with its place, which is the form that docs/DECISIONS.md gives it
    for (i, event) in a.iter().enumerate() {
        if *event != b[i] {
            return false;
        }
    }
    true
}
