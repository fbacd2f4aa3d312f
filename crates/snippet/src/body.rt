ghost use Rattle.std.specs.Prelude.{◌≡◌, ◌≤◌, true, length, take};
ghost use Rattle.snippet.specs.Layout.{block, flat_b};
ghost use Rattle.snippet.specs.Keeps.{sizes, keeps_b};
ghost use Rattle.snippet.specs.declared.body.TheConstants.{MOST};

use crate::limits::Limits;
use crate::statement::Statement;

// How many statements a body has at most, inner ones counted.
pub(crate) const MOST: usize = 32;

/// A list of statements as it was read: the first `len`, each before those of its blocks. Their
/// operands are in range, and the blocks at most eight deep.
#[derive(Clone, Copy)]
pub struct Body {
    pub limits: Limits,
    // an array and how much of it counts, in the place of boxes: nothing here allocates
    pub statements: [Statement; MOST],
    pub len: usize,
    ghost full: { length statements ≡ MOST },
    ghost few: { len ≤ MOST },
    ghost laid: { take len statements ≡ flat_b (block statements 0 len) },
    ghost kept: { keeps_b (sizes limits) 0 (block statements 0 len) ≡ true },
}
