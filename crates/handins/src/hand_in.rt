ghost use Rattle.std.specs.Prelude.{◌≡◌, ◌≤◌, length};

use rewrite::Step;

/// A hand-in as it was read. Its steps are the first `count`.
#[derive(Clone, Copy)]
pub struct HandIn {
    pub replacement: u16,
    pub original: u16,
    // an array and how much of it counts: nothing here allocates, and a hand-in is copied
    pub steps: [Step; 64],
    pub count: usize,
    ghost full: { length steps ≡ 64 },
    ghost few: { count ≤ 64 },
}
