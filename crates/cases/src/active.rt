ghost use Rattle.std.specs.Prelude.{◌≡◌, ℕ, ◌<◌};
ghost use Rattle.snippet.specs.Meant.{sizes_of, program_of};
ghost use Rattle.runs.specs.Runs.{idle};
ghost use Rattle.marks.specs.Marks.{marked};
ghost use Rattle.cases.specs.Active.{is_active};

use marks::Marks;
use runs::{Registers, never_idle, run};
use snippet::Snippet;
use trace::Event;

// Whether a run is idle.
fn is_idle(snippet: &Snippet, number: u16) -> bool
    requires { number < snippet.now.runs }
    ensures { result ≡ idle (sizes_of snippet.now) (program_of snippet.now) number }
{
    let mut events = [Event::BLANK; 32];
    let mut registers = Registers::new();
    match run(snippet, number, &mut events, &mut registers) {
        Ok(ran) => ran.idle,
        Err(_) => unreachable(),
    }
}

// The runs that are not idle. Where none can be idle, none is carried out.
pub(crate) fn active_runs(snippet: &Snippet) -> Marks
    ensures { (k : ℕ) → marked result k ≡ is_active (sizes_of snippet.now) (program_of snippet.now) k }
{
    let all = never_idle(snippet);
    let mut active = Marks::none();
    for k in 0..snippet.runs {
        if all || !is_idle(snippet, k) {
            active.add(k);
        }
    }
    active
}
