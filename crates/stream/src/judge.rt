ghost use Rattle.std.specs.Prelude.{◌≡◌, [], IfOk, OnOk};
ghost use Rattle.pairs.specs.Meant.{meant};
ghost use Rattle.cases.specs.Standing.{Follows, Stands};
ghost use Rattle.stream.specs.Models.{byte_of, meaning_of};
ghost use Rattle.stream.specs.Printed.{cause_line, Lines, FilesPrinted, Printed, PrintedOnce};
ghost use Rattle.stream.specs.Handed.{Handed};
ghost use Rattle.stream.specs.Files.{files};

use crate::named::Named;
use crate::opened::{HandIns, Opened};
use crate::print::print;
use cases::Case;
use lines::Line;
use ordering::{Clr, Ibm390, Model, Pso, Sc, Tso};
use pairs::{Pair, read_pair};
use std::alloc::{AllocError, Global};
use trace::Refusal;

// The one line that is printed where nothing is judged.
fn decline(heap: Global, refusal: Refusal) -> Result<Vec<u8>, AllocError>
    ensures { IfOk result (λ v. v.items ≡ cause_line refusal) }
{
    let mut out = Vec::new(heap);
    print(Line::Answer(Err(refusal)), &mut out)?;
    Ok(out)
}

// Judges every hand-in, with a line for each.
fn hand_in_all<M: Model>(
    case: &mut Case<M>,
    hand_ins: HandIns<'_>,
    out: &mut Vec<u8>,
) -> Result<(), AllocError>
    requires follows { Follows M.meaning case.old [] }
    requires stands { Stands M.meaning case.old [] }
    requires empty { out.old.items ≡ [] }
    ensures { OnOk result (Handed M.meaning case.old case.new (files hand_ins.entry) out.new.items) }
{
    for bytes in hand_ins {
        print(Line::Answer(case.hand_in(bytes)), out)?;
    }
    Ok(())
}

// Judges the hand-ins, and then reports.
fn judge_with<M: Model + Drop>(
    heap: Global,
    model: M,
    pair: Pair,
    hand_ins: HandIns<'_>,
) -> Result<Vec<u8>, AllocError>
    ensures { IfOk result (λ v. Lines M.NUMBER (M.meaning model) (meant pair) (files hand_ins.entry) v.items) }
{
    let mut case = Case::open(pair, model);
    let mut out = Vec::new(heap);
    hand_in_all(&mut case, hand_ins, &mut out)?;
    print(Line::Report(case.seal().report()), &mut out)?;
    Ok(out)
}

// Each model is a type of its own, with its number as a constant, so the name picks the function.
fn judge_pair(
    heap: Global,
    model: Named,
    pair: Pair,
    hand_ins: HandIns<'_>,
) -> Result<Vec<u8>, AllocError>
    ensures { IfOk result (λ v. Lines (byte_of model) (meaning_of model) (meant pair) (files hand_ins.entry) v.items) }
{
    match model {
        Named::Sc => judge_with(heap, Sc, pair, hand_ins),
        Named::Ibm390 => judge_with(heap, Ibm390, pair, hand_ins),
        Named::Tso => judge_with(heap, Tso, pair, hand_ins),
        Named::Pso => judge_with(heap, Pso, pair, hand_ins),
        Named::Clr => judge_with(heap, Clr, pair, hand_ins),
    }
}

// Judges the pair and the hand-ins of a stream.
fn judge_opened(heap: Global, opened: Opened<'_>) -> Result<Vec<u8>, AllocError>
    ensures { IfOk result (λ v. FilesPrinted (byte_of opened.entry.model) (meaning_of opened.entry.model) opened.entry.file.now (files opened.entry.hand_ins) v.items) }
{
    match read_pair(opened.file) {
        Ok(pair) => judge_pair(heap, opened.model, pair, opened.hand_ins),
        Err(refusal) => decline(heap, refusal),
    }
}

/// All that is printed for a stream.
#[tactic(auto, using(crate::proofs::Single::printed_once))]
pub fn judge_stream(heap: Global, stream: &[u8]) -> Result<Vec<u8>, AllocError>
    ensures printed { IfOk result (λ v. Printed stream.now v.items) }
    ensures once { PrintedOnce stream.now }
{
    match Opened::new(stream) {
        Ok(opened) => judge_opened(heap, opened),
        Err(refusal) => decline(heap, refusal),
    }
}
