// The answer of a sheet that was read, as a value: the first candidate of its trees, the floor and the verdict.
#![tactic(auto)]

ghost use Rattle.cuts.specs.Answer.{answer};
ghost use Rattle.sheet.specs.Sheet.{current};
ghost use Rattle.arrays.specs.Sheets.{network_of};
ghost use Rattle.search_answer.specs.Answered.{AnswerSays};

use arrays::sheets::Sheet;
use packing::{Verdict, floor_of};
use search_sheet::{Reported, search_trees};

// The reported candidate with its side, the floor and the verdict.
#[derive(Drop)]
pub struct Answer {
    pub best: Reported,
    pub floor: u64,
    pub verdict: Verdict,
}

// The answer of a sheet that was read.
pub fn answer_sheet(n: &Sheet) -> Answer
    ensures { AnswerSays result (answer current.rules (network_of n.now)) }
{
    let best = search_trees(n);
    let weight = best.found.weight;
    let floor = floor_of(n.bytes, n.layout, &n.links.weights, weight);
    let verdict = Verdict::of(floor, weight);
    Answer {
        best,
        floor,
        verdict,
    }
}
