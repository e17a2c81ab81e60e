// A refusal as document 01 gives it: its number, and its place.

ghost use Rattle.std.specs.Prelude.{◌≡◌};
ghost use Rattle.dstree.specs.Refusals.{number_of, place_of};
ghost use Rattle.tables.specs.Answers.{word_of};

use crate::Refusal;

// The table's number. A program that numbers the words from 0, or gives one number to two of them, does not meet this.
#[tactic(auto, unfolding(dstree::specs::Refusals::number_of, crate::specs::Answers::word_of))]
pub fn number(why: Refusal) -> u64
    ensures { result ≡ number_of (word_of why) }
{
    match why {
        Refusal::Measure => 1,
        Refusal::ShortTable => 2,
        Refusal::Spoiled => 3,
        Refusal::WrongTrace => 4,
        Refusal::Full => 5,
        Refusal::Empty => 6,
        Refusal::ShortTrail => 7,
        Refusal::SheetLength => 8,
        Refusal::TornBlock(_block) => 9,
        Refusal::BadSheet => 10,
        Refusal::BadK => 11,
        Refusal::BadRecording => 12,
        Refusal::LooseRecord => 13,
        Refusal::BadBatch => 14,
        Refusal::SampleRange => 15,
        Refusal::BadEdges => 16,
        Refusal::UnlikeLibraries => 17,
        Refusal::NoLeaves => 18,
        Refusal::CrossedRange => 19,
    }
}

// The first block at fault for a torn block, else 0.
#[tactic(auto, unfolding(dstree::specs::Refusals::place_of, crate::specs::Answers::word_of))]
pub fn place(why: Refusal) -> u64
    ensures { result ≡ place_of (word_of why) }
{
    match why {
        Refusal::Measure => 0,
        Refusal::ShortTable => 0,
        Refusal::Spoiled => 0,
        Refusal::WrongTrace => 0,
        Refusal::Full => 0,
        Refusal::Empty => 0,
        Refusal::ShortTrail => 0,
        Refusal::SheetLength => 0,
        Refusal::TornBlock(block) => block,
        Refusal::BadSheet => 0,
        Refusal::BadK => 0,
        Refusal::BadRecording => 0,
        Refusal::LooseRecord => 0,
        Refusal::BadBatch => 0,
        Refusal::SampleRange => 0,
        Refusal::BadEdges => 0,
        Refusal::UnlikeLibraries => 0,
        Refusal::NoLeaves => 0,
        Refusal::CrossedRange => 0,
    }
}
