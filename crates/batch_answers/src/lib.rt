// One answer record for each query of a batch, stored in the caller's list, a lent slice of structs.
#![tactic(auto)]

ghost use Rattle.std.specs.Prelude.{◌≡◌};
ghost use Rattle.batch_answers.specs.AnswerRecords.{store_outcome, store_of};

use batching::{AnswerRecord, BatchFound};

// Stores the records of a batch, if the list has a place for each query and no more. Says whether it did.
//
// Two wrong programs that the contract rules out: one that stores each record a place later, and one that stores records into a list of
// another length.
pub fn store(found: BatchFound, answers: &mut [AnswerRecord]) -> bool
    ensures { store_outcome result answers.new ≡ store_of found answers.old }
{
    if answers.len() != found.count {
        return false;
    }
    for i in 0..answers.len() {
        answers[i] = batching::answer_at(found, i);
    }
    true
}
