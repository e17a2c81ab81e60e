// The numbers of a reply.

ghost use Rattle.dstree.specs.Book.{refusing};
ghost use Rattle.opening.specs.Opened as opened;
ghost use Rattle.adding.specs.Answered as added;
ghost use Rattle.matching.specs.Answered as found;
ghost use Rattle.sheet_writing.specs.Answered as written;
ghost use Rattle.sheet_reading.specs.Answered as read;
ghost use Rattle.tables.specs.Answers.{word_of};
ghost use Rattle.std.specs.Prelude.{◌≡◌, ◌+◌, ◌^◌, ◌≤◌, ◌<◌, List, ℕ, length};
ghost use Rattle.std.proofs.Math.Seq.{paste};
ghost use Rattle.replay.specs.ReplyRows.{with_row, reply_row};
ghost use Rattle.replay.specs.Script.{tells_row, next_row};

use matching::Found;
use tables::Refusal;
use tables::answers::{number, place};

// Places of a reply's row.
pub const REPLY_PLACES: usize = 5;

// Numbers laid over those from a place on. `sheet::fields::put_bytes` does so with bytes; each is one line of the library.
pub fn lay(replies: &mut [u64], at: usize, numbers: &[u64])
    requires { at + length numbers.now ≤ length replies.old }
    ensures { replies.new ≡ paste replies.old at numbers.now (length numbers.now) }
{
    replies[at..at + numbers.len()].copy_from_slice(numbers);
}

// Row k of the replies, if there is such a row.
pub fn store_reply(replies: &mut [u64], k: usize, numbers: [u64; 5])
    ensures { replies.new ≡ with_row replies.old k numbers }
{
    if k < replies.len() / REPLY_PLACES {
        lay(replies, k * REPLY_PLACES, &numbers);
    }
}

// What a row's turn tells, in row k, and how many rows are numbers then.
#[tactic(auto, unfolding(crate::specs::Script::tells_row, crate::specs::Script::next_row))]
pub fn tell(replies: &mut [u64], k: usize, numbers: Option<[u64; 5]>) -> usize
    requires { k + 1 < 2 ^ 64 }
    ensures { (replies.new ≡ tells_row numbers k replies.old) × (result ≡ next_row numbers k) }
{
    let Some(numbers) = numbers else {
        return k;
    };
    store_reply(replies, k, numbers);
    k + 1
}

// A refusal, as numbers.
pub fn of_refusal(why: Refusal) -> [u64; 5]
    ensures { result ≡ reply_row (refusing (word_of why)) }
{
    [number(why), place(why), 0, 0, 0]
}

// ---- the answers of the five calls

// An opening's or a reading's, which say only that they succeeded.
pub fn of_done(answer: Result<(), Refusal>) -> [u64; 5]
    ensures opened { result ≡ reply_row (opened.answer_by answer) }
    ensures read { result ≡ reply_row (read.answer_by answer) }
{
    match answer {
        Ok(()) => [0; 5],
        Err(why) => of_refusal(why),
    }
}

// An adding's, which is a trace's number, or a writing's, which is how many blocks there are. The sheet is told by the slice that the
// writing leaves it in.
pub fn of_number(answer: Result<u64, Refusal>) -> [u64; 5]
    ensures added { result ≡ reply_row (added.answer_by answer) }
    ensures written { (sheet : List ℕ) → result ≡ reply_row (written.answer_by answer sheet) }
{
    match answer {
        Ok(number) => [0, number, 0, 0, 0],
        Err(why) => of_refusal(why),
    }
}

// The trail is told by the slice that the match leaves it in, so that any list may stand for it here.
pub fn of_found(answer: Result<Found, Refusal>) -> [u64; 5]
    ensures { (trail : List ℕ) → result ≡ reply_row (found.answer_by answer trail) }
{
    match answer {
        Ok(seen) => [0, seen.trace, seen.distance, seen.leaves, seen.traces],
        Err(why) => of_refusal(why),
    }
}
