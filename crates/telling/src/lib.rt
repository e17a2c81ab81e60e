// An answer as numbers: its code is given back, its values go into a lent slice, in order. An adding tells the trace's number, a match
// trace, distance, leaves read and traces read, the remote's match the fault code behind these, a listing leaves read, traces read and how
// many it lists, a writing its blocks, an import its traces, an export its bytes, a batch leaves read, the bench's call code and serial. A
// match over two libraries tells which of them, 0 the factory's and 1 the bench's, then what a match does, and how many of the leaves are
// the factory's. A match with a limit tells what a match does, whether it is settled, 1 or 0, and the bound; for a clipped sweep it is how
// many traces are listed. An opening, a reading, a check and a report of bands tell nothing, a refusal its place.
#![tactic(auto)]

ghost use Rattle.std.specs.Prelude.{◌≡◌, List, ℕ, ◌^◌, ◌≤◌, ◌<◌, length};
ghost use Rattle.dstree.specs.Matching.{Near};
ghost use Rattle.dstree.specs.Pair.{by_which};
ghost use Rattle.dstree.specs.Book.{refusing};
ghost use Rattle.tables.specs.Answers.{word_of};
ghost use Rattle.opening.specs.Opened as opened;
ghost use Rattle.adding.specs.Answered as added;
ghost use Rattle.matching.specs.Answered as matched;
ghost use Rattle.listing.specs.Answered as listed;
ghost use Rattle.sheet_writing.specs.Answered as writing;
ghost use Rattle.sheet_reading.specs.Answered as reading;
ghost use Rattle.importing.specs.Answered as importing;
ghost use Rattle.exporting.specs.Answered as exporting;
ghost use Rattle.checking.specs.Answered as checking;
ghost use Rattle.batching.specs.Answered as batching;
ghost use Rattle.labelling.specs.Answered as labelling;
ghost use Rattle.remote.specs.Answered as remote;
ghost use Rattle.banding.specs.Answered as banding;
ghost use Rattle.pair_search.specs.BothSearched.{which_by};
ghost use Rattle.pairing.specs.Answered as pairing;
ghost use Rattle.limiting.specs.Answered as limiting;
ghost use Rattle.clipping.specs.Answered as clipping;
ghost use Rattle.calls.specs.Numbers.{laid};
ghost use Rattle.telling.specs.COutcome.{returned, returned_of};

use labelling::Labelled;
use limiting::Limited;
use listing::Listed;
use matching::Found;
use pair_search::turns::Whose;
use pairing::Paired;
use remote::RemoteFound;
use tables::Refusal;

// Values over the first places; those for which there is no place are left out. The code is 0.
fn tell(values: &[u64], out: &mut [u64]) -> u64
    ensures { returned result out.new ≡ returned 0 (laid values.now out.old) }
{
    let count = values.len().min(out.len());
    out[..count].copy_from_slice(&values[..count]);
    0
}

fn tell_refusal(why: Refusal, out: &mut [u64]) -> u64
    ensures { returned result out.new ≡ returned_of (refusing (word_of why)) out.old }
{
    let place = tables::answers::place(why);
    let number = tables::answers::number(why);
    tell(&[place], out);
    number
}

// Of a call that answers only that it succeeded. A report is told by the slice that its call leaves it in, so that any list may stand for it.
pub fn tell_done(answer: Result<(), Refusal>, out: &mut [u64]) -> u64
    ensures opened { returned result out.new ≡ returned_of (opened.answer_by answer) out.old }
    ensures read { returned result out.new ≡ returned_of (reading.answer_by answer) out.old }
    ensures checked { returned result out.new ≡ returned_of (checking.answer_by answer) out.old }
    ensures banded { (bands : ℕ) (list : List ℕ) → returned result out.new ≡ returned_of (banding.answer_by answer bands list) out.old }
{
    match answer {
        Ok(()) => 0,
        Err(why) => tell_refusal(why, out),
    }
}

// Of a call that answers one number. Sheet, recording, list, records and trail are told by the slices that the calls leave them in.
pub fn tell_number(answer: Result<u64, Refusal>, out: &mut [u64]) -> u64
    ensures added { returned result out.new ≡ returned_of (added.answer_by answer) out.old }
    ensures written { (sheet : List ℕ) → returned result out.new ≡ returned_of (writing.answer_by answer sheet) out.old }
    ensures imported { returned result out.new ≡ returned_of (importing.answer_by answer) out.old }
    ensures exported { (buffer : List ℕ) → returned result out.new ≡ returned_of (exporting.answer_by answer buffer) out.old }
    ensures batched { (records : List Near) (trail : List ℕ)
        → returned result out.new ≡ returned_of (batching.answer_by answer records trail) out.old }
    ensures clipped { (list : List ℕ) → returned result out.new ≡ returned_of (clipping.answer_by answer list) out.old }
{
    match answer {
        Ok(number) => tell(&[number], out),
        Err(why) => tell_refusal(why, out),
    }
}

// The trail is told by the slice that the match leaves it in, so that any list may stand for it here.
pub fn tell_found(answer: Result<Found, Refusal>, out: &mut [u64]) -> u64
    ensures { (trail : List ℕ) → returned result out.new ≡ returned_of (matched.answer_by answer trail) out.old }
{
    match answer {
        Ok(found) => tell(
            &[found.trace, found.distance, found.leaves, found.traces],
            out,
        ),
        Err(why) => tell_refusal(why, out),
    }
}

// The trail and the list are told by the slices that the listing leaves them in.
pub fn tell_listed(answer: Result<Listed, Refusal>, out: &mut [u64]) -> u64
    ensures { (trail list : List ℕ)
        → returned result out.new ≡ returned_of (listed.answer_by answer trail list) out.old }
{
    match answer {
        Ok(listed) => tell(&[listed.leaves, listed.traces, listed.many], out),
        Err(why) => tell_refusal(why, out),
    }
}

pub fn tell_label(answer: Result<Labelled, Refusal>, out: &mut [u64]) -> u64
    ensures { returned result out.new ≡ returned_of (labelling.answer_by answer) out.old }
{
    match answer {
        Ok(label) => tell(&[label.code, label.serial], out),
        Err(why) => tell_refusal(why, out),
    }
}

// The trail is told by the slice that the remote's call leaves it in.
pub fn tell_remote(answer: Result<RemoteFound, Refusal>, out: &mut [u64]) -> u64
    ensures { (trail : List ℕ) → returned result out.new ≡ returned_of (remote.answer_by answer trail) out.old }
{
    match answer {
        Ok(found) => tell(
            &[
                found.trace,
                found.distance,
                found.leaves,
                found.traces,
                found.code,
            ],
            out,
        ),
        Err(why) => tell_refusal(why, out),
    }
}

fn library_number(library: Whose) -> u64
    ensures { result ≡ by_which (which_by library) 0 1 }
{
    match library {
        Whose::Factory => 0,
        Whose::Bench => 1,
    }
}

// The trails are told by the slices that the call leaves them in. The factory's leaves are told by their number too, so that its trail has
// to hold them.
pub fn tell_paired(answer: Result<Paired, Refusal>, out: &mut [u64]) -> u64
    requires { pairing.leaves_by answer < 2 ^ 64 }
    ensures { (trail bench_trail : List ℕ) → pairing.factory_leaves_by answer ≤ length trail
        → returned result out.new ≡ returned_of (pairing.answer_by answer trail bench_trail) out.old }
{
    match answer {
        Ok(p) => {
            let which = library_number(p.library);
            let leaves = p.leaves + p.bench_leaves;
            tell(
                &[which, p.trace, p.distance, leaves, p.traces, p.leaves],
                out,
            )
        }
        Err(why) => tell_refusal(why, out),
    }
}

// 1 is told of a settled answer, with a bound of 0; else 0, with the first unread leaf's.
pub fn tell_limited(answer: Result<Limited, Refusal>, out: &mut [u64]) -> u64
    ensures { (trail : List ℕ) → returned result out.new ≡ returned_of (limiting.answer_by answer trail) out.old }
{
    match answer {
        Ok(l) => match l.unread {
            None => tell(&[l.trace, l.distance, l.leaves, l.traces, 1, 0], out),
            Some(bound) => tell(&[l.trace, l.distance, l.leaves, l.traces, 0, bound], out),
        },
        Err(why) => tell_refusal(why, out),
    }
}
