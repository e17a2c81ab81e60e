// Which stored traces could be the match of a sweep of which only a low and a high figure is known per sample.
#![tactic(auto)]

pub mod judging; // what a clipped sweep refuses
pub mod passes; // the two passes over stored traces

ghost use Rattle.std.specs.Prelude.{◌≡◌, [], ◌∷◌, length};
ghost use Rattle.dstree.specs.Measures.{work_needed};
ghost use Rattle.dstree.specs.Clipped.{possible_matches};
ghost use Rattle.dstree.specs.Book.{clipping, over};
ghost use Rattle.tables.specs.Tables.{measures_of, filled};
ghost use Rattle.tables.specs.View.{traces_in};
ghost use Rattle.tables.specs.Lent.{tables_after_search, tables_before_search};
ghost use Rattle.calls.specs.Outcome.{outcome};
ghost use Rattle.calls.specs.Effects.{outcome_on};
ghost use Rattle.clipping.specs.Compared.{samples_only, Listable};
ghost use Rattle.clipping.specs.Answered.{answer_by};

use segment::{Sample, Word};
use tables::Refusal;
use tables::control::field;
use tables::lent::Lent;
use tables::numbers::{wide, wider};
use tables::places::{CAPACITY, N, TRACE_COUNT};

// The list, of tables and figures that are not refused. It uses no search work, and leaves it zero. Neither nodes nor links are lent.
fn list_possible(
    control: &[u16],
    samples: &[Word],
    lows: &[Sample],
    highs: &[Sample],
    work: &mut [u64],
    list: &mut [u16],
) -> usize
    requires { Listable (samples_only control.now samples.now) lows.now highs.now (length work.old) (length list.old) }
    ensures value { result ≡ (possible_matches (traces_in (samples_only control.now samples.now))
        lows.now highs.now).count }
    ensures list { list.new
        ≡ over (possible_matches (traces_in (samples_only control.now samples.now))
        lows.now highs.now).list list.old }
    ensures zero { work.new
        ≡ filled (work_needed (measures_of (samples_only control.now samples.now))) 0 work.old }
{
    let n = wide(field(control, N));
    let count = wide(field(control, TRACE_COUNT));
    let needed = tables::control::records_needed(wider(field(control, CAPACITY)));
    let limit = passes::smallest_greatest(samples, n, count, lows, highs);
    tables::loops::fill_first(work, needed, 0);
    passes::list_within(samples, n, count, lows, highs, limit, list)
}

// Lists, by number, every trace that could be the match of some sweep between the lows and the highs, and answers how many there are. Every
// refusal is decided before anything is written. The list's other places stay, and search work is left zero.
//
// Two wrong programs that the contract rules out: one that leaves out a trace whose least distance equals the smallest greatest, and one
// that takes a list with a place for each trace that is listed, and not for every trace that is stored.
pub fn match_clipped(
    control: &[u16],
    samples: &[Word],
    nodes: &[i64],
    links: &[u16],
    work: &mut [u64],
    labels: &[u64],
    list: &mut [u16],
    lows: &[Sample],
    highs: &[Sample],
) -> Result<u64, Refusal>
    ensures { outcome (answer_by result list.new)
        (tables_after_search control samples nodes links work labels)
        (list.new ∷ [])
        ≡ outcome_on (clipping lows.now highs.now list.old)
        (tables_before_search control samples nodes links work labels) }
{
    let lent = Lent {
        control,
        samples,
        nodes,
        links,
        work,
        labels,
    };
    judging::judge(lent, lows, highs, list)?;
    let count = list_possible(control, samples, lows, highs, work, list);
    Ok(count as u64)
}
