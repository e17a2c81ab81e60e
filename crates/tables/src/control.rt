// The control record's fields, and the refusals that lengths and measures alone decide.

ghost use Rattle.std.specs.Prelude.{◌≡◌, ℕ, ◌≤◌};
ghost use Rattle.dstree.specs.Measures.{measures, in_range, samples_needed, records_needed, most_samples, most_traces};
ghost use Rattle.dstree.specs.Refusals.{first_of};
ghost use Rattle.dstree.specs.Book.{control_short, tables_short};
ghost use Rattle.tables.specs.Layout.{layout};
ghost use Rattle.tables.specs.Tables.{field};
ghost use Rattle.tables.specs.Judge.{lent, lengths_by, measures_by, opening_conditions_of, lent_conditions_of};
ghost use Rattle.tables.specs.Answers.{found_by};

use crate::places::{CONTROL_FIELDS, RECORD_PLACES};
use crate::{Lengths, Measures, Refusal};

// A field of the control record, and 0 behind its end, so that reading one needs no judgement first.
pub fn field(control: &[u16], place: usize) -> u16
    ensures { result ≡ field control.now place }
{
    control.get(place).copied().unwrap_or(0)
}

// n from 1 to 256, capacity from 1 to 4,096, leaf size from 1 to 64.
pub fn measures_fit(measures: Measures) -> bool
    ensures { result ≡ in_range (measures_by measures) }
{
    let Measures {
        n,
        capacity,
        leaf_size,
    } = measures;
    if n < 1 {
        return false;
    }
    if 256 < n {
        return false;
    }
    if capacity < 1 {
        return false;
    }
    if 4096 < capacity {
        return false;
    }
    if leaf_size < 1 {
        return false;
    }
    leaf_size <= 64
}

// Samples that the measures need: a trace of n for each of the capacity.
pub fn samples_needed(n: u64, capacity: u64) -> usize
    requires { (n ≤ most_samples) × (capacity ≤ most_traces) }
    ensures { (leaf_size : ℕ) → result ≡ samples_needed (measures n capacity leaf_size) }
{
    (capacity as usize) * (n as usize)
}

// Node records that a capacity needs, as many as places of search work: a leaf for each trace, and one inner node fewer. No record for no
// trace.
pub fn records_needed(capacity: u64) -> usize
    requires { capacity ≤ most_traces }
    ensures { (n leaf_size : ℕ) → result ≡ records_needed (measures n capacity leaf_size) }
{
    (2 * capacity as usize).saturating_sub(1)
}

// The control record has too few places for its fields.
pub fn control_short(control: usize) -> bool
    ensures { (samples nodes links work labels : ℕ) → result ≡ control_short layout (lent control samples nodes links work labels) }
{
    control < CONTROL_FIELDS
}

// One of the other tables has too few places. Neither the control record's length nor the leaf size bears on it.
pub fn tables_short(lengths: Lengths, n: u64, capacity: u64) -> bool
    requires { (n ≤ most_samples) × (capacity ≤ most_traces) }
    ensures { (control leaf_size : ℕ) → result
        ≡ tables_short layout (lent control lengths.samples lengths.nodes lengths.links lengths.work lengths.labels)
        (measures n capacity leaf_size) }
{
    let Lengths {
        samples,
        nodes,
        links,
        work,
        labels,
        ..
    } = lengths;
    if samples < samples_needed(n, capacity) {
        return true;
    }
    let records = records_needed(capacity);
    if nodes < records * RECORD_PLACES {
        return true;
    }
    if links < capacity as usize {
        return true;
    }
    if work < records {
        return true;
    }
    labels < capacity as usize
}

// What opening refuses: 1, then 2.
pub fn judge_opening(lengths: Lengths, measures: Measures) -> Result<(), Refusal>
    ensures { found_by result ≡ first_of (opening_conditions_of (lengths_by lengths) (measures_by measures)) }
{
    if !measures_fit(measures) {
        return Err(Refusal::Measure);
    }
    if control_short(lengths.control) {
        return Err(Refusal::ShortTable);
    }
    if tables_short(lengths, measures.n, measures.capacity) {
        return Err(Refusal::ShortTable);
    }
    Ok(())
}

// What every call that is lent made tables refuses before it tests their contents: a short control record (2), its measures (3), another
// short table (2).
pub fn judge_lent(lengths: Lengths, measures: Measures) -> Result<(), Refusal>
    ensures { found_by result ≡ first_of (lent_conditions_of (lengths_by lengths) (measures_by measures)) }
{
    if control_short(lengths.control) {
        return Err(Refusal::ShortTable);
    }
    if !measures_fit(measures) {
        return Err(Refusal::Spoiled);
    }
    if tables_short(lengths, measures.n, measures.capacity) {
        return Err(Refusal::ShortTable);
    }
    Ok(())
}
