// What a batch refuses: what every call on made tables does, then another number of queries than 1 to 16 or a list of another length
// (14), then a run of another length (4), a sample outside the limits (15), no trace stored (6), and a trail with fewer places than
// leaves (7).

ghost use Rattle.std.specs.Prelude.{◌≡◌, List, ◌++◌, ℕ, ◌*◌, ◌≤◌, ℤ, length};
ghost use Rattle.dstree.specs.Batch.{is_batch};
ghost use Rattle.dstree.specs.Refusals.{first_of};
ghost use Rattle.dstree.specs.Measures.{most_samples};
ghost use Rattle.tables.specs.Layout.{n_place, node_count_place, record_places, node_places};
ghost use Rattle.tables.specs.Tables as t;
ghost use Rattle.tables.specs.Tables.{tables};
ghost use Rattle.tables.specs.Lent.{tables_before};
ghost use Rattle.tables.specs.Answers.{found_by, made_conditions};
ghost use Rattle.calls.specs.Effects.{batch_conditions_in};

use query_judging::judge_run;
use segment::{Sample, Word};
use tables::Refusal;
use tables::control::field;
use tables::lent::Lent;
use tables::numbers::wide;
use tables::places::N;
use well_formed::judging::judge_tables;

// 1 to 16 queries, and a list of as many records. A longer list is no batch's either.
fn is_batch(many: usize, places: usize) -> bool
    ensures { result ≡ is_batch many places }
{
    if many < 1 {
        return false;
    }
    if 16 < many {
        return false;
    }
    places == many
}

// What is refused behind the tables.
fn judge_own(
    control: &[u16],
    nodes: &[i64],
    queries: &[Sample],
    many: usize,
    places: usize,
    trail: &[u16],
) -> Result<(), Refusal>
    requires { (t.field control.now node_count_place * record_places ≤ length nodes.now)
        × (t.field control.now node_count_place ≤ node_places) × (t.field control.now n_place ≤ most_samples) }
    ensures { (samples : List ℤ) (links work : List ℕ) → found_by result ≡ first_of (batch_conditions_in
        (tables control.now samples nodes.now links work) many places
        queries.now trail.now) }
{
    if !is_batch(many, places) {
        return Err(Refusal::BadBatch);
    }
    let n = wide(field(control, N));
    judge_run(control, nodes, queries, n * many, trail)
}

// The tables one by one: a match on what it answers of them as one value is not covered by the borrow checker yet.
pub fn judge(
    control: &[u16],
    samples: &[Word],
    nodes: &[i64],
    links: &[u16],
    work: &[u64],
    labels: &[u64],
    queries: &[Sample],
    many: usize,
    places: usize,
    trail: &[u16],
) -> Result<(), Refusal>
    ensures { found_by result ≡ first_of (made_conditions
        (tables_before control samples nodes links work labels)
        ++ batch_conditions_in
        (tables_before control samples nodes links work labels)
        many places queries.now trail.now) }
{
    let lent = Lent {
        control,
        samples,
        nodes,
        links,
        work,
        labels,
    };
    judge_tables(lent)?;
    judge_own(control, nodes, queries, many, places, trail)
}
