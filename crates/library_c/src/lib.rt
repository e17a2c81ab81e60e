// The calls for C and for Rust: numbers and slices only, a slice as a pointer and then its length. Each is the call of the same name, and
// its contract is that call's own definition. The code is 0, or the number of the refusal; the answer's values go into the lent slice
// `out`, in order: adding, with a label or without one, the trace's number, a match the trace's number, the distance, leaves read and
// traces read, the remote's match these and the fault code, a match over two libraries which of them (0 the factory's, 1 the bench's), then
// what a match has, over both, and how many of the leaves are the factory's, a listing leaves read, traces read and how many it lists, a
// writing the number of blocks, an import the number of traces, an export the number of bytes, a batch leaves read, the bench's call for a
// label fault code and serial, a match with a limit what a match has, 1 if it is settled, else 0, and the bound of the first unread leaf, a
// clipped sweep how many traces are listed, a refusal its place; an opening, a reading, a check and a report of bands have none. A shorter
// `out` takes the first of them, and places behind them stay. The samples of a trace or a query are plain numbers, of which a call refuses
// those outside the limits; a place of the samples table is a word that has its sample in the high bits.
#![tactic(auto)]

pub mod version; // which layout of the tables this is for

ghost use Rattle.std.specs.Prelude.{◌≡◌, [], ◌∷◌, length};
ghost use Rattle.dstree.specs.Measures.{measures};
ghost use Rattle.dstree.specs.Labels.{label, no_label};
ghost use Rattle.dstree.specs.KNearest.{list_places};
ghost use Rattle.dstree.specs.Pair.{of_factory};
ghost use Rattle.dstree.specs.Book as book;
ghost use Rattle.tables.specs.Lent.{tables_after, tables_after_adding, tables_after_search, tables_before, tables_before_adding, tables_before_all, tables_before_search};
ghost use Rattle.calls.specs.Effects.{other_in, outcome_on};
ghost use Rattle.batch_answers.specs.AnswerRecords.{nears_of};
ghost use Rattle.pairing.specs.Parts.{lent_part, HandedBack};
ghost use Rattle.telling.specs.COutcome.{c_outcome, c_outcome_of};

use batching::AnswerRecord;
use segment::{Sample, Word};

// Two wrong programs that the contract rules out: one that gives the place as its code, and one that writes the place of a refusal into a
// place of `out` behind the first.
pub fn silkendoz_open(
    control: &mut [u16],
    samples: &mut [Word],
    nodes: &mut [i64],
    links: &mut [u16],
    work: &mut [u64],
    labels: &mut [u64],
    n: u64,
    capacity: u64,
    leaf_size: u64,
    out: &mut [u64],
) -> u64
    ensures { c_outcome result out.new
        (tables_after control samples nodes links work labels)
        []
        ≡ c_outcome_of (outcome_on (book.opening (measures n capacity leaf_size))
        (tables_before_all control samples nodes links work labels))
        out.old }
{
    let answer = opening::open(
        control, samples, nodes, links, work, labels, n, capacity, leaf_size,
    );
    telling::tell_done(answer, out)
}

// Two wrong programs that the contract rules out: one that tells the trace's number as its code, and one that clears `out` when it refuses.
pub fn silkendoz_add(
    control: &mut [u16],
    samples: &mut [Word],
    nodes: &mut [i64],
    links: &mut [u16],
    work: &[u64],
    labels: &mut [u64],
    trace: &[Sample],
    out: &mut [u64],
) -> u64
    ensures { c_outcome result out.new
        (tables_after_adding control samples nodes links work labels)
        []
        ≡ c_outcome_of (outcome_on (book.adding trace.now no_label)
        (tables_before_adding control samples nodes links work labels))
        out.old }
{
    let answer = adding::add(control, samples, nodes, links, work, labels, trace);
    telling::tell_number(answer, out)
}

// Two wrong programs that the contract rules out: one that takes the code's low byte alone, and one that tells the code for the trace's
// number.
pub fn silkendoz_add_labelled(
    control: &mut [u16],
    samples: &mut [Word],
    nodes: &mut [i64],
    links: &mut [u16],
    work: &[u64],
    labels: &mut [u64],
    trace: &[Sample],
    code: u16,
    serial: u32,
    out: &mut [u64],
) -> u64
    ensures { c_outcome result out.new
        (tables_after_adding control samples nodes links work labels)
        []
        ≡ c_outcome_of (outcome_on (book.adding trace.now (label code serial))
        (tables_before_adding control samples nodes links work labels))
        out.old }
{
    let answer = adding::add_labelled(
        control, samples, nodes, links, work, labels, trace, code, serial,
    );
    telling::tell_number(answer, out)
}

// Two wrong programs that the contract rules out: one that tells leaves and traces in the other order, and one that refuses a short `out`.
pub fn silkendoz_nearest(
    control: &[u16],
    samples: &[Word],
    nodes: &[i64],
    links: &[u16],
    work: &mut [u64],
    labels: &[u64],
    trail: &mut [u16],
    query: &[Sample],
    out: &mut [u64],
) -> u64
    ensures { c_outcome result out.new
        (tables_after_search control samples nodes links work labels)
        (trail.new ∷ [])
        ≡ c_outcome_of (outcome_on (book.matching query.now trail.old)
        (tables_before_search control samples nodes links work labels))
        out.old }
{
    let answer = matching::nearest(control, samples, nodes, links, work, labels, trail, query);
    telling::tell_found(answer, out)
}

// The list is lent as its places, two for each trace: its number and its distance.
//
// Two wrong programs that the contract rules out: one that tells k where fewer traces are stored, and one that tells how many places of the
// list it filled.
pub fn silkendoz_k_nearest(
    control: &[u16],
    samples: &[Word],
    nodes: &[i64],
    links: &[u16],
    work: &mut [u64],
    labels: &[u64],
    trail: &mut [u16],
    list: &mut [u64],
    query: &[Sample],
    k: u64,
    out: &mut [u64],
) -> u64
    ensures { c_outcome result out.new
        (tables_after_search control samples nodes links work labels)
        (trail.new ∷ list.new ∷ [])
        ≡ c_outcome_of (outcome_on (book.listing k query.now trail.old list.old)
        (tables_before_search control samples nodes links work labels))
        out.old }
{
    let answer = listing::k_nearest(
        control, samples, nodes, links, work, labels, trail, list, query, k,
    );
    telling::tell_listed(answer, out)
}

// Two wrong programs that the contract rules out: one that tells the number of bytes, and one that tells the blocks of a sheet that it
// refused.
pub fn silkendoz_write_sheet(
    control: &[u16],
    samples: &[Word],
    nodes: &[i64],
    links: &[u16],
    work: &[u64],
    labels: &[u64],
    sheet: &mut [u8],
    out: &mut [u64],
) -> u64
    ensures { c_outcome result out.new
        (tables_before control samples nodes links work labels)
        (sheet.new ∷ [])
        ≡ c_outcome_of (outcome_on (book.writing sheet.old)
        (tables_before control samples nodes links work labels))
        out.old }
{
    let answer = sheet_writing::write_sheet(control, samples, nodes, links, work, labels, sheet);
    telling::tell_number(answer, out)
}

// Two wrong programs that the contract rules out: one that tells place 0 for every torn sheet, and one that tells the number of traces
// read.
pub fn silkendoz_read_sheet(
    control: &mut [u16],
    samples: &mut [Word],
    nodes: &mut [i64],
    links: &mut [u16],
    work: &mut [u64],
    labels: &mut [u64],
    sheet: &[u8],
    out: &mut [u64],
) -> u64
    ensures { c_outcome result out.new
        (tables_after control samples nodes links work labels)
        []
        ≡ c_outcome_of (outcome_on (book.reading sheet.now)
        (tables_before_all control samples nodes links work labels))
        out.old }
{
    let answer = sheet_reading::read_sheet(control, samples, nodes, links, work, labels, sheet);
    telling::tell_done(answer, out)
}

// Two wrong programs that the contract rules out: one that tells the number of the last trace added, and one that tells how many traces fit
// of a file that it refuses.
pub fn silkendoz_import_recording(
    control: &mut [u16],
    samples: &mut [Word],
    nodes: &mut [i64],
    links: &mut [u16],
    work: &[u64],
    labels: &mut [u64],
    bytes: &[u8],
    out: &mut [u64],
) -> u64
    ensures { c_outcome result out.new
        (tables_after_adding control samples nodes links work labels)
        []
        ≡ c_outcome_of (outcome_on (book.importing bytes.now)
        (tables_before_adding control samples nodes links work labels))
        out.old }
{
    let answer = importing::import_recording(control, samples, nodes, links, work, labels, bytes);
    telling::tell_number(answer, out)
}

// Two wrong programs that the contract rules out: one that gives the number as the rate too, and one that tells the length of the buffer.
pub fn silkendoz_export_recording(
    control: &[u16],
    samples: &[Word],
    nodes: &[i64],
    links: &[u16],
    work: &[u64],
    labels: &[u64],
    buffer: &mut [u8],
    number: u64,
    rate: u64,
    out: &mut [u64],
) -> u64
    ensures { c_outcome result out.new
        (tables_before control samples nodes links work labels)
        (buffer.new ∷ [])
        ≡ c_outcome_of (outcome_on (book.exporting number rate buffer.old)
        (tables_before control samples nodes links work labels))
        out.old }
{
    let answer = exporting::export_recording(
        control, samples, nodes, links, work, labels, buffer, number, rate,
    );
    telling::tell_number(answer, out)
}

// Two wrong programs that the contract rules out: one that gives 3 for a loose record, and one that zeroes `out` when it accepts.
pub fn silkendoz_check_tables(
    control: &[u16],
    samples: &[Word],
    nodes: &[i64],
    links: &[u16],
    work: &[u64],
    labels: &[u64],
    out: &mut [u64],
) -> u64
    ensures { c_outcome result out.new
        (tables_before control samples nodes links work labels)
        []
        ≡ c_outcome_of (outcome_on book.checking
        (tables_before control samples nodes links work labels))
        out.old }
{
    let answer = checking::check_tables(control, samples, nodes, links, work, labels);
    telling::tell_done(answer, out)
}

// Two wrong programs that the contract rules out: one that tells the serial first, and one that tells a code of 0 for a refusal.
pub fn silkendoz_label(
    control: &[u16],
    samples: &[Word],
    nodes: &[i64],
    links: &[u16],
    work: &[u64],
    labels: &[u64],
    number: u64,
    out: &mut [u64],
) -> u64
    ensures { c_outcome result out.new
        (tables_before control samples nodes links work labels)
        []
        ≡ c_outcome_of (outcome_on (book.labelling number)
        (tables_before control samples nodes links work labels))
        out.old }
{
    let answer = labelling::label(control, samples, nodes, links, work, labels, number);
    telling::tell_label(answer, out)
}

// Two wrong programs that the contract rules out: one that tells the serial behind the code, and one that leaves `out` as it was where the
// code is 0.
pub fn silkendoz_remote_match(
    control: &[u16],
    samples: &[Word],
    nodes: &[i64],
    links: &[u16],
    work: &mut [u64],
    labels: &[u64],
    trail: &mut [u16],
    query: &[Sample],
    out: &mut [u64],
) -> u64
    ensures { c_outcome result out.new
        (tables_after_search control samples nodes links work labels)
        (trail.new ∷ [])
        ≡ c_outcome_of (outcome_on (book.remote_matching query.now trail.old)
        (tables_before_search control samples nodes links work labels))
        out.old }
{
    let answer = remote::remote_match(control, samples, nodes, links, work, labels, trail, query);
    telling::tell_remote(answer, out)
}

// The list has two places for each band: how many traces surely lie in it, and how many may.
//
// Two wrong programs that the contract rules out: one that tells how many bands there are, and one that clears the list's places behind
// them.
pub fn silkendoz_count_bands(
    control: &[u16],
    samples: &[Word],
    nodes: &[i64],
    links: &[u16],
    work: &mut [u64],
    labels: &[u64],
    list: &mut [u64],
    query: &[Sample],
    edges: &[u64],
    out: &mut [u64],
) -> u64
    ensures { c_outcome result out.new
        (tables_after_search control samples nodes links work labels)
        (list.new ∷ [])
        ≡ c_outcome_of (outcome_on (book.banding query.now edges.now list.old)
        (tables_before_search control samples nodes links work labels))
        out.old }
{
    let answer = banding::count_bands(
        control, samples, nodes, links, work, labels, list, query, edges,
    );
    telling::tell_done(answer, out)
}

// The winning trace is laid into `won`, which has to lead to some slice when the call begins.
//
// Two wrong programs that the contract rules out: one that tells the bench's leaves for the factory's, and one that lays the factory's
// table into `won` where the bench's trace is the nearest.
pub fn silkendoz_match_both<'a>(
    control: &[u16],
    samples: &'a [Word],
    nodes: &[i64],
    links: &[u16],
    work: &mut [u64],
    labels: &[u64],
    trail: &mut [u16],
    bench_control: &[u16],
    bench_samples: &'a [Word],
    bench_nodes: &[i64],
    bench_links: &[u16],
    bench_work: &mut [u64],
    bench_labels: &[u64],
    bench_trail: &mut [u16],
    query: &[Sample],
    out: &mut [u64],
    won: &mut &'a [Word],
) -> u64
    ensures { (c_outcome result out.new
        (tables_after_search control samples nodes links work labels)
        (trail.new ∷ bench_trail.new ∷ bench_work.new ∷ [])
        ≡ c_outcome_of (outcome_on (book.pairing of_factory
        (other_in (tables_before_search bench_control bench_samples bench_nodes bench_links bench_work bench_labels)
        bench_trail.old)
        query.now trail.old)
        (tables_before_search control samples nodes links work labels))
        out.old)
        × HandedBack (outcome_on (book.pairing of_factory
        (other_in (tables_before_search bench_control bench_samples bench_nodes bench_links bench_work bench_labels)
        bench_trail.old)
        query.now trail.old)
        (tables_before_search control samples nodes links work labels)).answer
        (lent_part samples.entry) (lent_part bench_samples.entry) (length query.now) (lent_part won.new) }
{
    let found = pairing::match_both(
        control,
        samples,
        nodes,
        links,
        work,
        labels,
        trail,
        bench_control,
        bench_samples,
        bench_nodes,
        bench_links,
        bench_work,
        bench_labels,
        bench_trail,
        query,
    );
    *won = pairing::parts::won_part(samples, bench_samples, query.len(), found);
    telling::tell_paired(found, out)
}

// Two wrong programs that the contract rules out: one that tells 1 of an answer that is not settled, and one that leaves the bound's place
// of a settled one as it was.
pub fn silkendoz_match_within(
    control: &[u16],
    samples: &[Word],
    nodes: &[i64],
    links: &[u16],
    work: &mut [u64],
    labels: &[u64],
    trail: &mut [u16],
    query: &[Sample],
    most: u64,
    out: &mut [u64],
) -> u64
    ensures { c_outcome result out.new
        (tables_after_search control samples nodes links work labels)
        (trail.new ∷ [])
        ≡ c_outcome_of (outcome_on (book.limiting most query.now trail.old)
        (tables_before_search control samples nodes links work labels))
        out.old }
{
    let answer = limiting::match_within(
        control, samples, nodes, links, work, labels, trail, query, most,
    );
    telling::tell_limited(answer, out)
}

// Two wrong programs that the contract rules out: one that tells how many traces are stored, and one that takes the highs for the lows.
pub fn silkendoz_match_clipped(
    control: &[u16],
    samples: &[Word],
    nodes: &[i64],
    links: &[u16],
    work: &mut [u64],
    labels: &[u64],
    list: &mut [u16],
    lows: &[Sample],
    highs: &[Sample],
    out: &mut [u64],
) -> u64
    ensures { c_outcome result out.new
        (tables_after_search control samples nodes links work labels)
        (list.new ∷ [])
        ≡ c_outcome_of (outcome_on (book.clipping lows.now highs.now list.old)
        (tables_before_search control samples nodes links work labels))
        out.old }
{
    let answer = clipping::match_clipped(
        control, samples, nodes, links, work, labels, list, lows, highs,
    );
    telling::tell_number(answer, out)
}

// The list is lent as records, a struct of two numbers each, and has one for each query.
//
// Two wrong programs that the contract rules out: one that tells how many queries there were, and one that tells how many leaves the
// queries would read one by one.
pub fn silkendoz_match_batch(
    control: &[u16],
    samples: &[Word],
    nodes: &[i64],
    links: &[u16],
    work: &mut [u64],
    labels: &[u64],
    trail: &mut [u16],
    queries: &[Sample],
    many: usize,
    answers: &mut [AnswerRecord],
    out: &mut [u64],
) -> u64
    ensures { c_outcome result out.new
        (tables_after_search control samples nodes links work labels)
        (trail.new ∷ list_places (nears_of answers.new) ∷ [])
        ≡ c_outcome_of (outcome_on (book.batching many queries.now trail.old (nears_of answers.old))
        (tables_before_search control samples nodes links work labels))
        out.old }
{
    let places = answers.len();
    let found = batching::match_all(
        control, samples, nodes, links, work, labels, trail, queries, many, places,
    );
    batch_answers::store(found, answers);
    telling::tell_number(found.outcome, out)
}
