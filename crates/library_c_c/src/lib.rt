// The calls as symbols of a static library, for C and for Rust: each export is the call of the same name of `library_c`, and states that call's
// contract again.
#![tactic(auto)]

ghost use Rattle.std.specs.Prelude.{◌≡◌, [], ◌∷◌, length};
ghost use Rattle.dstree.specs.Measures.{measures};
ghost use Rattle.dstree.specs.Labels.{label, no_label};
ghost use Rattle.dstree.specs.KNearest.{list_places};
ghost use Rattle.dstree.specs.Pair.{of_factory};
ghost use Rattle.dstree.specs.Book as book;
ghost use Rattle.tables.specs.Lent.{tables_after, tables_after_adding, tables_after_search, tables_before, tables_before_adding, tables_before_all, tables_before_search};
ghost use Rattle.calls.specs.Effects.{other_in, outcome_on};
ghost use Rattle.batch_answers.specs.AnswerRecords.{nears_of};
ghost use Rattle.pairing.specs.Parts.{lent_part, HandedBack};
ghost use Rattle.telling.specs.COutcome.{c_outcome, c_outcome_of};
ghost use Rattle.library_c.specs.Layout.{layout_version};

use batching::AnswerRecord;
use segment::{Sample, Word};

#[unsafe(no_mangle)]
pub extern "C" fn silkendoz_open(
    control: &mut [u16],
    samples: &mut [Word],
    nodes: &mut [i64],
    links: &mut [u16],
    work: &mut [u64],
    labels: &mut [u64],
    n: u64,
    capacity: u64,
    leaf_size: u64,
    out: &mut [u64],
) -> u64
    ensures { c_outcome result out.new
        (tables_after control samples nodes links work labels)
        []
        ≡ c_outcome_of (outcome_on (book.opening (measures n capacity leaf_size))
        (tables_before_all control samples nodes links work labels))
        out.old }
{
    library_c::silkendoz_open(
        control, samples, nodes, links, work, labels, n, capacity, leaf_size, out,
    )
}

#[unsafe(no_mangle)]
pub extern "C" fn silkendoz_add(
    control: &mut [u16],
    samples: &mut [Word],
    nodes: &mut [i64],
    links: &mut [u16],
    work: &[u64],
    labels: &mut [u64],
    trace: &[Sample],
    out: &mut [u64],
) -> u64
    ensures { c_outcome result out.new
        (tables_after_adding control samples nodes links work labels)
        []
        ≡ c_outcome_of (outcome_on (book.adding trace.now no_label)
        (tables_before_adding control samples nodes links work labels))
        out.old }
{
    library_c::silkendoz_add(control, samples, nodes, links, work, labels, trace, out)
}

#[unsafe(no_mangle)]
pub extern "C" fn silkendoz_add_labelled(
    control: &mut [u16],
    samples: &mut [Word],
    nodes: &mut [i64],
    links: &mut [u16],
    work: &[u64],
    labels: &mut [u64],
    trace: &[Sample],
    code: u16,
    serial: u32,
    out: &mut [u64],
) -> u64
    ensures { c_outcome result out.new
        (tables_after_adding control samples nodes links work labels)
        []
        ≡ c_outcome_of (outcome_on (book.adding trace.now (label code serial))
        (tables_before_adding control samples nodes links work labels))
        out.old }
{
    library_c::silkendoz_add_labelled(
        control, samples, nodes, links, work, labels, trace, code, serial, out,
    )
}

#[unsafe(no_mangle)]
pub extern "C" fn silkendoz_nearest(
    control: &[u16],
    samples: &[Word],
    nodes: &[i64],
    links: &[u16],
    work: &mut [u64],
    labels: &[u64],
    trail: &mut [u16],
    query: &[Sample],
    out: &mut [u64],
) -> u64
    ensures { c_outcome result out.new
        (tables_after_search control samples nodes links work labels)
        (trail.new ∷ [])
        ≡ c_outcome_of (outcome_on (book.matching query.now trail.old)
        (tables_before_search control samples nodes links work labels))
        out.old }
{
    library_c::silkendoz_nearest(
        control, samples, nodes, links, work, labels, trail, query, out,
    )
}

#[unsafe(no_mangle)]
pub extern "C" fn silkendoz_k_nearest(
    control: &[u16],
    samples: &[Word],
    nodes: &[i64],
    links: &[u16],
    work: &mut [u64],
    labels: &[u64],
    trail: &mut [u16],
    list: &mut [u64],
    query: &[Sample],
    k: u64,
    out: &mut [u64],
) -> u64
    ensures { c_outcome result out.new
        (tables_after_search control samples nodes links work labels)
        (trail.new ∷ list.new ∷ [])
        ≡ c_outcome_of (outcome_on (book.listing k query.now trail.old list.old)
        (tables_before_search control samples nodes links work labels))
        out.old }
{
    library_c::silkendoz_k_nearest(
        control, samples, nodes, links, work, labels, trail, list, query, k, out,
    )
}

#[unsafe(no_mangle)]
pub extern "C" fn silkendoz_write_sheet(
    control: &[u16],
    samples: &[Word],
    nodes: &[i64],
    links: &[u16],
    work: &[u64],
    labels: &[u64],
    sheet: &mut [u8],
    out: &mut [u64],
) -> u64
    ensures { c_outcome result out.new
        (tables_before control samples nodes links work labels)
        (sheet.new ∷ [])
        ≡ c_outcome_of (outcome_on (book.writing sheet.old)
        (tables_before control samples nodes links work labels))
        out.old }
{
    library_c::silkendoz_write_sheet(control, samples, nodes, links, work, labels, sheet, out)
}

#[unsafe(no_mangle)]
pub extern "C" fn silkendoz_read_sheet(
    control: &mut [u16],
    samples: &mut [Word],
    nodes: &mut [i64],
    links: &mut [u16],
    work: &mut [u64],
    labels: &mut [u64],
    sheet: &[u8],
    out: &mut [u64],
) -> u64
    ensures { c_outcome result out.new
        (tables_after control samples nodes links work labels)
        []
        ≡ c_outcome_of (outcome_on (book.reading sheet.now)
        (tables_before_all control samples nodes links work labels))
        out.old }
{
    library_c::silkendoz_read_sheet(control, samples, nodes, links, work, labels, sheet, out)
}

#[unsafe(no_mangle)]
pub extern "C" fn silkendoz_import_recording(
    control: &mut [u16],
    samples: &mut [Word],
    nodes: &mut [i64],
    links: &mut [u16],
    work: &[u64],
    labels: &mut [u64],
    bytes: &[u8],
    out: &mut [u64],
) -> u64
    ensures { c_outcome result out.new
        (tables_after_adding control samples nodes links work labels)
        []
        ≡ c_outcome_of (outcome_on (book.importing bytes.now)
        (tables_before_adding control samples nodes links work labels))
        out.old }
{
    library_c::silkendoz_import_recording(control, samples, nodes, links, work, labels, bytes, out)
}

#[unsafe(no_mangle)]
pub extern "C" fn silkendoz_export_recording(
    control: &[u16],
    samples: &[Word],
    nodes: &[i64],
    links: &[u16],
    work: &[u64],
    labels: &[u64],
    buffer: &mut [u8],
    number: u64,
    rate: u64,
    out: &mut [u64],
) -> u64
    ensures { c_outcome result out.new
        (tables_before control samples nodes links work labels)
        (buffer.new ∷ [])
        ≡ c_outcome_of (outcome_on (book.exporting number rate buffer.old)
        (tables_before control samples nodes links work labels))
        out.old }
{
    library_c::silkendoz_export_recording(
        control, samples, nodes, links, work, labels, buffer, number, rate, out,
    )
}

#[unsafe(no_mangle)]
pub extern "C" fn silkendoz_check_tables(
    control: &[u16],
    samples: &[Word],
    nodes: &[i64],
    links: &[u16],
    work: &[u64],
    labels: &[u64],
    out: &mut [u64],
) -> u64
    ensures { c_outcome result out.new
        (tables_before control samples nodes links work labels)
        []
        ≡ c_outcome_of (outcome_on book.checking
        (tables_before control samples nodes links work labels))
        out.old }
{
    library_c::silkendoz_check_tables(control, samples, nodes, links, work, labels, out)
}

#[unsafe(no_mangle)]
pub extern "C" fn silkendoz_label(
    control: &[u16],
    samples: &[Word],
    nodes: &[i64],
    links: &[u16],
    work: &[u64],
    labels: &[u64],
    number: u64,
    out: &mut [u64],
) -> u64
    ensures { c_outcome result out.new
        (tables_before control samples nodes links work labels)
        []
        ≡ c_outcome_of (outcome_on (book.labelling number)
        (tables_before control samples nodes links work labels))
        out.old }
{
    library_c::silkendoz_label(control, samples, nodes, links, work, labels, number, out)
}

#[unsafe(no_mangle)]
pub extern "C" fn silkendoz_remote_match(
    control: &[u16],
    samples: &[Word],
    nodes: &[i64],
    links: &[u16],
    work: &mut [u64],
    labels: &[u64],
    trail: &mut [u16],
    query: &[Sample],
    out: &mut [u64],
) -> u64
    ensures { c_outcome result out.new
        (tables_after_search control samples nodes links work labels)
        (trail.new ∷ [])
        ≡ c_outcome_of (outcome_on (book.remote_matching query.now trail.old)
        (tables_before_search control samples nodes links work labels))
        out.old }
{
    library_c::silkendoz_remote_match(
        control, samples, nodes, links, work, labels, trail, query, out,
    )
}

#[unsafe(no_mangle)]
pub extern "C" fn silkendoz_count_bands(
    control: &[u16],
    samples: &[Word],
    nodes: &[i64],
    links: &[u16],
    work: &mut [u64],
    labels: &[u64],
    list: &mut [u64],
    query: &[Sample],
    edges: &[u64],
    out: &mut [u64],
) -> u64
    ensures { c_outcome result out.new
        (tables_after_search control samples nodes links work labels)
        (list.new ∷ [])
        ≡ c_outcome_of (outcome_on (book.banding query.now edges.now list.old)
        (tables_before_search control samples nodes links work labels))
        out.old }
{
    library_c::silkendoz_count_bands(
        control, samples, nodes, links, work, labels, list, query, edges, out,
    )
}

#[unsafe(no_mangle)]
pub extern "C" fn silkendoz_match_both<'a>(
    control: &[u16],
    samples: &'a [Word],
    nodes: &[i64],
    links: &[u16],
    work: &mut [u64],
    labels: &[u64],
    trail: &mut [u16],
    bench_control: &[u16],
    bench_samples: &'a [Word],
    bench_nodes: &[i64],
    bench_links: &[u16],
    bench_work: &mut [u64],
    bench_labels: &[u64],
    bench_trail: &mut [u16],
    query: &[Sample],
    out: &mut [u64],
    won: &mut &'a [Word],
) -> u64
    ensures { (c_outcome result out.new
        (tables_after_search control samples nodes links work labels)
        (trail.new ∷ bench_trail.new ∷ bench_work.new ∷ [])
        ≡ c_outcome_of (outcome_on (book.pairing of_factory
        (other_in (tables_before_search bench_control bench_samples bench_nodes bench_links bench_work bench_labels)
        bench_trail.old)
        query.now trail.old)
        (tables_before_search control samples nodes links work labels))
        out.old)
        × HandedBack (outcome_on (book.pairing of_factory
        (other_in (tables_before_search bench_control bench_samples bench_nodes bench_links bench_work bench_labels)
        bench_trail.old)
        query.now trail.old)
        (tables_before_search control samples nodes links work labels)).answer
        (lent_part samples.entry) (lent_part bench_samples.entry) (length query.now) (lent_part won.new) }
{
    library_c::silkendoz_match_both(
        control,
        samples,
        nodes,
        links,
        work,
        labels,
        trail,
        bench_control,
        bench_samples,
        bench_nodes,
        bench_links,
        bench_work,
        bench_labels,
        bench_trail,
        query,
        out,
        won,
    )
}

#[unsafe(no_mangle)]
pub extern "C" fn silkendoz_match_within(
    control: &[u16],
    samples: &[Word],
    nodes: &[i64],
    links: &[u16],
    work: &mut [u64],
    labels: &[u64],
    trail: &mut [u16],
    query: &[Sample],
    most: u64,
    out: &mut [u64],
) -> u64
    ensures { c_outcome result out.new
        (tables_after_search control samples nodes links work labels)
        (trail.new ∷ [])
        ≡ c_outcome_of (outcome_on (book.limiting most query.now trail.old)
        (tables_before_search control samples nodes links work labels))
        out.old }
{
    library_c::silkendoz_match_within(
        control, samples, nodes, links, work, labels, trail, query, most, out,
    )
}

#[unsafe(no_mangle)]
pub extern "C" fn silkendoz_match_clipped(
    control: &[u16],
    samples: &[Word],
    nodes: &[i64],
    links: &[u16],
    work: &mut [u64],
    labels: &[u64],
    list: &mut [u16],
    lows: &[Sample],
    highs: &[Sample],
    out: &mut [u64],
) -> u64
    ensures { c_outcome result out.new
        (tables_after_search control samples nodes links work labels)
        (list.new ∷ [])
        ≡ c_outcome_of (outcome_on (book.clipping lows.now highs.now list.old)
        (tables_before_search control samples nodes links work labels))
        out.old }
{
    library_c::silkendoz_match_clipped(
        control, samples, nodes, links, work, labels, list, lows, highs, out,
    )
}

#[unsafe(no_mangle)]
pub extern "C" fn silkendoz_match_batch(
    control: &[u16],
    samples: &[Word],
    nodes: &[i64],
    links: &[u16],
    work: &mut [u64],
    labels: &[u64],
    trail: &mut [u16],
    queries: &[Sample],
    many: usize,
    answers: &mut [AnswerRecord],
    out: &mut [u64],
) -> u64
    ensures { c_outcome result out.new
        (tables_after_search control samples nodes links work labels)
        (trail.new ∷ list_places (nears_of answers.new) ∷ [])
        ≡ c_outcome_of (outcome_on (book.batching many queries.now trail.old (nears_of answers.old))
        (tables_before_search control samples nodes links work labels))
        out.old }
{
    library_c::silkendoz_match_batch(
        control, samples, nodes, links, work, labels, trail, queries, many, answers, out,
    )
}

#[unsafe(no_mangle)]
pub extern "C" fn silkendoz_layout_4() -> u64
    ensures { result ≡ layout_version }
{
    library_c::version::silkendoz_layout_4()
}
