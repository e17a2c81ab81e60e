// The whole report: the query's sums, the loop over the nodes, and search work left zero. It is lent no samples.
ghost use Rattle.std.specs.Prelude.{◌≡◌, length};
ghost use Rattle.segment.specs.Stored.{samples_of};
ghost use Rattle.dstree.specs.Measures.{work_needed};
ghost use Rattle.dstree.specs.Bands.{band_report, report_places};
ghost use Rattle.dstree.specs.Book.{over};
ghost use Rattle.tables.specs.Tables.{measures_of, filled};
ghost use Rattle.tables.specs.View.{tree_in};
ghost use Rattle.band_counts.specs.Reported.{records_only, Reportable};

use prefixes::Summed;
use segment::Word;
use tables::control::field;
use tables::places::{CAPACITY, NODE_COUNT, TRACE_COUNT};

// The list begins with the report, and its places behind that stay. The needed places of search work are zero when it ends, whatever they
// held.
pub fn report(
    control: &[u16],
    nodes: &[i64],
    links: &[u16],
    query: &[Word],
    edges: &[u64],
    work: &mut [u64],
    list: &mut [u64],
)
    requires { Reportable (records_only control.now nodes.now links.now) (samples_of query.now) edges.now (length work.old)
        (length list.old) }
    ensures list_after { list.new
        ≡ over (report_places (band_report (tree_in (records_only control.now nodes.now links.now))
        (samples_of query.now) edges.now)) list.old }
    ensures zero { work.new
        ≡ filled (work_needed (measures_of (records_only control.now nodes.now links.now))) 0
        work.old }
{
    let mut sums = [0; 257];
    let mut squares = [0; 257];
    let summed = Summed::of(query, &mut sums, &mut squares);
    let k = usize::from(field(control, TRACE_COUNT));
    let m = usize::from(field(control, NODE_COUNT));
    let needed = tables::control::records_needed(u64::from(field(control, CAPACITY)));
    crate::nodes::count_nodes(
        nodes,
        links,
        k,
        m,
        &summed,
        edges,
        &mut work[..needed],
        list,
    );
    tables::loops::fill_first(work, needed, 0);
}
