// The labels of a sheet's traces, in their places.

ghost use Rattle.std.specs.Prelude.{◌≡◌, ◌≤◌, length};
ghost use Rattle.std.proofs.Math.Option.{none};
ghost use Rattle.dstree.specs.Refusals.{first_of};
ghost use Rattle.dstree.specs.SheetWidths.{sheet_conditions};
ghost use Rattle.tables.specs.View.{labels_over};
ghost use Rattle.sheet_blocks.specs.Traces.{count_of, sheet_labels};

use sheet_blocks::blocks::label_start;
use sheet_judging::labels::read_label;

// Over the first places; zeros if the sheet has no label blocks.
pub fn put_labels(labels: &mut [u64], sheet: &[u8], count: usize)
    requires { (first_of (sheet_conditions sheet.now) ≡ none) × (count_of sheet.now ≡ count) × (count ≤ length labels.old) }
    ensures { labels.new ≡ labels_over labels.old 0 (sheet_labels sheet.now) }
{
    let start = label_start(sheet);
    for i in 0..count {
        labels[i] = read_label(sheet, start, i);
    }
}
