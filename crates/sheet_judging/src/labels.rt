// The labels that a sheet holds, one at a time, each as its place in the table has it.

ghost use Rattle.std.specs.Prelude.{◌≡◌, ℕ, suc, ◌≤◌, ◌<◌, get_or};
ghost use Rattle.dstree.specs.Measures.{most_traces};
ghost use Rattle.dstree.specs.Labels.{no_label, are_zero_labels, label_place};
ghost use Rattle.dstree.specs.Sheet.{labels_in_blocks};
ghost use Rattle.sheet_blocks.specs.Blocks.{InBlocks, label_start};
ghost use Rattle.sheet_judging.specs.LabelBlocks.{label_blocks, HaveRoom, are_bad};

use sheet::labels::label_at;

// Label i: "84 labels of 6 bytes each from byte 4", from the first block of labels on. Without such blocks it is zero.
//
// Two wrong programs that the contract rules out: one that starts the labels of each block anew, and one that takes a sheet without label
// blocks for one whose labels stand in its samples.
pub fn read_label(sheet: &[u8], start: usize, i: usize) -> u64
    requires { InBlocks sheet.now × (start ≡ label_start sheet.now) × (i < most_traces) × HaveRoom sheet.now (suc i) }
    ensures { (count : ℕ) → i < count
        → result ≡ label_place (get_or (labels_in_blocks count (label_blocks sheet.now)) i no_label) }
{
    if start == sheet.len() / 512 {
        return 0;
    }
    let number = start + i / 84;
    label_at(sheet, number * 512 + 4 + 6 * (i % 84))
}

// "label blocks together hold only zero labels"
fn labels_zero(sheet: &[u8], start: usize, count: usize) -> bool
    requires { InBlocks sheet.now × (start ≡ label_start sheet.now) × (count ≤ most_traces) × HaveRoom sheet.now count }
    ensures { result ≡ are_zero_labels (labels_in_blocks count (label_blocks sheet.now)) }
{
    for i in 0..count {
        if read_label(sheet, start, i) != 0 {
            return false;
        }
    }
    true
}

// Neither no label blocks nor all of them, or only zero labels.
pub fn labels_bad(sheet: &[u8], start: usize, count: usize) -> bool
    requires { InBlocks sheet.now × (start ≡ label_start sheet.now) × (count ≤ most_traces) }
    ensures { result ≡ are_bad count (label_blocks sheet.now) }
{
    let blocks = sheet.len() / 512 - start;
    if blocks == 0 {
        return false;
    }
    if blocks != (count + 83) / 84 {
        return true;
    }
    labels_zero(sheet, start, count)
}
