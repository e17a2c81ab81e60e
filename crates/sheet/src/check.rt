// The check of a block. Its bytes are taken as rows of 64, and each column is added up at 16 bits: of such a loop the compiler makes vector
// code that takes eight bytes at a time, while a total of weighed bytes, which needs 32 bits, has it take four at most.

ghost use Rattle.std.specs.Prelude.{◌≡◌, ◌+◌, ◌*◌, ◌≤◌, ◌<◌, length, take};
ghost use Rattle.integer.specs.Words.{total};
ghost use Rattle.dstree.specs.Sheet.{checked_size, weighted, check_of};
ghost use Rattle.sheet.specs.Columns.{columns, added_up, ColumnSums, most_sum, most_later, column_weight};

// One row before those taken so far. `sums` has the total of each column; `later` has every byte once for each row before its own that is
// taken too.
fn add_row(row: &[u8], sums: &mut [u16], later: &mut [u16])
    requires { ColumnSums sums.old later.old × (length row.now ≤ columns) }
    ensures { (sums.new ≡ added_up sums.old row.now)
        × (later.new ≡ added_up later.old (take (length row.now) sums.old)) }
{
    for (j, byte) in row.iter().enumerate() {
        later[j] += sums[j];
        sums[j] += u16::from(*byte);
    }
}

// What a column adds to the check's total: its bytes by their position in a row, and 64 for each row before a byte's own.
fn weight(column: usize, sum: u16, later: u16) -> u32
    requires { (column < columns) × (sum ≤ most_sum) × (later ≤ most_later) }
    ensures { (result ≡ (column + 1) * sum + columns * later) × (result ≤ column_weight) }
{
    (column as u32 + 1) * u32::from(sum) + 64 * u32::from(later)
}

fn weigh(sums: &[u16], later: &[u16]) -> u32
    requires { ColumnSums sums.now later.now }
    ensures { result ≡ weighted 0 sums.now + columns * total later.now }
{
    let mut total: u32 = 0;
    for j in 0..64 {
        total += weight(j, sums[j], later[j]);
    }
    total
}

// "total of (position + 1) × byte over positions 0 to 509, modulo 65,521". Of the last row, 62 bytes are checked; the total is reduced
// once, at the end.
pub fn check_of(block: &[u8]) -> u64
    requires { checked_size ≤ length block.now }
    ensures { result ≡ check_of block.now }
{
    let mut sums = [0u16; 64];
    let mut later = [0u16; 64];
    add_row(&block[448..510], &mut sums, &mut later);
    for row in (0..7).rev() {
        add_row(&block[64 * row..64 * row + 64], &mut sums, &mut later);
    }
    (weigh(&sums, &later) % 65521) as u64
}
