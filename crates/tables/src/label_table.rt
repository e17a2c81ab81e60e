// Document 02's labels, a fault code and a machine serial for each trace: in one place of the table, the code below, the serial above it.
// The upper 16 bits of a place are never shown, and written as 0.

ghost use Rattle.std.specs.Prelude.{◌≡◌, [], ◌∷◌, ◌+◌, ◌≤◌, ◌<◌, length, get_or, replicate};
ghost use Rattle.dstree.specs.Labels.{label, no_label, label_at};
ghost use Rattle.tables.specs.View.{labels_over};

// A trace's place, and 0 behind the end of the table.
pub fn place_at(labels: &[u64], number: usize) -> u64
    ensures { result ≡ get_or labels.now number 0 }
{
    labels.get(number).copied().unwrap_or(0)
}

pub fn code_in(place: u64) -> u64
    ensures { result ≡ (label_at place).code }
{
    place % 65536
}

pub fn serial_in(place: u64) -> u64
    ensures { result ≡ (label_at place).serial }
{
    place / 65536 % 4294967296
}

// A code and a serial as a place has them.
pub fn place_of(code: u16, serial: u32) -> u64
    ensures { label_at result ≡ label code serial }
{
    u64::from(code) + 65536 * u64::from(serial)
}

// A label over a place. All other places stay.
pub fn store(labels: &mut [u64], at: usize, place: u64)
    requires { at < length labels.old }
    ensures { labels.new ≡ labels_over labels.old at (label_at place ∷ []) }
{
    labels[at] = place % 281474976710656;
}

// Zero labels over so many places.
pub fn clear(labels: &mut [u64], at: usize, count: usize)
    requires { at + count ≤ length labels.old }
    ensures { labels.new ≡ labels_over labels.old at (replicate count no_label) }
{
    labels[at..at + count].fill(0);
}
