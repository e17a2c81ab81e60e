// The two formats of a sheet, and the kinds of its blocks.

ghost use Rattle.std.specs.Prelude.{◌≡◌, ◌^◌, ◌≤◌};
ghost use Rattle.dstree.specs.Sheet.{sample_cells, cell_blocks_needed};
ghost use Rattle.sheet.specs.Formats.{format_by, kind_by};

// Whether a sample takes two bytes, or four, as on a wide sheet.
#[derive(Clone, Copy, Debug, PartialEq, Eq)]
pub enum Format {
    Narrow,
    Wide,
}

impl Format {
    // The bytes that a sample takes.
    pub fn sample_bytes(self) -> usize
        ensures value { result ≡ (format_by self).sample_bytes }
        ensures size { (2 ≤ result) × (result ≤ 4) }
    {
        match self {
            Format::Narrow => 2,
            Format::Wide => 4,
        }
    }

    // The samples that a block carries.
    pub fn block_samples(self) -> usize
        ensures value { result ≡ (format_by self).samples_per_block }
        ensures size { (126 ≤ result) × (result ≤ 253) }
    {
        match self {
            Format::Narrow => 253,
            Format::Wide => 126,
        }
    }

    // The blocks that so many samples need: rounded up.
    pub fn blocks_for(self, samples: usize) -> usize
        requires { samples ≤ 2 ^ 20 }
        ensures { result ≡ cell_blocks_needed (sample_cells (format_by self)) samples }
    {
        let each = self.block_samples();
        (samples + (each - 1)) / each
    }
}

// What a block carries. Block 0 is the head.
#[derive(Clone, Copy, Debug, PartialEq, Eq)]
pub enum BlockKind {
    Head(Format),
    Samples(Format),
    Labels,
}

// The number that says it, byte 2 of a block.
impl From<BlockKind> for u8 {
    ghost from_gives = { λ kind number. number ≡ kind_by kind };

    fn from(kind: BlockKind) -> u8 {
        match kind {
            BlockKind::Head(Format::Narrow) => 1,
            BlockKind::Samples(Format::Narrow) => 2,
            BlockKind::Head(Format::Wide) => 3,
            BlockKind::Samples(Format::Wide) => 4,
            BlockKind::Labels => 5,
        }
    }
}
