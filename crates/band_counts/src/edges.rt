// How many edges a figure has reached. Edges rise, so that this is all that a report has to know of a bound or an upper figure.
ghost use Rattle.std.specs.Prelude.{◌≡◌, ◌≤◌, length};
ghost use Rattle.dstree.specs.Bands.{most_edges};
ghost use Rattle.band_counts.specs.Reached.{edges_reached};

// An edge that is equal to the figure is reached: a band does not take its end. Counting only those below it does not meet this.
pub fn reached(edges: &[u64], figure: u64) -> u64
    requires { length edges.now ≤ most_edges }
    ensures { result ≡ edges_reached edges.now figure }
{
    let mut many: u64 = 0;
    // this is done twice a node: `filter` and `count` take 1.28 of the instructions of a report of 16 bands at n = 1
    for edge in edges {
        many += u64::from(*edge <= figure);
    }
    many
}
