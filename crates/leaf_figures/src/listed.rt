// Traces by their numbers.

ghost use Rattle.leaf_figures.specs.Listed.{TracesListed};

use segment::Word;

// Some of k traces of n samples each, by a list of their numbers. They lie in the samples whole.
#[derive(Clone, Copy)]
pub struct Listed<'a> {
    pub samples: &'a [Word],
    pub n: usize,
    pub k: usize,
    pub list: &'a [u16],
    pub ghost inside: { TracesListed samples.now n k list.now },
}
