// Scripts of document 01's calls, played on lent tables.
#![tactic(auto)]

pub mod rows; // the numbers of a row
pub mod kinds; // which call it makes
pub mod plans; // how much a row takes, and whether it can be played
pub mod replies; // the numbers of a reply
pub mod turns; // a row, played

ghost use Rattle.std.specs.Prelude.{◌≡◌};
ghost use Rattle.tables.specs.Lent.{tables_after, tables_before_all};
ghost use Rattle.replay.specs.ReplyRows.{replies_laid};
ghost use Rattle.replay.specs.Script.{answers_of, played, whole};
ghost use Rattle.replay.specs.Demanded.{Demanded};

use crate::kinds::RowKind;
use crate::replies::tell;
use crate::rows::Rows;
use crate::turns::turn;
use segment::{Sample, Word};

// How much of the samples, the trails and the sheets: what calls have taken, what a row takes, or all that there is.
#[derive(Clone, Copy)]
pub struct Amounts {
    pub samples: usize,
    pub trails: usize,
    pub sheets: usize,
}

// Of a row that can be played: which call it makes, and how much is taken then.
#[derive(Clone, Copy)]
pub struct Plan {
    pub kind: RowKind,
    pub to: Amounts,
}

// What playing a row comes to: the reply of its call, if one was made, as numbers, which are 0 or the refusal's number, then the answer's
// values or the refusal's place, zeros behind them; and how much is taken.
#[derive(Clone, Copy)]
pub struct Turn {
    pub numbers: Option<[u64; 5]>,
    pub at: Amounts,
}

// Every call of a script, in its order, on tables that hold anything. `script` has a row of numbers a call, each behind its length: which
// call it is (0 opening, 1 adding, 2 match, 3 writing, 4 reading), the lengths of the six tables that it is lent, and its own: an
// opening's measures; an adding's number of samples; a match's, then the places of its trail; the bytes of a writing's or a reading's
// sheet. `pool` has the samples of traces and queries, one behind another, `trails` the trails of matches, `sheets` the sheets of writings
// and readings likewise. Each reply goes into five places of `replies`.
//
// What holds after the calls is document 01's demands over lists of calls. Two wrong programs that the contract rules out: one that leaves
// out an adding, and one that lends a call a table one place shorter than it asks for.
pub fn play(
    control: &mut [u16],
    samples: &mut [Word],
    nodes: &mut [i64],
    links: &mut [u16],
    work: &mut [u64],
    labels: &mut [u64],
    trails: &mut [u16],
    sheets: &mut [u8],
    script: &[u64],
    pool: &[Sample],
    replies: &mut [u64],
)
    ensures labels_value { (tables_after control samples nodes links work labels
        ≡ (played
        (tables_before_all control samples nodes links work labels)
        script.now pool.now trails.old sheets.old).now.memory)
        × (trails.new ≡ whole (played
        (tables_before_all control samples nodes links work labels)
        script.now pool.now trails.old sheets.old).now.trails)
        × (sheets.new ≡ whole (played
        (tables_before_all control samples nodes links work labels)
        script.now pool.now trails.old sheets.old).now.sheets)
        × (replies.new ≡ replies_laid (answers_of (played
        (tables_before_all control samples nodes links work labels)
        script.now pool.now trails.old sheets.old).said) 0
        replies.old) }
    ensures demanded { Demanded
        (played
        (tables_before_all control samples nodes links work labels)
        script.now pool.now trails.old sheets.old).asked
        (played
        (tables_before_all control samples nodes links work labels)
        script.now pool.now trails.old sheets.old).said
        (tables_after control samples nodes links work labels) }
{
    let mut at = Amounts {
        samples: 0,
        trails: 0,
        sheets: 0,
    };
    let mut count: usize = 0;
    for row in Rows(script) {
        let turned = turn(
            control, samples, nodes, links, work, labels, trails, sheets, pool, row, at,
        );
        count = tell(replies, count, turned.numbers);
        at = turned.at;
    }
}
