//! What can be wrong with the files, and the texts that say so.
use std::fmt;

/// The part of the files whose bytes are not in their grammar.
#[derive(Clone, Copy, Debug, PartialEq, Eq)]
pub enum Part {
    MainHeader,
    Header,
    Tree,
    Page,
    Segment,
    LogRecord,
}

impl fmt::Display for Part {
    ghost use Rattle.dk_types.specs.Texts.{part_text};
    ghost use Rattle.std.specs.Prelude.{Some};

    ghost output = { λ part. Some (part_text part) };

    fn fmt<W: fmt::Write>(&self, f: &mut fmt::Formatter<W>) -> fmt::Result {
        f.write_str(match self {
            Part::MainHeader => "main header",
            Part::Header => "header",
            Part::Tree => "tree",
            Part::Page => "page",
            Part::Segment => "segment",
            Part::LogRecord => "log record",
        })
    }
}

/// What is wrong with the files, with the numbers that show it. A block, a length and a place are counted in blocks
/// and bytes.
#[derive(Clone, Copy, Debug, PartialEq, Eq)]
pub enum Damage {
    /// A block's checksum differs from the one that stands before it.
    Sum {
        block: u64,
        stored: u64,
        computed: u64,
    },
    /// The same of one of the two database headers.
    HeaderSum {
        twin: u8,
        stored: u64,
        computed: u64,
    },
    /// Neither database header is the current one.
    NoGate,
    /// Both database headers say that they are the current one.
    SameIteration {
        iteration: u64,
    },
    /// The main file ends too early.
    Short {
        need: u64,
        have: u64,
    },
    /// A block that does not lie in the main file is named.
    Outside {
        block: u64,
        blocks: u64,
    },
    /// A block is named twice.
    Twice {
        block: u64,
    },
    /// The log's header has another magic or checksum.
    LogHeader {
        stored: u64,
        computed: u64,
    },
    /// The log is of a checkpoint that the main file does not have yet.
    LogAhead {
        log: u64,
        iteration: u64,
    },
    /// Bytes outside the grammar of their part. `at` counts from the start of the part.
    Malformed {
        part: Part,
        at: u64,
    },
}

impl fmt::Display for Damage {
    ghost use Rattle.dk_types.specs.Texts.{damage_text};
    ghost use Rattle.std.specs.Prelude.{Some};

    ghost output = { λ damage. Some (damage_text damage) };

    fn fmt<W: fmt::Write>(&self, f: &mut fmt::Formatter<W>) -> fmt::Result {
        match self {
            Damage::Sum {
                block,
                stored,
                computed,
            } => write!(
                f,
                "damaged block {block} stored {stored} computed {computed}"
            ),
            Damage::HeaderSum {
                twin,
                stored,
                computed,
            } => write!(
                f,
                "damaged header {twin} stored {stored} computed {computed}"
            ),
            Damage::NoGate => f.write_str("damaged no gate"),
            Damage::SameIteration { iteration } => write!(f, "damaged same iteration {iteration}"),
            Damage::Short { need, have } => write!(f, "damaged short {need} {have}"),
            Damage::Outside { block, blocks } => write!(f, "damaged outside {block} {blocks}"),
            Damage::Twice { block } => write!(f, "damaged twice {block}"),
            Damage::LogHeader { stored, computed } => {
                write!(f, "damaged log header stored {stored} computed {computed}")
            }
            Damage::LogAhead { log, iteration } => write!(f, "damaged log ahead {log} {iteration}"),
            Damage::Malformed { part, at } => write!(f, "damaged {part} at {at}"),
        }
    }
}
