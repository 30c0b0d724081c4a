//! That columns, flags and rows that may be missing stay those of plain lists, whatever changes them.
mod cells;
mod flags;
mod rows;

ghost use Rattle.std.specs.Prelude.{◌<◌};
ghost use Rattle.dk_rows.specs.Cells.{value_of};
ghost use Rattle.dk_columns.specs.Columns.{IsOfKind};

use dk_rows::Cell;
use dk_values::{ColType, OutOfMemory};
use std::alloc::Global;
use std::test::Fail;

/// Numbers that look random, from a linear congruence.
#[derive(Drop)]
struct Draws {
    state: u64,
}

impl Draws {
    fn new(state: u64) -> Draws {
        Draws { state }
    }

    fn below(&mut self, n: u64) -> u64
        requires { 0 < n }
        ensures { result < n }
    {
        self.state = self
            .state
            .wrapping_mul(6_364_136_223_846_793_005)
            .wrapping_add(1_442_695_040_888_963_407);
        (self.state >> 33) % n
    }
}

const LETTERS: &[u8] = b"abcdefgh";

/// A value that a column of that type may have.
fn draw_cell(draws: &mut Draws, kind: ColType) -> Cell<'static>
    ensures { IsOfKind kind (value_of result) }
{
    if draws.below(4) == 0 {
        return Cell::Null;
    }
    match kind {
        ColType::Bool => Cell::Bool(draws.below(2) == 1),
        ColType::Int => Cell::Int((draws.below(1 << 32) as u32).cast_signed()),
        ColType::Big => Cell::Big(draws.state.cast_signed()),
        ColType::Text => Cell::Text(&LETTERS[..draws.below(8) as usize]),
    }
}

/// What is changed beside a plain list.
#[derive(Clone, Copy)]
enum Subject {
    Column(ColType),
    Flags,
    Rows,
}

/// Whether a sequence of changes leaves the subject and the plain list the same.
fn sequence_agrees(
    alloc: Global,
    draws: &mut Draws,
    subject: Subject,
) -> Result<bool, OutOfMemory> {
    match subject {
        Subject::Column(kind) => cells::sequence_agrees(alloc, draws, kind),
        Subject::Flags => flags::sequence_agrees(alloc, draws),
        Subject::Rows => rows::sequence_agrees(alloc, draws),
    }
}

/// Whether so many sequences do.
fn all_agree(
    alloc: Global,
    subject: Subject,
    sequences: u32,
    seed: u64,
) -> Result<bool, OutOfMemory> {
    let mut draws = Draws::new(seed);
    for _ in 0..sequences {
        if !sequence_agrees(alloc, &mut draws, subject)? {
            return Ok(false);
        }
    }
    Ok(true)
}

#[test]
fn two_thousand_sequences_are_those_of_a_plain_list_of_values(rt: HostRuntime) -> Result<(), Fail> {
    for kind in [ColType::Bool, ColType::Int, ColType::Big, ColType::Text] {
        assert!(rt; all_agree(rt.alloc(), Subject::Column(kind), 500, 11)?);
    }
    Ok(())
}

#[test]
fn two_thousand_sequences_are_those_of_a_plain_list_of_rows(rt: HostRuntime) -> Result<(), Fail> {
    assert!(rt; all_agree(rt.alloc(), Subject::Rows, 2_000, 23)?);
    Ok(())
}

#[test]
fn two_thousand_sequences_are_those_of_plain_flags(rt: HostRuntime) -> Result<(), Fail> {
    assert!(rt; all_agree(rt.alloc(), Subject::Flags, 2_000, 5)?);
    Ok(())
}
