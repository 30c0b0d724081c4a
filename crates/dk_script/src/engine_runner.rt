//! The runner over the plain engine: it reads the text of a statement, and the engine answers what that asks.
ghost use Rattle.std.specs.Prelude.{◌≡◌, ◌<◌, ◌^◌, true, length};
ghost use Rattle.dk_si.specs.LawfulCalls.{is_lawful_call};
ghost use Rattle.dk_script.specs.Calls.{IsRead, is_served};

use crate::runner::Runner;
use dk_plain_engine::{Answer, Engine};
use dk_si::history::Asked;
use dk_sql::{ParseError, parse};
use dk_types::{OutOfMemory, Statement};
use std::alloc::Global;

/// A database in memory, whose sessions are asked by texts.
#[derive(Drop)]
pub struct EngineRunner {
    alloc: Global,
    engine: Engine,
}

/// Whether a statement is served: a COPY is not while the lines of its data are not read.
fn is_served(statement: &Statement) -> bool
    ensures { result ≡ is_served statement.now }
{
    !matches!(statement, Statement::Copy { .. })
}

/// What a text asks; nothing where there is no memory to read it.
fn read_text(alloc: Global, text: &[u8], copy: &[u8]) -> Asked
    requires { length text.now < 2 ^ 32 }
    ensures read { IsRead text.now copy.now result }
    ensures lawful { is_lawful_call result ≡ true }
{
    match parse(alloc, text, copy) {
        Ok(statement) => {
            if is_served(&statement) {
                Asked::Good(statement)
            } else {
                Asked::Bad { at: 0 }
            }
        }
        Err(ParseError::Syntax { at }) => Asked::Bad { at },
        Err(ParseError::OutOfMemory) => Asked::Unread,
    }
}

impl Runner for EngineRunner {
    ghost use Rattle.dk_plain_engine.specs.Stands.{Stands};

    ghost stands = { λ runner entries. Stands runner.engine entries };

    fn open(alloc: Global) -> Result<EngineRunner, OutOfMemory> {
        let engine = Engine::new(alloc)?;
        Ok(EngineRunner { alloc, engine })
    }

    fn run_statement(&mut self, session: u32, text: &[u8], copy: &[u8]) -> Answer {
        let asked = read_text(self.alloc, text, copy);
        self.engine.run(session, asked)
    }

    ghost legal = { λ runner entries stands. record {
      legal = stands.legal;
      answered = stands.answered;
    } };
}
