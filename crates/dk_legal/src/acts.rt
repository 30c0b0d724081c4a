//! What sessions do, in few words, for the tests.
use dk_si::{Asked, Database, Entry, Table};
use dk_types::{
    Bytes, ColType, Column, ColumnSpot, Exhausted, Expr, Holder, Items, List, Node, OutOfMemory,
    Query, Receipt, Refusal, Reply, Row, Rows, Schema, Set, Spot, Statement, Tuple, Value,
};
use std::alloc::Global;

fn bytes(alloc: Global, text: &[u8]) -> Result<Bytes, OutOfMemory> {
    Ok(List::from_vec(Vec::from_slice(alloc, text)?))
}

/// A row of one number for each number.
pub fn rows(alloc: Global, numbers: &[i64]) -> Result<List<Row>, OutOfMemory> {
    let mut rows = List::new(alloc);
    for number in numbers {
        let mut row = List::new(alloc);
        row.push(Value::Big(*number))?;
        rows.push(row)?;
    }
    Ok(rows)
}

fn columns(alloc: Global) -> Result<Vec<Column>, OutOfMemory> {
    let mut columns = Vec::new(alloc);
    columns.push(Column {
        name: bytes(alloc, b"a")?,
        kind: ColType::Big,
    })?;
    Ok(columns)
}

/// A database with one table `t (a BIGINT)` that has these numbers.
pub fn opened(alloc: Global, numbers: &[i64]) -> Result<Database, OutOfMemory> {
    let mut tables = List::new(alloc);
    if let Ok(schema) = Schema::new(columns(alloc)?) {
        let mut present = List::new(alloc);
        for row in rows(alloc, numbers)?.into_vec() {
            present.push(Some(row))?;
        }
        let name = bytes(alloc, b"t")?;
        tables.push(Table {
            name,
            schema,
            rows: present,
        })?;
    }
    Ok(tables)
}

/// What a session does, in few words.
#[derive(Clone, Copy)]
pub enum Act<'a> {
    /// CREATE TABLE t (a BIGINT)
    Create,
    /// SELECT of a table u, which is not there
    SelectMissing,
    Begin,
    Commit,
    Rollback,
    Checkpoint,
    /// UPDATE t SET a = the number
    Update(i64),
    Delete,
    Select,
    Insert(&'a [i64]),
    Begun(u64, u64),
    Started(u64),
    Created(u64),
    Rows(&'a [i64]),
    Changed(u64),
    /// The count and the number of the commit.
    ChangedAt(u64, u64),
    Committed(u64),
    Ended,
    Checkpointed(u64),
    /// The refusal for a row of `t` that is held so.
    Held(u64, Holder),
    /// No transaction, or no iteration, is left behind so many.
    Spent(u64, u64),
    Refused(Refusal),
}

fn spot(alloc: Global, name: &[u8]) -> Result<Spot, OutOfMemory> {
    Ok(Spot {
        at: 7,
        name: bytes(alloc, name)?,
    })
}

fn number(value: i64) -> Expr {
    Expr {
        at: 9,
        node: Node::Lit(Value::Big(value)),
    }
}

fn update(alloc: Global, value: i64) -> Result<Statement, OutOfMemory> {
    let mut sets = List::new(alloc);
    sets.push(Set {
        column: spot(alloc, b"a")?,
        value: number(value),
    })?;
    Ok(Statement::Update {
        table: spot(alloc, b"t")?,
        sets,
        filter: None,
    })
}

/// All columns and rows of a table.
fn query(alloc: Global, name: &[u8]) -> Result<Query, OutOfMemory> {
    Ok(Query {
        items: Items::All { at: 7 },
        table: spot(alloc, name)?,
        filter: None,
        groups: List::new(alloc),
        keys: List::new(alloc),
        limit: None,
    })
}

fn insert(alloc: Global, numbers: &[i64]) -> Result<Statement, OutOfMemory> {
    let mut tuples = List::new(alloc);
    for value in numbers {
        let mut values = List::new(alloc);
        values.push(number(*value))?;
        tuples.push(Tuple { at: 7, values })?;
    }
    let table = spot(alloc, b"t")?;
    Ok(Statement::Insert { table, tuples })
}

fn create(alloc: Global) -> Result<Statement, OutOfMemory> {
    let mut columns = List::new(alloc);
    columns.push(ColumnSpot {
        column: spot(alloc, b"a")?,
        kind: ColType::Big,
    })?;
    let table = spot(alloc, b"t")?;
    Ok(Statement::Create { table, columns })
}

/// A disk's moment decides nothing.
fn receipt(number: u64) -> Receipt {
    Receipt { number, moment: 7 }
}

fn call_entry(session: u32, statement: Statement) -> Entry {
    Entry::Call {
        session,
        asked: Asked::Good(statement),
    }
}

fn reply_entry(session: u32, reply: Reply) -> Entry {
    Entry::Reply { session, reply }
}

fn call(alloc: Global, session: u32, act: &Act<'_>) -> Result<Option<Entry>, OutOfMemory> {
    let statement = match act {
        Act::Create => create(alloc)?,
        Act::SelectMissing => Statement::Select {
            query: query(alloc, b"u")?,
        },
        Act::Begin => Statement::Begin,
        Act::Commit => Statement::Commit,
        Act::Rollback => Statement::Rollback,
        Act::Checkpoint => Statement::Checkpoint,
        Act::Update(value) => update(alloc, *value)?,
        Act::Delete => Statement::Delete {
            table: spot(alloc, b"t")?,
            filter: None,
        },
        Act::Select => Statement::Select {
            query: query(alloc, b"t")?,
        },
        Act::Insert(numbers) => insert(alloc, numbers)?,
        _ => return Ok(None),
    };
    Ok(Some(call_entry(session, statement)))
}

fn reply(alloc: Global, act: &Act<'_>) -> Result<Reply, OutOfMemory> {
    Ok(match act {
        Act::Started(start) => Reply::Begun { start: *start },
        Act::Created(number) => Reply::Created {
            receipt: receipt(*number),
        },
        Act::Rows(numbers) => Reply::Rows {
            rows: Rows::from_list(alloc, &rows(alloc, numbers)?)?,
        },
        Act::Changed(count) => Reply::Changed {
            count: *count,
            receipt: None,
        },
        Act::ChangedAt(count, number) => Reply::Changed {
            count: *count,
            receipt: Some(receipt(*number)),
        },
        Act::Committed(number) => Reply::Committed {
            receipt: receipt(*number),
        },
        Act::Checkpointed(iteration) => Reply::Checkpointed {
            iteration: *iteration,
        },
        Act::Held(row, by) => Reply::Refused(Refusal::Conflict {
            table: 0,
            row: *row,
            by: *by,
        }),
        Act::Spent(transactions, iteration) => Reply::Refused(Refusal::Exhausted(Exhausted {
            clock: 0,
            rows: 0,
            transactions: *transactions,
            iteration: *iteration,
        })),
        Act::Refused(refusal) => Reply::Refused(*refusal),
        _ => Reply::Ended,
    })
}

pub fn entry(alloc: Global, session: u32, act: &Act<'_>) -> Result<Entry, OutOfMemory> {
    if let Act::Begun(number, start) = act {
        let (number, start) = (*number, *start);
        return Ok(Entry::Begun {
            session,
            number,
            start,
        });
    }
    match call(alloc, session, act)? {
        Some(entry) => Ok(entry),
        None => Ok(reply_entry(session, reply(alloc, act)?)),
    }
}
