//! That a tree is copied whole and compared whole, and which expressions are literals.
use crate::{
    Boxed, ColumnSpot, Expr, FoldKind, Item, Items, Key, Node, Op, Query, Set, Spot, Statement,
    Tuple, literals,
};
use dk_values::{Bytes, ColType, List, OutOfMemory, TryCopy, Value};
use std::alloc::Global;
use std::test::Fail;

fn bytes(alloc: Global, text: &[u8]) -> Result<Bytes, OutOfMemory> {
    Ok(List::from_vec(Vec::from_slice(alloc, text)?))
}

fn spot(alloc: Global, at: u32) -> Result<Spot, OutOfMemory> {
    let name = bytes(alloc, b"name")?;
    Ok(Spot { at, name })
}

fn number(at: u32, number: i64) -> Expr {
    Expr {
        at,
        node: Node::Lit(Value::Big(number)),
    }
}

/// `NOT - name + 7 IS NOT NULL`, with places of its own.
fn deep(alloc: Global, at: u32) -> Result<Expr, OutOfMemory> {
    let node = Node::Col(bytes(alloc, b"name")?);
    let node = Node::Neg(Boxed::new(alloc, Expr { at: 9, node })?);
    let node = Node::Two {
        op: Op::Add,
        left: Boxed::new(alloc, Expr { at: 8, node })?,
        right: Boxed::new(alloc, number(at, 7))?,
    };
    let node = Node::IsNull {
        of: Boxed::new(alloc, Expr { at: 6, node })?,
        negated: true,
    };
    let node = Node::Not(Boxed::new(alloc, Expr { at: 5, node })?);
    Ok(Expr { at: 4, node })
}

fn query(alloc: Global, at: u32) -> Result<Query, OutOfMemory> {
    let fold = Item::Fold {
        kind: FoldKind::Sum,
        at: 3,
        of: deep(alloc, at)?,
    };
    let items = vec![in alloc; Item::Plain(number(1, 2)), Item::CountAll { at: 2 }, fold]?;
    let key = Key {
        column: spot(alloc, 40)?,
        descending: true,
    };
    Ok(Query {
        items: Items::Listed(List::from_vec(items)),
        table: spot(alloc, 20)?,
        filter: Some(deep(alloc, 7)?),
        groups: List::from_vec(vec![in alloc; spot(alloc, 30)?]?),
        keys: List::from_vec(vec![in alloc; key]?),
        limit: Some(5),
    })
}

/// A statement of each form that holds something, with one place of its own deep inside.
fn statement(alloc: Global, form: u32, at: u32) -> Result<Statement, OutOfMemory> {
    let table = spot(alloc, 1)?;
    match form {
        0 => Ok(Statement::Create {
            table,
            columns: List::from_vec(vec![in alloc; column(alloc, at)?]?),
        }),
        1 => Ok(Statement::Insert {
            table,
            tuples: List::from_vec(vec![in alloc; tuple(alloc, 2)?, tuple(alloc, at)?]?),
        }),
        2 => Ok(Statement::InsertSelect {
            table,
            at: 9,
            query: query(alloc, at)?,
        }),
        3 => Ok(Statement::Select {
            query: query(alloc, at)?,
        }),
        4 => Ok(Statement::Update {
            table,
            sets: List::from_vec(vec![in alloc; set(alloc, at)?]?),
            filter: None,
        }),
        5 => Ok(Statement::Delete {
            table,
            filter: Some(deep(alloc, at)?),
        }),
        _ => Ok(Statement::Copy {
            table: spot(alloc, at)?,
            bytes: bytes(alloc, b"1,2")?,
        }),
    }
}

fn column(alloc: Global, at: u32) -> Result<ColumnSpot, OutOfMemory> {
    Ok(ColumnSpot {
        column: spot(alloc, at)?,
        kind: ColType::Int,
    })
}

fn tuple(alloc: Global, at: u32) -> Result<Tuple, OutOfMemory> {
    let values = List::from_vec(vec![in alloc; number(3, 1), number(5, -2)]?);
    Ok(Tuple { at, values })
}

fn set(alloc: Global, at: u32) -> Result<Set, OutOfMemory> {
    Ok(Set {
        column: spot(alloc, 6)?,
        value: deep(alloc, at)?,
    })
}

/// Whether a copy equals its value, and another value doesn't.
fn is_whole<T: TryCopy + PartialEq>(value: T, other: T) -> Result<bool, OutOfMemory> {
    Ok(value.copy()? == value && value != other)
}

fn form_is_whole(alloc: Global, form: u32) -> Result<bool, OutOfMemory> {
    is_whole(statement(alloc, form, 70)?, statement(alloc, form, 71)?)
}

#[test]
fn statements_are_copied_and_compared_whole(rt: HostRuntime) -> Result<(), Fail> {
    for form in 0..7_u32 {
        assert!(rt; form_is_whole(rt.alloc(), form)?, "{form}");
    }
    Ok(())
}

#[test]
fn the_literals_of_a_tuple_are_its_values(rt: HostRuntime) -> Result<(), Fail> {
    let alloc = rt.alloc();
    let Some(row) = literals(alloc, tuple(alloc, 0)?.values.as_slice())? else {
        return Err(Fail::new("both values are literals"));
    };
    let is_second = match row.as_slice() {
        [_, second, ..] => *second == Value::Big(-2),
        _ => false,
    };
    assert!(rt; is_second);
    let exprs = vec![in alloc; number(0, 1), deep(alloc, 2)?]?;
    assert!(rt; literals(alloc, &exprs)?.is_none());
    Ok(())
}
