//! Replies, nets and bound statements are copied whole, and damages and statuses tell their numbers.
ghost use Rattle.std.specs.Prelude.{◌≡◌, true, length, IfOk};
ghost use Rattle.dk_types.specs.Nets.{changes};

use crate::{
    Bound, BoundExpr, BoundItem, BoundKey, BoundQuery, BoundSet, Boxed, Bytes, Commit, Damage,
    FoldKind, List, Net, Op, OutOfMemory, Part, Receipt, Reply, Rows, Status, TableNet, TryCopy,
    Value,
};
use std::alloc::Global;
use std::test::Fail;

fn bytes(alloc: Global, text: &[u8]) -> Result<Bytes, OutOfMemory> {
    Ok(List::from_vec(Vec::from_slice(alloc, text)?))
}

fn one_row(alloc: Global) -> Result<Rows, OutOfMemory> {
    let mut row = List::new(alloc);
    row.push(Value::Null)?;
    row.push(Value::Bool(true))?;
    row.push(Value::Int(-1))?;
    row.push(Value::Big(i64::MIN))?;
    row.push(Value::Text(bytes(alloc, b"text")?))?;
    row.push(Value::Huge(i128::MAX))?;
    let mut rows = Rows::new(alloc);
    rows.push(row)?;
    Ok(rows)
}

#[test]
fn replies_are_copied(rt: HostRuntime) -> Result<(), Fail> {
    let alloc = rt.alloc();
    let receipt = Receipt {
        number: 1,
        moment: 2,
    };
    let rows = Reply::Rows {
        rows: one_row(alloc)?,
    };
    assert_eq!(rt; rows.copy()?, rows);
    let changed = Reply::Changed {
        count: 3,
        receipt: Some(receipt),
    };
    assert_eq!(rt; changed.copy()?, changed);
    Ok(())
}

#[test]
fn damages_and_statuses_tell_their_numbers(rt: HostRuntime) -> Result<(), Fail> {
    let alloc = rt.alloc();
    let sum = Damage::Sum {
        block: 1,
        stored: 20,
        computed: 300,
    };
    let text = sum.to_string(alloc)?;
    assert_eq!(rt; text.as_str(), "damaged block 1 stored 20 computed 300");
    let malformed = Damage::Malformed {
        part: Part::LogRecord,
        at: 24,
    };
    let text = malformed.to_string(alloc)?;
    assert_eq!(rt; text.as_str(), "damaged log record at 24");
    assert_eq!(rt; Status::Damaged(sum).code(), 9);
    assert_eq!(rt; Status::BadLine { line: 7 }.code(), 3);
    Ok(())
}

fn one_part(alloc: Global, table: u32) -> Result<TableNet, OutOfMemory>
    ensures changes { IfOk result (λ part. changes part ≡ true) }
    ensures table { IfOk result (λ part. part.table ≡ table) }
{
    let mut deletes = List::new(alloc);
    deletes.push(7)?;
    Ok(TableNet {
        table,
        updates: List::new(alloc),
        deletes,
        rows: one_row(alloc)?,
    })
}

fn two_parts(alloc: Global) -> Result<Net, OutOfMemory>
    ensures { IfOk result (λ net. length net ≡ 2) }
{
    let mut net = Net::new(alloc);
    net.push(one_part(alloc, 3)?)?;
    net.push(one_part(alloc, 4)?)?;
    Ok(net)
}

#[test]
fn nets_grow_and_are_copied(rt: HostRuntime) -> Result<(), Fail> {
    let alloc = rt.alloc();
    let net = two_parts(alloc)?;
    assert_eq!(rt; net.len(), 2);
    assert!(rt; !net.is_empty());
    assert!(rt; net.get(1).changes());
    assert_eq!(rt; net.get(1).table, 4);
    assert_eq!(rt; net.get(0), &one_part(alloc, 3)?);
    let commit = Commit::Change { net };
    match commit.copy()? {
        Commit::Change { net } => assert_eq!(rt; net.as_slice(), two_parts(alloc)?.as_slice()),
        Commit::Create { .. } => assert!(rt; false),
    }
    Ok(())
}

/// `- column < 7`, or another number.
fn below(alloc: Global, number: i64) -> Result<BoundExpr, OutOfMemory> {
    let minus = BoundExpr::Neg(Boxed::new(alloc, BoundExpr::Col(3))?);
    Ok(BoundExpr::Two {
        op: Op::Lt,
        left: Boxed::new(alloc, minus)?,
        right: Boxed::new(alloc, BoundExpr::Lit(Value::Big(number)))?,
    })
}

fn bound_query(alloc: Global, number: i64) -> Result<BoundQuery, OutOfMemory> {
    let fold = BoundItem::Fold {
        kind: FoldKind::Max,
        of: below(alloc, 7)?,
    };
    let key = BoundKey {
        column: 2,
        descending: false,
    };
    Ok(BoundQuery {
        items: List::from_vec(vec![in alloc; BoundItem::CountAll, fold]?),
        table: 1,
        filter: Some(below(alloc, number)?),
        grouped: true,
        groups: List::from_vec(vec![in alloc; 2]?),
        keys: List::from_vec(vec![in alloc; key]?),
        limit: None,
    })
}

/// A statement of one of three forms, with a number of its own deep inside.
fn bound(alloc: Global, form: u32, number: i64) -> Result<Bound, OutOfMemory> {
    let table = 4;
    match form {
        0 => Ok(Bound::InsertSelect {
            table,
            query: bound_query(alloc, number)?,
        }),
        1 => Ok(Bound::Update {
            table,
            sets: List::from_vec(vec![in alloc; set(alloc, number)?]?),
            filter: None,
        }),
        _ => Ok(Bound::Delete {
            table,
            filter: Some(below(alloc, number)?),
        }),
    }
}

fn set(alloc: Global, number: i64) -> Result<BoundSet, OutOfMemory> {
    Ok(BoundSet {
        column: 5,
        value: below(alloc, number)?,
    })
}

/// Whether a copy equals its value, and another value doesn't.
fn is_whole<T: TryCopy + PartialEq>(value: T, other: T) -> Result<bool, OutOfMemory> {
    Ok(value.copy()? == value && value != other)
}

fn form_is_whole(alloc: Global, form: u32) -> Result<bool, OutOfMemory> {
    is_whole(bound(alloc, form, 70)?, bound(alloc, form, 71)?)
}

#[test]
fn bound_statements_are_copied_and_compared_whole(rt: HostRuntime) -> Result<(), Fail> {
    for form in 0..3_u32 {
        assert!(rt; form_is_whole(rt.alloc(), form)?, "{form}");
    }
    Ok(())
}
