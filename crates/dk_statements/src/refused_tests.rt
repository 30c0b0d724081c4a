//! Texts with a mark at the place of their refusal, of all that is wrong in them, behind the name of the refusal.
use crate::scene::{bound, tables};
use dk_bind::BindError;
use dk_pages::Tree;
use dk_types::Refusal;
use dk_values::OutOfMemory;
use std::alloc::Global;
use std::test::Fail;

/// The name of a refusal that has a place.
fn name_of(refusal: Refusal) -> &'static str {
    match refusal {
        Refusal::Syntax { .. } => "syntax",
        Refusal::NoTable { .. } => "table",
        Refusal::NoColumn { .. } => "column",
        Refusal::TypeMismatch { .. } => "mismatch",
        Refusal::SameColumn { .. } => "same",
        Refusal::NotGrouped { .. } => "grouped",
        Refusal::TableExists { .. } => "exists",
        _ => "other",
    }
}

/// The place of such a refusal.
fn place_of(refusal: Refusal) -> Option<u64> {
    match refusal {
        Refusal::Syntax { at }
        | Refusal::NoTable { at }
        | Refusal::NoColumn { at }
        | Refusal::TypeMismatch { at }
        | Refusal::SameColumn { at }
        | Refusal::NotGrouped { at }
        | Refusal::TableExists { at } => Some(at),
        _ => None,
    }
}

/// Whether a text is refused by that name, behind its front.
fn is_refused(
    alloc: Global,
    view: &Tree,
    name: &str,
    front: &str,
    rest: &str,
) -> Result<bool, OutOfMemory> {
    let mut text = Vec::from_slice(alloc, front.as_bytes())?;
    text.extend_from_slice(rest.as_bytes())?;
    match bound(alloc, view, text.as_slice()) {
        Err(BindError::Refused(refusal)) => Ok(
            name_of(refusal) == name && place_of(refusal) == Some(front.len() as u64),
        ),
        Err(BindError::OutOfMemory) => Err(OutOfMemory),
        Ok(_) => Ok(false),
    }
}

/// The first line of a table that is not refused at its mark by its name.
fn first_wrong(alloc: Global, lines: &str) -> Result<Option<&str>, OutOfMemory> {
    let view = tables(alloc)?;
    for line in lines.lines() {
        let (name, text) = line.split_once(": ").unwrap_or((line, ""));
        let (front, rest) = text.split_once("^").unwrap_or((text, ""));
        if !is_refused(alloc, &view, name, front, rest)? {
            return Ok(Some(line));
        }
    }
    Ok(None)
}

/// Statements that change tables: the tables are looked up first, then the parts are bound.
fn changes() -> &'static str {
    "exists: CREATE TABLE ^t (a BIGINT, a BIGINT)
same: CREATE TABLE v (a BIGINT, b BIGINT, ^a VARCHAR, b BIGINT)
table: INSERT INTO ^v VALUES (1)
table: INSERT INTO ^v SELECT x FROM w
table: INSERT INTO t SELECT x FROM ^w
table: COPY ^v FROM STDIN
table: UPDATE ^v SET a = 1
table: DELETE FROM ^v WHERE x
syntax: SELECT x FROM v ^x
mismatch: INSERT INTO t VALUES (1, 2, 'x', TRUE), ^(1, 'x', 2)
mismatch: INSERT INTO t VALUES (1, ^'x', 2, TRUE), (1)
mismatch: INSERT INTO u VALUES (1), (^TRUE)
mismatch: INSERT INTO u ^SELECT a, y FROM t
mismatch: INSERT INTO u ^SELECT * FROM t
column: INSERT INTO u SELECT ^x FROM t WHERE a
mismatch: INSERT INTO u SELECT ^c FROM t WHERE x
grouped: INSERT INTO u SELECT ^c FROM t GROUP BY a
mismatch: INSERT INTO u SELECT ^min(c) FROM t
mismatch: INSERT INTO u SELECT sum(^c) FROM t
mismatch: INSERT INTO u SELECT a ^= 1 FROM t
mismatch: INSERT INTO t SELECT sum(a), sum(b), max(c), ^count(*) FROM t
mismatch: INSERT INTO t SELECT n, n, ^n, x FROM u
column: UPDATE t SET ^x = y
same: UPDATE t SET a = 1, ^a = x
column: UPDATE t SET a = 1, b = ^x
mismatch: UPDATE t SET b = ^'x', a = x
mismatch: UPDATE t SET a = 1 WHERE ^c
column: DELETE FROM t WHERE ^x"
}

#[test]
fn changes_are_refused_at_their_marks(rt: HostRuntime) -> Result<(), Fail> {
    assert_eq!(rt; first_wrong(rt.alloc(), changes())?, None);
    Ok(())
}

/// Queries: operators take their kinds, and the parts are bound in the order of the text.
fn queries() -> &'static str {
    "column: SELECT a, ^x FROM t WHERE y
column: SELECT ^x + 'a' FROM t
column: SELECT a * (c < ^x) FROM t
mismatch: SELECT a ^+ c FROM t
mismatch: SELECT ^-c FROM t
mismatch: SELECT ^NOT a FROM t
mismatch: SELECT a ^= c FROM t
mismatch: SELECT d ^AND a FROM t
mismatch: SELECT a FROM t WHERE ^a
column: SELECT a FROM t WHERE ^x GROUP BY a ORDER BY y
grouped: SELECT ^a FROM t WHERE x GROUP BY y
column: SELECT count(*) FROM t GROUP BY ^x ORDER BY y
column: SELECT a FROM t GROUP BY a ORDER BY ^x
grouped: SELECT a FROM t GROUP BY a ORDER BY ^b
grouped: SELECT ^* FROM t GROUP BY a
grouped: SELECT count(*), a ^+ 1 FROM t
syntax: SELECT a FROM t WHERE ^count(a) = 1"
}

#[test]
fn queries_are_refused_at_their_marks(rt: HostRuntime) -> Result<(), Fail> {
    assert_eq!(rt; first_wrong(rt.alloc(), queries())?, None);
    Ok(())
}
