//! Texts with the statements that they are, texts with the place of their first fault, and the limits.
use crate::show::Page;
use crate::{ParseError, parse};
use dk_syntax::Statement;
use dk_values::OutOfMemory;
use std::alloc::Global;
use std::test::Fail;

/// Reads a text that is not too long, with the data `1,2`.
fn read(alloc: Global, text: &[u8]) -> Result<Statement, ParseError> {
    if text.len() >= 1 << 32 {
        return Err(ParseError::OutOfMemory);
    }
    parse(alloc, text, b"1,2")
}

/// The place of a text's first fault, if it has one.
fn fault_in(alloc: Global, text: &[u8]) -> Result<Option<u64>, OutOfMemory> {
    match read(alloc, text) {
        Ok(_) => Ok(None),
        Err(ParseError::Syntax { at }) => Ok(Some(at)),
        Err(ParseError::OutOfMemory) => Err(OutOfMemory),
    }
}

/// Whether a text is the statement that is shown so.
fn is_shown(alloc: Global, text: &[u8], wanted: &[u8]) -> Result<bool, OutOfMemory> {
    let Ok(statement) = read(alloc, text) else {
        return Ok(false);
    };
    let mut page = Page {
        text,
        shown: Vec::new(alloc),
    };
    page.put_statement(&statement)?;
    Ok(page.shown.as_slice() == wanted)
}

/// Each line a text, `=>`, and how its statement is shown.
fn good() -> &'static str {
    "CREATE TABLE t (a BIGINT) => CREATE t a BIGINT
create\tTABLE  T1(a boolean,B INTEGER , c bigint,_d VarChar)\t => CREATE t1 a BOOLEAN b INTEGER c BIGINT _d VARCHAR
INSERT INTO t VALUES (1) => INSERT t (1,)
insert into t values(1,-2,- 3),('a',TRUE,false,NuLL) => INSERT t (1,-2,-3,) ('a',TRUE,FALSE,NULL,)
INSERT INTO t VALUES(9223372036854775807,-9223372036854775808,-0,007) => INSERT t (9223372036854775807,-9223372036854775808,0,7,)
INSERT INTO t VALUES ('it''s','','''',' a ','é;--') => INSERT t ('it's','',''',' a ','é;--',)
INSERT INTO t SELECT * FROM u => INSERT t * FROM u
INSERT INTO t SELECT a, b FROM u WHERE a = 1 LIMIT 3 => INSERT t a,b, FROM u WHERE (a = 1) LIMIT 3
COPY t FROM STDIN => COPY t 1,2
BEGIN => BEGIN
commit => COMMIT
RollBack => ROLLBACK
  checkpoint\t => CHECKPOINT
SELECT * FROM t => * FROM t
SELECT a FROM t => a, FROM t
SELECT a, b , 1, 'x', NULL FROM t => a,b,1,'x',NULL, FROM t
SELECT count(*), count(a), sum(a + 1), min(b), MAX ( c ) FROM t => count(*),count(a),sum((a + 1)),min(b),max(c), FROM t
SELECT count ( * ) FROM t GROUP BY a,b => count(*), FROM t BY a BY b
SELECT a FROM t ORDER BY a, b DESC, c ASC, d => a, FROM t UP a DOWN b UP c UP d
SELECT a FROM t LIMIT 0 => a, FROM t LIMIT 0
SELECT a FROM t LIMIT 9223372036854775807 => a, FROM t LIMIT 9223372036854775807
SELECT a,sum(b) FROM t WHERE c GROUP BY a ORDER BY a DESC LIMIT 1 => a,sum(b), FROM t WHERE c BY a DOWN a LIMIT 1
SELECT a + b * c FROM t => (a + (b * c)), FROM t
SELECT a * b + c FROM t => ((a * b) + c), FROM t
SELECT (a + b) * c FROM t => ((a + b) * c), FROM t
SELECT a - b - c FROM t => ((a - b) - c), FROM t
SELECT a - (b - c) FROM t => (a - (b - c)), FROM t
SELECT a*b*c FROM t => ((a * b) * c), FROM t
SELECT a-1 FROM t => (a - 1), FROM t
SELECT a - -1 FROM t => (a - -1), FROM t
SELECT -a FROM t => (-a), FROM t
SELECT - - 5 FROM t => (--5), FROM t
SELECT -5*-b FROM t => (-5 * (-b)), FROM t
SELECT -(5) FROM t => (-5), FROM t
SELECT ((((a)))) FROM t => a, FROM t
SELECT a = b, a<>b, a<b, a<=b, a>b, a>=b FROM t => (a = b),(a <> b),(a < b),(a <= b),(a > b),(a >= b), FROM t
SELECT a + 1 < b * 2 FROM t => ((a + 1) < (b * 2)), FROM t
SELECT a IS NULL, a IS NOT NULL FROM t => (a IS NULL),(a IS NOT NULL), FROM t
SELECT a + b IS NULL FROM t => ((a + b) IS NULL), FROM t
SELECT NOT a IS NULL FROM t => (NOT (a IS NULL)), FROM t
SELECT NOT NOT a = b FROM t => (NOT (NOT (a = b))), FROM t
SELECT a OR b AND c FROM t => (a OR (b AND c)), FROM t
SELECT a AND b OR c FROM t => ((a AND b) OR c), FROM t
SELECT a OR b OR c FROM t => ((a OR b) OR c), FROM t
SELECT a AND b AND c FROM t => ((a AND b) AND c), FROM t
SELECT NOT a AND b FROM t => ((NOT a) AND b), FROM t
SELECT (a OR b) AND NOT (c OR d) FROM t => ((a OR b) AND (NOT (c OR d))), FROM t
SELECT (a = b) = (c = d) FROM t => ((a = b) = (c = d)), FROM t
SELECT a FROM t WHERE a=1 AND b IS NOT NULL OR NOT c<2 => a, FROM t WHERE (((a = 1) AND (b IS NOT NULL)) OR (NOT (c < 2)))
UPDATE t SET a = 1 => UPDATE t a:=1
UPDATE t SET a=a+1,b=NULL , c = 'x' WHERE d => UPDATE t a:=(a + 1) b:=NULL c:='x' WHERE d
DELETE FROM t => DELETE t
DELETE FROM t WHERE a = 'b' => DELETE t WHERE (a = 'b')
SELECT drop, tables, serializable FROM ands => drop,tables,serializable, FROM ands"
}

/// Each line a text with `^` before what is its first fault.
fn faulty_changes() -> &'static str {
    "^
  ^
^1
^t
^(
^'
BEGIN ^;
BEGIN ^BEGIN
CREATE ^t (a BIGINT)
CREATE TABLE ^table (a BIGINT)
CREATE TABLE t ^
CREATE TABLE t (^)
CREATE TABLE t (a ^)
CREATE TABLE t (a ^TEXT)
CREATE TABLE t (a BIGINT ^b BIGINT)
CREATE TABLE t (a BIGINT, ^)
CREATE TABLE t (a BIGINT^
INSERT ^t VALUES (1)
INSERT INTO t ^(1)
INSERT INTO t VALUES ^
INSERT INTO t VALUES (^)
INSERT INTO t VALUES (^a)
INSERT INTO t VALUES (1 ^+ 1)
INSERT INTO t VALUES (-^'a')
INSERT INTO t VALUES (-  ^a)
INSERT INTO t VALUES (1^;
INSERT INTO t VALUES (1) ^(2)
INSERT INTO t VALUES (^9223372036854775808)
INSERT INTO t VALUES (- ^9223372036854775809)
INSERT INTO t VALUES (^18446744073709551616)
INSERT INTO t VALUES (^'a
INSERT INTO t VALUES ('a'^'
INSERT INTO t VALUES ('a' ^'b')
COPY t FROM ^t
COPY t FROM STDIN ^x
UPDATE t SET a^.b = 1
UPDATE t SET a ^1
UPDATE t SET a = 1, ^WHERE b
UPDATE t ^a = 1
DELETE ^t
DELETE FROM t WHERE ^
DELETE FROM t ^WHERES a
ROLLBACK ^WORK"
}

/// Queries, marked in the same way.
fn faulty_queries() -> &'static str {
    "SELECT ^
SELECT ^FROM t
SELECT * ^, a FROM t
SELECT a ^b FROM t
SELECT a, ^FROM t
SELECT a ^
SELECT a FROM ^
SELECT a FROM t ^u
SELECT a FROM t ORDER ^a
SELECT a FROM t ORDER BY ^
SELECT a FROM t ORDER BY a ASC ^DESC
SELECT a FROM t ORDER BY ^1
SELECT a FROM t GROUP BY a ^DESC
SELECT a FROM t LIMIT 1 ^ORDER BY a
SELECT a FROM t ORDER BY a ^GROUP BY a
SELECT a FROM t GROUP BY a ^WHERE b
SELECT a FROM t LIMIT ^-1
SELECT a FROM t LIMIT ^9223372036854775808
SELECT a FROM t ^LIMIT1
SELECT sum(^*) FROM t
SELECT count(^) FROM t
SELECT count ^FROM t
SELECT count(* ^FROM t
SELECT count(a ^, b) FROM t
SELECT sum(a) ^+ 1 FROM t
SELECT 1 + ^sum(a) FROM t
SELECT 1 + ^NOT a FROM t
SELECT a = b ^= c FROM t
SELECT a IS NULL ^IS NULL FROM t
SELECT a IS ^b FROM t
SELECT a IS NOT ^a FROM t
SELECT a < ^> b FROM t
SELECT a ^! b FROM t
SELECT a =^= b FROM t
SELECT (a ^FROM t
SELECT a ^) FROM t
SELECT a + ^* b FROM t
SELECT - - ^FROM t
SELECT 1^a FROM t
SELECT ^limit FROM t
SELECT a ^é FROM t
SELECT a FROM ^é
SELECT a ^\0 FROM t"
}

#[test]
fn texts_are_their_statements(rt: HostRuntime) -> Result<(), Fail> {
    for line in good().lines() {
        let Some((text, wanted)) = line.split_once(" => ") else {
            return Err(Fail::new("a line has no statement"));
        };
        assert!(rt;
            is_shown(rt.alloc(), text.as_bytes(), wanted.as_bytes())?,
            "{line}"
        );
    }
    Ok(())
}

/// Whether the first fault of a text is behind its front.
fn is_fault_behind(alloc: Global, front: &str, rest: &str) -> Result<bool, OutOfMemory> {
    let mut text = Vec::from_slice(alloc, front.as_bytes())?;
    text.extend_from_slice(rest.as_bytes())?;
    Ok(fault_in(alloc, text.as_slice())? == Some(front.len() as u64))
}

/// The first line of a table whose first fault is not behind its mark.
fn first_misplaced(alloc: Global, lines: &str) -> Result<Option<&str>, OutOfMemory> {
    for line in lines.lines() {
        let (front, rest) = line.split_once("^").unwrap_or((line, ""));
        if !is_fault_behind(alloc, front, rest)? {
            return Ok(Some(line));
        }
    }
    Ok(None)
}

#[test]
fn faults_have_their_places(rt: HostRuntime) -> Result<(), Fail> {
    assert_eq!(rt; first_misplaced(rt.alloc(), faulty_changes())?, None);
    assert_eq!(rt; first_misplaced(rt.alloc(), faulty_queries())?, None);
    Ok(())
}

/// Whether a text is a statement, or has its first fault within it, with a front that may go on.
fn is_read_to_its_fault(alloc: Global, text: &[u8]) -> Result<bool, OutOfMemory> {
    let Some(at) = fault_in(alloc, text)? else {
        return Ok(true);
    };
    let Some(front) = text.get(..at as usize) else {
        return Ok(false);
    };
    Ok(match fault_in(alloc, front)? {
        Some(end) => end == at,
        None => true,
    })
}

/// Whether this holds of all fronts of a text, also where the byte behind the front is another.
fn fronts_are_read(alloc: Global, text: &[u8], byte: u8) -> Result<bool, OutOfMemory> {
    let mut changed = Vec::from_slice(alloc, text)?;
    for at in 0..text.len() {
        changed[at] = byte;
        if !is_read_to_its_fault(alloc, &text[..at])? || !is_read_to_its_fault(alloc, &changed)? {
            return Ok(false);
        }
        changed[at] = text[at];
    }
    Ok(true)
}

#[test]
fn cut_and_changed_texts_are_read_to_their_first_fault(rt: HostRuntime) -> Result<(), Fail> {
    for line in good().lines() {
        for byte in [b'\'', b'-', 0xff] {
            assert!(rt;
                fronts_are_read(rt.alloc(), line.as_bytes(), byte)?,
                "{line}"
            );
        }
    }
    Ok(())
}

/// A text of a front, a piece so many times, and an end, with the place of its first fault.
type Long = (
    &'static [u8],
    &'static [u8],
    u32,
    &'static [u8],
    Option<u64>,
);

/// The text itself.
fn repeated(alloc: Global, long: &Long) -> Result<Vec<u8>, OutOfMemory> {
    let (front, piece, count, end, _) = *long;
    let mut text = Vec::from_slice(alloc, front)?;
    for _ in 0..count {
        text.extend_from_slice(piece)?;
    }
    text.extend_from_slice(end)?;
    Ok(text)
}

/// Whether a text has its first fault where it should.
fn is_told(alloc: Global, long: &Long) -> Result<bool, OutOfMemory> {
    let text = repeated(alloc, long)?;
    Ok(fault_in(alloc, text.as_slice())? == long.4)
}

/// The place among these of the first text that has its first fault elsewhere.
fn first_untold(alloc: Global, texts: &[Long]) -> Result<Option<usize>, OutOfMemory> {
    for (place, long) in texts.iter().enumerate() {
        if !is_told(alloc, long)? {
            return Ok(Some(place));
        }
    }
    Ok(None)
}

/// Each limit of levels and operators, and one above it, which is refused at its token.
const LEVELS: [Long; 12] = [
    (b"SELECT ", b"NOT ", 64, b"a FROM t", None),
    (b"SELECT ", b"NOT ", 65, b"a FROM t", Some(263)),
    (b"SELECT ", b"- ", 64, b"a FROM t", None),
    (b"SELECT ", b"- ", 65, b"a FROM t", Some(135)),
    (b"SELECT ", b"- ", 65, b"1 FROM t", None),
    (b"SELECT ", b"(", 64, b"a", Some(72)),
    (b"SELECT ", b"(", 65, b"a", Some(71)),
    (b"SELECT ", b"(", 5_000_000, b"", Some(71)),
    (b"SELECT a", b"+1", 1_000, b" FROM t", None),
    (b"SELECT a", b"+1", 1_001, b" FROM t", Some(2_008)),
    (b"SELECT a", b"=(1*b)", 1, b" FROM t", None),
    (b"SELECT a, a", b"+1", 1_000, b" FROM t", None),
];

#[test]
fn levels_and_operators_have_limits(rt: HostRuntime) -> Result<(), Fail> {
    assert_eq!(rt; first_untold(rt.alloc(), &LEVELS)?, None);
    Ok(())
}

/// The same of names, numbers and columns.
const LENGTHS: [Long; 8] = [
    (b"DELETE FROM ", b"x", 63, b"", None),
    (b"DELETE FROM ", b"x", 64, b"", Some(12)),
    (b"SELECT ", b"9", 1_000, b" FROM t", Some(7)),
    (b"SELECT ", b"0", 1_000, b"1 FROM t", None),
    (b"CREATE TABLE t (a BIGINT", b", a BIGINT", 63, b")", None),
    (
        b"CREATE TABLE t (a BIGINT",
        b", a BIGINT",
        64,
        b")",
        Some(656),
    ),
    (b"SELECT a", b", a", 1_000, b" FROM t", None),
    (b"", b" ", 1_000_000, b"\xff", Some(1_000_000)),
];

#[test]
fn names_numbers_and_columns_have_limits(rt: HostRuntime) -> Result<(), Fail> {
    assert_eq!(rt; first_untold(rt.alloc(), &LENGTHS)?, None);
    Ok(())
}

/// Texts in UTF-8, others, and texts that are closed or not.
const QUOTED: [Long; 7] = [
    (b"SELECT '\xff' FROM t", b"", 0, b"", Some(7)),
    (b"SELECT 'a''\xff' FROM t", b"", 0, b"", Some(10)),
    (b"SELECT '\xc3''\xa9' FROM t", b"", 0, b"", Some(7)),
    (b"SELECT '\0' FROM t", b"", 0, b"", None),
    (b"SELECT a FROM t\n", b"", 0, b"", Some(15)),
    (b"SELECT '", b"''", 1_000_000, b"' FROM t", None),
    (b"SELECT '", b"''", 1_000_000, b" FROM t", Some(2_000_007)),
];

#[test]
fn texts_are_utf8_and_are_closed(rt: HostRuntime) -> Result<(), Fail> {
    assert_eq!(rt; first_untold(rt.alloc(), &QUOTED)?, None);
    Ok(())
}
