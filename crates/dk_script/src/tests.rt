//! Scripts, with the output that the language gives them, and runs that faults end.
use crate::plain::{SessionAnswer, plain_output};
use crate::serve::serve;
use crate::trouble::{Trouble, status_for, trouble_behind};
use dk_device::MemoryDisk;
use dk_io::{MemorySink, MemorySource, NoPause};
use dk_plain_engine::Answer;
use dk_texts::{put, put_number};
use dk_types::{Exhausted, Holder, List, OutOfMemory, Receipt, Refusal, Reply, Status};
use std::alloc::Global;
use std::process::Abort;
use std::test::Fail;

const FIRST: &[u8] =
    b"1: CREATE TABLE t (a BIGINT);\n1: INSERT INTO t VALUES (1),(2);\n1: SELECT * FROM t;\n";

fn bytes(alloc: Global, text: &[u8]) -> Result<Vec<u8>, OutOfMemory> {
    Vec::from_slice(alloc, text)
}

fn words(alloc: Global, texts: &[&str]) -> Result<Vec<String>, OutOfMemory> {
    let mut words = Vec::new(alloc);
    for text in texts {
        words.push(String::from_str(alloc, text)?)?;
    }
    Ok(words)
}

/// What a run printed, and the status that it ended with.
#[derive(Debug, Drop)]
struct Printed {
    output: Vec<u8>,
    status: Status,
}

/// What a run prints over this source and this sink.
fn run_over(
    alloc: Global,
    texts: &[&str],
    mut source: MemorySource,
    mut sink: MemorySink,
) -> Result<Printed, OutOfMemory> {
    let disk = MemoryDisk::new(Vec::new(alloc), Vec::new(alloc), Vec::new(alloc));
    let words = words(alloc, texts)?;
    let (status, _disk) = serve(
        alloc,
        words.as_slice(),
        &mut source,
        &mut sink,
        disk,
        &NoPause,
    );
    Ok(Printed {
        output: bytes(alloc, sink.bytes())?,
        status,
    })
}

/// What a script prints, in pieces of three bytes.
fn run(alloc: Global, script: &[u8]) -> Result<Printed, OutOfMemory> {
    let source = MemorySource::new(bytes(alloc, script)?, Vec::new(alloc), 3);
    run_over(alloc, &["run"], source, MemorySink::new(Vec::new(alloc), 3))
}

/// What the first script prints, where the source fails at these calls.
fn run_failing(alloc: Global, calls: Vec<u64>) -> Result<Printed, OutOfMemory> {
    let source = MemorySource::new(bytes(alloc, FIRST)?, calls, 3);
    run_over(alloc, &["run"], source, MemorySink::new(Vec::new(alloc), 3))
}

/// What a long script prints, in large pieces.
fn run_long(alloc: Global, script: Vec<u8>) -> Result<Printed, OutOfMemory> {
    let source = MemorySource::new(script, Vec::new(alloc), 65_536);
    run_over(
        alloc,
        &["run"],
        source,
        MemorySink::new(Vec::new(alloc), 64),
    )
}

/// What each script prints, in pieces of three bytes, and the status that its run ends with.
#[derive(Drop)]
struct Case<'a> {
    script: &'a [u8],
    output: &'a [u8],
    status: Status,
}

/// A script that is answered to its end.
fn done<'a>(script: &'a [u8], output: &'a [u8]) -> Case<'a> {
    Case {
        script,
        output,
        status: Status::Done,
    }
}

/// A script that has a bad line.
fn bad<'a>(script: &'a [u8], output: &'a [u8], line: u64) -> Case<'a> {
    Case {
        script,
        output,
        status: Status::BadLine { line },
    }
}

fn are_printed(rt: &impl Abort, alloc: Global, cases: &[Case<'_>]) -> Result<(), Fail> {
    for case in cases {
        let printed = run(alloc, case.script)?;
        assert_eq!(rt; printed.output.as_slice(), case.output);
        assert_eq!(rt; printed.status, case.status);
    }
    Ok(())
}

#[test]
fn lines_are_read(rt: HostRuntime) -> Result<(), Fail> {
    let cases = [
        done(FIRST, b"1 created\n1 changed 2\n1 rows 2\n1\n2\n"),
        done(b"", b""),
        bad(b"1 SELECT * FROM t;\n", b"bad line 1\n", 1),
        done(b"32: SELECT * FROM t;", b"32 no table at 14\n"),
        bad(b"0: BEGIN;\n", b"bad line 1\n", 1),
        bad(b"33: BEGIN;\n", b"bad line 1\n", 1),
        bad(b"01: BEGIN;\n", b"bad line 1\n", 1),
        bad(b"1: BEGIN\n", b"bad line 1\n", 1),
        bad(b"1: BEGIN; \n", b"bad line 1\n", 1),
        bad(b"1: \xff;\n", b"bad line 1\n", 1),
        bad(b" \n", b"bad line 1\n", 1),
        bad(
            b"\r\n-- \xff\n\n1: x;\r\n2:;\n1: x;\n",
            b"1 syntax error at 0\nbad line 5\n",
            5,
        ),
        bad(
            b"1: create\ttable T_1(A bigint , b BIGINT);\n1:insert;\n",
            b"1 created\nbad line 2\n",
            2,
        ),
        done(b"1: SELECT * FROM t; --;\n", b"1 syntax error at 15\n"),
        done(b"1: COPY t FROM STDIN;\n", b"1 syntax error at 0\n"),
        done(
            b"1: CREATE TABLE t (a BIGINT);\n1: COPY t FROM STDIN;\n",
            b"1 created\n1 syntax error at 0\n",
        ),
    ];
    are_printed(&rt, rt.alloc(), &cases)
}

#[test]
fn statements_are_answered(rt: HostRuntime) -> Result<(), Fail> {
    let cases = [
        done(
            b"1: CREATE TABLE t (a BIGINT, b BIGINT);\n1: INSERT INTO T VALUES(-9223372036854775808,- 1), (9223372036854775807,007);\n1: SELECT*FROM t ;",
            b"1 created\n1 changed 2\n1 rows 2\n-9223372036854775808,-1\n9223372036854775807,7\n",
        ),
        done(
            b"1: CREATE TABLE t (a BIGINT);\n1: CREATE TABLE t (b BIGINT);\n1: CREATE TABLE u (a BIGINT, a BIGINT);\n1: CREATE TABLE sum (a BIGINT);\n",
            b"1 created\n1 table exists at 13\n1 same column at 26\n1 syntax error at 13\n",
        ),
        done(
            b"1: CREATE TABLE t (a BIGINT);\n1: INSERT INTO t VALUES (1,2);\n1: INSERT INTO x VALUES (1);\n1: SELECT * FROM t;\n",
            b"1 created\n1 type mismatch at 21\n1 no table at 12\n1 rows 0\n",
        ),
        done(
            b"1: CREATE TABLE t (a BIGINT);\n1: INSERT INTO t VALUES (1),(2);\n1: UPDATE t SET a = 9;\n1: SELECT * FROM t;\n1: DELETE FROM t;\n1: SELECT * FROM t;\n1: CHECKPOINT;\n1: CHECKPOINT;\n",
            b"1 created\n1 changed 2\n1 changed 2\n1 rows 2\n9\n9\n1 changed 2\n1 rows 0\n1 checkpointed 2\n1 checkpointed 3\n",
        ),
    ];
    are_printed(&rt, rt.alloc(), &cases)
}

#[test]
fn queries_are_answered(rt: HostRuntime) -> Result<(), Fail> {
    let cases = [
        // Every type; rows in the order of a column, NULL lowest; texts with signs of their own.
        done(
            b"1: CREATE TABLE t (a INTEGER, b VARCHAR, c BOOLEAN);\n1: INSERT INTO t VALUES (2,'x,y',TRUE),(NULL,'''',FALSE),(-1,NULL,NULL);\n1: SELECT * FROM t ORDER BY a;\n1: SELECT c, a + 1 FROM t WHERE b IS NOT NULL;\n1: SELECT b FROM t WHERE a < 0;\n",
            b"1 created\n1 changed 3\n1 rows 3\n,',false\n-1,,\n2,\"x,y\",true\n1 rows 2\ntrue,3\nfalse,\n1 rows 1\n\"\"\n",
        ),
        // Groups with aggregates, what they are ordered by, and how many.
        done(
            b"1: CREATE TABLE t (a BIGINT, b BIGINT);\n1: INSERT INTO t VALUES (1,10),(2,20),(1,30),(NULL,5),(2,NULL);\n1: SELECT a, count(*), count(b), sum(b), min(b), max(b) FROM t GROUP BY a;\n1: SELECT a FROM t GROUP BY a ORDER BY a DESC LIMIT 2;\n1: SELECT count(*), sum(b) FROM t WHERE a > 2;\n",
            b"1 created\n1 changed 5\n1 rows 3\n,1,1,5,5,5\n1,2,2,40,10,30\n2,2,1,20,20,20\n1 rows 2\n2\n1\n1 rows 1\n0,\n",
        ),
        // A filter keeps the rows of a change, and a query gives those of an insertion.
        done(
            b"1: CREATE TABLE t (a BIGINT, b INTEGER);\n1: INSERT INTO t VALUES (1,1),(2,2),(3,3);\n1: UPDATE t SET a = b * 10, b = a + 1 WHERE a >= 2;\n1: DELETE FROM t WHERE b = 3;\n1: INSERT INTO t SELECT b, a FROM t WHERE a = 30;\n1: SELECT * FROM t;\n",
            b"1 created\n1 changed 3\n1 changed 2\n1 changed 1\n1 changed 1\n1 rows 3\n1,1\n30,4\n4,30\n",
        ),
    ];
    are_printed(&rt, rt.alloc(), &cases)
}

#[test]
fn values_that_do_not_fit_are_refused(rt: HostRuntime) -> Result<(), Fail> {
    let cases = [
        // 32 bits hold an INTEGER: the number of the tuple, or the id of the row.
        done(
            b"1: CREATE TABLE t (a INTEGER);\n1: INSERT INTO t VALUES (2147483647),(2147483648);\n1: INSERT INTO t VALUES (2147483647),(5);\n1: DELETE FROM t WHERE a = 5;\n1: INSERT INTO t VALUES (7);\n1: UPDATE t SET a = a * 1000000000 WHERE a < 10;\n1: SELECT a * a * a FROM t;\n1: SELECT * FROM t WHERE a < 10 OR a IS NULL;\n",
            b"1 created\n1 out of range row 1\n1 changed 2\n1 changed 1\n1 changed 1\n1 out of range row 2\n1 out of range row 0\n1 rows 1\n7\n",
        ),
        // The first refusal by its place in the text.
        done(
            b"1: CREATE TABLE t (a BIGINT, b VARCHAR);\n1: SELECT a, x FROM t WHERE y;\n1: SELECT a + b FROM t;\n1: SELECT * FROM t GROUP BY a;\n1: INSERT INTO t VALUES (1, 2);\n1: UPDATE t SET a = 1, a = 2;\n1: SELECT a FROM t WHERE;\n",
            b"1 created\n1 no column at 10\n1 type mismatch at 9\n1 not grouped at 7\n1 type mismatch at 25\n1 same column at 20\n1 syntax error at 21\n",
        ),
    ];
    are_printed(&rt, rt.alloc(), &cases)
}

#[test]
fn sessions_are_answered(rt: HostRuntime) -> Result<(), Fail> {
    let cases = [
        // Two sessions: one sees its snapshot, and is refused the row that the other has changed.
        done(
            b"1: CREATE TABLE t (a BIGINT);\n1: INSERT INTO t VALUES (1),(2);\n1: BEGIN;\n2: BEGIN;\n2: UPDATE t SET a = 9;\n1: SELECT * FROM t;\n2: COMMIT;\n1: UPDATE t SET a = 5;\n1: SELECT * FROM t;\n1: ROLLBACK;\n1: COMMIT;\n",
            b"1 created\n1 changed 2\n1 begun 2\n2 begun 2\n2 changed 2\n1 rows 2\n1\n2\n2 committed 3\n1 conflict t 0 commit 3\n1 aborted\n1 ended\n1 no transaction\n",
        ),
        // A row that an open transaction has changed.
        done(
            b"1: CREATE TABLE t (a BIGINT);\n1: INSERT INTO t VALUES (1);\n1: BEGIN;\n2: BEGIN;\n2: UPDATE t SET a = 9;\n1: UPDATE t SET a = 5;\n",
            b"1 created\n1 changed 1\n1 begun 2\n2 begun 2\n2 changed 1\n1 conflict t 0 transaction 3\n",
        ),
        // Each statement in a transaction that is open, in one that is aborted, and outside one.
        done(
            b"1: BEGIN;\n1: BEGIN;\n1: CREATE TABLE t (a BIGINT);\n1: CHECKPOINT;\n1: COMMIT;\n1: COMMIT;\n1: ROLLBACK;\n",
            b"1 begun 0\n1 in transaction\n1 in transaction\n1 in transaction\n1 ended\n1 no transaction\n1 no transaction\n",
        ),
        done(
            b"1: CREATE TABLE t (a BIGINT);\n1: INSERT INTO t VALUES (1);\n1: BEGIN;\n2: DELETE FROM t;\n1: DELETE FROM t;\n1: BEGIN;\n1: INSERT INTO t VALUES (2);\n1: CHECKPOINT;\n1: COMMIT;\n1: ROLLBACK;\n",
            b"1 created\n1 changed 1\n1 begun 2\n2 changed 1\n1 conflict t 0 commit 3\n1 aborted\n1 aborted\n1 aborted\n1 aborted\n1 ended\n",
        ),
        // Rows of an open transaction, which the end of the script drops.
        done(
            b"1: CREATE TABLE t (a BIGINT);\n1: BEGIN;\n1: INSERT INTO t VALUES (1);\n1: SELECT * FROM t;\n2: SELECT * FROM t;\n",
            b"1 created\n1 begun 1\n1 changed 1\n1 rows 1\n1\n2 rows 0\n",
        ),
    ];
    are_printed(&rt, rt.alloc(), &cases)
}

/// Puts one line for each of the sessions, `SESSION`, words, and an end.
fn put_lines(out: &mut Vec<u8>, words: &[u8]) -> Result<(), OutOfMemory> {
    for session in 1..33_u32 {
        put_number(out, session)?;
        put(out, words)?;
        put(out, b"\n")?;
    }
    Ok(())
}

#[test]
fn all_sessions_are_open_at_once(rt: HostRuntime) -> Result<(), Fail> {
    let mut script = Vec::new(rt.alloc());
    put_lines(&mut script, b": BEGIN;")?;
    put_lines(&mut script, b": COMMIT;")?;
    let mut output = Vec::new(rt.alloc());
    put_lines(&mut output, b" begun 0")?;
    put_lines(&mut output, b" ended")?;
    let printed = run(rt.alloc(), script.as_slice())?;
    assert_eq!(rt; printed.output.as_slice(), output.as_slice());
    assert_eq!(rt; printed.status, Status::Done);
    Ok(())
}

/// The answer of session 7 that has this reply.
fn reply_of(reply: Reply) -> SessionAnswer {
    SessionAnswer {
        session: 7,
        answer: Answer { reply, name: None },
    }
}

fn refusal_of(refusal: Refusal) -> SessionAnswer {
    reply_of(Reply::Refused(refusal))
}

#[test]
fn replies_have_their_texts(rt: HostRuntime) -> Result<(), Fail> {
    let receipt = Receipt {
        number: 3,
        moment: 9,
    };
    let conflict = Refusal::Conflict {
        table: 4,
        row: 5,
        by: Holder::Transaction(6),
    };
    let exhausted = Exhausted {
        clock: 0,
        rows: 1,
        transactions: 2,
        iteration: 3,
    };
    let name = List::from_vec(bytes(rt.alloc(), b"t")?);
    let answers = vec![in rt.alloc();
        reply_of(Reply::Created { receipt }),
        reply_of(Reply::Changed {
            count: 2,
            receipt: None
        }),
        reply_of(Reply::Begun { start: 2 }),
        reply_of(Reply::Committed { receipt }),
        reply_of(Reply::Ended),
        reply_of(Reply::Checkpointed { iteration: 8 }),
        SessionAnswer {
            session: 32,
            answer: Answer {
                reply: Reply::Refused(conflict),
                name: Some(name)
            },
        },
        refusal_of(Refusal::TooLarge {
            bytes: 10,
            rows: 11
        }),
        refusal_of(Refusal::Exhausted(exhausted)),
        refusal_of(Refusal::OutOfMemory),
        refusal_of(Refusal::DiskFault { stops: true }),
    ]?;
    let output = plain_output(rt.alloc(), answers.as_slice(), Some(12))?;
    assert_eq!(rt;
        output.as_slice(),
        b"7 created\n7 changed 2\n7 begun 2\n7 committed 3\n7 ended\n7 checkpointed 8\n32 conflict t 5 transaction 6\n7 too large 10 11\n7 exhausted\n7 out of memory\n7 disk fault stopped\nbad line 12\n".as_slice()
    );
    Ok(())
}

#[test]
fn the_gravest_trouble_is_the_status(rt: HostRuntime) -> Result<(), Fail> {
    let want = Reply::Refused(Refusal::OutOfMemory);
    let fault = Reply::Refused(Refusal::DiskFault { stops: false });
    let wanting = trouble_behind(Trouble::Nothing, &want);
    assert_eq!(rt; status_for(wanting), Status::OutOfMemory);
    assert_eq!(rt;
        status_for(trouble_behind(wanting, &Reply::Ended)),
        Status::OutOfMemory
    );
    let failed = trouble_behind(wanting, &fault);
    assert_eq!(rt;
        status_for(trouble_behind(failed, &want)),
        Status::DiskFault
    );
    Ok(())
}

#[test]
fn faults_end_a_run(rt: HostRuntime) -> Result<(), Fail> {
    let alloc = rt.alloc();
    let printed = run_failing(alloc, vec![in alloc; 0]?)?;
    assert_eq!(rt; printed.output.as_slice(), b"read fault\n".as_slice());
    assert_eq!(rt; printed.status, Status::ReadFault);
    // The first line has 30 bytes, which ten calls give.
    let printed = run_failing(alloc, vec![in alloc; 10]?)?;
    assert_eq!(rt;
        printed.output.as_slice(),
        b"1 created\nread fault\n".as_slice()
    );
    assert_eq!(rt; printed.status, Status::ReadFault);
    let source = MemorySource::new(bytes(alloc, FIRST)?, Vec::new(alloc), 3);
    let sink = MemorySink::new(vec![in alloc; 0]?, 3);
    let printed = run_over(alloc, &["run"], source, sink)?;
    assert_eq!(rt; printed.output.as_slice(), b"".as_slice());
    assert_eq!(rt; printed.status, Status::WriteFault);
    Ok(())
}

#[test]
fn a_source_is_asked_no_more_once_it_has_ended(rt: HostRuntime) -> Result<(), Fail> {
    let alloc = rt.alloc();
    // Two calls give the six bytes, the third says that there are no more, and a fourth would fail.
    let source = MemorySource::new(bytes(alloc, b"1: x;\r")?, vec![in alloc; 3]?, 3);
    let printed = run_over(alloc, &["run"], source, MemorySink::new(Vec::new(alloc), 3))?;
    assert_eq!(rt;
        printed.output.as_slice(),
        b"1 syntax error at 0\n".as_slice()
    );
    assert_eq!(rt; printed.status, Status::Done);
    Ok(())
}

#[test]
fn wrong_words_get_the_usage_line(rt: HostRuntime) -> Result<(), Fail> {
    let alloc = rt.alloc();
    let wrong: [&[&str]; 4] = [&[], &["run", "x"], &["fill", "0", "1"], &["--help"]];
    for texts in &wrong {
        let source = MemorySource::new(bytes(alloc, FIRST)?, Vec::new(alloc), 3);
        let printed = run_over(alloc, texts, source, MemorySink::new(Vec::new(alloc), 3))?;
        assert_eq!(rt;
            printed.output.as_slice(),
            b"usage: run | beside | fill N SEED\n".as_slice()
        );
        assert_eq!(rt; printed.status, Status::Usage);
    }
    Ok(())
}

#[test]
fn a_line_ends_at_its_limit(rt: HostRuntime) -> Result<(), Fail> {
    let alloc = rt.alloc();
    let mut line = vec![in alloc; b' '; 16_777_212]?;
    line.extend_from_slice(b"x;\n")?;
    let mut script = bytes(alloc, b"1:")?;
    script.append(&mut line)?;
    let printed = run_long(alloc, script)?;
    assert_eq!(rt;
        printed.output.as_slice(),
        b"1 syntax error at 16777211\n".as_slice()
    );
    assert_eq!(rt; printed.status, Status::Done);
    let mut script = vec![in alloc; b'1'; 16_777_217]?;
    script.extend_from_slice(b"\n")?;
    let printed = run_long(alloc, script)?;
    assert_eq!(rt; printed.output.as_slice(), b"bad line 1\n".as_slice());
    assert_eq!(rt; printed.status, Status::BadLine { line: 1 });
    Ok(())
}
