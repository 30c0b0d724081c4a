//! Histories by what sessions do, each with whether it is legal.
use crate::acts::Act;
use dk_si::limits::MAX_ITERATION;
use dk_types::{Holder, Refusal};

pub type Acts = &'static [(u32, Act<'static>)];

/// Whether such acts behind others make a legal history.
pub type Case = (bool, Acts);

/// The rows of a table `t`, or none where there is no table; the opened iteration; the acts with which the histories
/// begin; and what comes behind them.
pub type Histories = (
    Option<&'static [i64]>,
    u64,
    &'static [Acts],
    &'static [Case],
);

const TWO_ROWS: Option<&'static [i64]> = Some(&[1, 2]);

/// Session 1 begins, and session 2 begins and updates both rows.
pub const WRITERS: Acts = &[
    (1, Act::Begin),
    (1, Act::Begun(0, 0)),
    (1, Act::Started(0)),
    (2, Act::Begin),
    (2, Act::Begun(1, 0)),
    (2, Act::Started(0)),
    (2, Act::Update(9)),
    (2, Act::Changed(2)),
];

/// Session 1 doesn't see it, and session 2 commits.
const COMMITS: Acts = &[
    (1, Act::Select),
    (1, Act::Rows(&[1, 2])),
    (2, Act::Commit),
    (2, Act::Committed(1)),
];

/// A ROLLBACK of session 2 in flight, and its answer with a further call.
const ROLLBACK: Acts = &[(2, Act::Rollback)];

const ENDED: Acts = &[(2, Act::Ended), (2, Act::Begin)];

/// Session 1 updates what session 2 has updated.
const UPDATE: Acts = &[(1, Act::Update(5))];

/// What it may be answered where session 2 has committed.
const CONFLICTS: &[Case] = &[
    // any row that both change may be named, and no other
    (true, &[(1, Act::Held(0, Holder::Commit(1)))]),
    (true, &[(1, Act::Held(1, Holder::Commit(1)))]),
    (false, &[(1, Act::Held(2, Holder::Commit(1)))]),
    // the commit that holds it, and no other
    (false, &[(1, Act::Held(0, Holder::Commit(0)))]),
    (false, &[(1, Act::Held(0, Holder::Commit(2)))]),
    // the entry that ended the other transaction is its session's last one, so it may be named by its number
    (true, &[(1, Act::Held(0, Holder::Transaction(1)))]),
    (false, &[(1, Act::Held(0, Holder::Transaction(0)))]),
    // the update must not be made
    (false, &[(1, Act::Changed(2))]),
];

/// On one thread the least row that is held is named, by the commit that holds it.
const CONFLICTS_ALONE: &[Case] = &[
    (true, &[(1, Act::Held(0, Holder::Commit(1)))]),
    (false, &[(1, Act::Held(1, Holder::Commit(1)))]),
    (false, &[(1, Act::Held(0, Holder::Transaction(1)))]),
];

/// What it may be answered before session 2 commits.
const PENDING: &[Case] = &[
    (true, &[(1, Act::Held(0, Holder::Transaction(1)))]),
    (true, &[(1, Act::Held(1, Holder::Transaction(1)))]),
    (false, &[(1, Act::Held(0, Holder::Commit(1)))]),
    (false, &[(1, Act::Changed(2))]),
];

const PENDING_ALONE: &[Case] = &[
    (true, &[(1, Act::Held(0, Holder::Transaction(1)))]),
    (false, &[(1, Act::Held(1, Holder::Transaction(1)))]),
];

/// A ROLLBACK in flight lets the rows go, and its session still holds them.
const LET_GO: &[Case] = &[
    (true, &[(1, Act::Changed(2))]),
    (true, &[(1, Act::Held(0, Holder::Transaction(1)))]),
];

/// Behind another call of that session nothing holds them.
const FREE: &[Case] = &[
    (true, &[(1, Act::Changed(2))]),
    (false, &[(1, Act::Held(0, Holder::Transaction(1)))]),
];

const HELD: Act<'static> = Act::Held(0, Holder::Commit(1));

const ABORTED: Act<'static> = Act::Refused(Refusal::Aborted);

const NO_TRANSACTION: Act<'static> = Act::Refused(Refusal::NoTransaction);

const IN_TRANSACTION: Act<'static> = Act::Refused(Refusal::InTransaction);

/// The names of all statements stand at this place of their texts.
const NO_TABLE: Act<'static> = Act::Refused(Refusal::NoTable { at: 7 });

const TABLE_EXISTS: Act<'static> = Act::Refused(Refusal::TableExists { at: 7 });

/// A transaction that was refused for a row does nothing until its ROLLBACK.
const BEHIND_CONFLICT: &[Case] = &[
    (
        true,
        &[
            (1, HELD),
            (1, Act::Select),
            (1, ABORTED),
            (1, Act::Rollback),
            (1, Act::Ended),
        ],
    ),
    (
        true,
        &[
            (1, HELD),
            (1, Act::Rollback),
            (1, Act::Ended),
            (1, Act::Commit),
            (1, NO_TRANSACTION),
        ],
    ),
    (
        false,
        &[(1, HELD), (1, Act::Commit), (1, Act::Committed(2))],
    ),
];

const BEHIND_COMMIT: &[Case] = &[
    // a number of a commit that is given twice, and the next one
    (
        false,
        &[
            (2, Act::Insert(&[3])),
            (2, Act::Begun(2, 1)),
            (2, Act::ChangedAt(1, 1)),
        ],
    ),
    (
        true,
        &[
            (2, Act::Insert(&[3])),
            (2, Act::Begun(2, 1)),
            (2, Act::ChangedAt(1, 2)),
        ],
    ),
    // a read that sees a commit above its start, and one that misses a commit
    (false, &[(1, Act::Select), (1, Act::Rows(&[9, 9]))]),
    (
        false,
        &[
            (3, Act::Select),
            (3, Act::Begun(2, 1)),
            (3, Act::Rows(&[1, 2])),
        ],
    ),
    (
        true,
        &[
            (3, Act::Select),
            (3, Act::Begun(2, 1)),
            (3, Act::Rows(&[9, 9])),
        ],
    ),
    // a snapshot without a commit whose number was given out
    (
        false,
        &[
            (3, Act::Select),
            (3, Act::Begun(2, 0)),
            (3, Act::Rows(&[1, 2])),
        ],
    ),
];

const FIRST_ACTS: &[Case] = &[
    (true, &[]),
    // a second Begun for one call, a reply without a call, a second call
    (
        false,
        &[
            (1, Act::Begin),
            (1, Act::Begun(0, 0)),
            (1, Act::Begun(1, 0)),
        ],
    ),
    (false, &[(1, Act::Ended)]),
    (false, &[(1, Act::Begin), (1, Act::Select)]),
    // what needs a transaction, and what is not so
    (
        true,
        &[
            (1, Act::Commit),
            (1, NO_TRANSACTION),
            (1, Act::Rollback),
            (1, NO_TRANSACTION),
        ],
    ),
    (
        false,
        &[(1, Act::Select), (1, Act::Begun(0, 0)), (1, NO_TRANSACTION)],
    ),
    (
        true,
        &[
            (1, Act::SelectMissing),
            (1, Act::Begun(0, 0)),
            (1, NO_TABLE),
        ],
    ),
    (
        false,
        &[(1, Act::Select), (1, Act::Begun(0, 0)), (1, NO_TABLE)],
    ),
    // a transaction can begin
    (false, &[(1, Act::Begin), (1, Act::Spent(0, 0))]),
    (false, &[(1, Act::Select), (1, Act::Spent(1 << 40, 0))]),
];

const BEGIN: Acts = &[(1, Act::Begin), (1, Act::Begun(0, 0)), (1, Act::Started(0))];

const IN_A_TRANSACTION: &[Case] = &[
    (true, &[(1, Act::Create), (1, IN_TRANSACTION)]),
    (true, &[(1, Act::Begin), (1, IN_TRANSACTION)]),
    (true, &[(1, Act::Checkpoint), (1, IN_TRANSACTION)]),
    (false, &[(1, Act::Create), (1, Act::Created(1))]),
    (false, &[(1, Act::Begin), (1, Act::Started(0))]),
    // one that changed nothing ends without a number, and reaches no disk
    (true, &[(1, Act::Commit), (1, Act::Ended)]),
    (false, &[(1, Act::Commit), (1, Act::Committed(1))]),
    (false, &[(1, Act::Commit), (1, FAULT)]),
];

const FAULT: Act<'static> = Act::Refused(Refusal::DiskFault { stops: false });

const STOP: Act<'static> = Act::Refused(Refusal::DiskFault { stops: true });

/// The two new rows of a transaction, and a change of all four.
const INSERT: Acts = &[(1, Act::Insert(&[3, 4])), (1, Act::Changed(2))];

const UPDATES: Acts = &[(1, Act::Update(7)), (1, Act::Changed(4))];

const OWN_ROWS: &[Case] = &[
    (true, &[(1, Act::Select), (1, Act::Rows(&[1, 2, 3, 4]))]),
    (false, &[(1, Act::Delete), (1, Act::Changed(2))]),
    (false, &[(1, Act::Commit), (1, Act::Ended)]),
    // a COMMIT that the disk fails aborts its transaction
    (
        true,
        &[(1, Act::Commit), (1, FAULT), (1, Act::Commit), (1, ABORTED)],
    ),
    (
        false,
        &[
            (1, Act::Commit),
            (1, FAULT),
            (1, Act::Commit),
            (1, Act::Committed(1)),
        ],
    ),
];

const UPDATED_ROWS: &[Case] = &[
    (true, &[(1, Act::Select), (1, Act::Rows(&[7, 7, 7, 7]))]),
    (
        true,
        &[
            (1, Act::Delete),
            (1, Act::Changed(4)),
            (1, Act::Select),
            (1, Act::Rows(&[])),
        ],
    ),
];

/// A rollback takes all changes back.
const ROLLED_BACK: &[Case] = &[
    (
        true,
        &[
            (1, Act::Select),
            (1, Act::Begun(1, 0)),
            (1, Act::Rows(&[1, 2])),
        ],
    ),
    (
        false,
        &[
            (1, Act::Select),
            (1, Act::Begun(1, 0)),
            (1, Act::Rows(&[7, 7, 7, 7])),
        ],
    ),
];

/// A row that is inserted for itself.
const ONE_INSERT: Acts = &[(1, Act::Insert(&[3])), (1, Act::Begun(0, 0))];

const INSERTED: &[Case] = &[
    (true, &[(1, Act::ChangedAt(1, 1))]),
    // the log's record of one row has 32 bytes
    (
        false,
        &[(1, Act::Refused(Refusal::TooLarge { bytes: 32, rows: 1 }))],
    ),
    (false, &[(1, Act::Refused(Refusal::Stopped { first: 1 }))]),
];

/// After a stop another session inserts a row.
const BEHIND_STOP: Acts = &[(1, STOP), (2, Act::Insert(&[3])), (2, Act::Begun(1, 0))];

const STOPPED: &[Case] = &[
    (true, &[(2, Act::Refused(Refusal::Stopped { first: 1 }))]),
    (false, &[(2, Act::ChangedAt(1, 1))]),
    (false, &[(2, Act::Refused(Refusal::Stopped { first: 2 }))]),
    (
        true,
        &[
            (3, Act::Select),
            (3, Act::Begun(2, 0)),
            (3, Act::Rows(&[1, 2])),
        ],
    ),
];

const CHECKPOINT: Acts = &[(1, Act::Checkpoint)];

const ITERATIONS: &[Case] = &[
    // one iteration after the other
    (
        true,
        &[
            (1, Act::Checkpointed(2)),
            (1, Act::Checkpoint),
            (1, Act::Checkpointed(3)),
        ],
    ),
    (
        false,
        &[
            (1, Act::Checkpointed(2)),
            (1, Act::Checkpoint),
            (1, Act::Checkpointed(2)),
        ],
    ),
    (false, &[(1, Act::Checkpointed(1))]),
    (false, &[(1, Act::Checkpointed(3))]),
    // what may have written the one that is left out is called before the reply, and not after it
    (true, &[(2, Act::Checkpoint), (1, Act::Checkpointed(3))]),
    (
        true,
        &[
            (2, Act::Checkpoint),
            (1, Act::Checkpointed(3)),
            (2, Act::Checkpointed(2)),
        ],
    ),
    (false, &[(1, Act::Checkpointed(3)), (2, Act::Checkpoint)]),
    (
        false,
        &[
            (1, Act::Checkpointed(3)),
            (2, Act::Checkpoint),
            (2, Act::Checkpointed(2)),
        ],
    ),
    // and it is answered that one, or has no reply
    (
        false,
        &[
            (2, Act::Checkpoint),
            (1, Act::Checkpointed(3)),
            (2, Act::Checkpointed(4)),
        ],
    ),
];

const NONE_LEFT: Act<'static> = Act::Spent(0, MAX_ITERATION);

const LAST: Act<'static> = Act::Checkpointed(MAX_ITERATION);

const LAST_ITERATION: &[Case] = &[
    (false, &[(1, NONE_LEFT)]),
    (true, &[(1, LAST), (1, Act::Checkpoint), (1, NONE_LEFT)]),
    // none is left, and then one is written
    (false, &[(1, NONE_LEFT), (1, Act::Checkpoint), (1, LAST)]),
    // the checkpoint that may have written the last one is called before the reply, and not after it
    (true, &[(2, Act::Checkpoint), (1, NONE_LEFT)]),
    (false, &[(1, NONE_LEFT), (2, Act::Checkpoint)]),
];

const NO_ITERATION: &[Case] = &[
    (true, &[(1, NONE_LEFT)]),
    (false, &[(1, Act::Spent(0, MAX_ITERATION - 1))]),
    (false, &[(1, Act::Checkpointed(MAX_ITERATION + 1))]),
];

/// The table t is made.
const CREATED: Acts = &[
    (1, Act::Create),
    (1, Act::Begun(0, 0)),
    (1, Act::Created(1)),
];

const NEW_TABLES: &[Case] = &[
    (
        true,
        &[(1, Act::Create), (1, Act::Begun(1, 1)), (1, TABLE_EXISTS)],
    ),
    (
        false,
        &[
            (1, Act::Create),
            (1, Act::Begun(1, 1)),
            (1, Act::Created(2)),
        ],
    ),
    (
        true,
        &[(1, Act::Select), (1, Act::Begun(1, 1)), (1, Act::Rows(&[]))],
    ),
];

/// Two transactions insert a row each, and the second one commits first.
const TWO_INSERTS: Acts = &[
    (1, Act::Begin),
    (1, Act::Begun(1, 1)),
    (1, Act::Started(1)),
    (2, Act::Begin),
    (2, Act::Begun(2, 1)),
    (2, Act::Started(1)),
    (1, Act::Insert(&[10])),
    (1, Act::Changed(1)),
    (2, Act::Insert(&[20])),
    (2, Act::Changed(1)),
    (2, Act::Commit),
    (2, Act::Committed(2)),
    (1, Act::Commit),
    (1, Act::Committed(3)),
    (1, Act::Select),
    (1, Act::Begun(3, 3)),
];

/// Rows stand in the order of the commits.
const IN_ORDER: &[Case] = &[
    (true, &[(1, Act::Rows(&[20, 10]))]),
    (false, &[(1, Act::Rows(&[10, 20]))]),
];

/// A transaction has updated both rows.
const UPDATED: Acts = &[
    (1, Act::Begin),
    (1, Act::Begun(0, 0)),
    (1, Act::Started(0)),
    (1, Act::Update(11)),
    (1, Act::Changed(2)),
];

/// Its COMMIT, and a reader that begins before or behind it.
const COMMIT: Acts = &[(1, Act::Commit), (1, Act::Committed(1))];

const BEFORE: Acts = &[(2, Act::Begin), (2, Act::Begun(1, 0)), (2, Act::Started(0))];

const BEHIND: Acts = &[(2, Act::Begin), (2, Act::Begun(1, 1)), (2, Act::Started(1))];

/// The rows of one commit are seen together, or none of them.
const SEES_NEW: &[Case] = &[
    (true, &[(2, Act::Select), (2, Act::Rows(&[11, 11]))]),
    (false, &[(2, Act::Select), (2, Act::Rows(&[1, 2]))]),
    (false, &[(2, Act::Select), (2, Act::Rows(&[11, 2]))]),
];

const SEES_OLD: &[Case] = &[
    (true, &[(2, Act::Select), (2, Act::Rows(&[1, 2]))]),
    (false, &[(2, Act::Select), (2, Act::Rows(&[11, 11]))]),
    (false, &[(2, Act::Select), (2, Act::Rows(&[11, 2]))]),
];

/// No call comes while another is in flight.
const TOGETHER: &[Case] = &[
    (false, &[(2, Act::Begin)]),
    (
        true,
        &[
            (1, Act::Checkpointed(2)),
            (2, Act::Checkpoint),
            (2, Act::Checkpointed(3)),
        ],
    ),
];

const ROLLBACK_OF_FIRST: Acts = &[(1, Act::Rollback), (1, Act::Ended)];

/// Behind a commit of the other session that changed the same rows.
pub const OF_CONFLICTS: &[Histories] = &[
    (TWO_ROWS, 1, &[WRITERS, COMMITS, UPDATE], CONFLICTS),
    (TWO_ROWS, 1, &[WRITERS, COMMITS, UPDATE], BEHIND_CONFLICT),
];

/// Beside the other session's transaction that changed the same rows, and behind its end.
pub const OF_HOLDERS: &[Histories] = &[
    (TWO_ROWS, 1, &[WRITERS, UPDATE], PENDING),
    (TWO_ROWS, 1, &[WRITERS, ROLLBACK, UPDATE], LET_GO),
    (TWO_ROWS, 1, &[WRITERS, ROLLBACK, ENDED, UPDATE], FREE),
];

pub const OF_COMMITS: &[Histories] = &[(TWO_ROWS, 1, &[WRITERS, COMMITS], BEHIND_COMMIT)];

pub const OF_FIRST_ACTS: &[Histories] = &[(TWO_ROWS, 1, &[], FIRST_ACTS)];

pub const OF_OWN_ROWS: &[Histories] = &[
    (TWO_ROWS, 1, &[BEGIN], IN_A_TRANSACTION),
    (TWO_ROWS, 1, &[BEGIN, INSERT], OWN_ROWS),
];

pub const OF_UPDATED_ROWS: &[Histories] = &[
    (TWO_ROWS, 1, &[BEGIN, INSERT, UPDATES], UPDATED_ROWS),
    (
        TWO_ROWS,
        1,
        &[BEGIN, INSERT, ROLLBACK_OF_FIRST],
        ROLLED_BACK,
    ),
];

pub const OF_STOPS: &[Histories] = &[
    (TWO_ROWS, 1, &[ONE_INSERT], INSERTED),
    (TWO_ROWS, 1, &[ONE_INSERT, BEHIND_STOP], STOPPED),
];

pub const OF_SNAPSHOTS: &[Histories] = &[
    (TWO_ROWS, 1, &[UPDATED, COMMIT, BEHIND], SEES_NEW),
    (TWO_ROWS, 1, &[UPDATED, BEFORE, COMMIT], SEES_OLD),
];

pub const OF_TABLES: &[Histories] = &[
    (None, 1, &[CREATED], NEW_TABLES),
    (None, 1, &[CREATED, TWO_INSERTS], IN_ORDER),
];

pub const OF_ITERATIONS: &[Histories] = &[(None, 1, &[CHECKPOINT], ITERATIONS)];

pub const OF_LAST_ITERATIONS: &[Histories] = &[
    (None, MAX_ITERATION - 1, &[CHECKPOINT], LAST_ITERATION),
    (None, MAX_ITERATION, &[CHECKPOINT], NO_ITERATION),
];

/// Of one thread, behind a commit or beside a transaction of the other session.
pub const OF_CONFLICTS_ALONE: &[Histories] = &[
    (TWO_ROWS, 1, &[WRITERS, COMMITS, UPDATE], CONFLICTS_ALONE),
    (TWO_ROWS, 1, &[WRITERS, UPDATE], PENDING_ALONE),
];

pub const BEHIND_CONFLICTS_ALONE: &[Histories] = &[(
    TWO_ROWS,
    1,
    &[WRITERS, COMMITS, UPDATE],
    BEHIND_CONFLICT,
)];

/// Of one thread, with calls that are in flight together.
pub const OF_CALLS_TOGETHER: &[Histories] = &[
    (None, 1, &[CHECKPOINT], TOGETHER),
    (None, MAX_ITERATION, &[CHECKPOINT], NO_ITERATION),
];
