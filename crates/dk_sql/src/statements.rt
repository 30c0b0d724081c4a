//! Statements: the rules that begin with a word of their own, and the text as a whole.
ghost use Rattle.std.specs.Prelude.{◌≡◌, ◌<◌, ◌≤◌, ◌^◌, length, true, IfOk, IfErr};
ghost use Rattle.dk_sql.specs.Readers.{Outcome, Gives, Stops};
ghost use Rattle.dk_sql.specs.Statements.{kind_of, kind_at, column_at, tuple_at, set_at, create_at, insert_query_at, inserted_at, insert_at, copy_at, select_at, update_at, delete_at, single_of, single_at, statement_by, statement_at, at_end, whole_at, placed, statement_of, Refuses, Parses, IsWithin};
ghost use Rattle.dk_sql.specs.Expressions.{literal_at};
ghost use Rattle.dk_syntax.specs.declared.statement.Statement.{Statement};
ghost use Rattle.dk_syntax.specs.LawfulStatements.{is_lawful};

use crate::expressions::{expr, literal};
use crate::fault::{ParseError, Stop};
use crate::lists::{ANY, Member, Scope, enclosed, list};
use crate::queries::{filter, query};
use crate::tokens::{fault, is_same_word, keyword, keyword_after, mark, place, skip_blanks, word};
use dk_syntax::{ColumnSpot, Expr, Set, Spot, Statement, Tuple};
use dk_values::{ColType, List, MAX_COLUMNS};
use std::alloc::Global;

/// How many columns of a table may follow the first.
pub const FURTHER_COLUMNS: usize = MAX_COLUMNS - 1;

/// The type whose word this is, if it is one.
fn kind_of(word: &[u8]) -> Option<ColType>
    ensures { result ≡ kind_of word.now }
{
    if is_same_word(word, b"boolean") {
        Some(ColType::Bool)
    } else if is_same_word(word, b"integer") {
        Some(ColType::Int)
    } else if is_same_word(word, b"bigint") {
        Some(ColType::Big)
    } else if is_same_word(word, b"varchar") {
        Some(ColType::Text)
    } else {
        None
    }
}

/// The type of a column.
fn kind(text: &[u8]) -> Result<(ColType, &[u8]), Stop>
    ensures exact { Gives (λ x. (x.0, x.1.now)) result (kind_at text.now) }
    ensures within { IfOk result (λ x. length x.1.now ≤ length text.now) }
{
    let (word, rest) = word(text)?;
    match kind_of(word) {
        Some(kind) => Ok((kind, rest)),
        None => Err(fault(text)),
    }
}

/// A column of CREATE TABLE.
impl Member for ColumnSpot {
    ghost found = { column_at };

    fn read(scope: Scope, text: &[u8]) -> Result<(ColumnSpot, &[u8]), Stop> {
        let (column, rest) = Spot::read(scope, text)?;
        let (kind, rest) = kind(rest)?;
        Ok((ColumnSpot { column, kind }, rest))
    }
}

/// A literal of a tuple.
impl Member for Expr {
    ghost found = { literal_at };

    fn read(scope: Scope, text: &[u8]) -> Result<(Expr, &[u8]), Stop> {
        literal(scope, text)
    }
}

/// A tuple of VALUES.
impl Member for Tuple {
    ghost found = { tuple_at };

    fn read(scope: Scope, text: &[u8]) -> Result<(Tuple, &[u8]), Stop> {
        let at = place(scope.whole, text);
        let (values, rest) = enclosed::<Expr>(scope, ANY, text)?;
        Ok((Tuple { at, values }, rest))
    }
}

/// What an UPDATE puts into a column.
impl Member for Set {
    ghost found = { set_at };

    #[tactic(auto, unfolding(crate::specs::Statements::set_at))]
    fn read(scope: Scope, text: &[u8]) -> Result<(Set, &[u8]), Stop> {
        let (column, rest) = Spot::read(scope, text)?;
        let rest = mark(rest, b'=')?;
        let (value, rest) = expr(scope, rest)?;
        Ok((Set { column, value }, rest))
    }
}

#[tactic(auto, unfolding(crate::specs::Statements::create_at))]
fn create(scope: Scope, text: &[u8]) -> Result<(Statement, &[u8]), Stop>
    requires { length text.now ≤ scope.whole }
    ensures { Gives (λ x. (x.0, x.1.now)) result (create_at scope.whole text.now) }
{
    let rest = keyword(text, b"table")?;
    let (table, rest) = Spot::read(scope, rest)?;
    let (columns, rest) = enclosed::<ColumnSpot>(scope, FURTHER_COLUMNS, rest)?;
    Ok((Statement::Create { table, columns }, rest))
}

/// The query of an INSERT.
#[tactic(auto, unfolding(crate::specs::Statements::insert_query_at))]
fn insert_query(scope: Scope, table: Spot, text: &[u8]) -> Result<(Statement, &[u8]), Stop>
    requires { length text.now ≤ scope.whole }
    ensures { Gives (λ x. (x.0, x.1.now)) result (insert_query_at scope.whole table text.now) }
{
    let at = place(scope.whole, text);
    let rest = keyword(text, b"select")?;
    let (query, rest) = query(scope, rest)?;
    Ok((Statement::InsertSelect { table, at, query }, rest))
}

/// What an INSERT adds.
fn inserted(scope: Scope, table: Spot, text: &[u8]) -> Result<(Statement, &[u8]), Stop>
    requires { length text.now ≤ scope.whole }
    ensures { Gives (λ x. (x.0, x.1.now)) result (inserted_at scope.whole table text.now) }
{
    match keyword_after(text, b"values") {
        None => insert_query(scope, table, text),
        Some(rest) => {
            let (tuples, rest) = list::<Tuple>(scope, ANY, rest)?;
            Ok((Statement::Insert { table, tuples }, rest))
        }
    }
}

#[tactic(auto, unfolding(crate::specs::Statements::insert_at))]
fn insert(scope: Scope, text: &[u8]) -> Result<(Statement, &[u8]), Stop>
    requires { length text.now ≤ scope.whole }
    ensures { Gives (λ x. (x.0, x.1.now)) result (insert_at scope.whole text.now) }
{
    let rest = keyword(text, b"into")?;
    let (table, rest) = Spot::read(scope, rest)?;
    inserted(scope, table, rest)
}

#[tactic(auto, unfolding(crate::specs::Statements::copy_at))]
fn copy<'a>(scope: Scope, copy: &[u8], text: &'a [u8]) -> Result<(Statement, &'a [u8]), Stop>
    requires { length text.now ≤ scope.whole }
    ensures { Gives (λ x. (x.0, x.1.now)) result (copy_at scope.whole copy.now text.now) }
{
    let (table, rest) = Spot::read(scope, text)?;
    let rest = keyword(rest, b"from")?;
    let rest = keyword(rest, b"stdin")?;
    let bytes = List::from_vec(Vec::from_slice(scope.alloc, copy)?);
    Ok((Statement::Copy { table, bytes }, rest))
}

fn select(scope: Scope, text: &[u8]) -> Result<(Statement, &[u8]), Stop>
    requires { length text.now ≤ scope.whole }
    ensures { Gives (λ x. (x.0, x.1.now)) result (select_at scope.whole text.now) }
{
    let (query, rest) = query(scope, text)?;
    Ok((Statement::Select { query }, rest))
}

#[tactic(auto, unfolding(crate::specs::Statements::update_at))]
fn update(scope: Scope, text: &[u8]) -> Result<(Statement, &[u8]), Stop>
    requires { length text.now ≤ scope.whole }
    ensures { Gives (λ x. (x.0, x.1.now)) result (update_at scope.whole text.now) }
{
    let (table, rest) = Spot::read(scope, text)?;
    let rest = keyword(rest, b"set")?;
    let (sets, rest) = list::<Set>(scope, ANY, rest)?;
    let (filter, rest) = filter(scope, rest)?;
    let statement = Statement::Update {
        table,
        sets,
        filter,
    };
    Ok((statement, rest))
}

#[tactic(auto, unfolding(crate::specs::Statements::delete_at))]
fn delete(scope: Scope, text: &[u8]) -> Result<(Statement, &[u8]), Stop>
    requires { length text.now ≤ scope.whole }
    ensures { Gives (λ x. (x.0, x.1.now)) result (delete_at scope.whole text.now) }
{
    let rest = keyword(text, b"from")?;
    let (table, rest) = Spot::read(scope, rest)?;
    let (filter, rest) = filter(scope, rest)?;
    Ok((Statement::Delete { table, filter }, rest))
}

/// The statement that this word is, if it is one.
fn single_of(word: &[u8]) -> Option<Statement>
    ensures { result ≡ single_of word.now }
{
    if is_same_word(word, b"begin") {
        Some(Statement::Begin)
    } else if is_same_word(word, b"commit") {
        Some(Statement::Commit)
    } else if is_same_word(word, b"rollback") {
        Some(Statement::Rollback)
    } else if is_same_word(word, b"checkpoint") {
        Some(Statement::Checkpoint)
    } else {
        None
    }
}

/// A statement of one word, which stands in front of the text.
fn single<'a>(word: &[u8], text: &[u8], rest: &'a [u8]) -> Result<(Statement, &'a [u8]), Stop>
    ensures { Gives (λ x. (x.0, x.1.now)) result (single_at word.now text.now rest.now) }
{
    match single_of(word) {
        Some(statement) => Ok((statement, rest)),
        None => Err(fault(text)),
    }
}

/// The statement that begins with this word, in front of the text, and goes on in the rest.
fn statement_by<'a>(
    scope: Scope,
    stdin: &[u8],
    word: &[u8],
    text: &[u8],
    rest: &'a [u8],
) -> Result<(Statement, &'a [u8]), Stop>
    requires { length rest.now ≤ scope.whole }
    ensures { Gives (λ x. (x.0, x.1.now)) result (statement_by scope.whole stdin.now word.now text.now rest.now) }
{
    if is_same_word(word, b"create") {
        create(scope, rest)
    } else if is_same_word(word, b"insert") {
        insert(scope, rest)
    } else if is_same_word(word, b"copy") {
        copy(scope, stdin, rest)
    } else if is_same_word(word, b"select") {
        select(scope, rest)
    } else if is_same_word(word, b"update") {
        update(scope, rest)
    } else if is_same_word(word, b"delete") {
        delete(scope, rest)
    } else {
        single(word, text, rest)
    }
}

/// A statement, and the rest.
#[tactic(auto, unfolding(crate::specs::Statements::statement_at))]
fn statement<'a>(scope: Scope, stdin: &[u8], text: &'a [u8]) -> Result<(Statement, &'a [u8]), Stop>
    requires { length text.now ≤ scope.whole }
    ensures { Gives (λ x. (x.0, x.1.now)) result (statement_at scope.whole stdin.now text.now) }
{
    let (word, rest) = word(text)?;
    statement_by(scope, stdin, word, text, rest)
}

/// The statement, where only blanks are left behind it.
fn at_end(statement: Statement, text: &[u8]) -> Result<Statement, Stop>
    ensures { Gives (λ x. x) result (at_end statement text.now) }
{
    if skip_blanks(text).is_empty() {
        Ok(statement)
    } else {
        Err(fault(text))
    }
}

/// The statement that the whole text is.
fn whole(alloc: Global, text: &[u8], stdin: &[u8]) -> Result<Statement, Stop>
    requires { length text.now < 2 ^ 32 }
    ensures { Gives (λ x. x) result (whole_at text.now stdin.now) }
{
    let scope = Scope {
        alloc,
        whole: text.len() as u32,
    };
    let (statement, rest) = statement(scope, stdin, text)?;
    at_end(statement, rest)
}

/// Where a reader stopped, as a place in a text of so many bytes.
fn refusal(len: usize, stop: Stop) -> ParseError
    ensures exact { (found : Outcome Statement) → Stops stop found → Refuses result (placed len found) }
    ensures within { IsWithin len result }
{
    match stop {
        Stop::Fault { left } => {
            let at = len.saturating_sub(left) as u64;
            ParseError::Syntax { at }
        }
        Stop::OutOfMemory => ParseError::OutOfMemory,
    }
}

/// The statement that the whole text is, with the places of its names and literals in it, or the place of the first
/// fault of the text. `copy` are the data of a COPY, which stand outside its text. Whatever statement a text is, is
/// lawful: names have their length, texts are UTF-8, and so on.
#[tactic(auto, using(crate::proofs::LawfulLemmas::lawful_of, crate::proofs::LawfulLemmas::lawful_when))]
pub fn parse(alloc: Global, text: &[u8], copy: &[u8]) -> Result<Statement, ParseError>
    requires { length text.now < 2 ^ 32 }
    ensures exact { Parses result (statement_of text.now copy.now) }
    ensures within { IfErr result (IsWithin (length text.now)) }
    ensures lawful { IfOk (statement_of text.now copy.now) (λ statement. is_lawful statement ≡ true) }
    ensures given { IfOk result (λ statement. is_lawful statement ≡ true) }
{
    match whole(alloc, text, copy) {
        Ok(statement) => Ok(statement),
        Err(stop) => Err(refusal(text.len(), stop)),
    }
}
