//! Calls that a text can make.
ghost use Rattle.std.specs.Prelude.{◌≡◌, ◌&&◌};
ghost use Rattle.std.specs.List.{list_all};
ghost use Rattle.dk_values.specs.Names.{is_name};
ghost use Rattle.dk_syntax.specs.LawfulStatements.{is_literal_value, is_lawful_expr, is_lawful_filter, is_lawful_item};
ghost use Rattle.dk_syntax.specs.LawfulStatements.{are_lawful_items, is_lawful_limit, is_lawful_query, is_lawful_value};
ghost use Rattle.dk_syntax.specs.LawfulStatements.{is_lawful};
ghost use Rattle.dk_si.specs.LawfulCalls.{is_lawful_call};

use dk_si::history::Asked;
use dk_types::{
    ColumnSpot, Expr, Item, Items, Key, MAX_COLUMNS, Node, Query, Set, Spot, Statement, Tuple,
    Value, is_name,
};
use dk_values::is_utf8;

fn is_literal_value(value: &Value) -> bool
    ensures { result ≡ is_literal_value value.now }
{
    match value {
        Value::Null | Value::Bool(_) | Value::Big(_) => true,
        Value::Text(bytes) => is_utf8(bytes.as_slice()),
        _ => false,
    }
}

/// Whether the literals and names of an expression are some.
fn is_lawful_expr(expr: &Expr) -> bool
    ensures { result ≡ is_lawful_expr expr.now }
{
    match &expr.node {
        Node::Lit(value) => is_literal_value(value),
        Node::Col(name) => is_name(name.as_slice()),
        Node::Neg(of) => is_lawful_expr(of.get()),
        Node::Not(of) => is_lawful_expr(of.get()),
        Node::IsNull { of, .. } => is_lawful_expr(of.get()),
        Node::Two { left, right, .. } => is_lawful_expr(left.get()) && is_lawful_expr(right.get()),
    }
}

fn is_lawful_filter(filter: &Option<Expr>) -> bool
    ensures { result ≡ is_lawful_filter filter.now }
{
    match filter {
        None => true,
        Some(expr) => is_lawful_expr(expr),
    }
}

fn is_lawful_item(item: &Item) -> bool
    ensures { result ≡ is_lawful_item item.now }
{
    match item {
        Item::Plain(expr) => is_lawful_expr(expr),
        Item::CountAll { .. } => true,
        Item::Fold { of, .. } => is_lawful_expr(of),
    }
}

fn are_lawful(items: &[Item]) -> bool
    ensures { result ≡ list_all is_lawful_item items.now }
{
    items.iter().all(is_lawful_item)
}

fn are_lawful_items(items: &Items) -> bool
    ensures { result ≡ are_lawful_items items.now }
{
    match items {
        Items::All { .. } => true,
        Items::Listed(list) => are_lawful(list.as_slice()),
    }
}

/// Whether a LIMIT is a number of 63 bits.
fn is_lawful_limit(limit: Option<u64>) -> bool
    ensures { result ≡ is_lawful_limit limit }
{
    match limit {
        None => true,
        Some(limit) => limit < 1 << 63,
    }
}

fn are_names(spots: &[Spot]) -> bool
    ensures { result ≡ list_all (λ spot. is_name spot.name) spots.now }
{
    spots.iter().all(|spot| is_name(spot.name.as_slice()))
}

fn are_lawful_keys(keys: &[Key]) -> bool
    ensures { result ≡ list_all (λ key. is_name key.column.name) keys.now }
{
    keys.iter().all(|key| is_name(key.column.name.as_slice()))
}

fn is_lawful_query(query: &Query) -> bool
    ensures { result ≡ is_lawful_query query.now }
{
    (is_name(query.table.name.as_slice()) && are_lawful_items(&query.items))
        && ((is_lawful_filter(&query.filter) && are_names(query.groups.as_slice()))
            && (are_lawful_keys(query.keys.as_slice()) && is_lawful_limit(query.limit)))
}

/// Whether a value of a tuple is a literal.
fn is_lawful_value(expr: &Expr) -> bool
    ensures { result ≡ is_lawful_value expr.now }
{
    match expr.literal() {
        None => false,
        Some(value) => is_literal_value(value),
    }
}

fn is_lawful_tuple(tuple: &Tuple) -> bool
    ensures { result ≡ list_all is_lawful_value tuple.now.values }
{
    tuple.values.as_slice().iter().all(is_lawful_value)
}

fn are_lawful_tuples(tuples: &[Tuple]) -> bool
    ensures { result ≡ list_all (λ tuple. list_all is_lawful_value tuple.values) tuples.now }
{
    tuples.iter().all(is_lawful_tuple)
}

fn are_lawful_columns(columns: &[ColumnSpot]) -> bool
    ensures { result ≡ list_all (λ column. is_name column.column.name) columns.now }
{
    columns
        .iter()
        .all(|column| is_name(column.column.name.as_slice()))
}

fn are_lawful_sets(sets: &[Set]) -> bool
    ensures { result ≡ list_all (λ set. is_name set.column.name
        && is_lawful_expr set.value) sets.now }
{
    sets.iter().all(|set| is_name(set.column.name.as_slice()) && is_lawful_expr(&set.value))
}

/// Whether names have 1 to 63 bytes, a table 1 to 64 columns, and values are literals.
fn is_lawful(statement: &Statement) -> bool
    ensures { result ≡ is_lawful statement.now }
{
    match statement {
        Statement::Create { table, columns } => {
            is_name(table.name.as_slice())
                && (are_lawful_columns(columns.as_slice())
                    && (!columns.is_empty() && columns.len() <= MAX_COLUMNS))
        }
        Statement::Insert { table, tuples } => {
            is_name(table.name.as_slice()) && are_lawful_tuples(tuples.as_slice())
        }
        Statement::InsertSelect { table, query, .. } => {
            is_name(table.name.as_slice()) && is_lawful_query(query)
        }
        Statement::Copy { table, .. } => is_name(table.name.as_slice()),
        Statement::Select { query } => is_lawful_query(query),
        Statement::Update {
            table,
            sets,
            filter,
        } => {
            is_name(table.name.as_slice())
                && (are_lawful_sets(sets.as_slice()) && is_lawful_filter(filter))
        }
        Statement::Delete { table, filter } => {
            is_name(table.name.as_slice()) && is_lawful_filter(filter)
        }
        _ => true,
    }
}

/// Whether a text can say the call's statement, if it has one.
pub fn is_lawful_call(asked: &Asked) -> bool
    ensures { result ≡ is_lawful_call asked.now }
{
    match asked {
        Asked::Good(statement) => is_lawful(statement),
        _ => true,
    }
}
