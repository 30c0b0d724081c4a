//! Statements bound to the tables of a view: the table first, and then all parts in the order of the text.
ghost use Rattle.std.specs.Prelude.{◌≡◌, ◌<◌, ◌≤◌, length, take, IfSome, IfOk};
ghost use Rattle.dk_values.specs.Columns.{schema_fault};
ghost use Rattle.dk_bind.specs.Outcomes.{Outcome, Binds};
ghost use Rattle.dk_bind.specs.Lists.{bound_from};
ghost use Rattle.dk_bind.specs.Statements.{table_place, bound_table, columns_at, columns_of, spot_place, create_by, bound_create, bound_value, bound_tuple, bound_insert, width_of, bound_insert_query, sets_column, bound_set, bound_update, bound_delete, bound_select, bound_copy, bound_statement};

use crate::expressions::{bind_expr, column, kind_at};
use crate::fault::{BindError, mismatch};
use crate::kinds::{fits, is_too_long, kind_of_value};
use crate::lists::{Part, Scope, bind_all};
use crate::queries::{filter, kind_among, query};
use dk_pages::{TableEntry, Tree};
use dk_rows::Rows;
use dk_syntax::{
    ColumnSpot, ColumnSpots, Expr, Items, Query, Set, Sets, Spot, Statement, Tuple, Tuples,
};
use dk_types::{Bound, BoundSet, Refusal};
use dk_values::{Bytes, Column, List, OutOfMemory, Row, Schema, SchemaError, TryCopy, Value};
use std::alloc::Global;

/// How many tables there may be.
pub const MAX_TABLES: usize = 64;

/// The place of the table of that name.
fn table_place(tables: &[TableEntry], name: &[u8]) -> Option<usize>
    ensures place { result ≡ table_place tables.now name.now }
    ensures within { IfSome result (λ place. place < length tables.now) }
{
    tables
        .iter()
        .position(|table| table.name.as_slice() == name)
}

/// The number of the table of that name, which stands in the text.
fn table(view: &Tree, spot: &Spot) -> Result<u32, BindError>
    requires { length view.now ≤ MAX_TABLES }
    ensures bound { Binds result (bound_table view.now spot.now) }
    ensures within { IfOk result (λ place. place < length view.now) }
{
    match table_place(view.as_slice(), spot.name.as_slice()) {
        Some(place) => Ok(place as u32),
        None => {
            let at = u64::from(spot.at);
            Err(BindError::Refused(Refusal::NoTable { at }))
        }
    }
}

/// The columns of the table of that number.
fn schema_at(view: &Tree, place: u32) -> &Schema
    requires { place < length view.now }
    ensures { result.now ≡ columns_at view.now place }
{
    &view.get(place as usize).schema
}

/// The columns of a new table.
fn columns_of(alloc: Global, spots: &[ColumnSpot]) -> Result<Vec<Column>, OutOfMemory>
    ensures { IfOk result (λ columns. columns.items ≡ columns_of spots.now) }
{
    let mut columns = Vec::new(alloc);
    'spots: for spot in spots {
        let name = spot.column.name.copy()?;
        let kind = spot.kind;
        columns
            .push(Column { name, kind })
            .map_err(|_| OutOfMemory)?;
    }
    Ok(columns)
}

/// The place in the text of the column of that number.
fn spot_place(spots: &[ColumnSpot], place: u64, other: u32) -> u64
    ensures { result ≡ spot_place spots.now place other }
{
    match spots.get(place as usize) {
        None => u64::from(other),
        Some(spot) => u64::from(spot.column.at),
    }
}

fn create(
    alloc: Global,
    view: &Tree,
    table: &Spot,
    columns: &ColumnSpots,
) -> Result<Bound, BindError>
    ensures { Binds result (bound_create view.now table.now columns.now) }
{
    let at = u64::from(table.at);
    if table_place(view.as_slice(), table.name.as_slice()).is_some() {
        return Err(BindError::Refused(Refusal::TableExists { at }));
    }
    match Schema::new(columns_of(alloc, columns.as_slice())?) {
        Ok(schema) => if view.len() >= MAX_TABLES {
            Err(BindError::Refused(Refusal::TooManyTables))
        } else {
            let name = table.name.copy()?;
            Ok(Bound::Create { name, schema })
        },
        Err(SchemaError::SameName { place }) => {
            let at = spot_place(columns.as_slice(), place, table.at);
            Err(BindError::Refused(Refusal::SameColumn { at }))
        }
        Err(_) => Err(mismatch(table.at)),
    }
}

/// A literal of a tuple, which fits the column of its place.
impl Part<Value> for Expr {
    ghost meaning = { λ around. bound_value around.columns };

    fn bind(&self, scope: &Scope<'_>, place: usize) -> Result<Value, BindError> {
        match self.literal() {
            None => Err(mismatch(self.at)),
            Some(value) => {
                let wanted = kind_among(scope.schema.as_slice(), place);
                if !is_too_long(value) && fits(wanted, kind_of_value(value)) {
                    Ok(value.copy()?)
                } else {
                    Err(mismatch(self.at))
                }
            }
        }
    }
}

/// A tuple, its length first.
impl Part<Row> for Tuple {
    ghost meaning = { λ around. bound_tuple around.columns };

    fn bind(&self, scope: &Scope<'_>, _place: usize) -> Result<Row, BindError> {
        if self.values.len() == scope.schema.len() {
            bind_all(scope, self.values.as_slice())
        } else {
            Err(mismatch(self.at))
        }
    }
}

/// The rows of tuples.
fn rows(scope: &Scope<'_>, tuples: &[Tuple]) -> Result<Rows, BindError>
    ensures { Binds result (bound_from (bound_tuple scope.now.schema.now) 0 tuples.now) }
{
    let mut rows = Rows::new(scope.alloc);
    'tuples: for (place, tuple) in tuples.iter().enumerate() {
        rows.push(tuple.bind(scope, place)?)?;
    }
    Ok(rows)
}

/// What surrounds the parts of a statement that is no query.
fn scope_of<'a>(alloc: Global, schema: &'a Schema, sets: &'a [Set]) -> Scope<'a>
    ensures schema { result.schema.now ≡ schema.now }
    ensures sets { result.sets.now ≡ sets.now }
{
    Scope {
        alloc,
        schema,
        grouped: false,
        groups: &[],
        targets: None,
        sets,
    }
}

fn insert(alloc: Global, view: &Tree, spot: &Spot, tuples: &Tuples) -> Result<Bound, BindError>
    requires { length view.now ≤ MAX_TABLES }
    ensures { Binds result (bound_insert view.now spot.now tuples.now) }
{
    let table = table(view, spot)?;
    let scope = scope_of(alloc, schema_at(view, table), &[]);
    let rows = rows(&scope, tuples.as_slice())?;
    Ok(Bound::Insert { table, rows })
}

/// How many columns a query has.
fn width_of(items: &Items, schema: &Schema) -> usize
    ensures { result ≡ width_of items.now schema.now }
{
    match items {
        Items::All { .. } => schema.len(),
        Items::Listed(items) => items.len(),
    }
}

/// An INSERT of a query whose word SELECT stands at that place.
#[tactic(auto, unfolding(crate::specs::Statements::bound_insert_query))]
fn insert_query(
    alloc: Global,
    view: &Tree,
    spot: &Spot,
    at: u32,
    select: &Query,
) -> Result<Bound, BindError>
    requires { length view.now ≤ MAX_TABLES }
    ensures { Binds result (bound_insert_query view.now spot.now at select.now) }
{
    let target = table(view, spot)?;
    let source = table(view, &select.table)?;
    let into = schema_at(view, target);
    let from = schema_at(view, source);
    if width_of(&select.items, from) == into.len() {
        let query = query(alloc, source, from, Some(into), select)?;
        Ok(Bound::InsertSelect {
            table: target,
            query,
        })
    } else {
        Err(mismatch(at))
    }
}

fn copy(view: &Tree, spot: &Spot, bytes: &Bytes) -> Result<Bound, BindError>
    requires { length view.now ≤ MAX_TABLES }
    ensures { Binds result (bound_copy view.now spot.now bytes.now) }
{
    let table = table(view, spot)?;
    let bytes = bytes.copy()?;
    Ok(Bound::Copy { table, bytes })
}

fn select(alloc: Global, view: &Tree, select: &Query) -> Result<Bound, BindError>
    requires { length view.now ≤ MAX_TABLES }
    ensures { Binds result (bound_select view.now select.now) }
{
    let table = table(view, &select.table)?;
    let query = query(alloc, table, schema_at(view, table), None, select)?;
    Ok(Bound::Select { query })
}

/// Whether one of these sets sets the column of that name.
fn sets_column(sets: &[Set], before: usize, name: &[u8]) -> bool
    ensures { result ≡ sets_column (take before sets.now) name.now }
{
    sets.iter()
        .take(before)
        .any(|set| set.column.name.as_slice() == name)
}

impl Part<BoundSet> for Set {
    ghost meaning = { λ around. bound_set around.columns around.sets };

    fn bind(&self, scope: &Scope<'_>, place: usize) -> Result<BoundSet, BindError> {
        let name = self.column.name.as_slice();
        let column = column(scope.schema, self.column.at, name)?;
        if sets_column(scope.sets, place, name) {
            let at = u64::from(self.column.at);
            return Err(BindError::Refused(Refusal::SameColumn { at }));
        }
        let typed = bind_expr(scope.alloc, scope.schema, &self.value)?;
        if fits(kind_at(scope.schema, column), typed.kind) {
            Ok(BoundSet {
                column,
                value: typed.expr,
            })
        } else {
            Err(mismatch(self.value.at))
        }
    }
}

#[tactic(auto, unfolding(crate::specs::Statements::bound_update))]
fn update(
    alloc: Global,
    view: &Tree,
    spot: &Spot,
    sets: &Sets,
    condition: &Option<Expr>,
) -> Result<Bound, BindError>
    requires { length view.now ≤ MAX_TABLES }
    ensures { Binds result (bound_update view.now spot.now sets.now condition.now) }
{
    let table = table(view, spot)?;
    let scope = scope_of(alloc, schema_at(view, table), sets.as_slice());
    let sets = bind_all(&scope, sets.as_slice())?;
    let filter = filter(alloc, scope.schema, condition)?;
    Ok(Bound::Update {
        table,
        sets,
        filter,
    })
}

fn delete(
    alloc: Global,
    view: &Tree,
    spot: &Spot,
    condition: &Option<Expr>,
) -> Result<Bound, BindError>
    requires { length view.now ≤ MAX_TABLES }
    ensures { Binds result (bound_delete view.now spot.now condition.now) }
{
    let table = table(view, spot)?;
    let filter = filter(alloc, schema_at(view, table), condition)?;
    Ok(Bound::Delete { table, filter })
}

/// The statement bound to the tables of a view, or the first refusal by its place in the text.
pub fn bind(alloc: Global, statement: &Statement, view: &Tree) -> Result<Bound, BindError>
    requires { length view.now ≤ MAX_TABLES }
    ensures { Binds result (bound_statement view.now statement.now) }
{
    match statement {
        Statement::Create { table, columns } => create(alloc, view, table, columns),
        Statement::Insert { table, tuples } => insert(alloc, view, table, tuples),
        Statement::InsertSelect { table, at, query } => insert_query(
            alloc, view, table, *at, query,
        ),
        Statement::Copy { table, bytes } => copy(view, table, bytes),
        Statement::Select { query } => select(alloc, view, query),
        Statement::Update {
            table,
            sets,
            filter,
        } => update(alloc, view, table, sets, filter),
        Statement::Delete { table, filter } => delete(alloc, view, table, filter),
        Statement::Begin | Statement::Commit | Statement::Rollback | Statement::Checkpoint => Ok(
            Bound::Other,
        ),
    }
}
