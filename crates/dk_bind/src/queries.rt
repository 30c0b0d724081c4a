//! Queries bound to a table: items, filter, groups and keys in the order of the text.
ghost use Rattle.std.specs.Prelude.{◌≡◌, ◌<◌, length, not, ◌||◌, option_map, IfOk};
ghost use Rattle.std.specs.List.{list_any};
ghost use Rattle.dk_bind.specs.Outcomes.{Outcome, Binds};
ghost use Rattle.dk_bind.specs.Expressions.{kind_at};
ghost use Rattle.dk_bind.specs.Queries.{around_of, has_room, fitted, is_group, is_group_node, may_list, bound_plain, folds, kind_of_fold, bound_fold, bound_item, bound_star, bound_items, bound_group, bound_key, bound_filter, is_fold, has_fold, is_grouped, bound_query};

use crate::expressions::{bind_expr, column, kind_at};
use crate::fault::{BindError, mismatch};
use crate::kinds::{Kind, fits, kind_of_type};
use crate::lists::{Part, Scope, bind_all};
use dk_syntax::{Expr, FoldKind, Item, Items, Key, Node, Query, Spot};
use dk_types::{BoundExpr, BoundItem, BoundItems, BoundKey, BoundQuery, Refusal};
use dk_values::{Column, List, Schema};
use std::alloc::Global;

/// The expression at that place of the text is none of GROUP BY.
fn not_grouped(at: u32) -> BindError
    ensures { result ≡ BindError.Refused (Refusal.NotGrouped at) }
{
    let at = u64::from(at);
    BindError::Refused(Refusal::NotGrouped { at })
}

/// The kind of the column of a place, if there is one.
pub fn kind_among(columns: &[Column], place: usize) -> Kind
    ensures { result ≡ kind_at columns.now place }
{
    match columns.get(place) {
        None => Kind::Null,
        Some(column) => kind_of_type(column.kind),
    }
}

/// Whether the column that the item of a place goes into takes the kind.
fn has_room(targets: Option<&Schema>, place: usize, kind: Kind) -> bool
    ensures { result ≡ has_room (option_map (λ schema. schema.now) targets.entry) place kind }
{
    match targets {
        None => true,
        Some(schema) => fits(kind_among(schema.as_slice(), place), kind),
    }
}

/// An item whose place in the text and whose kind are known.
fn fitted(
    scope: &Scope<'_>,
    place: usize,
    at: u32,
    kind: Kind,
    item: BoundItem,
) -> Result<BoundItem, BindError>
    ensures { Binds result (fitted (around_of scope.now) place at kind item) }
{
    if has_room(scope.targets, place, kind) {
        Ok(item)
    } else {
        Err(mismatch(at))
    }
}

/// Whether a column of that name is one of GROUP BY.
fn is_group(groups: &[Spot], name: &[u8]) -> bool
    ensures { result ≡ is_group groups.now name.now }
{
    groups.iter().any(|group| group.name.as_slice() == name)
}

fn is_group_node(groups: &[Spot], node: &Node) -> bool
    ensures { result ≡ is_group_node groups.now node.now }
{
    match node {
        Node::Col(name) => is_group(groups, name.as_slice()),
        _ => false,
    }
}

/// Whether the query may list an expression as it is.
fn may_list(scope: &Scope<'_>, expr: &Expr) -> bool
    ensures { result ≡ may_list (around_of scope.now) expr.now }
{
    !scope.grouped || is_group_node(scope.groups, &expr.node)
}

fn plain(scope: &Scope<'_>, place: usize, expr: &Expr) -> Result<BoundItem, BindError>
    ensures { Binds result (bound_plain (around_of scope.now) place expr.now) }
{
    let typed = bind_expr(scope.alloc, scope.schema, expr)?;
    if may_list(scope, expr) {
        fitted(
            scope,
            place,
            expr.at,
            typed.kind,
            BoundItem::Plain(typed.expr),
        )
    } else {
        Err(not_grouped(expr.at))
    }
}

/// Whether an aggregate takes a kind.
fn folds(fold: FoldKind, found: Kind) -> bool
    ensures { result ≡ folds fold found }
{
    match fold {
        FoldKind::Sum => fits(Kind::Number, found),
        FoldKind::Count | FoldKind::Min | FoldKind::Max => true,
    }
}

fn kind_of_fold(fold: FoldKind, found: Kind) -> Kind
    ensures { result ≡ kind_of_fold fold found }
{
    match fold {
        FoldKind::Count | FoldKind::Sum => Kind::Number,
        FoldKind::Min | FoldKind::Max => found,
    }
}

fn fold(
    scope: &Scope<'_>,
    place: usize,
    kind: FoldKind,
    at: u32,
    of: &Expr,
) -> Result<BoundItem, BindError>
    ensures { Binds result (bound_fold (around_of scope.now) place kind at of.now) }
{
    let typed = bind_expr(scope.alloc, scope.schema, of)?;
    if folds(kind, typed.kind) {
        let found = kind_of_fold(kind, typed.kind);
        let item = BoundItem::Fold {
            kind,
            of: typed.expr,
        };
        fitted(scope, place, at, found, item)
    } else {
        Err(mismatch(of.at))
    }
}

impl Part<BoundItem> for Item {
    ghost meaning = { bound_item };

    fn bind(&self, scope: &Scope<'_>, place: usize) -> Result<BoundItem, BindError> {
        match self {
            Item::Plain(expr) => plain(scope, place, expr),
            Item::CountAll { at } => fitted(scope, place, *at, Kind::Number, BoundItem::CountAll),
            Item::Fold { kind, at, of } => fold(scope, place, *kind, *at, of),
        }
    }
}

impl Part<u32> for Spot {
    ghost meaning = { bound_group };

    fn bind(&self, scope: &Scope<'_>, _place: usize) -> Result<u32, BindError> {
        let column = column(scope.schema, self.at, self.name.as_slice())?;
        Ok(u32::from(column))
    }
}

impl Part<BoundKey> for Key {
    ghost meaning = { bound_key };

    fn bind(&self, scope: &Scope<'_>, _place: usize) -> Result<BoundKey, BindError> {
        let name = self.column.name.as_slice();
        let column = column(scope.schema, self.column.at, name)?;
        if !scope.grouped || is_group(scope.groups, name) {
            Ok(BoundKey {
                column,
                descending: self.descending,
            })
        } else {
            Err(not_grouped(self.column.at))
        }
    }
}

/// The condition behind WHERE.
pub fn filter(
    alloc: Global,
    schema: &Schema,
    filter: &Option<Expr>,
) -> Result<Option<BoundExpr>, BindError>
    ensures { Binds result (bound_filter schema.now filter.now) }
{
    match filter {
        None => Ok(None),
        Some(expr) => {
            let typed = bind_expr(alloc, schema, expr)?;
            if fits(Kind::Truth, typed.kind) {
                Ok(Some(typed.expr))
            } else {
                Err(mismatch(expr.at))
            }
        }
    }
}

fn is_fold(item: &Item) -> bool
    ensures { result ≡ is_fold item.now }
{
    !matches!(item, Item::Plain(_))
}

fn are_folds_among(items: &[Item]) -> bool
    ensures { result ≡ list_any is_fold items.now }
{
    items.iter().any(|item| is_fold(item))
}

/// Whether a query has GROUP BY or an aggregate.
fn is_grouped(query: &Query) -> bool
    ensures { result ≡ is_grouped query.now }
{
    let has_fold = match &query.items {
        Items::All { .. } => false,
        Items::Listed(items) => are_folds_among(items.as_slice()),
    };
    query.groups.len() != 0 || has_fold
}

/// One plain item per column, where `*` stands at that place of the text.
#[tactic(auto, using(crate::proofs::SchemaLemmas::schema_width))]
fn star(scope: &Scope<'_>, at: u32) -> Result<BoundItems, BindError>
    ensures { Binds result (bound_star (around_of scope.now) at 0 scope.now.schema.now) }
{
    let mut items = List::new(scope.alloc);
    'columns: for (place, column) in scope.schema.as_slice().iter().enumerate() {
        let item = BoundItem::Plain(BoundExpr::Col(place as u16));
        let kind = kind_of_type(column.kind);
        items.push(fitted(scope, place, at, kind, item)?)?;
    }
    Ok(items)
}

fn items(scope: &Scope<'_>, items: &Items) -> Result<BoundItems, BindError>
    ensures { Binds result (bound_items (around_of scope.now) items.now) }
{
    match items {
        Items::All { at } => if scope.grouped {
            Err(not_grouped(*at))
        } else {
            star(scope, *at)
        },
        Items::Listed(items) => bind_all(scope, items.as_slice()),
    }
}

/// A query over the table of that number, whose items an INSERT may put into columns.
#[tactic(auto, unfolding(crate::specs::Queries::bound_query))]
pub fn query(
    alloc: Global,
    table: u32,
    schema: &Schema,
    targets: Option<&Schema>,
    query: &Query,
) -> Result<BoundQuery, BindError>
    ensures { Binds result (bound_query table schema.now (option_map (λ schema. schema.now) targets.entry) query.now) }
{
    let grouped = is_grouped(query);
    let scope = Scope {
        alloc,
        schema,
        grouped,
        groups: query.groups.as_slice(),
        targets,
        sets: &[],
    };
    let items = items(&scope, &query.items)?;
    let filter = filter(alloc, schema, &query.filter)?;
    let groups = bind_all(&scope, query.groups.as_slice())?;
    let keys = bind_all(&scope, query.keys.as_slice())?;
    Ok(BoundQuery {
        items,
        table,
        filter,
        grouped,
        groups,
        keys,
        limit: query.limit,
    })
}
