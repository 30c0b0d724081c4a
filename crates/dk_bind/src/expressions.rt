//! Expressions bound to the columns of a table: left side, right side, operator.
ghost use Rattle.std.specs.Prelude.{◌≡◌, ◌<◌, length, IfSome, IfOk, Ok, Err};
ghost use Rattle.dk_bind.specs.Outcomes.{Outcome, Binds, Refuses};
ghost use Rattle.dk_bind.specs.Expressions.{fits, bound_literal, column_place, bound_column, kind_at, typed_column, bound_neg, bound_not, bound_two, bound_expr};

use crate::fault::{BindError, mismatch};
use crate::kinds::{Kind, fits, is_too_long, kind_of_result, kind_of_type, kind_of_value, takes};
use dk_syntax::{Boxed, Expr, Node, Op};
use dk_types::{BoundExpr, Refusal};
use dk_values::{Column, Schema, TryCopy, Value};
use std::alloc::Global;

/// A bound expression and its kind.
#[derive(Debug, Drop)]
pub struct Typed {
    pub expr: BoundExpr,
    pub kind: Kind,
}

fn literal(at: u32, value: &Value) -> Result<Typed, BindError>
    ensures { Binds result (bound_literal at value.now) }
{
    if is_too_long(value) {
        return Err(mismatch(at));
    }
    Ok(Typed {
        expr: BoundExpr::Lit(value.copy()?),
        kind: kind_of_value(value),
    })
}

/// The place of the column of that name.
fn column_place(columns: &[Column], name: &[u8]) -> Option<usize>
    ensures place { result ≡ column_place columns.now name.now }
    ensures within { IfSome result (λ place. place < length columns.now) }
{
    columns
        .iter()
        .position(|column| column.name.as_slice() == name)
}

/// A column by its name, which stands at that place of the text.
#[tactic(auto, using(crate::proofs::SchemaLemmas::schema_width))]
pub fn column(schema: &Schema, at: u32, name: &[u8]) -> Result<u16, BindError>
    ensures bound { Binds result (bound_column schema.now at name.now) }
    ensures within { IfOk result (λ place. place < length schema.now) }
{
    match column_place(schema.as_slice(), name) {
        Some(place) => Ok(place as u16),
        None => {
            let at = u64::from(at);
            Err(BindError::Refused(Refusal::NoColumn { at }))
        }
    }
}

/// The kind of a column.
pub fn kind_at(schema: &Schema, place: u16) -> Kind
    requires { place < length schema.now }
    ensures { result ≡ kind_at schema.now place }
{
    kind_of_type(schema.get(usize::from(place)).kind)
}

fn typed_column(schema: &Schema, at: u32, name: &[u8]) -> Result<Typed, BindError>
    ensures { Binds result (typed_column schema.now at name.now) }
{
    let place = column(schema, at, name)?;
    Ok(Typed {
        expr: BoundExpr::Col(place),
        kind: kind_at(schema, place),
    })
}

fn neg(alloc: Global, at: u32, of: Typed) -> Result<Typed, BindError>
    ensures { Binds result (bound_neg at of) }
{
    if !fits(Kind::Number, of.kind) {
        return Err(mismatch(at));
    }
    Ok(Typed {
        expr: BoundExpr::Neg(Boxed::new(alloc, of.expr)?),
        kind: Kind::Number,
    })
}

fn not(alloc: Global, at: u32, of: Typed) -> Result<Typed, BindError>
    ensures { Binds result (bound_not at of) }
{
    if !fits(Kind::Truth, of.kind) {
        return Err(mismatch(at));
    }
    Ok(Typed {
        expr: BoundExpr::Not(Boxed::new(alloc, of.expr)?),
        kind: Kind::Truth,
    })
}

fn two(alloc: Global, at: u32, op: Op, left: Typed, right: Typed) -> Result<Typed, BindError>
    ensures { Binds result (bound_two at op left right) }
{
    if !takes(op, left.kind, right.kind) {
        return Err(mismatch(at));
    }
    let expr = BoundExpr::Two {
        op,
        left: Boxed::new(alloc, left.expr)?,
        right: Boxed::new(alloc, right.expr)?,
    };
    Ok(Typed {
        expr,
        kind: kind_of_result(op),
    })
}

/// An expression bound to the columns of a table, and its kind.
pub fn bind_expr(alloc: Global, schema: &Schema, expr: &Expr) -> Result<Typed, BindError>
    ensures { Binds result (bound_expr schema.now expr.now) }
{
    match &expr.node {
        Node::Lit(value) => literal(expr.at, value),
        Node::Col(name) => typed_column(schema, expr.at, name.as_slice()),
        Node::Neg(of) => {
            let of = bind_expr(alloc, schema, of.get())?;
            neg(alloc, expr.at, of)
        }
        Node::Not(of) => {
            let of = bind_expr(alloc, schema, of.get())?;
            not(alloc, expr.at, of)
        }
        Node::IsNull { of, negated } => {
            let of = bind_expr(alloc, schema, of.get())?;
            let expr = BoundExpr::IsNull {
                of: Boxed::new(alloc, of.expr)?,
                negated: *negated,
            };
            Ok(Typed {
                expr,
                kind: Kind::Truth,
            })
        }
        Node::Two { op, left, right } => {
            let left = bind_expr(alloc, schema, left.get())?;
            let right = bind_expr(alloc, schema, right.get())?;
            two(alloc, expr.at, *op, left, right)
        }
    }
}
