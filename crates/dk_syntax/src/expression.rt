//! Expressions as a statement's text has them.
ghost use Rattle.std.specs.Prelude.{◌≡◌, IfOk};
ghost use Rattle.std.specs.List.{filter_map, list_all};
ghost use Rattle.std.specs.Option.{option_copied};
ghost use Rattle.dk_syntax.specs.Literals.{is_literal, literal_of, literals_of};

use crate::boxed::Boxed;
use dk_values::{Bytes, List, OutOfMemory, Row, TryCopy, Value};
use std::alloc::Global;

/// An operator of two operands.
#[derive(Clone, Copy, Debug, PartialEq, Eq)]
pub enum Op {
    Or,
    And,
    Eq,
    Ne,
    Lt,
    Le,
    Gt,
    Ge,
    Add,
    Sub,
    Mul,
}

/// An expression and its place, a byte of the statement's text.
///
/// The place is the first byte of the operator, of the word IS, or of a literal or a name. Parentheses have none.
#[cycle(expr)]
#[derive(Debug, Drop, PartialEq)]
pub struct Expr {
    pub at: u32,
    pub node: Node,
}

/// What an expression is made of.
#[cycle(expr)]
#[derive(Debug, Drop, PartialEq)]
pub enum Node {
    /// A number is a `Value::Big`.
    Lit(Value),
    /// A column, by its name.
    Col(Bytes),
    /// Unary `-`.
    Neg(Boxed<Expr>),
    Not(Boxed<Expr>),
    /// IS NULL, or IS NOT NULL where it is negated.
    IsNull {
        of: Boxed<Expr>,
        negated: bool,
    },
    Two {
        op: Op,
        left: Boxed<Expr>,
        right: Boxed<Expr>,
    },
}

pub type Exprs = List<Expr>;

impl Expr {
    /// The value of an expression that is a literal.
    pub fn literal(&self) -> Option<&Value>
        ensures { option_copied result ≡ literal_of self.now }
    {
        match &self.node {
            Node::Lit(value) => Some(value),
            _ => None,
        }
    }
}

/// The values of expressions that are all literals, or none where one of them is no literal.
pub fn literals(alloc: Global, exprs: &[Expr]) -> Result<Option<Row>, OutOfMemory>
    ensures { IfOk result (λ values. values ≡ literals_of exprs.now) }
{
    if !are_literals(exprs) {
        return Ok(None);
    }
    Ok(Some(literals_among(alloc, exprs)?))
}

/// Whether all expressions are literals.
fn are_literals(exprs: &[Expr]) -> bool
    ensures { result ≡ list_all is_literal exprs.now }
{
    exprs.iter().all(|expr| expr.literal().is_some())
}

/// The values of the literals among expressions.
fn literals_among(alloc: Global, exprs: &[Expr]) -> Result<Row, OutOfMemory>
    ensures { IfOk result (λ values. values ≡ filter_map literal_of exprs.now) }
{
    let mut values = List::new(alloc);
    for expr in exprs {
        if let Some(value) = expr.literal() {
            values.push(value.copy()?)?;
        }
    }
    Ok(values)
}

impl TryCopy for Expr {
    #[cycle(copy)]
    fn copy(&self) -> Result<Expr, OutOfMemory> {
        Ok(Expr {
            at: self.at,
            node: self.node.copy()?,
        })
    }
}

impl TryCopy for Node {
    #[cycle(copy)]
    fn copy(&self) -> Result<Node, OutOfMemory> {
        match self {
            Node::Lit(value) => Ok(Node::Lit(value.copy()?)),
            Node::Col(name) => Ok(Node::Col(name.copy()?)),
            Node::Neg(of) => Ok(Node::Neg(copy_operand(of)?)),
            Node::Not(of) => Ok(Node::Not(copy_operand(of)?)),
            Node::IsNull { of, negated } => Ok(Node::IsNull {
                of: copy_operand(of)?,
                negated: *negated,
            }),
            Node::Two { op, left, right } => Ok(Node::Two {
                op: *op,
                left: copy_operand(left)?,
                right: copy_operand(right)?,
            }),
        }
    }
}

/// A copy of an operand.
#[cycle(copy)]
fn copy_operand(operand: &Boxed<Expr>) -> Result<Boxed<Expr>, OutOfMemory>
    ensures { IfOk result (λ copied. copied ≡ operand.now) }
{
    operand.another(operand.get().copy()?)
}
