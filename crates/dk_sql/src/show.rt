//! Statements as a test shows them: each operator in parentheses, and `!` where a place of the tree is not where the
//! text has what stands there.
use dk_syntax::{
    ColumnSpot, Expr, FoldKind, Item, Items, Key, Node, Op, Query, Set, Spot, Statement, Tuple,
};
use dk_values::{ColType, OutOfMemory, Value};

/// What is shown so far of a statement that was read in a text.
#[derive(Drop)]
pub struct Page<'a> {
    pub text: &'a [u8],
    pub shown: Vec<u8>,
}

/// Whether the text has these bytes at the place, in capital or in small letters.
fn is_at(text: &[u8], at: u32, bytes: &[u8]) -> bool {
    let at = at as usize;
    let Some(found) = text.get(at..at.saturating_add(bytes.len())) else {
        return false;
    };
    found.eq_ignore_ascii_case(bytes)
}

/// How a literal may begin in the text.
fn begins_literal(text: &[u8], at: u32, value: &Value) -> bool {
    let Some(first) = text.get(at as usize) else {
        return false;
    };
    match value {
        Value::Null => is_at(text, at, b"null"),
        Value::Bool(true) => is_at(text, at, b"true"),
        Value::Bool(false) => is_at(text, at, b"false"),
        Value::Text(_) => *first == b'\'',
        _ => *first == b'-' || first.is_ascii_digit(),
    }
}

fn op_text(op: Op) -> &'static str {
    match op {
        Op::Or => "OR",
        Op::And => "AND",
        Op::Eq => "=",
        Op::Ne => "<>",
        Op::Lt => "<",
        Op::Le => "<=",
        Op::Gt => ">",
        Op::Ge => ">=",
        Op::Add => "+",
        Op::Sub => "-",
        Op::Mul => "*",
    }
}

fn fold_text(kind: FoldKind) -> &'static str {
    match kind {
        FoldKind::Count => "count",
        FoldKind::Sum => "sum",
        FoldKind::Min => "min",
        FoldKind::Max => "max",
    }
}

fn kind_text(kind: ColType) -> &'static str {
    match kind {
        ColType::Bool => "BOOLEAN",
        ColType::Int => "INTEGER",
        ColType::Big => "BIGINT",
        ColType::Text => "VARCHAR",
    }
}

impl Page<'_> {
    fn put(&mut self, text: &str) -> Result<(), OutOfMemory> {
        self.shown.extend_from_slice(text.as_bytes())
    }

    /// A mark where something is not as it should be.
    fn put_unless(&mut self, holds: bool) -> Result<(), OutOfMemory> {
        self.put(if holds { "" } else { "!" })
    }

    fn put_spot(&mut self, spot: &Spot) -> Result<(), OutOfMemory> {
        let holds = is_at(self.text, spot.at, spot.name.as_slice());
        self.put_unless(holds)?;
        self.shown.extend_from_slice(spot.name.as_slice())
    }

    fn put_value(&mut self, value: &Value) -> Result<(), OutOfMemory> {
        match value {
            Value::Null => self.put("NULL"),
            Value::Bool(true) => self.put("TRUE"),
            Value::Bool(false) => self.put("FALSE"),
            Value::Big(number) => {
                let text = number.to_string(*self.shown.allocator())?;
                self.put(text.as_str())
            }
            Value::Text(bytes) => {
                self.put("'")?;
                self.shown.extend_from_slice(bytes.as_slice())?;
                self.put("'")
            }
            Value::Int(_) | Value::Huge(_) => self.put("!"),
        }
    }

    pub fn put_expr(&mut self, expr: &Expr) -> Result<(), OutOfMemory> {
        match &expr.node {
            Node::Lit(value) => {
                let holds = begins_literal(self.text, expr.at, value);
                self.put_unless(holds)?;
                self.put_value(value)
            }
            Node::Col(name) => {
                let holds = is_at(self.text, expr.at, name.as_slice());
                self.put_unless(holds)?;
                self.shown.extend_from_slice(name.as_slice())
            }
            Node::Neg(of) => {
                let holds = is_at(self.text, expr.at, b"-");
                self.put_unless(holds)?;
                self.put("(-")?;
                self.put_expr(of.get())?;
                self.put(")")
            }
            Node::Not(of) => {
                let holds = is_at(self.text, expr.at, b"not");
                self.put_unless(holds)?;
                self.put("(NOT ")?;
                self.put_expr(of.get())?;
                self.put(")")
            }
            Node::IsNull { of, negated } => {
                let holds = is_at(self.text, expr.at, b"is");
                self.put_unless(holds)?;
                self.put("(")?;
                self.put_expr(of.get())?;
                self.put(if *negated {
                    " IS NOT NULL)"
                } else {
                    " IS NULL)"
                })
            }
            Node::Two { op, left, right } => {
                let holds = is_at(self.text, expr.at, op_text(*op).as_bytes());
                self.put_unless(holds)?;
                self.put("(")?;
                self.put_expr(left.get())?;
                self.put(" ")?;
                self.put(op_text(*op))?;
                self.put(" ")?;
                self.put_expr(right.get())?;
                self.put(")")
            }
        }
    }

    fn put_item(&mut self, item: &Item) -> Result<(), OutOfMemory> {
        match item {
            Item::Plain(expr) => self.put_expr(expr),
            Item::CountAll { at } => {
                let holds = is_at(self.text, *at, b"count");
                self.put_unless(holds)?;
                self.put("count(*)")
            }
            Item::Fold { kind, at, of } => {
                let holds = is_at(self.text, *at, fold_text(*kind).as_bytes());
                self.put_unless(holds)?;
                self.put(fold_text(*kind))?;
                self.put("(")?;
                self.put_expr(of)?;
                self.put(")")
            }
        }
    }

    fn put_items(&mut self, items: &Items) -> Result<(), OutOfMemory> {
        match items {
            Items::All { at } => {
                let holds = is_at(self.text, *at, b"*");
                self.put_unless(holds)?;
                self.put("*")
            }
            Items::Listed(items) => {
                for item in items.as_slice() {
                    self.put_item(item)?;
                    self.put(",")?;
                }
                Ok(())
            }
        }
    }

    fn put_filter(&mut self, filter: &Option<Expr>) -> Result<(), OutOfMemory> {
        let Some(expr) = filter else {
            return Ok(());
        };
        self.put(" WHERE ")?;
        self.put_expr(expr)
    }

    fn put_groups(&mut self, groups: &[Spot]) -> Result<(), OutOfMemory> {
        for group in groups {
            self.put(" BY ")?;
            self.put_spot(group)?;
        }
        Ok(())
    }

    fn put_keys(&mut self, keys: &[Key]) -> Result<(), OutOfMemory> {
        for key in keys {
            self.put(if key.descending { " DOWN " } else { " UP " })?;
            self.put_spot(&key.column)?;
        }
        Ok(())
    }

    fn put_query(&mut self, query: &Query) -> Result<(), OutOfMemory> {
        self.put_items(&query.items)?;
        self.put(" FROM ")?;
        self.put_spot(&query.table)?;
        self.put_filter(&query.filter)?;
        self.put_groups(query.groups.as_slice())?;
        self.put_keys(query.keys.as_slice())?;
        let Some(limit) = query.limit else {
            return Ok(());
        };
        self.put(" LIMIT ")?;
        let text = limit.to_string(*self.shown.allocator())?;
        self.put(text.as_str())
    }

    fn put_columns(&mut self, columns: &[ColumnSpot]) -> Result<(), OutOfMemory> {
        for column in columns {
            self.put(" ")?;
            self.put_spot(&column.column)?;
            self.put(" ")?;
            self.put(kind_text(column.kind))?;
        }
        Ok(())
    }

    fn put_tuple(&mut self, tuple: &Tuple) -> Result<(), OutOfMemory> {
        let holds = is_at(self.text, tuple.at, b"(");
        self.put_unless(holds)?;
        self.put(" (")?;
        for value in tuple.values.as_slice() {
            self.put_expr(value)?;
            self.put(",")?;
        }
        self.put(")")
    }

    fn put_tuples(&mut self, tuples: &[Tuple]) -> Result<(), OutOfMemory> {
        for tuple in tuples {
            self.put_tuple(tuple)?;
        }
        Ok(())
    }

    fn put_sets(&mut self, sets: &[Set]) -> Result<(), OutOfMemory> {
        for set in sets {
            self.put(" ")?;
            self.put_spot(&set.column)?;
            self.put(":=")?;
            self.put_expr(&set.value)?;
        }
        Ok(())
    }

    pub fn put_statement(&mut self, statement: &Statement) -> Result<(), OutOfMemory> {
        match statement {
            Statement::Create { table, columns } => {
                self.put("CREATE ")?;
                self.put_spot(table)?;
                self.put_columns(columns.as_slice())
            }
            Statement::Insert { table, tuples } => {
                self.put("INSERT ")?;
                self.put_spot(table)?;
                self.put_tuples(tuples.as_slice())
            }
            Statement::InsertSelect { table, at, query } => {
                let holds = is_at(self.text, *at, b"select");
                self.put_unless(holds)?;
                self.put("INSERT ")?;
                self.put_spot(table)?;
                self.put(" ")?;
                self.put_query(query)
            }
            Statement::Copy { table, bytes } => {
                self.put("COPY ")?;
                self.put_spot(table)?;
                self.put(" ")?;
                self.shown.extend_from_slice(bytes.as_slice())
            }
            Statement::Select { query } => self.put_query(query),
            Statement::Update {
                table,
                sets,
                filter,
            } => {
                self.put("UPDATE ")?;
                self.put_spot(table)?;
                self.put_sets(sets.as_slice())?;
                self.put_filter(filter)
            }
            Statement::Delete { table, filter } => {
                self.put("DELETE ")?;
                self.put_spot(table)?;
                self.put_filter(filter)
            }
            Statement::Begin => self.put("BEGIN"),
            Statement::Commit => self.put("COMMIT"),
            Statement::Rollback => self.put("ROLLBACK"),
            Statement::Checkpoint => self.put("CHECKPOINT"),
        }
    }
}
