//! A column of values of one type.
ghost use Rattle.std.specs.Prelude.{◌≡◌, ◌<◌, ◌∷◌, ◌++◌, ◌↔◌, [], Some, length, map, option_map, is_some, slice_get, slice_set, take, replicate, IsTrue, IfSome, IfNone, IfOk, OnOk, OnErr};
ghost use Rattle.std.specs.List.{All};
ghost use Rattle.dk_values.specs.declared.value.ColType.TheVariants.{Text as text_type};
ghost use Rattle.dk_rows.specs.Cells.{value_of};
ghost use Rattle.dk_columns.specs.Columns.{IsOfKind, no_values, with_value, with_values, with_set, with_front, is_present, number_of};
ghost use Rattle.dk_columns.specs.Stored.{number_value, text_value, values_in, IsNumber, IsNumeric, IsStored};

use crate::mask::Mask;
use crate::numbers::Numbers;
use crate::text_cells::TextCells;
use dk_rows::Cell;
use dk_values::{ColType, List, OutOfMemory, TryCopy, Value};
use std::alloc::Global;
use std::marker::Model;

/// How the values are kept: truth and numbers as words of 64 bits, texts in one buffer.
#[derive(Debug, Drop)]
pub enum Storage {
    Numbers(Numbers),
    Texts(TextCells),
}

impl TryCopy for Storage {
    fn copy(&self) -> Result<Storage, OutOfMemory> {
        match self {
            Storage::Numbers(numbers) => Ok(Storage::Numbers(numbers.copy()?)),
            Storage::Texts(texts) => Ok(Storage::Texts(texts.copy()?)),
        }
    }
}

/// Values of one type, each of which may be null, seen as a record of the type and the list of the values.
#[derive(Debug, Drop)]
pub struct Cells {
    kind: ColType,
    storage: Storage,
}

impl Model for Cells {
    ghost use Rattle.dk_columns.specs.Columns.{Column};
    ghost use Rattle.dk_columns.specs.Stored.{column, IsStored};

    ghost Value = { Column };

    ghost view = { λ cells. column cells.kind cells.storage };

    ghost invariant = { λ cells. IsStored cells.kind cells.storage };
}

impl Cells {
    /// No values of that type. It takes no memory yet.
    pub fn new(alloc: Global, kind: ColType) -> Cells
        ensures { result ≡ record { kind = kind; values = [] } }
    {
        match kind {
            ColType::Text => Cells {
                kind,
                storage: Storage::Texts(TextCells::new(alloc)),
            },
            _ => Cells {
                kind,
                storage: Storage::Numbers(Numbers::new(alloc)),
            },
        }
    }

    pub fn kind(&self) -> ColType
        ensures { result ≡ self.now.kind }
    {
        self.kind
    }

    pub fn len(&self) -> usize
        ensures { result ≡ length self.now.values }
    {
        stored_len(self.kind, &self.storage)
    }

    /// Lends the i-th value, counted from 0.
    pub fn get(&self, i: usize) -> Cell<'_>
        requires { i < length self.now.values }
        ensures value { slice_get self.now.values i ≡ Some (value_of result) }
        ensures kind { IsOfKind self.now.kind (value_of result) }
    {
        stored_at(self.kind, &self.storage, i)
    }

    /// Adds a value at the end.
    pub fn push(&mut self, cell: &Cell<'_>) -> Result<(), OutOfMemory>
        requires { IsOfKind self.old.kind (value_of cell.now) }
        ensures ok { OnOk result (self.new ≡ with_value (value_of cell.now) self.old) }
        ensures err { OnErr result (self.new ≡ self.old) }
    {
        push_stored(self.kind, &mut self.storage, cell)
    }

    /// Adds so many copies of a value at the end.
    pub fn push_copies(&mut self, cell: &Cell<'_>, count: usize) -> Result<(), OutOfMemory>
        requires { IsOfKind self.old.kind (value_of cell.now) }
        ensures ok { OnOk result (self.new ≡ with_values (replicate count (value_of cell.now)) self.old) }
        ensures err { OnErr result (self.new ≡ self.old) }
    {
        push_stored_copies(self.kind, &mut self.storage, cell, count)
    }

    /// Removes all values, and keeps their memory.
    pub fn clear(&mut self)
        ensures { self.new ≡ no_values self.old.kind }
    {
        clear_stored(self.kind, &mut self.storage);
    }

    /// Removes all values of a type of truth or numbers, and gives the memory of their words away.
    pub fn take_numbers(&mut self) -> Vec<i64>
        requires { IsNumeric self.old.kind }
        ensures buffer { result.items ≡ [] }
        ensures cells { self.new ≡ no_values self.old.kind }
    {
        take_stored(self.kind, &mut self.storage)
    }

    /// Has the values of these words, none of them null, in place of those before.
    #[tactic(auto, using(crate::proofs::StoredLemmas::mapped_twice, crate::proofs::StoredLemmas::all_mapped))]
    pub fn put_numbers(&mut self, numbers: Vec<i64>)
        requires numeric { IsNumeric self.old.kind }
        requires numbers { All (λ number. IsNumber self.old.kind (Some number)) numbers.items }
        ensures { self.new ≡ record {
          kind = self.old.kind;
          values = map (λ number. number_value self.old.kind (Some number)) numbers.items;
        } }
    {
        self.storage = Storage::Numbers(Numbers::from_vec(numbers));
    }

    /// Puts a value in the place of the i-th. A text takes time linear in the texts.
    pub fn set(&mut self, i: usize, cell: &Cell<'_>) -> Result<(), OutOfMemory>
        requires within { i < length self.old.values }
        requires kind { IsOfKind self.old.kind (value_of cell.now) }
        ensures ok { OnOk result (self.new ≡ with_set i (value_of cell.now) self.old) }
        ensures err { OnErr result (self.new ≡ self.old) }
    {
        set_stored(self.kind, &mut self.storage, i, cell)
    }

    /// Lends the words of truth or numbers, with 0 for each null. Texts have none.
    pub fn numbers(&self) -> Option<&[i64]>
        ensures numbers { IfSome result (λ numbers. numbers.now ≡ map number_of self.now.values) }
        ensures text { IfNone result (self.now.kind ≡ text_type) }
    {
        numbers_in(self.kind, &self.storage)
    }

    /// Lends the flags of the values that are not null.
    pub fn present(&self) -> &Mask
        ensures { result.now ≡ map is_present self.now.values }
    {
        present_in(self.kind, &self.storage)
    }

    /// Adds copies of the values of another column of the same type at the end.
    pub fn append(&mut self, more: &Cells) -> Result<(), OutOfMemory>
        requires { self.old.kind ≡ more.now.kind }
        ensures ok { OnOk result (self.new ≡ with_values more.now.values self.old) }
        ensures err { OnErr result (self.new ≡ self.old) }
    {
        let before = self.len();
        'values: for i in 0..more.len() {
            if let Err(lack) = self.push(&more.get(i)) {
                self.truncate(before);
                return Err(lack);
            }
        }
        Ok(())
    }

    /// A column of these values.
    pub fn from_slice(alloc: Global, kind: ColType, values: &[Value]) -> Result<Cells, OutOfMemory>
        requires { All (IsOfKind kind) values.now }
        ensures { IfOk result (λ cells. cells ≡ record { kind = kind; values = values.now }) }
    {
        let mut cells = Cells::new(alloc, kind);
        'values: for i in 0..values.len() {
            cells.push(&Cell::of(&values[i]))?;
        }
        Ok(cells)
    }

    /// The values as a list.
    pub fn to_values(&self, alloc: Global) -> Result<List<Value>, OutOfMemory>
        ensures { IfOk result (λ values. values ≡ self.now.values) }
    {
        let mut values = List::new(alloc);
        'values: for i in 0..self.len() {
            values.push(self.get(i).to_value(alloc)?)?;
        }
        Ok(values)
    }

    /// Whether the columns have the same values.
    pub fn is_same(&self, other: &Cells) -> bool
        ensures { IsTrue result ↔ (self.now.values ≡ other.now.values) }
    {
        if self.len() != other.len() {
            return false;
        }
        'values: for i in 0..other.len() {
            if !self.get(i).is_same(&other.get(i)) {
                return false;
            }
        }
        true
    }

    /// Whether the columns have the same type and the same values.
    fn is_equal(&self, other: &Cells) -> bool
        ensures { IsTrue result ↔ (self.now ≡ other.now) }
    {
        is_same_kind(self.kind(), other.kind()) && self.is_same(other)
    }

    /// Keeps the first n values.
    pub fn truncate(&mut self, n: usize)
        ensures { self.new ≡ with_front n self.old }
    {
        truncate_stored(self.kind, &mut self.storage, n);
    }
}

impl TryCopy for Cells {
    fn copy(&self) -> Result<Cells, OutOfMemory> {
        let storage = self.storage.copy()?;
        Ok(Cells {
            kind: self.kind,
            storage,
        })
    }
}

impl PartialEq for Cells {
    ghost use Rattle.dk_columns.specs.Equal.{column_eq, column_per};

    ghost eq = { column_eq };

    ghost laws = { column_per };

    fn eq(&self, other: &Cells) -> bool {
        self.is_equal(other)
    }
}

/// Whether two types are the same.
pub(crate) fn is_same_kind(kind: ColType, other: ColType) -> bool
    ensures { IsTrue result ↔ (kind ≡ other) }
{
    match (kind, other) {
        (ColType::Bool, ColType::Bool)
        | (ColType::Int, ColType::Int)
        | (ColType::Big, ColType::Big)
        | (ColType::Text, ColType::Text) => true,
        _ => false,
    }
}

/// How many values are kept.
fn stored_len(kind: ColType, storage: &Storage) -> usize
    ensures { result ≡ length (values_in kind storage.now) }
{
    match storage {
        Storage::Numbers(numbers) => numbers.len(),
        Storage::Texts(texts) => texts.len(),
    }
}

/// Lends the i-th value.
fn stored_at(kind: ColType, storage: &Storage, i: usize) -> Cell<'_>
    requires within { i < length (values_in kind storage.now) }
    requires stored { IsStored kind storage.now }
    ensures value { slice_get (values_in kind storage.now) i ≡ Some (value_of result) }
    ensures kind { IsOfKind kind (value_of result) }
{
    match storage {
        Storage::Numbers(numbers) => number_cell(kind, numbers.get(i)),
        Storage::Texts(texts) => text_cell(texts.get(i)),
    }
}

/// Lends the words of truth or numbers.
fn numbers_in(kind: ColType, storage: &Storage) -> Option<&[i64]>
    requires { IsStored kind storage.now }
    ensures numbers { IfSome result (λ numbers. numbers.now ≡ map number_of (values_in kind storage.now)) }
    ensures text { IfNone result (kind ≡ text_type) }
{
    match storage {
        Storage::Numbers(numbers) => Some(numbers.numbers()),
        Storage::Texts(_) => None,
    }
}

/// Lends the flags of the values that are not null.
fn present_in(kind: ColType, storage: &Storage) -> &Mask
    requires { IsStored kind storage.now }
    ensures { result.now ≡ map is_present (values_in kind storage.now) }
{
    match storage {
        Storage::Numbers(numbers) => numbers.present(),
        Storage::Texts(texts) => texts.present(),
    }
}

/// The value that a number stands for.
fn number_cell(kind: ColType, number: Option<i64>) -> Cell<'static>
    requires { IsNumber kind number }
    ensures value { value_of result ≡ number_value kind number }
    ensures kind { IsOfKind kind (value_of result) }
{
    let Some(number) = number else {
        return Cell::Null;
    };
    match kind {
        ColType::Bool => Cell::Bool(number == 1),
        ColType::Int => Cell::Int(number as i32),
        ColType::Big => Cell::Big(number),
        ColType::Text => Cell::Null,
    }
}

/// The value of a text.
fn text_cell(text: Option<&[u8]>) -> Cell<'_>
    ensures value { value_of result ≡ text_value (option_map (λ text. text.now) text.entry) }
    ensures kind { IsOfKind text_type (value_of result) }
{
    match text {
        None => Cell::Null,
        Some(text) => Cell::Text(text),
    }
}

/// The number that stands for a value.
fn number_to_keep(kind: ColType, cell: &Cell<'_>) -> Option<i64>
    requires numeric { IsNumeric kind }
    requires kind { IsOfKind kind (value_of cell.now) }
    ensures value { number_value kind result ≡ value_of cell.now }
    ensures number { IsNumber kind result }
{
    match cell {
        Cell::Bool(truth) => Some(*truth as i64),
        Cell::Int(number) => Some(*number as i64),
        Cell::Big(number) => Some(*number),
        Cell::Null | Cell::Text(_) | Cell::Huge(_) => None,
    }
}

/// The text of a value.
fn text_to_keep<'a>(cell: &Cell<'a>) -> Option<&'a [u8]>
    requires { IsOfKind text_type (value_of cell.now) }
    ensures { text_value (option_map (λ text. text.now) result) ≡ value_of cell.now }
{
    match cell {
        Cell::Text(text) => Some(*text),
        _ => None,
    }
}

/// Adds a value at the end.
fn push_stored(kind: ColType, storage: &mut Storage, cell: &Cell<'_>) -> Result<(), OutOfMemory>
    requires stored { IsStored kind storage.old }
    requires kind { IsOfKind kind (value_of cell.now) }
    ensures stored { IsStored kind storage.new }
    ensures ok { OnOk result (values_in kind storage.new ≡ values_in kind storage.old ++ value_of cell.now ∷ []) }
    ensures err { OnErr result (values_in kind storage.new ≡ values_in kind storage.old) }
{
    match storage {
        Storage::Numbers(numbers) => numbers.push(number_to_keep(kind, cell)),
        Storage::Texts(texts) => texts.push(text_to_keep(cell)),
    }
}

/// Adds so many copies of a value at the end.
fn push_stored_copies(
    kind: ColType,
    storage: &mut Storage,
    cell: &Cell<'_>,
    count: usize,
) -> Result<(), OutOfMemory>
    requires stored { IsStored kind storage.old }
    requires kind { IsOfKind kind (value_of cell.now) }
    ensures stored { IsStored kind storage.new }
    ensures ok { OnOk result (values_in kind storage.new
        ≡ values_in kind storage.old ++ replicate count (value_of cell.now)) }
    ensures err { OnErr result (values_in kind storage.new ≡ values_in kind storage.old) }
{
    match storage {
        Storage::Numbers(numbers) => numbers.push_copies(number_to_keep(kind, cell), count),
        Storage::Texts(texts) => texts.push_copies(text_to_keep(cell), count),
    }
}

/// Removes all values.
fn clear_stored(kind: ColType, storage: &mut Storage)
    requires { IsStored kind storage.old }
    ensures stored { IsStored kind storage.new }
    ensures values { values_in kind storage.new ≡ [] }
{
    match storage {
        Storage::Numbers(numbers) => numbers.clear(),
        Storage::Texts(texts) => texts.clear(),
    }
}

/// Removes all values, and gives the memory of their words away.
fn take_stored(kind: ColType, storage: &mut Storage) -> Vec<i64>
    requires numeric { IsNumeric kind }
    requires stored { IsStored kind storage.old }
    ensures buffer { result.items ≡ [] }
    ensures stored { IsStored kind storage.new }
    ensures values { values_in kind storage.new ≡ [] }
{
    match storage {
        Storage::Numbers(numbers) => numbers.take_buffer(),
        Storage::Texts(_) => unreachable!(),
    }
}

/// Puts a value in the place of the i-th.
fn set_stored(
    kind: ColType,
    storage: &mut Storage,
    i: usize,
    cell: &Cell<'_>,
) -> Result<(), OutOfMemory>
    requires within { i < length (values_in kind storage.old) }
    requires stored { IsStored kind storage.old }
    requires kind { IsOfKind kind (value_of cell.now) }
    ensures stored { IsStored kind storage.new }
    ensures ok { OnOk result (values_in kind storage.new
        ≡ slice_set (values_in kind storage.old) i (value_of cell.now)) }
    ensures err { OnErr result (values_in kind storage.new ≡ values_in kind storage.old) }
{
    match storage {
        Storage::Numbers(numbers) => numbers.set(i, number_to_keep(kind, cell)),
        Storage::Texts(texts) => texts.set(i, text_to_keep(cell)),
    }
}

/// Keeps the first n values.
fn truncate_stored(kind: ColType, storage: &mut Storage, n: usize)
    requires { IsStored kind storage.old }
    ensures stored { IsStored kind storage.new }
    ensures values { values_in kind storage.new ≡ take n (values_in kind storage.old) }
{
    match storage {
        Storage::Numbers(numbers) => numbers.truncate(n),
        Storage::Texts(texts) => texts.truncate(n),
    }
}
