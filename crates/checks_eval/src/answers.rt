//! What kernels and trees answer for columns of decimals, each call in a small function.
use col_array::{AnyArray, AnyScalar};
use col_eval::laws::unrefused_tables_have_columns;
use col_eval::{
    Expr, Op, Table, add, add_scalar, div, div_scalar, evaluate, mul, mul_scalar, rem, sub,
    sub_scalar, typed_of,
};
use col_flat::{PrimitiveArray, PrimitiveScalar};
use col_types::{DataType, Error, Reason};
use std::alloc::Global;

pub(crate) type Slot = Option<i128>;

// The type of a column: decimals of so many digits, of which some stand after the point, or others.
#[derive(Clone, Copy, Debug)]
pub(crate) enum Kind {
    Decimal(usize, usize),
    Int64,
    UInt8,
    Date32,
}

pub(crate) fn data_type(kind: Kind) -> DataType {
    match kind {
        Kind::Decimal(precision, scale) => DataType::Decimal(precision, scale),
        Kind::Int64 => DataType::Int64,
        Kind::UInt8 => DataType::UInt8,
        Kind::Date32 => DataType::Date32,
    }
}

// A column of a type, with these slots where they are decimals, else with as many nulls.
#[derive(Clone, Copy, Debug)]
pub(crate) struct Column<'a> {
    pub(crate) kind: Kind,
    pub(crate) slots: &'a [Slot],
}

// What a call answers: at most two slots of the type that was wanted, or a type, or a refusal.
#[derive(Clone, Copy, Debug, PartialEq)]
pub(crate) enum Answer {
    NoRow,
    Is(i128),
    Null,
    Two(Slot, Slot),
    Typed,
    Overflow,
    DivideByZero,
    Parameters,
    Lengths,
    NotYetImplemented,
    Other,
}

fn refusal(error: Error) -> Answer {
    match error {
        Error::Overflow => Answer::Overflow,
        Error::DivideByZero => Answer::DivideByZero,
        Error::InvalidArgumentError(Reason::Parameters) => Answer::Parameters,
        Error::InvalidArgumentError(Reason::Lengths) => Answer::Lengths,
        Error::NotYetImplemented => Answer::NotYetImplemented,
        _ => Answer::Other,
    }
}

fn only_slot(slot: Slot) -> Answer {
    match slot {
        Some(number) => Answer::Is(number),
        None => Answer::Null,
    }
}

// The slots of at most two rows.
fn rows_of(array: &PrimitiveArray<i128>) -> Answer {
    match array.len() {
        0 => Answer::NoRow,
        1 => only_slot(array.get(0)),
        2 => Answer::Two(array.get(0), array.get(1)),
        _ => Answer::Other,
    }
}

fn slots_of(kind: Kind, array: &PrimitiveArray<i128>) -> Answer {
    if array.data_type().equal(&data_type(kind)) {
        rows_of(array)
    } else {
        Answer::Other
    }
}

fn told_array(kind: Kind, array: &AnyArray) -> Answer {
    match array {
        AnyArray::Int128(array) => slots_of(kind, array),
        _ => Answer::Other,
    }
}

fn told(kind: Kind, made: Result<AnyArray, Error>) -> Answer {
    match made {
        Ok(array) => told_array(kind, &array),
        Err(error) => refusal(error),
    }
}

fn told_type(kind: Kind, made: Result<DataType, Error>) -> Answer {
    match made {
        Ok(told) if told.equal(&data_type(kind)) => Answer::Typed,
        Ok(_) => Answer::Other,
        Err(error) => refusal(error),
    }
}

// The kernels that decimals have, each on two arrays, and on an array and a scalar.
#[derive(Clone, Copy, Debug, PartialEq)]
pub(crate) enum Kernel {
    Add,
    Sub,
    Mul,
    Div,
}

pub(crate) const KERNELS: [Kernel; 4] = [Kernel::Add, Kernel::Sub, Kernel::Mul, Kernel::Div];

// What a kernel answers for two arrays, of which the left one is of a type.
fn answer_of(alloc: Global, kernel: Kernel, kind: Kind, lhs: &AnyArray, rhs: &AnyArray) -> Answer {
    match kernel {
        Kernel::Add => told(kind, add(alloc, lhs, rhs)),
        Kernel::Sub => told(kind, sub(alloc, lhs, rhs)),
        Kernel::Mul => told(kind, mul(alloc, lhs, rhs)),
        Kernel::Div => told(kind, div(alloc, lhs, rhs)),
    }
}

// What its twin answers for an array of a type and a scalar.
fn answer_with(
    alloc: Global,
    kernel: Kernel,
    kind: Kind,
    lhs: &AnyArray,
    rhs: &AnyScalar,
) -> Answer {
    match kernel {
        Kernel::Add => told(kind, add_scalar(alloc, lhs, rhs)),
        Kernel::Sub => told(kind, sub_scalar(alloc, lhs, rhs)),
        Kernel::Mul => told(kind, mul_scalar(alloc, lhs, rhs)),
        Kernel::Div => told(kind, div_scalar(alloc, lhs, rhs)),
    }
}

fn remainders_of(alloc: Global, kind: Kind, lhs: &AnyArray, rhs: &AnyArray) -> Answer {
    told(kind, rem(alloc, lhs, rhs))
}

fn array_of(alloc: Global, column: Column) -> Result<AnyArray, Error> {
    match column.kind {
        Kind::Decimal(..) => {
            let data_type = data_type(column.kind);
            Ok(AnyArray::Int128(PrimitiveArray::from_options(alloc, data_type, column.slots)?))
        }
        Kind::Int64 | Kind::UInt8 | Kind::Date32 => {
            AnyArray::new_null(alloc, data_type(column.kind), column.slots.len())
        }
    }
}

// A scalar of a type, with this slot where it is a decimal, else a null.
fn scalar_of(kind: Kind, slot: Slot) -> Result<AnyScalar, Error> {
    let data_type = data_type(kind);
    match kind {
        Kind::Decimal(..) => Ok(AnyScalar::Int128(PrimitiveScalar::new(data_type, slot)?)),
        Kind::Int64 => Ok(AnyScalar::Int64(PrimitiveScalar::new(data_type, None)?)),
        Kind::UInt8 => Ok(AnyScalar::UInt8(PrimitiveScalar::new(data_type, None)?)),
        Kind::Date32 => Ok(AnyScalar::Int32(PrimitiveScalar::new(data_type, None)?)),
    }
}

// What a kernel answers for an array and a column.
fn answer_beside(alloc: Global, kernel: Kernel, kind: Kind, lhs: &AnyArray, rhs: Column) -> Answer {
    match array_of(alloc, rhs) {
        Ok(right) => answer_of(alloc, kernel, kind, lhs, &right),
        Err(_) => Answer::Other,
    }
}

// What a kernel answers for two columns.
pub(crate) fn kernel_answer(alloc: Global, kernel: Kernel, lhs: Column, rhs: Column) -> Answer {
    match array_of(alloc, lhs) {
        Ok(left) => answer_beside(alloc, kernel, lhs.kind, &left, rhs),
        Err(_) => Answer::Other,
    }
}

// What its twin answers for a column and a scalar.
pub(crate) fn scalar_answer(
    alloc: Global,
    kernel: Kernel,
    lhs: Column,
    kind: Kind,
    slot: Slot,
) -> Answer {
    match (array_of(alloc, lhs), scalar_of(kind, slot)) {
        (Ok(left), Ok(right)) => answer_with(alloc, kernel, lhs.kind, &left, &right),
        _ => Answer::Other,
    }
}

// What `rem` answers for an array and a column.
fn remainders_beside(alloc: Global, kind: Kind, lhs: &AnyArray, rhs: Column) -> Answer {
    match array_of(alloc, rhs) {
        Ok(right) => remainders_of(alloc, kind, lhs, &right),
        Err(_) => Answer::Other,
    }
}

// What `rem` answers for two columns.
pub(crate) fn remainders(alloc: Global, lhs: Column, rhs: Column) -> Answer {
    match array_of(alloc, lhs) {
        Ok(left) => remainders_beside(alloc, lhs.kind, &left, rhs),
        Err(_) => Answer::Other,
    }
}

// The calls on a table and a tree.
#[derive(Clone, Copy, Debug, PartialEq)]
pub(crate) enum Call {
    TypedOf,
    Evaluate,
    Law,
}

// What a call answers for a table and a tree, of which a type is wanted.
fn tree_answer(alloc: Global, call: Call, kind: Kind, table: &Table, tree: &Expr) -> Answer {
    match call {
        Call::TypedOf => told_type(kind, typed_of(alloc, table, tree)),
        Call::Evaluate => told(kind, evaluate(alloc, table, tree)),
        Call::Law => told(kind, unrefused_tables_have_columns(alloc, table, tree)),
    }
}

fn table_of(alloc: Global, lhs: AnyArray, rhs: AnyArray) -> Result<Table, Error> {
    let columns = Vec::from_array(alloc, [lhs, rhs])?;
    Table::new(columns).map_err(|refused| refused.0)
}

fn table_made(alloc: Global, lhs: Column, rhs: Column) -> Result<Table, Error> {
    match (array_of(alloc, lhs), array_of(alloc, rhs)) {
        (Ok(left), Ok(right)) => table_of(alloc, left, right),
        _ => Err(Error::OutOfSpec),
    }
}

// The trees over a table of two columns.
#[derive(Clone, Copy, Debug)]
pub(crate) enum Shape {
    // the step on both columns
    Columns(Op),
    // the step on the left column and a literal
    Beside(Op, Kind, Slot),
    // the second step on what the first gives for both columns, and on the right column
    Twice(Op, Op),
}

// The right operand of a step.
#[derive(Clone, Copy)]
enum Leaf {
    Column,
    Literal(Kind, Slot),
}

fn leaf_of(leaf: Leaf) -> Result<Expr, Error> {
    match leaf {
        Leaf::Column => Ok(Expr::Column(1)),
        Leaf::Literal(kind, slot) => Ok(Expr::Literal(scalar_of(kind, slot)?)),
    }
}

fn step(alloc: Global, op: Op, lhs: Expr, rhs: Leaf) -> Result<Expr, Error> {
    let lhs = Box::new(alloc, lhs)?;
    Ok(Expr::Step(op, lhs, Box::new(alloc, leaf_of(rhs)?)?))
}

fn tree_made(alloc: Global, shape: Shape) -> Result<Expr, Error> {
    let lhs = Expr::Column(0);
    match shape {
        Shape::Columns(op) => step(alloc, op, lhs, Leaf::Column),
        Shape::Beside(op, kind, slot) => step(alloc, op, lhs, Leaf::Literal(kind, slot)),
        Shape::Twice(first, second) => {
            step(
                alloc,
                second,
                step(alloc, first, lhs, Leaf::Column)?,
                Leaf::Column,
            )
        }
    }
}

// What a call answers for a table of two columns and a tree over it.
pub(crate) fn call_answer(
    alloc: Global,
    call: Call,
    lhs: Column,
    rhs: Column,
    shape: Shape,
) -> Answer {
    match (table_made(alloc, lhs, rhs), tree_made(alloc, shape)) {
        (Ok(table), Ok(tree)) => tree_answer(alloc, call, lhs.kind, &table, &tree),
        _ => Answer::Other,
    }
}
