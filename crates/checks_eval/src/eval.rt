//! Checks of `col_eval`: tables and trees that no document has.
use col_array::{AnyArray, AnyScalar};
use col_eval::{Expr, Op, Table, evaluate, typed_of};
use col_flat::{PrimitiveArray, PrimitiveScalar};
use col_types::{DataType, Error, Reason};
use std::alloc::Global;

fn column_of(alloc: Global, slots: &[Option<i64>]) -> Result<AnyArray, Error> {
    Ok(AnyArray::from(PrimitiveArray::from_options(alloc, DataType::Int64, slots)?))
}

// A column of numbers and one of nulls of a type that no step takes.
fn table_of(alloc: Global, slots: &[Option<i64>]) -> Result<Table, Error> {
    let mut columns = Vec::with_capacity(alloc, 2)?;
    columns.push(column_of(alloc, slots)?)?;
    columns.push(AnyArray::new_null(alloc, DataType::Date32, slots.len())?)?;
    Table::new(columns).map_err(|refused| refused.0)
}

#[test]
fn columns_of_two_lengths_are_handed_back(rt: HostRuntime) -> Result<(), Error> {
    let mut columns = Vec::with_capacity(rt.alloc(), 2)?;
    columns.push(column_of(rt.alloc(), &[Some(1)])?)?;
    columns.push(column_of(rt.alloc(), &[Some(1), None])?)?;
    let Err((error, columns)) = Table::new(columns) else {
        assert!(rt; false, "lengths 1 and 2 make no table");
        return Ok(());
    };
    assert_eq!(rt; error, Error::InvalidArgumentError(Reason::Lengths));
    assert_eq!(rt; columns.len(), 2);
    assert_eq!(rt; [columns[0].len(), columns[1].len()], [1, 2]);
    Ok(())
}

#[test]
fn a_table_without_columns_has_no_rows(rt: HostRuntime) -> Result<(), Error> {
    let table = Table::new(Vec::new(rt.alloc())).map_err(|refused| refused.0)?;
    assert_eq!(rt; (table.rows(), table.width()), (0, 0));
    Ok(())
}

// What stands at the end of a tree.
#[derive(Clone, Copy, Debug)]
enum Leaf {
    Column(u32),
    Number(Option<i64>),
    // a null of a type that no step takes
    Date,
}

fn leaf_of(leaf: Leaf) -> Result<Expr, Error> {
    match leaf {
        Leaf::Column(position) => Ok(Expr::Column(position)),
        Leaf::Number(value) => {
            let scalar = PrimitiveScalar::new(DataType::Int64, value)?;
            Ok(Expr::Literal(AnyScalar::Int64(scalar)))
        }
        Leaf::Date => {
            let scalar = PrimitiveScalar::new(DataType::Date32, None)?;
            Ok(Expr::Literal(AnyScalar::Int32(scalar)))
        }
    }
}

// A tree to which a leaf is added.
fn sum(alloc: Global, lhs: Expr, rhs: Leaf) -> Result<Expr, Error> {
    let lhs = Box::new(alloc, lhs)?;
    Ok(Expr::Step(Op::CheckedAdd, lhs, Box::new(alloc, leaf_of(rhs)?)?))
}

// A leaf to which another is added so many times.
fn chain(alloc: Global, lhs: Leaf, rhs: Leaf, steps: usize) -> Result<Expr, Error> {
    let mut tree = leaf_of(lhs)?;
    for _ in 0..steps {
        tree = sum(alloc, tree, rhs)?;
    }
    Ok(tree)
}

// The refusals of such a tree, by its type and by its answer.
fn refusals_of(
    alloc: Global,
    table: &Table,
    leaves: (Leaf, Leaf),
    steps: usize,
) -> Result<[Option<Error>; 2], Error> {
    let tree = chain(alloc, leaves.0, leaves.1, steps)?;
    let refusal = typed_of(alloc, table, &tree).err();
    Ok([refusal, evaluate(alloc, table, &tree).err()])
}

#[test]
fn deep_trees_are_refused_before_their_columns(rt: HostRuntime) -> Result<(), Error> {
    let depth = Some(Error::InvalidArgumentError(Reason::Depth));
    let position = Some(Error::InvalidArgumentError(Reason::Position));
    let cases = [
        (0, 255, None),
        (0, 256, depth),
        (9, 0, position),
        (9, 255, position),
        (9, 256, depth),
    ];
    let table = table_of(rt.alloc(), &[Some(1)])?;
    for (column, steps, wanted) in cases {
        let leaves = (Leaf::Column(column), Leaf::Number(Some(0)));
        let refusals = refusals_of(rt.alloc(), &table, leaves, steps)?;
        assert_eq!(rt; refusals, [wanted; 2], "{steps} steps on column {column}");
    }
    Ok(())
}

#[test]
fn steps_without_an_entry_are_refused_without_rows_too(rt: HostRuntime) -> Result<(), Error> {
    // the operands, and the number of steps
    let cases = [
        ((Leaf::Number(Some(1)), Leaf::Column(0)), 0),
        ((Leaf::Number(None), Leaf::Column(0)), 1),
        ((Leaf::Column(0), Leaf::Date), 1),
        ((Leaf::Column(0), Leaf::Column(1)), 1),
        ((Leaf::Column(1), Leaf::Date), 1),
        ((Leaf::Column(1), Leaf::Number(None)), 1),
    ];
    for slots in [[].as_slice(), [Some(1), None].as_slice()] {
        let table = table_of(rt.alloc(), slots)?;
        for (leaves, steps) in cases {
            let refusals = refusals_of(rt.alloc(), &table, leaves, steps)?;
            assert_eq!(rt; refusals, [Some(Error::NotYetImplemented); 2], "{leaves:?}");
        }
    }
    Ok(())
}
