// Rows that were written down by hand.

use crate::Rows;
use std::process::Abort;
use std::test::Fail;

fn assert_row(rt: &impl Abort, rows: &Rows, number: usize, want: &[u32]) -> Result<(), Fail> {
    let Some(row) = rows.row(number) else {
        return Err(Fail::new("no such row"));
    };
    assert_eq!(rt; row, want, "row {number}");
    Ok(())
}

#[test]
fn rows_are_read_where_they_lie(rt: HostRuntime) -> Result<(), Fail> {
    let mut rows = Rows::new(rt.alloc());
    assert!(rt; rows.row(0).is_none());
    // The same memory serves twice.
    for turn in 0..2u32 {
        rows.push_row(&[7 + turn, 7])?;
        rows.push_row(&[])?;
        rows.push_row(&[])?;
        rows.push_row(&[1, 2, 3])?;
        assert_eq!(rt; rows.len(), 4);
        assert_row(&rt, &rows, 0, &[7 + turn, 7])?;
        assert_row(&rt, &rows, 1, &[])?;
        assert_row(&rt, &rows, 2, &[])?;
        assert_row(&rt, &rows, 3, &[1, 2, 3])?;
        assert!(rt; rows.row(4).is_none());
        rows.clear();
        assert_eq!(rt; rows.len(), 0);
        assert!(rt; rows.row(0).is_none());
    }
    Ok(())
}
