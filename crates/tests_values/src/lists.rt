use cr_rows::Row;
use std::alloc::{AllocError, Global};
use std::process::Abort;
use std::test::Fail;

fn two_rows(alloc: Global) -> Result<Vec<Row<u32>>, AllocError> {
    let mut rows = Vec::new(alloc);
    rows.push(Row::from_vec(vec![in alloc; 3, 5]?))?;
    rows.push(Row::new(alloc))?;
    Ok(rows)
}

fn change_the_first(rows: &mut [Row<u32>]) -> Result<(), Fail> {
    let first = rows.first_mut().ok_or("two rows")?;
    first.push(8)?;
    first.set(0, 2);
    Ok(())
}

fn expect_changed(rt: &impl Abort, rows: &[Row<u32>]) -> Result<(), AllocError> {
    assert!(rt; rows.len() == 2, "{} and not 2", rows.len());
    assert!(rt;
        rows[0].as_slice() == [2, 5, 8].as_slice(),
        "other cells, or other rows"
    );
    assert!(rt;
        rows[0].len() == 3 && rows[1].is_empty(),
        "not as it should be, or not empty"
    );
    let mut copy = rows[0].clone()?;
    let last = copy.pop();
    assert!(rt; last == Some(8), "another last item");
    Ok(())
}

fn expect_an_empty_last(rt: &impl Abort, rows: &mut Vec<Row<u32>>) -> Result<(), Fail> {
    let last = rows.pop().ok_or("two rows")?;
    let items = last.into_vec();
    assert!(rt; items.is_empty(), "not empty");
    Ok(())
}

#[test]
fn rows_stand_in_a_list(rt: HostRuntime) -> Result<(), Fail> {
    let mut rows = two_rows(rt.alloc())?;
    change_the_first(&mut rows)?;
    expect_changed(&rt, &rows)?;
    expect_an_empty_last(&rt, &mut rows)
}
