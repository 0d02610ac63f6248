// How often the law asks its stop.
use crate::shown::most;
use cr_cursor::{Law, Never, Ruling};
use cr_lawful::CLaw;
use std::alloc::Global;
use std::test::Fail;

// Whether the law finds the file lawful, and asked its stop so often at least.
fn asks(alloc: Global, file: &str, least: u64) -> bool {
    let law = CLaw {
        limits: most(),
        last: None,
        runs: None,
    };
    let mut stop = Never { looks: 0 };
    law.rule(alloc, file.as_bytes(), &mut stop) == Ruling::Lawful && stop.looks >= least
}

#[test]
fn a_stop_is_asked_in_each_slice_of_a_run(rt: HostRuntime) -> Result<(), Fail> {
    let alloc = rt.alloc();
    assert!(rt; asks(alloc, "int main(){return 0;}", 1));
    // Four steps for each turn of the loop and four around it: 40,004, which ten slices of 4,096 cover.
    assert!(rt; asks(alloc, "int main(){int i=10000;while(i)i--;}", 10));
    // 800,004 of them.
    assert!(rt; asks(alloc, "int main(){int i=200000;while(i)i--;}", 196));
    Ok(())
}
