// What the passes take of what was read before.
use cr_cursor::{LEVELS, PASSES, Passes};
use cr_lawful_analysis::{LastRead, analyse};
use pass_list::CPasses;
use std::alloc::AllocError;

#[test]
fn what_was_read_before_is_taken_and_offers_the_same(rt: HostRuntime) -> Result<(), AllocError> {
    let alloc = rt.alloc();
    let file: &[u8] = b"int a;\nint main(){return 1+2;}\n";
    let last = LastRead::new();
    last.leave(file.to_vec(alloc)?, analyse(alloc, file)?);
    let enabled = [true; 12];
    let plain = CPasses {
        enabled,
        last: None,
    };
    let passes = CPasses {
        enabled,
        last: Some(&last),
    };
    let wanted = plain.prepare(alloc, file)?;
    let found = passes.prepare(alloc, file)?;
    assert!(rt;
        last.take(file).is_none(),
        "something where nothing should be"
    );
    for pass in 0..PASSES {
        for level in 0..LEVELS {
            assert!(rt;
                passes.width(&found, pass, level) == plain.width(&wanted, pass, level),
                "a level has another width"
            );
        }
    }
    assert!(rt; passes.width(&found, 5, 0) > 0, "the level is empty");
    Ok(())
}
