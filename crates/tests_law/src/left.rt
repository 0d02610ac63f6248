// What the law leaves of a lawful file.
use crate::shown::{most, ruled_by};
use cr_lawful::CLaw;
use cr_lawful_analysis::{Analysis, LastRead};
use std::alloc::{AllocError, Global};
use std::test::Fail;

// What is ruled on a file, and whether its unit lies there then for whoever asks for this other file.
fn left(alloc: Global, file: &str, wanted: &str) -> Result<(String, bool), AllocError> {
    let last = LastRead::new();
    let law = CLaw {
        limits: most(),
        last: Some(&last),
        runs: None,
    };
    let ruled = ruled_by(alloc, file.as_bytes(), &law)?;
    let lies = matches!(
        last.take(wanted.as_bytes()),
        Some(Analysis::OfUnit(_, _, _))
    );
    Ok((ruled, lies))
}

#[test]
fn the_unit_of_a_lawful_file_is_left_for_that_file_alone(rt: HostRuntime) -> Result<(), Fail> {
    let alloc = rt.alloc();
    let lawful = "int main(){return 0;}";
    let undefined = "int main(){return 1/0;}";
    let same = left(alloc, lawful, lawful)?;
    assert!(rt; same.0.as_str() == "lawful" && same.1);
    let other = left(alloc, lawful, undefined)?;
    assert!(rt; !other.1, "another file took what the law left");
    let refused = left(alloc, undefined, undefined)?;
    assert!(rt; refused.0.as_str() != "lawful" && !refused.1);
    Ok(())
}
