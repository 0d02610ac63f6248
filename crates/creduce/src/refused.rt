// What is seen before a run begins, and why it then doesn't.
use crate::one_run::Subject;
use cr_around::{Begun, Plain, Saying, refusal_of};
use cr_main_words::Engine;
use creduce_system::{facts, sum_of};
use std::alloc::AllocError;

/// What the journal of the run was begun with, or why the run is refused, which is said.
pub fn begun(rt: &HostRuntime, run: &Subject<'_>) -> Result<Option<Begun>, AllocError> {
    let Some(name) = run.name else {
        return Ok(Some(Begun::Nothing));
    };
    let resumes = run.modes.engine == Engine::Resume;
    let facts = facts(rt, rt.alloc(), name, run.keeps_journal(), resumes)?;
    if let Some(refusal) = refusal_of(&facts, run.test, run.modes.any_order, run.reached) {
        let saying = Saying {
            refusal,
            name,
            facts: &facts,
            test: run.test,
        };
        let _ = eprintln!(rt; "{saying}");
        return Ok(None);
    }
    say_changed(rt, run, name, &facts.begun);
    Ok(Some(facts.begun))
}

// What has other bytes than when the journal was begun, which may be right.
fn say_changed(rt: &HostRuntime, run: &Subject<'_>, name: &str, begun: &Begun) {
    let Begun::With(words) = begun else {
        return;
    };
    let name = Plain(name);
    let test = test_sum(rt, run);
    if words.test_sum.as_ref().map(|sum| sum.as_str()) != test.as_ref().map(|sum| sum.as_str()) {
        let _ = eprintln!(rt; "creduce: TEST has other bytes than when {name}.journal was begun");
    }
    if program_sum(rt).is_some_and(|sum| sum.as_str() != words.program.as_str()) {
        let _ = eprintln!(rt; "creduce: {name}.journal was begun by another program");
    }
}

/// The checksum of the test's file, where a program is the test.
pub fn test_sum(rt: &HostRuntime, run: &Subject<'_>) -> Option<String> {
    if run.is_program {
        sum_of(rt, rt.alloc(), run.test).ok()
    } else {
        None
    }
}

/// The checksum of this program.
pub fn program_sum(rt: &HostRuntime) -> Option<String> {
    sum_of(rt, rt.alloc(), "/proc/self/exe").ok()
}
