// The words beside a journal.
use crate::one_run::Subject;
use crate::refused::{program_sum, test_sum};
use cr_around::{Begun, Ending, JournalWords, Plain, words_text};
use cr_outside::Files;
use creduce_system::{StdFiles, has_length};
use std::alloc::AllocError;
use std::fs;

fn beside(rt: &HostRuntime, name: &str, ending: Ending) -> Result<String, AllocError> {
    format!(in rt.alloc(); "{name}{}", ending.text())
}

/// The words of a run that keeps a journal: those of the run that began it, or its own, which are put beside the journal before it is made.
pub fn words_of(
    rt: &HostRuntime,
    run: &Subject<'_>,
    begun: Begun,
) -> Result<Option<JournalWords>, AllocError> {
    let Some(name) = run.name.filter(|_| run.keeps_journal()) else {
        return Ok(None);
    };
    if let Begun::With(words) = begun {
        return Ok(Some(words));
    }
    if has_length(rt, beside(rt, name, Ending::Journal)?.as_str()) {
        return Ok(None);
    }
    let words = own_words(rt, run)?;
    let text = words_text(rt.alloc(), &words)?;
    let path = beside(rt, name, Ending::JournalWords)?;
    let mut files = StdFiles::new(rt, Some(name));
    if files
        .write(rt.alloc(), path.as_str(), text.as_bytes())
        .is_err()
    {
        let path = Plain(path.as_str());
        let _ = eprintln!(rt;
            "creduce: {path} could not be written, so --resume will not go on with this run"
        );
    }
    Ok(Some(words))
}

fn own_words(rt: &HostRuntime, run: &Subject<'_>) -> Result<JournalWords, AllocError> {
    Ok(JournalWords {
        test: String::from_str(rt.alloc(), run.test)?,
        test_sum: test_sum(rt, run),
        any_order: run.modes.any_order,
        reached: match run.reached {
            Some(label) => Some(label.clone()?),
            None => None,
        },
        program: match program_sum(rt) {
            Some(sum) => sum,
            None => String::from_str(rt.alloc(), "unknown")?,
        },
        result: None,
    })
}

/// Takes the words away again where no journal was begun.
pub fn tidy_words(rt: &HostRuntime, run: &Subject<'_>) -> Result<(), AllocError> {
    let Some(name) = run.name.filter(|_| run.keeps_journal()) else {
        return Ok(());
    };
    if !has_length(rt, beside(rt, name, Ending::Journal)?.as_str()) {
        // Words that stay do no harm: the next run that begins a journal writes them anew.
        let _ = fs::remove_file(rt, &*beside(rt, name, Ending::JournalWords)?);
    }
    Ok(())
}
