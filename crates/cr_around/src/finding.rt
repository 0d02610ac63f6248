// The word that is the test.

/// The options whose value may stand in the next word; the others are flags.
const VALUED: [&str; 5] = ["--workers", "--window", "--limit", "--steps", "--passes"];

/// The flags but for `--reached=NAME`, which are no value where they stand behind an option.
const FLAGS: [&str; 4] = ["--journal", "--resume", "--standing", "--any-order"];

fn is_flag(word: &str) -> bool {
    FLAGS.contains(&word) || word.starts_with("--reached=")
}

/// The word that is the test, of words that ask for a reduction: the first that is no option and no option's value.
pub fn test_word(words: &[String]) -> Option<&str> {
    let mut is_value = false;
    for (number, word) in words.iter().enumerate() {
        let word = word.as_str();
        if is_flag(word) {
            continue;
        }
        if is_value {
            is_value = false;
        } else if word == "--" {
            return Some(words.get(number.saturating_add(1))?.as_str());
        } else if !word.starts_with("--") {
            return Some(word);
        } else {
            is_value = VALUED.contains(&word);
        }
    }
    None
}
