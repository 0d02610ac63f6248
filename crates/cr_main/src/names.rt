// Names of files.
ghost use Rattle.cr_main_words.specs.Names.{IsOwnName};

/// The part of a name after the last `/`, under which a test sees the file.
pub fn own_name(name: &str) -> &str
    ensures { IsOwnName name.now result.now }
{
    match name.rsplit_once('/') {
        Some((_, own)) => own,
        None => name,
    }
}
