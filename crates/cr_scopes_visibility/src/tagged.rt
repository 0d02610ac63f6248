//! What a reader expects of tags. The program doesn't call this function.
ghost use Rattle.cr_scopes_visibility.specs.Tagged.Laws.{TagsAreMarked, TagsStandForTags};

/// Each tag stands for one that declares itself.
pub fn tags_stand_for_tags()
    ensures { TagsStandForTags }
{}

/// Nodes tell as tags what is their tag, and nothing else.
pub fn tags_are_marked()
    ensures { TagsAreMarked }
{}
