//! What holds of all names.
ghost use Rattle.bsdl_text.specs.Laws.{NamesMatchInAnyCase};

/// Names are the same in any case where they are equal in upper case.
pub fn names_match_in_any_case()
    ensures { NamesMatchInAnyCase }
{}
