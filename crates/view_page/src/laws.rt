//! Laws of the texts: each is a contract that nothing has to be done for.

ghost use Rattle.view_page.specs.Texts.{HeadersAreSafe, RowsAreSafe, RunsAreSafe};

/// A header, as it stands in a page, has no `<`, whatever the names in it are: it can't end its element.
pub fn headers_are_safe()
    ensures { HeadersAreSafe }
{}

/// Nor has a row.
pub fn rows_are_safe()
    ensures { RowsAreSafe }
{}

/// Nor have the entries of a run, whatever they tell of.
pub fn runs_are_safe()
    ensures { RunsAreSafe }
{}
