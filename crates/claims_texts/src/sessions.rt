//! What `evltool run` makes of the lines of a session.

ghost use Rattle.claims_texts.specs.Sessions.{IsRunAgain};

/// The lines of a session, each with a newline, are a script. A run of it, by the definition of a run's report, comes to its
/// end with each line done, and leaves the machine of the session.
pub fn a_session_is_a_run()
    ensures { IsRunAgain }
{}
