// The law of sessions, on the contract of a function that carries it.
ghost use Rattle.runs.specs.Law.{EqualLaw, RunLaw, SessionLaw};

// What holds of every session after every run of calls, and of every two sessions that have the same options struck.
pub fn law_stands()
    ensures settles { SessionLaw }
    ensures runs { RunLaw }
    ensures alike { EqualLaw }
{}
