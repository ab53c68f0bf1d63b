ghost use Rattle.bully.specs.Pipes.{AnnotatedIsLawful, PlayedIsLawful, RunIsLawful};

/// The law of pipes. What `play`, `run` or `annotate` wrote to an output that was empty, where it answers 0, `check`
/// finds lawful, unless reading, writing or memory fails then: with the events of a play of that configuration, or as
/// what was annotated.
pub fn checked_as_lawful()
    ensures played { PlayedIsLawful }
    ensures run { RunIsLawful }
    ensures annotated { AnnotatedIsLawful }
{}
