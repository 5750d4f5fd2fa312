ghost use Rattle.gv_sctx.specs.Context.{FilledIsLoaded, StoppedComesBack, StoppedIsSaved, StoppedHasImage, StoppedHoldsContext, SubmittedIsLoaded};

/// An engine loads from a filled image what was filled in, where no context was loaded before.
pub fn filled_images_are_loaded()
    ensures filled { FilledIsLoaded }
    ensures submitted { SubmittedIsLoaded }
{}

/// The image of a context that is stopped holds it as it was, with the place that it had.
pub fn stopped_contexts_come_back()
    ensures context { StoppedComesBack }
    ensures place { StoppedIsSaved }
    ensures image { StoppedHasImage }
    ensures holds { StoppedHoldsContext }
{}
