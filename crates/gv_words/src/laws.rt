ghost use Rattle.std.specs.Prelude.{◌∷◌, [], codes};
ghost use Rattle.gv_words.specs.Names.{NamesRun, NamesGen, NoneIsCommand};

/// Which words name a command, and which name none, by example.
pub fn words_are_named()
    ensures run { NamesRun (codes "run" ∷ []) }
    ensures seven { NamesGen (codes "gen" ∷ codes "7" ∷ []) 7 }
    ensures zero { NamesGen (codes "gen" ∷ codes "0" ∷ []) 0 }
    ensures largest { NamesGen (codes "gen" ∷ codes "4294967295" ∷ []) 4294967295 }
    ensures nothing { NoneIsCommand }
{}
