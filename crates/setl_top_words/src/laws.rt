//! What follows from the definitions alone. The functions have no effect: each states a law.
ghost use Rattle.std.specs.Prelude.{◌∷◌, ◌-◌, ◌^◌, [], codes, true, false, Some, None};
ghost use Rattle.setl_top_words.specs.Words.{OneCommand, Run, Check, Debug, Trial, Spells, IsFaulty};
ghost use Rattle.setl_top_words.specs.declared.reading.FileKind.TheVariants.{Source, CodeFile};
ghost use Rattle.setl_top_options.specs.declared.watching.Asked.TheVariants.{Trace, Cover, Profile};

/// Words spell at most one command.
pub fn one_command()
    ensures { OneCommand }
{}

/// Words of the plain form, and what they spell.
pub fn plain_words()
    ensures run { Spells (codes "run" ∷ codes "q" ∷ []) (Run Source (record { turns = 2 ^ 63 - 1; based = true; dump = false; watch = None }) (codes "q")) }
    ensures both { Spells (codes "run" ∷ codes "--turns" ∷ codes "50" ∷ codes "--unbased" ∷ codes "q" ∷ []) (Run Source (record { turns = 50; based = false; dump = false; watch = None }) (codes "q")) }
    ensures swapped { Spells (codes "run" ∷ codes "--unbased" ∷ codes "--turns" ∷ codes "0" ∷ codes "q" ∷ []) (Run Source (record { turns = 0; based = false; dump = false; watch = None }) (codes "q")) }
    ensures trace { Spells (codes "run" ∷ codes "--watch" ∷ codes "trace" ∷ codes "q" ∷ []) (Run Source (record { turns = 2 ^ 63 - 1; based = true; dump = false; watch = Some Trace }) (codes "q")) }
    ensures profile { Spells (codes "run" ∷ codes "--watch" ∷ codes "profile" ∷ codes "q" ∷ []) (Run Source (record { turns = 2 ^ 63 - 1; based = true; dump = false; watch = Some Profile }) (codes "q")) }
    ensures cover { Spells (codes "run" ∷ codes "--unbased" ∷ codes "--watch" ∷ codes "cover" ∷ codes "q" ∷ []) (Run Source (record { turns = 2 ^ 63 - 1; based = false; dump = false; watch = Some Cover }) (codes "q")) }
    ensures dump { Spells (codes "run" ∷ codes "--dump" ∷ codes "q" ∷ []) (Run Source (record { turns = 2 ^ 63 - 1; based = true; dump = true; watch = None }) (codes "q")) }
    ensures code_file { Spells (codes "exec" ∷ codes "--turns" ∷ codes "50" ∷ codes "q" ∷ []) (Run CodeFile (record { turns = 50; based = true; dump = false; watch = None }) (codes "q")) }
    ensures check { Spells (codes "check" ∷ codes "q" ∷ []) (Check (codes "q")) }
    ensures debug { Spells (codes "debug" ∷ codes "q" ∷ []) (Debug true (codes "q")) }
    ensures unbased { Spells (codes "debug" ∷ codes "--unbased" ∷ codes "q" ∷ []) (Debug false (codes "q")) }
    ensures trial { Spells (codes "trial" ∷ codes "7" ∷ codes "2000" ∷ []) (Trial 7 2000) }
{}

/// Words of no plain form.
pub fn faulty_words()
    ensures nothing { IsFaulty [] }
    ensures no_file { IsFaulty (codes "run" ∷ []) }
    ensures dash { IsFaulty (codes "run" ∷ codes "q" ∷ codes "--unbased" ∷ []) }
    ensures again { IsFaulty (codes "run" ∷ codes "--unbased" ∷ codes "--unbased" ∷ codes "q" ∷ []) }
    ensures no_value { IsFaulty (codes "run" ∷ codes "--turns" ∷ codes "q" ∷ []) }
    ensures no_watcher { IsFaulty (codes "run" ∷ codes "--watch" ∷ codes "q" ∷ []) }
    ensures other_watcher { IsFaulty (codes "run" ∷ codes "--watch" ∷ codes "profiles" ∷ codes "q" ∷ []) }
    ensures two_watchers { IsFaulty (codes "run" ∷ codes "--watch" ∷ codes "trace" ∷ codes "--watch" ∷ codes "cover" ∷ codes "q" ∷ []) }
    ensures leading_zero { IsFaulty (codes "run" ∷ codes "--turns" ∷ codes "07" ∷ codes "q" ∷ []) }
    ensures too_great { IsFaulty (codes "run" ∷ codes "--turns" ∷ codes "9223372036854775808" ∷ codes "q" ∷ []) }
    ensures other_option { IsFaulty (codes "debug" ∷ codes "--turns" ∷ codes "q" ∷ []) }
    ensures no_nodes { IsFaulty (codes "trial" ∷ codes "7" ∷ []) }
    ensures too_few_nodes { IsFaulty (codes "trial" ∷ codes "7" ∷ codes "0" ∷ []) }
    ensures too_many_nodes { IsFaulty (codes "trial" ∷ codes "7" ∷ codes "2001" ∷ []) }
    ensures other_seed { IsFaulty (codes "trial" ∷ codes "07" ∷ codes "1" ∷ []) }
{}
