//! Tests of single words.
ghost use Rattle.std.specs.Prelude.{◌≡◌, ◌↔◌, codes, IsTrue};
ghost use Rattle.setl_top_words.specs.Words.{IsFile};

/// Whether a word is that of a run of a source.
pub(crate) fn is_run(word: &str) -> bool
    ensures { IsTrue result ↔ (word.now ≡ codes "run") }
{
    word == "run"
}

/// Whether a word is that of a run of a code file.
pub(crate) fn is_exec(word: &str) -> bool
    ensures { IsTrue result ↔ (word.now ≡ codes "exec") }
{
    word == "exec"
}

/// Whether a word is that of a check.
pub(crate) fn is_check(word: &str) -> bool
    ensures { IsTrue result ↔ (word.now ≡ codes "check") }
{
    word == "check"
}

/// Whether a word is that of a listing.
pub(crate) fn is_code(word: &str) -> bool
    ensures { IsTrue result ↔ (word.now ≡ codes "code") }
{
    word == "code"
}

/// Whether a word is that of a code file that is to be built.
pub(crate) fn is_build(word: &str) -> bool
    ensures { IsTrue result ↔ (word.now ≡ codes "build") }
{
    word == "build"
}

/// Whether a word is that of advice.
pub(crate) fn is_advise(word: &str) -> bool
    ensures { IsTrue result ↔ (word.now ≡ codes "advise") }
{
    word == "advise"
}

/// Whether a word is that of an explanation.
pub(crate) fn is_explain(word: &str) -> bool
    ensures { IsTrue result ↔ (word.now ≡ codes "explain") }
{
    word == "explain"
}

/// Whether a word is the option whose value is a stop.
pub(crate) fn is_stop(word: &str) -> bool
    ensures { IsTrue result ↔ (word.now ≡ codes "--stop") }
{
    word == "--stop"
}

/// Whether a word is that of a session of the debugger.
pub(crate) fn is_debug(word: &str) -> bool
    ensures { IsTrue result ↔ (word.now ≡ codes "debug") }
{
    word == "debug"
}

/// Whether a word is that of a trial.
pub(crate) fn is_trial(word: &str) -> bool
    ensures { IsTrue result ↔ (word.now ≡ codes "trial") }
{
    word == "trial"
}

/// Whether a word is the option that takes the declarations' effect away.
pub(crate) fn is_unbased(word: &str) -> bool
    ensures { IsTrue result ↔ (word.now ≡ codes "--unbased") }
{
    word == "--unbased"
}

/// Whether a word is the option that asks for the dump.
pub(crate) fn is_dump(word: &str) -> bool
    ensures { IsTrue result ↔ (word.now ≡ codes "--dump") }
{
    word == "--dump"
}

/// Whether a word is the option whose value bounds the turns.
pub(crate) fn is_turns(word: &str) -> bool
    ensures { IsTrue result ↔ (word.now ≡ codes "--turns") }
{
    word == "--turns"
}

/// Whether a word is the option whose value is a watcher.
pub(crate) fn is_watch(word: &str) -> bool
    ensures { IsTrue result ↔ (word.now ≡ codes "--watch") }
{
    word == "--watch"
}

/// Whether a word asks for a trace.
pub(crate) fn is_trace(word: &str) -> bool
    ensures { IsTrue result ↔ (word.now ≡ codes "trace") }
{
    word == "trace"
}

/// Whether a word asks for a cover.
pub(crate) fn is_cover(word: &str) -> bool
    ensures { IsTrue result ↔ (word.now ≡ codes "cover") }
{
    word == "cover"
}

/// Whether a word asks for a profile.
pub(crate) fn is_profile(word: &str) -> bool
    ensures { IsTrue result ↔ (word.now ≡ codes "profile") }
{
    word == "profile"
}

/// Whether a file may have that name in the words.
pub(crate) fn is_file(word: &str) -> bool
    ensures { IsTrue result ↔ IsFile word.now }
{
    let bytes = word.as_bytes();
    !bytes.is_empty() && bytes[0] != b'-'
}
