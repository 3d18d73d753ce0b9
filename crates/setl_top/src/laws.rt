//! What follows from the headline and the definitions alone. The functions have no effect: each states a law.
ghost use Rattle.setl_top.specs.Laws.{IsComplete, FaultyWordsReadNothing, WordsExactly, RefusesExactly, RefusesCodeExactly, ChecksExactly, ListsExactly, CodeIsFew, BuildsExactly, CodeFilesRunAlike, OneListing, ExplainsExactly, DebugsExactly, TrialsReadNothing, TriesExactly, EndsExactly, AcceptedRunsEnd, NoAcceptedRunIsStuck, EitherProgramOrRefused, NotProgramAndRefused, OneTree, OneReason, AdvisedSourcesFit, AdvisesExactly, FailedLoadEnds, FailedReadEnds, FailedWriteEnds};

/// Where the texts are told, an `exec` of bytes that are no code file is refused by the line of their first flaw by length,
/// spelling and soundness, the output has gained nothing, and the input is left as it was.
pub fn code_refused_exactly()
    ensures { RefusesCodeExactly }
{
    setl_top_words::one_command();
    setl_top_images::one_code();
}

/// Where the texts are told, a build that came to its end was of a program where it is done, and the output has then gained a
/// code file of that program; it is refused where that would be too long. A source that is no program is refused, too, and
/// then the output has gained nothing. The input is left as it was.
pub fn builds_exactly()
    ensures { BuildsExactly }
{
    setl_top_words::one_command();
    setl_token::lexing_is_determined();
    setl_parse_reading::tree_is_unique();
    setl_parse::one_fault();
}

/// The code file that is built of a source runs as the source does: each run of the one ends as that of the other, with the
/// same output, the same events and the same dump, and leaves the same of its input.
pub fn code_files_run_alike()
    ensures { CodeFilesRunAlike }
{
    setl_top_images::one_code();
    setl_program_laws::accepted_is_formed();
    setl_code_marked_simulation::marked_code_means_what_the_program_means();
    setl_code_marked_simulation::marked_code_reaches_the_same_states();
    setl_code_layout::code_lays_out_what_is_meant();
}

/// Each source, whatever its bytes, is a program with one tree or is refused for one reason, and not both.
pub fn program_or_refusal()
    ensures either { EitherProgramOrRefused }
    ensures not_both { NotProgramAndRefused }
    ensures one_tree { OneTree }
    ensures one_reason { OneReason }
{
    setl_token::lexing_is_determined();
    setl_parse_reading::tree_is_unique();
    setl_parse::one_fault();
}

/// Where no count of faults rose and memory was found, the call came to its end.
pub fn completeness()
    ensures { IsComplete }
{}

/// A load, a read or a write of the output that failed ends the call with its status: no other count of faults rose then
/// but, at the line of the fault, that of the error output. After a load that failed the input and the output are as
/// before.
pub fn first_fault_ends()
    ensures load { FailedLoadEnds }
    ensures read { FailedReadEnds }
    ensures write { FailedWriteEnds }
{}

/// Where the words are faulty or ask for a watcher that isn't there, a call never answers that a read failed, and the
/// input is left as it was.
pub fn faulty_words_read_nothing()
    ensures { FaultyWordsReadNothing }
{}

/// A call that came to its end has the status of faulty words exactly where the words are faulty or ask for a watcher that
/// isn't there.
pub fn words_exactly()
    ensures { WordsExactly }
{
    setl_top_words::one_command();
}

/// Where the texts are told and the source is refused, a call that came to its end is refused.
pub fn refused_exactly()
    ensures { RefusesExactly }
{
    setl_top_words::one_command();
    setl_token::lexing_is_determined();
    setl_parse_reading::tree_is_unique();
    setl_parse::one_fault();
}

/// Where the texts are told, a check that came to its end is done exactly where the source is a program; the
/// output gains nothing, and at `Done` the error output neither.
pub fn checks_exactly()
    ensures { ChecksExactly }
{
    setl_top_words::one_command();
    setl_token::lexing_is_determined();
    setl_parse_reading::tree_is_unique();
    setl_parse::one_fault();
}

/// Where the texts are told, a listing that came to its end is done exactly where the source is a program; the
/// output has then gained the listing of that program's code, and otherwise nothing. The input is left as it
/// was.
pub fn lists_exactly()
    ensures { ListsExactly }
{
    setl_top_words::one_command();
    setl_token::lexing_is_determined();
    setl_parse_reading::tree_is_unique();
    setl_parse::one_fault();
}

/// Numbers of 32 bits are enough for the bodies, steps, slots and declared variables of the code of each program, also where
/// last uses are takes.
pub fn code_is_few()
    ensures { CodeIsFew }
{
    setl_code_few::code_is_few();
    setl_code_few::tokens_are_few();
}

/// Each program has a listing, and only one.
pub fn each_program_has_one_listing()
    ensures { OneListing }
{
    setl_code_marked::each_code_has_one_marked_code();
}

/// Where the texts are told, an explanation that came to its end is done exactly where the source is a program, and the output
/// has then gained nothing; otherwise the source is refused, and the output has gained the explanation of the reason. The
/// error output gains nothing, and the input is left as it was.
pub fn explains_exactly()
    ensures { ExplainsExactly }
{
    setl_top_words::one_command();
    setl_token::lexing_is_determined();
    setl_parse_reading::tree_is_unique();
    setl_parse::one_fault();
}

/// Where the texts are told, advice that came to its end is done exactly where the source is a program without declarations, and
/// the output has then gained the advice for it. A program with declarations is refused, by the line of the first, and the
/// output gains nothing. The input is left as it was.
pub fn advises_exactly()
    ensures { AdvisesExactly }
{
    setl_top_words::one_command();
    setl_token::lexing_is_determined();
    setl_parse_reading::tree_is_unique();
    setl_parse::one_fault();
}

/// The source in which advice stands is accepted, where it has at most 2^24 bytes, and no run of it in which its declarations
/// count ends for a value that doesn't fit, whatever its input and its bound on turns.
pub fn advised_sources_fit()
    ensures { AdvisedSourcesFit }
{}

/// Where the texts and the input are told and the source is a program, a session that came to its end is done exactly where
/// the input is a script, and the output has then gained what its commands tell. It is refused otherwise, by the line of the
/// input's fault, and then the output has gained nothing.
pub fn debugs_exactly()
    ensures { DebugsExactly }
{
    setl_top_words::one_command();
    setl_token::lexing_is_determined();
    setl_parse_reading::tree_is_unique();
    setl_parse::one_fault();
    setl_top_session::script_or_refusal();
}

/// A trial never answers that a read failed.
pub fn trials_read_nothing()
    ensures { TrialsReadNothing }
{
    setl_top_words::one_command();
}

/// Where the run of a trial's program with its declarations ends so, a trial that came to its end has that end's status and
/// error line, and the output has gained the trial's line where that end is done, and otherwise nothing. The input is left
/// as it was.
pub fn tries_exactly()
    ensures { TriesExactly }
{
    setl_top_words::one_command();
    setl_token::lexing_is_determined();
    setl_parse_reading::tree_is_unique();
    setl_parse::one_fault();
    setl_model::one_meaning();
}

/// Where the texts and the input are told and the program or the code ends so, a call that came to its end has that end's
/// status and output; the error output has gained the dump of its last state, where that is asked for and declarations count, then
/// what the watchers that were asked for report of its events, and then its error line.
pub fn ends_exactly()
    ensures { EndsExactly }
{
    setl_top_words::one_command();
    setl_token::lexing_is_determined();
    setl_parse_reading::tree_is_unique();
    setl_parse::one_fault();
    setl_model::one_meaning();
    setl_top_images::one_code();
}

/// Every run of an accepted program ends, for every input and bound on turns, whether declarations count or not, and none
/// is stuck.
pub fn every_accepted_run_ends()
    ensures ends { AcceptedRunsEnd }
    ensures not_stuck { NoAcceptedRunIsStuck }
{
    setl_program_laws::accepted_is_formed();
    setl_code_simulation::every_run_ends();
}
