//! Explanations of refused sources, and of stops.

use crate::calls::answer;
use setl_top::Status;
use std::test::Fail;

/// A source that lacks a `;`.
const LACKING: &str = "program p;
x := 1
print(x);
end program;";

/// What is told of it.
const EXPLAINED: &str = "at 18: syntax
line 3, column 1
    print(x);
    ^
Here can stand (at most ten are told): `;`, `(`, `{`, `=`, `/=`, `<`, `<=`, `>`, `>=`, `+`
Still open at this place:
    `program` of line 1
The token at this place can't stand there: with it the source so far is the beginning of no program.
What is wrong often stands just before it. At the end of the file, something is still open there.
Instead: Look for a missing `;`, `)`, `then` or `end` before the place (as the `;` behind `x := 1`),
for `=` in place of `:=`, and for a reserved word that was taken for a name (`set`, `range`,
`string`, `max`, `from`, `base`, ..). A loop begins with `(`, as `(for x in s) .. end for;`, and has
neither `do` nor `loop`.
";

/// What is told of a `return` in the main program.
const BROKEN: &str = "line 2: rule 14
line 2, column 1
    return;
    ^
`return` stands in the main program.
Instead: `stop;`, which ends the run with status 0.
";

#[test]
fn refused_sources_are_explained(rt: HostRuntime) -> Result<(), Fail> {
    let alloc = rt.alloc();
    let left = answer(alloc, "explain a", LACKING)?;
    assert!(rt; left.is(Status::Refused, EXPLAINED, ""));
    let left = answer(alloc, "explain a", "program p;\nreturn;\nend program;")?;
    assert!(rt; left.is(Status::Refused, BROKEN, ""));
    let left = answer(alloc, "explain a", "program p; print(1); end program;")?;
    assert!(rt; left.is(Status::Done, "", ""));
    Ok(())
}
