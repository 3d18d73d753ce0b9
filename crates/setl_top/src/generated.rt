//! What a trial is made of: the source of its program, its input and its line.
ghost use Rattle.std.specs.Prelude.{◌≡◌, ◌≤◌, ◌^◌, ◌∷◌, ◌++◌, [], length, IfOk, OnOk};
ghost use Rattle.setl_top.specs.Trials.{trial_source, next_draw, drawn, edge_line, trial_input, trial_line};

use setl_top_status::push_number;
use std::alloc::{AllocError, Global};

/// The source of the program of a trial.
pub fn trial_source() -> &'static [u8]
    ensures source { result.now ≡ trial_source }
    ensures short { length result.now ≤ 2 ^ 24 }
{
    b"program trial;
repr
base node: int;
g: local mmap{elmt node} sparse set(elmt node);
seen: remote set(elmt node);
end repr;
g := {}; seen := {}; todo := [1];
read(e);
(while e /= om) g{e(1)} with:= e(2); read(e); end while;
(while todo /= [])
x fromb todo;
if x notin seen then
seen with:= x;
(for y in g{x}) todo with:= y; end for;
end if;
end while;
print(#seen);
end program;
"
}

/// The number that the generator has after this one.
fn next_draw(x: u64) -> u64
    ensures { result ≡ next_draw x }
{
    x.wrapping_mul(6364136223846793005)
        .wrapping_add(1442695040888963407)
}

/// The node that is drawn by a number, from 1 to the number of nodes.
fn drawn(nodes: u64, x: u64) -> u64
    requires { 1 ≤ nodes }
    ensures { result ≡ drawn nodes x }
{
    (x >> 33) % nodes + 1
}

/// Adds a line of two draws, where the generator had this number before, and gives the number that it has then. The error
/// is want of memory.
fn push_edge(text: &mut Vec<u8>, nodes: u64, x: u64) -> Result<u64, AllocError>
    requires { 1 ≤ nodes }
    ensures line { OnOk result (text.new.items ≡ text.old.items ++ (edge_line (drawn nodes (next_draw x)) (drawn nodes (next_draw (next_draw x))) ++ 10 ∷ [])) }
    ensures next { IfOk result (λ next. next ≡ next_draw (next_draw x)) }
{
    let from = next_draw(x);
    let to = next_draw(from);
    text.push(b'[')?;
    push_number(text, drawn(nodes, from))?;
    text.push(b' ')?;
    push_number(text, drawn(nodes, to))?;
    text.extend_from_slice(b"]\n")?;
    Ok(to)
}

/// The input of a trial. The error is want of memory.
pub fn trial_input(alloc: Global, seed: u64, nodes: u64) -> Result<Vec<u8>, AllocError>
    requires some { 1 ≤ nodes }
    requires few { nodes ≤ 2000 }
    ensures { IfOk result (λ text. text.items ≡ trial_input seed nodes) }
{
    let mut text = Vec::new(alloc);
    let mut x = seed;
    for i in 0..2 * nodes {
        x = push_edge(&mut text, nodes, x)?;
    }
    Ok(text)
}

/// The line of a trial whose program printed this. The error is want of memory.
pub fn trial_line(
    alloc: Global,
    seed: u64,
    nodes: u64,
    printed: &[u8],
) -> Result<Vec<u8>, AllocError>
    ensures { IfOk result (λ line. line.items ≡ trial_line seed nodes printed.now) }
{
    let mut line = Vec::from_slice(alloc, b"trial ")?;
    push_number(&mut line, seed)?;
    line.push(b' ')?;
    push_number(&mut line, nodes)?;
    line.extend_from_slice(b": ")?;
    line.extend_from_slice(printed)?;
    Ok(line)
}
