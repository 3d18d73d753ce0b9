//! The watchers of a run.
ghost use Rattle.std.specs.Prelude.{◌≡◌, ◌↔◌, ◌++◌, map, IsTrue, IfOk};
ghost use Rattle.setl_top.specs.Watching.{all_told, asked_for, named, IsThere};
ghost use Rattle.setl_watch.specs.Watches.{Watch, watched};

use setl_top_words::Asked;
use setl_watch::{Watcher, report_all};
use std::alloc::AllocError;

/// The name of a watcher.
fn name_of(watcher: &Box<dyn Watcher>) -> u8
    ensures { result ≡ (watch watcher.now).name }
{
    watcher.name()
}

/// Keeps the watchers that have a name, in their order. The others are dropped.
fn keep_named(watchers: &mut Vec<Box<dyn Watcher>>, name: u8)
    ensures { map (λ w. watch w) watchers.new.items ≡ named name (map (λ w. watch w) watchers.old.items) }
{
    let mut at = 0;
    while at < watchers.len() {
        if name_of(&watchers[at]) == name {
            at += 1;
        } else {
            watchers.remove(at);
        }
    }
}

/// Keeps the watchers that are asked for, in their order. The others are dropped. The answer is whether there is one, or
/// none is asked for.
pub fn keep_asked(watchers: &mut Vec<Box<dyn Watcher>>, asked: Option<Asked>) -> bool
    ensures kept { map (λ w. watch w) watchers.new.items ≡ asked_for asked (map (λ w. watch w) watchers.old.items) }
    ensures there { IsTrue result ↔ IsThere asked (map (λ w. watch w) watchers.old.items) }
{
    match asked {
        None => {
            watchers.clear();
            true
        }
        Some(asked) => {
            keep_named(watchers, asked.name());
            !watchers.is_empty()
        }
    }
}

/// Adds to the reports those of the watchers, and then a line. The error is want of memory.
pub fn all_told(
    watchers: &[Box<dyn Watcher>],
    reports: Vec<u8>,
    line: &[u8],
) -> Result<Vec<u8>, AllocError>
    ensures { IfOk result (λ text. text.items ≡ all_told (watched (map (λ w. watch w) watchers.now) reports.items) ++ line.now) }
{
    let mut text = reports;
    report_all(watchers, &mut text)?;
    text.extend_from_slice(line)?;
    Ok(text)
}
