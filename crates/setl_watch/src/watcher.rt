//! Watchers, and telling them an event.

ghost use Rattle.std.specs.Prelude.{◌≡◌, ◌≤◌, ◌<◌, ◌-◌, ◌^◌, min, ◌++◌, length, map, take, drop, true, false, IfOk, OnOk, OnErr};
ghost use Rattle.setl_watch.specs.code.NoticeOf.{notice_of};
ghost use Rattle.setl_watch.specs.Watches.{Watch, counted_by, aimed_at, after, has_enough, reported, all_reported, watched, told, told_each};
ghost use Rattle.setl_watch.specs.code.Telling.{told_from};

use crate::Event;
use std::alloc::AllocError;

/// What a watcher answers to an event.
#[derive(Clone, Copy, Debug, PartialEq, Eq)]
pub enum Wants {
    /// It is to be told the next event too.
    More,
    /// It is to be told no other event.
    Enough,
    /// Memory was refused, or a count is at its greatest number, and it wasn't told.
    NoMemory,
}

/// Who is told the events of a run.
pub trait Watcher: Drop {
    /// Its name, what it knows, how an event changes that, and what it reports.
    ghost watch: { Self → Watch };

    /// The number by which it is asked for.
    fn name(&self) -> u8
        ensures { result ≡ (watch self.now).name };

    /// Is told an event. Name, move and report stay the same. After `NoMemory` it is as before.
    fn event(&mut self, e: &Event) -> Wants
        ensures more { result ≡ Wants.More → (watch self.new ≡ after (watch self.old) (notice_of e.now)) × (has_enough (watch self.old) (notice_of e.now) ≡ false) }
        ensures enough { result ≡ Wants.Enough → (watch self.new ≡ after (watch self.old) (notice_of e.now)) × (has_enough (watch self.old) (notice_of e.now) ≡ true) }
        ensures refused { result ≡ Wants.NoMemory → watch self.new ≡ watch self.old };

    /// Adds its report. The error is want of memory, and then `into` is as before.
    fn report(&self, into: &mut Vec<u8>) -> Result<(), AllocError>
        ensures added { OnOk result (into.new.items ≡ into.old.items ++ reported (watch self.now)) }
        ensures refused { OnErr result (into.new.items ≡ into.old.items) };

    /// How much it has counted, or 2^64 - 1 where that is more. It takes no memory.
    fn count(&self) -> u64
        ensures { result ≡ min (counted_by (watch self.now)) (2 ^ 64 - 1) };

    /// Is as at first, aimed at a line. It takes no memory.
    fn aim(&mut self, line: u32)
        ensures { watch self.new ≡ aimed_at line (watch self.old) };
}

/// Tells each watcher an event, in order. One that has enough is asked for its report at once, which is added to the
/// reports, and is taken out of the list and dropped. The error is want of memory, of a watcher or for a report; some
/// watchers may have been told then.
pub fn tell(
    watchers: &mut Vec<Box<dyn Watcher>>,
    e: &Event,
    reports: &mut Vec<u8>,
) -> Result<(), AllocError>
    ensures { OnOk result (watched (map (λ w. watch w) watchers.new.items) reports.new.items ≡ told (notice_of e.now) (map (λ w. watch w) watchers.old.items) reports.old.items) }
{
    let mut at = 0;
    while at < watchers.len() {
        at = tell_one(watchers, at, e, reports)?;
    }
    Ok(())
}

/// Tells each watcher some events, one after the other, as `tell` does. The error is want of memory, and then some may have
/// been told to some watchers.
pub fn tell_each(
    watchers: &mut Vec<Box<dyn Watcher>>,
    events: &[Event],
    reports: &mut Vec<u8>,
) -> Result<(), AllocError>
    ensures { OnOk result (watched (map (λ w. watch w) watchers.new.items) reports.new.items ≡ told_each (map notice_of events.now) (watched (map (λ w. watch w) watchers.old.items) reports.old.items)) }
{
    for e in events {
        tell(watchers, e, reports)?;
    }
    Ok(())
}

/// Tells the watcher at a place an event, and answers the place of the next one.
fn tell_one(
    watchers: &mut Vec<Box<dyn Watcher>>,
    at: usize,
    e: &Event,
    reports: &mut Vec<u8>,
) -> Result<usize, AllocError>
    requires { at < length watchers.old.items }
    ensures told { IfOk result (λ next. told_from next (notice_of e.now) (map (λ w. watch w) watchers.new.items) reports.new.items ≡ told_from at (notice_of e.now) (map (λ w. watch w) watchers.old.items) reports.old.items) }
    ensures there { IfOk result (λ next. next ≤ length watchers.new.items) }
    ensures fewer { IfOk result (λ next. length watchers.new.items - next < length watchers.old.items - at) }
{
    match tell_this(&mut watchers[at], e) {
        Wants::More => Ok(at + 1),
        Wants::Enough => {
            let watcher = watchers.remove(at);
            report_this(&watcher, reports)?;
            Ok(at)
        }
        Wants::NoMemory => Err(AllocError),
    }
}

/// Tells one watcher an event.
fn tell_this(watcher: &mut Box<dyn Watcher>, e: &Event) -> Wants
    ensures more { result ≡ Wants.More → (watch watcher.new ≡ after (watch watcher.old) (notice_of e.now)) × (has_enough (watch watcher.old) (notice_of e.now) ≡ false) }
    ensures enough { result ≡ Wants.Enough → (watch watcher.new ≡ after (watch watcher.old) (notice_of e.now)) × (has_enough (watch watcher.old) (notice_of e.now) ≡ true) }
{
    watcher.event(e)
}

/// Adds the report of one watcher. The error is want of memory.
fn report_this(watcher: &Box<dyn Watcher>, reports: &mut Vec<u8>) -> Result<(), AllocError>
    ensures { OnOk result (reports.new.items ≡ reports.old.items ++ reported (watch watcher.now)) }
{
    watcher.report(reports)
}

/// Adds the reports of all watchers, in order. The error is want of memory.
pub fn report_all(watchers: &[Box<dyn Watcher>], reports: &mut Vec<u8>) -> Result<(), AllocError>
    ensures { OnOk result (reports.new.items ≡ reports.old.items ++ all_reported (map (λ w. watch w) watchers.now)) }
{
    for w in watchers {
        report_this(w, reports)?;
    }
    Ok(())
}
