// The end of a replay, and its last lines.
ghost use Rattle.std.specs.Prelude.{◌+◌, ◌<◌, ◌≡◌};
ghost use Rattle.text.specs.Buffer.{puts};
ghost use Rattle.text.specs.Page.{LendsSame, on_page};
ghost use Rattle.day.specs.Replay.{stop_text, end_text};
ghost use Rattle.day.specs.Ends.{stop_number, refusal_in, record_in};
ghost use Rattle.trace.specs.Turning.{stopped_at};

use day::{Ended, ReplayRefusal, Stopped, Totals};
use machine::Held;
use reader::{TraceRefusal, number};
use text::Page;

// By the name of its definition, and so no `From`.
fn stop_number(refusal: ReplayRefusal) -> u64
    ensures { result ≡ stop_number refusal }
{
    match refusal {
        ReplayRefusal::Unfit => 9,
        ReplayRefusal::Trace { refusal } => number(refusal),
    }
}

// The X line, if something stopped the replay.
fn put_stop_if(page: &mut Page, stopped: Option<Stopped>)
    ensures same { LendsSame page.old page.new }
    ensures text { on_page page.new ≡ puts (on_page page.old) (stop_text (refusal_in stopped) (record_in stopped)) }
{
    if let Some(stop) = stopped {
        page.put_stop(stop_number(stop.refusal), stop.number);
    }
}

fn put_end(page: &mut Page, stopped: Option<Stopped>, totals: Totals)
    ensures same { LendsSame page.old page.new }
    ensures text { on_page page.new ≡ puts (on_page page.old) (end_text (refusal_in stopped) (record_in stopped) totals) }
{
    put_stop_if(page, stopped);
    page.put_totals(
        totals.records,
        totals.crashes,
        totals.lines,
        totals.cut,
        totals.committed,
    );
}

pub(crate) fn ended(page: &mut Page, stopped: Option<Stopped>, totals: Totals, held: Held) -> Ended
    ensures same { LendsSame page.old page.new }
    ensures end { result ≡ record { stopped = stopped; totals = totals; length = page.new.at; held = held } }
    ensures text { on_page page.new ≡ puts (on_page page.old) (end_text (refusal_in stopped) (record_in stopped) totals) }
{
    put_end(page, stopped, totals);
    Ended {
        stopped,
        totals,
        length: page.at,
        held,
    }
}

// After so many records the next one is refused, or the trace has ended.
pub(crate) fn stopped_at(refusal: Option<TraceRefusal>, records: u64) -> Option<Stopped>
    requires { records < 65536 }
    ensures { result ≡ stopped_at refusal records }
{
    refusal.map(|refusal| Stopped {
        refusal: ReplayRefusal::from(refusal),
        number: records + 1,
    })
}
