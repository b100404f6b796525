//! The hub of a run.

ghost use Rattle.std.specs.Prelude.{[], IfOk};
ghost use Rattle.dur_hub.specs.Hubs.{Stands};
ghost use Rattle.dur_hub.specs.Openings.{MayOpen};
ghost use Rattle.dur_hub.specs.Runs.{opening};
ghost use Rattle.dur_rerun.specs.Rerun.Opening.{AreNumbered, IsOpening, IsOver};

use dur_base::OutOfMemory;
use dur_hub::Hub;
use dur_qos::Plan;
use dur_view::{KeptWriter, View};
use std::alloc::Global;

/// What the type knows: the next numbers of writers are sequence numbers.
fn see_numbers(writers: &[KeptWriter])
    ensures { AreNumbered writers.now }
{
    for writer in writers {
        let _next = writer.next.get();
    }
}

/// A hub over a plan and a view that it may be opened with. It stands for no call yet.
pub fn open_hub(alloc: Global, plan: Plan, view: View) -> Result<Hub, OutOfMemory>
    requires { MayOpen plan view }
    ensures opens { IsOpening plan (opening plan view 0) }
    ensures stands { IfOk result (λ hub. Stands (opening plan view 0) [] hub) }
    ensures over { IfOk result (λ hub. IsOver plan hub) }
{
    see_numbers(view.writers.as_slice());
    Hub::new(alloc, plan, view, 0)
}
