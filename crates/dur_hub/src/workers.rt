//! How those that work with a hub end.

ghost use Rattle.dur_hub.specs.declared.event.Event.TheVariants.{Stop, Leave, State};
ghost use Rattle.dur_hub.specs.Hubs.{Adds};

use crate::HubState;
use crate::hub::Hub;

impl Hub {
    /// Tells those that work to end. It takes no memory.
    pub fn stop(&mut self)
        ensures { Adds self.old Stop self.new }
    {
        self.stopped = true;
    }

    /// One fewer works. Where nobody does, nothing changes. It takes no memory.
    pub fn leave(&mut self)
        ensures { Adds self.old Leave self.new }
    {
        self.working = self.working.saturating_sub(1);
    }

    /// How many work, and whether they are to end. It takes no memory.
    pub fn state(&self) -> HubState
        ensures { Adds self.now (State result) self.now }
    {
        HubState {
            working: self.working,
            stopped: self.stopped,
        }
    }
}
