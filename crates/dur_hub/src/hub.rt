//! The hub: each changing call is one legal event of its run.

ghost use Rattle.std.specs.Prelude.{◌≡◌, ◌||◌, ℕ, true, List, [], ◌∷◌, ◌++◌, length, IfOk};
ghost use Rattle.dur_hub.specs.declared.event.Event.{Event};
ghost use Rattle.dur_hub.specs.Runs.{opening};
ghost use Rattle.dur_hub.specs.Openings.{MayOpen};
ghost use Rattle.dur_hub.specs.Hubs.{Stands, Adds};
ghost use Rattle.dur_hub.specs.Places.{found};
ghost use Rattle.dur_hub.specs.Answers.{Answers, TellsReceive, Begins, AnswersFacts, IsStopped};
ghost use Rattle.rtps_message.specs.Facts.{AreGood};

use crate::Received;
use crate::due::{first_end, is_after};
use crate::lease::lease_step;
use crate::ledger::Ledger;
use crate::left_behind::{Leaver, left_behind};
use crate::line::{Line, lines_of};
use crate::notes::Notes;
use crate::places::index_of;
use crate::receiving::hear_all;
use dur_base::{Fact, Guid, List, OutOfMemory, Ticks, later};
use dur_qos::Plan;
use dur_store::Store;
use dur_view::View;
use std::alloc::Global;
use std::collections::{HashMap, VecDeque};

/// One hub. Contracts tell it by the lists of calls that it stands for (`Stands`).
#[derive(Drop)]
pub struct Hub {
    pub(crate) plan: Plan,
    pub(crate) ledger: Ledger,
    /// The writers of the plan, in its order.
    pub(crate) lines: Vec<Line>,
    /// The places of the lines by the GUIDs of their writers.
    pub(crate) index: HashMap<[u8; 16], usize>,
    /// The store's place of each topic of the plan.
    pub(crate) places: List<u32>,
    /// The last moment that was used.
    pub(crate) moment: Ticks,
    /// Whether the first lease step is done.
    pub(crate) begun: bool,
    /// Up to when no lease ends, in ticks, once it is. None: none ever does.
    pub(crate) due: Option<u128>,
    /// The readers to whom a snapshot was given.
    pub(crate) given: Vec<Guid>,
    /// Those that the first lease step still has to lose.
    pub(crate) leaving: VecDeque<Leaver>,
    /// How many acknowledgements were given, modulo 2^64.
    pub(crate) acks: u64,
    /// How many refusals were answered, modulo 2^64.
    pub(crate) refused: u64,
    /// How many work.
    pub(crate) working: u32,
    /// Whether they are to end.
    pub(crate) stopped: bool,
}

fn either(a: bool, b: bool) -> bool
    ensures { result ≡ (a || b) }
{
    a || b
}

// The answer of a call.
fn answer(notes: Notes, handled: usize, stopped: bool) -> Received
    ensures { (result.acks ≡ notes.acks.items) × (result.refused ≡ notes.refused.items)
        × (result.handled ≡ handled) × (result.stopped ≡ stopped) }
{
    let Notes { acks, refused, .. } = notes;
    Received {
        acks: List::of(acks),
        refused: List::of(refused),
        handled,
        stopped,
    }
}

// The facts of a call, after its lease step.
fn answer_facts(
    ledger: &mut Ledger,
    lines: &mut [Line],
    index: &HashMap<[u8; 16], usize>,
    due: &mut Option<u128>,
    alloc: Global,
    moment: Ticks,
    facts: List<Fact>,
) -> Received
    requires { AreGood facts }
    ensures { Answers ledger.old lines.old (found index.now) due.old moment facts result ledger.new lines.new due.new }
{
    let mut notes = Notes {
        acks: Vec::new(alloc),
        refused: Vec::new(alloc),
        due: *due,
    };
    let heard = hear_all(ledger, lines, index, moment, facts.into_vec(), &mut notes);
    *due = notes.due;
    answer(notes, heard.handled, heard.stopped)
}

// The answer of a call whose lease step found no memory.
fn no_facts(alloc: Global) -> Received
    ensures { IsStopped result }
{
    Received {
        acks: List::new(alloc),
        refused: List::new(alloc),
        handled: 0,
        stopped: true,
    }
}

impl Hub {
    /// A hub over a plan and the view that the journal opened with, where so many work. It stands for no call yet.
    pub fn new(alloc: Global, plan: Plan, view: View, working: u32) -> Result<Hub, OutOfMemory>
        requires { MayOpen plan view }
        ensures { IfOk result (λ hub. Stands (opening plan view working) [] hub) }
    {
        let moment = view.last;
        let leaving = left_behind(alloc, &plan, &view)?;
        let store = Store::of_view(alloc, &plan, view)?;
        let places = store.places(&plan)?;
        let lines = lines_of(alloc, &plan, &store)?;
        let index = index_of(alloc, &lines)?;
        Ok(Hub {
            plan,
            ledger: Ledger::new(alloc, store),
            lines,
            index,
            places,
            moment,
            begun: false,
            due: None,
            given: Vec::new(alloc),
            leaving,
            acks: 0,
            refused: 0,
            working,
            stopped: false,
        })
    }

    /// The lease step at the moment that the call uses, where a lease may have ended by then. False: there was no memory for
    /// one of its losses.
    pub(crate) fn begin(&mut self, moment: Ticks) -> bool
        ensures { Begins self.old moment result self.new }
    {
        let used = later(self.moment, moment);
        self.moment = used;
        if self.begun && !is_after(self.due, used) {
            return true;
        }
        let whole = lease_step(
            &mut self.ledger,
            &mut self.lines,
            self.begun,
            &mut self.leaving,
            used,
        );
        self.due = first_end(&self.lines);
        self.begun = either(self.begun, whole);
        whole
    }

    // The facts of a call, after its lease step.
    fn hear_facts(&mut self, alloc: Global, facts: List<Fact>) -> Received
        requires { AreGood facts }
        ensures { AnswersFacts self.old facts result self.new }
    {
        let reply = answer_facts(
            &mut self.ledger,
            &mut self.lines,
            &self.index,
            &mut self.due,
            alloc,
            self.moment,
            facts,
        );
        self.acks = self.acks.wrapping_add(reply.acks.len() as u64);
        self.refused = self.refused.wrapping_add(reply.refused.len() as u64);
        reply
    }

    /// Handles the facts of one datagram, after the lease step (DDS 2.2.3.11, DDSI-RTPS 8.4.12). Where memory was wanting,
    /// and only then, `stopped` is true: `handled` facts were handled whole, and of the next one a first part of its
    /// numbers.
    pub fn receive(&mut self, alloc: Global, moment: Ticks, facts: List<Fact>) -> Received
        requires { AreGood facts }
        ensures { (e : Event) × TellsReceive moment facts result e × Adds self.old e self.new }
    {
        if !self.begin(moment) {
            return no_facts(alloc);
        }
        self.hear_facts(alloc, facts)
    }

    /// A `receive` of no facts: the lease step at a moment.
    pub fn tick(&mut self, alloc: Global, moment: Ticks) -> Received
        ensures { (e : Event) × TellsReceive moment [] result e × Adds self.old e self.new }
    {
        self.receive(alloc, moment, List::new(alloc))
    }
}
