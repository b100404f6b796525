//! What is ready of one writer is admitted, in order.

ghost use Rattle.std.specs.Prelude.{◌≡◌, ℕ, ◌<◌, ◌-◌, ◌^◌};
ghost use Rattle.rel_reader.specs.Windows.{HasSample};
ghost use Rattle.dur_hub.specs.Drains.{Turns, Drains, IsReadySkip};

use crate::End;
use crate::ledger::{Ledger, Refused};
use dur_base::{Entry, GREATEST_NUMBER, Guid, Number, Ticks};
use rel_reader::{Proxy, Ready};

/// What one number did.
#[derive(Clone, Copy, Debug, Drop)]
pub enum Turned {
    /// It was handled.
    More,
    /// The numbers end here.
    Done(End),
}

/// Admits the sample of the writer's next number.
fn take_sample(
    ledger: &mut Ledger,
    proxy: &mut Proxy,
    writer: Guid,
    stored: bool,
    moment: Ticks,
    number: Number,
) -> Turned
    requires has { HasSample proxy.old }
    requires next { number ≡ proxy.old.next }
    requires short { number < 2 ^ 63 - 1 }
    ensures { Turns ledger.old proxy.old writer stored moment result ledger.new proxy.new }
{
    let sample = match proxy.sample().to_keep(ledger.queue.alloc()) {
        Ok(sample) => sample,
        Err(_) => return Turned::Done(End::Stopped),
    };
    match ledger.admit(
        Entry::Took {
            moment,
            writer,
            number,
            sample,
        },
        stored,
    ) {
        Ok(()) => {
            let _sample = proxy.handled();
            Turned::More
        }
        Err(Refused::Limit(limit)) => {
            proxy.refuse();
            Turned::Done(End::Refuses { number, limit })
        }
        Err(Refused::OutOfMemory) => Turned::Done(End::Stopped),
    }
}

/// Admits the skip of the writer's next numbers.
fn take_skip(
    ledger: &mut Ledger,
    proxy: &mut Proxy,
    writer: Guid,
    stored: bool,
    moment: Ticks,
    from: Number,
    to: Number,
) -> Turned
    requires ready { IsReadySkip proxy.old from to }
    requires short { (proxy.old.next < 2 ^ 63 - 1) × (to < 2 ^ 63 - 1) }
    ensures { Turns ledger.old proxy.old writer stored moment result ledger.new proxy.new }
{
    match ledger.admit(
        Entry::Skip {
            moment,
            writer,
            from,
            to,
        },
        stored,
    ) {
        Ok(()) => {
            let _none = proxy.handled();
            Turned::More
        }
        Err(_) => Turned::Done(End::Stopped),
    }
}

/// Admits what is ready at the writer's next number.
fn turn(ledger: &mut Ledger, proxy: &mut Proxy, writer: Guid, stored: bool, moment: Ticks) -> Turned
    ensures { Turns ledger.old proxy.old writer stored moment result ledger.new proxy.new }
{
    let number = proxy.next();
    if number.get() >= GREATEST_NUMBER {
        return Turned::Done(End::Waits);
    }
    match proxy.ready() {
        Ready::Nothing => Turned::Done(End::Waits),
        Ready::Sample => take_sample(ledger, proxy, writer, stored, moment, number),
        Ready::Skip(from, to) => take_skip(ledger, proxy, writer, stored, moment, from, to),
    }
}

/// Admits the writer's numbers from its next one on, as far as they are ready.
pub fn drain(
    ledger: &mut Ledger,
    proxy: &mut Proxy,
    writer: Guid,
    stored: bool,
    moment: Ticks,
) -> End
    ensures { Drains ledger.old proxy.old writer stored moment result ledger.new proxy.new }
{
    'numbers: loop {
        match turn(ledger, proxy, writer, stored, moment) {
            Turned::More => {}
            Turned::Done(end) => return end,
        }
    }
}
