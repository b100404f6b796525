//! What a store begins with: the topics of a view.

ghost use Rattle.std.specs.Prelude.{◌≡◌, length, IfOk};
ghost use Rattle.dur_view.specs.History.{Start};
ghost use Rattle.dur_view.specs.IsSound.{IsSound};
ghost use Rattle.dur_store.specs.Parts.{AreTopics};

use dur_base::OutOfMemory;
use dur_instances::Instances;
use dur_view::View;
use std::alloc::Global;

/// What is kept of each topic of a view.
pub fn topics_of(alloc: Global, view: &View) -> Result<Vec<Instances>, OutOfMemory>
    requires { IsSound view.now }
    ensures count { IfOk result (λ xs. length xs.items ≡ length view.now.topics) }
    ensures topics { IfOk result (λ xs. AreTopics xs.items (Start view.now)) }
{
    let mut topics = Vec::new(alloc);
    for (at, topic) in view.topics.as_slice().iter().enumerate() {
        let instances = Instances::of_view(alloc, topic, at as u32, view)?;
        match topics.push(instances) {
            Ok(()) => {}
            Err(_) => return Err(OutOfMemory),
        }
    }
    Ok(topics)
}
