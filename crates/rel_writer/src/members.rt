//! The numbers that coherent sets are sent under (DDS 2.2.3.6; DDSI-RTPS 9.6.4.2). A set is sent
//! under the number of its first member, and one pass over the changes finds these.

ghost use Rattle.std.specs.Prelude.{◌≡◌, ℕ, ◌+◌, ◌<◌, ◌^◌, [], ◌∷◌, List, length, Some, slice_get, slice_set};
ghost use Rattle.dur_view.specs.declared.change.Change.{Change};
ghost use Rattle.rtps_message.specs.Sent.{sent_act};
ghost use Rattle.rel_writer.specs.Replays.{changes_after, marked};
ghost use Rattle.rel_writer.specs.Members.{first_after, last_member, mark_of};

use dur_base::{Act, Guid, Number, SetMark};
use dur_view::Change;

/// A change that is of a set.
#[derive(Clone, Copy, Drop)]
pub(crate) struct Member {
    // Whose set it is.
    writer: Guid,
    // The number that the set came under.
    set: Number,
    // The number that it is sent under.
    first: Number,
}

/// The number that a set of this writer is sent under, where a member of it has this number and
/// stands behind a member of a set, or behind a change of none.
fn first_after(last: Option<Member>, writer: Guid, set: Number, number: Number) -> Number
    ensures { result ≡ first_after last writer set number }
{
    match last {
        Some(member) => {
            if member.writer.0 == writer.0 && member.set == set {
                member.first
            } else {
                number
            }
        }
        None => number,
    }
}

/// What the change of this number is a member of, behind what the change before it is.
fn member_after(last: Option<Member>, change: &Change, number: Number) -> Option<Member>
    ensures { (before : List Change) → last ≡ last_member before → number ≡ length before + 1
        → result ≡ last_member (change.now ∷ before) }
{
    match change.sample.set {
        SetMark::Of(set) => Some(Member {
            writer: change.writer,
            set,
            first: first_after(last, change.writer, set, number),
        }),
        SetMark::NoSet | SetMark::End => None,
    }
}

/// The mark that a member is sent with, or a change of no set.
fn mark_of(member: &Option<Member>) -> SetMark
    ensures { result ≡ mark_of member.now }
{
    match member {
        Some(member) => SetMark::Of(member.first),
        None => SetMark::NoSet,
    }
}

/// The act that a change is sent with.
fn sent_act(act: Act) -> Act
    ensures { result ≡ sent_act act }
{
    match act {
        Act::DisposeUnregister => Act::Dispose,
        act => act,
    }
}

/// Gives a change the mark of such a member, and takes the unregister from a dispose.
fn give(change: &mut Change, member: &Option<Member>)
    ensures { change.new ≡ marked change.old (mark_of member.now) }
{
    change.sample.set = mark_of(member);
    change.sample.act = sent_act(change.sample.act);
}

/// Makes the change at that place what is sent of it, and says what it is a member of.
fn mark_one(changes: &mut [Change], at: usize, last: Option<Member>) -> Option<Member>
    requires within { at < length changes.old }
    requires few { length changes.old + 1 < 2 ^ 63 }
    ensures member { (before : List Change) (c : Change) → last ≡ last_member before
        → at ≡ length before → slice_get changes.old at ≡ Some c
        → result ≡ last_member (c ∷ before) }
    ensures marked { (c : Change) → slice_get changes.old at ≡ Some c
        → changes.new ≡ slice_set changes.old at (marked c (mark_of result)) }
{
    let member = member_after(last, &changes[at], Number::at(at as u64 + 1));
    give(&mut changes[at], &member);
    member
}

/// Makes each change what is sent of it, from the first one on. What a change is a member of stands
/// in the one before it, so that the changes farther in front are not looked at again.
pub(crate) fn mark_all(changes: &mut [Change])
    requires { length changes.old + 1 < 2 ^ 63 }
    ensures { changes.new ≡ changes_after [] changes.old }
{
    let mut last = None;
    for at in 0..changes.len() {
        last = mark_one(changes, at, last);
    }
}
