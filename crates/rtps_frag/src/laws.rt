//! What holds of all samples that come in fragments.

ghost use Rattle.rtps_frag.specs.Laws.{WholeWhereAllCame, ToldAsData, BitsInPlace};

/// An open sample is whole, and so is told, exactly where each of its fragments came since it was opened, in
/// whatever order they came and however often (DDSI-RTPS 8.4.14.1).
pub fn whole_where_all_came()
    ensures { WholeWhereAllCame }
{}

/// What a whole sample tells is what a DATA with its parts would tell: `Data`, or `Unreadable` where its inline QoS
/// has a strange parameter (DDSI-RTPS 8.3.8.3).
pub fn told_as_data()
    ensures { ToldAsData }
{}

/// Of the words of an ask each bit says whether the fragment at its place is asked for: bit d is the mask
/// `1 << (31 - d % 32)` of word `d / 32` (DDSI-RTPS 9.4.5).
pub fn bits_in_place()
    ensures { BitsInPlace }
{}
