//! What the grammar of the words promises as a whole.

ghost use Rattle.command_words.specs.Laws.{EachIsAsked, NothingElseIsAsked, OneIsAsked};

/// Words ask one thing at most.
pub fn one_thing_is_asked()
    ensures { OneIsAsked }
{}

/// What can be asked is a command with a journal of any name but the empty one and with any numbers that its options take, and some words ask each.
pub fn what_can_be_asked()
    ensures nothing_else { NothingElseIsAsked }
    ensures each { EachIsAsked }
{}
